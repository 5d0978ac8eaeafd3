//! Texts of logs, lists and logs that are performed and judged line by line, and whether the run that a log tells is the program's.
#![tactic(auto)]

// Runs of lists.
mod reading;
mod run_logs;
mod trace;

// Texts of logs.
mod begun_logs;
mod end_texts;
mod line_parser;
mod log_lines;
mod logs;
mod spelled;

// Logs against the program's run.
mod judge;
mod line_judge;
mod log_reading;

// Laws.
mod laws;

pub use begun_logs::begun_log;
pub use judge::Judge;
pub use laws::{
    accepted_logs_agree, judged_entry_by_entry, judged_is_the_run, logs_have_one_answer,
    logs_tell_histories, no_refusal, one_log, refused_logs_have_reasons, run_log_is_read,
    run_logs_agree, verdict_is_the_first_difference, written_log_is_read,
};
pub use line_judge::{LineJudge, Taken};
pub use line_parser::{LineParser, Parsed};
pub use log_reading::LogReading;
pub use logs::{read_text, write_log};
pub use reading::{Reading, Replayed};
pub use run_logs::log_list;
pub use trace::Trace;
// What logs are is defined beside the runs that they tell.
pub use ioa_system::{Log, LogEnd, LogEntry};
