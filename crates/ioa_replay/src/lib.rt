//! Lists and logs from a reader, and replays of them; and logs that are in memory.
#![tactic(auto)]

mod given_logs;
mod log_replays;
mod replays;
mod traced_judge;

pub use given_logs::read_log;
pub use log_replays::{perform_log, replay_log};
pub use replays::{perform_list, replay_list};
pub use traced_judge::{TracedJudge, replay};
