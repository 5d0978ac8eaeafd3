//! Serves each thing that the words of a command line ask for, from what files hold to what is
//! written; or says why not, by a `Failure` with its code, text and `Status`. Contracts say by the
//! meaning of the source, or by the object's program, what was written.
#![tactic(auto)]

// Files, and what becomes of requests.
mod failure;
mod object_failure;
mod refusal;
mod served;
mod status;
mod store;

// Sources and objects.
mod check;
mod compile;
mod composition_graph;
mod dump;
mod object_file;
mod placing;
mod sourced;

// Lists and logs.
mod at_hand;
mod covered;
mod cuts;
mod invariant_objects;
mod invariant_replay;
mod json;
mod judged;
mod list_log;
mod log_chart;
mod log_counts;
mod log_log;
mod log_replay;
mod monitor;
mod objects;
mod replay;
mod replay_forms;
mod replay_objects;
mod specifications;
mod states_replay;
mod stream_counts;
mod stream_watch;
mod strict_monitor;
mod verdict;

// Runs.
mod kept_log;
mod ready;
mod reports;
mod run;
mod run_log;
mod script;
mod seed;
mod seed_counts;
mod seed_lines;
mod seed_objects;
mod seed_tally;
mod seeds;
mod sown;
mod tallies;
mod trace;
mod word_sources;
mod words_file;

// The gate of runs on threads.
mod groups;
mod links;
mod pace;
mod pacer;
mod progress;

// Texts that are there from the start.
pub mod explain;
mod library;

// Laws.
mod laws;

pub use at_hand::AtHand;
pub use check::check_text;
pub use compile::{compile_text, compose_text, is_object, object_of, program_of};
pub use composition_graph::graph_text;
pub use covered::replay_coverage_text;
pub use cuts::cut_text;
pub use dump::dump_object;
pub use failure::Failure;
pub use groups::groups_of;
pub use invariant_objects::replay_invariants_objects_text;
pub use invariant_replay::{Finding, replay_invariants_text};
pub use kept_log::{LOG_MARK, log_bytes};
pub use laws::{
    cuts_are_beginnings, objects_do_as_their_sources, objects_run_as_their_sources,
    objects_tell_actions, one_composition, silent_runs_lack_no_memory, stenning_delivers,
    strict_answers_agree,
};
pub use library::write_library;
pub use list_log::log_list_text;
pub use log_chart::chart_log_text;
pub use log_counts::put_monitor_counts;
pub use log_log::log_log_text;
pub use log_replay::replay_log_text;
pub use monitor::{monitor_text, performed_in};
pub use object_file::{OBJECT_MARK, compile_file};
pub use pace::{Arrival, Pace};
pub use placing::gives_way;
pub use progress::Progress;
pub use replay::replay_text;
pub use replay_forms::{replay_in_form, replay_invariants_in_form, replay_log_in_form};
pub use replay_objects::{replay_log_objects_text, replay_objects_text};
pub use reports::send_wants;
pub use run::{Ran, run_file};
pub use seeds::run_seeds_file;
pub use served::{Served, silent};
pub use states_replay::{replay_log_states_text, replay_states_text};
pub use status::{Status, status_of};
pub use store::{Store, StoreErr};
pub use stream_watch::watch_text;
pub use strict_monitor::strict_monitor_text;
pub use verdict::{Verdict, status_of_verdict};
