//! What is asked of logs beyond their replay, line by line: which invariants the states of their runs break, what a monitor accepts of them, and
//! their entries, one after another.
#![tactic(auto)]

mod broken_invariants;
mod log_entries;
mod log_inspections;
mod log_monitors;

// Laws.
mod laws;

pub use broken_invariants::{Broken, Inspection, inspect, invariants};
pub use laws::first_broken_is_least;
pub use log_entries::{EntryWriter, write_entries};
pub use log_inspections::{LogInspection, inspect_log};
pub use log_monitors::monitor_log;
