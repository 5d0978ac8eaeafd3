//! Outcomes: what is left of a run once no worker takes a turn any more.

use crate::report::Report;
use ioa_node::NodeState;
use ioa_system::{LogEnd, LogEntry};

/// What a run gives.
#[derive(Drop)]
pub struct Outcome {
    /// The actions that were performed, in order, each with its worker and, last, one that faulted.
    pub log: Vec<LogEntry>,
    /// The components' states then.
    pub states: Vec<NodeState>,
    pub end: LogEnd,
    /// A report for each component, in order, and last for the environment.
    pub reports: Vec<Report>,
}
