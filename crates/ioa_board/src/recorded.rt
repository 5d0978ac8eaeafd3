//! Faults on a board: they end a run, and change no state.

use ioa_system::LogEntry;
use ioa_value::Fault;

/// The fault that stopped a run.
#[derive(Drop)]
pub struct Recorded {
    /// The action that faulted, with its worker.
    pub entry: LogEntry,
    /// The number of the component whose fault it is.
    pub component: usize,
    pub fault: Fault,
}
