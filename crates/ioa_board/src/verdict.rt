//! Answers to a commit, by the board as it stands then.

use crate::plan::Plan;
use ioa_value::Fault;

/// What a commit answers.
#[derive(Drop)]
pub enum Verdict<'p> {
    /// An action has faulted before.
    Stopped,
    /// A participant's state is not what it was when the action was planned.
    Stale,
    /// The component of this number faults: the fault is recorded.
    Faulted(usize, Fault),
    /// The action was performed: it has this index in the history.
    Committed(usize),
    /// A growth of memory was refused: nothing changed, and here is the plan again.
    Memory(Plan<'p>),
}
