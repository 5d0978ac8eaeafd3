//! What is found out of an action before a worker has a plan for it.

use ioa_system::Moved;

/// Whether a worker can plan an action.
#[derive(Drop)]
pub enum Assessed {
    /// No component has the action.
    NotAnAction,
    /// The owner's precondition does not hold.
    NotEnabled,
    /// The action is another worker's.
    NotYours,
    /// The numbers of the participants, and what the action does to their states.
    Usable(Vec<usize>, Moved),
}
