//! Answers to a worker that wants to plan an action.

use crate::plan::Plan;

/// What making a plan answers.
#[derive(Drop)]
pub enum Planned<'p> {
    /// A plan, which may be committed; the action may fault then.
    Ready(Plan<'p>),
    /// No component has the action.
    NotAnAction,
    /// The owner's precondition does not hold.
    NotEnabled,
    /// The action is another worker's.
    NotYours,
}
