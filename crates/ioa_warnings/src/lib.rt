//! What is likely a mistake in a source that is fine: parameters of which no precondition says
//! anything, transitions that are never performed, and comments that begin within a statement.
//! Nothing is refused for it.
#![tactic(auto)]

mod comments;
mod conditions;
mod dead;
mod free;
mod laws;
mod names;
mod operands;

pub use comments::comments_in_statements;
pub use dead::{DeadTransition, dead_transitions};
pub use free::{FreeParameter, free_parameters};
pub use laws::{cut_is_broken_off, dead_is_disabled, free_is_enabled, nothing_is_tried};
pub use names::mentions;
