//! Automata that crash and recover: the rewriting of an automaton's tree, which means the component that does so, and copies of
//! trees, of which it is made.
#![tactic(auto)]

mod copies;
mod laws;
mod limits;
mod rewriting;

pub use copies::{copied_automaton, copied_invariant};
pub use laws::{rewriting_means_crash, rewriting_stays_fine};
pub use limits::COMPONENT_LIMITS;
pub use rewriting::rewritten;
