//! What a part of a component's code comes to, on values of its variables and of an action: whether a
//! precondition holds, what an effect leaves, and what a proposal gives by words of chance. This is said
//! of values, whatever machine runs the code, and there is none here.
#![tactic(auto)]

mod proposal;
mod words;

pub use proposal::Proposal;
pub use words::Words;
