//! Declarations, which are read one by one, and that what is read is what the tokens spell; and
//! the token at which no source goes on.
#![tactic(auto)]

// Automata.
mod automata;
mod signatures;
mod statements;
mod states;
mod transitions;

// The other declarations, and any of them.
mod compositions;
mod declarations;
mod invariants;
mod types;

// Where tokens are no source.
mod dead_ends;

pub use dead_ends::{dead_end, goes_on};
pub use declarations::declaration;
