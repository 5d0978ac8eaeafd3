//! The grammar: which tokens spell a source, and how they are read. One table says how operators
//! bind and are written, from which reading and printing take all else. Here tokens are taken one
//! by one, and expressions are read, at most 64 deep; or it is told how many tokens were left
//! where nothing goes on.
#![tactic(auto)]

// Tokens that are still to be read, and why they are not.
mod cursor;
mod fault;

// Expressions.
mod calls;
mod expressions;
mod measured;
mod operators;

pub use cursor::Cursor;
pub use expressions::{MAX_DEPTH, measured_expression, whole_expression};
pub use fault::{Fault, ReadError};
pub use measured::Measured;
pub use operators::{stands_around, word_of};
