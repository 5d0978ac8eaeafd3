//! Trees of the language, and what they mean: when a source is well formed, and what its instances,
//! steps, runs and traces are. A tree keeps nothing but its form; what is made of one above says by
//! its type what it keeps.
#![tactic(auto)]

mod laws;
mod sameness;
mod tree;

pub use laws::{well_formed_starts, well_typed_answers, well_typed_proposals};
pub use sameness::{Same, same_list};
pub use tree::{
    Arm, Assembly, Automaton, Choice, Constant, Crash, Declaration, Entry, Expression, Field,
    Infix, Instance, Invariant, Kind, Name, Position, Proposal, Statement, Transition,
    TypeDeclaration, TypeForm, Variable,
};
