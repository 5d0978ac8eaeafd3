//! Sources: texts are read as trees. A `Source` keeps that some tokens spell
//! it, that its names are legal, and that nothing in it is deeper than 64. The trees are handed on
//! from here.
#![tactic(auto)]

mod laws;
mod numbered;
mod parsing;
mod source;
mod stuck;

pub use ioa_lex::Refusal;
pub use ioa_tree::{
    Arm, Assembly, Automaton, Choice, Constant, Crash, Declaration, Entry, Expression, Field,
    Infix, Instance, Invariant, Kind, Name, Position, Proposal, Statement, Transition,
    TypeDeclaration, TypeForm, Variable, well_formed_starts, well_typed_answers,
    well_typed_proposals,
};
pub use laws::one_tree;
pub use numbered::{Numbered, parse_numbered};
pub use parsing::parse;
pub use source::Source;
pub use stuck::{Stuck, stuck_in};
