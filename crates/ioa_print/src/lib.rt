//! Sources are printed: a text whose tokens spell the source's tree.
#![tactic(auto)]

mod automata;
mod compositions;
mod expressions;
mod invariants;
mod printing;
mod signatures;
mod statements;
mod types;
mod words;

pub use printing::print;
