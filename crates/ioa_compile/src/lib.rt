//! From compositions to programs: tables, start states and verified code. A `Program` keeps what an
//! object says and no more: one table of types, legal and different names, start states of their
//! types, entries with verified parts, hidden names that are outputs, and that its components are
//! compatible.
#![tactic(auto)]

// Programs and their tables, and whether tables are right.
mod compatibility;
mod limits;
mod named;
mod program;
mod rightness;
mod same;
mod sites;
mod table;
mod tables;

// Types, and code of transitions.
mod proposals;
mod transition;
mod types;

// The compiler.
mod compiler;
mod entries;

// Conditions of invariants, compiled.
mod asked;
mod space;

// Laws.
mod laws;

pub use asked::Asked;
pub use compatibility::clash_among;
pub use compiler::compile;
pub use laws::entries_are_the_hosts;
pub use limits::MOST_PLACES;
pub use named::{Named, is_given, is_named};
pub use program::Program;
pub use rightness::is_output;
pub use table::{Entry, Member};
pub use tables::{TableErr, Tables};
pub use types::{parameter_types, position_types};
