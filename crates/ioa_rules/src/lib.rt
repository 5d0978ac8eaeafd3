//! The rules by which sources are well formed: of names, of types and of limits. `source_fine`
//! answers the table of a source's types, or which rule is broken, and on which line.
#![tactic(auto)]

// Limits.
mod limits;

// Names.
mod globals;
mod name_set;
mod names;

// Types, and what names stand for.
mod fields;
mod known_types;
mod loops;
mod scope;
mod types;

// Expressions and statements.
mod expressions;
mod statements;
mod tuples;

// Declarations.
mod automata;
mod declarations;
mod invariants;
mod positions;
mod transitions;

pub use automata::automaton_named;
pub use declarations::source_fine;
pub use expressions::expression_type;
pub use ioa_lex::Refusal;
pub use loops::{Loop, Loops};
pub use name_set::NameSet;
