//! Compositions: instances with their start values, compatible with one another. A `Composition`
//! keeps that its components are well formed and within the limits, that arguments and start values
//! are of their types, that hidden names are outputs, and which invariants its source declares.
#![tactic(auto)]

// Compositions and their components.
mod composition;
mod hidden;
mod invariants;
mod member;
mod picks;

// Values of expressions.
mod constants;
mod domains;
mod evaluate;
mod given;
mod scope;

// Instances: automata with their arguments, crashes and start values.
mod binding;
mod starts;

// Compatibility.
mod compatibility;
mod signatures;

// Laws.
mod laws;

pub use composition::{Composition, compose};
pub use constants::{constant, empty};
pub use ioa_clash::{Clash, Index, SignedEntry, first_clash};
pub use ioa_crash::{COMPONENT_LIMITS, rewriting_means_crash, rewriting_stays_fine};
pub use ioa_syntax::Refusal;
pub use laws::{hosts_stand, rewriting_stands, signals_decide};
pub use member::Member;
