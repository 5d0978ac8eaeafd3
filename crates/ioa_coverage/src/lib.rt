//! How often each entry of a program's components is performed over the actions of runs, and each arm and body of its effect taken, and the lines that tell it.
#![tactic(auto)]

// Counts, entry by entry.
mod coverage;

// Lines of text.
mod telling;

// Effects, followed over their trees, and what they take.
mod effects;
mod environment;
mod scope;
mod values;

// The effects of entries, with what their arms and bodies are called, and how often they are taken.
mod effect;
mod labels;
mod origin;
mod runs;

// Laws.
mod laws;

pub use coverage::{Coverage, coverage_of};
pub use laws::coverage_is_the_hosts;
pub use origin::Origin;
