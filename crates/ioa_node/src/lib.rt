//! The state of a component as words, and the machine that runs decoded code on it: preconditions,
//! effects and proposals. A `NodeState` keeps the words of its variables' values, so that equal states
//! are equal words; a `Decoded` keeps verified code with the strides that stand for it, and the words of its constants.
#![tactic(auto)]

// States, and new words for them.
mod draft;
mod state;

// Decoded code.
mod decoded;

// Its strides, run beside a state.
mod drafting;
mod reading;
mod workspace;

// Parts of code that are run.
mod proposal;
mod run;

pub use decoded::Decoded;
pub use draft::Draft;
pub use ioa_parts::{Proposal, Words};
pub use proposal::{proposal_with, propose, propose_with};
pub use run::{draft_effect, effect, enabled, enabled_on, enabled_with, write_values};
pub use state::{NodeState, from_values, state_values};
pub use workspace::Workspace;
