//! What comes of a proposal.

use ioa_value::Value;

/// What a proposal's code gives.
#[derive(Drop)]
pub enum Proposal {
    /// These values, in order.
    Values(Vec<Value>),
    /// None, since there is no number for chance to draw.
    Nothing,
    /// None, since it faults.
    Faulted,
}
