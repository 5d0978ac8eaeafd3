//! Sources: tokens are read as declarations, up to their end, or it is told on which line they
//! spell nothing, or are too deep.
#![tactic(auto)]

mod sources;

pub use sources::declarations;
