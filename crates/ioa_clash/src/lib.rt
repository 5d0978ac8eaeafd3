//! Which components have an action in common that may not be, by their signatures, and what stands under each name.
#![tactic(auto)]

mod clashes;
mod index;
mod places;

pub use clashes::{Clash, SignedEntry, entry_at, first_clash};
pub use index::Index;
pub use places::Place;
