//! What a specification keeps that is handed a stream of actions.

ghost use Rattle.std.specs.Prelude.{◌≡◌, ◌≤◌, All, length};

use crate::names::Names;
use ioa_system::{End, System};

/// A specification on its way through a stream: it performs the actions of its names, and counts them. Those of other names are passed over,
/// whatever their values.
pub struct Watcher<'a> {
    pub(crate) system: System<'a>,
    /// The names of its entries, each once, and of each how many actions were taken.
    pub(crate) names: Names<'a>,
    pub(crate) counts: Vec<u64>,
    /// How many actions of other names were passed over.
    pub(crate) others: u64,
    /// How many actions came before the one that is refused.
    pub(crate) heard: usize,
    /// Why that one is refused. No later one is heard.
    pub(crate) refusal: Option<End>,
    ghost counted: { (length counts.items ≡ length names.list.items) × All (λ k. k ≤ heard) counts.items × (others ≤ heard) },
}

/// Written out, so that who drops one calls this, and does not take it apart itself.
impl Drop for Watcher<'_> {
    fn drop(self) {
        let Watcher {
            system: _,
            names: _,
            counts: _,
            others: _,
            heard: _,
            refusal: _,
        } = self;
    }
}
