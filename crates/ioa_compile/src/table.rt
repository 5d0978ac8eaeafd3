//! The tables of a program.

use ioa_node::{Decoded, NodeState};
use ioa_tree::Kind;
use ioa_value::Position;

/// An entry of a component's signature, with the code of its transition.
pub struct Entry {
    pub kind: Kind,
    pub name: String,
    /// What an action may have in its places.
    pub positions: Vec<Position>,
    /// The precondition of an output or internal entry.
    pub pre: Option<Decoded>,
    /// What gives values for the parameters of an output or internal entry, to try next.
    pub propose: Option<Decoded>,
    pub effect: Decoded,
}

/// Written out, so that who drops one calls this, and does not take it apart itself.
impl Drop for Entry {
    fn drop(self) {
        let Entry {
            kind: _,
            name: _,
            positions: _,
            pre: _,
            propose: _,
            effect: _,
        } = self;
    }
}

/// A component: its name, its start state and its entries in order.
pub struct Member {
    pub name: String,
    pub start: NodeState,
    pub entries: Vec<Entry>,
}

/// Written out, so that who drops one calls this, and does not take it apart itself.
impl Drop for Member {
    fn drop(self) {
        let Member {
            name: _,
            start: _,
            entries: _,
        } = self;
    }
}
