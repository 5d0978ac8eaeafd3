//! Components, from which all that stands above is made: no declaration is asked again.

use ioa_tree::Automaton;
use ioa_value::{Position, Types, Value};

/// A component of a composition: the composition's types, an automaton with the values of its formals, and the start values
/// of its variables. The first `declared` of these are the source's own. A component that crashes and recovers has another one
/// behind them, `#up`, and formals for the start values of those that a crash resets.
pub struct Member {
    pub name: String,
    pub types: Types,
    pub automaton: Automaton,
    /// The positions of the automaton's entries, a list for each, with the values of their constants.
    pub positions: Vec<Vec<Position>>,
    pub arguments: Vec<Value>,
    pub starts: Vec<Value>,
    pub declared: usize,
}

/// Written out, so that who drops one calls this, and does not take it apart itself.
impl Drop for Member {
    fn drop(self) {
        let Member {
            name: _,
            types: _,
            automaton: _,
            positions: _,
            arguments: _,
            starts: _,
            declared: _,
        } = self;
    }
}
