//! How far the rewriting for crashes takes an automaton past the limits of sources.

use ioa_value::{LIMITS, Limits};

/// What a component of a composition keeps within. One that crashes and recovers is rewritten: it has a variable and two entries
/// more, a formal more for each variable, and two nodes more in its preconditions and effects.
pub const COMPONENT_LIMITS: Limits = Limits {
    parameters: LIMITS.parameters + LIMITS.variables,
    variables: LIMITS.variables + 1,
    entries: LIMITS.entries + 2,
    nodes: LIMITS.nodes + 2,
    ..LIMITS
};
