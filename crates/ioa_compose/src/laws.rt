//! What compositions of rewritten components promise. The functions do nothing: what they say is in their contracts.

ghost use Rattle.ioa_compose.specs.Simulates.{HostsAreSimulated, RewritingSimulates, SignalsDecide};

/// A composition of rewritten components, and of those that do not crash, does what the hosts do.
pub fn rewriting_stands()
    ensures { RewritingSimulates }
{}

/// So it is for the hosts of a well formed source.
pub fn hosts_stand()
    ensures { HostsAreSimulated }
{}

/// Hosts are compatible just where their automata with inputs for crash and recover are.
pub fn signals_decide()
    ensures { SignalsDecide }
{}
