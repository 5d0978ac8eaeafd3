//! What the rewriting for crashes promises. The functions do nothing: what they say is in their contracts.

ghost use Rattle.ioa_crash.specs.Crashes.{RewritingMeansCrash, RewritingStaysFine};

/// The rewritten tree of an automaton means the component that crashes and recovers.
pub fn rewriting_means_crash()
    ensures { RewritingMeansCrash }
{}

/// The rewritten tree is well formed again.
pub fn rewriting_stays_fine()
    ensures { RewritingStaysFine }
{}
