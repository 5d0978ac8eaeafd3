//! Laws of the meaning of trees. The functions do nothing: what they say is in their contracts.

ghost use Rattle.ioa_tree.specs.Answers.{ExpressionsAnswer, EffectsAnswer, StartsAnswer, ArgumentsAnswer, ProposalsAnswer};

/// A well typed expression has a value of its type or a fault, and well typed statements leave a state of the same types
/// or a fault.
pub fn well_typed_answers()
    ensures expressions { ExpressionsAnswer }
    ensures effects { EffectsAnswer }
{}

/// Variables of a well formed automaton start with a value of their type or a fault, and arguments of a well formed
/// component are one: never nothing.
pub fn well_formed_starts()
    ensures variables { StartsAnswer }
    ensures arguments { ArgumentsAnswer }
{}

/// What well typed proposals give is a value of each parameter's type, or there is nothing to try.
pub fn well_typed_proposals()
    ensures { ProposalsAnswer }
{}
