//! The rule of invariants, which are asked in states and see no parameter.

ghost use Rattle.ioa_tree.specs.View.{invariant_of, tree_of};
ghost use Rattle.ioa_tree.specs.WellFormed as well_formed;
ghost use Rattle.ioa_rules.specs.KnownTypes.{whole, early};
ghost use Rattle.ioa_rules.specs.Reasons as reasons;
ghost use Rattle.ioa_rules.specs.Verdicts.{Says};

use crate::automata::automaton_named;
use crate::expressions::expect_type;
use crate::known_types::KnownTypes;
use crate::scope::Scope;
use ioa_lex::Refusal;
use ioa_tree::{Declaration, Invariant};
use ioa_value::Ty;

/// Whether an invariant is of an automaton declared before, and a truth value over its variables and formals. A line is
/// that of the automaton's name, if it is not declared before.
pub(crate) fn invariant_fine(
    known: &KnownTypes,
    before: &[Declaration],
    invariant: &Invariant,
) -> Result<(), Refusal>
    ensures { let i = invariant_of invariant.now in
        Says result (well_formed.invariant_fine (whole known.now) (early known.now) (tree_of before.now) i)
        (reasons.in_invariant (whole known.now) (early known.now) (tree_of before.now) i) }
{
    match automaton_named(before, &invariant.automaton) {
        Some(automaton) => expect_type(
            &Scope::of_proposals(known, automaton),
            &invariant.condition,
            Ty::BOOL,
        ),
        None => Err(Refusal::UnknownName(invariant.automaton.line)),
    }
}
