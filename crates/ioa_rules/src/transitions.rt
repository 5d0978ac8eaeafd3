//! The rules of transitions: they match the signature one to one, inputs are always enabled, and
//! what a component performs proposes values for its parameters.

ghost use Rattle.std.specs.Prelude.{◌≡◌, ◌==◌, [], ◌||◌, ◌&&◌, not, map, filter, length, Some, if◌then◌else◌};
ghost use Rattle.std.specs.List.{list_all, list_any};
ghost use Rattle.std.specs.Str.{bytes_eq};
ghost use Rattle.ioa_tree.specs.Tree.{AutomatonTree};
ghost use Rattle.ioa_tree.specs.View.{automaton_of, entry_of, transition_of, choice_of, proposal_of, name_of};
ghost use Rattle.ioa_tree.specs.View as view;
ghost use Rattle.ioa_tree.specs.WellFormed as well_formed;
ghost use Rattle.ioa_rules.specs.Codes.{bad_signature, no_proposal, tells};
ghost use Rattle.ioa_rules.specs.KnownTypes.{whole, early};
ghost use Rattle.ioa_rules.specs.Reasons as reasons;
ghost use Rattle.ioa_rules.specs.Verdicts.{Says};

use crate::expressions::expect_type;
use crate::known_types::KnownTypes;
use crate::loops::Loops;
use crate::name_set::NameSet;
use crate::names::{distinct, find_name, same_name};
use crate::positions::find_parameter;
use crate::scope::Scope;
use crate::statements::{Place, statements_fine};
use ioa_lex::Refusal;
use ioa_tree::{Automaton, Choice, Entry, Field, Kind, Name, Position, Proposal, Transition};
use ioa_value::{Form, Ty};

/// Whether each entry has one transition of its kind and name, and each transition an entry. A line is that of a
/// transition without entry, of an entry without transition, or of an entry's second transition.
pub(crate) fn one_to_one(automaton: &Automaton) -> Result<(), Refusal>
    ensures { Says result (well_formed.one_to_one [] [] [] (automaton_of automaton.now)) (tells bad_signature) }
{
    each_has_entry(automaton)?;
    each_has_transition(automaton)
}

/// Whether each transition has an entry.
fn each_has_entry(automaton: &Automaton) -> Result<(), Refusal>
    ensures { let a = automaton_of automaton.now in Says result (list_all (λ r. list_any (λ e. well_formed.matches [] [] [] a e r) a.entries) a.transitions) (tells bad_signature) }
{
    for transition in &automaton.transitions {
        if !has_entry(automaton, transition) {
            return Err(Refusal::BadSignature(transition.name.line));
        }
    }
    Ok(())
}

fn has_entry(automaton: &Automaton, transition: &Transition) -> bool
    ensures { let a = automaton_of automaton.now in result ≡ list_any (λ e. well_formed.matches [] [] [] a e (transition_of transition.now)) a.entries }
{
    for entry in &automaton.entries {
        if matches(entry, transition) {
            return true;
        }
    }
    false
}

/// Whether each entry has one transition and no second.
fn each_has_transition(automaton: &Automaton) -> Result<(), Refusal>
    ensures { let a = automaton_of automaton.now in Says result (list_all (λ e. length (filter (well_formed.matches [] [] [] a e) a.transitions) == 1) a.entries) (tells bad_signature) }
{
    for entry in &automaton.entries {
        one_transition(automaton, entry)?;
    }
    Ok(())
}

/// Whether the entry has one transition and no second.
fn one_transition(automaton: &Automaton, entry: &Entry) -> Result<(), Refusal>
    ensures { let a = automaton_of automaton.now in Says result (length (filter (well_formed.matches [] [] [] a (entry_of entry.now)) a.transitions) == 1) (tells bad_signature) }
{
    let mut found = false;
    for transition in &automaton.transitions {
        if matches(entry, transition) {
            if found {
                return Err(Refusal::BadSignature(transition.name.line));
            }
            found = true;
        }
    }
    if found {
        Ok(())
    } else {
        Err(Refusal::BadSignature(entry.name.line))
    }
}

/// Whether entry and transition are of one kind and one name.
fn matches(entry: &Entry, transition: &Transition) -> bool
    ensures { result ≡ (well_formed.same_kind entry.now.kind transition.now.kind && bytes_eq (name_of entry.now.name) (name_of transition.now.name)) }
{
    entry.kind == transition.kind && same_name(&entry.name, &transition.name)
}

/// Whether the transitions of each entry are well formed.
pub(crate) fn transitions_fine(
    known: &KnownTypes,
    automaton: &Automaton,
    globals: &NameSet,
) -> Result<(), Refusal>
    ensures { let a = automaton_of automaton.now in Says result (list_all (λ e. list_all (λ r. not (well_formed.matches (whole known.now) (early known.now) globals.now a e r) || well_formed.transition_fine (whole known.now) (early known.now) globals.now a e r) a.transitions) a.entries) (reasons.in_transitions (whole known.now) (early known.now) globals.now a) }
{
    for entry in &automaton.entries {
        transitions_of_entry_fine(known, automaton, globals, entry)?;
    }
    Ok(())
}

fn transitions_of_entry_fine(
    known: &KnownTypes,
    automaton: &Automaton,
    globals: &NameSet,
    entry: &Entry,
) -> Result<(), Refusal>
    ensures { let a = automaton_of automaton.now in let e = entry_of entry.now in Says result (list_all (λ r. not (well_formed.matches (whole known.now) (early known.now) globals.now a e r) || well_formed.transition_fine (whole known.now) (early known.now) globals.now a e r) a.transitions)
        (reasons.in_any (reasons.in_pair (whole known.now) (early known.now) globals.now a e) a.transitions) }
{
    for transition in &automaton.transitions {
        pair_fine(known, automaton, globals, entry, transition)?;
    }
    Ok(())
}

/// Whether a transition is well formed, where it is one of this entry.
fn pair_fine(
    known: &KnownTypes,
    automaton: &Automaton,
    globals: &NameSet,
    entry: &Entry,
    transition: &Transition,
) -> Result<(), Refusal>
    ensures { let a = automaton_of automaton.now in let e = entry_of entry.now in let r = transition_of transition.now in
        Says result (not (well_formed.matches (whole known.now) (early known.now) globals.now a e r) || well_formed.transition_fine (whole known.now) (early known.now) globals.now a e r) (reasons.in_pair (whole known.now) (early known.now) globals.now a e r) }
{
    if matches(entry, transition) {
        transition_fine(known, automaton, globals, entry, transition)
    } else {
        Ok(())
    }
}

fn transition_fine<'a>(
    known: &KnownTypes<'a>,
    automaton: &'a Automaton,
    globals: &'a NameSet<'_>,
    entry: &'a Entry,
    transition: &'a Transition,
) -> Result<(), Refusal>
    ensures { let a = automaton_of automaton.now in let e = entry_of entry.now in let r = transition_of transition.now in Says result (well_formed.transition_fine (whole known.now) (early known.now) globals.now a e r) (reasons.in_transition (whole known.now) (early known.now) globals.now a e r) }
{
    before_effect_fine(known, automaton, entry, transition)?;
    let place = Place {
        known: *known,
        automaton,
        entry,
        globals,
        loops: Loops::None,
    };
    statements_fine(&place, &transition.effect)
}

/// Whether an input has neither precondition nor proposals, and those of an output or internal transition are well formed.
fn before_effect_fine(
    known: &KnownTypes,
    automaton: &Automaton,
    entry: &Entry,
    transition: &Transition,
) -> Result<(), Refusal>
    ensures { let a = automaton_of automaton.now in let e = entry_of entry.now in let r = transition_of transition.now in
        Says result (if well_formed.is_input r.kind then well_formed.input_fine (whole known.now) (early known.now) [] a r else well_formed.pre_fine (whole known.now) (early known.now) [] a e r && well_formed.proposals_fine (whole known.now) (early known.now) [] a e r && well_formed.all_proposed (whole known.now) (early known.now) [] a e r)
        (reasons.before_effect (whole known.now) (early known.now) [] a e r) }
{
    if transition.kind.is_input() {
        input_fine(transition)
    } else {
        local_fine(known, automaton, entry, transition)
    }
}

/// Whether an input has neither precondition nor proposals.
fn input_fine(transition: &Transition) -> Result<(), Refusal>
    ensures { (a : AutomatonTree) → Says result (well_formed.input_fine [] [] [] a (transition_of transition.now)) (tells bad_signature) }
{
    if transition.pre.is_some() || transition.proposals.len() > 0 {
        return Err(Refusal::BadSignature(transition.name.line));
    }
    Ok(())
}

/// Whether precondition and proposals of an output or internal transition are well formed.
fn local_fine(
    known: &KnownTypes,
    automaton: &Automaton,
    entry: &Entry,
    transition: &Transition,
) -> Result<(), Refusal>
    ensures { let a = automaton_of automaton.now in let e = entry_of entry.now in let r = transition_of transition.now in
        Says result (well_formed.pre_fine (whole known.now) (early known.now) [] a e r && well_formed.proposals_fine (whole known.now) (early known.now) [] a e r && well_formed.all_proposed (whole known.now) (early known.now) [] a e r) (reasons.in_local (whole known.now) (early known.now) [] a e r) }
{
    pre_fine(known, automaton, entry, transition)?;
    proposals_fine(known, automaton, entry, transition)?;
    all_proposed(known, entry, transition)
}

fn pre_fine(
    known: &KnownTypes,
    automaton: &Automaton,
    entry: &Entry,
    transition: &Transition,
) -> Result<(), Refusal>
    ensures { let a = automaton_of automaton.now in let e = entry_of entry.now in let r = transition_of transition.now in Says result (well_formed.pre_fine (whole known.now) (early known.now) [] a e r) (reasons.in_some (reasons.in_condition (whole known.now) (early known.now) [] a e []) r.pre) }
{
    match &transition.pre {
        None => Ok(()),
        Some(pre) => expect_type(&Scope::of_entry(known, automaton, entry), pre, Ty::BOOL),
    }
}

#[tactic(auto, using(crate::proofs::ViewLemmas::views))]
fn proposals_fine(
    known: &KnownTypes,
    automaton: &Automaton,
    entry: &Entry,
    transition: &Transition,
) -> Result<(), Refusal>
    ensures { let a = automaton_of automaton.now in let e = entry_of entry.now in let r = transition_of transition.now in Says result (well_formed.proposals_fine (whole known.now) (early known.now) [] a e r) (reasons.in_proposals (whole known.now) (early known.now) [] a e r) }
{
    each_proposal_fine(known, automaton, entry, transition)?;
    distinct(&transition.proposals)
}

fn each_proposal_fine(
    known: &KnownTypes,
    automaton: &Automaton,
    entry: &Entry,
    transition: &Transition,
) -> Result<(), Refusal>
    ensures { let a = automaton_of automaton.now in let e = entry_of entry.now in let ps = (transition_of transition.now).proposals in Says result (list_all (well_formed.proposal_fine (whole known.now) (early known.now) [] a e) ps) (reasons.in_any (reasons.in_proposal (whole known.now) (early known.now) [] a e) ps) }
{
    for proposal in &transition.proposals {
        proposal_fine(known, automaton, entry, proposal)?;
    }
    Ok(())
}

/// Whether a proposal is for a parameter of the entry, and of its type.
#[tactic(auto, using(crate::proofs::ViewLemmas::views))]
fn proposal_fine(
    known: &KnownTypes,
    automaton: &Automaton,
    entry: &Entry,
    proposal: &Proposal,
) -> Result<(), Refusal>
    ensures { let a = automaton_of automaton.now in let e = entry_of entry.now in let p = proposal_of proposal.now in Says result (well_formed.proposal_fine (whole known.now) (early known.now) [] a e p) (reasons.in_proposal (whole known.now) (early known.now) [] a e p) }
{
    match find_parameter(known, &entry.positions, &proposal.name) {
        Some(ty) => choice_fine(known, automaton, &proposal.choice, ty),
        None => Err(Refusal::UnknownName(proposal.name.line)),
    }
}

/// Whether a proposal gives a value of this type. `any` gives an Int, and asks for one.
fn choice_fine(
    known: &KnownTypes,
    automaton: &Automaton,
    choice: &Choice,
    ty: Ty,
) -> Result<(), Refusal>
    ensures { let a = automaton_of automaton.now in let c = choice_of choice.now in Says result (well_formed.choice_fine (whole known.now) (early known.now) [] a c ty.0) (reasons.in_choice (whole known.now) (early known.now) [] a c (Some ty.0)) }
{
    let scope = Scope::of_proposals(known, automaton);
    match choice {
        Choice::Value(value) => expect_type(&scope, value, ty),
        Choice::Any(_, line) if ty != Ty::INT => Err(Refusal::TypeMismatch(*line)),
        Choice::Any(bound, _) => expect_type(&scope, bound, Ty::INT),
    }
}

/// Whether each parameter that is neither a Bool nor of an enumeration has a proposal. A constant needs none.
fn all_proposed(known: &KnownTypes, entry: &Entry, transition: &Transition) -> Result<(), Refusal>
    ensures { (a : AutomatonTree) → Says result (well_formed.all_proposed (whole known.now) (early known.now) [] a (entry_of entry.now) (transition_of transition.now)) (tells no_proposal) }
{
    for position in &entry.positions {
        if let Position::Typed(field) = position
            && !is_proposed(known, field, transition)
        {
            return Err(Refusal::NoProposal(transition.name.line));
        }
    }
    Ok(())
}

/// Whether a parameter's values are tried by their numbers, or it has a proposal.
#[tactic(auto, using(crate::proofs::ViewLemmas::views))]
fn is_proposed(known: &KnownTypes, field: &Field, transition: &Transition) -> bool
    ensures { let f = view.field_of field.now in
        result ≡ (well_formed.is_tried (early known.now) f || well_formed.contains (map (λ p. p.name) (transition_of transition.now).proposals) f.name) }
{
    is_tried(known, field) || find_name(&transition.proposals, &field.name).is_some()
}

/// Whether a parameter is a Bool or of an enumeration.
fn is_tried(known: &KnownTypes, field: &Field) -> bool
    ensures { result ≡ well_formed.is_tried (early known.now) (view.field_of field.now) }
{
    match known.named(&field.ty) {
        Some(ty) => matches!(known.form(ty), Some(Form::Truths | Form::Names(_))),
        None => false,
    }
}
