//! Parameters of which no precondition says anything, and no proposal.

ghost use Rattle.std.specs.Prelude.{◌≡◌, ◌&&◌, ◌++◌, [], IfOk, OnOk, false, map};
ghost use Rattle.std.specs.List.{list_any};
ghost use Rattle.std.specs.Option.{option_map, option_map_or};
ghost use Rattle.std.specs.Str.{bytes_eq};
ghost use Rattle.ioa_tree.specs.Tree.{AutomatonTree, typed};
ghost use Rattle.ioa_tree.specs.View.{automaton_of, entry_of, expr_of, field_of, name_of, position_of, proposal_of, transition_of};
ghost use Rattle.ioa_tree.specs.WellFormed as well_formed;
ghost use Rattle.ioa_warnings.specs.Free as spec;
ghost use Rattle.ioa_warnings.specs.Free.{lined};
ghost use Rattle.ioa_warnings.specs.Shown.{free_of};

use crate::conditions::is_never_enabled;
use crate::names::mentions;
use ioa_tree::{
    Automaton, Choice, Declaration, Entry, Expression, Field, Kind, Name, Position, Proposal,
    Transition,
};
use ioa_value::OutOfMemory;
use std::alloc::Global;

/// A parameter of an output or an internal action of which the precondition says nothing: the action is enabled with any value of it.
#[derive(Clone, Copy)]
pub struct FreeParameter<'a> {
    pub parameter: &'a str,
    pub action: &'a str,
    /// The line of the transition.
    pub line: u32,
}

/// The free parameters of a source's outputs and internal actions, in its order, but for those of which the source says that any value of them will do, by
/// `pre true`, or by a proposal that leaves them to chance, and those whose precondition is true in no state.
///
/// # Errors
/// `OutOfMemory`.
pub fn free_parameters<'a>(
    alloc: Global,
    declarations: &'a [Declaration],
) -> Result<Vec<FreeParameter<'a>>, OutOfMemory>
    ensures { IfOk result (λ found. map free_of found.items ≡ spec.free_parameters declarations.now) }
{
    let mut found = Vec::new(alloc);
    for declaration in declarations {
        add_of_declaration(&mut found, declaration)?;
    }
    Ok(found)
}

/// Adds those of a declaration.
fn add_of_declaration<'a>(
    found: &mut Vec<FreeParameter<'a>>,
    declaration: &'a Declaration,
) -> Result<(), OutOfMemory>
    ensures { OnOk result (map free_of found.new.items ≡ map free_of found.old.items ++ spec.free_of_declaration declaration.now) }
{
    match declaration {
        Declaration::Automaton(automaton) => add_of_automaton(found, automaton),
        Declaration::Type(_) | Declaration::Composition(_) | Declaration::Invariant(_) => Ok(()),
    }
}

/// Adds those of an automaton.
fn add_of_automaton<'a>(
    found: &mut Vec<FreeParameter<'a>>,
    automaton: &'a Automaton,
) -> Result<(), OutOfMemory>
    ensures { OnOk result (map free_of found.new.items ≡ map free_of found.old.items ++ spec.free_of_automaton (automaton_of automaton.now) (map lined automaton.now.transitions.items)) }
{
    for entry in &automaton.entries {
        add_of_entry(found, automaton, entry)?;
    }
    Ok(())
}

/// Adds those of an entry. An input has none.
fn add_of_entry<'a>(
    found: &mut Vec<FreeParameter<'a>>,
    automaton: &'a Automaton,
    entry: &'a Entry,
) -> Result<(), OutOfMemory>
    ensures { OnOk result (map free_of found.new.items ≡ map free_of found.old.items ++ spec.free_of_entry (automaton_of automaton.now) (map lined automaton.now.transitions.items) (entry_of entry.now)) }
{
    if entry.kind.is_input() {
        return Ok(());
    }
    for transition in &automaton.transitions {
        add_in(found, entry, transition)?;
    }
    Ok(())
}

/// Adds those of an entry in a transition, where it is one of the entry.
fn add_in<'a>(
    found: &mut Vec<FreeParameter<'a>>,
    entry: &'a Entry,
    transition: &'a Transition,
) -> Result<(), OutOfMemory>
    ensures { (a : AutomatonTree) → OnOk result (map free_of found.new.items ≡ map free_of found.old.items ++ spec.free_in a (entry_of entry.now) (lined transition.now)) }
{
    if !matches(entry, transition) {
        return Ok(());
    }
    for position in &entry.positions {
        add_at(found, transition, position)?;
    }
    Ok(())
}

/// Adds the parameter of a position, if it is one and is free, and is not said to be.
fn add_at<'a>(
    found: &mut Vec<FreeParameter<'a>>,
    transition: &'a Transition,
    position: &'a Position,
) -> Result<(), OutOfMemory>
    ensures { OnOk result (map free_of found.new.items ≡ map free_of found.old.items ++ spec.free_at (lined transition.now) (position_of position.now)) }
{
    match position {
        Position::Typed(field) => add_parameter(found, transition, field),
        Position::Constant(_) => Ok(()),
    }
}

/// Adds a parameter, if it is to be warned of.
fn add_parameter<'a>(
    found: &mut Vec<FreeParameter<'a>>,
    transition: &'a Transition,
    field: &'a Field,
) -> Result<(), OutOfMemory>
    ensures { OnOk result (map free_of found.new.items ≡ map free_of found.old.items ++ spec.free_at (lined transition.now) (typed (field_of field.now))) }
{
    if !is_warned_of(transition, &field.name) {
        return Ok(());
    }
    found.push(FreeParameter {
        parameter: field.name.text.as_str(),
        action: transition.name.text.as_str(),
        line: transition.name.line,
    })?;
    Ok(())
}

/// Whether a parameter is free, its action can be enabled, and the source does not say that any value of it will do.
fn is_warned_of(transition: &Transition, name: &Name) -> bool
    ensures { result ≡ spec.is_warned_of (transition_of transition.now) (name_of name.now) }
{
    is_free(&transition.pre, name)
        && !(is_meant(transition, name) || is_never_enabled(&transition.pre))
}

/// Whether a precondition says nothing of this name. An omitted one says nothing.
fn is_free(pre: &Option<Expression>, name: &Name) -> bool
    ensures { result ≡ spec.is_free (option_map expr_of pre.now) (name_of name.now) }
{
    match pre {
        Some(condition) => !mentions(condition, name.text.as_str()),
        None => true,
    }
}

/// Whether the source says that any value of this parameter will do.
fn is_meant(transition: &Transition, name: &Name) -> bool
    ensures { result ≡ spec.is_meant (transition_of transition.now) (name_of name.now) }
{
    is_true(&transition.pre) || is_left_to_chance(&transition.proposals, name)
}

/// Whether a precondition is written as `true`.
fn is_true(pre: &Option<Expression>) -> bool
    ensures { result ≡ option_map_or spec.is_true (option_map expr_of pre.now) false }
{
    match pre {
        Some(Expression::Truth(truth, _)) => *truth,
        Some(_) | None => false,
    }
}

/// Whether one of the proposals leaves this parameter to chance.
fn is_left_to_chance(proposals: &[Proposal], name: &Name) -> bool
    ensures { result ≡ list_any (spec.is_chance_of (name_of name.now)) (map proposal_of proposals.now) }
{
    for proposal in proposals {
        if is_chance_of(proposal, name) {
            return true;
        }
    }
    false
}

/// Whether the proposal is for this parameter, and leaves it to chance.
fn is_chance_of(proposal: &Proposal, name: &Name) -> bool
    ensures { result ≡ spec.is_chance_of (name_of name.now) (proposal_of proposal.now) }
{
    proposal.name.is(name.text.as_str()) && matches!(&proposal.choice, Choice::Any(_, _))
}

/// Whether entry and transition are of one kind and one name.
fn matches(entry: &Entry, transition: &Transition) -> bool
    ensures { result ≡ (well_formed.same_kind entry.now.kind transition.now.kind && bytes_eq (name_of entry.now.name) (name_of transition.now.name)) }
{
    entry.kind == transition.kind && entry.name.is(transition.name.text.as_str())
}
