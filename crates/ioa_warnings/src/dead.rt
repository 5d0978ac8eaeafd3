//! Transitions that are never performed.

ghost use Rattle.std.specs.Prelude.{◌≡◌, ◌++◌, IfOk, OnOk, map};
ghost use Rattle.std.specs.List.{flat_map};
ghost use Rattle.std.specs.Option.{option_copied};
ghost use Rattle.ioa_tree.specs.View.{choice_of, proposal_of};
ghost use Rattle.ioa_warnings.specs.Dead as spec;
ghost use Rattle.ioa_warnings.specs.Free.{lined};
ghost use Rattle.ioa_warnings.specs.Shown.{dead_of};

use crate::conditions::{is_never_enabled, is_nothing};
use ioa_tree::{Automaton, Choice, Declaration, Proposal, Transition};
use ioa_value::OutOfMemory;
use std::alloc::Global;

/// A transition that is never performed.
#[derive(Clone, Copy)]
pub struct DeadTransition<'a> {
    pub action: &'a str,
    /// The line of the transition.
    pub line: u32,
    /// The parameter to which chance has nothing to give, as by `any(0)`; none, where the precondition is true in no state.
    pub parameter: Option<&'a str>,
}

/// The transitions of a source that are never performed, in its order, as far as literals and connectives show: those whose precondition is true in no state, as
/// `false`, and those of which a parameter is left to chance that has nothing to give, as by `any(0)`.
///
/// # Errors
/// `OutOfMemory`.
pub fn dead_transitions<'a>(
    alloc: Global,
    declarations: &'a [Declaration],
) -> Result<Vec<DeadTransition<'a>>, OutOfMemory>
    ensures { IfOk result (λ found. map dead_of found.items ≡ spec.dead_transitions declarations.now) }
{
    let mut found = Vec::new(alloc);
    for declaration in declarations {
        add_of_declaration(&mut found, declaration)?;
    }
    Ok(found)
}

/// Adds those of a declaration.
fn add_of_declaration<'a>(
    found: &mut Vec<DeadTransition<'a>>,
    declaration: &'a Declaration,
) -> Result<(), OutOfMemory>
    ensures { OnOk result (map dead_of found.new.items ≡ map dead_of found.old.items ++ spec.dead_of_declaration declaration.now) }
{
    match declaration {
        Declaration::Automaton(automaton) => add_of_automaton(found, automaton),
        Declaration::Type(_) | Declaration::Composition(_) | Declaration::Invariant(_) => Ok(()),
    }
}

/// Adds those of an automaton.
fn add_of_automaton<'a>(
    found: &mut Vec<DeadTransition<'a>>,
    automaton: &'a Automaton,
) -> Result<(), OutOfMemory>
    ensures { OnOk result (map dead_of found.new.items ≡ map dead_of found.old.items ++ flat_map spec.dead_in (map lined automaton.now.transitions.items)) }
{
    for transition in &automaton.transitions {
        add_of_transition(found, transition)?;
    }
    Ok(())
}

/// Adds a transition, once for its precondition, and once for each of its proposals.
fn add_of_transition<'a>(
    found: &mut Vec<DeadTransition<'a>>,
    transition: &'a Transition,
) -> Result<(), OutOfMemory>
    ensures { OnOk result (map dead_of found.new.items ≡ map dead_of found.old.items ++ spec.dead_in (lined transition.now)) }
{
    if is_never_enabled(&transition.pre) {
        add(found, transition, None)?;
    }
    add_of_proposals(found, transition)
}

/// Adds it for each of its proposals.
fn add_of_proposals<'a>(
    found: &mut Vec<DeadTransition<'a>>,
    transition: &'a Transition,
) -> Result<(), OutOfMemory>
    ensures { OnOk result (map dead_of found.new.items ≡ map dead_of found.old.items ++ flat_map (spec.dead_by_proposal (lined transition.now)) (lined transition.now).1.proposals) }
{
    for proposal in &transition.proposals {
        add_of_proposal(found, transition, proposal)?;
    }
    Ok(())
}

/// Adds it for a proposal, where that is for chance that has nothing to give.
fn add_of_proposal<'a>(
    found: &mut Vec<DeadTransition<'a>>,
    transition: &'a Transition,
    proposal: &'a Proposal,
) -> Result<(), OutOfMemory>
    ensures { OnOk result (map dead_of found.new.items ≡ map dead_of found.old.items ++ spec.dead_by_proposal (lined transition.now) (proposal_of proposal.now)) }
{
    if gives_nothing(&proposal.choice) {
        add(found, transition, Some(proposal.name.text.as_str()))?;
    }
    Ok(())
}

fn add<'a>(
    found: &mut Vec<DeadTransition<'a>>,
    transition: &'a Transition,
    parameter: Option<&'a str>,
) -> Result<(), OutOfMemory>
    ensures { OnOk result (map dead_of found.new.items ≡ map dead_of found.old.items ++ spec.dead_by (lined transition.now) (option_copied parameter.entry)) }
{
    found.push(DeadTransition {
        action: transition.name.text.as_str(),
        line: transition.name.line,
        parameter,
    })?;
    Ok(())
}

/// Whether chance has nothing to give.
fn gives_nothing(choice: &Choice) -> bool
    ensures { result ≡ spec.gives_nothing (choice_of choice.now) }
{
    match choice {
        Choice::Any(bound, _) => is_nothing(bound),
        Choice::Value(_) => false,
    }
}
