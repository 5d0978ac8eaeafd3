//! How much is asked of a run.

ghost use Rattle.std.specs.Prelude.{◌≡◌, ◌<◌, ◌≤◌, IfOk, Some, length, map, slice_get};
ghost use Rattle.std.specs.List.{list_any};
ghost use Rattle.ioa_value.specs.Actions.{act_of};
ghost use Rattle.ioa_tree.specs.Components.{has};
ghost use Rattle.ioa_tree.specs.Compositions.{Member, instances_of};
ghost use Rattle.ioa_tree.specs.Hosts.{Hosted, host_instances};
ghost use Rattle.ioa_compose.specs.Held.{composed_of};
ghost use Rattle.ioa_compose.specs.Simulates.{Simulates};
ghost use Rattle.ioa_compile.specs.Subjects.{RunsAs, Subject, its_components};
ghost use Rattle.ioa_compile.specs.Tables.{tabled};
ghost use Rattle.ioa_account.specs.Counts as spec;

use ioa_compile::Program;
use ioa_compose::Composition;
use ioa_system::participants;
use ioa_value::{Action, OutOfMemory};
use std::alloc::Global;

/// How many of the actions some component has. The others a monitor passes over.
pub fn known_actions(
    alloc: Global,
    program: &Program,
    actions: &[Action],
) -> Result<usize, OutOfMemory>
    ensures { IfOk result (λ count. (s : Subject) → RunsAs program.now s → count ≡ spec.known_actions (its_components s) (map act_of actions.now)) }
{
    let mut count = 0;
    for action in actions {
        let known = is_known(alloc, program, action)?;
        if known {
            count += 1;
        }
    }
    Ok(count)
}

/// Whether some component has the action.
pub(crate) fn is_known(
    alloc: Global,
    program: &Program,
    action: &Action,
) -> Result<bool, OutOfMemory>
    ensures { IfOk result (λ known. known ≡ list_any (has (act_of action.now)) (tabled program.now)) }
{
    let found = participants(alloc, program, action)?;
    Ok(!found.is_empty())
}

/// How many invariants are asked in each state: of each component those of its automaton.
pub fn asked_invariants(composition: &Composition) -> usize
    ensures composed { result ≡ spec.asked_invariants (composed_of composition.now).invariants (instances_of (composed_of composition.now)) }
    ensures hosts { (h : Hosted) → Simulates h (composed_of composition.now) → result ≡ spec.asked_invariants h.invariants (host_instances h) }
{
    asked_of_all(composition)
}

/// The same, said of the composition alone.
fn asked_of_all(composition: &Composition) -> usize
    ensures { result ≡ spec.asked_invariants (composed_of composition.now).invariants (instances_of (composed_of composition.now)) }
{
    let mut count = 0;
    for component in 0..composition.members().len() {
        count += asked_of(composition, component);
    }
    count
}

/// How many are asked of the component of this number.
fn asked_of(composition: &Composition, component: usize) -> usize
    requires { component < length composition.now.members }
    ensures count { (m : Member) → slice_get (composed_of composition.now).members component ≡ Some m
        → result ≡ spec.asked_of (composed_of composition.now).invariants m.instance.automaton.name }
    ensures few { result ≤ length composition.now.invariants }
{
    let mut count = 0;
    for number in 0..composition.invariants().len() {
        if composition.is_about(component, number) {
            count += 1;
        }
    }
    count
}
