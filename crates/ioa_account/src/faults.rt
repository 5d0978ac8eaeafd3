//! Which fault an invariant has that is broken.

ghost use Rattle.std.specs.Prelude.{◌≡◌, ◌<◌, List, IfOk, length, map};
ghost use Rattle.ioa_value.specs.Plain.{plain};
ghost use Rattle.ioa_tree.specs.Hosts.{HostState, Hosted};
ghost use Rattle.ioa_tree.specs.Likes.{AllRelated};
ghost use Rattle.ioa_tree.specs.Meaning.{Env};
ghost use Rattle.ioa_compose.specs.Held.{composed_of};
ghost use Rattle.ioa_compose.specs.Simulates.{SlotsHoldAt, Simulates};
ghost use Rattle.ioa_system.specs.Systems.{values_of};
ghost use Rattle.ioa_inspect.specs.Breaking.{AreStates, IsState};
ghost use Rattle.ioa_account.specs.Faults as spec;

use ioa_compose::Composition;
use ioa_node::{NodeState, state_values};
use ioa_value::{Fault, OutOfMemory, Value};
use std::alloc::Global;

/// The fault that the invariant of this number has in the component of this number, where the components are in these states. None where it has a
/// value there, or is of another automaton.
pub(crate) fn invariant_fault(
    alloc: Global,
    composition: &Composition,
    states: &[NodeState],
    component: usize,
    invariant: usize,
) -> Result<Option<Fault>, OutOfMemory>
    requires { AreStates (composed_of composition.now).members (values_of states.now) }
    ensures { IfOk result (λ f. (h : Hosted) (hs : List (HostState Env)) → Simulates h (composed_of composition.now) → AllRelated (SlotsHoldAt h.hosts) 0 hs (values_of states.now)
        → f ≡ spec.invariant_fault h hs component invariant) }
{
    match composition.invariants().get(invariant) {
        Some(_) => slots_fault(alloc, composition, states, component, invariant),
        None => Ok(None),
    }
}

/// The same of an invariant that there is, said of the states' slots.
fn slots_fault(
    alloc: Global,
    composition: &Composition,
    states: &[NodeState],
    component: usize,
    invariant: usize,
) -> Result<Option<Fault>, OutOfMemory>
    requires states { AreStates (composed_of composition.now).members (values_of states.now) }
    requires invariant { invariant < length composition.now.invariants }
    ensures { IfOk result (λ f. f ≡ spec.slots_fault (composed_of composition.now) (values_of states.now) component invariant) }
{
    match states.get(component) {
        Some(state) => {
            let values = state_values(alloc, state)?;
            state_fault(composition, &values, component, invariant)
        }
        None => Ok(None),
    }
}

/// The same of one component, whose variables have these values. An invariant names those alone that the component's source declares, which
/// stand first.
fn state_fault(
    composition: &Composition,
    values: &[Value],
    component: usize,
    invariant: usize,
) -> Result<Option<Fault>, OutOfMemory>
    requires state { IsState (composed_of composition.now).members component (map plain values.now) }
    requires invariant { invariant < length composition.now.invariants }
    ensures { IfOk result (λ f. f ≡ spec.state_fault (composed_of composition.now) (map plain values.now) component invariant) }
{
    if !composition.is_about(component, invariant) {
        return Ok(None);
    }
    let declared = composition.members()[component].declared;
    composition.fault_of(component, invariant, &values[..declared])
}
