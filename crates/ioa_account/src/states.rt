//! States for people: slots as the variables that a source declares.

ghost use Rattle.std.specs.Prelude.{◌≡◌, ◌++◌, List, IfOk, OnOk, map};
ghost use Rattle.std.specs.String.{string_bytes};
ghost use Rattle.ioa_value.specs.Plain.{plain};
ghost use Rattle.ioa_tree.specs.Hosts.{HostState, Hosted};
ghost use Rattle.ioa_tree.specs.Likes.{AllRelated};
ghost use Rattle.ioa_tree.specs.Meaning.{Env};
ghost use Rattle.ioa_compose.specs.Held.{composed_of, member_of};
ghost use Rattle.ioa_compose.specs.Simulates.{SlotsHoldAt, Simulates};
ghost use Rattle.ioa_system.specs.Systems.{values_of};
ghost use Rattle.ioa_picture.specs.Lines.{numbered};
ghost use Rattle.ioa_account.specs.States as spec;

use ioa_compose::{Composition, Member};
use ioa_node::{NodeState, state_values};
use ioa_value::{OutOfMemory, Types, Value, push_value};
use std::alloc::Global;
use std::fmt::Write;

/// Puts the states of the composition's components behind the text: each variable with its value on a line, and of a component that
/// crashes and recovers last whether it is up.
pub fn put_states(
    alloc: Global,
    text: &mut String,
    composition: &Composition,
    states: &[NodeState],
) -> Result<(), OutOfMemory>
    ensures { OnOk result ((h : Hosted) (hs : List (HostState Env)) → Simulates h (composed_of composition.now) → AllRelated (SlotsHoldAt h.hosts) 0 hs (values_of states.now)
        → string_bytes text.new ≡ string_bytes text.old ++ spec.state_lines h.types h.hosts hs) }
{
    put_slots(
        alloc,
        text,
        composition.types(),
        composition.members(),
        states,
    )
}

/// Puts the lines of one component alone, the one of this number, behind the text; nothing where there is none.
pub fn put_component(
    alloc: Global,
    text: &mut String,
    composition: &Composition,
    number: usize,
    states: &[NodeState],
) -> Result<(), OutOfMemory>
    ensures { OnOk result ((h : Hosted) (hs : List (HostState Env)) → Simulates h (composed_of composition.now) → AllRelated (SlotsHoldAt h.hosts) 0 hs (values_of states.now)
        → string_bytes text.new ≡ string_bytes text.old ++ spec.component_lines h.types h.hosts hs number) }
{
    put_slots_at(
        alloc,
        text,
        composition.types(),
        composition.members(),
        number,
        states,
    )
}

/// Whether the component of this number is down.
pub fn is_down(
    alloc: Global,
    composition: &Composition,
    number: usize,
    states: &[NodeState],
) -> Result<bool, OutOfMemory>
    ensures { IfOk result (λ down. (h : Hosted) (hs : List (HostState Env)) → Simulates h (composed_of composition.now) → AllRelated (SlotsHoldAt h.hosts) 0 hs (values_of states.now)
        → down ≡ spec.is_down h.hosts hs number) }
{
    is_down_at(alloc, composition.members(), number, states)
}

/// The same, said of the states' slots.
fn is_down_at(
    alloc: Global,
    members: &[Member],
    number: usize,
    states: &[NodeState],
) -> Result<bool, OutOfMemory>
    ensures { IfOk result (λ down. down ≡ spec.is_down_at (map member_of members.now) (values_of states.now) number) }
{
    match states.get(number) {
        Some(state) => {
            let values = state_values(alloc, state)?;
            Ok(is_down_in_slots(members, number, &values))
        }
        None => Ok(false),
    }
}

/// Whether the component of this number is down in a state of these values.
fn is_down_in_slots(members: &[Member], number: usize, values: &[Value]) -> bool
    ensures { result ≡ spec.is_down_in_slots (map member_of members.now) number (map plain values.now) }
{
    match members.get(number) {
        Some(member) => is_down_by(member, values),
        None => false,
    }
}

/// Whether a component is down, by the value behind its declared variables. One that does not crash has none there.
fn is_down_by(member: &Member, values: &[Value]) -> bool
    ensures { result ≡ spec.is_down_by (member_of member.now) (map plain values.now) }
{
    match values.get(member.declared) {
        Some(value) => tells_down(value),
        None => false,
    }
}

fn tells_down(value: &Value) -> bool
    ensures { result ≡ spec.tells_down (plain value.now) }
{
    match value {
        Value::Truth(up) => !*up,
        Value::Num(_) | Value::Name(_, _) | Value::Tuple(_, _) | Value::Items(_, _) => false,
    }
}

/// The same, said of the states' slots.
fn put_slots_at(
    alloc: Global,
    text: &mut String,
    types: &Types,
    members: &[Member],
    number: usize,
    states: &[NodeState],
) -> Result<(), OutOfMemory>
    ensures { OnOk result (string_bytes text.new ≡ string_bytes text.old ++ spec.slots_at types.now (map member_of members.now) (values_of states.now) number) }
{
    match states.get(number) {
        Some(state) => {
            let values = state_values(alloc, state)?;
            put_state(text, types, members, number, &values)
        }
        None => Ok(()),
    }
}

/// All states, said of their slots.
fn put_slots(
    alloc: Global,
    text: &mut String,
    types: &Types,
    members: &[Member],
    states: &[NodeState],
) -> Result<(), OutOfMemory>
    ensures { OnOk result (string_bytes text.new ≡ string_bytes text.old ++ numbered (spec.slots_in types.now (map member_of members.now)) 0 (values_of states.now)) }
{
    for i in 0..states.len() {
        let values = state_values(alloc, &states[i])?;
        put_state(text, types, members, i, &values)?;
    }
    Ok(())
}

/// The slots of the component of this number, where there is one.
fn put_state(
    text: &mut String,
    types: &Types,
    members: &[Member],
    number: usize,
    values: &[Value],
) -> Result<(), OutOfMemory>
    ensures { OnOk result (string_bytes text.new ≡ string_bytes text.old ++ spec.slots_in types.now (map member_of members.now) number (map plain values.now)) }
{
    match members.get(number) {
        Some(member) => put_values(text, types, member, values),
        None => Ok(()),
    }
}

/// The slots of a component.
fn put_values(
    text: &mut String,
    types: &Types,
    member: &Member,
    values: &[Value],
) -> Result<(), OutOfMemory>
    ensures { OnOk result (string_bytes text.new ≡ string_bytes text.old ++ numbered (spec.slot_line types.now (member_of member.now)) 0 (map plain values.now)) }
{
    for i in 0..values.len() {
        let name = slot_name(member, i);
        put_value(text, types, member.name.as_str(), name, &values[i])?;
    }
    Ok(())
}

/// The name of the variable that this slot holds. Behind those that a source declares stands whether the component is up.
fn slot_name<'a>(member: &'a Member, slot: usize) -> &'a str
    ensures { result.now ≡ spec.slot_name (member_of member.entry.now) slot }
{
    match member.automaton.variables.get(slot) {
        Some(variable) if slot < member.declared => variable.field.name.text.as_str(),
        _ => "up",
    }
}

/// A line with a component's variable and its value.
fn put_value(
    text: &mut String,
    types: &Types,
    component: &str,
    name: &str,
    value: &Value,
) -> Result<(), OutOfMemory>
    ensures { OnOk result (string_bytes text.new ≡ string_bytes text.old ++ spec.value_line types.now component.now name.now (plain value.now)) }
{
    write!(text, "{component}.{name} = ")?;
    push_value(types, text, value)?;
    text.push_str("\n")?;
    Ok(())
}
