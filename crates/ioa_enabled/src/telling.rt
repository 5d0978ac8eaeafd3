//! Lines that tell what is enabled.

ghost use Rattle.std.specs.Prelude.{◌≡◌, ◌++◌, ℕ, List, Some, IfSome, OnOk, map, nat_lt, slice_get};
ghost use Rattle.std.specs.String.{string_bytes};
ghost use Rattle.ioa_value.specs.Actions.{act_of};
ghost use Rattle.ioa_tree.specs.Hosts.{HostState, Hosted};
ghost use Rattle.ioa_tree.specs.Likes.{AllRelated};
ghost use Rattle.ioa_tree.specs.Meaning.{Env};
ghost use Rattle.ioa_tree.specs.View.{entry_of};
ghost use Rattle.ioa_compose.specs.Held.{composed_of, member_of};
ghost use Rattle.ioa_compose.specs.Simulates.{Simulates};
ghost use Rattle.ioa_compile.specs.Implements.{Implements};
ghost use Rattle.ioa_compile.specs.Programs.{MemberCode};
ghost use Rattle.ioa_compile.specs.Shown.{entry_code, member_code};
ghost use Rattle.ioa_compile.specs.Subjects.{HoldsTyped};
ghost use Rattle.ioa_compile.specs.Tables.{table_component};
ghost use Rattle.ioa_system.specs.Systems.{values_of};
ghost use Rattle.ioa_picture.specs.Lines.{numbered};
ghost use Rattle.ioa_run.specs.Choices.{IsOfState};
ghost use Rattle.ioa_enabled.specs.declared.telling.TheConstants.{MOST as most};
ghost use Rattle.ioa_enabled.specs.Offers.{IsPlaced, IsReady};
ghost use Rattle.ioa_enabled.specs.Placed.{AreOfMember, AreOfMembers};
ghost use Rattle.ioa_enabled.specs.Told as spec;
ghost use Rattle.ioa_enabled.specs.Told.{AllHaveWays, ShareTypes, HaveWays};
ghost use Rattle.ioa_enabled.specs.Sampled.{HasWays};
ghost use Rattle.ioa_enabled.specs.Ways.{Values, enabled_ways, total};

use crate::offers::{Offer, offer_of};
use crate::part::Part;
use crate::placing::placed;
use crate::signatures::put_inputs;
use ioa_compile::{Entry, Member, Program};
use ioa_compose::Composition;
use ioa_node::{NodeState, Workspace, state_values};
use ioa_value::{Action, OutOfMemory, Types, push_action};
use std::alloc::Global;
use std::fmt::Write;

/// So many of the actions that an entry may propose are tried, and no more.
pub const MOST: u32 = 64;

/// Puts what is enabled in these states of the composition's components behind the text: of each component a line for each of its own actions that is
/// enabled, as far as its entries propose it, or, of an entry with more than `MOST` proposals, one that counts the enabled ones of the first; and then a
/// line for each of its inputs.
///
/// The program is the composition's.
pub fn put_enabled(
    alloc: Global,
    text: &mut String,
    composition: &Composition,
    program: &Program,
    states: &[NodeState],
) -> Result<(), OutOfMemory>
    ensures { OnOk result ((h : Hosted) (hs : List (HostState Env)) → ShareTypes h → Simulates h (composed_of composition.now) → Implements program.now (composed_of composition.now)
        → AllRelated (HoldsTyped h.hosts program.now.members) 0 hs (values_of states.now)
        → string_bytes text.new ≡ string_bytes text.old ++ spec.enabled_lines h.types h.hosts hs) }
{
    put_part(alloc, Part::All, text, composition, program, states)
}

/// Puts this part of it.
///
/// The program is the composition's.
pub(crate) fn put_part(
    alloc: Global,
    part: Part,
    text: &mut String,
    composition: &Composition,
    program: &Program,
    states: &[NodeState],
) -> Result<(), OutOfMemory>
    ensures { OnOk result ((h : Hosted) (hs : List (HostState Env)) → ShareTypes h → Simulates h (composed_of composition.now) → Implements program.now (composed_of composition.now)
        → AllRelated (HoldsTyped h.hosts program.now.members) 0 hs (values_of states.now)
        → string_bytes text.new ≡ string_bytes text.old ++ spec.part_lines part h.types h.hosts hs) }
{
    let types = program.types();
    let members = composition.members();
    let codes = program.members();
    put_all(alloc, part, text, types, members, codes, states)
}

/// The same, said of the program's table.
fn put_all(
    alloc: Global,
    part: Part,
    text: &mut String,
    types: &Types,
    members: &[ioa_compose::Member],
    codes: &[Member],
    states: &[NodeState],
) -> Result<(), OutOfMemory>
    requires { (i : ℕ) (m : MemberCode) → slice_get (map member_code codes.now) i ≡ Some m → IsReady m }
    ensures { OnOk result ((w : ℕ → ℕ → List Values) → AreOfMembers (map member_code codes.now) (values_of states.now) → AllHaveWays (map member_code codes.now) (values_of states.now) w
        → string_bytes text.new ≡ string_bytes text.old ++ numbered (spec.lines_at part types.now (map member_of members.now) (map member_code codes.now) w) 0 (values_of states.now)) }
{
    let mut workspace = Workspace::new(alloc);
    for i in 0..states.len() {
        if i < members.len() && i < codes.len() {
            put_state(
                alloc,
                &mut workspace,
                part,
                text,
                types,
                &members[i],
                &codes[i],
                &states[i],
            )?;
        }
    }
    Ok(())
}

/// The lines of a component in this state, where its variables are of their types.
fn put_state(
    alloc: Global,
    workspace: &mut Workspace,
    part: Part,
    text: &mut String,
    types: &Types,
    member: &ioa_compose::Member,
    code: &Member,
    state: &NodeState,
) -> Result<(), OutOfMemory>
    requires { IsReady (member_code code.now) }
    ensures { OnOk result ((w : ℕ → List Values) → AreOfMember (member_code code.now) state.now.values → HaveWays (member_code code.now) state.now.values w
        → string_bytes text.new ≡ string_bytes text.old ++ spec.member_lines part types.now (member_of member.now) (member_code code.now) state.now.values w) }
{
    let values = state_values(alloc, state)?;
    match placed(alloc, code, &values)? {
        Some(state) => put_member(alloc, workspace, part, text, types, member, code, &state),
        None => Ok(()),
    }
}

/// The lines of a component.
fn put_member(
    alloc: Global,
    workspace: &mut Workspace,
    part: Part,
    text: &mut String,
    types: &Types,
    member: &ioa_compose::Member,
    code: &Member,
    state: &NodeState,
) -> Result<(), OutOfMemory>
    requires { IsPlaced (member_code code.now) state.now }
    ensures { OnOk result ((w : ℕ → List Values) → HaveWays (member_code code.now) state.now.values w
        → string_bytes text.new ≡ string_bytes text.old ++ spec.member_lines part types.now (member_of member.now) (member_code code.now) state.now.values w) }
{
    let name = member.name.as_str();
    put_entries(alloc, workspace, part, text, types, name, code, state)?;
    put_inputs_in(part, text, name, &member.automaton.entries)
}

/// Its inputs, where these are told.
fn put_inputs_in(
    part: Part,
    text: &mut String,
    component: &str,
    entries: &[ioa_tree::Entry],
) -> Result<(), OutOfMemory>
    ensures { OnOk result (string_bytes text.new ≡ string_bytes text.old ++ spec.inputs_in part component.now (map entry_of entries.now)) }
{
    match part {
        Part::All => put_inputs(text, component, entries),
        Part::Own | Part::Enabled => Ok(()),
    }
}

/// The actions of a component of this name that are enabled.
fn put_entries(
    alloc: Global,
    workspace: &mut Workspace,
    part: Part,
    text: &mut String,
    types: &Types,
    name: &str,
    code: &Member,
    state: &NodeState,
) -> Result<(), OutOfMemory>
    requires { IsPlaced (member_code code.now) state.now }
    ensures { OnOk result ((w : ℕ → List Values) → HaveWays (member_code code.now) state.now.values w
        → string_bytes text.new ≡ string_bytes text.old ++ numbered (spec.code_lines part types.now name.now (member_code code.now) state.now.values w) 0 (member_code code.now).entries) }
{
    for k in 0..code.entries.len() {
        let entry = &code.entries[k];
        if entry.kind.is_local() {
            put_entry(
                alloc, workspace, part, text, types, name, code, entry, state,
            )?;
        }
    }
    Ok(())
}

/// Those of an entry, or how many there are among the first.
fn put_entry(
    alloc: Global,
    workspace: &mut Workspace,
    part: Part,
    text: &mut String,
    types: &Types,
    name: &str,
    code: &Member,
    entry: &Entry,
    state: &NodeState,
) -> Result<(), OutOfMemory>
    requires ready { IsPlaced (member_code code.now) state.now }
    requires proposes { IfSome (entry_code entry.now).propose (IsOfState state.now) }
    ensures { OnOk result ((cs : List Values) → HasWays (entry_code entry.now) state.now.values cs
        → string_bytes text.new ≡ string_bytes text.old ++ spec.lines_in part types.now name.now (entry_code entry.now).name (nat_lt most (total cs)) (enabled_ways (table_component (member_code code.now)) state.now.values (entry_code entry.now).name cs most)) }
{
    let offer = offer_of(alloc, workspace, code, entry, state, MOST)?;
    put_offer(part, text, types, name, entry.name.as_str(), &offer)
}

/// What is told of an entry, where the part has it.
fn put_offer(
    part: Part,
    text: &mut String,
    types: &Types,
    component: &str,
    entry: &str,
    offer: &Offer,
) -> Result<(), OutOfMemory>
    ensures { OnOk result (string_bytes text.new ≡ string_bytes text.old ++ spec.lines_in part types.now component.now entry.now offer.now.more (map act_of offer.now.enabled.items)) }
{
    if part.tells(offer.enabled.is_empty()) {
        return put_lines(text, types, component, entry, offer);
    }
    Ok(())
}

fn put_lines(
    text: &mut String,
    types: &Types,
    component: &str,
    entry: &str,
    offer: &Offer,
) -> Result<(), OutOfMemory>
    ensures { OnOk result (string_bytes text.new ≡ string_bytes text.old ++ spec.offer_lines types.now component.now entry.now offer.now.more (map act_of offer.now.enabled.items)) }
{
    if offer.more {
        let count = offer.enabled.len();
        writeln!(
            text,
            "{component}: {entry}: more than 64 proposals, {count} of the first 64 are enabled"
        )?;
        return Ok(());
    }
    for action in &offer.enabled {
        put_action(text, types, component, action)?;
    }
    Ok(())
}

fn put_action(
    text: &mut String,
    types: &Types,
    component: &str,
    action: &Action,
) -> Result<(), OutOfMemory>
    ensures { OnOk result (string_bytes text.new ≡ string_bytes text.old ++ spec.action_line types.now component.now (act_of action.now)) }
{
    write!(text, "{component}: ")?;
    push_action(types, text, action)?;
    text.push_str("\n")?;
    Ok(())
}
