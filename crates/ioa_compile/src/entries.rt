//! Entries of a component's table: an entry of the signature with its transition, verified.

ghost use Rattle.std.specs.Prelude.{◌≡◌, ◌∷◌, [], map, Some, None, IfOk, IfSome, IsSome};
ghost use Rattle.std.specs.List.{AllZip};
ghost use Rattle.std.specs.Option.{option_map};
ghost use Rattle.ioa_value.specs.Plain.{plain, number};
ghost use Rattle.ioa_value.specs.Positions.{domain_of};
ghost use Rattle.ioa_value.specs.Table.{AreTypes};
ghost use Rattle.ioa_value.specs.Typing.{OwnTypes};
ghost use Rattle.ioa_code.specs.Valid.{Valid};
ghost use Rattle.ioa_code.specs.Parts.{part, IsVerified};
ghost use Rattle.ioa_tree.specs.View.{entry_of, transition_of, automaton_of};
ghost use Rattle.ioa_tree.specs.Domains.{AreDomainsOf};
ghost use Rattle.ioa_tree.specs.Instances.{transition_for};
ghost use Rattle.ioa_tree.specs.WellFormed.{variable_fields};
ghost use Rattle.ioa_compose.specs.Held.{member_of, HoldsPositions};
ghost use Rattle.ioa_compose.specs.Fine.{IsFine};
ghost use Rattle.ioa_crash.specs.Limits.{component_limits};
ghost use Rattle.ioa_compile.specs.Shown.{entry_code};
ghost use Rattle.ioa_compile.specs.Matching.{AreTypesOf};
ghost use Rattle.ioa_compile.specs.Translated.{IsEntryOf, IsTranslated};

use crate::table::Entry;
use crate::transition::transition_code;
use crate::types::{parameter_types, position_types};
use ioa_code::{Code, CodeErr, Env, PartKind, verify};
use ioa_compose::Member;
use ioa_decode::decode_code;
use ioa_emit::Scope;
use ioa_node::Decoded;
use ioa_tree::{Automaton, Entry as EntryTree, Transition};
use ioa_value::{OutOfMemory, Position, Ty, Types};
use ioa_words::Layout;
use std::alloc::Global;

/// The entries of a component's table, over variables of these types.
pub(crate) fn compile_entries(
    alloc: Global,
    layout: &Layout,
    member: &Member,
    slots: &[Ty],
) -> Result<Vec<Entry>, OutOfMemory>
    requires layout { layout.now ≡ member.now.types }
    requires table { AreTypes member.now.types }
    requires fine { IsFine component_limits (member_of member.now) }
    requires positions { HoldsPositions member.now }
    requires slots { AreTypesOf member.now.types (variable_fields (automaton_of member.now.automaton)) (map number slots.now) }
    ensures { IfOk result (λ entries. AllZip (IsTranslated (member_of member.now) (map number slots.now)) (automaton_of member.now.automaton).entries (map entry_code entries.items)) }
{
    let mut entries = Vec::new(alloc);
    for k in 0..member.automaton.entries.len() {
        let entry = &member.automaton.entries[k];
        let positions = &member.positions[k];
        entries.push(compile_entry(alloc, layout, member, slots, entry, positions)?)?;
    }
    Ok(entries)
}

/// An entry of a component's table: its positions, which the component holds, and the code of its transition.
fn compile_entry(
    alloc: Global,
    layout: &Layout,
    member: &Member,
    slots: &[Ty],
    entry: &EntryTree,
    positions: &[Position],
) -> Result<Entry, OutOfMemory>
    requires layout { layout.now ≡ member.now.types }
    requires table { AreTypes member.now.types }
    requires fine { IsFine component_limits (member_of member.now) }
    requires slots { AreTypesOf member.now.types (variable_fields (automaton_of member.now.automaton)) (map number slots.now) }
    requires own { IsEntryOf (member_of member.now) (entry_of entry.now) }
    requires positions { AreDomainsOf (member_of member.now).instance (entry_of entry.now).positions (map domain_of positions.now) }
    ensures { IfOk result (λ e. IsTranslated (member_of member.now) (map number slots.now) (entry_of entry.now) (entry_code e)) }
{
    let transition = transition_of(&member.automaton, entry);
    let types = &member.types;
    let arguments = position_types(alloc, positions)?;
    let parameters = parameter_types(alloc, positions)?;
    let scope = Scope::of(member, entry);
    let held = Scope::of_proposals(member);
    let code = transition_code(alloc, &scope, &held, entry, transition)?;
    Ok(Entry {
        kind: entry.kind,
        name: entry.name.text.clone()?,
        positions: copied(alloc, positions)?,
        pre: local_part(
            alloc,
            layout,
            types,
            code.guard,
            PartKind::Pre,
            slots,
            &arguments,
            &[Ty::BOOL],
        )?,
        propose: local_part(
            alloc,
            layout,
            types,
            code.proposals,
            PartKind::Propose,
            slots,
            &[],
            &parameters,
        )?,
        effect: verified(
            alloc,
            layout,
            types,
            code.effect,
            PartKind::Eff,
            slots,
            &arguments,
            &[],
        )?,
    })
}

/// Positions that equal these.
fn copied(alloc: Global, positions: &[Position]) -> Result<Vec<Position>, OutOfMemory>
    ensures { IfOk result (λ copies. map domain_of copies.items ≡ map domain_of positions.now) }
{
    let mut copies = Vec::with_capacity(alloc, positions.len())?;
    for position in positions {
        copies.push(position.try_copy(alloc)?)?;
    }
    Ok(copies)
}

/// The transition of an entry.
fn transition_of<'a>(automaton: &'a Automaton, entry: &EntryTree) -> &'a Transition
    requires { IsSome (transition_for (automaton_of automaton.now) (entry_of entry.now)) }
    ensures { transition_for (automaton_of automaton.now) (entry_of entry.now) ≡ Some (transition_of result.now) }
{
    for transition in &automaton.transitions {
        if transition.name.is(entry.name.text.as_str()) {
            return transition;
        }
    }
    unreachable!()
}

/// Valid code of a locally controlled entry, verified and decoded.
fn local_part(
    alloc: Global,
    layout: &Layout,
    types: &Types,
    code: Option<Code>,
    kind: PartKind,
    slots: &[Ty],
    arguments: &[Ty],
    stack: &[Ty],
) -> Result<Option<Decoded>, OutOfMemory>
    requires layout { layout.now ≡ types.now }
    requires typed { IfSome code (λ code. OwnTypes types.now (map plain code.consts.items)) }
    requires valid { IfSome code (λ code. Valid (part types.now code kind slots.now arguments.now stack.now)) }
    ensures value { IfOk result (λ p. p ≡ option_map (λ code. part types.now code kind slots.now arguments.now stack.now) code) }
    ensures sound { IfOk result (λ p. IfSome p IsVerified) }
{
    match code {
        Some(code) => Ok(Some(verified(
            alloc, layout, types, code, kind, slots, arguments, stack,
        )?)),
        None => Ok(None),
    }
}

/// Valid code, verified and decoded.
pub(crate) fn verified(
    alloc: Global,
    layout: &Layout,
    types: &Types,
    code: Code,
    kind: PartKind,
    slots: &[Ty],
    arguments: &[Ty],
    stack: &[Ty],
) -> Result<Decoded, OutOfMemory>
    requires layout { layout.now ≡ types.now }
    requires typed { OwnTypes types.now (map plain code.consts.items) }
    requires valid { Valid (part types.now code kind slots.now arguments.now stack.now) }
    ensures value { IfOk result (λ v. v ≡ part types.now code kind slots.now arguments.now stack.now) }
    ensures sound { IfOk result IsVerified }
{
    let env = Env {
        types,
        kind,
        slots,
        arguments,
        result: stack,
    };
    match verify(alloc, code, &env) {
        Ok(part) => decode_code(alloc, layout, part),
        Err(CodeErr::OutOfMemory) => Err(OutOfMemory),
        Err(CodeErr::Bad { .. }) => unreachable!(),
    }
}
