//! Components in lines: their start states, signatures and code.

ghost use Rattle.std.specs.Prelude.{◌≡◌, ◌++◌, ℕ, IfOk, OnOk, map};
ghost use Rattle.std.specs.List.{flat_map};
ghost use Rattle.std.specs.String.{string_bytes};
ghost use Rattle.ioa_value.specs.Positions.{domain_of};
ghost use Rattle.ioa_compile.specs.Shown.{entry_code, member_code};
ghost use Rattle.ioa_picture.specs.Lines.{numbered};
ghost use Rattle.ioa_dump.specs.Dumps as spec;

use crate::code::{put_local, put_part};
use crate::values::{put_values, type_name, typed_value};
use ioa_compile::{Entry, Member};
use ioa_node::state_values;
use ioa_tree::Kind;
use ioa_value::{OutOfMemory, Position, Types};
use std::alloc::Global;
use std::fmt::Write;

/// The components.
pub fn put_members(
    alloc: Global,
    text: &mut String,
    types: &Types,
    members: &[Member],
) -> Result<(), OutOfMemory>
    ensures { OnOk result (string_bytes text.new ≡ string_bytes text.old ++ numbered (spec.component_lines types.now) 0 (map member_code members.now)) }
{
    for i in 0..members.len() {
        put_member(alloc, text, types, i, &members[i])?;
    }
    Ok(())
}

/// A component by its number: its name, its variables and its entries.
fn put_member(
    alloc: Global,
    text: &mut String,
    types: &Types,
    number: usize,
    member: &Member,
) -> Result<(), OutOfMemory>
    ensures { OnOk result (string_bytes text.new ≡ string_bytes text.old ++ spec.component_lines types.now number (member_code member.now)) }
{
    let name = member.name.as_str();
    writeln!(text, "component {number} {name}")?;
    put_values(
        alloc,
        text,
        types,
        "  variable",
        &state_values(alloc, &member.start)?,
    )?;
    put_entries(alloc, text, types, &member.entries)
}

/// The entries of a component.
fn put_entries(
    alloc: Global,
    text: &mut String,
    types: &Types,
    entries: &[Entry],
) -> Result<(), OutOfMemory>
    ensures { OnOk result (string_bytes text.new ≡ string_bytes text.old ++ flat_map (spec.entry_lines types.now) (map entry_code entries.now)) }
{
    for entry in entries {
        put_entry(alloc, text, types, entry)?;
    }
    Ok(())
}

/// An entry, with its positions, its constants and its code.
fn put_entry(
    alloc: Global,
    text: &mut String,
    types: &Types,
    entry: &Entry,
) -> Result<(), OutOfMemory>
    ensures { OnOk result (string_bytes text.new ≡ string_bytes text.old ++ spec.entry_lines types.now (entry_code entry.now)) }
{
    let kind = kind_word(entry.kind);
    let name = entry.name.as_str();
    writeln!(text, "  {kind} {name}")?;
    put_positions(alloc, text, types, &entry.positions)?;
    let effect = entry.effect.code();
    put_values(alloc, text, types, "    constant", effect.consts())?;
    put_local(alloc, text, types, "precondition", &entry.pre)?;
    put_local(alloc, text, types, "proposals", &entry.propose)?;
    put_part(alloc, text, types, "effect", effect)
}

fn kind_word(kind: Kind) -> &'static str
    ensures { result.now ≡ spec.kind_word kind }
{
    match kind {
        Kind::Input => "input",
        Kind::Output => "output",
        Kind::Internal => "internal",
    }
}

/// The positions of an entry.
fn put_positions(
    alloc: Global,
    text: &mut String,
    types: &Types,
    positions: &[Position],
) -> Result<(), OutOfMemory>
    ensures { OnOk result (string_bytes text.new ≡ string_bytes text.old ++ numbered (spec.position_line types.now) 0 (map domain_of positions.now)) }
{
    for i in 0..positions.len() {
        put_position(alloc, text, types, i, &positions[i])?;
    }
    Ok(())
}

/// A position by its number.
fn put_position(
    alloc: Global,
    text: &mut String,
    types: &Types,
    number: usize,
    position: &Position,
) -> Result<(), OutOfMemory>
    ensures { OnOk result (string_bytes text.new ≡ string_bytes text.old ++ spec.position_line types.now number (domain_of position.now)) }
{
    let taken = position_text(alloc, types, position)?;
    writeln!(text, "    position {number}: {taken}")?;
    Ok(())
}

/// What an action may have in a position.
fn position_text(alloc: Global, types: &Types, position: &Position) -> Result<String, OutOfMemory>
    ensures { IfOk result (λ text. string_bytes text ≡ spec.position_text types.now (domain_of position.now)) }
{
    match position {
        Position::Typed(ty) => Ok(String::from_str(alloc, type_name(types, *ty))?),
        Position::Constant(value) => typed_value(alloc, types, value),
    }
}
