//! Entries of components, as their automata declare them.

ghost use Rattle.std.specs.Prelude.{◌≡◌, ◌++◌, OnOk};
ghost use Rattle.std.specs.String.{string_bytes};
ghost use Rattle.ioac.specs.Hints as spec;

use ioa_causes::entry_named;
use ioa_compose::Member;
use ioa_tree::{Constant, Entry, Position};
use ioa_value::OutOfMemory;
use std::alloc::Global;
use std::fmt::Write;

/// The names of all entries.
pub fn names_of(alloc: Global, members: &[Member]) -> Result<Vec<&str>, OutOfMemory> {
    let mut names = Vec::new(alloc);
    for member in members {
        for entry in &member.automaton.entries {
            names.push(entry.name.text.as_str())?;
        }
    }
    Ok(names)
}

/// Puts each component that has an entry of this name, a line each, with the entry as it is declared.
pub fn put_like(text: &mut String, members: &[Member], name: &str) -> Result<(), OutOfMemory>
    ensures { OnOk result (string_bytes text.new ≡ string_bytes text.old ++ spec.like_text name.now members.now) }
{
    for member in members {
        put_like_line(text, member, name)?;
    }
    Ok(())
}

fn put_like_line(text: &mut String, member: &Member, name: &str) -> Result<(), OutOfMemory>
    ensures { OnOk result (string_bytes text.new ≡ string_bytes text.old ++ spec.like_line name.now member.now) }
{
    match entry_named(&member.automaton.entries, name) {
        Some(entry) => put_entry_of(text, member.name.as_str(), entry),
        None => Ok(()),
    }
}

/// Puts a component with one of its entries on a line.
fn put_entry_of(text: &mut String, component: &str, entry: &Entry) -> Result<(), OutOfMemory>
    ensures { OnOk result (string_bytes text.new ≡ string_bytes text.old ++ spec.entry_line component.now entry.now) }
{
    write!(text, "{component} has `")?;
    put_entry(text, entry)?;
    text.push_str("`\n")?;
    Ok(())
}

/// Puts an entry's name and its positions, as they are declared.
fn put_entry(text: &mut String, entry: &Entry) -> Result<(), OutOfMemory>
    ensures { OnOk result (string_bytes text.new ≡ string_bytes text.old ++ spec.entry_text entry.now) }
{
    text.push_str(entry.name.text.as_str())?;
    put_positions(text, &entry.positions)?;
    put_closing(text, &entry.positions)
}

fn put_closing(text: &mut String, positions: &[Position]) -> Result<(), OutOfMemory>
    ensures { OnOk result (string_bytes text.new ≡ string_bytes text.old ++ spec.closing_text positions.now) }
{
    if let [_, ..] = positions {
        text.push_str(")")?;
    }
    Ok(())
}

/// Puts positions, the first behind `(` and the others behind commas.
fn put_positions(text: &mut String, positions: &[Position]) -> Result<(), OutOfMemory>
    ensures { OnOk result (string_bytes text.new ≡ string_bytes text.old ++ spec.positions_text positions.now) }
{
    match positions {
        [] => Ok(()),
        [first, others @ ..] => {
            text.push_str("(")?;
            put_position(text, first)?;
            put_others(text, others)
        }
    }
}

/// Puts positions, each behind a comma.
fn put_others(text: &mut String, positions: &[Position]) -> Result<(), OutOfMemory>
    ensures { OnOk result (string_bytes text.new ≡ string_bytes text.old ++ spec.others_text positions.now) }
{
    for position in positions {
        put_other(text, position)?;
    }
    Ok(())
}

fn put_other(text: &mut String, position: &Position) -> Result<(), OutOfMemory>
    ensures { OnOk result (string_bytes text.new ≡ string_bytes text.old ++ spec.other_text position.now) }
{
    text.push_str(", ")?;
    put_position(text, position)
}

fn put_position(text: &mut String, position: &Position) -> Result<(), OutOfMemory>
    ensures { OnOk result (string_bytes text.new ≡ string_bytes text.old ++ spec.position_text position.now) }
{
    match position {
        Position::Typed(field) => {
            put_typed(text, field.name.text.as_str(), field.ty.text.as_str())
        }
        Position::Constant(constant) => {
            text.push_str("const ")?;
            put_constant(text, constant)
        }
    }
}

fn put_typed(text: &mut String, name: &str, ty: &str) -> Result<(), OutOfMemory>
    ensures { OnOk result (string_bytes text.new ≡ string_bytes text.old ++ spec.typed_text name.now ty.now) }
{
    write!(text, "{name}: {ty}")?;
    Ok(())
}

fn put_constant(text: &mut String, constant: &Constant) -> Result<(), OutOfMemory>
    ensures { OnOk result (string_bytes text.new ≡ string_bytes text.old ++ spec.constant_text constant.now) }
{
    match constant {
        Constant::Number(number, _) => write!(text, "{number}")?,
        Constant::Negative(number, _) => write!(text, "-{number}")?,
        Constant::Truth(truth, _) => text.push_str(truth_word(*truth))?,
        Constant::Name(name) => text.push_str(name.text.as_str())?,
    }
    Ok(())
}

fn truth_word(truth: bool) -> &'static str
    ensures { result.now ≡ spec.truth_text truth }
{
    if truth { "true" } else { "false" }
}
