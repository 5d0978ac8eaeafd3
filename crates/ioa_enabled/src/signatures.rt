//! The inputs of a component as the source declares them.

ghost use Rattle.std.specs.Prelude.{◌≡◌, ◌++◌, OnOk, map};
ghost use Rattle.std.specs.List.{flat_map};
ghost use Rattle.std.specs.String.{string_bytes};
ghost use Rattle.ioa_tree.specs.View.{constant_of, entry_of, position_of};
ghost use Rattle.ioa_enabled.specs.Signed as spec;

use ioa_tree::{Constant, Entry, Kind, Position};
use ioa_value::OutOfMemory;
use std::fmt::Write;

/// Puts a line for each of these entries that is an input behind the text.
pub(crate) fn put_inputs(
    text: &mut String,
    component: &str,
    entries: &[Entry],
) -> Result<(), OutOfMemory>
    ensures { OnOk result (string_bytes text.new ≡ string_bytes text.old ++ flat_map (spec.input_lines component.now) (map entry_of entries.now)) }
{
    for entry in entries {
        put_input(text, component, entry)?;
    }
    Ok(())
}

fn put_input(text: &mut String, component: &str, entry: &Entry) -> Result<(), OutOfMemory>
    ensures { OnOk result (string_bytes text.new ≡ string_bytes text.old ++ spec.input_lines component.now (entry_of entry.now)) }
{
    match entry.kind {
        Kind::Input => put_signature(text, component, entry),
        Kind::Output | Kind::Internal => Ok(()),
    }
}

fn put_signature(text: &mut String, component: &str, entry: &Entry) -> Result<(), OutOfMemory>
    ensures { OnOk result (string_bytes text.new ≡ string_bytes text.old ++ spec.input_line component.now (entry_of entry.now)) }
{
    let name = entry.name.text.as_str();
    write!(text, "{component}: input {name}")?;
    put_positions(text, &entry.positions)?;
    text.push_str("\n")?;
    Ok(())
}

fn put_positions(text: &mut String, positions: &[Position]) -> Result<(), OutOfMemory>
    ensures { OnOk result (string_bytes text.new ≡ string_bytes text.old ++ spec.positions_text (map position_of positions.now)) }
{
    let Some((first, rest)) = positions.split_first() else {
        return Ok(());
    };
    text.push_str("(")?;
    put_position(text, first)?;
    put_more(text, rest)?;
    text.push_str(")")?;
    Ok(())
}

/// The positions behind the first.
fn put_more(text: &mut String, positions: &[Position]) -> Result<(), OutOfMemory>
    ensures { OnOk result (string_bytes text.new ≡ string_bytes text.old ++ spec.more_texts (map position_of positions.now)) }
{
    for position in positions {
        text.push_str(", ")?;
        put_position(text, position)?;
    }
    Ok(())
}

fn put_position(text: &mut String, position: &Position) -> Result<(), OutOfMemory>
    ensures { OnOk result (string_bytes text.new ≡ string_bytes text.old ++ spec.position_text (position_of position.now)) }
{
    match position {
        Position::Typed(field) => {
            let name = field.name.text.as_str();
            let ty = field.ty.text.as_str();
            write!(text, "{name}: {ty}")?;
            Ok(())
        }
        Position::Constant(constant) => {
            text.push_str("const ")?;
            put_constant(text, constant)
        }
    }
}

fn put_constant(text: &mut String, constant: &Constant) -> Result<(), OutOfMemory>
    ensures { OnOk result (string_bytes text.new ≡ string_bytes text.old ++ spec.text_of_constant (constant_of constant.now)) }
{
    match constant {
        Constant::Number(number, _) => write!(text, "{number}")?,
        Constant::Negative(number, _) => write!(text, "-{number}")?,
        Constant::Truth(true, _) => text.push_str("true")?,
        Constant::Truth(false, _) => text.push_str("false")?,
        Constant::Name(name) => text.push_str(name.text.as_str())?,
    }
    Ok(())
}
