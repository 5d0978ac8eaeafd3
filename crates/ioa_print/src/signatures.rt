//! Signatures as they are printed.

ghost use Rattle.std.specs.Prelude.{◌≡◌, ◌++◌, ◌<◌, map, OnOk};
ghost use Rattle.std.specs.String.{string_bytes};
ghost use Rattle.ioa_grammar.specs.Grammar.{kind_word};
ghost use Rattle.ioa_print.specs.Layout as spec;
ghost use Rattle.ioa_tree.specs.View.{field_of, constant_of, position_of, entry_of};

use crate::words::{LINE, SPACE, name, number, word};
use ioa_lex::Terminal;
use ioa_tree::{Constant, Entry, Field, Kind, Position};
use ioa_value::OutOfMemory;

pub(crate) fn word_of(kind: Kind) -> Terminal
    ensures { result ≡ kind_word kind }
{
    match kind {
        Kind::Input => Terminal::Input,
        Kind::Output => Terminal::Output,
        Kind::Internal => Terminal::Internal,
    }
}

/// What stands before a list that may be empty.
pub(crate) fn before<T>(list: &[T]) -> char
    ensures value { result ≡ spec.before_list list.now }
    ensures ascii { result < 128 }
{
    if list.is_empty() { LINE } else { SPACE }
}

pub(crate) fn field(text: &mut String, field: &Field, end: char) -> Result<(), OutOfMemory>
    requires { end < 128 }
    ensures { OnOk result (string_bytes text.new ≡ string_bytes text.old ++ spec.text_field end (field_of field.now)) }
{
    name(text, &field.name, SPACE)?;
    word(text, Terminal::Colon, SPACE)?;
    name(text, &field.ty, end)
}

fn more_fields(text: &mut String, fields: &[Field]) -> Result<(), OutOfMemory>
    ensures { OnOk result (string_bytes text.new ≡ string_bytes text.old ++ spec.text_more Terminal.Comma (spec.text_field spec.space) (map field_of fields.now)) }
{
    for field in fields {
        word(text, Terminal::Comma, SPACE)?;
        self::field(text, field, SPACE)?;
    }
    Ok(())
}

/// Writes fields, with commas between them.
pub(crate) fn field_list(text: &mut String, fields: &[Field]) -> Result<(), OutOfMemory>
    ensures { OnOk result (string_bytes text.new ≡ string_bytes text.old ++ spec.text_list Terminal.Comma (spec.text_field spec.space) (map field_of fields.now)) }
{
    let Some((first, more)) = fields.split_first() else {
        return Ok(());
    };
    field(text, first, SPACE)?;
    more_fields(text, more)
}

/// Writes formal parameters in parentheses, or nothing.
pub(crate) fn formals(text: &mut String, fields: &[Field]) -> Result<(), OutOfMemory>
    ensures { OnOk result (string_bytes text.new ≡ string_bytes text.old ++ spec.text_parens (spec.text_field spec.space) (map field_of fields.now)) }
{
    if fields.is_empty() {
        return Ok(());
    }
    word(text, Terminal::Open, SPACE)?;
    field_list(text, fields)?;
    word(text, Terminal::Close, LINE)
}

fn constant(text: &mut String, constant: &Constant) -> Result<(), OutOfMemory>
    ensures { OnOk result (string_bytes text.new ≡ string_bytes text.old ++ spec.text_constant (constant_of constant.now)) }
{
    match constant {
        Constant::Number(n, _) => number(text, *n, SPACE),
        Constant::Negative(n, _) => {
            word(text, Terminal::Minus, SPACE)?;
            number(text, *n, SPACE)
        }
        Constant::Truth(true, _) => word(text, Terminal::True, SPACE),
        Constant::Truth(false, _) => word(text, Terminal::False, SPACE),
        Constant::Name(inner) => name(text, inner, SPACE),
    }
}

fn position(text: &mut String, position: &Position) -> Result<(), OutOfMemory>
    ensures { OnOk result (string_bytes text.new ≡ string_bytes text.old ++ spec.text_position (position_of position.now)) }
{
    match position {
        Position::Typed(inner) => field(text, inner, SPACE),
        Position::Constant(inner) => {
            word(text, Terminal::Const, SPACE)?;
            constant(text, inner)
        }
    }
}

fn more_positions(text: &mut String, positions: &[Position]) -> Result<(), OutOfMemory>
    ensures { OnOk result (string_bytes text.new ≡ string_bytes text.old ++ spec.text_more Terminal.Comma spec.text_position (map position_of positions.now)) }
{
    for position in positions {
        word(text, Terminal::Comma, SPACE)?;
        self::position(text, position)?;
    }
    Ok(())
}

fn positions(text: &mut String, positions: &[Position]) -> Result<(), OutOfMemory>
    ensures { OnOk result (string_bytes text.new ≡ string_bytes text.old ++ spec.text_parens spec.text_position (map position_of positions.now)) }
{
    let Some((first, more)) = positions.split_first() else {
        return Ok(());
    };
    word(text, Terminal::Open, SPACE)?;
    position(text, first)?;
    more_positions(text, more)?;
    word(text, Terminal::Close, LINE)
}

fn entry(text: &mut String, entry: &Entry) -> Result<(), OutOfMemory>
    ensures { OnOk result (string_bytes text.new ≡ string_bytes text.old ++ spec.text_entry (entry_of entry.now)) }
{
    word(text, word_of(entry.kind), SPACE)?;
    name(text, &entry.name, before(&entry.positions))?;
    positions(text, &entry.positions)
}

fn more_entries(text: &mut String, entries: &[Entry]) -> Result<(), OutOfMemory>
    ensures { OnOk result (string_bytes text.new ≡ string_bytes text.old ++ spec.text_more Terminal.Semicolon spec.text_entry (map entry_of entries.now)) }
{
    for each in entries {
        word(text, Terminal::Semicolon, SPACE)?;
        entry(text, each)?;
    }
    Ok(())
}

/// Writes the entries of a signature.
pub(crate) fn entries(text: &mut String, entries: &[Entry]) -> Result<(), OutOfMemory>
    ensures { OnOk result (string_bytes text.new ≡ string_bytes text.old ++ spec.text_list Terminal.Semicolon spec.text_entry (map entry_of entries.now)) }
{
    let Some((first, more)) = entries.split_first() else {
        return Ok(());
    };
    entry(text, first)?;
    more_entries(text, more)
}
