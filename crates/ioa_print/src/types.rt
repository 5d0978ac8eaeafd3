//! Declarations of types as they are printed.

ghost use Rattle.std.specs.Prelude.{◌≡◌, ◌++◌, ◌<◌, map, OnOk};
ghost use Rattle.std.specs.String.{string_bytes};
ghost use Rattle.ioa_print.specs.Layout as spec;
ghost use Rattle.ioa_tree.specs.View.{name_of, field_of, type_form_of, type_declaration_of};

use crate::signatures::field_list;
use crate::words::{LINE, SPACE, name, number, word};
use ioa_lex::Terminal;
use ioa_tree::{Field, Name, TypeDeclaration, TypeForm};
use ioa_value::OutOfMemory;

fn more_names(text: &mut String, names: &[Name], end: char) -> Result<(), OutOfMemory>
    requires { end < 128 }
    ensures { OnOk result (string_bytes text.new ≡ string_bytes text.old ++ spec.text_more Terminal.Comma (spec.text_name end) (map name_of names.now)) }
{
    for each in names {
        word(text, Terminal::Comma, SPACE)?;
        name(text, each, end)?;
    }
    Ok(())
}

/// Writes names, with commas between them.
pub(crate) fn name_list(text: &mut String, names: &[Name], end: char) -> Result<(), OutOfMemory>
    requires { end < 128 }
    ensures { OnOk result (string_bytes text.new ≡ string_bytes text.old ++ spec.text_list Terminal.Comma (spec.text_name end) (map name_of names.now)) }
{
    let Some((first, more)) = names.split_first() else {
        return Ok(());
    };
    name(text, first, end)?;
    more_names(text, more, end)
}

fn names(text: &mut String, names: &[Name]) -> Result<(), OutOfMemory>
    ensures { OnOk result (string_bytes text.new ≡ string_bytes text.old ++ spec.text_braces (spec.text_name spec.space) (map name_of names.now)) }
{
    word(text, Terminal::OpenBrace, SPACE)?;
    name_list(text, names, SPACE)?;
    word(text, Terminal::CloseBrace, LINE)
}

fn fields(text: &mut String, fields: &[Field]) -> Result<(), OutOfMemory>
    ensures { OnOk result (string_bytes text.new ≡ string_bytes text.old ++ spec.text_braces (spec.text_field spec.space) (map field_of fields.now)) }
{
    word(text, Terminal::OpenBrace, SPACE)?;
    field_list(text, fields)?;
    word(text, Terminal::CloseBrace, LINE)
}

fn form(text: &mut String, form: &TypeForm) -> Result<(), OutOfMemory>
    ensures { OnOk result (string_bytes text.new ≡ string_bytes text.old ++ spec.text_form (type_form_of form.now)) }
{
    match form {
        TypeForm::Enumeration(inner) => {
            word(text, Terminal::Enum, SPACE)?;
            names(text, inner)
        }
        TypeForm::Tuple(inner) => {
            word(text, Terminal::Tuple, SPACE)?;
            fields(text, inner)
        }
        TypeForm::Sequence(capacity, item, _) => {
            word(text, Terminal::Seq, SPACE)?;
            number(text, *capacity, SPACE)?;
            word(text, Terminal::Of, SPACE)?;
            name(text, item, LINE)
        }
    }
}

/// Writes what stands after the word `type`.
pub(crate) fn type_declaration(
    text: &mut String,
    declaration: &TypeDeclaration,
) -> Result<(), OutOfMemory>
    ensures { OnOk result (string_bytes text.new ≡ string_bytes text.old ++ spec.text_type (type_declaration_of declaration.now)) }
{
    name(text, &declaration.name, SPACE)?;
    word(text, Terminal::Equal, SPACE)?;
    form(text, &declaration.form)
}
