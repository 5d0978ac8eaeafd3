//! The table of types in lines.

ghost use Rattle.std.specs.Prelude.{◌≡◌, ◌++◌, ℕ, OnOk, map};
ghost use Rattle.std.specs.String.{string_bytes};
ghost use Rattle.ioa_value.specs.Shapes.{declaration as declaration_of, shape, tuple_field};
ghost use Rattle.ioa_object.specs.Spelling.{declared as declared_in};
ghost use Rattle.ioa_picture.specs.Lines.{numbered};
ghost use Rattle.ioa_dump.specs.Dumps as spec;

use crate::values::type_name;
use ioa_value::{Declared, Field, Form, OutOfMemory, Ty, Types};
use std::fmt::Write;

/// The declared types.
pub fn put_types(text: &mut String, types: &Types) -> Result<(), OutOfMemory>
    ensures { OnOk result (string_bytes text.new ≡ string_bytes text.old ++ numbered (spec.type_lines types.now) 2 (declared_in types.now)) }
{
    for number in 2..types.len() {
        match types.declared(Ty(number as u16)) {
            Some(declared) => put_type(text, types, number, declared)?,
            None => unreachable!(),
        }
    }
    Ok(())
}

/// A type by its number: its name, and what it is.
fn put_type(
    text: &mut String,
    types: &Types,
    number: usize,
    declared: &Declared,
) -> Result<(), OutOfMemory>
    ensures { OnOk result (string_bytes text.new ≡ string_bytes text.old ++ spec.type_lines types.now number (declaration_of declared.now)) }
{
    let name = declared.name.as_str();
    write!(text, "type {number} {name}: ")?;
    put_form(text, types, &declared.form)
}

/// What a type is.
fn put_form(text: &mut String, types: &Types, form: &Form) -> Result<(), OutOfMemory>
    ensures { OnOk result (string_bytes text.new ≡ string_bytes text.old ++ spec.form_lines types.now (shape form.now)) }
{
    match form {
        Form::Truths | Form::Numbers => Ok(()),
        Form::Names(names) => {
            text.push_str("enumeration\n")?;
            put_names(text, names)
        }
        Form::Fields(fields) => {
            text.push_str("tuple\n")?;
            put_fields(text, types, fields)
        }
        Form::Sequence(most, of) => {
            let item = type_name(types, *of);
            writeln!(text, "sequence of at most {most} {item}")?;
            Ok(())
        }
    }
}

/// The names of an enumeration.
fn put_names(text: &mut String, names: &[String]) -> Result<(), OutOfMemory>
    ensures { OnOk result (string_bytes text.new ≡ string_bytes text.old ++ numbered spec.name_line 0 (map string_bytes names.now)) }
{
    for i in 0..names.len() {
        let name = names[i].as_str();
        writeln!(text, "  name {i} {name}")?;
    }
    Ok(())
}

/// The fields of a tuple.
fn put_fields(text: &mut String, types: &Types, fields: &[Field]) -> Result<(), OutOfMemory>
    ensures { OnOk result (string_bytes text.new ≡ string_bytes text.old ++ numbered (spec.field_line types.now) 0 (map tuple_field fields.now)) }
{
    for i in 0..fields.len() {
        put_field(text, types, i, &fields[i])?;
    }
    Ok(())
}

/// A field by its number: its name and its type.
fn put_field(
    text: &mut String,
    types: &Types,
    number: usize,
    field: &Field,
) -> Result<(), OutOfMemory>
    ensures { OnOk result (string_bytes text.new ≡ string_bytes text.old ++ spec.field_line types.now number (tuple_field field.now)) }
{
    let name = field.name.as_str();
    let ty = type_name(types, field.ty);
    writeln!(text, "  field {number} {name}: {ty}")?;
    Ok(())
}
