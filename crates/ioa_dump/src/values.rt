//! Values in lines, which bear the names of their types.

ghost use Rattle.std.specs.Prelude.{◌≡◌, ◌++◌, ℕ, IfOk, OnOk, map};
ghost use Rattle.std.specs.String.{string_bytes};
ghost use Rattle.ioa_value.specs.Plain.{number, plain};
ghost use Rattle.ioa_value.specs.Table as tables;
ghost use Rattle.ioa_picture.specs.Lines.{numbered};
ghost use Rattle.ioa_dump.specs.Dumps as spec;

use ioa_value::{OutOfMemory, Ty, Types, Value, push_value};
use std::alloc::Global;
use std::fmt::Write;

/// The name of the type of this number.
pub fn type_name(types: &Types, ty: Ty) -> &str
    ensures { result.now ≡ tables.type_name types.now ty.0 }
{
    match types.declared(ty) {
        Some(declared) => declared.name.as_str(),
        None => "",
    }
}

/// The name of the type that stands in this place of a list.
pub fn type_in<'a>(types: &'a Types, listed: &[Ty], place: u16) -> &'a str
    ensures { result.now ≡ spec.type_in types.entry.now (map number listed.now) place }
{
    match listed.get(place as usize) {
        Some(ty) => type_name(types, *ty),
        None => "",
    }
}

/// Values behind a label, each with its number.
pub fn put_values(
    alloc: Global,
    text: &mut String,
    types: &Types,
    label: &str,
    values: &[Value],
) -> Result<(), OutOfMemory>
    ensures { OnOk result (string_bytes text.new ≡ string_bytes text.old ++ numbered (spec.value_line label.now types.now) 0 (map plain values.now)) }
{
    for i in 0..values.len() {
        put_value(alloc, text, types, label, i, &values[i])?;
    }
    Ok(())
}

fn put_value(
    alloc: Global,
    text: &mut String,
    types: &Types,
    label: &str,
    number: usize,
    value: &Value,
) -> Result<(), OutOfMemory>
    ensures { OnOk result (string_bytes text.new ≡ string_bytes text.old ++ spec.value_line label.now types.now number (plain value.now)) }
{
    let typed = typed_value(alloc, types, value)?;
    writeln!(text, "{label} {number}: {typed}")?;
    Ok(())
}

/// A value with its type before it.
pub fn typed_value(alloc: Global, types: &Types, value: &Value) -> Result<String, OutOfMemory>
    ensures { IfOk result (λ text. string_bytes text ≡ spec.typed_value types.now (plain value.now)) }
{
    let name = type_name(types, value.ty());
    let mut text = String::from_str(alloc, name)?;
    text.push_str(" (")?;
    push_value(types, &mut text, value)?;
    text.push_str(")")?;
    Ok(text)
}

/// A value with its type before it; of a value that holds others the type alone, so that a constant that is long stands in one line only.
pub fn brief_value(alloc: Global, types: &Types, value: &Value) -> Result<String, OutOfMemory>
    ensures { IfOk result (λ text. string_bytes text ≡ spec.brief_value types.now (plain value.now)) }
{
    match value {
        Value::Truth(_) | Value::Num(_) | Value::Name(..) => typed_value(alloc, types, value),
        Value::Tuple(ty, _) | Value::Items(ty, _) => {
            Ok(String::from_str(alloc, type_name(types, *ty))?)
        }
    }
}
