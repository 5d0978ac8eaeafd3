//! Actions and values as texts, each in the one spelling in which it is printed.

ghost use Rattle.std.specs.Prelude.{◌≡◌, ◌++◌, IfOk, OnOk, map, string_bytes};
ghost use Rattle.ioa_value.specs.Plain.{plain, plain_all};
ghost use Rattle.ioa_value.specs.Actions.{act_of};
ghost use Rattle.ioa_value.specs.Table.{type_name, constant_name};
ghost use Rattle.ioa_value.specs.Written.{written_value, written_row, written_values, written_action};

use crate::action::Action;
use crate::memory::OutOfMemory;
use crate::types::{Form, Types};
use crate::value::{Ty, Value};
use std::alloc::Global;

/// The one spelling of an action: its name, and for one value or more `(`, the values parted by
/// `, `, and `)`.
pub fn print_action(alloc: Global, types: &Types, action: &Action) -> Result<String, OutOfMemory>
    ensures { IfOk result (λ text. string_bytes text ≡ written_action types.now (act_of action.now)) }
{
    let mut text = String::new(alloc);
    push_action(types, &mut text, action)?;
    Ok(text)
}

/// The one spelling of an action, as `print_action` gives it, put behind a text.
pub fn push_action(types: &Types, text: &mut String, action: &Action) -> Result<(), OutOfMemory>
    ensures { OnOk result (string_bytes text.new ≡ string_bytes text.old ++ written_action types.now (act_of action.now)) }
{
    text.push_str(action.name.as_str())?;
    push_values(types, text, &action.vals)
}

// One value or more in parentheses, or nothing.
fn push_values(types: &Types, text: &mut String, values: &[Value]) -> Result<(), OutOfMemory>
    ensures { OnOk result (string_bytes text.new ≡ string_bytes text.old ++ written_values types.now (map plain values.now)) }
{
    if values.is_empty() {
        return Ok(());
    }
    text.push_str("(")?;
    push_row(types, text, values)?;
    text.push_str(")")?;
    Ok(())
}

/// The one spelling of a value, put behind a text.
#[cycle(writing)]
pub fn push_value(types: &Types, text: &mut String, value: &Value) -> Result<(), OutOfMemory>
    ensures { OnOk result (string_bytes text.new ≡ string_bytes text.old ++ written_value types.now (plain value.now)) }
{
    match value {
        Value::Truth(true) => text.push_str("true")?,
        Value::Truth(false) => text.push_str("false")?,
        Value::Num(n) => write!(text, "{n}")?,
        Value::Name(ty, n) => push_constant(types, text, *ty, *n)?,
        Value::Tuple(ty, parts) => {
            push_type(types, text, *ty)?;
            text.push_str("(")?;
            push_row(types, text, parts)?;
            text.push_str(")")?;
        }
        Value::Items(ty, items) => {
            push_type(types, text, *ty)?;
            text.push_str("[")?;
            push_row(types, text, items)?;
            text.push_str("]")?;
        }
    }
    Ok(())
}

// The values, parted by `, `.
#[cycle(writing)]
fn push_row(types: &Types, text: &mut String, values: &[Value]) -> Result<(), OutOfMemory>
    ensures { OnOk result (string_bytes text.new ≡ string_bytes text.old ++ written_row types.now (plain_all values.now)) }
{
    for i in 0..values.len() {
        if i > 0 {
            text.push_str(", ")?;
        }
        push_value(types, text, &values[i])?;
    }
    Ok(())
}

fn push_type(types: &Types, text: &mut String, ty: Ty) -> Result<(), OutOfMemory>
    ensures { OnOk result (string_bytes text.new ≡ string_bytes text.old ++ type_name types.now ty.0) }
{
    if let Some(declared) = types.declared(ty) {
        text.push_str(declared.name.as_str())?;
    }
    Ok(())
}

fn push_constant(types: &Types, text: &mut String, ty: Ty, n: u8) -> Result<(), OutOfMemory>
    ensures { OnOk result (string_bytes text.new ≡ string_bytes text.old ++ constant_name types.now ty.0 n) }
{
    if let Some(Form::Names(names)) = types.form(ty) {
        if let Some(name) = names.get(n as usize) {
            text.push_str(name.as_str())?;
        }
    }
    Ok(())
}
