//! The test of values against the table of types, part by part.

ghost use Rattle.std.specs.Prelude.{◌≡◌, ◌&&◌, ◌==◌, nat_le, map};
ghost use Rattle.ioa_value.specs.Plain.{plain, plain_all, count};
ghost use Rattle.ioa_value.specs.Table.{shape_at, types_of};
ghost use Rattle.ioa_value.specs.Shapes.{tuple_field};
ghost use Rattle.ioa_value.specs.Typing.{is_of, parts_are, items_are, is_name_of as has_name, of_fields, of_sequence};
ghost use Rattle.ioa_arithmetic.specs.Arithmetic.{fits};

use crate::types::{Field, Form, Types};
use crate::value::{Ty, Value};

/// Whether the value is one of the type's.
#[cycle(typing)]
pub fn has_type(types: &Types, value: &Value, ty: Ty) -> bool
    ensures { result ≡ is_of types.now (plain value.now) ty.0 }
{
    match value {
        Value::Truth(_) => ty.0 == 0,
        Value::Num(n) => is_number(*n, ty),
        Value::Name(own, n) => ty.0 == own.0 && is_name_of(types, *own, *n),
        Value::Tuple(own, parts) => ty.0 == own.0 && is_tuple_of(types, *own, parts),
        Value::Items(own, items) => ty.0 == own.0 && is_sequence_of(types, *own, items),
    }
}

fn is_number(n: i64, ty: Ty) -> bool
    ensures { result ≡ ((ty.0 == 1) && fits n) }
{
    let _n = n;
    ty.0 == 1
}

fn is_name_of(types: &Types, ty: Ty, n: u8) -> bool
    ensures { result ≡ has_name (shape_at types.now ty.0) n }
{
    match types.form(ty) {
        Some(Form::Names(names)) => (n as usize) < names.len(),
        _ => false,
    }
}

#[cycle(typing)]
fn is_tuple_of(types: &Types, ty: Ty, parts: &[Value]) -> bool
    ensures { result ≡ of_fields (shape_at types.now ty.0) (λ tys. parts_are types.now (plain_all parts.now) tys) }
{
    match types.form(ty) {
        Some(Form::Fields(fields)) => has_parts(types, parts, fields),
        _ => false,
    }
}

#[cycle(typing)]
fn is_sequence_of(types: &Types, ty: Ty, items: &[Value]) -> bool
    ensures { result ≡ of_sequence (shape_at types.now ty.0) (λ most of. nat_le (count (plain_all items.now)) most && items_are types.now (plain_all items.now) of) }
{
    match types.form(ty) {
        Some(Form::Sequence(most, of)) => items.len() <= *most as usize
            && has_items(types, items, *of),
        _ => false,
    }
}

#[cycle(typing)]
fn has_parts(types: &Types, values: &[Value], fields: &[Field]) -> bool
    ensures { result ≡ parts_are types.now (plain_all values.now) (types_of (map tuple_field fields.now)) }
{
    if values.len() != fields.len() {
        return false;
    }
    for i in 0..values.len() {
        if !has_type(types, &values[i], fields[i].ty) {
            return false;
        }
    }
    true
}

#[cycle(typing)]
fn has_items(types: &Types, values: &[Value], ty: Ty) -> bool
    ensures { result ≡ items_are types.now (plain_all values.now) ty.0 }
{
    for value in values {
        if !has_type(types, value, ty) {
            return false;
        }
    }
    true
}
