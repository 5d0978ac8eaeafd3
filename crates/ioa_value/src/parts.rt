//! What the declared types say of the parts of their values.

ghost use Rattle.std.specs.Prelude.{◌≡◌, map, length, slice_get};
ghost use Rattle.std.specs.Option.{option_map};
ghost use Rattle.ioa_value.specs.Plain.{number};
ghost use Rattle.ioa_value.specs.Table as spec;
ghost use Rattle.ioa_value.specs.Table.{shape_at};
ghost use Rattle.ioa_value.specs.Typing.{of_fields};
ghost use Rattle.ioa_value.specs.Operators.{is_that, are_these};
ghost use Rattle.ioa_value.specs.Shapes.{tuple_field};

use crate::types::{Field, Form, Types};
use crate::value::Ty;

/// The type of the items of a sequence type.
pub(crate) fn item_type(types: &Types, ty: Ty) -> Option<Ty>
    ensures { option_map number result ≡ spec.item_type types.now ty.0 }
{
    match types.form(ty) {
        Some(Form::Sequence(_, of)) => Some(*of),
        _ => None,
    }
}

/// Whether the items of the sequence type have this type.
pub(crate) fn is_item(types: &Types, ty: Ty, item: Ty) -> bool
    ensures { result ≡ is_that (spec.item_type types.now ty.0) item.0 }
{
    match item_type(types, ty) {
        Some(of) => item == of,
        None => false,
    }
}

/// How many items a sequence of the type may have; 0 where it is no sequence type.
pub(crate) fn capacity(types: &Types, ty: Ty) -> usize
    ensures { result ≡ spec.capacity types.now ty.0 }
{
    match types.form(ty) {
        Some(Form::Sequence(most, _)) => *most as usize,
        _ => 0,
    }
}

/// How many fields a tuple type has; 0 where it is no tuple type.
pub(crate) fn field_count(types: &Types, ty: Ty) -> usize
    ensures { result ≡ length (spec.field_types types.now ty.0) }
{
    match types.form(ty) {
        Some(Form::Fields(fields)) => fields.len(),
        _ => 0,
    }
}

/// The type of the field of a tuple type at this place, from 0.
pub(crate) fn field_type(types: &Types, ty: Ty, place: u16) -> Option<Ty>
    ensures { option_map number result ≡ slice_get (spec.field_types types.now ty.0) place }
{
    match types.form(ty) {
        Some(Form::Fields(fields)) => type_at(fields, place),
        _ => None,
    }
}

fn type_at(fields: &[Field], place: u16) -> Option<Ty>
    ensures { option_map number result ≡ slice_get (spec.types_of (map tuple_field fields.now)) place }
{
    if (place as usize) < fields.len() {
        Some(fields[place as usize].ty)
    } else {
        None
    }
}

/// Whether it is a tuple type with fields of these types, in order.
pub(crate) fn are_fields(types: &Types, ty: Ty, operands: &[Ty]) -> bool
    ensures { result ≡ of_fields (shape_at types.now ty.0) (are_these (map number operands.now)) }
{
    match types.form(ty) {
        Some(Form::Fields(fields)) => are_of(operands, fields),
        _ => false,
    }
}

// Whether the types are those of the fields, in order.
fn are_of(operands: &[Ty], fields: &[Field]) -> bool
    ensures { result ≡ are_these (map number operands.now) (spec.types_of (map tuple_field fields.now)) }
{
    if operands.len() != fields.len() {
        return false;
    }
    for i in 0..operands.len() {
        if operands[i] != fields[i].ty {
            return false;
        }
    }
    true
}
