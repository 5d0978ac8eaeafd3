//! Values, led by their types.

ghost use Rattle.std.specs.Prelude.{◌≡◌, ◌<◌, [], All, length, map};
ghost use Rattle.ioa_value.specs.Plain.{plain};
ghost use Rattle.ioa_value.specs.Shapes.{tuple_field};
ghost use Rattle.ioa_value.specs.Table.{AreTypes, types_of};
ghost use Rattle.ioa_bytes.specs.Items as spec;
ghost use Rattle.ioa_bytes.specs.Items.{ReadsItem};

use crate::cursor::Cursor;
use crate::failure::ObjErr;
use ioa_value::{Field, Form, Ty, Types, Value};

/// At most so many values.
pub fn values(cursor: &mut Cursor<'_>, types: &Types, most: usize) -> Result<Vec<Value>, ObjErr>
    ensures { ReadsItem (λ v. map plain v.items) (spec.list_at 0 most (λ _. spec.value_at types.now) cursor.old) result cursor.new }
{
    let count = cursor.count(0, most)?;
    let mut found = Vec::new(cursor.alloc());
    for _ in 0..count {
        found.push(value(cursor, types)?)?;
    }
    Ok(found)
}

/// A value: its type, and then what is spelled of a value of the type.
#[tactic(auto, unfolding(crate::specs::Items::value_at))]
pub fn value(cursor: &mut Cursor<'_>, types: &Types) -> Result<Value, ObjErr>
    ensures { ReadsItem plain (spec.value_at types.now cursor.old) result cursor.new }
{
    let ty = cursor.ty(types.len())?;
    payload(cursor, types, ty)
}

/// What is spelled of a value of this type.
#[cycle(payload)]
#[tactic(auto, unfolding(crate::specs::Items::payload_in))]
fn payload(cursor: &mut Cursor<'_>, types: &Types, ty: Ty) -> Result<Value, ObjErr>
    requires { ty.0 < length types.now }
    ensures { ReadsItem plain (spec.payload_at types.now ty.0 cursor.old) result cursor.new }
{
    match types.form(ty) {
        Some(Form::Truths) => truth(cursor),
        Some(Form::Numbers) => cursor.long(),
        Some(Form::Names(names)) => constant(cursor, ty, names.len()),
        Some(Form::Fields(fields)) => Ok(Value::Tuple(ty, parts(cursor, types, ty, fields)?)),
        Some(Form::Sequence(most, of)) => {
            Ok(Value::Items(ty, items(cursor, types, ty, *most as usize, *of)?))
        }
        None => unreachable!(),
    }
}

/// The fields of a tuple of this type, whose own types come before it.
#[cycle(payload)]
fn parts(
    cursor: &mut Cursor<'_>,
    types: &Types,
    ty: Ty,
    fields: &[Field],
) -> Result<Vec<Value>, ObjErr>
    requires table { AreTypes types.now }
    requires own { ty.0 < length types.now }
    requires earlier { All (λ t. t < ty.0) (types_of (map tuple_field fields.now)) }
    ensures { ReadsItem (λ v. map plain v.items) (spec.parts_at (spec.payload_in ty.0 types.now) [] (types_of (map tuple_field fields.now)) cursor.old) result cursor.new }
{
    let mut found = Vec::new(cursor.alloc());
    for i in 0..fields.len() {
        found.push(payload(cursor, types, fields[i].ty)?)?;
    }
    Ok(found)
}

/// The items of a sequence of this type, at most so many, whose type comes before it.
#[cycle(payload)]
fn items(
    cursor: &mut Cursor<'_>,
    types: &Types,
    ty: Ty,
    most: usize,
    of: Ty,
) -> Result<Vec<Value>, ObjErr>
    requires table { AreTypes types.now }
    requires own { ty.0 < length types.now }
    requires earlier { of.0 < ty.0 }
    ensures { ReadsItem (λ v. map plain v.items) (spec.list_at 0 most (λ _. spec.payload_in ty.0 types.now of.0) cursor.old) result cursor.new }
{
    let count = cursor.count(0, most)?;
    let mut found = Vec::new(cursor.alloc());
    for _ in 0..count {
        found.push(payload(cursor, types, of)?)?;
    }
    Ok(found)
}

/// A truth value.
#[tactic(auto, unfolding(crate::specs::Items::truth_at))]
fn truth(cursor: &mut Cursor<'_>) -> Result<Value, ObjErr>
    ensures { ReadsItem plain (spec.truth_at cursor.old) result cursor.new }
{
    let at = cursor.place();
    let byte = cursor.byte()?;
    if byte > 1 {
        return Err(ObjErr::BadTable(at));
    }
    Ok(Value::Truth(byte == 1))
}

/// A name of an enumeration that has so many.
#[tactic(auto, unfolding(crate::specs::Items::constant_at))]
fn constant(cursor: &mut Cursor<'_>, ty: Ty, count: usize) -> Result<Value, ObjErr>
    ensures { ReadsItem plain (spec.constant_at ty.0 count cursor.old) result cursor.new }
{
    let at = cursor.place();
    let byte = cursor.byte()?;
    if byte as usize >= count {
        return Err(ObjErr::BadTable(at));
    }
    Ok(Value::Name(ty, byte))
}
