//! Where a variable starts that has no start expression.

ghost use Rattle.std.specs.Prelude.{◌≡◌, ◌<◌, All, map, length, IfOk};
ghost use Rattle.ioa_value.specs.Plain.{plain, plain_all};
ghost use Rattle.ioa_value.specs.Table.{types_of};
ghost use Rattle.ioa_value.specs.Shapes.{tuple_field};
ghost use Rattle.ioa_value.specs.Typing.{first_of, firsts as values_of};

use crate::memory::OutOfMemory;
use crate::types::{Field, Form, Types};
use crate::value::{Ty, Value};
use std::alloc::Global;

/// The first value of a type. It asks for one of the types.
#[cycle(first)]
pub fn first(alloc: Global, types: &Types, ty: Ty) -> Result<Value, OutOfMemory>
    requires { ty.0 < length types.now }
    ensures value { IfOk result (λ v. plain v ≡ first_of types.now ty.0) }
{
    match types.form(ty) {
        Some(Form::Truths) => Ok(Value::Truth(false)),
        Some(Form::Numbers) => Ok(Value::Num(0)),
        Some(Form::Names(_)) => Ok(Value::Name(ty, 0)),
        Some(Form::Fields(fields)) => Ok(Value::Tuple(ty, firsts(alloc, types, ty, fields)?)),
        Some(Form::Sequence(_, _)) => Ok(Value::Items(ty, Vec::new(alloc))),
        None => unreachable!(),
    }
}

// The first values of the fields, whose types come before this one.
#[cycle(first)]
fn firsts(alloc: Global, types: &Types, ty: Ty, fields: &[Field]) -> Result<Vec<Value>, OutOfMemory>
    requires own { ty.0 < length types.now }
    requires earlier { All (λ t. t < ty.0) (types_of (map tuple_field fields.now)) }
    ensures { IfOk result (λ vs. plain_all vs.items ≡ values_of (first_of types.now) (types_of (map tuple_field fields.now))) }
{
    let mut values = Vec::new(alloc);
    for i in 0..fields.len() {
        values.push(first(alloc, types, fields[i].ty)?)?;
    }
    Ok(values)
}
