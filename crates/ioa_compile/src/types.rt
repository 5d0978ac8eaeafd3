//! The types for which parts of code are verified: of variables, of positions, of parameters.

ghost use Rattle.std.specs.Prelude.{◌≡◌, map, IfOk, IsTrue};
ghost use Rattle.std.specs.List.{list_all};
ghost use Rattle.ioa_value.specs.Plain.{number};
ghost use Rattle.ioa_value.specs.Positions.{domain_of};
ghost use Rattle.ioa_tree.specs.View.{field_of, variable_of};
ghost use Rattle.ioa_tree.specs.WellFormed.{is_type};
ghost use Rattle.ioa_compile.specs.Tables.{position_types as types_of_positions, parameter_types as types_of_parameters};
ghost use Rattle.ioa_compile.specs.Matching.{IsTypeOf, AreTypesOf};

use ioa_emit::named_type;
use ioa_tree::{Field, Variable};
use ioa_value::{OutOfMemory, Position, Ty, Types};
use std::alloc::Global;

/// The types of variables, in order.
pub(crate) fn variable_types(
    alloc: Global,
    types: &Types,
    variables: &[Variable],
) -> Result<Vec<Ty>, OutOfMemory>
    requires { IsTrue (list_all (is_type types.now) (map (λ v. v.field) (map variable_of variables.now))) }
    ensures { IfOk result (λ found. AreTypesOf types.now (map (λ v. v.field) (map variable_of variables.now)) (map number found.items)) }
{
    let mut found = Vec::new(alloc);
    for variable in variables {
        found.push(type_of(types, &variable.field))?;
    }
    Ok(found)
}

/// The types of what stands in positions, in order.
pub fn position_types(alloc: Global, positions: &[Position]) -> Result<Vec<Ty>, OutOfMemory>
    ensures { IfOk result (λ found. map number found.items ≡ types_of_positions (map domain_of positions.now)) }
{
    let mut found = Vec::new(alloc);
    for position in positions {
        found.push(position.ty())?;
    }
    Ok(found)
}

/// The types of the parameters among positions, in order.
pub fn parameter_types(alloc: Global, positions: &[Position]) -> Result<Vec<Ty>, OutOfMemory>
    ensures { IfOk result (λ found. map number found.items ≡ types_of_parameters (map domain_of positions.now)) }
{
    let mut found = Vec::new(alloc);
    for position in positions {
        if let Position::Typed(ty) = position {
            found.push(*ty)?;
        }
    }
    Ok(found)
}

/// The type of a field whose type is declared.
fn type_of(types: &Types, field: &Field) -> Ty
    requires { IsTrue (is_type types.now (field_of field.now)) }
    ensures { IsTypeOf types.now (field_of field.now) (number result) }
{
    named_type(types, &field.ty)
}
