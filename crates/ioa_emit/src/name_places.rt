//! Names become places: code knows variables, parameters, fields and types by their numbers.

ghost use Rattle.std.specs.Prelude.{◌≡◌, if◌then◌else◌, Some, None, IsSome, map};
ghost use Rattle.std.specs.Str.{bytes_eq};
ghost use Rattle.ioa_tree.specs.View.{name_of, field_of, position_of, variable_of};
ghost use Rattle.ioa_value.specs.Plain.{number};
ghost use Rattle.ioa_value.specs.Table.{place_from, type_named};
ghost use Rattle.ioa_tree.specs.Instances.{field_names};
ghost use Rattle.ioa_rules.specs.Loops.{loop_of, loops_of};
ghost use Rattle.ioa_emit.specs.Scopes.{parameter_from, item_place as place_of_item};

use ioa_rules::{Loop, Loops};
use ioa_tree::{Field, Name, Position, Variable};
use ioa_value::{Ty, Types};

/// The place of the first field of this name.
pub(crate) fn field_place(fields: &[Field], name: &Name) -> Option<usize>
    ensures { result ≡ place_from 0 (field_names (map field_of fields.now)) (name_of name.now) }
{
    fields
        .iter()
        .position(|field| field.name.is(name.text.as_str()))
}

/// The place of the first variable of this name.
pub(crate) fn variable_place(variables: &[Variable], name: &Name) -> Option<usize>
    ensures { result ≡ place_from 0 (map (λ v. v.field.name) (map variable_of variables.now)) (name_of name.now) }
{
    variables
        .iter()
        .position(|variable| variable.field.name.is(name.text.as_str()))
}

/// The place of the parameter of this name among all positions; a constant has no name.
pub(crate) fn parameter_place(positions: &[Position], name: &Name) -> Option<usize>
    ensures { result ≡ parameter_from 0 (map position_of positions.now) (name_of name.now) }
{
    positions.iter().position(|position| match position {
        Position::Typed(field) => field.name.is(name.text.as_str()),
        Position::Constant(_) => false,
    })
}

/// The place on the stack of the item of the innermost loop of this name, where each loop has two, its sequence and its item.
pub(crate) fn item_place(loops: &Loops<'_>, name: &Name) -> Option<usize>
    ensures { result ≡ place_of_item (loops_of loops.now) (name_of name.now) }
{
    match loops {
        Loops::None => None,
        Loops::One(first) => place_under(first, name, 1),
        Loops::Two(first, second) => place_under(first, name, 3).or(place_under(second, name, 1)),
        Loops::Three(first, second, third) => place_under(first, name, 5)
            .or(place_under(second, name, 3))
            .or(place_under(third, name, 1)),
    }
}

/// The place, where the loop has this name.
fn place_under(around: &Loop<'_>, name: &Name, place: usize) -> Option<usize>
    ensures { result ≡ if bytes_eq (loop_of around.now).0 (name_of name.now) then Some place else None }
{
    if around.name.is(name.text.as_str()) {
        Some(place)
    } else {
        None
    }
}

/// The type of this name, which is declared.
pub fn named_type(types: &Types, name: &Name) -> Ty
    requires { IsSome (type_named types.now (name_of name.now)) }
    ensures { type_named types.now (name_of name.now) ≡ Some (number result) }
{
    match types.named(name.text.as_str()) {
        Some(ty) => ty,
        None => unreachable!(),
    }
}
