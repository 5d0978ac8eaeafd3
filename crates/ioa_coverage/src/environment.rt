//! What names stand for where an effect begins: the variables, the entry's parameters and the formals.

ghost use Rattle.std.specs.Prelude.{◌≡◌, IfOk, OnOk, map};
ghost use Rattle.ioa_value.specs.Plain.{plain};
ghost use Rattle.ioa_tree.specs.Instances.{field_names, parameter_values, position_fields, state_of};
ghost use Rattle.ioa_tree.specs.Instances as instances;
ghost use Rattle.ioa_tree.specs.Meaning.{over, values_of};
ghost use Rattle.ioa_tree.specs.View.{automaton_of, entry_of, field_of, position_of, variable_of};
ghost use Rattle.ioa_coverage.specs.Effects.{instance_of};
ghost use Rattle.ioa_coverage.specs.Known.{known};

use crate::scope::{Binding, bind};
use ioa_tree::{Automaton, Entry, Field, Position, Variable};
use ioa_value::{OutOfMemory, Types, Value};
use std::alloc::Global;

/// What names stand for in an effect of this entry, by an action with these values, where the variables have those.
pub(crate) fn environment<'a>(
    alloc: Global,
    types: &Types,
    automaton: &'a Automaton,
    arguments: &[Value],
    entry: &'a Entry,
    given: &[Value],
    values: &[Value],
) -> Result<Vec<Binding<'a>>, OutOfMemory>
    ensures { IfOk result (λ scope. known scope.items
        ≡ instances.environment (instance_of types.now automaton.now arguments.now) (entry_of entry.now) (map plain given.now) (state_of (automaton_of automaton.now) (map plain values.now))) }
{
    let mut scope = Vec::new(alloc);
    bind_variables(alloc, &mut scope, &automaton.variables, values)?;
    bind_parameters(alloc, &mut scope, &entry.positions, given)?;
    bind_formals(alloc, &mut scope, &automaton.formals, arguments)?;
    Ok(scope)
}

/// Lets variables stand for these values, in front of what their names stand for. There are few, so the recursion is short.
fn bind_variables<'a>(
    alloc: Global,
    scope: &mut Vec<Binding<'a>>,
    variables: &'a [Variable],
    values: &[Value],
) -> Result<(), OutOfMemory>
    ensures { OnOk result (known scope.new.items ≡ over (values_of (map (λ v. v.field.name) (map variable_of variables.now)) (map plain values.now)) (known scope.old.items)) }
{
    match variables {
        [] => Ok(()),
        [variable, variables @ ..] => match values {
            [] => Ok(()),
            [value, values @ ..] => {
                bind_variables(alloc, scope, variables, values)?;
                bind(scope, &variable.field.name, value.try_copy(alloc)?)
            }
        },
    }
}

/// Lets parameters stand for their values among these, one for each position. There are few, so the recursion is short.
fn bind_parameters<'a>(
    alloc: Global,
    scope: &mut Vec<Binding<'a>>,
    positions: &'a [Position],
    values: &[Value],
) -> Result<(), OutOfMemory>
    ensures { OnOk result (known scope.new.items
        ≡ over (values_of (field_names (position_fields (map position_of positions.now))) (parameter_values (map position_of positions.now) (map plain values.now))) (known scope.old.items)) }
{
    match positions {
        [] => Ok(()),
        [position, positions @ ..] => match values {
            [] => Ok(()),
            [value, values @ ..] => {
                bind_parameters(alloc, scope, positions, values)?;
                match position {
                    Position::Typed(field) => bind(scope, &field.name, value.try_copy(alloc)?),
                    Position::Constant(_) => Ok(()),
                }
            }
        },
    }
}

/// Lets formals stand for these values. There are few, so the recursion is short.
fn bind_formals<'a>(
    alloc: Global,
    scope: &mut Vec<Binding<'a>>,
    formals: &'a [Field],
    values: &[Value],
) -> Result<(), OutOfMemory>
    ensures { OnOk result (known scope.new.items ≡ over (values_of (field_names (map field_of formals.now)) (map plain values.now)) (known scope.old.items)) }
{
    match formals {
        [] => Ok(()),
        [formal, formals @ ..] => match values {
            [] => Ok(()),
            [value, values @ ..] => {
                bind_formals(alloc, scope, formals, values)?;
                bind(scope, &formal.name, value.try_copy(alloc)?)
            }
        },
    }
}
