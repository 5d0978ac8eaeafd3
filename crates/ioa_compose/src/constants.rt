//! What the table of types alone gives an expression, without variables and formals.

ghost use Rattle.std.specs.Prelude.{◌≡◌, Some, IsSome};
ghost use Rattle.ioa_value.specs.Plain.{plain};
ghost use Rattle.ioa_tree.specs.Types as spec;
ghost use Rattle.ioa_tree.specs.View.{name_of};

use ioa_tree::Name;
use ioa_value::{Types, Value};
use std::alloc::Global;

/// What a name of an enumeration stands for. It asks that some enumeration has the name.
pub fn constant(types: &Types, name: &Name) -> Value
    requires { IsSome (spec.constant types.now (name_of name.now)) }
    ensures { spec.constant types.now (name_of name.now) ≡ Some (plain result) }
{
    match types.constant(name.text.as_str()) {
        Some((ty, place)) => Value::Name(ty, place),
        None => unreachable!(),
    }
}

/// The empty sequence of the type of this name. It asks that the name is a sequence type's. An empty sequence takes no memory.
pub fn empty(alloc: Global, types: &Types, name: &Name) -> Value
    requires { IsSome (spec.empty_of types.now (name_of name.now)) }
    ensures { spec.empty_of types.now (name_of name.now) ≡ Some (plain result) }
{
    match types.named(name.text.as_str()) {
        Some(ty) => Value::Items(ty, Vec::new(alloc)),
        None => unreachable!(),
    }
}
