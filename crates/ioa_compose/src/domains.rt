//! Positions with the values of their constants.

ghost use Rattle.std.specs.Prelude.{◌≡◌, ◌≤◌, ◌^◌, [], pos, neg_ℤ, true, Some, map, IfOk, IsSome};
ghost use Rattle.std.specs.List.{list_all};
ghost use Rattle.ioa_value.specs.Plain.{plain};
ghost use Rattle.ioa_value.specs.Positions.{domain_of};
ghost use Rattle.ioa_value.specs.Table.{AreTypes, type_named};
ghost use Rattle.ioa_tree.specs.View.{automaton_of, entry_of, position_of, constant_of, name_of};
ghost use Rattle.ioa_tree.specs.Domains.{IsDomainOf, AreDomainsOf};
ghost use Rattle.ioa_tree.specs.Instances as instances;
ghost use Rattle.ioa_tree.specs.Instances.{Fit};
ghost use Rattle.ioa_tree.specs.WellFormed.{constant_fine, position_fine, formals};
ghost use Rattle.ioa_compose.specs.Bindings.{instance_with};
ghost use Rattle.ioa_compose.specs.Signatures.{domains_in, ArePositionsOf};

use crate::constants::constant;
use crate::evaluate::number;
use crate::scope::found;
use ioa_syntax::Position as Declared;
use ioa_tree::{Automaton, Constant, Entry, Name};
use ioa_value::{OutOfMemory, Position, Ty, Types, Value};
use std::alloc::Global;

/// The positions of each of these entries of an automaton whose formals have these values, in order.
pub(crate) fn all_positions(
    alloc: Global,
    types: &Types,
    automaton: &Automaton,
    arguments: &[Value],
    entries: &[Entry],
) -> Result<Vec<Vec<Position>>, OutOfMemory>
    requires table { AreTypes types.now }
    requires fit { Fit types.now (automaton_of automaton.now).formals (map plain arguments.now) }
    requires fine { list_all (λ e. list_all (position_fine types.now (formals types.now types.now [] (automaton_of automaton.now))) e.positions) (map entry_of entries.now) ≡ true }
    ensures { IfOk result (λ pss. ArePositionsOf (instance_with types.now (automaton_of automaton.now) (map plain arguments.now)) (map entry_of entries.now) (map domains_in pss.items)) }
{
    let mut all = Vec::with_capacity(alloc, entries.len())?;
    for entry in entries {
        all.push(positions(alloc, types, automaton, arguments, entry)?)?;
    }
    Ok(all)
}

/// The positions of an entry of an automaton whose formals have these values: each constant with its value.
fn positions(
    alloc: Global,
    types: &Types,
    automaton: &Automaton,
    arguments: &[Value],
    entry: &Entry,
) -> Result<Vec<Position>, OutOfMemory>
    requires table { AreTypes types.now }
    requires fit { Fit types.now (automaton_of automaton.now).formals (map plain arguments.now) }
    requires fine { list_all (position_fine types.now (formals types.now types.now [] (automaton_of automaton.now))) (entry_of entry.now).positions ≡ true }
    ensures { IfOk result (λ ps. AreDomainsOf (instance_with types.now (automaton_of automaton.now) (map plain arguments.now)) (entry_of entry.now).positions (map domain_of ps.items)) }
{
    let mut positions = Vec::with_capacity(alloc, entry.positions.len())?;
    for position in &entry.positions {
        positions.push(known(alloc, types, automaton, arguments, position)?)?;
    }
    Ok(positions)
}

/// The position with the value of its constant.
fn known(
    alloc: Global,
    types: &Types,
    automaton: &Automaton,
    arguments: &[Value],
    position: &Declared,
) -> Result<Position, OutOfMemory>
    requires table { AreTypes types.now }
    requires fit { Fit types.now (automaton_of automaton.now).formals (map plain arguments.now) }
    requires fine { position_fine types.now (formals types.now types.now [] (automaton_of automaton.now)) (position_of position.now) ≡ true }
    ensures { IfOk result (λ p. IsDomainOf (instance_with types.now (automaton_of automaton.now) (map plain arguments.now)) (position_of position.now) (domain_of p)) }
{
    match position {
        Declared::Typed(field) => Ok(Position::Typed(type_of(types, &field.ty))),
        Declared::Constant(constant) => {
            let value = constant_value(alloc, types, automaton, arguments, constant)?;
            Ok(Position::Constant(value))
        }
    }
}

/// The type of this name, which is known.
fn type_of(types: &Types, name: &Name) -> Ty
    requires { IsSome (type_named types.now (name_of name.now)) }
    ensures { type_named types.now (name_of name.now) ≡ Some result.0 }
{
    match types.named(name.text.as_str()) {
        Some(ty) => ty,
        None => unreachable!(),
    }
}

/// What a constant stands for: its number or truth value, and a name for its formal's value or for an enumeration's.
fn constant_value(
    alloc: Global,
    types: &Types,
    automaton: &Automaton,
    arguments: &[Value],
    written: &Constant,
) -> Result<Value, OutOfMemory>
    requires table { AreTypes types.now }
    requires fit { Fit types.now (automaton_of automaton.now).formals (map plain arguments.now) }
    requires fine { constant_fine types.now (formals types.now types.now [] (automaton_of automaton.now)) (constant_of written.now) ≡ true }
    ensures { IfOk result (λ v. instances.constant_value (instance_with types.now (automaton_of automaton.now) (map plain arguments.now)) (constant_of written.now) ≡ Some (plain v)) }
{
    match written {
        Constant::Number(n, _) => Ok(Value::Num(number(*n))),
        Constant::Negative(n, _) => Ok(Value::Num(negated(*n))),
        Constant::Truth(b, _) => Ok(Value::Truth(*b)),
        Constant::Name(name) => match found(&automaton.formals, arguments, name.text.as_str()) {
            Some(value) => Ok(value.try_copy(alloc)?),
            None => Ok(constant(types, name)),
        },
    }
}

/// The negative of a number, where it fits 64 bits with a sign.
fn negated(n: u64) -> i64
    requires { n ≤ 2 ^ 63 }
    ensures { result ≡ neg_ℤ (pos n) }
{
    if n == 0 { 0 } else { -(number(n - 1)) - 1 }
}
