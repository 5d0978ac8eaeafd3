//! Values of expressions, where names stand for values that effects change.

ghost use Rattle.std.specs.Prelude.{◌≡◌, ◌<◌, ◌^◌, ◌∷◌, [], pos, map, IfOk, IfSome, IfNone, Some};
ghost use Rattle.ioa_value.specs.Operators.{Answer, Takes, answer_of, gives, operate};
ghost use Rattle.ioa_value.specs.Plain.{plain, truth};
ghost use Rattle.ioa_value.specs.Table.{AreTypes, Table, field_place};
ghost use Rattle.ioa_value.specs.Typing.{own};
ghost use Rattle.ioa_tree.specs.Instances.{all_values};
ghost use Rattle.ioa_tree.specs.Meaning as meaning;
ghost use Rattle.ioa_tree.specs.Meaning.{combined, val};
ghost use Rattle.ioa_tree.specs.View.{expr_of, name_of};
ghost use Rattle.ioa_compose.specs.Bindings.{start_of, values_in};
ghost use Rattle.ioa_compose.specs.Operands.{AreFields, AreOperands, Asks, HasField};
ghost use Rattle.ioa_coverage.specs.Known.{AreTypedIn, IsTypedIn, known};

use crate::scope::{Binding, value_of};
use ioa_compose::{constant, empty};
use ioa_tree::{Expression, Infix, Name};
use ioa_value::{Fault, Op, OutOfMemory, Types, Value, apply_last};
use std::alloc::Global;

/// The value of a well typed expression, or its fault. A name that stands for nothing is an enumeration's.
#[cycle(evaluate)]
pub(crate) fn evaluate(
    alloc: Global,
    types: &Types,
    scope: &[Binding<'_>],
    expression: &Expression,
) -> Result<Result<Value, Fault>, OutOfMemory>
    requires types { AreTypes types.now }
    requires typed { IsTypedIn types.now (known scope.now) (expr_of expression.now) }
    ensures { IfOk result (λ r. answer_of r ≡ val types.now (expr_of expression.now) (known scope.now)) }
{
    match expression {
        Expression::Number(n, _) => Ok(Ok(Value::Num(number(*n)))),
        Expression::Truth(b, _) => Ok(Ok(Value::Truth(*b))),
        Expression::Name(name) => match value_of(scope, name.text.as_str()) {
            Some(value) => Ok(Ok(value.try_copy(alloc)?)),
            None => Ok(Ok(constant(types, name))),
        },
        Expression::Empty(name, _) => Ok(Ok(empty(alloc, types, name))),
        Expression::Parentheses(inner, _) => evaluate(alloc, types, scope, inner),
        Expression::Prefix(operator, operand, _) => {
            match evaluate(alloc, types, scope, operand)? {
                Ok(value) => of_one(alloc, types, *operator, value),
                Err(fault) => Ok(Err(fault)),
            }
        }
        Expression::Binary(left, operator, right, _) => {
            let first = match evaluate(alloc, types, scope, left)? {
                Ok(value) => value,
                Err(fault) => return Ok(Err(fault)),
            };
            if let Some(truth) = decided(*operator, &first) {
                return Ok(Ok(Value::Truth(truth)));
            }
            let second = match evaluate(alloc, types, scope, right)? {
                Ok(value) => value,
                Err(fault) => return Ok(Err(fault)),
            };
            joined(alloc, types, *operator, first, second)
        }
        Expression::Make(name, parts) => match evaluate_all(alloc, types, scope, parts)? {
            Ok(parts) => made(alloc, types, name, parts),
            Err(fault) => Ok(Err(fault)),
        },
        Expression::Select(tuple, name, _) => match evaluate(alloc, types, scope, tuple)? {
            Ok(tuple) => selected(alloc, types, name, tuple),
            Err(fault) => Ok(Err(fault)),
        },
    }
}

/// The values of well typed expressions in order, or the first fault.
#[cycle(evaluate)]
fn evaluate_all(
    alloc: Global,
    types: &Types,
    scope: &[Binding<'_>],
    expressions: &[Expression],
) -> Result<Result<Vec<Value>, Fault>, OutOfMemory>
    requires types { AreTypes types.now }
    requires typed { AreTypedIn types.now (known scope.now) (map expr_of expressions.now) }
    ensures { IfOk result (λ r. values_in r ≡ all_values (start_of types.now (known scope.now)) (map expr_of expressions.now)) }
{
    let mut found = Vec::new(alloc);
    for expression in expressions {
        match evaluate(alloc, types, scope, expression)? {
            Ok(value) => found.push(value)?,
            Err(fault) => return Ok(Err(fault)),
        }
    }
    Ok(Ok(found))
}

/// What the first operand decides, where the second is not asked for.
fn decided(operator: Infix, first: &Value) -> Option<bool>
    ensures known { IfSome result (λ b. (types : Table) (second : Answer) → combined types operator (plain first.now) second ≡ gives (truth b)) }
    ensures asked { IfNone result (Asks operator (plain first.now)) }
{
    match (operator, first) {
        (Infix::And, Value::Truth(false)) => Some(false),
        (Infix::Or, Value::Truth(true)) => Some(true),
        (Infix::Implies, Value::Truth(false)) => Some(true),
        _ => None,
    }
}

/// What two operands give, or their fault, where the second is asked for.
fn joined(
    alloc: Global,
    types: &Types,
    operator: Infix,
    first: Value,
    second: Value,
) -> Result<Result<Value, Fault>, OutOfMemory>
    requires types { AreTypes types.now }
    requires operands { AreOperands types.now operator (plain first) (plain second) }
    requires asked { Asks operator (plain first) }
    ensures { IfOk result (λ r. answer_of r ≡ combined types.now operator (plain first) (gives (plain second))) }
{
    match operator {
        Infix::Operator(operator) => of_two(alloc, types, operator, first, second),
        Infix::And | Infix::Or | Infix::Implies => Ok(Ok(second)),
    }
}

/// What an operator gives of one operand, or its fault.
fn of_one(
    alloc: Global,
    types: &Types,
    operator: Op,
    operand: Value,
) -> Result<Result<Value, Fault>, OutOfMemory>
    requires { Takes types.now operator (plain operand ∷ []) }
    ensures { IfOk result (λ r. answer_of r ≡ operate types.now operator (plain operand ∷ [])) }
{
    applied(alloc, types, operator, Vec::from_array(alloc, [operand])?)
}

/// What an operator gives of two operands, or its fault.
fn of_two(
    alloc: Global,
    types: &Types,
    operator: Op,
    first: Value,
    second: Value,
) -> Result<Result<Value, Fault>, OutOfMemory>
    requires { Takes types.now operator (plain first ∷ plain second ∷ []) }
    ensures { IfOk result (λ r. answer_of r ≡ operate types.now operator (plain first ∷ plain second ∷ [])) }
{
    applied(
        alloc,
        types,
        operator,
        Vec::from_array(alloc, [first, second])?,
    )
}

/// The tuple of the type of this name, of these fields.
fn made(
    alloc: Global,
    types: &Types,
    name: &Name,
    fields: Vec<Value>,
) -> Result<Result<Value, Fault>, OutOfMemory>
    requires { AreFields types.now (name_of name.now) (map plain fields.items) }
    ensures { IfOk result (λ r. answer_of r ≡ meaning.made types.now (name_of name.now) (map plain fields.items)) }
{
    match types.named(name.text.as_str()) {
        Some(ty) => applied(alloc, types, Op::Make(ty), fields),
        None => unreachable!(),
    }
}

/// The field of this name of a tuple.
fn selected(
    alloc: Global,
    types: &Types,
    name: &Name,
    tuple: Value,
) -> Result<Result<Value, Fault>, OutOfMemory>
    requires { HasField types.now (name_of name.now) (plain tuple) }
    ensures { IfOk result (λ r. answer_of r ≡ meaning.selected types.now (name_of name.now) (plain tuple)) }
{
    let place = place_in(types, &tuple, name);
    let operands = Vec::from_array(alloc, [tuple])?;
    applied(alloc, types, Op::Field(place), operands)
}

/// The place of the field of this name in a tuple.
fn place_in(types: &Types, tuple: &Value, name: &Name) -> u16
    requires { HasField types.now (name_of name.now) (plain tuple.now) }
    ensures { field_place types.now (own (plain tuple.now)) (name_of name.now) ≡ Some result }
{
    let Value::Tuple(ty, _) = tuple else {
        unreachable!()
    };
    match types.field(*ty, name.text.as_str()) {
        Some(place) => place,
        None => unreachable!(),
    }
}

/// The operator's value or fault. The operands move into it.
fn applied(
    alloc: Global,
    types: &Types,
    operator: Op,
    operands: Vec<Value>,
) -> Result<Result<Value, Fault>, OutOfMemory>
    requires { Takes types.now operator (map plain operands.items) }
    ensures { IfOk result (λ r. answer_of r ≡ operate types.now operator (map plain operands.items)) }
{
    let mut stack = operands;
    match apply_last(alloc, types, operator, &mut stack)? {
        Ok(()) => match stack.pop() {
            Some(value) => Ok(Ok(value)),
            None => unreachable!(),
        },
        Err(fault) => Ok(Err(fault)),
    }
}

/// A number that fits 64 bits with a sign.
fn number(n: u64) -> i64
    requires { n < 2 ^ 63 }
    ensures { result ≡ pos n }
{
    n as i64
}
