//! Expressions that are evaluated as trees: arguments, start expressions and invariants.

ghost use Rattle.std.specs.Prelude.{◌≡◌, ◌<◌, ◌^◌, ◌∷◌, [], ℕ, pos, true, Some, map, IfOk, IfSome, IfNone};
ghost use Rattle.std.specs.List.{list_all};
ghost use Rattle.ioa_value.specs.Plain.{plain, truth};
ghost use Rattle.ioa_value.specs.Operators.{Answer, answer_of, gives, operate, Takes};
ghost use Rattle.ioa_value.specs.Table.{Table, AreTypes, field_place};
ghost use Rattle.ioa_value.specs.Typing.{own};
ghost use Rattle.ioa_tree.specs.View.{expr_of, name_of};
ghost use Rattle.ioa_tree.specs.Meaning as meaning;
ghost use Rattle.ioa_tree.specs.Meaning.{combined, val};
ghost use Rattle.ioa_tree.specs.Instances.{all_values};
ghost use Rattle.ioa_tree.specs.Answers.{Suits};
ghost use Rattle.ioa_tree.specs.WellFormed.{type_of};
ghost use Rattle.ioa_compose.specs.Bindings.{typed, start_of, values_in};
ghost use Rattle.ioa_compose.specs.Scopes.{context, environment};
ghost use Rattle.ioa_compose.specs.Operands.{Asks, AreOperands, AreFields, HasField};
ghost use Rattle.ioa_compose.specs.Givens.{given, answer_in};

use crate::constants::{constant, empty};
use crate::given::{Given, owned};
use crate::scope::Scope;
use ioa_tree::{Expression, Infix, Name};
use ioa_value::{
    Fault, Op, Operands, OutOfMemory, Types, Value, apply_last, computed, field, grows,
};
use std::alloc::Global;

/// The value of a well typed expression, or its fault.
pub(crate) fn value_of(
    alloc: Global,
    scope: &Scope<'_>,
    expression: &Expression,
) -> Result<Result<Value, Fault>, OutOfMemory>
    requires types { AreTypes scope.now.types.now }
    requires suits { Suits scope.now.types.now (context scope.now) (environment scope.now) }
    requires typed { (ty : ℕ) × (type_of scope.now.types.now scope.now.types.now (context scope.now) (expr_of expression.now) ≡ Some ty) }
    ensures { IfOk result (λ r. answer_of r ≡ val scope.now.types.now (expr_of expression.now) (environment scope.now)) }
{
    match evaluate(alloc, scope, expression)? {
        Ok(value) => Ok(Ok(value.into_value(alloc)?)),
        Err(fault) => Ok(Err(fault)),
    }
}

/// What a well typed expression gives, or its fault. A name that is neither a variable's nor a formal's is an enumeration's.
///
/// What names stand for is lent. It is copied where an operator takes its operands along.
#[cycle(evaluate)]
pub(crate) fn evaluate<'a>(
    alloc: Global,
    scope: &Scope<'a>,
    expression: &Expression,
) -> Result<Result<Given<'a>, Fault>, OutOfMemory>
    requires types { AreTypes scope.now.types.now }
    requires suits { Suits scope.now.types.now (context scope.now) (environment scope.now) }
    requires typed { (ty : ℕ) × (type_of scope.now.types.now scope.now.types.now (context scope.now) (expr_of expression.now) ≡ Some ty) }
    ensures { IfOk result (λ r. answer_in r ≡ val scope.now.types.now (expr_of expression.now) (environment scope.now)) }
{
    let types = scope.types;
    match expression {
        Expression::Number(n, _) => Ok(Ok(Given::Own(Value::Num(number(*n))))),
        Expression::Truth(b, _) => Ok(Ok(Given::Own(Value::Truth(*b)))),
        Expression::Name(name) => match scope.value(name.text.as_str()) {
            Some(value) => Ok(Ok(Given::Lent(value))),
            None => Ok(Ok(Given::Own(constant(types, name)))),
        },
        Expression::Empty(name, _) => Ok(Ok(Given::Own(empty(alloc, types, name)))),
        Expression::Parentheses(inner, _) => evaluate(alloc, scope, inner),
        Expression::Prefix(operator, operand, _) => {
            match evaluate(alloc, scope, operand)? {
                Ok(value) => of_one(alloc, types, *operator, value),
                Err(fault) => Ok(Err(fault)),
            }
        }
        Expression::Binary(left, operator, right, _) => {
            let first = match evaluate(alloc, scope, left)? {
                Ok(value) => value,
                Err(fault) => return Ok(Err(fault)),
            };
            if let Some(truth) = decided(*operator, first.value()) {
                return Ok(Ok(Given::Own(Value::Truth(truth))));
            }
            let second = match evaluate(alloc, scope, right)? {
                Ok(value) => value,
                Err(fault) => return Ok(Err(fault)),
            };
            joined(alloc, types, *operator, first, second)
        }
        Expression::Make(name, parts) => {
            match evaluate_all(alloc, scope, parts)? {
                Ok(parts) => made(alloc, types, name, parts),
                Err(fault) => Ok(Err(fault)),
            }
        }
        Expression::Select(tuple, name, _) => {
            match evaluate(alloc, scope, tuple)? {
                Ok(tuple) => selected(alloc, types, name, tuple),
                Err(fault) => Ok(Err(fault)),
            }
        }
    }
}

/// The values of well typed expressions in order, or the first fault.
#[cycle(evaluate)]
pub(crate) fn evaluate_all(
    alloc: Global,
    scope: &Scope<'_>,
    expressions: &[Expression],
) -> Result<Result<Vec<Value>, Fault>, OutOfMemory>
    requires types { AreTypes scope.now.types.now }
    requires suits { Suits scope.now.types.now (context scope.now) (environment scope.now) }
    requires typed { list_all (typed scope.now.types.now (context scope.now)) (map expr_of expressions.now) ≡ true }
    ensures { IfOk result (λ r. values_in r ≡ all_values (start_of scope.now.types.now (environment scope.now)) (map expr_of expressions.now)) }
{
    let mut found = Vec::new(alloc);
    for expression in expressions {
        match evaluate(alloc, scope, expression)? {
            Ok(value) => {
                let own = value.into_value(alloc)?;
                found.push(own)?;
            }
            Err(fault) => return Ok(Err(fault)),
        }
    }
    Ok(Ok(found))
}

/// What the first operand decides, where the second is not asked for.
fn decided(operator: Infix, first: &Value) -> Option<bool>
    ensures known { IfSome result (λ b. (types : Table) (second : Answer) → combined types operator (plain first.now) second ≡ gives (truth b)) }
    ensures asked { IfNone result (Asks operator (plain first.now)) }
{
    match (operator, first) {
        (Infix::And, Value::Truth(false)) => Some(false),
        (Infix::Or, Value::Truth(true)) => Some(true),
        (Infix::Implies, Value::Truth(false)) => Some(true),
        _ => None,
    }
}

/// What two operands give, or their fault, where the second is asked for.
fn joined<'a>(
    alloc: Global,
    types: &Types,
    operator: Infix,
    first: Given<'a>,
    second: Given<'a>,
) -> Result<Result<Given<'a>, Fault>, OutOfMemory>
    requires types { AreTypes types.now }
    requires operands { AreOperands types.now operator (given first) (given second) }
    requires asked { Asks operator (given first) }
    ensures { IfOk result (λ r. answer_in r ≡ combined types.now operator (given first.entry) (gives (given second.entry))) }
{
    match operator {
        Infix::Operator(operator) => of_two(alloc, types, operator, first, second),
        Infix::And | Infix::Or | Infix::Implies => Ok(Ok(second)),
    }
}

/// What an operator gives of one operand, or its fault.
fn of_one<'a>(
    alloc: Global,
    types: &Types,
    operator: Op,
    operand: Given<'a>,
) -> Result<Result<Given<'a>, Fault>, OutOfMemory>
    requires { Takes types.now operator (given operand ∷ []) }
    ensures { IfOk result (λ r. answer_in r ≡ operate types.now operator (given operand.entry ∷ [])) }
{
    if !grows(operator) {
        let operands = Operands::One(operand.value());
        return Ok(owned(computed(operator, operands)));
    }
    let operand = operand.into_value(alloc)?;
    applied(alloc, types, operator, Vec::from_array(alloc, [operand])?)
}

/// What an operator gives of two operands, or its fault.
fn of_two<'a>(
    alloc: Global,
    types: &Types,
    operator: Op,
    first: Given<'a>,
    second: Given<'a>,
) -> Result<Result<Given<'a>, Fault>, OutOfMemory>
    requires { Takes types.now operator (given first ∷ given second ∷ []) }
    ensures { IfOk result (λ r. answer_in r ≡ operate types.now operator (given first.entry ∷ given second.entry ∷ [])) }
{
    if !grows(operator) {
        let operands = Operands::Two(first.value(), second.value());
        return Ok(owned(computed(operator, operands)));
    }
    let first = first.into_value(alloc)?;
    let second = second.into_value(alloc)?;
    applied(
        alloc,
        types,
        operator,
        Vec::from_array(alloc, [first, second])?,
    )
}

/// The tuple of the type of this name, of these fields.
fn made<'a>(
    alloc: Global,
    types: &Types,
    name: &Name,
    fields: Vec<Value>,
) -> Result<Result<Given<'a>, Fault>, OutOfMemory>
    requires { AreFields types.now (name_of name.now) (map plain fields.items) }
    ensures { IfOk result (λ r. answer_in r ≡ meaning.made types.now (name_of name.now) (map plain fields.items)) }
{
    match types.named(name.text.as_str()) {
        Some(ty) => applied(alloc, types, Op::Make(ty), fields),
        None => unreachable!(),
    }
}

/// The field of this name of a tuple.
fn selected<'a>(
    alloc: Global,
    types: &Types,
    name: &Name,
    tuple: Given<'a>,
) -> Result<Result<Given<'a>, Fault>, OutOfMemory>
    requires { HasField types.now (name_of name.now) (given tuple) }
    ensures { IfOk result (λ r. answer_in r ≡ meaning.selected types.now (name_of name.now) (given tuple.entry)) }
{
    let place = place_in(types, tuple.value(), name);
    if let Given::Lent(tuple) = &tuple {
        return Ok(Ok(Given::Lent(field(*tuple, place))));
    }
    let tuple = tuple.into_value(alloc)?;
    let operands = Vec::from_array(alloc, [tuple])?;
    applied(alloc, types, Op::Field(place), operands)
}

/// The place of the field of this name in a tuple.
fn place_in(types: &Types, tuple: &Value, name: &Name) -> u16
    requires { HasField types.now (name_of name.now) (plain tuple.now) }
    ensures { field_place types.now (own (plain tuple.now)) (name_of name.now) ≡ Some result }
{
    let Value::Tuple(ty, _) = tuple else {
        unreachable!()
    };
    match types.field(*ty, name.text.as_str()) {
        Some(place) => place,
        None => unreachable!(),
    }
}

/// The operator's value or fault. The operands move into it.
fn applied<'a>(
    alloc: Global,
    types: &Types,
    operator: Op,
    operands: Vec<Value>,
) -> Result<Result<Given<'a>, Fault>, OutOfMemory>
    requires { Takes types.now operator (map plain operands.items) }
    ensures { IfOk result (λ r. answer_in r ≡ operate types.now operator (map plain operands.items)) }
{
    let mut stack = operands;
    match apply_last(alloc, types, operator, &mut stack)? {
        Ok(()) => match stack.pop() {
            Some(value) => Ok(Ok(Given::Own(value))),
            None => unreachable!(),
        },
        Err(fault) => Ok(Err(fault)),
    }
}

/// A number that fits 64 bits with a sign.
pub(crate) fn number(n: u64) -> i64
    requires { n < 2 ^ 63 }
    ensures { result ≡ pos n }
{
    n as i64
}
