//! Operators at work, on operands that are lent, or that move off a stack.

ghost use Rattle.std.specs.Prelude.{◌≡◌, ◌∷◌, [], true, false, map, IfOk, IsOk};
ghost use Rattle.ioa_value.specs.Plain.{plain};
ghost use Rattle.ioa_value.specs.Table.{Table};
ghost use Rattle.ioa_value.specs.Operators as spec;
ghost use Rattle.ioa_value.specs.Operators.{operate, operands_on, GoOff, GivesOn, Takes, answer_of, of_number, gives};
ghost use Rattle.ioa_value.specs.Operands.{operands_of};
ghost use Rattle.ioa_value.specs.declared.operator.Op.TheVariants as operators;

use crate::memory::OutOfMemory;
use crate::operands::{Operands, both, lent, one_number, one_truth, only, two_numbers};
use crate::operator::{Op, grows};
use crate::sequences::{append, at, head, init, items_of, last, place_of, tail, taken, without};
use crate::stack::{pop, pop_fields, pop_number, pop_sequence};
use crate::types::Types;
use crate::value::{Ty, Value, copies, same};
use ioa_arithmetic::{Fault, add, divide, modulo, multiply, negate, subtract};
use std::alloc::Global;

/// The operator's value, or its fault. It asks that the operands are the operator's.
///
/// An operator whose value is a number or a truth value takes no memory. Others work on copies of the operands.
pub fn apply(
    alloc: Global,
    types: &Types,
    op: Op,
    operands: &[Value],
) -> Result<Result<Value, Fault>, OutOfMemory>
    requires { Takes types.now op (map plain operands.now) }
    ensures value { IfOk result (λ r. answer_of r ≡ operate types.now op (map plain operands.now)) }
    ensures memory { spec.grows op ≡ false → IsOk result }
{
    if !grows(op) {
        return Ok(computed(op, lent(operands)));
    }
    let mut stack = copies(alloc, operands)?;
    moved(alloc, types, op, &mut stack)
}

/// The operator on the last values of a stack, which are its operands: they go, and its value stands in their place.
/// After a fault, or where memory is short, the stack is some stack or other.
///
/// Values move: no operator copies one.
pub fn apply_last(
    alloc: Global,
    types: &Types,
    op: Op,
    stack: &mut Vec<Value>,
) -> Result<Result<(), Fault>, OutOfMemory>
    requires { Takes types.now op (operands_on types.now op (map plain stack.old.items)) }
    ensures { IfOk result (λ r. GivesOn types.now op (map plain stack.old.items) (map plain stack.new.items) r) }
{
    match taken_off(alloc, types, op, stack)? {
        Ok(value) => {
            stack.push(value)?;
            Ok(Ok(()))
        }
        Err(fault) => Ok(Err(fault)),
    }
}

// The operator's value or fault, whose operands go off the stack.
fn taken_off(
    alloc: Global,
    types: &Types,
    op: Op,
    stack: &mut Vec<Value>,
) -> Result<Result<Value, Fault>, OutOfMemory>
    requires { Takes types.now op (operands_on types.now op (map plain stack.old.items)) }
    ensures { IfOk result (λ r. GoOff types.now op (map plain stack.old.items) (map plain stack.new.items) (answer_of r)) }
{
    if grows(op) {
        return moved(alloc, types, op, stack);
    }
    let below = stack.len() - op.arity(types);
    let outcome = computed(op, lent(&stack[below..]));
    stack.truncate(below);
    Ok(outcome)
}

/// The value or fault of an operator whose value takes no memory, over any types. It asks that the operands are the operator's.
pub fn computed(op: Op, operands: Operands<'_>) -> Result<Value, Fault>
    requires takes { (types : Table) × Takes types op (operands_of operands) }
    requires small { spec.grows op ≡ false }
    ensures { (types : Table) → answer_of result ≡ operate types op (operands_of operands.entry) }
{
    match op {
        Op::Neg => number(negate(one_number(operands))),
        Op::Add => {
            let (a, b) = two_numbers(operands);
            number(add(a, b))
        }
        Op::Sub => {
            let (a, b) = two_numbers(operands);
            number(subtract(a, b))
        }
        Op::Mul => {
            let (a, b) = two_numbers(operands);
            number(multiply(a, b))
        }
        Op::Div => {
            let (a, b) = two_numbers(operands);
            number(divide(a, b))
        }
        Op::Mod => {
            let (a, b) = two_numbers(operands);
            number(modulo(a, b))
        }
        Op::Lt => {
            let (a, b) = two_numbers(operands);
            Ok(Value::Truth(a < b))
        }
        Op::Le => {
            let (a, b) = two_numbers(operands);
            Ok(Value::Truth(a <= b))
        }
        Op::Gt => {
            let (a, b) = two_numbers(operands);
            Ok(Value::Truth(a > b))
        }
        Op::Ge => {
            let (a, b) = two_numbers(operands);
            Ok(Value::Truth(a >= b))
        }
        Op::Not => Ok(Value::Truth(!one_truth(operands))),
        Op::Eq => {
            let (a, b) = both(operands);
            Ok(Value::Truth(same(a, b)))
        }
        Op::Ne => {
            let (a, b) = both(operands);
            Ok(Value::Truth(!same(a, b)))
        }
        Op::Len => Ok(Value::Num(items_of(only(operands)).len() as i64)),
        Op::Member => {
            let (item, sequence) = both(operands);
            Ok(Value::Truth(place_of(item, items_of(sequence)).is_some()))
        }
        Op::Head
        | Op::Tail
        | Op::Last
        | Op::Init
        | Op::Append
        | Op::At
        | Op::Without
        | Op::Make(_)
        | Op::Field(_) => unreachable!(),
    }
}

// The value or fault of an operator that moves its operands, which go off the stack.
fn moved(
    alloc: Global,
    types: &Types,
    op: Op,
    stack: &mut Vec<Value>,
) -> Result<Result<Value, Fault>, OutOfMemory>
    requires takes { Takes types.now op (operands_on types.now op (map plain stack.old.items)) }
    requires large { spec.grows op ≡ true }
    ensures { IfOk result (λ r. GoOff types.now op (map plain stack.old.items) (map plain stack.new.items) (answer_of r)) }
{
    match op {
        Op::Head => Ok(head(pop_sequence(stack).1)),
        Op::Last => Ok(last(pop_sequence(stack).1)),
        Op::Tail => {
            let (ty, items) = pop_sequence(stack);
            Ok(tail(ty, items))
        }
        Op::Init => {
            let (ty, items) = pop_sequence(stack);
            Ok(init(ty, items))
        }
        Op::Append => {
            let item = pop(stack);
            let (ty, items) = pop_sequence(stack);
            append(types, ty, items, item)
        }
        Op::At => {
            let place = pop_number(stack);
            Ok(at(pop_sequence(stack).1, place))
        }
        Op::Without => {
            let item = pop(stack);
            let (ty, items) = pop_sequence(stack);
            Ok(Ok(without(ty, items, &item)))
        }
        Op::Make(ty) => {
            let below = stack.len() - op.arity(types);
            Ok(Ok(Value::Tuple(ty, stack.split_off(below)?)))
        }
        Op::Field(place) => match taken(pop_fields(stack), place as usize) {
            Some(value) => Ok(Ok(value)),
            None => unreachable!(),
        },
        Op::Neg
        | Op::Add
        | Op::Sub
        | Op::Mul
        | Op::Div
        | Op::Mod
        | Op::Lt
        | Op::Le
        | Op::Gt
        | Op::Ge
        | Op::Not
        | Op::Eq
        | Op::Ne
        | Op::Len
        | Op::Member => unreachable!(),
    }
}

fn number(outcome: Result<i64, Fault>) -> Result<Value, Fault>
    ensures { answer_of result ≡ of_number outcome }
{
    match outcome {
        Ok(n) => Ok(Value::Num(n)),
        Err(fault) => Err(fault),
    }
}

/// The field in this place of a tuple, which is lent. It asks that the tuple has one there.
pub fn field(tuple: &Value, place: u16) -> &Value
    requires { (types : Table) × Takes types (operators.Field place) (plain tuple.now ∷ []) }
    ensures { (types : Table) → gives (plain result.now) ≡ operate types (operators.Field place) (plain tuple.now ∷ []) }
{
    match tuple {
        Value::Tuple(_, fields) => &fields[place as usize],
        _ => unreachable!(),
    }
}
