//! Operands that are lent.

ghost use Rattle.std.specs.Prelude.{◌≡◌, ◌∷◌, ◌⊎◌, [], ℤ, Bool, map, length};
ghost use Rattle.ioa_value.specs.Plain.{plain, Val, num, truth};
ghost use Rattle.ioa_value.specs.Operands.{operands_of};

use crate::value::Value;

/// Operands that are lent, of an operator that takes one or two.
#[derive(Clone, Copy)]
pub enum Operands<'a> {
    One(&'a Value),
    Two(&'a Value, &'a Value),
}

/// One or two operands, as they are lent.
pub(crate) fn lent(operands: &[Value]) -> Operands<'_>
    requires { (length operands.now ≡ 1) ⊎ (length operands.now ≡ 2) }
    ensures { operands_of result ≡ map plain operands.now }
{
    match operands {
        [operand] => Operands::One(operand),
        [first, second] => Operands::Two(first, second),
        _ => unreachable!(),
    }
}

/// The operand, which is one.
pub(crate) fn only(operands: Operands<'_>) -> &Value
    requires { (x : Val) × (operands_of operands ≡ x ∷ []) }
    ensures { operands_of operands.entry ≡ plain result.now ∷ [] }
{
    match operands {
        Operands::One(operand) => operand,
        Operands::Two(_, _) => unreachable!(),
    }
}

/// The operands, which are two.
pub(crate) fn both(operands: Operands<'_>) -> (&Value, &Value)
    requires { (x : Val) × (y : Val) × (operands_of operands ≡ x ∷ y ∷ []) }
    ensures { operands_of operands.entry ≡ plain result.0.now ∷ plain result.1.now ∷ [] }
{
    match operands {
        Operands::One(_) => unreachable!(),
        Operands::Two(first, second) => (first, second),
    }
}

pub(crate) fn one_number(operands: Operands<'_>) -> i64
    requires { (x : ℤ) × (operands_of operands ≡ num x ∷ []) }
    ensures { operands_of operands.entry ≡ num result ∷ [] }
{
    number_of(only(operands))
}

pub(crate) fn two_numbers(operands: Operands<'_>) -> (i64, i64)
    requires { (x : ℤ) × (y : ℤ) × (operands_of operands ≡ num x ∷ num y ∷ []) }
    ensures { operands_of operands.entry ≡ num result.0 ∷ num result.1 ∷ [] }
{
    let (first, second) = both(operands);
    (number_of(first), number_of(second))
}

pub(crate) fn one_truth(operands: Operands<'_>) -> bool
    requires { (b : Bool) × (operands_of operands ≡ truth b ∷ []) }
    ensures { operands_of operands.entry ≡ truth result ∷ [] }
{
    match only(operands) {
        Value::Truth(b) => *b,
        _ => unreachable!(),
    }
}

fn number_of(value: &Value) -> i64
    requires { (x : ℤ) × (plain value.now ≡ num x) }
    ensures { plain value.now ≡ num result }
{
    match value {
        Value::Num(n) => *n,
        _ => unreachable!(),
    }
}
