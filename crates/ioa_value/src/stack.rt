//! Operands off the top of a stack.

ghost use Rattle.std.specs.Prelude.{◌≡◌, ◌<◌, ◌++◌, ◌∷◌, [], ℕ, ℤ, List, map, length};
ghost use Rattle.ioa_value.specs.Plain.{Val, Vals, plain, plain_all, num, items as items_of_type, tuple};

use crate::value::{Ty, Value};

/// The value on top, which is there.
pub(crate) fn pop(stack: &mut Vec<Value>) -> Value
    requires { 0 < length stack.old.items }
    ensures { stack.old.items ≡ stack.new.items ++ result ∷ [] }
{
    match stack.pop() {
        Some(value) => value,
        None => unreachable!(),
    }
}

/// The number on top, which is there.
pub(crate) fn pop_number(stack: &mut Vec<Value>) -> i64
    requires { (below : List Val) × (z : ℤ) × (map plain stack.old.items ≡ below ++ num z ∷ []) }
    ensures { map plain stack.old.items ≡ map plain stack.new.items ++ num result ∷ [] }
{
    match pop(stack) {
        Value::Num(n) => n,
        _ => unreachable!(),
    }
}

/// The type and the items of the sequence on top, which is there.
pub(crate) fn pop_sequence(stack: &mut Vec<Value>) -> (Ty, Vec<Value>)
    requires { (below : List Val) × (s : ℕ) × (xs : Vals) × (map plain stack.old.items ≡ below ++ items_of_type s xs ∷ []) }
    ensures { map plain stack.old.items ≡ map plain stack.new.items ++ items_of_type result.0.0 (plain_all result.1.items) ∷ [] }
{
    match pop(stack) {
        Value::Items(ty, items) => (ty, items),
        _ => unreachable!(),
    }
}

/// The fields of the tuple on top, which is there.
pub(crate) fn pop_fields(stack: &mut Vec<Value>) -> Vec<Value>
    requires { (below : List Val) × (s : ℕ) × (xs : Vals) × (map plain stack.old.items ≡ below ++ tuple s xs ∷ []) }
    ensures { (s : ℕ) × (map plain stack.old.items ≡ map plain stack.new.items ++ tuple s (plain_all result.items) ∷ []) }
{
    match pop(stack) {
        Value::Tuple(_, fields) => fields,
        _ => unreachable!(),
    }
}
