//! What operators take from sequences and tuples, and put on them. Values move: none is copied.

ghost use Rattle.std.specs.Prelude.{◌≡◌, ◌<◌, ◌++◌, ◌∷◌, [], ℕ, IfOk, IfSome, map, nat_lt, length, if◌then◌else◌, slice_get};
ghost use Rattle.std.specs.List.{position_from};
ghost use Rattle.std.specs.Option.{option_map};
ghost use Rattle.ioa_value.specs.Plain.{Vals, plain, plain_all, items as items_of_type, vals};
ghost use Rattle.ioa_value.specs.Table.{capacity as most_items};
ghost use Rattle.ioa_value.specs.Same.{same as are_same};
ghost use Rattle.ioa_value.specs.Sequences.{last_item, all_but_first, all_but_last, item_at, without_first};
ghost use Rattle.ioa_value.specs.Operators.{answer_of, of_item, of_items, gives, faults};
ghost use Rattle.ioa_arithmetic.specs.declared.arithmetic.Fault.TheVariants.{Empty, OutOfRange, Full};

use crate::memory::OutOfMemory;
use crate::parts::capacity;
use crate::types::Types;
use crate::value::{Ty, Value, same};
use ioa_arithmetic::Fault;

/// The items of a sequence, which the value is.
pub(crate) fn items_of(sequence: &Value) -> &[Value]
    requires { (s : ℕ) × (xs : Vals) × (plain sequence.now ≡ items_of_type s xs) }
    ensures { (s : ℕ) × (plain sequence.now ≡ items_of_type s (plain_all result.now)) }
{
    match sequence {
        Value::Items(_, items) => items,
        _ => unreachable!(),
    }
}

/// The place of the first item that equals this one.
pub(crate) fn place_of(item: &Value, items: &[Value]) -> Option<usize>
    ensures place { result ≡ position_from (are_same (plain item.now)) 0 (map plain items.now) }
    ensures within { IfSome result (λ place. place < length items.now) }
{
    for i in 0..items.len() {
        if same(item, &items[i]) {
            return Some(i);
        }
    }
    None
}

/// The item at a place, out of its list.
pub(crate) fn taken(items: Vec<Value>, place: usize) -> Option<Value>
    ensures { option_map plain result ≡ slice_get (map plain items.items) place }
{
    let mut items = items;
    if place < items.len() {
        Some(items.swap_remove(place))
    } else {
        None
    }
}

/// The item, or the fault where there is none.
fn or_fault(item: Option<Value>, fault: Fault) -> Result<Value, Fault>
    ensures { answer_of result ≡ of_item fault (option_map plain item) }
{
    match item {
        Some(value) => Ok(value),
        None => Err(fault),
    }
}

pub(crate) fn head(items: Vec<Value>) -> Result<Value, Fault>
    ensures { answer_of result ≡ of_item Empty (slice_get (map plain items.items) 0) }
{
    or_fault(taken(items, 0), Fault::Empty)
}

pub(crate) fn last(items: Vec<Value>) -> Result<Value, Fault>
    ensures { answer_of result ≡ of_item Empty (last_item (map plain items.items)) }
{
    let mut items = items;
    match items.pop() {
        Some(item) => Ok(item),
        None => Err(Fault::Empty),
    }
}

pub(crate) fn at(items: Vec<Value>, place: i64) -> Result<Value, Fault>
    ensures { answer_of result ≡ of_item OutOfRange (item_at (map plain items.items) place) }
{
    if place < 0 {
        return Err(Fault::OutOfRange);
    }
    or_fault(taken(items, place as usize), Fault::OutOfRange)
}

pub(crate) fn tail(ty: Ty, items: Vec<Value>) -> Result<Value, Fault>
    ensures { answer_of result ≡ of_items ty.0 (all_but_first (map plain items.items)) }
{
    let mut items = items;
    if items.is_empty() {
        return Err(Fault::Empty);
    }
    items.remove(0);
    Ok(Value::Items(ty, items))
}

pub(crate) fn init(ty: Ty, items: Vec<Value>) -> Result<Value, Fault>
    ensures { answer_of result ≡ of_items ty.0 (all_but_last (map plain items.items)) }
{
    let mut items = items;
    match items.pop() {
        Some(_) => Ok(Value::Items(ty, items)),
        None => Err(Fault::Empty),
    }
}

pub(crate) fn append(
    types: &Types,
    ty: Ty,
    items: Vec<Value>,
    item: Value,
) -> Result<Result<Value, Fault>, OutOfMemory>
    ensures { IfOk result (λ r. answer_of r ≡ (if nat_lt (length (map plain items.items)) (most_items types.now ty.0) then gives (items_of_type ty.0 (vals (map plain items.items ++ plain item ∷ []))) else faults Full)) }
{
    let mut items = items;
    if items.len() < capacity(types, ty) {
        items.push(item)?;
        Ok(Ok(Value::Items(ty, items)))
    } else {
        Ok(Err(Fault::Full))
    }
}

pub(crate) fn without(ty: Ty, items: Vec<Value>, item: &Value) -> Value
    ensures { plain result ≡ items_of_type ty.0 (vals (without_first (plain item.now) (map plain items.items))) }
{
    let mut items = items;
    match place_of(item, &items) {
        Some(place) => {
            items.remove(place);
            Value::Items(ty, items)
        }
        None => Value::Items(ty, items),
    }
}
