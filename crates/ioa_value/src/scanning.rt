//! Values at the front of a text. The first word tells of which type a value is.

ghost use Rattle.std.specs.Prelude.{◌≡◌, ℕ, ◌<◌, ◌≤◌, ◌^◌, List, All, Some, None, IsTrue, IfSome, IfNone, IfOk, if◌then◌else◌, length, map, drop, slice_get};
ghost use Rattle.std.specs.Option.{option_map};
ghost use Rattle.std.specs.Str.{bytes_eq};
ghost use Rattle.std.specs.Str.Parse.{digits_value};
ghost use Rattle.ioa_value.specs.Plain.{number as number_of_type, plain, plain_all, num as plain_num, none};
ghost use Rattle.ioa_value.specs.Table.{AreTypes, Shape, type_name};
ghost use Rattle.ioa_value.specs.Shapes.{shape};
ghost use Rattle.ioa_value.specs.Fronts.{Splits, front_of, row_of};
ghost use Rattle.ioa_value.specs.Scanning as spec;

use crate::memory::OutOfMemory;
use crate::tokens::{Split, after_blanks, after_mark, first_word};
use crate::types::{Form, Types};
use crate::value::{Ty, Value};
use std::alloc::Global;

/// A value at the front of a text, and what follows it after blanks.
#[derive(Drop)]
pub(crate) struct Front<'a> {
    pub(crate) value: Value,
    pub(crate) rest: &'a [u8],
}

/// The values of a tuple or a sequence, and what follows it after blanks.
#[derive(Drop)]
pub(crate) struct Row<'a> {
    pub(crate) values: Vec<Value>,
    pub(crate) rest: &'a [u8],
}

/// The value of some type at the front of the text.
pub(crate) fn first_value<'a>(
    alloc: Global,
    types: &Types,
    text: &'a [u8],
) -> Result<Option<Front<'a>>, OutOfMemory>
    ensures value { IfOk result (λ r. option_map front_of r ≡ spec.scan_value types.now text.now) }
    ensures types { AreTypes types.now }
{
    let front = first_word(text);
    let ty = types.leading(front.word);
    value_of_type(alloc, types, ty, front)
}

// The value of the type whose first word is split off.
#[cycle(scanning)]
fn value_of_type<'a>(
    alloc: Global,
    types: &Types,
    ty: Ty,
    front: Split<'a>,
) -> Result<Option<Front<'a>>, OutOfMemory>
    requires { ty.0 < length types.now }
    ensures value { (text : List ℕ) → Splits front.entry text → IfOk result (λ r. option_map front_of r ≡ spec.scan_of types.now ty.0 text) }
    ensures types { AreTypes types.now }
{
    let Some(form) = types.form(ty) else {
        return Ok(None);
    };
    match form {
        Form::Truths => Ok(at_word(truth(front.word), front)),
        Form::Numbers => Ok(at_word(numeral(front.word), front)),
        Form::Names(_) => Ok(at_word(constant(types, ty, front.word), front)),
        Form::Fields(_) => composite(alloc, types, ty, form, front),
        Form::Sequence(_, _) => composite(alloc, types, ty, form, front),
    }
}

// The tuple or the sequence whose first word is split off: the type's name, and the values in marks.
#[cycle(scanning)]
fn composite<'a>(
    alloc: Global,
    types: &Types,
    ty: Ty,
    form: &Form,
    front: Split<'a>,
) -> Result<Option<Front<'a>>, OutOfMemory>
    requires own { ty.0 < length types.now }
    requires earlier { All (λ t. t < ty.0) (spec.row_types (shape form.now)) }
    ensures { (text : List ℕ) → Splits front.entry text → IfOk result (λ r. option_map front_of r ≡ spec.scan_made (spec.scan_of types.now) types.now ty.0 (shape form.now) text) }
{
    let Some(inner) = opened(types, ty, form, front) else {
        return Ok(None);
    };
    let Some(row) = row_of_values(alloc, types, ty, form, inner)? else {
        return Ok(None);
    };
    Ok(Some(made(ty, form, row)))
}

// The values of a tuple or a sequence after its opening mark, up to the closing one.
#[cycle(scanning)]
fn row_of_values<'a>(
    alloc: Global,
    types: &Types,
    ty: Ty,
    form: &Form,
    text: &'a [u8],
) -> Result<Option<Row<'a>>, OutOfMemory>
    requires own { ty.0 < length types.now }
    requires earlier { All (λ t. t < ty.0) (spec.row_types (shape form.now)) }
    ensures { IfOk result (λ r. option_map row_of r ≡ spec.scan_row (spec.scan_of types.now) (shape form.now) text.now) }
{
    let mut values = Vec::new(alloc);
    if let Some(rest) = early_ending(form, after_blanks(text)) {
        return Ok(Some(Row { values, rest }));
    }
    let mut rest = text;
    loop {
        let Some(next) = type_at(form, values.len()) else {
            return Ok(None);
        };
        let Some(front) = value_of_type(alloc, types, next, first_word(rest))? else {
            return Ok(None);
        };
        values.push(front.value)?;
        let Some(after) = after_mark(front.rest, b',') else {
            let end = end_of_row(form, values.len(), front.rest);
            return Ok(finished(values, end));
        };
        rest = after;
    }
}

// The value of the first word, where it has one.
fn at_word(value: Option<Value>, word: Split<'_>) -> Option<Front<'_>>
    ensures { option_map front_of result ≡ option_map (λ v. (v, word.entry.rest.now)) (option_map plain value) }
{
    match value {
        Some(value) => Some(Front {
            value,
            rest: word.rest,
        }),
        None => None,
    }
}

fn truth(word: &[u8]) -> Option<Value>
    ensures { option_map plain result ≡ spec.truth_in word.now }
{
    if word == b"true".as_slice() {
        return Some(Value::Truth(true));
    }
    if word == b"false".as_slice() {
        return Some(Value::Truth(false));
    }
    None
}

fn numeral(word: &[u8]) -> Option<Value>
    ensures { option_map plain result ≡ option_map plain_num (spec.number_in word.now) }
{
    match number(word) {
        Some(n) => Some(Value::Num(n)),
        None => None,
    }
}

// The number of 64 bits that the word spells.
fn number(word: &[u8]) -> Option<i64>
    ensures { result ≡ spec.number_in word.now }
{
    match after_mark(word, b'-') {
        Some(digits) => 0i64.checked_sub_unsigned(size(digits)?),
        None => 0i64.checked_add_unsigned(size(word)?),
    }
}

// The number that decimal digits write, where it is below 2^64.
fn size(digits: &[u8]) -> Option<u64>
    ensures found { IfSome result (λ n. IsTrue (spec.is_numeral digits.now) × (n ≡ digits_value 10 digits.now)) }
    ensures none { IfNone result (IsTrue (spec.is_numeral digits.now) → 2 ^ 64 ≤ digits_value 10 digits.now) }
{
    if digits.is_empty() {
        return None;
    }
    let mut n: u64 = 0;
    for digit in digits {
        if !digit.is_ascii_digit() {
            return None;
        }
        n = n.checked_mul(10)?.checked_add(u64::from(*digit - b'0'))?;
    }
    Some(n)
}

// The name of this enumeration that the word is.
fn constant(types: &Types, ty: Ty, word: &[u8]) -> Option<Value>
    ensures { option_map plain result ≡ spec.constant_in types.now ty.0 word.now }
{
    let (own, n) = types.spelled_constant(word)?;
    if own != ty {
        return None;
    }
    Some(Value::Name(ty, n))
}

// What follows the type's name and the opening mark.
fn opened<'a>(types: &Types, ty: Ty, form: &Form, front: Split<'a>) -> Option<&'a [u8]>
    requires { ty.0 < length types.now }
    ensures { option_map (λ rest. rest.now) result
        ≡ (if bytes_eq front.entry.word.now (type_name types.now ty.0) then spec.after_mark (spec.opening (shape form.now)) front.entry.rest.now else None) }
{
    let declared = types.declared(ty)?;
    if front.word != declared.name.as_bytes() {
        return None;
    }
    after_mark(front.rest, opening(form))
}

// The mark before the values of a tuple or a sequence.
fn opening(form: &Form) -> u8
    ensures { result ≡ spec.opening (shape form.now) }
{
    match form {
        Form::Sequence(_, _) => b'[',
        _ => b'(',
    }
}

// The mark behind them.
fn closing(form: &Form) -> u8
    ensures { result ≡ spec.closing (shape form.now) }
{
    match form {
        Form::Sequence(_, _) => b']',
        _ => b')',
    }
}

// The type of the value at this place of a tuple or a sequence.
fn type_at(form: &Form, place: usize) -> Option<Ty>
    ensures { option_map number_of_type result ≡ slice_get (spec.row_types (shape form.now)) place }
{
    match form {
        Form::Truths | Form::Numbers | Form::Names(_) => None,
        Form::Fields(fields) => {
            if place < fields.len() {
                Some(fields[place].ty)
            } else {
                None
            }
        }
        Form::Sequence(most, of) => {
            if place < *most as usize {
                Some(*of)
            } else {
                None
            }
        }
    }
}

// What follows the end of a tuple or a sequence, of which so many values are read.
fn end_of_row<'a>(form: &Form, count: usize, text: &'a [u8]) -> Option<&'a [u8]>
    ensures { option_map (λ rest. (none, rest.now)) result ≡ spec.ended (shape form.now) (drop count (spec.row_types (shape form.now))) text.now }
{
    match type_at(form, count) {
        None => ending(form, text),
        Some(_) => early_ending(form, text),
    }
}

// What follows the closing mark and blanks.
fn ending<'a>(form: &Form, text: &'a [u8]) -> Option<&'a [u8]>
    ensures { option_map (λ rest. (none, rest.now)) result ≡ spec.ending (shape form.now) text.now }
{
    let rest = after_mark(text, closing(form))?;
    Some(after_blanks(rest))
}

// The same, where fewer values are enough.
fn early_ending<'a>(form: &Form, text: &'a [u8]) -> Option<&'a [u8]>
    ensures { option_map (λ rest. (none, rest.now)) result ≡ spec.early_ending (shape form.now) text.now }
{
    if !is_sequence(form) {
        return None;
    }
    ending(form, text)
}

fn finished<'a>(values: Vec<Value>, end: Option<&'a [u8]>) -> Option<Row<'a>>
    ensures { option_map row_of result ≡ option_map (λ rest. (plain_all values.items, rest.now)) end.entry }
{
    match end {
        Some(rest) => Some(Row { values, rest }),
        None => None,
    }
}

// The tuple or the sequence of the values.
fn made<'a>(ty: Ty, form: &Form, row: Row<'a>) -> Front<'a>
    ensures { front_of result ≡ (spec.made ty.0 (shape form.now) (row_of row.entry).0, (row_of row.entry).1) }
{
    if is_sequence(form) {
        Front {
            value: Value::Items(ty, row.values),
            rest: row.rest,
        }
    } else {
        Front {
            value: Value::Tuple(ty, row.values),
            rest: row.rest,
        }
    }
}

fn is_sequence(form: &Form) -> bool
    ensures { result ≡ spec.may_be_shorter (shape form.now) }
{
    match form {
        Form::Sequence(_, _) => true,
        _ => false,
    }
}
