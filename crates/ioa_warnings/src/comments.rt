//! Comments that begin within a statement, and read as its operand.

ghost use Rattle.std.specs.Prelude.{◌≡◌, IfOk, Some, false, if◌then◌else◌};
ghost use Rattle.std.specs.Option.{option_copied, option_map_or};
ghost use Rattle.ioa_value.specs.Reads as reads;
ghost use Rattle.ioa_warnings.specs.Comments as spec;

use crate::operands::is_operand;
use ioa_value::{OutOfMemory, first_line};
use std::alloc::Global;

/// The numbers, from 1, of the lines on which a comment begins within a statement and reads as its operand, as in `x := y % 2`: what stands before
/// the line's first `%` has `:=` in it, its last byte that is no blank is none of `;` and `=`, and what stands behind the `%` is an operand. Words, as in
/// `x := y % at last`, are none.
///
/// # Errors
/// `OutOfMemory`.
pub fn comments_in_statements(alloc: Global, text: &[u8]) -> Result<Vec<usize>, OutOfMemory>
    ensures { IfOk result (λ numbers. numbers.items ≡ spec.comments_in_statements text.now) }
{
    let mut numbers = Vec::new(alloc);
    let mut number = 0;
    let mut rest = text;
    while !rest.is_empty() {
        let (line, after) = first_line(rest);
        rest = after;
        number += 1;
        if !is_cut(line) {
            continue;
        }
        numbers.push(number)?;
    }
    Ok(numbers)
}

/// Whether the line's comment begins within a statement, and reads as its operand.
fn is_cut(line: &[u8]) -> bool
    ensures { result ≡ spec.is_cut line.now }
{
    is_within_statement(line) && is_operand(behind_comment(line))
}

/// Whether the line's comment begins within a statement.
fn is_within_statement(line: &[u8]) -> bool
    ensures { result ≡ option_map_or spec.is_within_statement (spec.before_comment line.now) false }
{
    match before_comment(line) {
        Some(front) => assigns(front) && goes_on(last_byte(front)),
        None => false,
    }
}

/// What stands before the line's first `%`, if it has one.
fn before_comment(line: &[u8]) -> Option<&[u8]>
    ensures { option_copied result ≡ spec.before_comment line.now }
{
    for (at, byte) in line.iter().enumerate() {
        if *byte == b'%' {
            return Some(&line[..at]);
        }
    }
    None
}

/// What stands behind it; nothing, where there is none.
fn behind_comment(line: &[u8]) -> &[u8]
    ensures { result.now ≡ spec.behind_comment line.now }
{
    let mut rest = line;
    while let [byte, after @ ..] = rest {
        if *byte == b'%' {
            return after;
        }
        rest = after;
    }
    rest
}

/// Whether `:=` stands in the text.
fn assigns(text: &[u8]) -> bool
    ensures { result ≡ spec.assigns text.now }
{
    let mut rest = text;
    while let [byte, after @ ..] = rest {
        if *byte == b':' && begins_equal(after) {
            return true;
        }
        rest = after;
    }
    false
}

/// Whether `=` is the text's first byte.
fn begins_equal(text: &[u8]) -> bool
    ensures { result ≡ spec.begins_equal text.now }
{
    match text.first() {
        Some(byte) => *byte == b'=',
        None => false,
    }
}

/// The text's last byte that is no blank.
fn last_byte(text: &[u8]) -> Option<u8>
    ensures { result ≡ spec.last_byte text.now }
{
    let mut last = None;
    for byte in text {
        last = later(last, *byte);
    }
    last
}

/// This byte, or the one before it where this one is a blank.
fn later(before: Option<u8>, byte: u8) -> Option<u8>
    ensures { result ≡ (if reads.is_blank byte then before else Some byte) }
{
    if is_blank(byte) { before } else { Some(byte) }
}

pub(crate) fn is_blank(byte: u8) -> bool
    ensures { result ≡ reads.is_blank byte }
{
    byte == b' ' || byte == b'\t' || byte == b'\r'
}

/// Whether a statement could go on behind a last byte: it is not closed, and its expression has begun.
fn goes_on(last: Option<u8>) -> bool
    ensures { result ≡ spec.goes_on last }
{
    match last {
        Some(byte) => byte != b';' && byte != b'=',
        None => false,
    }
}
