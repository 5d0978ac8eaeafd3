//! Lines of texts by their numbers, from 1.

ghost use Rattle.std.specs.Prelude.{◌≡◌, drop, slice_get};
ghost use Rattle.std.specs.Option.{option_copied};
ghost use Rattle.ioa_value.specs.Lists.{lines};
ghost use Rattle.ioa_account.specs.Lines as spec;

use ioa_value::{first_line, is_skipped};

/// The line of this number, from 1, without its LF.
pub fn line_at(text: &[u8], number: usize) -> Option<&[u8]>
    ensures { option_copied result ≡ spec.line_at text.now number }
{
    match number.checked_sub(1) {
        Some(before) => line_behind(text, before),
        None => None,
    }
}

/// The line that stands behind so many.
fn line_behind(text: &[u8], before: usize) -> Option<&[u8]>
    ensures { option_copied result ≡ slice_get (lines text.now) before }
{
    let rest = behind(text, before);
    if rest.is_empty() {
        return None;
    }
    Some(first_line(rest).0)
}

/// What stands behind so many lines; nothing, where there are no more.
pub(crate) fn behind(text: &[u8], count: usize) -> &[u8]
    ensures { lines result.now ≡ drop count (lines text.now) }
{
    let mut rest = text;
    for _ in 0..count {
        if rest.is_empty() {
            return rest;
        }
        rest = first_line(rest).1;
    }
    rest
}

/// The number, from 1, of the line of a list's text that holds the action of this index, from 0. The lines that are not skipped hold
/// one each.
pub fn line_of_action(list: &[u8], index: usize) -> Option<usize>
    ensures { result ≡ spec.line_of_action list.now index }
{
    let mut rest = list;
    let mut number = 0;
    let mut before = index;
    while !rest.is_empty() {
        let (line, after) = first_line(rest);
        rest = after;
        number += 1;
        if is_skipped(line) {
            continue;
        }
        if before == 0 {
            return Some(number);
        }
        before -= 1;
    }
    None
}
