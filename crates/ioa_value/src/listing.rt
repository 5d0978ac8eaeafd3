//! Lists of actions as texts: what a replay performs, and what the script of an environment is.

ghost use Rattle.std.specs.Prelude.{◌≡◌, ℕ, List, IfOk, IfErr, IsOkAnd, IsErrAnd, map};
ghost use Rattle.ioa_value.specs.Actions.{Act, act_of};
ghost use Rattle.ioa_value.specs.Lists as spec;

use crate::action::Action;
use crate::lines::first_line;
use crate::memory::OutOfMemory;
use crate::reading::read_action;
use crate::tokens::is_blank_text;
use crate::types::Types;
use std::alloc::Global;

/// The actions of a list text, one a line, in order. Lines of blanks alone and lines that begin
/// with `%` are skipped. Where another line is no action's text, the answer is the number of the
/// first such line, from 1, the skipped lines counted.
pub fn read_list(
    alloc: Global,
    types: &Types,
    text: &[u8],
) -> Result<Result<Vec<Action>, u64>, OutOfMemory>
    ensures list { IfOk result (λ r. IfOk r (λ list. spec.ReadsList types.now text.now (map act_of list.items))) }
    ensures bad { IfOk result (λ r. IfErr r (λ n. spec.BadLine types.now text.now n)) }
    ensures only { (acts : List Act) → spec.ReadsList types.now text.now acts → IfOk result (λ r. IsOkAnd r (λ list. map act_of list.items ≡ acts)) }
    ensures only_bad { (n : ℕ) → spec.BadLine types.now text.now n → IfOk result (λ r. IsErrAnd r (λ m. m ≡ n)) }
{
    let mut list = Vec::new(alloc);
    let mut count = 0;
    let mut rest = text;
    while !rest.is_empty() {
        let (line, after) = first_line(rest);
        rest = after;
        count += 1;
        if is_skipped(line) {
            continue;
        }
        let Some(action) = read_action(alloc, types, line)? else {
            return Ok(Err(count));
        };
        list.push(action)?;
    }
    Ok(Ok(list))
}

/// Whether the line of a list text is skipped: blanks alone, or `%` at its front.
pub fn is_skipped(line: &[u8]) -> bool
    ensures { result ≡ spec.is_skipped line.now }
{
    is_blank_text(line) || begins_comment(line)
}

fn begins_comment(line: &[u8]) -> bool
    ensures { result ≡ spec.begins_comment line.now }
{
    match line.first() {
        Some(b) => *b == b'%',
        None => false,
    }
}
