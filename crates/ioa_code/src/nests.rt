//! The loops round each place, of any code: a body is what lies between an `Each` and the place past it.

ghost use Rattle.std.specs.Prelude.{◌≡◌, ◌≤◌, ◌<◌, ◌+◌, nat_lt, [], length, IfOk};
ghost use Rattle.std.specs.List.{list_all};
ghost use Rattle.ioa_code.specs.Scan.{same_types};
ghost use Rattle.ioa_code.specs.Loops.{past as past_of, past_at, bodies, first_of, AreInnermost};

use crate::instr::Instr;
use std::alloc::{AllocError, Global};

// The place past the body of an Each; 0 of other instructions.
pub(crate) fn past(instr: Instr) -> usize
    ensures value { result ≡ past_of instr }
    ensures small { result ≤ 65535 }
{
    match instr {
        Instr::Each(end) => end as usize,
        Instr::Const(_)
        | Instr::Slot(_)
        | Instr::Arg(_)
        | Instr::Store(_)
        | Instr::Jump(_)
        | Instr::JumpIfFalse(_)
        | Instr::Any
        | Instr::Pick(_)
        | Instr::Apply(_)
        | Instr::Again(_)
        | Instr::Local(_) => 0,
    }
}

// The innermost loop round each place, and round the end.
//
// A loop that has ended before a place was looked at is not looked at again: a loop inside it leads to what is round it.
pub(crate) fn innermost(alloc: Global, instrs: &[Instr]) -> Result<Vec<Option<usize>>, AllocError>
    ensures long { IfOk result (λ inner. length inner.items ≡ length instrs.now + 1) }
    ensures known { IfOk result (λ inner. AreInnermost instrs.now inner.items) }
{
    let mut inner = Vec::new(alloc);
    for place in 0..instrs.len() + 1 {
        let found = search(instrs, &inner, place);
        inner.push(found)?;
    }
    Ok(inner)
}

// The innermost loop round a place, by those round earlier places.
fn search(instrs: &[Instr], inner: &[Option<usize>], place: usize) -> Option<usize>
    requires within { place ≤ length instrs.now }
    requires long { length inner.now ≡ place }
    requires known { AreInnermost instrs.now inner.now }
    ensures { result ≡ first_of (bodies instrs.now place) }
{
    if place == 0 {
        return None;
    }
    let mut next = Some(place - 1);
    while let Some(each) = next {
        if place < past(instrs[each]) {
            return next;
        }
        next = inner[each];
    }
    None
}

// The place past the body of the loop that begins at this place.
pub(crate) fn end(instrs: &[Instr], each: usize) -> usize
    requires { each < length instrs.now }
    ensures value { result ≡ past_at instrs.now each }
    ensures small { result ≤ 65535 }
{
    past(instrs[each])
}

// The loops round the next place, the innermost first, by those round this one: some of them, and the one that begins here.
pub(crate) fn advance(
    alloc: Global,
    instrs: &[Instr],
    round: &[usize],
    place: usize,
) -> Result<Vec<usize>, AllocError>
    requires within { place < length instrs.now }
    requires here { round.now ≡ bodies instrs.now place }
    ensures next { IfOk result (λ next. next.items ≡ bodies instrs.now (place + 1)) }
    ensures near { IfOk result (λ next. 65535 ≤ place + 1 → next.items ≡ []) }
{
    let mut next = Vec::new(alloc);
    if place + 1 < end(instrs, place) {
        next.push(place)?;
    }
    for each in round {
        if place + 1 < end(instrs, *each) {
            next.push(*each)?;
        }
    }
    Ok(next)
}

// Whether a place is before the end of each of the loops round another one.
pub(crate) fn end_later(instrs: &[Instr], round: &[usize], place: usize, to: usize) -> bool
    requires within { place ≤ length instrs.now }
    requires here { round.now ≡ bodies instrs.now place }
    ensures { result ≡ list_all (λ k. nat_lt to (past_at instrs.now k)) (bodies instrs.now place) }
{
    for each in round {
        if to >= end(instrs, *each) {
            return false;
        }
    }
    true
}

// Whether a later place has the same loops round it.
pub(crate) fn stays(
    instrs: &[Instr],
    inner: &[Option<usize>],
    round: &[usize],
    place: usize,
    to: usize,
) -> bool
    requires within { to ≤ length instrs.now }
    requires later { place ≤ to }
    requires here { round.now ≡ bodies instrs.now place }
    requires long { length inner.now ≡ length instrs.now + 1 }
    requires known { AreInnermost instrs.now inner.now }
    ensures { result ≡ same_types (bodies instrs.now to) (bodies instrs.now place) }
{
    if end_later(instrs, round, place, to) {
        match inner[to] {
            Some(each) => each < place,
            None => true,
        }
    } else {
        false
    }
}
