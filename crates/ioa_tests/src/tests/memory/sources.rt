//! Sources that become programs with little memory.

use crate::tests::made::{self, Got};
use crate::tests::memory::hoard::Spare;
use crate::tests::memory::lent::is_program;
use crate::tests::memory::{Came, all_but};
use ioa_check::{Checked, check};
use ioa_compile::compile;
use ioa_compose::{Composition, compose};
use ioa_syntax::{Refusal, parse};
use std::alloc::Global;
use std::process::Abort;

/// Dice that crash, and one who sums up what was thrown, by a loop.
pub const THROWS: &str = "\
type S = seq 4 of Int \
automaton Dice(n: Int) signature output roll(d: Int) states stable k: Int \
transitions output roll pre k < 2 propose d := any(n) eff k := k + 1 \
automaton Keep signature input roll(d: Int); output tell(s: Int); internal add states all: S; sum: Int \
transitions input roll eff all := append(all, d) output tell pre s = sum propose s := sum \
internal add pre len(all) > 0 eff for x in all do sum := sum + x od; all := empty(S) \
composition Game components D: Dice(6) crash down recover up; K: Keep";

/// What came of it that is refused so.
fn refused(refusal: Refusal) -> Came {
    match refusal {
        Refusal::OutOfMemory => Came::Wanting,
        _ => Came::Wrong,
    }
}

/// The source that keeps the rules.
fn checked_source(rt: &impl Abort, alloc: Global) -> Checked {
    let source = made::parsed(rt, alloc, THROWS.as_bytes());
    check(alloc, source).expect(rt, "a checked source")
}

fn composition(rt: &impl Abort, alloc: Global) -> Composition {
    let checked = checked_source(rt, alloc);
    compose(alloc, &checked, None).expect(rt, "a composition")
}

/// Whether the source is composed to the composition that there is with ample memory.
fn is_checked(rt: &impl Abort, alloc: Global, checked: &Checked) -> bool {
    let composed = compose(alloc, checked, None).expect(rt, "a composition");
    is_composed(rt, alloc, &composed)
}

/// Whether the composition is compiled to the program that there is with ample memory.
fn is_composed(rt: &impl Abort, alloc: Global, composition: &Composition) -> bool {
    let program = compile(alloc, composition).got(rt);
    is_program(rt, alloc, &program, THROWS)
}

pub fn parsed(rt: &impl Abort, alloc: Global, spare: Spare) -> Came {
    let hoard = all_but(rt, alloc, spare);
    let answer = parse(alloc, THROWS.as_bytes());
    drop(hoard);
    match answer {
        Ok(source) => Came::Answered.and(source.same(&made::parsed(rt, alloc, THROWS.as_bytes()))),
        Err(refusal) => refused(refusal),
    }
}

pub fn checked(rt: &impl Abort, alloc: Global, spare: Spare) -> Came {
    let source = made::parsed(rt, alloc, THROWS.as_bytes());
    let hoard = all_but(rt, alloc, spare);
    let answer = check(alloc, source);
    drop(hoard);
    match answer {
        Ok(checked) => Came::Answered.and(is_checked(rt, alloc, &checked)),
        Err(refusal) => refused(refusal),
    }
}

pub fn composed(rt: &impl Abort, alloc: Global, spare: Spare) -> Came {
    let checked = checked_source(rt, alloc);
    let hoard = all_but(rt, alloc, spare);
    let answer = compose(alloc, &checked, None);
    drop(hoard);
    let came = match answer {
        Ok(composition) => Came::Answered.and(is_composed(rt, alloc, &composition)),
        Err(refusal) => refused(refusal),
    };
    came.and(is_checked(rt, alloc, &checked))
}

pub fn compiled(rt: &impl Abort, alloc: Global, spare: Spare) -> Came {
    let composition = composition(rt, alloc);
    let hoard = all_but(rt, alloc, spare);
    let answer = compile(alloc, &composition);
    drop(hoard);
    let came = match answer {
        Ok(program) => Came::Answered.and(is_program(rt, alloc, &program, THROWS)),
        Err(_) => Came::Wanting,
    };
    came.and(is_composed(rt, alloc, &composition))
}
