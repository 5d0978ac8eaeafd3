//! The log that is kept of runs by many seeds: which one, where, and where none is.

use crate::tests::runs::{TICKS, run_by};
use crate::tests::shelf::{Shelf, expect_answer, wanted_in};
use ioa_rows::{column, columns, is_row};
use std::alloc::Global;
use std::process::Abort;
use std::sync::Wait;
use std::thread::Threads;
use std::time::Clock;

/// The words after `run f`, what stands in the file `o` before, what is printed, what is told of errors, the exit status, and what stands in `o` behind it. `-`
/// is no file.
const KEPT: &str = "\
-- what gives way: no file, an empty one, and what begins as a log does
--alone --turns 3 --seeds 1..2 --monitor Two --keep o | - | 0000000000000000000000000000000000000000000000000000000000000001 end: done after 3; Two: not enabled at 2^0000000000000000000000000000000000000000000000000000000000000002 end: done after 3; Two: not enabled at 2^seeds 2; done 2; fault 0; Two: not accepted 2^ |  | 4 | {\"act\":\"tick(0)\",\"who\":0}^{\"act\":\"tick(1)\",\"who\":0}^{\"act\":\"tick(2)\",\"who\":0}^{\"end\":\"done after 3\"}^
--alone --turns 3 --seeds 1..2 --monitor Two --keep o |  | 0000000000000000000000000000000000000000000000000000000000000001 end: done after 3; Two: not enabled at 2^0000000000000000000000000000000000000000000000000000000000000002 end: done after 3; Two: not enabled at 2^seeds 2; done 2; fault 0; Two: not accepted 2^ |  | 4 | {\"act\":\"tick(0)\",\"who\":0}^{\"act\":\"tick(1)\",\"who\":0}^{\"act\":\"tick(2)\",\"who\":0}^{\"end\":\"done after 3\"}^
--alone --turns 3 --seeds 1..2 --monitor Two --keep o | {\"end\":\"done after 0\"}^ | 0000000000000000000000000000000000000000000000000000000000000001 end: done after 3; Two: not enabled at 2^0000000000000000000000000000000000000000000000000000000000000002 end: done after 3; Two: not enabled at 2^seeds 2; done 2; fault 0; Two: not accepted 2^ |  | 4 | {\"act\":\"tick(0)\",\"who\":0}^{\"act\":\"tick(1)\",\"who\":0}^{\"act\":\"tick(2)\",\"who\":0}^{\"end\":\"done after 3\"}^
--alone --turns 3 --seeds 1..2 --monitor Two --keep o | {\" | 0000000000000000000000000000000000000000000000000000000000000001 end: done after 3; Two: not enabled at 2^0000000000000000000000000000000000000000000000000000000000000002 end: done after 3; Two: not enabled at 2^seeds 2; done 2; fault 0; Two: not accepted 2^ |  | 4 | {\"act\":\"tick(0)\",\"who\":0}^{\"act\":\"tick(1)\",\"who\":0}^{\"act\":\"tick(2)\",\"who\":0}^{\"end\":\"done after 3\"}^
-- a log that breaks an invariant is one that is refused
--alone --turns 3 --seeds 1..1 --invariants --keep o | - | 0000000000000000000000000000000000000000000000000000000000000001 end: done after 3; invariant 0 of component 0 broken after 3^seeds 1; done 1; fault 0; invariants: broken 1^ |  | 4 | {\"act\":\"tick(0)\",\"who\":0}^{\"act\":\"tick(1)\",\"who\":0}^{\"act\":\"tick(2)\",\"who\":0}^{\"end\":\"done after 3\"}^
-- what does not, which is told before a run
--alone --turns 3 --seeds 1..2 --monitor Two --keep o | automaton A |  | io^ | 5 | automaton A
--alone --turns 3 --seeds 1..2 --monitor Two --keep o | { |  | io^ | 5 | {
--alone --turns 3 --seeds 1..2 --monitor Two --keep o | {} |  | io^ | 5 | {}
--alone --turns 3 --seeds 1..2 --monitor Two --keep o | ^{\"end\":\"done after 0\"}^ |  | io^ | 5 | ^{\"end\":\"done after 0\"}^
--alone --turns 3 --seeds 1..2 --monitor All --keep o | x |  | io^ | 5 | x
--alone --turns 100001 --seeds 1..2 --keep o | x |  | io^ | 5 | x
-- nothing is refused
--alone --turns 3 --seeds 1..2 --monitor All --keep o | - | 0000000000000000000000000000000000000000000000000000000000000001 end: done after 3; All: ok^0000000000000000000000000000000000000000000000000000000000000002 end: done after 3; All: ok^seeds 2; done 2; fault 0; All: not accepted 0^ |  | 0 | -
--alone --turns 3 --seeds 1..2 --monitor All --keep o | {\"old | 0000000000000000000000000000000000000000000000000000000000000001 end: done after 3; All: ok^0000000000000000000000000000000000000000000000000000000000000002 end: done after 3; All: ok^seeds 2; done 2; fault 0; All: not accepted 0^ |  | 0 | {\"old
-- the composition, the specifications and the files that are read are looked at before
--alone --seeds 1..2 --comp Nine --keep o | x |  | E17^ | 1 | x
--alone --seeds 1..2 --monitor Hides --keep o | x |  | L7^ | 4 | x
--alone --seeds 1..2 --inputs q --keep o | x |  | io^ | 5 | x
-- turns are looked at behind it, and nothing is kept
--alone --turns 100001 --seeds 1..2 --keep o | {\" |  | N1^ | 2 | {\"
";

/// A component that rolls until it rolls 0, and a specification that accepts no 3.
const ROLLS: &str = "\
automaton Roller signature output roll(d: Int) states over: Int \
transitions output roll pre over = 0 propose d := any(4) eff if d = 0 then over := 1 fi \
automaton Low signature output roll(d: Int) transitions output roll pre d < 3 propose d := 0 \
composition Spec components L: Low \
composition Rolls components R: Roller";

/// The bytes of a file, by the column that has them.
fn standing(rt: &impl Abort, alloc: Global, column: &str) -> Option<Vec<u8>> {
    if column == "-" {
        return None;
    }
    Some(Vec::from_slice(alloc, column.as_bytes()).expect(rt, "memory"))
}

/// Whether just these bytes stand in a file, or there is none.
fn stands(file: &Option<Vec<u8>>, column: &str) -> bool {
    match file {
        Some(bytes) => bytes.as_slice() == column.as_bytes(),
        None => column == "-",
    }
}

/// Runs a row of the table.
fn expect_kept<H: Abort + Threads + Wait + Clock + Sync>(rt: &H, alloc: Global, row: &str) {
    let columns = columns(alloc, row).expect(rt, "a row");
    let mut shelf = Shelf {
        bytes: TICKS.as_bytes(),
        saved: standing(rt, alloc, column(&columns, 1)),
    };
    let ran = run_by(rt, alloc, column(&columns, 0), &mut shelf);
    expect_answer(rt, row, &ran, &wanted_in(rt, &columns, 2));
    assert!(rt; stands(&shelf.saved, column(&columns, 5)), "kept in {row}");
}

#[test]
fn logs_are_kept_where_they_may_be(rt: HostRuntime) {
    for row in KEPT.lines() {
        if is_row(row) {
            expect_kept(&rt, rt.alloc(), row);
        }
    }
}

/// The digits of a seed, where the specification does not accept its run, and how many entries its log has.
fn refused_in<'a>(rt: &impl Abort, line: &'a str) -> Option<(&'a str, u64)> {
    let (digits, end) = line.split_once(" end: done after ")?;
    let (count, answer) = end.split_once("; Spec: ")?;
    if answer == "ok" {
        return None;
    }
    Some((digits, count.parse::<u64>().expect(rt, "a count")))
}

/// The fewest entries of a log that is not accepted, by the lines of all.
fn least_in(rt: &impl Abort, lines: &str) -> u64 {
    let mut least = u64::MAX;
    for line in lines.lines() {
        if let Some((_, count)) = refused_in(rt, line) {
            least = least.min(count);
        }
    }
    least
}

/// The digits of the first seed whose log is not accepted and has the fewest entries, by the lines of all.
fn shortest_in<'a>(rt: &impl Abort, lines: &'a str) -> &'a str {
    let least = least_in(rt, lines);
    for line in lines.lines() {
        match refused_in(rt, line) {
            Some((digits, count)) if count == least => return digits,
            _ => {}
        }
    }
    ""
}

#[test]
fn the_shortest_log_is_kept(rt: HostRuntime) {
    let alloc = rt.alloc();
    let mut shelf = Shelf {
        bytes: ROLLS.as_bytes(),
        saved: None,
    };
    let asked = "--alone --turns 30 --seeds 1..60 --monitor Spec --keep o";
    let ran = run_by(&rt, alloc, asked, &mut shelf);
    let lines = str::from_utf8(ran.output.as_slice()).expect(&rt, "a text");
    let digits = shortest_in(&rt, lines);
    let single = format!(in alloc; "--alone --turns 30 --log --seed {digits}");
    let single = single.expect(&rt, "memory");
    let log = run_by(&rt, alloc, single.as_str(), &mut shelf).output;
    let log = str::from_utf8(log.as_slice()).expect(&rt, "a text");
    assert!(rt; stands(&shelf.saved, log));
}
