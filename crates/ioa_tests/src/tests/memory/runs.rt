//! Whole runs with little memory: they begin or not, and a worker's own want of memory ends that worker alone.

use crate::tests::made::Setting;
use crate::tests::memory::hoard::Spare;
use crate::tests::memory::{Came, all_but};
use crate::tests::resumed::{log_of, seeded};
use crate::tests::rooms::told_outcome;
use crate::tests::threads::told_reports;
use ioa_compile::Program;
use ioa_replay::replay;
use ioa_run::{
    OpenGate, Outcome, Report, RunErr, Why, resume_alone, resume_threads, run_alone, run_threads,
};
use std::alloc::Global;
use std::process::Abort;
use std::sync::Wait;
use std::thread::Threads;

/// How many turns each worker has.
const TURNS: u64 = 4;

/// The counter ticks at each of its turns; the environment has nothing to do.
const REPORTS: &str =
    "4 committed, 0 idle, 0 stale, TurnsDone; 0 committed, 4 idle, 0 stale, TurnsDone";

/// What is performed from the start, and behind a log.
const RUN: &str = "0 tick(5); 0 tick(6); 0 tick(7); 0 tick(8), state(9), done after 4";

const RESUMED: &str =
    "0 tick(5); 0 tick(6); 1 reset; 0 tick(5); 0 tick(6); 0 tick(7); 0 tick(8), state(9), done after 7";

/// What came of a run that does this with ample memory.
fn judged(
    rt: &impl Abort,
    alloc: Global,
    program: &Program,
    answer: Result<Outcome, RunErr>,
    given: &str,
) -> Came {
    match answer {
        Ok(outcome) => performed(rt, alloc, program, outcome, given),
        Err(RunErr::OutOfMemory) => Came::Unbegun(RunErr::OutOfMemory),
        Err(RunErr::Threads) => Came::Unbegun(RunErr::Threads),
        Err(_) => Came::Wrong,
    }
}

/// Whether a worker ended for want of memory.
fn lacks_memory(reports: &[Report]) -> bool {
    for report in reports {
        if report.why == Why::Memory {
            return true;
        }
    }
    false
}

/// What came of a run that gives this. Its log is accepted, whatever became of its workers.
fn performed(
    rt: &impl Abort,
    alloc: Global,
    program: &Program,
    outcome: Outcome,
    given: &str,
) -> Came {
    let came = if lacks_memory(&outcome.reports) {
        Came::Wanting
    } else {
        Came::Answered.and(is_as_given(rt, alloc, program, &outcome, given))
    };
    came.and(replay(alloc, program, &log_of(outcome)).is_ok())
}

/// Whether the run did this, and its workers what they do with ample memory.
fn is_as_given(
    rt: &impl Abort,
    alloc: Global,
    program: &Program,
    outcome: &Outcome,
    given: &str,
) -> bool {
    told_reports(rt, alloc, &outcome.reports).as_str() == REPORTS
        && told_outcome(rt, alloc, program.types(), outcome).as_str() == given
}

pub fn alone(rt: &impl Abort, alloc: Global, lent: &Setting, spare: Spare) -> Came {
    let program = &lent.program;
    let words = seeded(rt, alloc, program);
    let hoard = all_but(rt, alloc, spare);
    let answer = run_alone(alloc, program, TURNS, words, &[], &mut Vec::new(alloc));
    drop(hoard);
    judged(rt, alloc, program, answer, RUN)
}

pub fn resumed_alone(rt: &impl Abort, alloc: Global, lent: &Setting, spare: Spare) -> Came {
    let program = &lent.program;
    let words = seeded(rt, alloc, program);
    let hoard = all_but(rt, alloc, spare);
    let answer = resume_alone(
        alloc,
        program,
        &lent.log,
        TURNS,
        words,
        &[],
        &mut Vec::new(alloc),
    );
    drop(hoard);
    judged(rt, alloc, program, answer, RESUMED)
}

pub fn on_threads<H: Abort + Threads + Wait + Sync>(
    rt: &H,
    alloc: Global,
    lent: &Setting,
    spare: Spare,
) -> Came {
    let program = &lent.program;
    let words = seeded(rt, alloc, program);
    let hoard = all_but(rt, alloc, spare);
    let answer = run_threads(
        rt,
        alloc,
        program,
        TURNS,
        words,
        &[],
        &OpenGate,
        &mut Vec::new(alloc),
    );
    drop(hoard);
    judged(rt, alloc, program, answer, RUN)
}

pub fn resumed_on_threads<H: Abort + Threads + Wait + Sync>(
    rt: &H,
    alloc: Global,
    lent: &Setting,
    spare: Spare,
) -> Came {
    let program = &lent.program;
    let words = seeded(rt, alloc, program);
    let hoard = all_but(rt, alloc, spare);
    let answer = resume_threads(
        rt,
        alloc,
        program,
        &lent.log,
        TURNS,
        words,
        &[],
        &OpenGate,
        &mut Vec::new(alloc),
    );
    drop(hoard);
    judged(rt, alloc, program, answer, RESUMED)
}
