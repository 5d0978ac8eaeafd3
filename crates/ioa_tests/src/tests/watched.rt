//! Streams that are watched.

ghost use Rattle.std.specs.Prelude.{◌≡◌, All, false, true};
ghost use Rattle.ioa_monitor.specs.Monitoring.{hides};

use crate::tests::made::{Got, action, expect_so, program};
use ioa_compile::Program;
use ioa_device::{Counted, LogErr};
use ioa_monitor::hides_actions;
use ioa_rows::COUNTER;
use ioa_system::End;
use ioa_value::{Action, OutOfMemory};
use ioa_watch::{Watcher, watch};
use std::alloc::Global;
use std::process::Abort;

/// A counter that begins elsewhere.
const ANOTHER: &str = "automaton Counter(start: Int) signature output tick(k: Int); input reset \
    states c: Int := start transitions output tick pre k = c propose k := c eff c := c + 1 \
    input reset eff c := start composition Two components A: Counter(6)";

/// What a counter that begins at 5 hears, and tells of it.
static HEARD: [(&str, Option<End>); 6] = [
    ("tick(5)", None),
    ("other(1)", None),
    ("reset", None),
    ("tick(6)", Some(End::NotEnabled(3))),
    ("tick", None),
    ("reset", None),
];

/// What is told of one action more, of few.
fn heard(
    rt: &impl Abort,
    watcher: &mut Watcher<'_>,
    action: &Action,
) -> Result<Option<End>, OutOfMemory> {
    assert!(rt; watcher.heard() < 9);
    watcher.hear(action)
}

/// Whether it is told so of the action that is spelled so.
fn is_heard(
    rt: &impl Abort,
    alloc: Global,
    watcher: &mut Watcher<'_>,
    text: &str,
    told: Option<End>,
) -> bool {
    let action = action(rt, alloc, watcher.program().types(), text);
    heard(rt, watcher, &action) == Ok(told)
}

/// Whether it has taken two ticks and a reset, passed one action over, and refused the next.
fn has_counted(watcher: &Watcher<'_>) -> bool {
    watcher.names() == ["tick", "reset"].as_slice()
        && watcher.counts() == [1, 1].as_slice()
        && watcher.others() == 1
        && watcher.heard() == 3
        && watcher.refusal() == Some(End::NotEnabled(3))
        && watcher.program().name() == "One"
}

#[test]
fn hears_and_counts(rt: HostRuntime) {
    let alloc = rt.alloc();
    let program = program(&rt, alloc, COUNTER, None);
    let mut watcher = Watcher::start(alloc, &program).got(&rt);
    for (text, told) in &HEARD {
        let is_so = is_heard(&rt, alloc, &mut watcher, text, *told);
        expect_so(&rt, is_so, text);
    }
    assert!(rt; has_counted(&watcher));
}

/// Streams that a counter from 5 and one from 6 hear, whether the first refusal is enough, and what is told.
static STREAMS: [(&str, bool, &str); 7] = [
    ("", false, "One: ok\nTwo: ok\n"),
    (
        "{\"act\":\"login(\\\"ann\\\")\",\"at\":1}\n{\"end\":\"done after 1\"}\n",
        false,
        "One: ok\nTwo: ok\n",
    ),
    (
        "{\"at\":1,\"act\":\"tick(5)\"}\n{\"act\":\"reset\"}",
        false,
        "Two: not enabled at 0\nOne: ok\n",
    ),
    (
        "{\"act\":\"tick(5)\"}\n{\"act\":\"tick(7)\"}\nx\n",
        true,
        "Two: not enabled at 0\n",
    ),
    (
        "{\"act\":\"other\"}\n{\"end\":\"done\"}\n{\"act\":\"tick(6)\"}\n{\"act\":\"tick\"}\nx\n",
        false,
        "One: not enabled at 1\nTwo: not an action at 2\n",
    ),
    (
        "{\"act\":\"reset(true)\"}\nx\n",
        false,
        "One: not an action at 0\nTwo: not an action at 0\n",
    ),
    (
        "{\"act\":\"tick(5)\"}\n{\"act\":\"tick(5)\"}\nx",
        false,
        "Two: not enabled at 0\nOne: not enabled at 1\n",
    ),
];

/// Streams with a line that is none, why, and what is told before it.
static WRONG: [(&str, LogErr, &str); 6] = [
    ("\n", LogErr::NotJson(1), ""),
    (
        "{\"act\":\"reset\"}\n{\"act\":\"reset\"",
        LogErr::NotJson(2),
        "",
    ),
    (
        "{\"act\":\"reset\"}\n{\"act\":5}\n",
        LogErr::BadEntry(2),
        "",
    ),
    ("{\"act\":\"tick(5\"}\n", LogErr::BadEntry(1), ""),
    ("{\"end\":\"\"}\n[\"act\"]\n", LogErr::BadEntry(2), ""),
    (
        "{\"act\":\"tick(5)\"}\n{}",
        LogErr::BadEntry(2),
        "Two: not enabled at 0\n",
    ),
];

/// Programs of both counters.
fn counters(rt: &impl Abort, alloc: Global) -> Vec<Program> {
    let one = program(rt, alloc, COUNTER, None);
    let other = program(rt, alloc, ANOTHER, None);
    vec![in alloc; one, other].got(rt)
}

/// Whether all that they do is seen.
fn are_open(programs: &[Program]) -> bool
    ensures { result ≡ true → All (λ p. hides p ≡ false) programs.now }
{
    for program in programs {
        if hides_actions(program) {
            return false;
        }
    }
    true
}

/// How the programs' watch of a stream ends.
fn ended(
    rt: &impl Abort,
    alloc: Global,
    programs: &[Program],
    first: bool,
    input: &mut Counted<&[u8]>,
    output: &mut Counted<Vec<u8>>,
) -> Result<(), LogErr> {
    assert!(rt; are_open(programs));
    let types = programs.first().expect(rt, "a program").types();
    match watch(alloc, types, programs, first, false, input, output) {
        Ok(_) => Ok(()),
        Err(error) => Err(error),
    }
}

/// Whether the watch of the stream ends so, and tells this.
fn is_watched(
    rt: &impl Abort,
    alloc: Global,
    text: &str,
    first: bool,
    wanted: Result<(), LogErr>,
    told: &str,
) -> bool {
    let programs = counters(rt, alloc);
    let mut input = Counted::new(text.as_bytes());
    let mut output = Counted::new(Vec::new(alloc));
    let answer = ended(rt, alloc, &programs, first, &mut input, &mut output);
    answer == wanted && output.into_inner().as_slice() == told.as_bytes()
}

#[test]
fn tells_refusals_at_once_and_refuses_lines(rt: HostRuntime) {
    let alloc = rt.alloc();
    for (text, first, told) in &STREAMS {
        let is_so = is_watched(&rt, alloc, text, *first, Ok(()), told);
        expect_so(&rt, is_so, text);
    }
    for (text, error, told) in &WRONG {
        let is_so = is_watched(&rt, alloc, text, false, Err(*error), told);
        expect_so(&rt, is_so, text);
    }
}
