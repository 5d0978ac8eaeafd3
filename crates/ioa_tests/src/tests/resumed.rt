//! Runs that go on from logs.

ghost use Rattle.std.specs.Prelude.{◌≡◌, length};

use crate::tests::made::{self, EMPTY, Got, Setting, expect_so, expect_text, of_library, set_up};
use crate::tests::reached::PUTS;
use crate::tests::rooms::told_outcome;
use crate::tests::threads::told_reports;
use ioa_compile::Program;
use ioa_monitor::monitor;
use ioa_replay::replay;
use ioa_rows::COUNTER;
use ioa_run::{
    Board, OpenGate, Outcome, Room, RunErr, Seeded, resume_alone, resume_threads, run_alone,
    run_threads,
};
use ioa_system::{Log, LogEntry};
use ioa_value::Action;
use std::alloc::Global;
use std::process::Abort;
use std::sync::Wait;
use std::thread::Threads;

/// The counter ticks twice, and the environment resets it.
pub const TICKED: &str =
    "{\"act\":\"tick(5)\",\"who\":0}\n{\"act\":\"tick(6)\",\"who\":0}\n{\"act\":\"reset\",\"who\":1}\n{\"end\":\"done after 3\"}\n";

/// The same with the first of them by the environment.
const ANOTHERS: &str =
    "{\"act\":\"tick(5)\",\"who\":1}\n{\"act\":\"tick(6)\",\"who\":0}\n{\"act\":\"reset\",\"who\":1}\n{\"end\":\"done after 3\"}\n";

/// The same with another count at the end, and with both.
const MISCOUNTED: &str =
    "{\"act\":\"tick(5)\",\"who\":0}\n{\"act\":\"tick(6)\",\"who\":0}\n{\"act\":\"reset\",\"who\":1}\n{\"end\":\"done after 2\"}\n";

const BOTH: &str =
    "{\"act\":\"tick(5)\",\"who\":1}\n{\"act\":\"tick(6)\",\"who\":0}\n{\"act\":\"reset\",\"who\":1}\n{\"end\":\"done after 2\"}\n";

/// The counter ends by a fault: as it does where it begins with the greatest number, behind actions that it does not perform, and behind
/// none.
const FAULTED: &str =
    "{\"act\":\"tick(9223372036854775807)\",\"who\":0}\n{\"end\":\"fault 1 in component 0 at 0\"}\n";

const ELSEWHERE: &str =
    "{\"act\":\"tick(9)\",\"who\":1}\n{\"end\":\"fault 2 in component 4 at 7\"}\n";

const BARE: &str = "{\"end\":\"fault 1 in component 0 at 0\"}\n";

/// Counters that are at the greatest number, or come to it by one action.
const FULL: &str = "automaton Counter(start: Int) signature output tick(k: Int); input reset \
    states c: Int := start transitions output tick pre k = c propose k := c eff c := c + 1 \
    input reset eff c := start composition One components A: Counter(9223372036854775807)";

const NEARLY: &str = "automaton Counter(start: Int) signature output tick(k: Int); input reset \
    states c: Int := start transitions output tick pre k = c propose k := c eff c := c + 1 \
    input reset eff c := start composition One components A: Counter(9223372036854775806)";

/// A run on one thread that goes on from a log, what it gives, and its reports.
struct Case {
    source: &'static str,
    log: &'static str,
    turns: u64,
    script: &'static [&'static str],
    given: &'static str,
    reports: &'static str,
}

/// What is new is counted alone, also of the inputs; all else is of the whole history.
static CASES: [Case; 6] = [
    Case {
        source: COUNTER,
        log: TICKED,
        turns: 1,
        script: &[],
        given: "0 tick(5); 0 tick(6); 1 reset; 0 tick(5), state(6), done after 4",
        reports: "1 committed, 0 idle, 0 stale, TurnsDone; 0 committed, 1 idle, 0 stale, TurnsDone",
    },
    Case {
        source: COUNTER,
        log: TICKED,
        turns: 2,
        script: &["reset"],
        given: "0 tick(5); 0 tick(6); 1 reset; 0 tick(5); 1 reset; 0 tick(5), state(6), done after 6",
        reports: "2 committed, 0 idle, 0 stale, TurnsDone; 1 committed, 1 idle, 0 stale, TurnsDone",
    },
    Case {
        source: COUNTER,
        log: TICKED,
        turns: 0,
        script: &["reset"],
        given: "0 tick(5); 0 tick(6); 1 reset, state(5), done after 3",
        reports: "0 committed, 0 idle, 0 stale, TurnsDone; 0 committed, 0 idle, 0 stale, TurnsDone",
    },
    Case {
        source: COUNTER,
        log: EMPTY,
        turns: 2,
        script: &["reset"],
        given: "0 tick(5); 1 reset; 0 tick(5), state(6), done after 3",
        reports: "2 committed, 0 idle, 0 stale, TurnsDone; 1 committed, 1 idle, 0 stale, TurnsDone",
    },
    Case {
        source: PUTS,
        log: "{\"act\":\"put(1)\",\"who\":1}\n{\"end\":\"done after 1\"}",
        turns: 1,
        script: &[],
        given: "1 put(1); 0 put(0); 1 put(1), state(1), state(2), state(1), done after 3",
        reports: "1 committed, 0 idle, 0 stale, TurnsDone; 1 committed, 0 idle, 0 stale, TurnsDone; 0 committed, 1 idle, 0 stale, TurnsDone; 0 committed, 1 idle, 0 stale, TurnsDone",
    },
    Case {
        source: NEARLY,
        log: "{\"act\":\"tick(9223372036854775806)\",\"who\":0}\n{\"end\":\"done after 1\"}",
        turns: 2,
        script: &[],
        given: "0 tick(9223372036854775806); 0 tick(9223372036854775807), state(9223372036854775807), fault 1 in component 0 at 1",
        reports: "0 committed, 0 idle, 0 stale, Faulted; 0 committed, 2 idle, 0 stale, TurnsDone",
    },
];

/// A source, a log, turns and a script, and why no run goes on from there.
type Refused = (
    &'static str,
    &'static str,
    u64,
    &'static [&'static str],
    RunErr,
);

/// Turns come first, then inputs, then a fault at the log's end, then its entries, and last its count.
static REFUSED: [Refused; 17] = [
    (COUNTER, ANOTHERS, 1, &[], RunErr::BadLog(0)),
    (COUNTER, MISCOUNTED, 1, &[], RunErr::BadLog(3)),
    (COUNTER, BOTH, 1, &[], RunErr::BadLog(0)),
    (FULL, FAULTED, 1, &[], RunErr::EndedByFault),
    (COUNTER, ELSEWHERE, 1, &[], RunErr::EndedByFault),
    (COUNTER, BARE, 1, &[], RunErr::EndedByFault),
    (
        COUNTER,
        "{\"act\":\"tick(5)\",\"who\":0}\n{\"act\":\"tick(5)\",\"who\":0}\n{\"end\":\"done after 2\"}",
        1,
        &[],
        RunErr::BadLog(1),
    ),
    (
        COUNTER,
        "{\"act\":\"tick(5)\",\"who\":0}\n{\"act\":\"reset\",\"who\":0}\n{\"end\":\"done after 2\"}",
        1,
        &[],
        RunErr::BadLog(1),
    ),
    (
        COUNTER,
        "{\"act\":\"tock\",\"who\":1}\n{\"end\":\"done after 1\"}",
        1,
        &[],
        RunErr::BadLog(0),
    ),
    (
        FULL,
        "{\"act\":\"tick(9223372036854775807)\",\"who\":0}\n{\"end\":\"done after 1\"}",
        1,
        &[],
        RunErr::BadLog(0),
    ),
    (
        FULL,
        "{\"act\":\"tick(9223372036854775807)\",\"who\":0}\n{\"end\":\"done after 0\"}",
        1,
        &[],
        RunErr::BadLog(0),
    ),
    (
        COUNTER,
        "{\"end\":\"done after 1\"}",
        1,
        &[],
        RunErr::BadLog(0),
    ),
    (COUNTER, TICKED, 100_001, &[], RunErr::TooManyTurns),
    (
        COUNTER,
        FAULTED,
        100_001,
        &["tick(5)"],
        RunErr::TooManyTurns,
    ),
    (
        COUNTER,
        TICKED,
        1,
        &["reset", "tick(5)"],
        RunErr::BadInput(1),
    ),
    (COUNTER, FAULTED, 1, &["tick(5)"], RunErr::BadInput(0)),
    (
        COUNTER,
        BOTH,
        100_000,
        &["reset", "tick(5)"],
        RunErr::BadInput(1),
    ),
];

/// A source of words for each of the program's components.
pub fn seeded(rt: &impl Abort, alloc: Global, program: &Program) -> Vec<Seeded>
    ensures { length result.items ≡ length program.now.members }
{
    let mut sources = Vec::new(alloc);
    for who in 0..program.members().len() {
        let words = Seeded::new([0; 32], who as u64);
        sources.push(words).got(rt);
    }
    sources
}

/// The run on one thread that goes on from the log.
fn alone(rt: &impl Abort, alloc: Global, setting: &Setting, turns: u64) -> Result<Outcome, RunErr> {
    let words = seeded(rt, alloc, &setting.program);
    let Setting {
        program,
        log,
        script,
    } = setting;
    resume_alone(
        alloc,
        program,
        log,
        turns,
        words,
        script,
        &mut Vec::new(alloc),
    )
}

/// The run on threads that goes on from the log.
fn on_threads<H: Abort + Threads + Wait + Sync>(
    rt: &H,
    alloc: Global,
    setting: &Setting,
    turns: u64,
) -> Result<Outcome, RunErr> {
    let words = seeded(rt, alloc, &setting.program);
    let Setting {
        program,
        log,
        script,
    } = setting;
    resume_threads(
        rt,
        alloc,
        program,
        log,
        turns,
        words,
        script,
        &OpenGate,
        &mut Vec::new(alloc),
    )
}

/// The log of what a run gives.
pub fn log_of(outcome: Outcome) -> Log {
    Log {
        entries: outcome.log,
        end: outcome.end,
    }
}

/// The run goes on from the log, gives this, and its whole log is accepted.
fn expect_case(rt: &impl Abort, alloc: Global, case: &Case) {
    let setting = set_up(rt, alloc, case.source, case.log, case.script);
    let outcome = alone(rt, alloc, &setting, case.turns).expect(rt, "a run");
    expect_told(
        rt,
        alloc,
        &setting.program,
        &outcome,
        case.given,
        case.reports,
    );
    replay(alloc, &setting.program, &log_of(outcome)).expect(rt, "a log of the program");
}

#[test]
fn runs_go_on_from_logs(rt: HostRuntime) {
    for case in &CASES {
        expect_case(&rt, rt.alloc(), case);
    }
}

/// This is told of the run, and of its workers.
fn expect_told(
    rt: &impl Abort,
    alloc: Global,
    program: &Program,
    outcome: &Outcome,
    given: &str,
    reports: &str,
) {
    let told = told_outcome(rt, alloc, program.types(), outcome);
    expect_text(rt, told.as_str(), given);
    let told = told_reports(rt, alloc, &outcome.reports);
    expect_text(rt, told.as_str(), reports);
}

/// Whether no run goes on from there for this reason, alone or on threads.
fn is_refused<H: Abort + Threads + Wait + Sync>(rt: &H, alloc: Global, row: &Refused) -> bool {
    let setting = set_up(rt, alloc, row.0, row.1, row.3);
    alone(rt, alloc, &setting, row.2).err() == Some(row.4)
        && on_threads(rt, alloc, &setting, row.2).err() == Some(row.4)
}

#[test]
fn other_logs_are_refused(rt: HostRuntime) {
    for row in &REFUSED {
        expect_so(&rt, is_refused(&rt, rt.alloc(), row), row.1);
    }
}

/// The run of a turn that goes on from the log, alone or on threads.
fn gone_on<H: Abort + Threads + Wait + Sync>(
    rt: &H,
    alloc: Global,
    setting: &Setting,
    is_alone: bool,
) -> Outcome {
    let answer = if is_alone {
        alone(rt, alloc, setting, 1)
    } else {
        on_threads(rt, alloc, setting, 1)
    };
    answer.expect(rt, "a run")
}

/// What is told of the workers of a run in which the counter ticked once.
const ONE_TICK: &str =
    "1 committed, 0 idle, 0 stale, TurnsDone; 0 committed, 1 idle, 0 stale, TurnsDone";

/// How what is told of a run ends that goes on for a tick.
static TICKS: [&str; 10] = [
    "state(6), done after 1",
    "state(7), done after 2",
    "state(8), done after 3",
    "state(9), done after 4",
    "state(10), done after 5",
    "state(11), done after 6",
    "state(12), done after 7",
    "state(13), done after 8",
    "state(14), done after 9",
    "state(15), done after 10",
];

/// Whether the counter ticked once more, and what is told of the run ends so.
fn has_ticked(
    rt: &impl Abort,
    alloc: Global,
    program: &Program,
    outcome: &Outcome,
    wanted: &str,
) -> bool {
    let given = told_outcome(rt, alloc, program.types(), outcome);
    let reports = told_reports(rt, alloc, &outcome.reports);
    given.as_str().ends_with(wanted) && reports.as_str() == ONE_TICK
}

/// Goes on ten times for a turn, alone and on threads in turn.
#[test]
fn a_run_goes_on_ten_times(rt: HostRuntime) {
    let alloc = rt.alloc();
    let mut setting = set_up(&rt, alloc, COUNTER, EMPTY, &[]);
    for (turn, wanted) in TICKS.iter().enumerate() {
        let outcome = gone_on(&rt, alloc, &setting, turn % 2 == 0);
        expect_so(
            &rt,
            has_ticked(&rt, alloc, &setting.program, &outcome, wanted),
            wanted,
        );
        setting.log = log_of(outcome);
    }
}

/// The first two entries.
fn first_two<'a>(rt: &impl Abort, entries: &'a [LogEntry]) -> &'a [LogEntry] {
    assert!(rt; entries.len() > 2);
    &entries[..2]
}

/// Whether the room is of the program without inputs, for a turn of each worker, and of these entries before it.
fn is_behind(room: &Room<'_>, program: &Program, entries: &[LogEntry]) -> bool {
    room.is_of(program, &[], 1, entries)
}

/// A board that goes on from the log has its history, and no fault.
fn expect_board(rt: &impl Abort, alloc: Global, setting: &Setting) {
    let board = Board::resume(alloc, &setting.program, &setting.log).expect(rt, "a board");
    assert!(rt; board.history().len() == 3 && board.recorded().is_none());
}

/// A room that goes on from the log is behind its entries, and behind no others; one that begins is behind none.
fn expect_rooms(rt: &impl Abort, alloc: Global, setting: &Setting, other: &Log) {
    let Setting { program, log, .. } = setting;
    let entries = log.entries.as_slice();
    let room = Room::resume(alloc, program, log, &[], 1).expect(rt, "a room");
    let fresh = Room::start(alloc, program, &[], 1).got(rt);
    assert!(rt;
        is_behind(&room, program, entries)
            && !is_behind(&room, program, first_two(rt, entries))
            && !is_behind(&room, program, &other.entries)
            && !is_behind(&room, program, &[])
            && is_behind(&fresh, program, &[])
            && !is_behind(&fresh, program, entries)
    );
}

/// A room knows what was done before it.
#[test]
fn a_room_goes_on_from_a_log(rt: HostRuntime) {
    let alloc = rt.alloc();
    let setting = set_up(&rt, alloc, COUNTER, TICKED, &[]);
    let other = made::log(&rt, alloc, setting.program.types(), ANOTHERS);
    expect_board(&rt, alloc, &setting);
    expect_rooms(&rt, alloc, &setting, &other);
}

/// The actions of the log.
fn actions(rt: &impl Abort, alloc: Global, entries: &[LogEntry]) -> Vec<Action> {
    let mut actions = Vec::new(alloc);
    for entry in entries {
        let action = entry.action.try_copy(alloc).got(rt);
        actions.push(action).got(rt);
    }
    actions
}

/// Stenning's protocol goes on, and the whole log is accepted.
#[test]
fn the_protocol_goes_on(rt: HostRuntime) {
    let alloc = rt.alloc();
    let mut setting = of_library(&rt, alloc, "Stenning");
    setting.log = first_log(&rt, alloc, &setting);
    let whole = second_log(&rt, alloc, &setting);
    replay(alloc, &setting.program, &whole).expect(&rt, "a log of the program");
    expect_accepted(&rt, alloc, &whole);
}

/// The library's reliable channel accepts the log's actions.
fn expect_accepted(rt: &impl Abort, alloc: Global, log: &Log) {
    let fifo = of_library(rt, alloc, "ReliableFifo");
    let actions = actions(rt, alloc, &log.entries);
    monitor(alloc, &fifo.program, &actions).expect(rt, "an accepted log");
}

/// The log of a run on threads.
fn first_log<H: Abort + Threads + Wait + Sync>(rt: &H, alloc: Global, setting: &Setting) -> Log {
    let program = &setting.program;
    let words = seeded(rt, alloc, program);
    let answer = run_threads(
        rt,
        alloc,
        program,
        200,
        words,
        &[],
        &OpenGate,
        &mut Vec::new(alloc),
    );
    log_of(answer.expect(rt, "a run"))
}

/// The log of a run on threads that goes on, and has more entries.
fn second_log<H: Abort + Threads + Wait + Sync>(rt: &H, alloc: Global, setting: &Setting) -> Log {
    let whole = log_of(on_threads(rt, alloc, setting, 50).expect(rt, "a run"));
    assert!(rt; whole.entries.len() > setting.log.entries.len());
    whole
}

/// Without actions before it a run goes on as it begins.
#[test]
fn a_run_goes_on_from_nothing(rt: HostRuntime) {
    let alloc = rt.alloc();
    let setting = of_library(&rt, alloc, "AltBit");
    let program = &setting.program;
    let words = seeded(&rt, alloc, program);
    let answer = run_alone(alloc, program, 100, words, &[], &mut Vec::new(alloc));
    let first = answer.expect(&rt, "a run");
    let given = told_outcome(&rt, alloc, program.types(), &first);
    let reports = told_reports(&rt, alloc, &first.reports);
    let second = alone(&rt, alloc, &setting, 100).expect(&rt, "a run");
    expect_told(
        &rt,
        alloc,
        program,
        &second,
        given.as_str(),
        reports.as_str(),
    );
}
