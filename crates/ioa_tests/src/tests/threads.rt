//! Runs on threads, whose workers are held at stops of their turns.

ghost use Rattle.std.specs.Prelude.{◌≡◌, length};

use crate::tests::made::{EMPTY, Got, Setting, expect_so, expect_text, set_up};
use crate::tests::reached::{PUTS, TWO};
use crate::tests::resumed::log_of;
use crate::tests::rooms::told_outcome;
use ioa_compile::Program;
use ioa_node::Words;
use ioa_replay::replay;
use ioa_rows::{COUNTER, text};
use ioa_run::{Gate, Outcome, Point, Report, RunErr, Why, run_alone, run_threads};
use ioa_system::LogEntry;
use std::alloc::{AllocError, Global};
use std::fmt::Write;
use std::process::Abort;
use std::sync::{Condvar, Mutex, Wait};
use std::thread::Threads;
use std::time::{Clock, Duration};

/// Where a worker may be held.
#[derive(Clone, Copy, PartialEq, Eq)]
enum Stop {
    /// At a point of its turns, to which it came so often before.
    At(usize, usize, Point),
    /// As it asks for its word of this number, from 0.
    Word(usize, usize),
    /// As it gives up its words: it takes no more turns.
    Gone(usize),
}

/// Who comes to the first stop waits there until somebody has come to the second one.
type Hold = (Stop, Stop);

/// No worker waits longer, and the test fails.
const SECONDS: u64 = 10;

/// The stops that were reached, and whether somebody has waited too long.
#[derive(Drop)]
struct Reached {
    stops: Vec<Stop>,
    is_late: bool,
}

/// What holds the workers of a run.
#[derive(Drop)]
struct Course<'a, R> {
    rt: &'a R,
    holds: &'a [Hold],
    reached: Mutex<Reached>,
    changed: Condvar,
}

impl<'a, R> Course<'a, R> {
    /// One on which nobody has come to a stop yet.
    fn new(rt: &'a R, alloc: Global, holds: &'a [Hold]) -> Course<'a, R> {
        Course {
            rt,
            holds,
            reached: Mutex::new(Reached {
                stops: Vec::new(alloc),
                is_late: false,
            }),
            changed: Condvar::new(),
        }
    }

    /// The stops in order, where somebody was held at each one where that is wanted, and nobody too long.
    fn kept(self) -> Option<Vec<Stop>> {
        let Reached { stops, is_late } = self.reached.into_inner();
        if !is_late && were_held(&stops, self.holds) {
            Some(stops)
        } else {
            None
        }
    }
}

/// Whether somebody came to each stop at which one is to be held.
fn were_held(stops: &[Stop], holds: &[Hold]) -> bool {
    for (held, _) in holds {
        if !stops.contains(held) {
            return false;
        }
    }
    true
}

impl<R: Wait + Clock> Course<'_, R> {
    /// Tells that a worker has come to this stop, and holds it there.
    fn stop(&self, stop: Stop) {
        self.tell(stop);
        for (held, until) in self.holds {
            if *held == stop {
                self.wait(*until);
            }
        }
    }

    fn tell(&self, stop: Stop) {
        let mut reached = self.reached.lock(self.rt);
        if reached.stops.push(stop).is_err() {
            reached.is_late = true;
        }
        self.changed.notify_all();
    }

    fn wait(&self, until: Stop) {
        let (mut reached, waited) = self.changed.wait_timeout_while(
            self.rt,
            self.reached.lock(self.rt),
            Duration::from_secs(SECONDS),
            |reached| !reached.is_late && !reached.stops.contains(&until),
        );
        if waited.timed_out() {
            reached.is_late = true;
        }
    }
}

impl<R: Wait> Course<'_, R> {
    /// How often the worker came to the point.
    fn times(&self, who: usize, at: Point) -> usize {
        let reached = self.reached.lock(self.rt);
        times(&reached.stops, who, at)
    }
}

impl<R: Wait + Clock> Gate for Course<'_, R> {
    fn reach(&self, who: usize, at: Point) {
        self.stop(Stop::At(who, self.times(who, at), at));
    }
}

/// How often the worker of this number came to the point, by these stops.
fn times(stops: &[Stop], who: usize, at: Point) -> usize {
    let mut count: usize = 0;
    for stop in stops {
        if point_of(*stop, who) == Some(at) {
            count = count.saturating_add(1);
        }
    }
    count
}

/// The point at which the stop is, where it is this worker's.
fn point_of(stop: Stop, who: usize) -> Option<Point> {
    match stop {
        Stop::At(worker, _, point) if worker == who => Some(point),
        _ => None,
    }
}

/// A worker's words, at each of which it may be held; after those that are given they are 0.
struct Asked<'a, R: Wait + Clock> {
    words: &'a [u32],
    who: usize,
    number: usize,
    course: &'a Course<'a, R>,
}

impl<R: Wait + Clock> Drop for Asked<'_, R> {
    fn drop(self) {
        let Asked {
            words: _,
            who,
            number: _,
            course,
        } = self;
        course.stop(Stop::Gone(who));
    }
}

impl<R: Wait + Clock> Words for Asked<'_, R> {
    ghost use Rattle.std.specs.Prelude.{get_or};

    ghost stream = { λ s k. get_or s.words.now k 0 };

    fn next(&mut self) -> u32 {
        self.course.stop(Stop::Word(self.who, self.number));
        self.number = self.number.saturating_add(1);
        match self.words.split_first() {
            Some((first, rest)) => {
                self.words = rest;
                *first
            }
            None => 0,
        }
    }
}

/// A run on threads: a source, how many turns each worker has, the components' words, the script, and the holds; of what it may give the
/// logs, each with the states and the end, and the reports, where they are few; and each worker's points, in order.
struct Case {
    source: &'static str,
    turns: u64,
    words: &'static [&'static [u32]],
    script: &'static [&'static str],
    holds: &'static [Hold],
    logs: &'static [&'static str],
    reports: &'static [&'static str],
    points: &'static [&'static str],
}

const SOLO: &str = "
automaton Go signature output go states n: Int transitions output go eff n := n + 1
composition Solo components G: Go";

/// A host that sums up a sequence each time that it tells the sum before.
const FOLD: &str = "
type S = seq 4 of Int
automaton Fold(t: S) signature output tell(k: Int) states stable s: S := t; n: Int
transitions output tell pre k = n propose k := n eff n := 0; for y in s do n := n + y od
composition One components A: Fold(append(append(empty(S), 2), 5)) crash down recover up";

static CASES: [Case; 8] = [
    Case {
        source: SOLO,
        turns: 100,
        words: &[],
        script: &[],
        holds: &[],
        logs: &["0 go&; 0 go@99&, state(100), done after 100"],
        reports: &[
            "100 committed, 0 idle, 0 stale, TurnsDone; 0 committed, 100 idle, 0 stale, TurnsDone",
        ],
        points: &["Turn Planned Committed @100&; &Turn Idle @100"],
    },
    Case {
        source: SOLO,
        turns: 0,
        words: &[],
        script: &[],
        holds: &[],
        logs: &[", state(0), done after 0"],
        reports: &[
            "0 committed, 0 idle, 0 stale, TurnsDone; 0 committed, 0 idle, 0 stale, TurnsDone",
        ],
        points: &["; "],
    },
    // the second plan is committed before the first one, which is stale then; the next ones come one after the other
    Case {
        source: PUTS,
        turns: 2,
        words: &[],
        script: &[],
        holds: &[
            (Stop::At(1, 0, Point::Turn), Stop::At(0, 0, Point::Planned)),
            (
                Stop::At(0, 0, Point::Planned),
                Stop::At(1, 0, Point::Committed),
            ),
            (
                Stop::At(1, 1, Point::Turn),
                Stop::At(0, 0, Point::Committed),
            ),
        ],
        logs: &["1 put(1); 0 put(0); 1 put(1), state(1), state(2), state(1), done after 3"],
        reports: &[
            "1 committed, 0 idle, 1 stale, TurnsDone; 2 committed, 0 idle, 0 stale, TurnsDone; \
            0 committed, 2 idle, 0 stale, TurnsDone; 0 committed, 2 idle, 0 stale, TurnsDone",
        ],
        points: &[
            "Turn Planned Stale Turn Planned Committed ; Turn Planned Committed Turn Planned Committed ; Turn Idle Turn Idle ; Turn Idle Turn Idle ",
        ],
    },
    // who faults takes no more turns
    Case {
        source: TWO,
        turns: 2,
        words: &[],
        script: &[],
        holds: &[],
        logs: &[
            "0 go, state(0), state(S[], 0), state(9223372036854775807), fault 4 in component 1 at 0",
        ],
        reports: &[
            "0 committed, 0 idle, 0 stale, Faulted; 0 committed, 2 idle, 0 stale, TurnsDone; \
            0 committed, 2 idle, 0 stale, TurnsDone; 0 committed, 2 idle, 0 stale, TurnsDone",
        ],
        points: &[
            "Turn Planned ; Turn Idle Turn Idle ; Turn Idle Turn Idle ; Turn Idle Turn Idle ",
        ],
    },
    // nor does who would commit after another's fault
    Case {
        source: "
automaton Full signature output up states n: Int := 9223372036854775807 transitions output up eff n := n + 1
automaton Go signature output go states n: Int transitions output go eff n := n + 1
composition Both components F: Full; G: Go",
        turns: 2,
        words: &[],
        script: &[],
        holds: &[(Stop::At(1, 0, Point::Planned), Stop::Gone(0))],
        logs: &["0 up, state(9223372036854775807), state(0), fault 1 in component 0 at 0"],
        reports: &[
            "0 committed, 0 idle, 0 stale, Faulted; 0 committed, 0 idle, 0 stale, Stopped; 0 committed, 2 idle, 0 stale, TurnsDone",
        ],
        points: &["Turn Planned ; Turn Planned ; Turn Idle Turn Idle "],
    },
    Case {
        source: COUNTER,
        turns: 50,
        words: &[],
        script: &["reset", "reset", "reset"],
        holds: &[],
        logs: &[],
        reports: &[],
        points: &[],
    },
    // a crash after two loops, and one more loop after the host has recovered
    Case {
        source: FOLD,
        turns: 3,
        words: &[],
        script: &["down", "up"],
        holds: &[
            (
                Stop::At(1, 0, Point::Turn),
                Stop::At(0, 1, Point::Committed),
            ),
            (
                Stop::At(0, 2, Point::Turn),
                Stop::At(1, 1, Point::Committed),
            ),
        ],
        logs: &[
            "0 tell(0); 0 tell(7); 1 down; 1 up; 0 tell(0), state(S[2, 5], 7, true), done after 5",
        ],
        reports: &[
            "3 committed, 0 idle, 0 stale, TurnsDone; 2 committed, 1 idle, 0 stale, TurnsDone",
        ],
        points: &[],
    },
    Case {
        source: FOLD,
        turns: 50,
        words: &[],
        script: &["down", "up", "down", "down", "up", "up"],
        holds: &[],
        logs: &[],
        reports: &[],
        points: &[],
    },
];

/// What is told of runs that could not begin, which the program does not print.
static REFUSALS: [(RunErr, &str); 6] = [
    (RunErr::TooManyTurns, "too many turns"),
    (RunErr::BadInput(2), "action 2 of the script is no input"),
    (
        RunErr::Threads,
        "a thread was refused, or ended without a word",
    ),
    (RunErr::BadLog(3), "entry 3 of the log is not the run's"),
    (RunErr::EndedByFault, "the log ends by a fault"),
    (RunErr::OutOfMemory, "memory"),
];

/// Each worker has a plan before either one is committed.
static OVERLAP: Case = Case {
    source: "
automaton Go signature output go states n: Int transitions output go eff n := n + 1
automaton Go2 signature output go2 states n: Int transitions output go2 eff n := n + 1
composition Both components G: Go; H: Go2",
    turns: 1,
    words: &[],
    script: &[],
    holds: &[
        (
            Stop::At(0, 0, Point::Planned),
            Stop::At(1, 0, Point::Planned),
        ),
        (
            Stop::At(1, 0, Point::Planned),
            Stop::At(0, 0, Point::Planned),
        ),
    ],
    logs: &[
        "0 go; 1 go2, state(1), state(1), done after 2",
        "1 go2; 0 go, state(1), state(1), done after 2",
    ],
    reports: &[
        "1 committed, 0 idle, 0 stale, TurnsDone; 1 committed, 0 idle, 0 stale, TurnsDone; 0 committed, 1 idle, 0 stale, TurnsDone",
    ],
    points: &["Turn Planned Committed ; Turn Planned Committed ; Turn Idle "],
};

const DICE: &str = "
automaton Dice(n: Int) signature output roll(d: Int) states k: Int transitions output roll pre k < 2 propose d := any(n) eff k := k + 1
automaton Go signature output go states n: Int transitions output go eff n := n + 1
composition Both components D: Dice(6); G: Go";

/// While the first worker waits for a word, the second one takes its turn. The first word picks an entry, and the second one a value.
static UNLOCKED: [Case; 2] = [
    Case {
        source: DICE,
        turns: 1,
        words: &[&[9, 17, 4]],
        script: &[],
        holds: &[
            (Stop::At(1, 0, Point::Turn), Stop::Word(0, 0)),
            (Stop::Word(0, 0), Stop::At(1, 0, Point::Committed)),
        ],
        logs: &["1 go; 0 roll(5), state(1), state(1), done after 2"],
        reports: &[
            "1 committed, 0 idle, 0 stale, TurnsDone; 1 committed, 0 idle, 0 stale, TurnsDone; 0 committed, 1 idle, 0 stale, TurnsDone",
        ],
        points: &["Turn Planned Committed ; Turn Planned Committed ; Turn Idle "],
    },
    Case {
        source: DICE,
        turns: 1,
        words: &[&[9, 17, 4]],
        script: &[],
        holds: &[
            (Stop::At(1, 0, Point::Turn), Stop::Word(0, 1)),
            (Stop::Word(0, 1), Stop::At(1, 0, Point::Committed)),
        ],
        logs: &["1 go; 0 roll(5), state(1), state(1), done after 2"],
        reports: &[
            "1 committed, 0 idle, 0 stale, TurnsDone; 1 committed, 0 idle, 0 stale, TurnsDone; 0 committed, 1 idle, 0 stale, TurnsDone",
        ],
        points: &["Turn Planned Committed ; Turn Planned Committed ; Turn Idle "],
    },
];

/// The environment pokes a component that has taken its last word, which then plans by its state as it is now: the roll that it has proposed
/// is no longer enabled, or still is.
static POKED: [Case; 2] = [
    Case {
        source: "
automaton Dice(n: Int) signature output roll(d: Int); input poke states k: Int
transitions output roll pre k < 2 propose d := any(n) eff k := k + 1 input poke eff k := k + 10
composition One components D: Dice(6)",
        turns: 1,
        words: &[&[9, 17, 4]],
        script: &["poke"],
        holds: &[
            (Stop::At(1, 0, Point::Turn), Stop::Word(0, 1)),
            (Stop::Word(0, 1), Stop::At(1, 0, Point::Committed)),
        ],
        logs: &["1 poke, state(10), done after 1"],
        reports: &[
            "0 committed, 1 idle, 0 stale, TurnsDone; 1 committed, 0 idle, 0 stale, TurnsDone",
        ],
        points: &["Turn Idle ; Turn Planned Committed "],
    },
    Case {
        source: "
automaton Dice(n: Int) signature output roll(d: Int); input poke states k: Int
transitions output roll pre k < 2 propose d := any(n) eff k := k + 1 input poke eff k := k - 10
composition One components D: Dice(6)",
        turns: 2,
        words: &[&[9, 17, 4]],
        script: &["poke"],
        holds: &[
            (Stop::At(1, 0, Point::Turn), Stop::Word(0, 1)),
            (Stop::Word(0, 1), Stop::At(1, 0, Point::Committed)),
        ],
        logs: &["1 poke; 0 roll(5); 0 roll(0), state(-8), done after 3"],
        reports: &[
            "2 committed, 0 idle, 0 stale, TurnsDone; 1 committed, 1 idle, 0 stale, TurnsDone",
        ],
        points: &[
            "Turn Planned Committed Turn Planned Committed ; Turn Planned Committed Turn Idle ",
        ],
    },
];

static KEPT: Case = Case {
    source: "
automaton Keep signature input roll(d: Int); output tell(s: Int); internal clear states sum: Int
transitions input roll eff sum := sum + d output tell pre s = sum propose s := sum internal clear pre sum > 0 eff sum := 0
composition Kept components K: Keep",
    turns: 3,
    words: &[&[1, 2, 0]],
    script: &[],
    holds: &[],
    logs: &["0 tell(0); 0 tell(0), state(0), done after 2"],
    reports: &["2 committed, 1 idle, 0 stale, TurnsDone; 0 committed, 3 idle, 0 stale, TurnsDone"],
    points: &[
        "Turn Idle Turn Planned Committed Turn Planned Committed ; Turn Idle Turn Idle Turn Idle ",
    ],
};

/// A source of words for each of the program's components.
fn sources<'a, R: Abort + Wait + Clock>(
    rt: &R,
    alloc: Global,
    program: &Program,
    case: &Case,
    course: &'a Course<'a, R>,
) -> Vec<Asked<'a, R>>
    ensures { length result.items ≡ length program.now.members }
{
    let mut sources = Vec::new(alloc);
    for who in 0..program.members().len() {
        let words = case.words.get(who).copied().unwrap_or(&[]);
        let source = Asked {
            words,
            who,
            number: 0,
            course,
        };
        sources.push(source).got(rt);
    }
    sources
}

/// What the run on threads gives, unless somebody is held too long.
fn ran<R: Abort + Threads + Wait + Clock + Sync>(
    rt: &R,
    alloc: Global,
    setting: &Setting,
    case: &Case,
) -> Outcome {
    let Setting {
        program,
        script,
        ..
    } = setting;
    let course = Course::new(rt, alloc, case.holds);
    let words = sources(rt, alloc, program, case, &course);
    let answer = run_threads(
        rt,
        alloc,
        program,
        case.turns,
        words,
        script,
        &course,
        &mut Vec::new(alloc),
    );
    let outcome = answer.got(rt);
    let stops = course
        .kept()
        .expect(rt, "each worker is held, and none too long");
    expect_points(rt, alloc, case, &outcome.reports, &stops);
    outcome
}

/// Compares the points to which the workers came with what is wanted, and with what their reports count.
fn expect_points(rt: &impl Abort, alloc: Global, case: &Case, reports: &[Report], stops: &[Stop]) {
    let points = told_points(rt, alloc, reports.len(), stops);
    expect_one_of(rt, alloc, points.as_str(), case.points);
    for (who, report) in reports.iter().enumerate() {
        expect_so(rt, ends_as_counted(stops, who, report), points.as_str());
    }
}

/// Whether so many turns of the worker ended at each point as its report counts.
fn ends_as_counted(stops: &[Stop], who: usize, report: &Report) -> bool {
    times(stops, who, Point::Committed) == report.committed
        && times(stops, who, Point::Stale) as u64 == report.stale
        && times(stops, who, Point::Idle) as u64 == report.idle
}

/// The points of each of so many workers, in order.
fn told_points(rt: &impl Abort, alloc: Global, workers: usize, stops: &[Stop]) -> String {
    let mut text = String::new(alloc);
    for who in 0..workers {
        if who > 0 {
            text.push_str("; ").got(rt);
        }
        push_points(rt, &mut text, who, stops);
    }
    text
}

fn push_points(rt: &impl Abort, text: &mut String, who: usize, stops: &[Stop]) {
    for stop in stops {
        if let Some(point) = point_of(*stop, who) {
            write!(text, "{point:?} ").got(rt);
        }
    }
}

/// What the run on one thread gives.
fn ran_alone<R: Abort + Wait + Clock>(
    rt: &R,
    alloc: Global,
    setting: &Setting,
    case: &Case,
) -> Outcome {
    let course = Course::new(rt, alloc, case.holds);
    let Setting {
        program,
        script,
        ..
    } = setting;
    let words = sources(rt, alloc, program, case, &course);
    let answer = run_alone(
        alloc,
        program,
        case.turns,
        words,
        script,
        &mut Vec::new(alloc),
    );
    answer.got(rt)
}

pub fn told_reports(rt: &impl Abort, alloc: Global, reports: &[Report]) -> String {
    let mut text = String::new(alloc);
    for report in reports {
        if !text.is_empty() {
            text.push_str("; ").got(rt);
        }
        push_report(&mut text, report).got(rt);
    }
    text
}

fn push_report(text: &mut String, report: &Report) -> Result<(), AllocError> {
    let Report {
        committed,
        idle,
        stale,
        why,
    } = report;
    write!(
        text,
        "{committed} committed, {idle} idle, {stale} stale, {why:?}"
    )
}

/// How many of the entries are the worker's of this number.
fn performed_by(entries: &[LogEntry], who: usize) -> usize {
    let mut count: usize = 0;
    for entry in entries {
        if entry.who == who {
            count = count.saturating_add(1);
        }
    }
    count
}

/// Whether the worker of this number did what its report counts, and has taken all turns if it says so.
fn is_counted(outcome: &Outcome, turns: u64, who: usize, report: &Report) -> bool {
    let performed = performed_by(&outcome.log, who);
    let taken = report.idle.saturating_add(report.stale);
    match report.why {
        Why::TurnsDone => {
            performed == report.committed && taken.saturating_add(performed as u64) == turns
        }
        Why::Faulted => performed == report.committed.saturating_add(1),
        Why::Stopped | Why::Memory => performed == report.committed,
    }
}

/// Whether each worker did what its report counts, and has taken all turns if it says so.
fn are_counted(outcome: &Outcome, turns: u64) -> bool {
    for (who, report) in outcome.reports.iter().enumerate() {
        if !is_counted(outcome, turns, who, report) {
            return false;
        }
    }
    true
}

/// What is told is one of the texts that are wanted, if there are some.
fn expect_one_of(rt: &impl Abort, alloc: Global, told: &str, wanted: &[&str]) {
    let mut is_so = wanted.is_empty();
    for pieces in wanted {
        if text(alloc, pieces).expect(rt, "pieces").as_str() == told {
            is_so = true;
        }
    }
    expect_so(rt, is_so, told);
}

/// Compares what a run gives with what is wanted, and replays its log.
fn expect_outcome(
    rt: &impl Abort,
    alloc: Global,
    program: &Program,
    case: &Case,
    outcome: Outcome,
) {
    let log = told_outcome(rt, alloc, program.types(), &outcome);
    expect_one_of(rt, alloc, log.as_str(), case.logs);
    let reports = told_reports(rt, alloc, &outcome.reports);
    expect_one_of(rt, alloc, reports.as_str(), case.reports);
    expect_so(rt, are_counted(&outcome, case.turns), reports.as_str());
    replay(alloc, program, &log_of(outcome)).expect(rt, "a log of the program");
}

/// Runs on threads, and compares what the run gives with what is wanted.
fn expect_case<R: Abort + Threads + Wait + Clock + Sync>(rt: &R, alloc: Global, case: &Case) {
    let setting = set_up(rt, alloc, case.source, EMPTY, case.script);
    let outcome = ran(rt, alloc, &setting, case);
    expect_outcome(rt, alloc, &setting.program, case, outcome);
}

fn expect_cases<R: Abort + Threads + Wait + Clock + Sync>(rt: &R, alloc: Global, cases: &[Case]) {
    for case in cases {
        expect_case(rt, alloc, case);
    }
}

#[test]
fn threads_give_what_is_wanted(rt: HostRuntime) {
    let alloc = rt.alloc();
    expect_cases(&rt, alloc, &CASES);
    for (error, text) in &REFUSALS {
        let told = format!(in alloc; "{error}").got(&rt);
        expect_text(&rt, told.as_str(), text);
    }
}

#[test]
fn two_workers_overlap(rt: HostRuntime) {
    expect_case(&rt, rt.alloc(), &OVERLAP);
}

#[test]
fn words_unlocked(rt: HostRuntime) {
    let alloc = rt.alloc();
    expect_cases(&rt, alloc, &UNLOCKED);
    expect_cases(&rt, alloc, &POKED);
}

#[test]
fn one_worker_exact(rt: HostRuntime) {
    let alloc = rt.alloc();
    expect_case(&rt, alloc, &KEPT);
    let setting = set_up(&rt, alloc, KEPT.source, EMPTY, KEPT.script);
    let outcome = ran_alone(&rt, alloc, &setting, &KEPT);
    expect_outcome(&rt, alloc, &setting.program, &KEPT, outcome);
}
