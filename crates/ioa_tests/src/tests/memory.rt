//! Memory that is refused: each request of each call in turn, until the call has all that it asks for. Where one is refused, the answer is
//! the call's want of memory, and what was lent is as it was; where none is, the answer is the one that the call has with ample memory.

mod boards;
mod hoard;
mod lent;
mod runs;
mod sources;
mod steps;
mod texts;

use crate::tests::code::SEQUENCES;
use crate::tests::made::{self, Got, Setting};
use crate::tests::memory::hoard::{Hoard, STEP, Spare};
use crate::tests::memory::lent::is_setting;
use crate::tests::memory::sources::THROWS;
use crate::tests::objects::SUMS;
use crate::tests::resumed::TICKED;
use ioa_rows::{COUNTER, GAME};
use ioa_run::RunErr;
use std::alloc::Global;
use std::process::Abort;
use std::sync::Wait;
use std::thread::Threads;

/// What came of a call that had so much memory.
#[derive(Clone, Copy, Debug)]
enum Came {
    /// Memory was refused, and what was lent is as it was; of a run, in which a worker lacked memory, its log is accepted.
    Wanting,
    /// A run did not begin, for this, and what was lent is as it was.
    Unbegun(RunErr),
    /// It answered as it does with ample memory, and what was lent is as it was.
    Answered,
    /// None of these.
    Wrong,
}

impl Came {
    /// The same, where it is so.
    fn and(self, is_so: bool) -> Came {
        if is_so { self } else { Came::Wrong }
    }
}

/// Whether a call was refused memory; of runs, whether a worker was in its turn, or the run before the start, or a thread.
#[derive(Clone, Copy)]
struct Refusals {
    wanting: bool,
    unbegun: bool,
    threadless: bool,
}

impl Refusals {
    const NONE: Refusals = Refusals {
        wanting: false,
        unbegun: false,
        threadless: false,
    };

    /// One more.
    fn with(self, came: Came) -> Refusals {
        match came {
            Came::Wanting => Refusals {
                wanting: true,
                ..self
            },
            Came::Unbegun(RunErr::OutOfMemory) => Refusals {
                unbegun: true,
                ..self
            },
            _ => Refusals {
                threadless: true,
                ..self
            },
        }
    }

    /// Whether the call was refused memory in each way in which it may be. Of a run on threads either a thread was refused or a worker in its turn:
    /// a thread may find its memory where one before it had its own.
    fn are_those_of(self, way: &Way) -> bool {
        match way {
            Way::Alone => self.wanting && self.unbegun && !self.threadless,
            Way::Threads => self.unbegun && (self.threadless || self.wanting),
            Way::Plain | Way::Reading => self.wanting && !self.unbegun && !self.threadless,
        }
    }
}

/// A public call that takes memory and a program.
enum Call {
    Verify,
    Propose,
    Step,
    StepByLoop,
    RunList,
    Replay,
    Monitor,
    Make,
    Commit,
    Event,
    Resume,
    ResumeRoom,
    RunAlone,
    ResumeAlone,
    RunThreads,
    ResumeThreads,
    WriteObject,
    WriteLog,
    ReadLog,
    ReplayList,
    ReplayLog,
    LogList,
    MonitorLog,
}

/// One that takes no program.
enum Lone {
    Parse,
    Check,
    Compose,
    Compile,
    Enabled,
    Effect,
    Invariants,
    ReadObject,
    InspectLog,
}

/// A call, with the source of the program that it takes, and the log and the actions that it may take.
enum What {
    Of(Call, &'static str, &'static str, &'static [&'static str]),
    Alone(Lone),
}

/// How a call wants memory: bit by bit; with a reader's piece at once; or as a run, alone or on threads.
enum Way {
    Plain,
    Reading,
    Alone,
    Threads,
}

/// The name of a call, how it wants memory, and the call.
type Row = (&'static str, Way, What);

/// A log of nothing, as it is written.
const NOTHING: &str = "{\"end\":\"done after 0\"}\n";

static SOURCES: [Row; 4] = [
    ("Parse", Way::Plain, What::Alone(Lone::Parse)),
    ("Check", Way::Plain, What::Alone(Lone::Check)),
    ("Compose", Way::Plain, What::Alone(Lone::Compose)),
    ("Compile", Way::Plain, What::Alone(Lone::Compile)),
];

static STEPS: [Row; 10] = [
    (
        "Verify",
        Way::Plain,
        What::Of(Call::Verify, SEQUENCES, NOTHING, &[]),
    ),
    ("Enabled", Way::Plain, What::Alone(Lone::Enabled)),
    ("Effect", Way::Plain, What::Alone(Lone::Effect)),
    (
        "Propose",
        Way::Plain,
        What::Of(Call::Propose, GAME, NOTHING, &[]),
    ),
    (
        "Step",
        Way::Plain,
        What::Of(Call::Step, GAME, NOTHING, &["roll(5)"]),
    ),
    (
        "StepByLoop",
        Way::Plain,
        What::Of(
            Call::StepByLoop,
            SUMS,
            NOTHING,
            &["put(2)", "put(5)", "fold"],
        ),
    ),
    (
        "RunList",
        Way::Plain,
        What::Of(
            Call::RunList,
            GAME,
            NOTHING,
            &["roll(5)", "down", "roll(1)"],
        ),
    ),
    (
        "Replay",
        Way::Plain,
        What::Of(Call::Replay, COUNTER, TICKED, &[]),
    ),
    (
        "Monitor",
        Way::Plain,
        What::Of(
            Call::Monitor,
            COUNTER,
            NOTHING,
            &["tick(5)", "other", "tick(7)"],
        ),
    ),
    ("Invariants", Way::Plain, What::Alone(Lone::Invariants)),
];

static BOARDS: [Row; 5] = [
    ("Make", Way::Plain, What::Of(Call::Make, GAME, NOTHING, &[])),
    (
        "Commit",
        Way::Plain,
        What::Of(Call::Commit, COUNTER, NOTHING, &[]),
    ),
    (
        "Event",
        Way::Plain,
        What::Of(Call::Event, COUNTER, NOTHING, &[]),
    ),
    (
        "Resume",
        Way::Plain,
        What::Of(Call::Resume, COUNTER, TICKED, &[]),
    ),
    (
        "ResumeRoom",
        Way::Plain,
        What::Of(Call::ResumeRoom, COUNTER, TICKED, &["reset"]),
    ),
];

static RUNS: [Row; 4] = [
    (
        "RunAlone",
        Way::Alone,
        What::Of(Call::RunAlone, COUNTER, NOTHING, &[]),
    ),
    (
        "ResumeAlone",
        Way::Alone,
        What::Of(Call::ResumeAlone, COUNTER, TICKED, &[]),
    ),
    (
        "RunThreads",
        Way::Threads,
        What::Of(Call::RunThreads, COUNTER, NOTHING, &[]),
    ),
    (
        "ResumeThreads",
        Way::Threads,
        What::Of(Call::ResumeThreads, COUNTER, TICKED, &[]),
    ),
];

static TEXTS: [Row; 9] = [
    (
        "WriteObject",
        Way::Plain,
        What::Of(Call::WriteObject, THROWS, NOTHING, &[]),
    ),
    ("ReadObject", Way::Plain, What::Alone(Lone::ReadObject)),
    (
        "WriteLog",
        Way::Plain,
        What::Of(Call::WriteLog, COUNTER, TICKED, &[]),
    ),
    (
        "ReadLog",
        Way::Reading,
        What::Of(Call::ReadLog, COUNTER, NOTHING, &[]),
    ),
    (
        "ReplayList",
        Way::Reading,
        What::Of(Call::ReplayList, COUNTER, NOTHING, &[]),
    ),
    (
        "ReplayLog",
        Way::Reading,
        What::Of(Call::ReplayLog, COUNTER, NOTHING, &[]),
    ),
    (
        "LogList",
        Way::Reading,
        What::Of(Call::LogList, COUNTER, NOTHING, &[]),
    ),
    (
        "MonitorLog",
        Way::Reading,
        What::Of(Call::MonitorLog, COUNTER, NOTHING, &[]),
    ),
    ("InspectLog", Way::Reading, What::Alone(Lone::InspectLog)),
];

/// How much there is for what a test makes before a call and looks at after it.
const AMPLE: usize = 1 << 30;

/// How often a call is made at the most, each time with a step more.
const MOST: usize = 20_000;

/// A reader's piece, which a call that reads wants at once.
const PIECE: usize = 65_536;

/// A run on threads has with each turn so much of what it has more, once this is more than a step: its worker wants some bytes, a thread some megabytes.
const PART: usize = 32;

/// How much the call is left in its so many-th turn: first nothing, and then, if it reads, what its reader takes and more.
fn left(way: &Way, turn: usize) -> Spare {
    let steps = turn.saturating_mul(STEP);
    match way {
        Way::Threads => Spare::Bytes(grown(turn)),
        Way::Reading if turn > 0 => Spare::Bytes(steps.saturating_add(PIECE)),
        _ => Spare::Bytes(steps),
    }
}

/// A step more with each turn, and later a part of it.
fn grown(turn: usize) -> usize {
    let mut size: usize = 0;
    for _ in 0..turn {
        let part = size / PART;
        size = size.saturating_add(if part > STEP { part } else { STEP });
    }
    size
}

/// All memory but this.
fn all_but(rt: &impl Abort, alloc: Global, spare: Spare) -> Hoard {
    Hoard::all_but(alloc, spare).got(rt)
}

/// What comes of the call with so much memory. What it is lent stays.
fn called<H: Abort + Threads + Wait + Sync>(
    rt: &H,
    alloc: Global,
    what: &What,
    spare: Spare,
) -> Came {
    match what {
        What::Of(call, source, log, texts) => {
            let setting = made::set_up(rt, alloc, source, log, texts);
            let came = called_on(rt, alloc, call, &setting, spare);
            came.and(is_setting(rt, alloc, &setting, source, log, texts))
        }
        What::Alone(call) => called_alone(rt, alloc, call, spare),
    }
}

/// The same of a call that takes no program.
fn called_alone(rt: &impl Abort, alloc: Global, call: &Lone, spare: Spare) -> Came {
    match call {
        Lone::Parse => sources::parsed(rt, alloc, spare),
        Lone::Check => sources::checked(rt, alloc, spare),
        Lone::Compose => sources::composed(rt, alloc, spare),
        Lone::Compile => sources::compiled(rt, alloc, spare),
        Lone::Enabled => steps::enabled(rt, alloc, spare),
        Lone::Effect => steps::effect(rt, alloc, spare),
        Lone::Invariants => steps::asked(rt, alloc, spare),
        Lone::ReadObject => texts::object_read(rt, alloc, spare),
        Lone::InspectLog => texts::log_inspected(rt, alloc, spare),
    }
}

/// The same of one that takes a program.
fn called_on<H: Abort + Threads + Wait + Sync>(
    rt: &H,
    alloc: Global,
    call: &Call,
    lent: &Setting,
    spare: Spare,
) -> Came {
    match call {
        Call::Verify => steps::verified(rt, alloc, lent, spare),
        Call::Propose => steps::proposed(rt, alloc, lent, spare),
        Call::Step => steps::stepped(rt, alloc, lent, &steps::ROLLED, spare),
        Call::StepByLoop => steps::stepped(rt, alloc, lent, &steps::FOLDED, spare),
        Call::RunList => steps::run(rt, alloc, lent, spare),
        Call::Replay => steps::replayed(rt, alloc, lent, spare),
        Call::Monitor => steps::monitored(rt, alloc, lent, spare),
        Call::Make => boards::made(rt, alloc, lent, spare),
        Call::Commit => boards::committed(rt, alloc, lent, spare),
        Call::Event => boards::answered(rt, alloc, lent, spare),
        Call::Resume => boards::resumed(rt, alloc, lent, spare),
        Call::ResumeRoom => boards::room_resumed(rt, alloc, lent, spare),
        Call::RunAlone => runs::alone(rt, alloc, lent, spare),
        Call::ResumeAlone => runs::resumed_alone(rt, alloc, lent, spare),
        Call::RunThreads => runs::on_threads(rt, alloc, lent, spare),
        Call::ResumeThreads => runs::resumed_on_threads(rt, alloc, lent, spare),
        Call::WriteObject => texts::object_written(rt, alloc, lent, spare),
        Call::WriteLog => texts::log_written(rt, alloc, lent, spare),
        Call::ReadLog => texts::log_read(rt, alloc, lent, spare),
        Call::ReplayList => texts::list_replayed(rt, alloc, lent, spare),
        Call::ReplayLog => texts::log_replayed(rt, alloc, lent, spare),
        Call::LogList => texts::list_logged(rt, alloc, lent, spare),
        Call::MonitorLog => texts::log_monitored(rt, alloc, lent, spare),
    }
}

/// The call is refused memory at least once, in each way in which it may be, and answers in the end.
fn expect_answer<H: Abort + Threads + Wait + Sync>(rt: &H, alloc: Global, row: &Row) {
    let (name, way, what) = row;
    let mut refusals = Refusals::NONE;
    for turn in 0..MOST {
        let came = called(rt, alloc, what, left(way, turn));
        let is_over = matches!(came, Came::Answered);
        let is_right = match came {
            Came::Answered => refusals.are_those_of(way),
            Came::Wrong => false,
            _ => true,
        };
        assert!(rt; is_right, "{name}, in turn {turn}");
        if is_over {
            return;
        }
        refusals = refusals.with(came);
    }
    panic!(rt; "{name} is refused memory each time");
}

/// The same of each of the calls, while all is held but what the tests work with: so a hoard takes little time.
fn expect_answers<H: Abort + Threads + Wait + Sync>(rt: &H, alloc: Global, rows: &[Row]) {
    let held = all_but(rt, alloc, Spare::Bytes(AMPLE));
    for row in rows {
        expect_answer(rt, alloc, row);
    }
    drop(held);
}

#[test]
fn sources_are_refused_memory(rt: HostRuntime) {
    expect_answers(&rt, rt.alloc(), &SOURCES);
}

#[test]
fn steps_are_refused_memory(rt: HostRuntime) {
    expect_answers(&rt, rt.alloc(), &STEPS);
}

#[test]
fn boards_are_refused_memory(rt: HostRuntime) {
    expect_answers(&rt, rt.alloc(), &BOARDS);
}

#[test]
fn runs_are_refused_memory(rt: HostRuntime) {
    expect_answers(&rt, rt.alloc(), &RUNS);
}

#[test]
fn texts_are_refused_memory(rt: HostRuntime) {
    expect_answers(&rt, rt.alloc(), &TEXTS);
}

/// Each of the calls answers with all the memory that there is.
fn expect_ample<H: Abort + Threads + Wait + Sync>(rt: &H, alloc: Global, rows: &[Row]) {
    for (name, _, what) in rows {
        let came = called(rt, alloc, what, Spare::All);
        assert!(rt; matches!(came, Came::Answered), "{name}: {came:?}");
    }
}

/// With all the memory that there is each call answers. `tools/refused_calls` refuses it a request, or all from one on, and reads what is told here.
#[test]
fn calls_answer(rt: HostRuntime) {
    let alloc = rt.alloc();
    expect_ample(&rt, alloc, &SOURCES);
    expect_ample(&rt, alloc, &STEPS);
    expect_ample(&rt, alloc, &BOARDS);
    expect_ample(&rt, alloc, &RUNS);
    expect_ample(&rt, alloc, &TEXTS);
}
