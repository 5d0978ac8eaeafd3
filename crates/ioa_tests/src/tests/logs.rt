//! Logs that are written as they are read, and devices that fail while lists and logs are read and written.

ghost use Rattle.std.specs.Prelude.{◌++◌, ◌∷◌, []};
ghost use Rattle.std.specs.Fmt.{decimal};
ghost use Rattle.std.specs.String.{string_bytes};

use crate::tests::made::{Got, Setting, basic, expect_so, expect_text, program, set_up};
use crate::tests::resumed::TICKED;
use ioa_compile::Program;
use ioa_device::{Counted, Device, LogErr, OutputDevice};
use ioa_inspect::{EntryWriter, monitor_log, write_entries};
use ioa_log::{log_list, write_log};
use ioa_monitor::hides_actions;
use ioa_replay::{read_log, replay_list, replay_log};
use ioa_rows::{COUNTER, Dripping, KINDS, Slow};
use ioa_system::End;
use ioa_value::{Action, OutOfMemory};
use std::alloc::Global;
use std::fmt::Write;
use std::io::ErrorKind;
use std::process::Abort;

/// A text of a log, and the text as it is written.
static WRITTEN: [(&str, &str); 4] = [
    ("{\"end\":\"done after 0\"}", "{\"end\":\"done after 0\"}\n"),
    (
        "{\"act\":\"tick(5)\",\"who\":0}\n{\"act\":\"reset\",\"who\":1}\n{\"end\":\"done after 2\"}\n",
        "{\"act\":\"tick(5)\",\"who\":0}\n{\"act\":\"reset\",\"who\":1}\n{\"end\":\"done after 2\"}\n",
    ),
    (
        " { \"who\" : 12, \"act\" : \"put( -007,true )\" }\n{\"end\":\"done after 1\"}",
        "{\"act\":\"put(-7, true)\",\"who\":12}\n{\"end\":\"done after 1\"}\n",
    ),
    (
        "{\"act\":\"up\",\"who\":0}\n{\"end\":\"fault 1 in component 2 at 0\"}\n",
        "{\"act\":\"up\",\"who\":0}\n{\"end\":\"fault 1 in component 2 at 0\"}\n",
    ),
];

// The log as it is written.
fn written(rt: &impl Abort, alloc: Global, text: &str) -> Vec<u8> {
    let types = basic(rt, alloc);
    let mut input = Counted::new(text.as_bytes());
    let log = read_log(alloc, &types, &mut input).expect(rt, "a log");
    let mut output = Counted::new(Vec::new(alloc));
    write_log(alloc, &types, &log, &mut output).got(rt);
    output.into_inner()
}

#[test]
fn writes_logs(rt: HostRuntime) {
    for (text, wanted) in &WRITTEN {
        let written = written(&rt, rt.alloc(), text);
        expect_so(&rt, written.as_slice() == wanted.as_bytes(), text);
    }
}

/// The workers of a log's entries, one a line.
#[derive(Drop)]
struct Workers {
    text: String,
}

impl EntryWriter for Workers {
    ghost written = { λ w. string_bytes w.text };

    ghost lines_of = { λ _ e. decimal e.0 ++ 10 ∷ [] };

    fn put(&mut self, who: usize, _action: &Action) -> Result<(), OutOfMemory> {
        writeln!(self.text, "{who}")?;
        Ok(())
    }
}

#[test]
fn hands_on_entries(rt: HostRuntime) {
    let alloc = rt.alloc();
    let program = program(&rt, alloc, COUNTER, None);
    let mut input = Counted::new(TICKED.as_bytes());
    let mut workers = Workers {
        text: String::new(alloc),
    };
    let end = write_entries(alloc, &program, &mut input, &mut workers);
    assert!(rt; end == Ok(End::Done(3)));
    expect_text(&rt, workers.text.as_str(), "0\n0\n1\n");
}

/// A call that reads a list or a log, or writes one.
#[derive(Clone, Copy, Debug)]
enum Call {
    ReplayList,
    ReplayLog,
    LogList,
    Monitor,
    Entries,
    Read,
    Write,
}

/// A list, and what is printed of its replay, and of that of its log.
const LIST: &str = "tick(5)\ntick(6)\nreset\n";

const PRINTED: &str = "tick(5)\ntick(6)\nreset\nend: done after 3\n";

/// Calls, what they read, and what they write.
static CALLS: [(Call, &str, &str); 7] = [
    (Call::ReplayList, LIST, PRINTED),
    (Call::ReplayLog, TICKED, PRINTED),
    (Call::LogList, LIST, TICKED),
    (Call::Monitor, TICKED, ""),
    (Call::Entries, TICKED, ""),
    (Call::Read, TICKED, ""),
    (Call::Write, "", TICKED),
];

/// The same list and its log without their last LF: behind the last line a reader is asked for more once.
const OPEN_LIST: &str = "tick(5)\ntick(6)\nreset";

const OPEN_LOG: &str =
    "{\"act\":\"tick(5)\",\"who\":0}\n{\"act\":\"tick(6)\",\"who\":0}\n{\"act\":\"reset\",\"who\":1}\n{\"end\":\"done after 3\"}";

/// Calls that read these, and what they write.
static OPEN: [(Call, &str, &str); 6] = [
    (Call::ReplayList, OPEN_LIST, PRINTED),
    (Call::ReplayLog, OPEN_LOG, PRINTED),
    (Call::LogList, OPEN_LIST, TICKED),
    (Call::Monitor, OPEN_LOG, ""),
    (Call::Entries, OPEN_LOG, ""),
    (Call::Read, OPEN_LOG, ""),
];

/// Makes the call of the program, or of the log.
fn called<W: OutputDevice>(
    trial: Trial<'_>,
    input: &mut Counted<Dripping<'_>>,
    output: &mut W,
) -> Result<(), LogErr> {
    let alloc = trial.alloc;
    let Setting { program, log, .. } = trial.setting;
    match trial.call {
        Call::ReplayList => list_replayed(alloc, program, input, output),
        Call::ReplayLog => log_replayed(alloc, program, input, output),
        Call::LogList => list_logged(alloc, program, input, output),
        Call::Monitor => monitored(alloc, program, input),
        Call::Entries => entries_written(alloc, program, input),
        Call::Read => log_read(alloc, program, input),
        Call::Write => write_log(alloc, program.types(), log, output),
    }
}

// Each call stands alone: what its contract says is then no burden on the others.

fn list_replayed<W: OutputDevice>(
    alloc: Global,
    program: &Program,
    input: &mut Counted<Dripping<'_>>,
    output: &mut W,
) -> Result<(), LogErr> {
    match replay_list(alloc, program, input, output) {
        Ok(_) => Ok(()),
        Err(error) => Err(error),
    }
}

fn log_replayed<W: OutputDevice>(
    alloc: Global,
    program: &Program,
    input: &mut Counted<Dripping<'_>>,
    output: &mut W,
) -> Result<(), LogErr> {
    match replay_log(alloc, program, input, output) {
        Ok(_) => Ok(()),
        Err(error) => Err(error),
    }
}

fn list_logged<W: OutputDevice>(
    alloc: Global,
    program: &Program,
    input: &mut Counted<Dripping<'_>>,
    output: &mut W,
) -> Result<(), LogErr> {
    match log_list(alloc, program, input, output) {
        Ok(_) => Ok(()),
        Err(error) => Err(error),
    }
}

/// By a program that hides nothing: nothing is called of another one.
fn monitored(
    alloc: Global,
    program: &Program,
    input: &mut Counted<Dripping<'_>>,
) -> Result<(), LogErr> {
    if hides_actions(program) {
        return Ok(());
    }
    match monitor_log(alloc, program, input) {
        Ok(_) => Ok(()),
        Err(error) => Err(error),
    }
}

fn entries_written(
    alloc: Global,
    program: &Program,
    input: &mut Counted<Dripping<'_>>,
) -> Result<(), LogErr> {
    let mut workers = Workers {
        text: String::new(alloc),
    };
    match write_entries(alloc, program, input, &mut workers) {
        Ok(_) => Ok(()),
        Err(error) => Err(error),
    }
}

fn log_read(
    alloc: Global,
    program: &Program,
    input: &mut Counted<Dripping<'_>>,
) -> Result<(), LogErr> {
    match read_log(alloc, program.types(), input) {
        Ok(_) => Ok(()),
        Err(error) => Err(error),
    }
}

/// What comes of a call: its answer, how many calls of its reader failed and how many of its writer, and what is written.
#[derive(Drop)]
struct Ended {
    answer: Result<(), LogErr>,
    failures: (u64, u64),
    written: Vec<u8>,
}

/// A call of the program, or of the log, with what it reads and what it writes, on devices that fail in this way.
#[derive(Clone, Copy)]
struct Trial<'a> {
    alloc: Global,
    setting: &'a Setting,
    call: Call,
    given: &'a [u8],
    written: &'a [u8],
    kind: ErrorKind,
}

impl Trial<'_> {
    /// How often its reader is called: a device that is read to its end is asked once more.
    fn reads(&self) -> u64 {
        match self.given.len() as u64 {
            0 => 0,
            bytes => bytes.saturating_add(1),
        }
    }

    /// How often its writer is called.
    fn writes(&self) -> u64 {
        self.written.len() as u64
    }
}

/// A reader of what the call reads, which fails after so many calls.
fn reader<'a>(trial: Trial<'a>, left: u64) -> Counted<Dripping<'a>> {
    Counted::new(Dripping {
        bytes: trial.given,
        left,
        kind: trial.kind,
    })
}

/// What comes of the call on devices that take one byte a call, and fail after so many.
fn tried(trial: Trial<'_>, calls: (u64, u64)) -> Ended {
    let mut input = reader(trial, calls.0);
    let mut output = Counted::new(Slow {
        held: Vec::new(trial.alloc),
        left: calls.1,
        kind: trial.kind,
    });
    let answer = called(trial, &mut input, &mut output);
    Ended {
        answer,
        failures: (input.failures(), output.failures()),
        written: output.into_inner().held,
    }
}

/// Whether the call fails once where there is room for so many bytes, which are not enough, so that a write takes none.
fn fills(rt: &impl Abort, trial: Trial<'_>, room: usize) -> bool {
    let mut held = vec![in trial.alloc; 0u8; room].got(rt);
    let mut input = reader(trial, u64::MAX);
    let mut output = Counted::new(held.as_mut_slice());
    let answer = called(trial, &mut input, &mut output);
    answer == Err(LogErr::Io) && output.failures() == 1 && input.failures() == 0
}

/// Whether the call failed, with so many failures, and wrote so many bytes of what it writes.
fn is_failed(ended: &Ended, failures: (u64, u64), bytes: u64, whole: &[u8]) -> bool {
    ended.answer == Err(LogErr::Io)
        && ended.failures == failures
        && ended.written.len() as u64 == bytes
        && whole.starts_with(ended.written.as_slice())
}

/// The call fails after so many calls of its reader and of its writer, with so many failures of each, and has written so many bytes.
fn expect_failure(
    rt: &impl Abort,
    trial: Trial<'_>,
    calls: (u64, u64),
    failures: (u64, u64),
    bytes: u64,
) {
    let is_failed = is_failed(&tried(trial, calls), failures, bytes, trial.written);
    let (reads, writes) = calls;
    assert!(rt;
        is_failed,
        "{:?} after {reads} reads and {writes} writes",
        trial.call
    );
}

/// The call passes on devices that would fail at the next call, and no such call is made.
fn expect_enough(rt: &impl Abort, trial: Trial<'_>) {
    let ended = tried(trial, (trial.reads(), trial.writes()));
    let is_passed = ended.answer == Ok(())
        && ended.failures == (0, 0)
        && ended.written.as_slice() == trial.written;
    assert!(rt; is_passed, "{:?}", trial.call);
}

/// The call fails where a call of a device does, which is made once; what is written is then nothing, or what was taken before. On devices
/// that would fail at the next call it passes. Each of their calls fails in turn, or each sixteenth.
fn expect_failures(rt: &impl Abort, trial: Trial<'_>, is_each: bool) {
    for left in 0..trial.reads() {
        if is_each || left % 16 == 0 {
            expect_failure(rt, trial, (left, trial.writes()), (1, 0), 0);
        }
    }
    for left in 0..trial.writes() {
        if is_each || left % 16 == 0 {
            expect_failure(rt, trial, (trial.reads(), left), (0, 1), left);
        }
    }
    expect_enough(rt, trial);
}

/// The call fails where there is room for less than it writes.
fn expect_full(rt: &impl Abort, trial: Trial<'_>) {
    for room in 0..trial.written.len() {
        let is_full = fills(rt, trial, room);
        assert!(rt; is_full, "{:?} with {room} bytes of room", trial.call);
    }
}

/// The call on devices that fail in this way.
fn failing<'a>(
    alloc: Global,
    setting: &'a Setting,
    row: &(Call, &'static str, &'static str),
    kind: ErrorKind,
) -> Trial<'a> {
    let (call, given, written) = *row;
    Trial {
        alloc,
        setting,
        call,
        given: given.as_bytes(),
        written: written.as_bytes(),
        kind,
    }
}

/// The call fails with its devices, in whatever way they fail.
fn expect_kinds(
    rt: &impl Abort,
    alloc: Global,
    setting: &Setting,
    row: &(Call, &'static str, &'static str),
) {
    for kind in &KINDS {
        let is_each = *kind == ErrorKind::Interrupted;
        expect_failures(rt, failing(alloc, setting, row, *kind), is_each);
    }
}

#[test]
fn calls_fail_with_their_devices(rt: HostRuntime) {
    let alloc = rt.alloc();
    let setting = set_up(&rt, alloc, COUNTER, TICKED, &[]);
    for row in &CALLS {
        expect_full(&rt, failing(alloc, &setting, row, ErrorKind::Other));
        expect_kinds(&rt, alloc, &setting, row);
    }
}

#[test]
fn readers_are_asked_once_behind_their_end(rt: HostRuntime) {
    let alloc = rt.alloc();
    let setting = set_up(&rt, alloc, COUNTER, TICKED, &[]);
    for row in &OPEN {
        expect_enough(&rt, failing(alloc, &setting, row, ErrorKind::Other));
    }
}
