//! Objects, logs and lists that are written and read with little memory.

use crate::tests::made::{self, Got, Setting};
use crate::tests::memory::hoard::Spare;
use crate::tests::memory::lent::{is_log, is_program};
use crate::tests::memory::sources::THROWS;
use crate::tests::memory::steps::{BROKEN, bounded, is_bounded, refused};
use crate::tests::memory::{Came, all_but};
use crate::tests::resumed::TICKED;
use ioa_device::{Counted, LogErr};
use ioa_inspect::{LogInspection, inspect_log, monitor_log};
use ioa_loader::read_object;
use ioa_log::{log_list, write_log};
use ioa_monitor::hides_actions;
use ioa_object::{ObjErr, write_object};
use ioa_replay::{read_log, replay_list, replay_log};
use ioa_system::End;
use std::alloc::Global;
use std::process::Abort;

/// A writer has room for so many bytes, so that it fails for no want of memory of its own.
const ROOM: usize = 4096;

/// The object of the throws.
fn object(rt: &impl Abort, alloc: Global) -> Vec<u8> {
    let program = made::program(rt, alloc, THROWS, None);
    write_object(alloc, &program).got(rt)
}

pub fn object_written(rt: &impl Abort, alloc: Global, lent: &Setting, spare: Spare) -> Came {
    let hoard = all_but(rt, alloc, spare);
    let answer = write_object(alloc, &lent.program);
    drop(hoard);
    match answer {
        Ok(bytes) => Came::Answered.and(is_object(rt, alloc, &bytes)),
        Err(_) => Came::Wanting,
    }
}

fn is_object(rt: &impl Abort, alloc: Global, bytes: &[u8]) -> bool {
    object(rt, alloc).as_slice() == bytes
}

pub fn object_read(rt: &impl Abort, alloc: Global, spare: Spare) -> Came {
    let bytes = object(rt, alloc);
    let hoard = all_but(rt, alloc, spare);
    let answer = read_object(alloc, &bytes);
    drop(hoard);
    let came = match answer {
        Ok(program) => Came::Answered.and(is_program(rt, alloc, &program, THROWS)),
        Err(ObjErr::OutOfMemory) => Came::Wanting,
        Err(_) => Came::Wrong,
    };
    came.and(is_object(rt, alloc, &bytes))
}

/// A writer with nothing in it yet.
fn writer(rt: &impl Abort, alloc: Global) -> Counted<Vec<u8>> {
    Counted::new(Vec::with_capacity(alloc, ROOM).got(rt))
}

/// What came of a call that answers so with ample memory, and writes this, and else nothing.
fn judged(output: Counted<Vec<u8>>, answer: Result<End, LogErr>, wanted: (End, &str)) -> Came {
    let written = output.into_inner();
    match answer {
        Ok(end) => Came::Answered.and(end == wanted.0 && written.as_slice() == wanted.1.as_bytes()),
        Err(error) => refused(error).and(written.is_empty()),
    }
}

pub fn log_written(rt: &impl Abort, alloc: Global, lent: &Setting, spare: Spare) -> Came {
    let mut output = writer(rt, alloc);
    let hoard = all_but(rt, alloc, spare);
    let answer = write_log(alloc, lent.program.types(), &lent.log, &mut output);
    drop(hoard);
    let written = output.into_inner();
    match answer {
        Ok(()) => Came::Answered.and(written.as_slice() == TICKED.as_bytes()),
        Err(error) => refused(error).and(written.is_empty()),
    }
}

pub fn log_read(rt: &impl Abort, alloc: Global, lent: &Setting, spare: Spare) -> Came {
    let types = lent.program.types();
    let mut input = Counted::new(TICKED.as_bytes());
    let hoard = all_but(rt, alloc, spare);
    let answer = read_log(alloc, types, &mut input);
    drop(hoard);
    match answer {
        Ok(log) => Came::Answered.and(is_log(rt, alloc, types, &log, TICKED)),
        Err(error) => refused(error),
    }
}

/// A list, and what is written of its run.
const LIST: &str = "tick(5)\ntick(6)\nreset\ntick(6)\n";

const REPLAYED: &str = "tick(5)\ntick(6)\nreset\nend: not enabled at 3\n";

pub fn list_replayed(rt: &impl Abort, alloc: Global, lent: &Setting, spare: Spare) -> Came {
    let mut input = Counted::new(LIST.as_bytes());
    let mut output = writer(rt, alloc);
    let hoard = all_but(rt, alloc, spare);
    let answer = replay_list(alloc, &lent.program, &mut input, &mut output);
    drop(hoard);
    judged(output, answer, (End::NotEnabled(3), REPLAYED))
}

/// What is written of the run that the log tells.
const TRACE: &str = "tick(5)\ntick(6)\nreset\nend: done after 3\n";

pub fn log_replayed(rt: &impl Abort, alloc: Global, lent: &Setting, spare: Spare) -> Came {
    let mut input = Counted::new(TICKED.as_bytes());
    let mut output = writer(rt, alloc);
    let hoard = all_but(rt, alloc, spare);
    let answer = replay_log(alloc, &lent.program, &mut input, &mut output);
    drop(hoard);
    judged(output, answer, (End::Done(3), TRACE))
}

/// The list whose log is read elsewhere, and an action that is not enabled.
const LOGGED: &str = "tick(5)\ntick(6)\nreset\ntick(6)\n";

pub fn list_logged(rt: &impl Abort, alloc: Global, lent: &Setting, spare: Spare) -> Came {
    let mut input = Counted::new(LOGGED.as_bytes());
    let mut output = writer(rt, alloc);
    let hoard = all_but(rt, alloc, spare);
    let answer = log_list(alloc, &lent.program, &mut input, &mut output);
    drop(hoard);
    judged(output, answer, (End::NotEnabled(3), TICKED))
}

/// A log that the counter accepts as a specification, less its last action.
const UNACCEPTED: &str =
    "{\"act\":\"tick(5)\",\"who\":0}\n{\"act\":\"tock\",\"who\":3}\n{\"act\":\"tick(7)\",\"who\":0}\n{\"end\":\"done after 3\"}\n";

pub fn log_monitored(rt: &impl Abort, alloc: Global, lent: &Setting, spare: Spare) -> Came {
    let mut input = Counted::new(UNACCEPTED.as_bytes());
    if hides_actions(&lent.program) {
        return Came::Wrong;
    }
    let hoard = all_but(rt, alloc, spare);
    let answer = monitor_log(alloc, &lent.program, &mut input);
    drop(hoard);
    match answer {
        Ok(answer) => Came::Answered.and(answer == Some(End::NotEnabled(2))),
        Err(error) => refused(error),
    }
}

pub fn log_inspected(rt: &impl Abort, alloc: Global, spare: Spare) -> Came {
    let composition = bounded(rt, alloc);
    let mut input = Counted::new(TICKED.as_bytes());
    let hoard = all_but(rt, alloc, spare);
    let answer = inspect_log(alloc, &composition, &mut input);
    drop(hoard);
    let came = match answer {
        Ok(found) => Came::Answered.and(is_found(&found)),
        Err(error) => refused(error),
    };
    came.and(is_bounded(rt, alloc, &composition))
}

fn is_found(found: &LogInspection) -> bool {
    found.broken == Some(BROKEN)
        && found.replayed.end == End::Done(3)
        && found.replayed.text.as_str() == TRACE
}
