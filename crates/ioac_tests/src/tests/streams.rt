//! Devices that fail at any of their calls, or are full.

use crate::tests::shelf::{COUNTER, Given, REPLAY, Ran, run_on};
use ioa_device::{Counted, Device};
use ioa_rows::{Dripping, KINDS, Slow};
use ioac::{Status, Tee};
use std::alloc::Global;
use std::io::ErrorKind;
use std::process::Abort;
use std::sync::Wait;
use std::thread::Threads;
use std::time::Clock;

const LIST: &str = "tick(5)\ntick(6)\nreset\n";

const LOG: &str = "{\"act\":\"tick(5)\",\"who\":0}\n{\"act\":\"tick(6)\",\"who\":0}\n\
    {\"act\":\"reset\",\"who\":1}\n{\"end\":\"done after 3\"}\n";

/// A counter whose invariant the log's run breaks.
const BOUNDED: &str = "automaton Counter signature output tick(k: Int); input reset \
    states c: Int := 5 transitions output tick pre k = c propose k := c eff c := c + 1 \
    input reset eff c := 5 composition One components A: Counter invariant of Counter: c < 7";

/// How a device fails: a call that is interrupted is made again elsewhere.
const INTERRUPTED: ErrorKind = ErrorKind::Interrupted;

/// What is printed of the list, and of its log.
const PRINTED: &str = "tick(5)\ntick(6)\nreset\nend: done after 3\n";

/// The same with the state in which it ends.
const REACHED: &str = "tick(5)\ntick(6)\nreset\nend: done after 3\nA.c = 5\n";

/// Of a run by each of two seeds.
const SEEDED: &str = "\
0000000000000000000000000000000000000000000000000000000000000008 end: done after 1
0000000000000000000000000000000000000000000000000000000000000009 end: done after 1
seeds 2; done 2; fault 0
";

/// The log as a chart.
const CHART: &str =
    "sequenceDiagram\n  participant P0 as A\n  participant P1 as environment\n  Note over P0: tick(5)\n  Note over P0: tick(6)\n  P1->>P0: reset\n";

const GRAPH: &str =
    "digraph \"One\" {\n  node [shape=box];\n  P0 [label=\"A\"];\n  P1 [label=\"environment\", shape=ellipse];\n  P0 -> P1 [label=\"tick\"];\n  P1 -> P0 [label=\"reset\"];\n}\n";

/// A source that is well formed.
const SMALL: &str = "automaton A signature input a transitions input a";

/// An object of 39 bytes, and its dump.
const OBJECT: &str =
    "\x7fIOA\x01\0\0\x01X\x01\0\x01A\0\0\x01\0\x01\x02go\0\0\x01\0\0\0\x01\x01\0\x01\0\0\0\0\0\0\0\0";

const DUMP: &str =
    "composition X\ncomponent 0 A\n  output go\n    constant 0: Bool (true)\n    precondition\n      0 Const 0: Bool (true)\n    proposals\n    effect\n";

/// The words, a file, and what stands on standard input, which is read where there is something; what is printed, and the exit status.
static GIVEN: [(&str, &str, &str, &str, Status); 23] = [
    (REPLAY, COUNTER, LIST, PRINTED, Status::Done),
    ("replay f --states", COUNTER, LIST, REACHED, Status::Done),
    (
        "replay f --log --states",
        COUNTER,
        LOG,
        REACHED,
        Status::Done,
    ),
    ("replay f --log", COUNTER, LOG, PRINTED, Status::Done),
    (
        "replay f --log --invariants",
        COUNTER,
        LOG,
        PRINTED,
        Status::Done,
    ),
    (
        "replay f --log --invariants",
        BOUNDED,
        LOG,
        "invariant 0 of component 0 broken after 2\n",
        Status::NotAccepted,
    ),
    ("log f", COUNTER, LIST, LOG, Status::Done),
    ("log f --log", COUNTER, LOG, LOG, Status::Done),
    ("replay f --until 9", COUNTER, LIST, PRINTED, Status::Done),
    ("log f --log --until 9", COUNTER, LOG, LOG, Status::Done),
    ("monitor f", COUNTER, LOG, "monitor: ok\n", Status::Done),
    (
        "watch f --comp One",
        COUNTER,
        LOG,
        "One: ok\n",
        Status::Done,
    ),
    ("chart f", COUNTER, LOG, CHART, Status::Done),
    ("graph f", COUNTER, "", GRAPH, Status::Done),
    ("dump f", OBJECT, "", DUMP, Status::Done),
    ("check f", SMALL, "", "ok\n", Status::Done),
    ("compile f o", COUNTER, "", "ok\n", Status::Done),
    ("--version", SMALL, "", "ioac 0.2.0\n", Status::Done),
    (
        "run f --alone --turns 2",
        COUNTER,
        "",
        "tick(5)\ntick(6)\nend: done after 2\n",
        Status::Done,
    ),
    (
        "run f --alone --turns 1 --log",
        COUNTER,
        "",
        "{\"act\":\"tick(5)\",\"who\":0}\n{\"end\":\"done after 1\"}\n",
        Status::Done,
    ),
    (
        "run f --alone --turns 1 --seeds 8..9",
        COUNTER,
        "",
        SEEDED,
        Status::Done,
    ),
    (
        "run f --turns 1",
        COUNTER,
        "",
        "tick(5)\nend: done after 1\n",
        Status::Done,
    ),
    (
        "run f --turns 1 --log",
        COUNTER,
        "",
        "{\"act\":\"tick(5)\",\"who\":0}\n{\"end\":\"done after 1\"}\n",
        Status::Done,
    ),
];

/// Replays what is given on a device that fails after so many calls, and the answer is printed on one that takes so many;
/// with how many calls failed.
fn replayed<H: Abort + Threads + Wait + Clock + Sync>(
    rt: &H,
    alloc: Global,
    given: &Given<'_>,
    kind: ErrorKind,
    reads: u64,
    writes: u64,
) -> (Ran, u64) {
    let mut input = Tee::new(Counted::new(Dripping {
        bytes: given.list.as_bytes(),
        left: reads,
        kind,
    }));
    let mut output = Counted::new(Slow {
        held: Vec::new(alloc),
        left: writes,
        kind,
    });
    let mut errors = Counted::new(Vec::new(alloc));
    let (status, saved) = run_on(rt, alloc, given, &mut input, &mut output, &mut errors);
    let failures = input.failures().saturating_add(output.failures());
    let ran = Ran {
        output: output.into_inner().held,
        errors: errors.into_inner(),
        status,
        saved,
    };
    (ran, failures)
}

#[test]
fn fails_with_its_devices(rt: HostRuntime) {
    for (words, file, list, printed, status) in &GIVEN {
        let given = Given {
            words: *words,
            file: file.as_bytes(),
            list: *list,
        };
        expect_failures(&rt, rt.alloc(), &given, printed.as_bytes(), INTERRUPTED);
        expect_success(&rt, rt.alloc(), &given, printed.as_bytes(), *status);
    }
}

/// The words, what stands on standard input, how many of its bytes are read where one is read a call, and what is printed.
const TAKEN: [(&str, &str, u64, &str); 4] = [
    (
        "replay f --until 2",
        LIST,
        16,
        "tick(5)\ntick(6)\nend: done after 2\n",
    ),
    ("replay f --until 0", LIST, 0, "end: done after 0\n"),
    (
        "replay f --log --until 1",
        LOG,
        27,
        "tick(5)\nend: done after 1\n",
    ),
    (
        "log f --log --until 0",
        LOG,
        1,
        "{\"end\":\"done after 0\"}\n",
    ),
];

/// A device that fails behind what is taken is not asked for more, but for whether a byte follows in a log.
#[test]
fn takes_no_more_than_is_asked_for(rt: HostRuntime) {
    for (words, list, reads, printed) in TAKEN {
        let given = Given {
            words,
            file: COUNTER.as_bytes(),
            list,
        };
        let calls = printed.len() as u64;
        let (ran, failures) = replayed(&rt, rt.alloc(), &given, INTERRUPTED, reads, calls);
        assert_eq!(rt; failures, 0);
        assert_eq!(rt; ran.status, Status::Done.number());
        assert!(rt; ran.output.as_slice() == printed.as_bytes());
    }
}

/// A failure of any kind is one: no call is made again, and none follows it.
#[test]
fn fails_in_each_way(rt: HostRuntime) {
    let given = Given {
        words: REPLAY,
        file: COUNTER.as_bytes(),
        list: "reset\n",
    };
    for kind in &KINDS {
        let printed = b"reset\nend: done after 1\n".as_slice();
        expect_failures(&rt, rt.alloc(), &given, printed, *kind);
    }
}

/// How many reads the input takes on a device that gives one byte a call: the end is one more read.
fn reads_of(given: &Given<'_>) -> u64 {
    match given.list.len() as u64 {
        0 => 0,
        bytes => bytes.saturating_add(1),
    }
}

/// Replays on devices that fail at each call in turn.
fn expect_failures<H: Abort + Threads + Wait + Clock + Sync>(
    rt: &H,
    alloc: Global,
    given: &Given<'_>,
    printed: &[u8],
    kind: ErrorKind,
) {
    let all = reads_of(given);
    let calls = printed.len() as u64;
    for reads in 0..all {
        let (ran, failures) = replayed(rt, alloc, given, kind, reads, calls);
        assert_failed(rt, &ran, failures);
        assert!(rt; ran.output.is_empty());
    }
    for writes in 0..calls {
        let (ran, failures) = replayed(rt, alloc, given, kind, all, writes);
        assert_failed(rt, &ran, failures);
        assert!(rt; ran.output.len() as u64 == writes);
        assert!(rt; printed.starts_with(ran.output.as_slice()));
    }
}

/// Replays on devices that do not fail.
fn expect_success<H: Abort + Threads + Wait + Clock + Sync>(
    rt: &H,
    alloc: Global,
    given: &Given<'_>,
    printed: &[u8],
    status: Status,
) {
    let calls = printed.len() as u64;
    let (ran, failures) = replayed(rt, alloc, given, INTERRUPTED, reads_of(given), calls);
    assert!(rt; ran.status == status.number());
    assert!(rt; failures == 0);
    assert!(rt; ran.output.as_slice() == printed);
    assert!(rt; ran.errors.is_empty());
}

fn assert_failed(rt: &impl Abort, ran: &Ran, failures: u64) {
    assert!(rt; ran.status == Status::Unable.number());
    assert!(rt; failures == 1);
    assert!(rt; ran.errors.as_slice() == b"L8\n".as_slice());
}

/// The words, a file, standard input, and what stands in the end in rooms of these lengths for what is printed and for what is told of
/// errors. They were zeros.
static ROOMS: [(&str, &str, &str, &[u8], &[u8]); 13] = [
    ("check f", SMALL, "", b"ok", b"L8\n\0"),
    ("compile f o", COUNTER, "", b"ok", b"L8\n\0"),
    ("dump f", OBJECT, "", b"comp", b"L8\n\0"),
    ("explain E1", SMALL, "", b"E1", b"L8\n\0"),
    ("library", SMALL, "", b"type", b"L8\n\0"),
    ("--version", SMALL, "", b"io", b"L8\n\0"),
    ("replay f", COUNTER, LIST, b"", b""),
    ("replay g", COUNTER, LIST, b"", b""),
    ("replay f --comp Nine", COUNTER, LIST, b"", b""),
    ("replay f --comp Nine --explain", COUNTER, LIST, b"", b""),
    ("replay f --invariants", COUNTER, LIST, b"", b""),
    ("--help", COUNTER, LIST, b"", b""),
    ("", COUNTER, LIST, b"", b""),
];

/// Whether the program fails where no more than this can be written, and no device of it twice.
fn fills<H: Abort + Threads + Wait + Clock + Sync>(
    rt: &H,
    alloc: Global,
    given: &Given<'_>,
    printed: &[u8],
    told: &[u8],
) -> bool {
    let mut output = vec![in alloc; 0u8; printed.len()].expect(rt, "memory");
    let mut errors = vec![in alloc; 0u8; told.len()].expect(rt, "memory");
    let mut writer = Counted::new(output.as_mut_slice());
    let mut teller = Counted::new(errors.as_mut_slice());
    let (status, _saved) = run_on(
        rt,
        alloc,
        given,
        &mut Tee::new(Counted::new(given.list.as_bytes())),
        &mut writer,
        &mut teller,
    );
    let is_once = writer.failures() <= 1 && teller.failures() <= 1;
    let is_full = output.as_slice() == printed && errors.as_slice() == told;
    is_full && is_once && status == Status::Unable.number()
}

#[test]
fn full_devices_fail(rt: HostRuntime) {
    for (words, file, list, printed, told) in &ROOMS {
        let given = Given {
            words: *words,
            file: file.as_bytes(),
            list: *list,
        };
        assert!(rt; fills(&rt, rt.alloc(), &given, printed, told), "{words}");
    }
}
