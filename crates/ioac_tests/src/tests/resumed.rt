//! Runs that go on from logs: what they print, in which order they are refused, and what `--explain` tells of it.

use crate::tests::runs::{FAULTY, Rack, run_by};
use crate::tests::shelf::{COUNTER, Ran, expect_answer, object, wanted_in};
use ioa_rows::{column, columns, is_row};
use ioac::explanation::Example;
use ioac::explanations::explanation;
use ioac::{Code, Status, Topic};
use std::alloc::Global;
use std::process::Abort;
use std::sync::Wait;
use std::thread::Threads;
use std::time::Clock;

/// The words after `run f`, the file of words `w`, the script `l`, the log `r`, what is printed, what is told of errors, and the exit status.
const COUNTS: &str = r#"
--alone --turns 1 --resume r |  |  | {"act":"tick(5)","who":0}^{"act":"tick(6)","who":0}^{"act":"reset","who":1}^{"end":"done after 3"}^ | tick(5)^tick(6)^reset^tick(5)^end: done after 4^ |  | 0
--turns 1 --resume r |  |  | {"act":"tick(5)","who":0}^{"act":"tick(6)","who":0}^{"act":"reset","who":1}^{"end":"done after 3"}^ | tick(5)^tick(6)^reset^tick(5)^end: done after 4^ |  | 0
--alone --turns 1 --resume r --reports |  |  | {"act":"tick(5)","who":0}^{"act":"tick(6)","who":0}^{"act":"reset","who":1}^{"end":"done after 3"}^ | tick(5)^tick(6)^reset^tick(5)^end: done after 4^ | A: 1 committed, 0 idle, 0 stale, turns done^environment: 0 committed, 1 idle, 0 stale, turns done^A: tick: 1 tried, 0 nothing proposed, 0 proposal faulted, 0 not enabled, 0 stale, 1 performed^ | 0
--alone --turns 1 --resume r --log |  |  | {"act":"tick(5)","who":0}^{"act":"tick(6)","who":0}^{"act":"reset","who":1}^{"end":"done after 3"}^ | {"act":"tick(5)","who":0}^{"act":"tick(6)","who":0}^{"act":"reset","who":1}^{"act":"tick(5)","who":0}^{"end":"done after 4"}^ |  | 0
--turns 1 --log --reports --resume r |  |  | {"act":"tick(5)","who":0}^{"act":"tick(6)","who":0}^{"act":"reset","who":1}^{"end":"done after 3"}^ | {"act":"tick(5)","who":0}^{"act":"tick(6)","who":0}^{"act":"reset","who":1}^{"act":"tick(5)","who":0}^{"end":"done after 4"}^ | A: 1 committed, 0 idle, 0 stale, turns done^environment: 0 committed, 1 idle, 0 stale, turns done^A: tick: 1 tried, 0 nothing proposed, 0 proposal faulted, 0 not enabled, 0 stale, 1 performed^ | 0
--alone --turns 0 --resume r |  |  | {"act":"tick(5)","who":0}^{"act":"tick(6)","who":0}^{"act":"reset","who":1}^{"end":"done after 3"}^ | tick(5)^tick(6)^reset^end: done after 3^ |  | 0
-- the last line without its LF, and another spelling
--alone --turns 1 --resume r |  |  | {"act":"tick(5)","who":0}^{"end":"done after 1"} | tick(5)^tick(6)^end: done after 2^ |  | 0
--alone --turns 1 --resume r |  |  | {"who":0,"act":"tick( 5 )"}^{"end":"done after 1"} | tick(5)^tick(6)^end: done after 2^ |  | 0
-- words, key and script begin anew
--alone --turns 2 --resume r --inputs l --reports |  | reset | {"act":"tick(5)","who":0}^{"act":"tick(6)","who":0}^{"act":"reset","who":1}^{"end":"done after 3"}^ | tick(5)^tick(6)^reset^tick(5)^reset^tick(5)^end: done after 6^ | A: 2 committed, 0 idle, 0 stale, turns done^environment: 1 committed, 1 idle, 0 stale, turns done^A: tick: 2 tried, 0 nothing proposed, 0 proposal faulted, 0 not enabled, 0 stale, 2 performed^ | 0
--alone --turns 1 --resume r --inputs l --words w | 9 17 | reset | {"act":"reset","who":1}^{"end":"done after 1"}^ | reset^tick(5)^reset^end: done after 3^ |  | 0
--alone --turns 1 --resume r --seed 1111111111111111111111111111111111111111111111111111111111111111 |  |  | {"act":"reset","who":1}^{"end":"done after 1"}^ | reset^tick(5)^end: done after 2^ |  | 0
-- the log of nothing is no log
--alone --turns 2 --resume r |  |  | {"end":"done after 0"}^ | tick(5)^tick(6)^end: done after 2^ |  | 0
--alone --turns 2 |  |  |  | tick(5)^tick(6)^end: done after 2^ |  | 0
--turns 2 --resume r |  |  | {"end":"done after 0"} | tick(5)^tick(6)^end: done after 2^ |  | 0
-- another worker's action, one that is not enabled, none of the composition, and another count
--alone --turns 1 --resume r |  |  | {"act":"tick(5)","who":1}^{"act":"tick(6)","who":0}^{"act":"reset","who":1}^{"end":"done after 3"}^ |  | N4 index 0^ | 4
--turns 1 --resume r |  |  | {"act":"tick(5)","who":1}^{"act":"tick(6)","who":0}^{"act":"reset","who":1}^{"end":"done after 3"}^ |  | N4 index 0^ | 4
--alone --turns 1 --resume r |  |  | {"act":"tick(5)","who":0}^{"act":"tick(7)","who":0}^{"act":"reset","who":1}^{"end":"done after 3"}^ |  | N4 index 1^ | 4
--alone --turns 1 --resume r |  |  | {"act":"tick(5)","who":0}^{"act":"tick(6)","who":0}^{"act":"reset","who":0}^{"end":"done after 3"}^ |  | N4 index 2^ | 4
--alone --turns 1 --resume r |  |  | {"act":"tick(5)","who":0}^{"act":"tick(6)","who":0}^{"act":"reset","who":1}^{"end":"done after 2"}^ |  | N4 index 3^ | 4
--turns 1 --resume r |  |  | {"act":"tick(5)","who":0}^{"act":"tick(6)","who":0}^{"act":"reset","who":1}^{"end":"done after 4"}^ |  | N4 index 3^ | 4
--alone --turns 1 --resume r |  |  | {"act":"tick(5)","who":1}^{"act":"tick(6)","who":0}^{"act":"reset","who":1}^{"end":"done after 2"}^ |  | N4 index 0^ | 4
--alone --turns 1 --resume r |  |  | {"end":"done after 1"}^ |  | N4 index 0^ | 4
--alone --turns 1 --resume r |  |  | {"act":"roll(5)","who":0}^{"end":"done after 1"}^ |  | N4 index 0^ | 4
--alone --turns 1 --resume r |  |  | {"act":"tick(true)","who":0}^{"end":"done after 1"}^ |  | N4 index 0^ | 4
-- a fault at the end comes first, whatever the entries are
--alone --turns 1 --resume r |  |  | {"act":"tick(9)","who":1}^{"end":"fault 2 in component 4 at 7"}^ |  | N5^ | 4
--turns 1 --resume r |  |  | {"end":"fault 1 in component 0 at 0"}^ |  | N5^ | 4
-- files that hold no log, or are not read
--alone --turns 1 --resume r |  |  | tick(5)^{"end":"done after 1"}^ |  | L1 line 1^ | 4
--alone --turns 1 --resume r |  |  | {"act":"tick(5)","who":0}^{"act":"tick(red)","who":0}^{"end":"done after 2"}^ |  | L2 line 2^ | 4
--alone --turns 1 --resume r |  |  | {"act":"tick(5)","who":0}^ |  | L5^ | 4
--alone --turns 1 --resume r |  |  |  |  | L5^ | 4
--turns 1 --resume r |  |  | {"end":"done after 0"}^{"act":"tick(5)","who":0}^ |  | L6^ | 4
--alone --turns 1 --resume q |  |  |  |  | io^ | 5
-- the order of refusals: the composition, the words, the script and the log; then the turns, the inputs, the log's end and its entries
--alone --comp Nine --words w --inputs l --resume r --turns 100001 | x | tick( | x |  | E17^ | 1
--alone --words w --inputs l --resume r --turns 100001 | x | tick( | x |  | words line 1^ | 2
--alone --words q --inputs l --resume r |  | tick( | x |  | io^ | 5
--alone --words w --inputs l --resume r --turns 100001 |  | reset^tick( | x |  | L2 line 2^ | 4
--alone --inputs q --resume r |  |  | x |  | io^ | 5
--alone --inputs l --resume r --turns 100001 |  | tick(5) | x |  | L1 line 1^ | 4
--alone --inputs l --resume q --turns 100001 |  | tick(5) |  |  | io^ | 5
--alone --inputs l --resume r --turns 100001 |  | tick(5) | {"act":"tick(9)","who":1}^{"end":"fault 1 in component 0 at 0"}^ |  | N1^ | 2
--alone --inputs l --resume r --turns 1 |  | reset^tick(5) | {"act":"tick(9)","who":1}^{"end":"fault 1 in component 0 at 0"}^ |  | N2 index 1^ | 4
--alone --inputs l --resume r --turns 1 |  | tick(5) | {"act":"tick(9)","who":1}^{"end":"done after 1"}^ |  | N2 index 0^ | 4
--alone --inputs l --resume r --turns 100001 |  | reset | {"act":"tick(9)","who":1}^{"end":"done after 1"}^ |  | N1^ | 2
--inputs l --resume r --turns 100001 |  | tick(5) | {"act":"tick(9)","who":1}^{"end":"fault 1 in component 0 at 0"}^ |  | N1^ | 2
--inputs l --resume r --turns 1 |  | tick(5) | {"act":"tick(9)","who":1}^{"end":"fault 1 in component 0 at 0"}^ |  | N2 index 0^ | 4
--inputs l --resume r --turns 1 |  | reset | {"act":"tick(9)","who":1}^{"end":"fault 1 in component 0 at 0"}^ |  | N5^ | 4
--inputs l --resume r --turns 1 |  | reset | {"act":"tick(9)","who":1}^{"end":"done after 1"}^ |  | N4 index 0^ | 4
-- the same where files are not read, and of each code of a log
--alone --comp Nine --words q --inputs q --resume q --turns 100001 |  |  |  |  | E17^ | 1
--alone --words w --inputs q --resume q --turns 100001 | x |  |  |  | words line 1^ | 2
--alone --words q --inputs q --resume q --turns 100001 |  |  |  |  | io^ | 5
--alone --inputs l --resume q --turns 100001 |  | tick( |  |  | L2 line 1^ | 4
--alone --inputs l --resume r --turns 100001 |  | tick(5) | {"act":"tick(","who":0}^x^ |  | L2 line 1^ | 4
--alone --inputs l --resume r --turns 100001 |  | tick(5) | {"act":"tick(5)","who":1}^ |  | L5^ | 4
--alone --inputs l --resume r --turns 100001 |  | tick(5) | {"end":"fault 1 in component 0 at 0"}^x^ |  | L6^ | 4
--alone --inputs l --resume r --turns 1 |  | tick(5) | {"end":"done after 1"}^ |  | N2 index 0^ | 4
--alone --resume r --turns 100001 |  |  | {"end":"done after 1"}^ |  | N1^ | 2
--alone --resume r --turns 1 |  |  | {"act":"tick(9)","who":0}^{"act":"tick(5)","who":1}^{"end":"done after 7"}^ |  | N4 index 0^ | 4
--comp Nine --words w --inputs l --resume r --turns 100001 | x | tick( | x |  | E17^ | 1
--words w --inputs l --resume r --turns 100001 | x | tick( | x |  | words line 1^ | 2
--words q --inputs l --resume r |  | tick( | x |  | io^ | 5
--inputs l --resume r --turns 100001 |  | reset^tick( | x |  | L2 line 2^ | 4
--inputs q --resume r |  |  | x |  | io^ | 5
--inputs l --resume r --turns 100001 |  | tick(5) | x |  | L1 line 1^ | 4
--inputs l --resume q --turns 100001 |  | tick(5) |  |  | io^ | 5
--inputs l --resume r --turns 100001 |  | tick(5) | {"act":"tick(5)","who":1}^ |  | L5^ | 4
--inputs l --resume r --turns 1 |  | tick(5) | {"act":"tick(9)","who":1}^{"end":"done after 1"}^ |  | N2 index 0^ | 4
"#;

/// The same of a component whose action faults in another one.
const FAULTS: &str = r#"
--alone --turns 1 --resume r |  |  | {"act":"go","who":0}^{"end":"fault 4 in component 1 at 0"}^ |  | N5^ | 4
--alone --turns 1 --resume r |  |  | {"act":"go","who":0}^{"end":"done after 1"}^ |  | N4 index 0^ | 4
--alone --turns 1 --resume r |  |  | {"end":"done after 0"}^ | end: fault 4 in component 1 at 0^ |  | 3
"#;

/// The counter at the greatest number.
const FULL: &str = "automaton Counter(start: Int) signature output tick(k: Int); input reset \
    states c: Int := start transitions output tick pre k = c propose k := c eff c := c + 1 \
    input reset eff c := start composition One components A: Counter(9223372036854775807)";

/// The same of it.
const OVERFLOWS: &str = r#"
--alone --turns 1 --log |  |  |  | {"act":"tick(9223372036854775807)","who":0}^{"end":"fault 1 in component 0 at 0"}^ |  | 3
--alone --turns 1 --resume r |  |  | {"act":"tick(9223372036854775807)","who":0}^{"end":"fault 1 in component 0 at 0"}^ |  | N5^ | 4
"#;

/// What `--explain` tells of a log first: its line, and not that of the script.
const REMARKS: &str = r#"
--alone --inputs l --resume r --explain |  | reset^% two^reset | {"act":"reset","who":1}^{"act":"tick(red)","who":0}^{"end":"done after 2"}^ |  | L2 line 2^r:2: L2: the source has neither a type nor a name of an enumeration `red`^    {"act":"tick(red)","who":0}^^L2: | 4
--alone --inputs l --resume r --explain |  | reset^tick( | {"act":"reset","who":1}^{"end":"done after 1"}^ |  | L2 line 2^l:2: L2: this line cannot be read: an action is written as `tick(5)`^    tick(^^L2: | 4
--alone --inputs l --resume r --explain |  | reset | x |  | L1 line 1^r:1: L1: this is an action, as a list has, and a log is wanted here: `ioac log` makes one of a list^    x^^L1: | 4
--alone --inputs l --resume r --explain |  | reset | {"end":"done after 0"}^{"act":"reset","who":1}^ |  | L6^r:2: L6: the log ends on line 1, and nothing stands behind its end^    {"act":"reset","who":1}^^L6: | 4
--alone --inputs l --resume r --explain |  | reset^tick(5) | {"end":"done after 0"}^ |  | N2 index 1^l:2: N2: tick(5) is an output of A, and the environment performs inputs alone^    tick(5)^^N2: | 4
--alone --inputs l --resume r --explain |  | tock | {"end":"done after 0"}^ |  | N2 index 0^l:1: N2: no component has tock as an input^    tock^^N2: | 4
--alone --inputs l --resume r --explain |  | reset | {"act":"reset","who":1}^{"act":"tick(6)","who":0}^{"end":"done after 2"}^ |  | N4 index 1^r:2: N4: this line is not of the composition's run^    {"act":"tick(6)","who":0}^^N4: | 4
--alone --inputs l --resume r --explain |  | reset | {"act":"reset","who":1}^{"end":"done after 2"}^ |  | N4 index 1^r:2: N4: this line is not of the composition's run^    {"end":"done after 2"}^^N4: | 4
--alone --inputs l --resume r --explain |  | reset | {"end":"fault 1 in component 0 at 0"}^ |  | N5^^N5: | 4
--alone --inputs l --resume q --explain |  | reset |  |  | io^q was not read^ | 5
"#;

/// Runs the row of a table on this file.
fn ran<H: Abort + Threads + Wait + Clock + Sync>(
    rt: &H,
    alloc: Global,
    columns: &[String],
    file: &[u8],
) -> Ran {
    let mut rack = Rack {
        file,
        words: column(columns, 1),
        script: column(columns, 2),
        log: column(columns, 3).as_bytes(),
    };
    run_by(rt, alloc, column(columns, 0), &mut rack)
}

/// Runs each row of a table on this file.
fn expect_rows<H: Abort + Threads + Wait + Clock + Sync>(
    rt: &H,
    alloc: Global,
    rows: &str,
    file: &[u8],
) {
    for row in rows.lines() {
        if is_row(row) {
            let columns = columns(alloc, row).expect(rt, "a row");
            let ran = ran(rt, alloc, &columns, file);
            expect_answer(rt, row, &ran, &wanted_in(rt, &columns, 4));
        }
    }
}

#[test]
fn runs_go_on_from_logs(rt: HostRuntime) {
    expect_rows(&rt, rt.alloc(), COUNTS, COUNTER.as_bytes());
    expect_rows(&rt, rt.alloc(), FAULTS, FAULTY.as_bytes());
    expect_rows(&rt, rt.alloc(), OVERFLOWS, FULL.as_bytes());
    let object = object(&rt, rt.alloc(), COUNTER);
    expect_rows(&rt, rt.alloc(), COUNTS, &object);
}

/// Of the rows these are the first things that are told.
#[test]
fn logs_to_go_on_from_are_explained(rt: HostRuntime) {
    for row in REMARKS.lines() {
        if is_row(row) {
            let columns = columns(rt.alloc(), row).expect(&rt, "a row");
            let ran = ran(&rt, rt.alloc(), &columns, COUNTER.as_bytes());
            let wanted = wanted_in(&rt, &columns, 4);
            let begins = ran.errors.as_slice().starts_with(wanted.errors.as_bytes());
            assert!(rt; begins, "errors in {row}");
            assert!(rt; ran.output.is_empty(), "output in {row}");
            assert!(rt; ran.status == wanted.status, "status in {row}");
        }
    }
}

/// Whether this code is told, and nothing else, of the run that is to go on from the log of its explanation.
fn is_given<H: Abort + Threads + Wait + Clock + Sync>(rt: &H, alloc: Global, code: Code) -> bool {
    let Example::Resume { source, log } = explanation(Topic::Code(code)).example else {
        return false;
    };
    let mut rack = Rack {
        file: source.as_bytes(),
        words: "",
        script: "",
        log: log.as_bytes(),
    };
    let ran = run_by(rt, alloc, "--resume r", &mut rack);
    ran.errors
        .as_slice()
        .starts_with(code.spelling().as_bytes())
        && ran.output.is_empty()
        && ran.status == Status::NotAccepted.number()
}

#[test]
fn examples_of_logs_give_their_codes(rt: HostRuntime) {
    assert!(rt; is_given(&rt, rt.alloc(), Code::N4));
    assert!(rt; is_given(&rt, rt.alloc(), Code::N5));
}

/// What a run prints that goes on from this log.
fn gone_on<H: Abort + Threads + Wait + Clock + Sync>(
    rt: &H,
    alloc: Global,
    options: &str,
    log: &[u8],
) -> Vec<u8> {
    let mut rack = Rack {
        file: COUNTER.as_bytes(),
        words: "",
        script: "reset",
        log,
    };
    let ran = run_by(rt, alloc, options, &mut rack);
    assert!(rt; ran.status == 0);
    ran.output
}

#[test]
fn a_run_goes_on_ten_times(rt: HostRuntime) {
    let alloc = rt.alloc();
    let mut log = gone_on(&rt, alloc, "--alone --turns 1 --log", b"");
    for time in 0..10usize {
        let options = if time % 2 == 0 {
            "--turns 1 --log --resume r"
        } else {
            "--alone --turns 1 --log --resume r"
        };
        log = gone_on(&rt, alloc, options, &log);
    }
    let at_once = gone_on(&rt, alloc, "--alone --turns 11 --log", b"");
    assert!(rt; log == at_once);
    let trace = gone_on(&rt, alloc, "--alone --turns 0 --resume r", &log);
    assert!(rt; trace == gone_on(&rt, alloc, "--alone --turns 11", b""));
}

/// What stands before the end of a log.
fn entries(log: &[u8]) -> &[u8] {
    match str::from_utf8(log) {
        Ok(text) => match text.split_once("{\"end\":") {
            Some((entries, _end)) => entries.as_bytes(),
            None => &[],
        },
        Err(_) => &[],
    }
}

/// With inputs, which begin anew each time, each log begins with the one that it goes on from.
#[test]
fn a_run_goes_on_with_inputs(rt: HostRuntime) {
    let alloc = rt.alloc();
    let mut log = gone_on(&rt, alloc, "--alone --turns 2 --inputs l --log", b"");
    for time in 0..20usize {
        let options = if time % 2 == 0 {
            "--turns 2 --inputs l --log --resume r"
        } else {
            "--alone --turns 2 --inputs l --log --resume r"
        };
        let next = gone_on(&rt, alloc, options, &log);
        assert!(rt; next.starts_with(entries(&log)) && next.len() > log.len());
        log = next;
    }
    assert!(rt; log == gone_on(&rt, alloc, "--alone --turns 0 --log --resume r", &log));
}
