//! The library of protocols: its text, lists of actions on its compositions, and runs by chance that its specifications monitor.

use crate::tests::shelf::{First, Given, Wanted, expect, expect_rows, run};
use ioa_compile::Program;
use ioa_node::Decoded;
use ioa_object::write_object;
use ioac::{Status, compile_text};
use std::alloc::Global;
use std::process::Abort;
use std::sync::Wait;
use std::thread::Threads;
use std::time::Clock;

/// The words after the program's name, a list or a log for the library, what is printed, what is told of errors, and the exit status.
const ROWS: &str = r#"
check f |  | ok^ |  | 0
-- without order the bit is not enough: the first packet comes again, and is taken for the third
replay f --comp AltBitReorder | send_msg(1)^send(0, Pkt(data, 0, 0, 1))^recv(0, Pkt(data, 0, 0, 1))^receive_msg(1)^send(1, Pkt(ack, 0, 0, 0))^recv(1, Pkt(ack, 0, 0, 0))^send_msg(2)^send(0, Pkt(data, 1, 0, 2))^recv(0, Pkt(data, 1, 0, 2))^receive_msg(2)^recv(0, Pkt(data, 0, 0, 1))^receive_msg(1) | send_msg(1)^receive_msg(1)^send_msg(2)^receive_msg(2)^receive_msg(1)^end: done after 12^ |  | 0
replay f --comp AltBitReorder --log | {"act":"send_msg(1)","who":0}^{"act":"send(0, Pkt(data, 0, 0, 1))","who":0}^{"act":"recv(0, Pkt(data, 0, 0, 1))","who":1}^{"act":"receive_msg(1)","who":3}^{"act":"send(1, Pkt(ack, 0, 0, 0))","who":3}^{"act":"recv(1, Pkt(ack, 0, 0, 0))","who":2}^{"act":"send_msg(2)","who":0}^{"act":"send(0, Pkt(data, 1, 0, 2))","who":0}^{"act":"recv(0, Pkt(data, 1, 0, 2))","who":1}^{"act":"receive_msg(2)","who":3}^{"act":"recv(0, Pkt(data, 0, 0, 1))","who":1}^{"act":"receive_msg(1)","who":3}^{"end":"done after 12"}^ | send_msg(1)^receive_msg(1)^send_msg(2)^receive_msg(2)^receive_msg(1)^end: done after 12^ |  | 0
monitor f --comp ReliableFifo | {"act":"send_msg(1)","who":0}^{"act":"send(0, Pkt(data, 0, 0, 1))","who":0}^{"act":"recv(0, Pkt(data, 0, 0, 1))","who":1}^{"act":"receive_msg(1)","who":3}^{"act":"send(1, Pkt(ack, 0, 0, 0))","who":3}^{"act":"recv(1, Pkt(ack, 0, 0, 0))","who":2}^{"act":"send_msg(2)","who":0}^{"act":"send(0, Pkt(data, 1, 0, 2))","who":0}^{"act":"recv(0, Pkt(data, 1, 0, 2))","who":1}^{"act":"receive_msg(2)","who":3}^{"act":"recv(0, Pkt(data, 0, 0, 1))","who":1}^{"act":"receive_msg(1)","who":3}^{"end":"done after 12"}^ | monitor: not enabled at 11^ |  | 4
replay f --comp AltBitReorder --log --invariants | {"act":"send_msg(1)","who":0}^{"act":"send(0, Pkt(data, 0, 0, 1))","who":0}^{"act":"recv(0, Pkt(data, 0, 0, 1))","who":1}^{"act":"receive_msg(1)","who":3}^{"act":"send(1, Pkt(ack, 0, 0, 0))","who":3}^{"act":"recv(1, Pkt(ack, 0, 0, 0))","who":2}^{"act":"send_msg(2)","who":0}^{"act":"send(0, Pkt(data, 1, 0, 2))","who":0}^{"act":"recv(0, Pkt(data, 1, 0, 2))","who":1}^{"act":"receive_msg(2)","who":3}^{"act":"recv(0, Pkt(data, 0, 0, 1))","who":1}^{"act":"receive_msg(1)","who":3}^{"end":"done after 12"}^ | invariant 0 of component 4 broken after 12^ |  | 4
-- numbers that are not used twice are
replay f --comp Stenning | send_msg(1)^send(0, Pkt(data, 1, 0, 1))^recv(0, Pkt(data, 1, 0, 1))^receive_msg(1)^send(1, Pkt(ack, 1, 0, 0))^recv(1, Pkt(ack, 1, 0, 0))^send_msg(2)^send(0, Pkt(data, 2, 0, 2))^recv(0, Pkt(data, 2, 0, 2))^receive_msg(2)^recv(0, Pkt(data, 1, 0, 1))^receive_msg(1) | send_msg(1)^receive_msg(1)^send_msg(2)^receive_msg(2)^end: not enabled at 11^ |  | 4
monitor f --comp ReliableFifo | {"act":"send_msg(1)","who":0}^{"act":"send(0, Pkt(data, 1, 0, 1))","who":0}^{"act":"recv(0, Pkt(data, 1, 0, 1))","who":1}^{"act":"receive_msg(1)","who":3}^{"act":"send(1, Pkt(ack, 1, 0, 0))","who":3}^{"act":"recv(1, Pkt(ack, 1, 0, 0))","who":2}^{"act":"send_msg(2)","who":0}^{"act":"send(0, Pkt(data, 2, 0, 2))","who":0}^{"act":"recv(0, Pkt(data, 2, 0, 2))","who":1}^{"act":"receive_msg(2)","who":3}^{"act":"recv(0, Pkt(data, 1, 0, 1))","who":1}^{"end":"done after 11"}^ | monitor: ok^ |  | 0
replay f --comp Stenning --log | {"act":"send_msg(1)","who":0}^{"act":"send(0, Pkt(data, 1, 0, 1))","who":0}^{"act":"recv(0, Pkt(data, 1, 0, 1))","who":1}^{"act":"receive_msg(1)","who":3}^{"act":"send(1, Pkt(ack, 1, 0, 0))","who":3}^{"act":"recv(1, Pkt(ack, 1, 0, 0))","who":2}^{"act":"send_msg(2)","who":0}^{"act":"send(0, Pkt(data, 2, 0, 2))","who":0}^{"act":"recv(0, Pkt(data, 2, 0, 2))","who":1}^{"act":"receive_msg(2)","who":3}^{"act":"recv(0, Pkt(data, 1, 0, 1))","who":1}^{"end":"done after 11"}^ | send_msg(1)^receive_msg(1)^send_msg(2)^receive_msg(2)^end: done after 11^ |  | 0
-- an acknowledgement of the last packet is enough, and a channel gives its packets in order
replay f --comp Sliding | send_msg(7)^send_msg(8)^send(0, Pkt(data, 1, 0, 7))^send(0, Pkt(data, 2, 0, 8))^recv(0, Pkt(data, 1, 0, 7))^drop(0)^recv(0, Pkt(data, 2, 0, 8))^receive_msg(7)^receive_msg(8)^send(1, Pkt(ack, 2, 0, 0))^recv(1, Pkt(ack, 2, 0, 0)) | send_msg(7)^send_msg(8)^receive_msg(7)^receive_msg(8)^end: done after 11^ |  | 0
replay f --comp Sliding | send_msg(7)^send_msg(8)^send(0, Pkt(data, 1, 0, 7))^send(0, Pkt(data, 2, 0, 8))^recv(0, Pkt(data, 1, 0, 7))^recv(0, Pkt(data, 2, 0, 8))^receive_msg(7)^receive_msg(8)^send(1, Pkt(ack, 2, 0, 0))^recv(1, Pkt(ack, 2, 0, 0)) | send_msg(7)^send_msg(8)^end: not enabled at 5^ |  | 4
-- five packets deliver one message
replay f --comp Handshake | send_msg(3)^begin^send(0, Pkt(needid, 1, 0, 0))^recv(0, Pkt(needid, 1, 0, 0))^send(1, Pkt(accept, 1, 1, 0))^recv(1, Pkt(accept, 1, 1, 0))^send(0, Pkt(data, 0, 1, 3))^recv(0, Pkt(data, 0, 1, 3))^receive_msg(3)^send(1, Pkt(ack, 0, 1, 0))^recv(1, Pkt(ack, 0, 1, 0))^send(0, Pkt(cleanup, 0, 1, 0))^recv(0, Pkt(cleanup, 0, 1, 0)) | send_msg(3)^receive_msg(3)^end: done after 13^ |  | 0
replay f --comp Handshake --log | {"act":"send_msg(3)","who":0}^{"act":"begin","who":0}^{"act":"send(0, Pkt(needid, 1, 0, 0))","who":0}^{"act":"recv(0, Pkt(needid, 1, 0, 0))","who":1}^{"act":"send(1, Pkt(accept, 1, 1, 0))","who":3}^{"act":"recv(1, Pkt(accept, 1, 1, 0))","who":2}^{"act":"send(0, Pkt(data, 0, 1, 3))","who":0}^{"act":"recv(0, Pkt(data, 0, 1, 3))","who":1}^{"act":"receive_msg(3)","who":3}^{"act":"send(1, Pkt(ack, 0, 1, 0))","who":3}^{"act":"recv(1, Pkt(ack, 0, 1, 0))","who":2}^{"act":"send(0, Pkt(cleanup, 0, 1, 0))","who":0}^{"act":"recv(0, Pkt(cleanup, 0, 1, 0))","who":1}^{"end":"done after 13"}^ | send_msg(3)^receive_msg(3)^end: done after 13^ |  | 0
monitor f --comp AtMostOnce | {"act":"send_msg(3)","who":0}^{"act":"begin","who":0}^{"act":"send(0, Pkt(needid, 1, 0, 0))","who":0}^{"act":"recv(0, Pkt(needid, 1, 0, 0))","who":1}^{"act":"send(1, Pkt(accept, 1, 1, 0))","who":3}^{"act":"recv(1, Pkt(accept, 1, 1, 0))","who":2}^{"act":"send(0, Pkt(data, 0, 1, 3))","who":0}^{"act":"recv(0, Pkt(data, 0, 1, 3))","who":1}^{"act":"receive_msg(3)","who":3}^{"act":"send(1, Pkt(ack, 0, 1, 0))","who":3}^{"act":"recv(1, Pkt(ack, 0, 1, 0))","who":2}^{"act":"send(0, Pkt(cleanup, 0, 1, 0))","who":0}^{"act":"recv(0, Pkt(cleanup, 0, 1, 0))","who":1}^{"end":"done after 13"}^ | monitor: ok^ |  | 0
"#;

/// The compositions that run, and their specifications.
static RUNS: [(&str, &str); 4] = [
    ("Stenning", "ReliableFifo"),
    ("AltBit", "ReliableFifo"),
    ("Sliding", "ReliableFifo"),
    ("Handshake", "AtMostOnce"),
];

/// The library.
fn library(rt: &impl Abort) -> &'static str {
    str::from_utf8(ioa_links::text()).expect(rt, "a text")
}

#[test]
fn the_library_gives_what_is_wanted(rt: HostRuntime) {
    let text = library(&rt);
    expect_rows(&rt, rt.alloc(), ROWS, First::Words(text));
    let given = Given {
        words: "library",
        file: b"",
        list: "",
    };
    let wanted = Wanted {
        output: text,
        errors: "",
        status: Status::Done.number(),
    };
    expect(&rt, rt.alloc(), "library", &given, &wanted);
}

/// Runs the program on a source, by these words and this input; it is done.
fn done<H: Abort + Threads + Wait + Clock + Sync>(
    rt: &H,
    alloc: Global,
    source: &[u8],
    words: &str,
    list: &str,
) -> Vec<u8> {
    let given = Given {
        words,
        file: source,
        list,
    };
    let ran = run(rt, alloc, &given);
    assert!(rt; ran.status == 0, "{words}");
    ran.output
}

/// Runs a composition of a source on one thread or on several; its log is replayed, and its specification, of the library, accepts it.
fn expect_accepted<H: Abort + Threads + Wait + Clock + Sync>(
    rt: &H,
    alloc: Global,
    source: &[u8],
    composition: &str,
    specification: &str,
    way: &str,
) {
    let words = format!(in alloc; "run f --comp {composition} {way} --turns 200 --log");
    let log = done(rt, alloc, source, words.expect(rt, "memory").as_str(), "");
    let list = str::from_utf8(log.as_slice()).expect(rt, "a text");
    let words = format!(in alloc; "replay f --comp {composition} --log");
    done(rt, alloc, source, words.expect(rt, "memory").as_str(), list);
    let words = format!(in alloc; "monitor f --comp {specification}");
    let text = library(rt).as_bytes();
    let monitored = done(rt, alloc, text, words.expect(rt, "memory").as_str(), list);
    assert!(rt;
        monitored.as_slice() == b"monitor: ok\n".as_slice(),
        "{composition} {way}"
    );
}

/// The same on one thread, and on several.
fn expect_accepted_both_ways<H: Abort + Threads + Wait + Clock + Sync>(
    rt: &H,
    alloc: Global,
    source: &[u8],
    composition: &str,
    specification: &str,
) {
    expect_accepted(rt, alloc, source, composition, specification, "--alone");
    expect_accepted(rt, alloc, source, composition, specification, "");
}

#[test]
fn runs_are_accepted(rt: HostRuntime) {
    let text = library(&rt).as_bytes();
    for (composition, specification) in &RUNS {
        expect_accepted_both_ways(&rt, rt.alloc(), text, composition, specification);
    }
    let protocol = ioa_links::stenning_tree(rt.alloc(), 1_000).expect(&rt, "memory");
    let text = ioa_print::print(rt.alloc(), &protocol).expect(&rt, "memory");
    expect_accepted_both_ways(&rt, rt.alloc(), text.as_slice(), "Stenning", "ReliableFifo");
}

/// How many instructions the part has, if it is there.
fn instructions_in(part: &Option<Decoded>) -> usize {
    match part {
        Some(part) => part.code().instrs().len(),
        None => 0,
    }
}

/// How many instructions the code of a program has.
fn instruction_count(program: &Program) -> usize {
    let mut count: usize = 0;
    for member in program.members() {
        for entry in &member.entries {
            count = count.saturating_add(instructions_in(&entry.pre));
            count = count.saturating_add(instructions_in(&entry.propose));
            count = count.saturating_add(entry.effect.code().instrs().len());
        }
    }
    count
}

/// How many lines with an instruction the dump of the program's object has.
fn dumped_count<H: Abort + Threads + Wait + Clock + Sync>(
    rt: &H,
    alloc: Global,
    program: &Program,
) -> usize {
    let object = write_object(alloc, program).expect(rt, "memory");
    let given = Given {
        words: "dump f",
        file: object.as_slice(),
        list: "",
    };
    let ran = run(rt, alloc, &given);
    let text = str::from_utf8(ran.output.as_slice()).expect(rt, "a text");
    let mut count: usize = 0;
    for line in text.lines() {
        if line.starts_with("      ") {
            count = count.saturating_add(1);
        }
    }
    count
}

/// The dump of each protocol's object has a line for each instruction.
#[test]
fn each_instruction_has_a_line(rt: HostRuntime) {
    for (composition, _) in &RUNS {
        let source = library(&rt).as_bytes();
        let program = compile_text(rt.alloc(), source, Some(*composition));
        let program = program.expect(&rt, "a program");
        let lines = dumped_count(&rt, rt.alloc(), &program);
        assert!(rt; 100 < lines, "{composition}");
        assert!(rt; lines == instruction_count(&program), "{composition}");
    }
}
