//! Explanations held against the program: their examples give what they explain.

use crate::tests::shelf::{Given, REPLAY, Wanted, expect, run};
use ioa_rows::text;
use ioa_value::Fault;
use ioac::explanation::Example;
use ioac::explanations::explanation;
use ioac::{Code, Status, Topic};
use std::alloc::Global;
use std::process::Abort;
use std::sync::Wait;
use std::thread::Threads;
use std::time::Clock;

/// The words, a file and a list that give a code, if there are some: for `E1` this long file.
fn example(
    rt: &impl Abort,
    alloc: Global,
    code: Code,
    long: &str,
) -> Option<(&'static str, Vec<u8>, &'static str)> {
    let (words, file, list) = match explanation(Topic::Code(code)).example {
        Example::Source(source) => (REPLAY, source, ""),
        Example::Replay { source, list } => (REPLAY, source, list),
        Example::ReplayLog { source, log } => ("replay f --log", source, log),
        Example::Monitor { source, log } => ("monitor f", source, log),
        Example::Object(digits) => {
            let bytes = hex::decode(alloc, digits.as_bytes()).expect(rt, "digits");
            return Some(("check f", bytes, ""));
        }
        // its log is a file (`resumed`)
        Example::Resume { .. } => return None,
        Example::Told(_) if code == Code::E1 => (REPLAY, long, ""),
        Example::Told(_) => return None,
    };
    let file = Vec::from_slice(alloc, file.as_bytes()).expect(rt, "memory");
    Some((words, file, list))
}

/// Whether it is told first, alone or with details.
fn tells(errors: &[u8], code: Code) -> bool {
    match errors.strip_prefix(code.spelling().as_bytes()) {
        Some(rest) => rest.starts_with(b" ".as_slice()) || rest == b"\n".as_slice(),
        None => false,
    }
}

/// Whether the program tells this code of what it is given, and nothing else.
fn is_given<H: Abort + Threads + Wait + Clock + Sync>(
    rt: &H,
    alloc: Global,
    code: Code,
    given: &Given<'_>,
) -> bool {
    let ran = run(rt, alloc, given);
    let status = if code.spelling().starts_with("L") {
        Status::NotAccepted
    } else {
        Status::Refused
    };
    tells(ran.errors.as_slice(), code) && ran.output.is_empty() && ran.status == status.number()
}

#[test]
fn examples_give_their_codes(rt: HostRuntime) {
    let long = text(rt.alloc(), " @1048577").expect(&rt, "pieces");
    let mut count = 0usize;
    for code in Code::ALL {
        if let Some((words, file, list)) = example(&rt, rt.alloc(), code, long.as_str()) {
            let given = Given {
                words,
                file: &file,
                list,
            };
            assert!(rt; is_given(&rt, rt.alloc(), code, &given), "{code}");
            count = count.saturating_add(1);
        }
    }
    assert!(rt; count == 31);
}

/// Runs `explain` with these words, which has to print what is said of this topic.
fn expect_topic<H: Abort + Threads + Wait + Clock + Sync>(
    rt: &H,
    alloc: Global,
    words: &str,
    topic: Topic,
) {
    let explanation = explanation(topic);
    let output = format!(in alloc; "{explanation}").expect(rt, "memory");
    let given = Given {
        words,
        file: b"",
        list: "",
    };
    let wanted = Wanted {
        output: output.as_str(),
        errors: "",
        status: Status::Done.number(),
    };
    expect(rt, alloc, words, &given, &wanted);
}

#[test]
fn each_code_is_explained(rt: HostRuntime) {
    for code in Code::ALL {
        let words = format!(in rt.alloc(); "explain {code}").expect(&rt, "memory");
        expect_topic(&rt, rt.alloc(), words.as_str(), Topic::Code(code));
    }
}

/// What the program prints, and the topic of each.
static PRINTED: [(&str, Topic); 18] = [
    ("explain e7", Topic::Code(Code::E7)),
    ("explain E7 line 3", Topic::Code(Code::E7)),
    (
        "explain e14 components 0 and 1 on open",
        Topic::Code(Code::E14),
    ),
    ("explain E16 component 0 fault 1", Topic::Code(Code::E16)),
    ("explain WORDS line 2", Topic::Code(Code::Words)),
    ("explain Memory", Topic::Code(Code::Memory)),
    ("explain fault 1", Topic::Fault(Fault::Overflow)),
    ("explain Fault 2", Topic::Fault(Fault::ZeroDivisor)),
    (
        "explain end: fault 3 in component 0 at 2",
        Topic::Fault(Fault::Empty),
    ),
    ("explain done after 5", Topic::Done),
    ("explain End: Not an action at 2", Topic::NotAnAction),
    ("explain not enabled at 4", Topic::NotEnabled),
    ("explain monitor: not enabled at 11", Topic::NotEnabled),
    ("explain Safety: not an action at 4", Topic::NotAnAction),
    ("explain monitor: passed over at 3", Topic::PassedOver),
    ("explain monitor: nothing taken", Topic::NothingTaken),
    (
        "explain invariant 0 of component 1 broken after 3",
        Topic::Broken,
    ),
    ("explain monitor: ok", Topic::Fine),
];

#[test]
fn what_is_printed_is_explained(rt: HostRuntime) {
    for (words, topic) in &PRINTED {
        expect_topic(&rt, rt.alloc(), words, *topic);
    }
}

/// What is explained by an example without a code: the words that run the example, and the last line that they print.
static ENDS: [(Topic, &str, &str); 11] = [
    (
        Topic::Fault(Fault::Overflow),
        REPLAY,
        "end: fault 1 in component 0 at 0\n",
    ),
    (
        Topic::Fault(Fault::ZeroDivisor),
        REPLAY,
        "end: fault 2 in component 0 at 0\n",
    ),
    (
        Topic::Fault(Fault::Empty),
        REPLAY,
        "end: fault 3 in component 0 at 0\n",
    ),
    (
        Topic::Fault(Fault::OutOfRange),
        REPLAY,
        "end: fault 4 in component 0 at 0\n",
    ),
    (
        Topic::Fault(Fault::Full),
        REPLAY,
        "end: fault 5 in component 0 at 1\n",
    ),
    (Topic::Done, REPLAY, "end: done after 1\n"),
    (Topic::NotAnAction, REPLAY, "end: not an action at 1\n"),
    (Topic::NotEnabled, REPLAY, "end: not enabled at 1\n"),
    (
        Topic::PassedOver,
        "monitor f --strict",
        "monitor: passed over at 1\n",
    ),
    (
        Topic::NothingTaken,
        "monitor f --strict",
        "monitor: nothing taken\n",
    ),
    (
        Topic::Broken,
        "replay f --log --invariants",
        "invariant 0 of component 0 broken after 2\n",
    ),
];

/// The source and the input of an example that has both.
fn source_and_input(example: Example) -> Option<(&'static str, &'static str)> {
    match example {
        Example::Replay { source, list } => Some((source, list)),
        Example::ReplayLog { source, log } | Example::Monitor { source, log } => Some((
            source, log,
        )),
        Example::Source(_) | Example::Resume { .. } | Example::Object(_) | Example::Told(_) => None,
    }
}

#[test]
fn examples_of_ends_end_so(rt: HostRuntime) {
    for (topic, words, last) in &ENDS {
        let (source, list) = source_and_input(explanation(*topic).example).expect(&rt, "an input");
        let given = Given {
            words: *words,
            file: source.as_bytes(),
            list,
        };
        let ran = run(&rt, rt.alloc(), &given);
        assert!(rt; ran.output.as_slice().ends_with(last.as_bytes()), "{topic}");
    }
}
