//! The tables whose rows are runs of the program.

use crate::tests::shelf::{COUNTER, First, expect_rows};
use crate::tests::{
    bounds, changes, choices, commands, composed, constants, coverage, crashes, cuts, declared,
    invariants, json, lines, list_logs, lists, logs, loops, objects, pictures, proposals, requests,
    states, turns, watches,
};
use std::alloc::Global;
use std::process::Abort;
use std::sync::Wait;
use std::thread::Threads;
use std::time::Clock;

/// Those with sources and lists as long as they may be, and longer.
const LONG: [(&str, First<'static>); 2] = [
    (bounds::ROWS, First::File),
    (lines::ROWS, First::Check),
];

/// Those about what sources may say. All texts of a table are one tree to the prover, which reads some 250,000 bytes of a constant, and fewer of a static.
const SOURCES: [(&str, First<'static>); 21] = [
    (lists::ROWS, First::List(COUNTER)),
    (lists::ROWS, First::Object(COUNTER)),
    (objects::ROWS, First::Bytes),
    (changes::ROWS, First::Changed(changes::LINES)),
    (choices::ROWS, First::Changed(choices::COUNTER)),
    (declared::CHECKS, First::Request),
    (declared::REPLAYS, First::File),
    (composed::CHECKS, First::Request),
    (composed::REPLAYS, First::File),
    (constants::CHECKS, First::Request),
    (constants::REPLAYS, First::File),
    (crashes::CHECKS, First::Request),
    (crashes::REPLAYS, First::File),
    (invariants::CHECKS, First::Request),
    (loops::CHECKS, First::Request),
    (loops::REPLAYS, First::File),
    (loops::SUMS, First::Object(loops::SUM)),
    (proposals::CHECKS, First::Check),
    (proposals::REPLAYS, First::List(proposals::GAME)),
    (proposals::REPLAYS, First::Object(proposals::GAME)),
    (turns::ROWS, First::All),
];

/// Those about what is asked of lists, of logs, and of the program.
const REQUESTS: [(&str, First<'static>); 19] = [
    (coverage::ROWS, First::All),
    (crashes::LOGS, First::All),
    (cuts::ROWS, First::Words(COUNTER)),
    (cuts::COMPOSED, First::All),
    (invariants::REPLAYS, First::All),
    (json::ROWS, First::Words(COUNTER)),
    (json::COMPOSED, First::All),
    (logs::REPLAYS, First::Words(COUNTER)),
    (logs::BLANKS, First::Words(COUNTER)),
    (logs::FAULTS, First::All),
    (logs::MONITORS, First::All),
    (list_logs::ROWS, First::Words(COUNTER)),
    (list_logs::COMPOSED, First::All),
    (pictures::ROWS, First::Words(COUNTER)),
    (pictures::COMPOSED, First::All),
    (requests::ROWS, First::Request),
    (states::ROWS, First::All),
    (watches::ROWS, First::Words(watches::ONCE)),
    (commands::ROWS, First::Words(commands::TWO)),
];

/// Runs the program on the rows of each table.
fn expect_tables<H: Abort + Threads + Wait + Clock + Sync>(
    rt: &H,
    alloc: Global,
    tables: &[(&str, First<'_>)],
) {
    for (rows, first) in tables {
        expect_rows(rt, alloc, rows, *first);
    }
}

#[test]
fn sources_give_what_is_wanted(rt: HostRuntime) {
    expect_tables(&rt, rt.alloc(), &SOURCES);
}

#[test]
fn requests_give_what_is_wanted(rt: HostRuntime) {
    expect_tables(&rt, rt.alloc(), &REQUESTS);
}

#[test]
fn long_texts_give_what_is_wanted(rt: HostRuntime) {
    expect_tables(&rt, rt.alloc(), &LONG);
}
