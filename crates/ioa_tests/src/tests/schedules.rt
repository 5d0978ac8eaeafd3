//! Schedules: what workers are answered that copy and commit, and what then stands.

use crate::tests::made::{Got, action, expect_text, program};
use crate::tests::reached::{PUTS, TWO, told_states};
use ioa_compile::Program;
use ioa_rows::COUNTER;
use ioa_run::{Answer, Board, Core, Event, Recorded, play};
use ioa_system::LogEntry;
use ioa_value::{Fault, Types, print_action};
use std::alloc::Global;
use std::fmt::Write;
use std::process::Abort;

/// A worker, the action that it copies, or none where it commits, and what it is answered.
type Turn = (usize, Option<&'static str>, Answer);

/// The second plan is made before the first one is committed.
const OVERTAKEN: &[Turn] = &[
    (0, Some("put(0)"), Answer::Planned),
    (1, Some("put(1)"), Answer::Planned),
    (0, None, Answer::Committed(0)),
    (1, None, Answer::Stale),
    (1, None, Answer::NoPlan),
];

/// The third component is twice changed, and is again as the second plan found it.
const RETURNED: &[Turn] = &[
    (0, Some("put(0)"), Answer::Planned),
    (1, Some("put(1)"), Answer::Planned),
    (0, None, Answer::Committed(0)),
    (0, Some("put(0)"), Answer::Planned),
    (0, None, Answer::Committed(1)),
    (1, None, Answer::Committed(2)),
    (1, Some("put(0)"), Answer::NotYours),
    (1, None, Answer::NoPlan),
    (2, Some("put(2)"), Answer::NotYours),
    (3, Some("put(2)"), Answer::Planned),
    (3, None, Answer::Committed(3)),
];

/// Each refused copy leaves its worker without a plan.
const REFUSED: &[Turn] = &[
    (0, None, Answer::NoPlan),
    (0, Some("tick(5)"), Answer::Planned),
    (0, Some("tock"), Answer::NotAnAction),
    (0, None, Answer::NoPlan),
    (0, Some("tick(5)"), Answer::Planned),
    (0, Some("tick(6)"), Answer::NotEnabled),
    (0, None, Answer::NoPlan),
    (0, Some("tick(5)"), Answer::Planned),
    (0, Some("reset"), Answer::NotYours),
    (0, None, Answer::NoPlan),
    (1, Some("tick(6)"), Answer::NotYours),
    (2, Some("tock"), Answer::NotAnAction),
    (2, Some("reset"), Answer::NotYours),
    (2, None, Answer::NoPlan),
    (1, Some("reset"), Answer::Planned),
    (0, Some("tick(5)"), Answer::Planned),
    (0, None, Answer::Committed(0)),
    (1, None, Answer::Stale),
];

/// A plan that faults is told of when it is committed, and stops all later commits.
const STOPPED: &[Turn] = &[
    (0, Some("go"), Answer::Planned),
    (0, None, Answer::Faulted(1, Fault::OutOfRange)),
    (0, Some("go"), Answer::Planned),
    (0, None, Answer::Stopped),
    (0, None, Answer::NoPlan),
];

/// A source, turns, and what then stands: what was performed, the states, and the fault.
type Play = (&'static str, &'static [Turn], &'static str);

static PLAYS: [Play; 5] = [
    (COUNTER, &[], ", state(5)"),
    (PUTS, OVERTAKEN, "0 put(0), state(1), state(0), state(1)"),
    (
        PUTS,
        RETURNED,
        "0 put(0); 0 put(0); 1 put(1); 3 put(2), state(2), state(1), state(0)",
    ),
    (COUNTER, REFUSED, "0 tick(5), state(6)"),
    (
        TWO,
        STOPPED,
        ", state(0), state(S[], 0), state(9223372036854775807), 0 go has fault 4 in component 1",
    ),
];

fn event(rt: &impl Abort, alloc: Global, types: &Types, turn: &Turn) -> Event {
    let (who, text, _) = turn;
    match text {
        Some(text) => Event::Copy(*who, action(rt, alloc, types, text)),
        None => Event::Commit(*who),
    }
}

/// Writes a worker and its action.
fn push_entry(rt: &impl Abort, alloc: Global, types: &Types, text: &mut String, entry: &LogEntry) {
    let action = print_action(alloc, types, &entry.action).got(rt);
    write!(text, "{} {action}", entry.who).got(rt);
}

/// Workers and their actions, in order.
pub fn told_entries(rt: &impl Abort, alloc: Global, types: &Types, entries: &[LogEntry]) -> String {
    let mut text = String::new(alloc);
    for entry in entries {
        if !text.is_empty() {
            text.push_str("; ").got(rt);
        }
        push_entry(rt, alloc, types, &mut text, entry);
    }
    text
}

/// The fault that is recorded.
fn told_record(rt: &impl Abort, alloc: Global, types: &Types, recorded: &Recorded) -> String {
    let mut text = String::from_str(alloc, ", ").got(rt);
    push_entry(rt, alloc, types, &mut text, &recorded.entry);
    let fault = recorded.fault.number();
    write!(
        text,
        " has fault {fault} in component {}",
        recorded.component
    )
    .got(rt);
    text
}

pub fn told_board(rt: &impl Abort, alloc: Global, board: &Board<'_>) -> String {
    let types = board.program().types();
    let entries = told_entries(rt, alloc, types, board.history());
    let states = told_states(rt, alloc, types, board.states());
    let record = match board.recorded() {
        Some(recorded) => told_record(rt, alloc, types, recorded),
        None => String::new(alloc),
    };
    format!(in alloc; "{entries}{states}{record}").got(rt)
}

/// The turns, which are answered so one by one, and what then stands.
fn taken(rt: &impl Abort, alloc: Global, program: &Program, turns: &[Turn]) -> String {
    let mut core = Core::start(alloc, program).got(rt);
    for turn in turns {
        let event = event(rt, alloc, program.types(), turn);
        assert!(rt; core.event(event).got(rt) == turn.2);
    }
    told_board(rt, alloc, core.board())
}

/// The turns, which are answered so all together, and what then stands.
fn played(rt: &impl Abort, alloc: Global, program: &Program, turns: &[Turn]) -> String {
    let mut events = Vec::new(alloc);
    for turn in turns {
        events.push(event(rt, alloc, program.types(), turn)).got(rt);
    }
    let (played, answers) = play(alloc, program, &events).got(rt);
    assert!(rt; are_those_of(&answers, turns));
    told_board(rt, alloc, played.board())
}

/// Whether the answers are those of the turns.
fn are_those_of(answers: &[Answer], turns: &[Turn]) -> bool {
    for (answer, turn) in answers.iter().zip(turns.iter()) {
        if *answer != turn.2 {
            return false;
        }
    }
    answers.len() == turns.len()
}

fn expect_play(rt: &impl Abort, alloc: Global, play: &Play) {
    let program = program(rt, alloc, play.0, None);
    expect_text(rt, taken(rt, alloc, &program, play.1).as_str(), play.2);
    expect_text(rt, played(rt, alloc, &program, play.1).as_str(), play.2);
}

#[test]
fn schedules_are_answered(rt: HostRuntime) {
    for play in &PLAYS {
        expect_play(&rt, rt.alloc(), play);
    }
}
