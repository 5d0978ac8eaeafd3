//! Rooms: what is counted of each worker's turns, and what a run gives.

ghost use Rattle.std.specs.Prelude.{◌≡◌, IfOk};
ghost use Rattle.ioa_value.specs.Actions.{act_of};
ghost use Rattle.ioa_tree.specs.Steps as steps;
ghost use Rattle.ioa_compile.specs.Tables.{tabled};
ghost use Rattle.ioa_system.specs.Participants.{taken};
ghost use Rattle.ioa_system.specs.Systems.{slot_types, types_of};

use crate::tests::made::{EMPTY, Got, action, expect_text, set_up};
use crate::tests::reached::{TWO, told_states};
use crate::tests::schedules::told_entries;
use ioa_compile::Program;
use ioa_node::NodeState;
use ioa_rows::COUNTER;
use ioa_run::{Answer, Board, Outcome, Plan, Planned, Report, Room, Verdict, Why};
use ioa_system::participants;
use ioa_value::{Action, Fault, OutOfMemory, Types};
use std::alloc::Global;
use std::process::Abort;

/// What a worker does: it plans an action and commits it, plans one and is overtaken by another worker's before it commits it, has
/// nothing to commit, or leaves.
#[derive(Clone, Copy)]
enum Turn {
    Act(usize, &'static str, Answer),
    Late(usize, &'static str, usize, &'static str, Answer),
    Idle(usize),
    Leave(usize, Why),
}

/// Two ticks, the second of them before a reset that is planned is committed; the reset again; and one that is not in the script.
const WALK: &[Turn] = &[
    Turn::Act(0, "tick(5)", Answer::Committed(0)),
    Turn::Idle(1),
    Turn::Late(1, "reset", 0, "tick(6)", Answer::Stale),
    Turn::Act(1, "reset", Answer::Committed(2)),
    Turn::Act(1, "reset", Answer::Stale),
    Turn::Idle(1),
    Turn::Leave(0, Why::TurnsDone),
    Turn::Leave(1, Why::TurnsDone),
    Turn::Idle(2),
    Turn::Leave(2, Why::Memory),
];

const WALKED: &[Report] = &[
    Report {
        committed: 2,
        idle: 0,
        stale: 0,
        why: Why::Stopped,
    },
    Report {
        committed: 1,
        idle: 1,
        stale: 2,
        why: Why::TurnsDone,
    },
];

/// An action that faults, and one after it.
const FAULT: &[Turn] = &[
    Turn::Idle(0),
    Turn::Act(0, "go", Answer::Faulted(1, Fault::OutOfRange)),
    Turn::Act(0, "go", Answer::Stopped),
    Turn::Leave(0, Why::Stopped),
    Turn::Leave(1, Why::Faulted),
    Turn::Leave(2, Why::Memory),
];

const FAULTED: &[Report] = &[
    Report {
        committed: 0,
        idle: 1,
        stale: 0,
        why: Why::Faulted,
    },
    Report {
        committed: 0,
        idle: 0,
        stale: 0,
        why: Why::Stopped,
    },
    Report {
        committed: 0,
        idle: 0,
        stale: 0,
        why: Why::Memory,
    },
    Report {
        committed: 0,
        idle: 0,
        stale: 0,
        why: Why::Stopped,
    },
];

/// A source, the script, how many turns each worker has, what is done, and what the run gives: what was performed, the states and the
/// end, and the reports.
type Walk = (
    &'static str,
    &'static [&'static str],
    u64,
    &'static [Turn],
    &'static str,
    &'static [Report],
);

static WALKS: [Walk; 2] = [
    (
        COUNTER,
        &["reset"],
        4,
        WALK,
        "0 tick(5); 0 tick(6); 1 reset, state(5), done after 3",
        WALKED,
    ),
    (
        TWO,
        &[],
        3,
        FAULT,
        "0 go, state(0), state(S[], 0), state(9223372036854775807), fault 4 in component 1 at 0",
        FAULTED,
    ),
];

/// Equals of the states of the action's participants.
fn copied(alloc: Global, board: &Board<'_>, action: &Action) -> Result<Vec<NodeState>, OutOfMemory>
    ensures { IfOk result (λ states. types_of states.items ≡ taken (steps.participants (tabled board.now.program) (act_of action.now)) (slot_types board.now.program.members)) }
{
    let program = board.program();
    let numbers = participants(alloc, program, action)?;
    board.copy(&numbers)
}

/// The same, with ample memory.
pub fn copies(rt: &impl Abort, alloc: Global, board: &Board<'_>, action: &Action) -> Vec<NodeState>
    ensures { types_of result.items ≡ taken (steps.participants (tabled board.now.program) (act_of action.now)) (slot_types board.now.program.members) }
{
    copied(alloc, board, action).got(rt)
}

/// The worker's plan for the action by the states as they are now, for which there is one.
pub fn planned<'p>(
    rt: &impl Abort,
    alloc: Global,
    board: &Board<'p>,
    who: usize,
    action: Action,
) -> Plan<'p>
    ensures { (result.program ≡ board.now.program) × (result.who ≡ who) }
{
    let states = copies(rt, alloc, board, &action);
    match Plan::make(alloc, board.program(), who, action, states).got(rt) {
        Planned::Ready(plan) => plan,
        _ => panic!(rt; "no plan"),
    }
}

/// The same of the action that is spelled so.
fn plan<'p>(rt: &impl Abort, alloc: Global, room: &Room<'p>, who: usize, text: &str) -> Plan<'p>
    ensures { (result.program ≡ room.now.program) × (result.who ≡ who) }
{
    let board = room.board();
    let action = action(rt, alloc, board.program().types(), text);
    planned(rt, alloc, board, who, action)
}

fn answer(rt: &impl Abort, verdict: Verdict<'_>) -> Answer {
    match verdict {
        Verdict::Stopped => Answer::Stopped,
        Verdict::Stale => Answer::Stale,
        Verdict::Faulted(component, fault) => Answer::Faulted(component, fault),
        Verdict::Committed(index) => Answer::Committed(index),
        Verdict::Memory(_) => panic!(rt; "memory"),
    }
}

fn act(rt: &impl Abort, alloc: Global, room: &mut Room<'_>, who: usize, text: &str) -> Answer
    ensures { room.new.program ≡ room.old.program }
{
    let plan = plan(rt, alloc, room, who, text);
    answer(rt, room.commit(who, plan))
}

/// The first worker commits a plan that it made before the other one acted.
fn act_late(
    rt: &impl Abort,
    alloc: Global,
    room: &mut Room<'_>,
    who: usize,
    text: &str,
    other: usize,
    before: &str,
) -> Answer {
    let plan = plan(rt, alloc, room, who, text);
    act(rt, alloc, room, other, before);
    answer(rt, room.commit(who, plan))
}

/// Takes the turn. Whether it is answered so.
fn is_taken(rt: &impl Abort, alloc: Global, room: &mut Room<'_>, turn: Turn) -> bool {
    match turn {
        Turn::Act(who, text, wanted) => act(rt, alloc, room, who, text) == wanted,
        Turn::Late(who, text, other, before, wanted) => {
            act_late(rt, alloc, room, who, text, other, before) == wanted
        }
        Turn::Idle(who) => {
            room.idle(who);
            true
        }
        Turn::Leave(who, why) => {
            room.leave(who, why);
            true
        }
    }
}

/// What the run gives whose turns are these.
fn walked(
    rt: &impl Abort,
    alloc: Global,
    program: &Program,
    script: &[Action],
    turns: u64,
    moves: &[Turn],
) -> Outcome {
    let mut room = Room::start(alloc, program, script, turns).got(rt);
    assert!(rt; room.is_of(program, script, turns, &[]) && !room.is_of(program, script, 0, &[]));
    for turn in moves {
        assert!(rt; is_taken(rt, alloc, &mut room, *turn));
    }
    room.finish()
}

/// What was performed, the states, and the end.
pub fn told_outcome(rt: &impl Abort, alloc: Global, types: &Types, outcome: &Outcome) -> String {
    let entries = told_entries(rt, alloc, types, &outcome.log);
    let states = told_states(rt, alloc, types, &outcome.states);
    let end = outcome.end.end();
    format!(in alloc; "{entries}{states}, {end}").got(rt)
}

/// The walk is answered so turn by turn, and gives this.
fn expect_walk(rt: &impl Abort, alloc: Global, walk: &Walk) {
    let setting = set_up(rt, alloc, walk.0, EMPTY, walk.1);
    let program = &setting.program;
    let outcome = walked(rt, alloc, program, &setting.script, walk.2, walk.3);
    let told = told_outcome(rt, alloc, program.types(), &outcome);
    expect_text(rt, told.as_str(), walk.4);
    assert!(rt; outcome.reports.as_slice() == walk.5);
}

#[test]
fn rooms_count_turns(rt: HostRuntime) {
    for walk in &WALKS {
        expect_walk(&rt, rt.alloc(), walk);
    }
}
