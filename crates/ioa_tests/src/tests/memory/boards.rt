//! Plans, commits and events with little memory.

ghost use Rattle.std.specs.Prelude.{◌≡◌};
ghost use Rattle.ioa_value.specs.Actions.{act_of};
ghost use Rattle.ioa_tree.specs.Steps as steps;
ghost use Rattle.ioa_compile.specs.Tables.{tabled};
ghost use Rattle.ioa_system.specs.Participants.{taken};
ghost use Rattle.ioa_system.specs.Systems.{slot_types, types_of};

use crate::tests::made::{self, Got, Setting};
use crate::tests::memory::hoard::Spare;
use crate::tests::memory::{Came, all_but};
use crate::tests::rooms::{copies, planned};
use crate::tests::schedules::told_board;
use ioa_compile::Program;
use ioa_node::NodeState;
use ioa_run::{Answer, Board, Core, Event, Plan, Planned, Room, RunErr, Verdict};
use ioa_value::{Action, OutOfMemory};
use std::alloc::Global;
use std::process::Abort;

/// The plan of worker 0 for the action by these states.
fn made_of<'p>(
    alloc: Global,
    board: &Board<'p>,
    action: Action,
    states: Vec<NodeState>,
) -> Result<Planned<'p>, OutOfMemory>
    requires { types_of states.items ≡ taken (steps.participants (tabled board.now.program) (act_of action)) (slot_types board.now.program.members) }
{
    Plan::make(alloc, board.program(), 0, action, states)
}

/// A plan for a roll of the die.
pub fn made(rt: &impl Abort, alloc: Global, lent: &Setting, spare: Spare) -> Came {
    let board = Board::start(alloc, &lent.program).got(rt);
    let action = made::action(rt, alloc, lent.program.types(), "roll(5)");
    let states = copies(rt, alloc, &board, &action);
    let hoard = all_but(rt, alloc, spare);
    let answer = made_of(alloc, &board, action, states);
    drop(hoard);
    match answer {
        Ok(Planned::Ready(_)) => Came::Answered,
        Ok(_) => Came::Wrong,
        Err(_) => Came::Wanting,
    }
}

/// How many actions are committed, so that some want more room than was taken before.
const COMMITS: usize = 12;

/// The counter's tick of this number, from 0.
fn tick(rt: &impl Abort, alloc: Global, program: &Program, number: usize) -> Action {
    let count = number.saturating_add(5);
    let text = format!(in alloc; "tick({count})").got(rt);
    made::action(rt, alloc, program.types(), text.as_str())
}

/// Whether this is told of the board.
fn is_board(rt: &impl Abort, alloc: Global, board: &Board<'_>, told: &str) -> bool {
    told_board(rt, alloc, board).as_str() == told
}

/// Commits a tick with so many bytes. One that is given back for want of memory is committed again with ample memory, in the same place.
fn commit(
    rt: &impl Abort,
    alloc: Global,
    board: &mut Board<'_>,
    number: usize,
    spare: Spare,
) -> Came {
    let before = told_board(rt, alloc, board);
    let action = tick(rt, alloc, board.program(), number);
    let plan = planned(rt, alloc, board, 0, action);
    let hoard = all_but(rt, alloc, spare);
    let verdict = board.commit(0, plan);
    drop(hoard);
    match verdict {
        Verdict::Committed(index) => Came::Answered.and(index == number),
        Verdict::Memory(plan) => {
            let came = Came::Wanting.and(is_board(rt, alloc, board, before.as_str()));
            let again = board.commit(0, plan);
            came.and(matches!(again, Verdict::Committed(index) if index == number))
        }
        _ => Came::Wrong,
    }
}

/// Commits of some actions, one after another, up to the first that is refused memory.
pub fn committed(rt: &impl Abort, alloc: Global, lent: &Setting, spare: Spare) -> Came {
    let mut board = Board::start(alloc, &lent.program).got(rt);
    let mut came = Came::Answered;
    for number in 0..COMMITS {
        if matches!(came, Came::Answered) {
            came = commit(rt, alloc, &mut board, number, spare);
        }
    }
    came
}

/// The event's answer, which with ample memory is this one. Where it is refused memory, the board stays, and the worker's next commit is answered so.
fn event_and_after(
    rt: &impl Abort,
    alloc: Global,
    core: &mut Core<'_>,
    given: Event,
    wanted: Answer,
    after: Answer,
    spare: Spare,
) -> Came {
    let before = told_board(rt, alloc, core.board());
    let hoard = all_but(rt, alloc, spare);
    let answer = core.event(given);
    drop(hoard);
    match answer {
        Ok(answer) => Came::Answered.and(answer == wanted),
        Err(_) => {
            let came = Came::Wanting.and(is_board(rt, alloc, core.board(), before.as_str()));
            came.and(core.event(Event::Commit(0)).got(rt) == after)
        }
    }
}

/// The tick of this number is copied and committed.
fn ticked(
    rt: &impl Abort,
    alloc: Global,
    core: &mut Core<'_>,
    tick: Action,
    number: usize,
    spare: Spare,
) -> Came {
    let copy = Event::Copy(0, tick);
    let copied = event_and_after(
        rt,
        alloc,
        core,
        copy,
        Answer::Planned,
        Answer::NoPlan,
        spare,
    );
    match copied {
        Came::Answered => {
            let wanted = Answer::Committed(number);
            event_and_after(rt, alloc, core, Event::Commit(0), wanted, wanted, spare)
        }
        other => other,
    }
}

/// A worker that copies and commits: where its copy is refused memory it has no plan, and where its commit is it has the one from before.
pub fn answered(rt: &impl Abort, alloc: Global, lent: &Setting, spare: Spare) -> Came {
    let mut core = Core::start(alloc, &lent.program).got(rt);
    let mut came = Came::Answered;
    for number in 0..COMMITS {
        if matches!(came, Came::Answered) {
            let tick = tick(rt, alloc, &lent.program, number);
            came = ticked(rt, alloc, &mut core, tick, number, spare);
        }
    }
    came
}

/// What is told of a board that goes on from the log.
const BOARD: &str = "0 tick(5); 0 tick(6); 1 reset, state(5)";

/// A board that goes on from a log.
pub fn resumed(rt: &impl Abort, alloc: Global, lent: &Setting, spare: Spare) -> Came {
    let hoard = all_but(rt, alloc, spare);
    let answer = Board::resume(alloc, &lent.program, &lent.log);
    drop(hoard);
    match answer {
        Ok(board) => Came::Answered.and(is_board(rt, alloc, &board, BOARD)),
        Err(error) => refused(error),
    }
}

/// What came of it that is refused so.
fn refused(error: RunErr) -> Came {
    match error {
        RunErr::OutOfMemory => Came::Wanting,
        _ => Came::Wrong,
    }
}

/// A room that goes on from a log.
pub fn room_resumed(rt: &impl Abort, alloc: Global, lent: &Setting, spare: Spare) -> Came {
    let hoard = all_but(rt, alloc, spare);
    let answer = Room::resume(alloc, &lent.program, &lent.log, &lent.script, 3);
    drop(hoard);
    match answer {
        Ok(room) => Came::Answered
            .and(is_board(rt, alloc, room.board(), BOARD))
            .and(room.is_of(&lent.program, &lent.script, 3, &lent.log.entries)),
        Err(error) => refused(error),
    }
}
