//! What has to hold of turns and of the script before a run begins.

ghost use Rattle.std.specs.Prelude.{◌≡◌, ◌↔◌, ◌≤◌, All, Err, IfErr, IfOk, IsErrOf, IsTrue, List, Ok, map};
ghost use Rattle.ioa_value.specs.Actions.{act_of};
ghost use Rattle.ioa_value.specs.Plain.{Val};
ghost use Rattle.ioa_compile.specs.Tables.{start_states, tabled};
ghost use Rattle.ioa_system.specs.Logs.{logged};
ghost use Rattle.ioa_board.specs.ProgramRooms.{IsInput, room_on};
ghost use Rattle.ioa_run.specs.Alone.{RefusesResumed, most_turns};
ghost use Rattle.ioa_board.specs.Boards.{Standing};
ghost use Rattle.ioa_board.specs.Resuming.{resumption};
ghost use Rattle.ioa_run.specs.Rounds.{Checks};
ghost use Rattle.ioa_board.specs.declared.run_err.RunErr.{RunErr};

use ioa_board::{Room, RunErr};
use ioa_compile::Program;
use ioa_system::{Log, Participation};
use ioa_value::{Action, OutOfMemory};
use std::alloc::Global;

/// More turns than these are too many.
const MOST_TURNS: u64 = 100_000;

/// Whether a run may begin, so far as turns and inputs say.
pub(crate) fn check(
    alloc: Global,
    program: &Program,
    turns: u64,
    inputs: &[Action],
) -> Result<(), RunErr>
    ensures { Checks program.now (map act_of inputs.now) turns result }
{
    if turns > MOST_TURNS {
        return Err(RunErr::TooManyTurns);
    }
    for i in 0..inputs.len() {
        if !is_input(alloc, program, &inputs[i])? {
            return Err(RunErr::BadInput(i));
        }
    }
    Ok(())
}

/// The room of a run that goes on from what the log tells, where turns and inputs say that it may.
pub(crate) fn resumed_room<'p>(
    alloc: Global,
    program: &'p Program,
    log: &Log,
    inputs: &'p [Action],
    turns: u64,
) -> Result<Room<'p>, RunErr>
    ensures fine { IfOk result (λ _. (turns ≤ most_turns) × All (IsInput (tabled program.now)) (map act_of inputs.now)) }
    ensures resumed { IfOk result (λ r. (b : Standing (List Val)) × (resumption (tabled program.now) (start_states program.now) (logged log.now) ≡ Ok b) × (r ≡ room_on program.now b (map act_of inputs.now) turns)) }
    ensures refused { IfErr result (λ e. RefusesResumed program.now (map act_of inputs.now) turns (logged log.now) (Err e)) }
    ensures threads { IsErrOf result RunErr.Threads → ⊥ }
{
    check(alloc, program, turns, inputs)?;
    Room::resume(alloc, program, log, inputs, turns)
}

/// Whether the action is an input of the composition.
fn is_input(alloc: Global, program: &Program, action: &Action) -> Result<bool, OutOfMemory>
    ensures { IfOk result (λ yes. IsTrue yes ↔ IsInput (tabled program.now) (act_of action.now)) }
{
    let participation = Participation::of(alloc, program, action)?;
    Ok(!participation.participants().is_empty() && participation.owner().is_none())
}
