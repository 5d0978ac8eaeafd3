//! Planning by the states as they are now on a board.

ghost use Rattle.std.specs.Prelude.{◌≡◌, IfOk, length};
ghost use Rattle.ioa_value.specs.Actions.{act_of};
ghost use Rattle.ioa_compile.specs.Tables.{tabled};
ghost use Rattle.ioa_system.specs.Systems.{values_of};
ghost use Rattle.ioa_board.specs.Boards.{now_of};
ghost use Rattle.ioa_board.specs.Planning.{Assesses, PlansNow};

use crate::assessed::Assessed;
use crate::board::Board;
use crate::plan::{assess, plan_by};
use crate::planned::Planned;
use ioa_node::NodeState;
use ioa_system::Participation;
use ioa_value::{Action, OutOfMemory};
use std::alloc::Global;

/// What the worker is answered that plans the action by the participants' states as they are now.
pub fn plan_now<'p>(
    alloc: Global,
    board: &Board<'p>,
    who: usize,
    action: Action,
) -> Result<Planned<'p>, OutOfMemory>
    ensures { IfOk result (PlansNow board.now who (act_of action)) }
{
    let (copied, assessed) = assess_now(alloc, board, who, &action)?;
    Ok(plan_by(board.program(), who, action, copied, assessed))
}

/// Equals of the participants' states as they are now, and whether the worker can plan the action by these. The action is looked up once.
fn assess_now(
    alloc: Global,
    board: &Board<'_>,
    who: usize,
    action: &Action,
) -> Result<(Vec<NodeState>, Assessed), OutOfMemory>
    ensures whole { IfOk result (λ _. length board.now.board.states ≡ length board.now.program.members) }
    ensures now { IfOk result (λ r. values_of r.0.items ≡ now_of (tabled board.now.program) (act_of action.now) board.now.board.states) }
    ensures assesses { IfOk result (λ r. Assesses board.now.program who (act_of action.now) r.0.items r.1) }
{
    let participation = Participation::of(alloc, board.program(), action)?;
    let numbers = participation.numbers(alloc)?;
    let copied = board.copy(&numbers)?;
    let assessed = assess(alloc, &participation, who, numbers, &copied)?;
    Ok((copied, assessed))
}
