//! What there is to say of the states that a run reached: what its components may perform next.

ghost use Rattle.std.specs.Prelude.{◌≡◌, ◌++◌, OnOk, map};
ghost use Rattle.std.specs.String.{string_bytes};
ghost use Rattle.ioa_value.specs.Actions.{act_of};
ghost use Rattle.ioac.specs.Remarks.{TellsReached};

use ioa_account::Told;
use ioa_compile::compile;
use ioa_enabled::put_next;
use ioa_system::run_list;
use ioa_value::{Action, OutOfMemory};
use std::alloc::Global;

/// Puts which of their own actions the composition's components may perform next, in the states that the run over these actions reaches, or that they perform none
/// without an input.
pub fn put_reached(
    alloc: Global,
    text: &mut String,
    told: &Told<'_>,
    actions: &[Action],
) -> Result<(), OutOfMemory>
    ensures { OnOk result (TellsReached told.now (map act_of actions.now) (string_bytes text.old) (string_bytes text.new)) }
{
    let program = compile(alloc, told.composition)?;
    let run = run_list(alloc, &program, actions)?;
    put_next(alloc, text, told.composition, &program, &run.states)
}
