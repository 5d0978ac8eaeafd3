//! `replay`: from a list to its trace.

ghost use Rattle.std.specs.Prelude.{◌⊎◌, IfOk, IfErr, IfSome, IsErrOf};
ghost use Rattle.std.specs.Option.{option_copied};
ghost use Rattle.ioa_system.specs.Outcomes.{ending_of};
ghost use Rattle.ioa_device.specs.Devices.{BothPassUnless, change};
ghost use Rattle.ioa_device.specs.declared.failure.LogErr.{LogErr};
ghost use Rattle.ioa_device.specs.Failing.{HasFailed};
ghost use Rattle.ioa_serving.specs.Failing.{BeginsReplayOf, IsFailure, IsUnwritten};
ghost use Rattle.ioa_serving.specs.Headline.{IsReplay};

use crate::compile::program_of;
use crate::failure::Failure;
use ioa_device::{InputDevice, OutputDevice};
use ioa_replay::replay_list;
use ioa_system::End;
use std::alloc::Global;

/// Replays a list of actions in a composition of a source, or in an object, by the bytes of both: writes the external trace and how
/// the list ends, and answers that end.
///
/// Whatever the text and the list: where the answer is `Ok`, the text spells one tree, and what was written is the
/// run of the automata of that tree, by their meaning alone; or it is an object, and what was written is the run of its program.
///
/// # Errors
/// `Refused` where the text is no source, the source is not well formed, or it has no composition of the name, or one
/// that is refused; `Object` where the bytes are no object; `List` where a line of the list is no action, or a device failed in this call; or want of memory. Nothing
/// was written then, or, where a device failed, no more than a beginning of the text.
pub fn replay_text<R: InputDevice, W: OutputDevice>(
    alloc: Global,
    text: &[u8],
    composition: Option<&str>,
    input: &mut R,
    output: &mut W,
) -> Result<End, Failure>
    ensures replays { IfOk result (λ end. IfSome (R.remaining input.old) (λ bytes.
        IsReplay text.now (option_copied composition.entry) bytes (ending_of end) (W.contents output.old) (W.contents output.new))) }
    ensures refused { IfErr result (λ e. IsFailure text.now (option_copied composition.entry) (R.remaining input.old)
        (HasFailed (R.failure_count input.old) (R.failure_count input.new) ⊎ HasFailed (W.failure_count output.old) (W.failure_count output.new)) e) }
    ensures unwritten { IfErr result (λ e. IsUnwritten (BeginsReplayOf text.now (option_copied composition.entry) (R.remaining input.old))
        (W.contents output.old) (W.contents output.new) e) }
    ensures devices { BothPassUnless (IsErrOf result (Failure.List LogErr.Io)) (change R.remaining R.failure_count input.old input.new) (change W.contents W.failure_count output.old output.new) }
{
    let program = program_of(alloc, text, composition)?;
    let end = replay_list(alloc, &program, input, output)?;
    Ok(end)
}
