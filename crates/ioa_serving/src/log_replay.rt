//! `replay --log`: whether a log is of the program's run, and its trace.

ghost use Rattle.std.specs.Prelude.{◌⊎◌, IfOk, IfErr, IfSome, IsErrOf};
ghost use Rattle.std.specs.Option.{option_copied};
ghost use Rattle.ioa_system.specs.Outcomes.{ending_of};
ghost use Rattle.ioa_device.specs.Devices.{BothPassUnless, change};
ghost use Rattle.ioa_device.specs.declared.failure.LogErr.{LogErr};
ghost use Rattle.ioa_device.specs.Failing.{HasFailed};
ghost use Rattle.ioa_serving.specs.Failing.{BeginsLogOf, IsLogReplayFailure, IsUnwritten};
ghost use Rattle.ioa_serving.specs.Headline.{IsLogReplay};

use crate::compile::program_of;
use crate::failure::Failure;
use ioa_device::{InputDevice, OutputDevice};
use ioa_replay::replay_log;
use ioa_system::End;
use std::alloc::Global;

/// Replays a log in a composition of a source, or in an object, by the bytes of both: where the log is of the composition's run, writes the
/// external trace and how the log ends, and answers that end. The log is read and judged line by line.
///
/// # Errors
/// As those of a replay of a list; and `List` where the bytes are no log, or a log of another run: of another worker, or of what the
/// composition does not do. The first line at fault is told.
pub fn replay_log_text<R: InputDevice, W: OutputDevice>(
    alloc: Global,
    text: &[u8],
    composition: Option<&str>,
    input: &mut R,
    output: &mut W,
) -> Result<End, Failure>
    ensures replays { IfOk result (λ end. IfSome (R.remaining input.old) (λ bytes.
        IsLogReplay text.now (option_copied composition.entry) bytes (ending_of end) (W.contents output.old) (W.contents output.new))) }
    ensures refused { IfErr result (λ e. IsLogReplayFailure text.now (option_copied composition.entry) (R.remaining input.old)
        (HasFailed (R.failure_count input.old) (R.failure_count input.new) ⊎ HasFailed (W.failure_count output.old) (W.failure_count output.new)) e) }
    ensures unwritten { IfErr result (λ e. IsUnwritten (BeginsLogOf text.now (option_copied composition.entry) (R.remaining input.old))
        (W.contents output.old) (W.contents output.new) e) }
    ensures devices { BothPassUnless (IsErrOf result (Failure.List LogErr.Io)) (change R.remaining R.failure_count input.old input.new) (change W.contents W.failure_count output.old output.new) }
{
    let program = program_of(alloc, text, composition)?;
    let end = replay_log(alloc, &program, input, output)?;
    Ok(end)
}
