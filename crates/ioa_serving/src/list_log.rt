//! `log`: from a list to the log of its run.

ghost use Rattle.std.specs.Prelude.{◌⊎◌, IfOk, IfErr, IfSome, IsErrOf};
ghost use Rattle.std.specs.Option.{option_copied};
ghost use Rattle.ioa_system.specs.Outcomes.{ending_of};
ghost use Rattle.ioa_device.specs.Devices.{BothPassUnless, change};
ghost use Rattle.ioa_device.specs.declared.failure.LogErr.{LogErr};
ghost use Rattle.ioa_device.specs.Failing.{HasFailed};
ghost use Rattle.ioa_serving.specs.Failing.{IsFailure, IsUnwritten};
ghost use Rattle.ioa_serving.specs.ListLogs.{BeginsListLogOf, IsListLog};

use crate::compile::program_of;
use crate::failure::Failure;
use ioa_device::{InputDevice, OutputDevice};
use ioa_log::log_list;
use ioa_system::End;
use std::alloc::Global;

/// Writes the log of the run of a list of actions in a composition of a source, or in an object, by the bytes of both, and answers how the
/// run ends. The log has the actions that are performed and, where one faults, this too, each with its worker.
///
/// # Errors
/// Those of `replay_text`: nothing was written then, or, where a device failed, no more than a beginning of the log.
pub fn log_list_text<R: InputDevice, W: OutputDevice>(
    alloc: Global,
    text: &[u8],
    composition: Option<&str>,
    input: &mut R,
    output: &mut W,
) -> Result<End, Failure>
    ensures logs { IfOk result (λ end. IfSome (R.remaining input.old) (λ bytes.
        IsListLog text.now (option_copied composition.entry) bytes (ending_of end) (W.contents output.old) (W.contents output.new))) }
    ensures refused { IfErr result (λ e. IsFailure text.now (option_copied composition.entry) (R.remaining input.old)
        (HasFailed (R.failure_count input.old) (R.failure_count input.new) ⊎ HasFailed (W.failure_count output.old) (W.failure_count output.new)) e) }
    ensures unwritten { IfErr result (λ e. IsUnwritten (BeginsListLogOf text.now (option_copied composition.entry) (R.remaining input.old))
        (W.contents output.old) (W.contents output.new) e) }
    ensures devices { BothPassUnless (IsErrOf result (Failure.List LogErr.Io)) (change R.remaining R.failure_count input.old input.new) (change W.contents W.failure_count output.old output.new) }
{
    let program = program_of(alloc, text, composition)?;
    let end = log_list(alloc, &program, input, output)?;
    Ok(end)
}
