//! `explain`: the explanation of a topic, for people.

ghost use Rattle.std.specs.Prelude.{OnOk, IfErr, IsErrOf};
ghost use Rattle.ioa_device.specs.Devices.{PassesUnless, change};
ghost use Rattle.ioa_device.specs.declared.failure.LogErr.{LogErr};
ghost use Rattle.ioa_device.specs.Failing.{HasFailed};
ghost use Rattle.ioa_serving.specs.Explaining.{IsExplained, IsUnexplained};

use crate::failure::Failure;
use ioa_device::{OutputDevice, send_all};
use ioa_request::Topic;
use ioa_request::explanations::explanation;
use std::alloc::Global;

/// Writes what a topic means, what gives it, and what to do then.
///
/// # Errors
/// `List` where the device failed in this call, and then a beginning of the text was written; or want of memory, and then
/// nothing was.
pub fn explain<W: OutputDevice>(alloc: Global, topic: Topic, output: &mut W) -> Result<(), Failure>
    ensures explains { OnOk result (IsExplained topic (W.contents output.old) (W.contents output.new)) }
    ensures refused { IfErr result (λ e. IsUnexplained topic (HasFailed (W.failure_count output.old) (W.failure_count output.new))
        (W.contents output.old) (W.contents output.new) e) }
    ensures devices { PassesUnless (IsErrOf result (Failure.List LogErr.Io)) (change W.contents W.failure_count output.old output.new) }
{
    let explanation = explanation(topic);
    let text = format!(in alloc; "{explanation}")?;
    send_all(output, text.as_bytes())?;
    Ok(())
}
