//! Objects as lines of text, for people.

ghost use Rattle.std.specs.Prelude.{IfErr, IsErrOf, OnOk};
ghost use Rattle.ioa_device.specs.Devices.{PassesUnless, change};
ghost use Rattle.ioa_device.specs.declared.failure.LogErr.{LogErr};
ghost use Rattle.ioa_device.specs.Failing.{HasFailed};
ghost use Rattle.ioa_serving.specs.Dumps as spec;

use crate::failure::Failure;
use ioa_device::{OutputDevice, send_all};
use ioa_dump::dump_text;
use ioa_loader::read_object;
use std::alloc::Global;

/// Reads an object, and writes the tables and the code of its program, an item a line.
///
/// # Errors
/// `Object` where the bytes are no object, as those of a source; or want of memory: nothing was written then. `List` where the device
/// failed in this call, and then a beginning of the text was written.
pub fn dump_object<W: OutputDevice>(
    alloc: Global,
    bytes: &[u8],
    output: &mut W,
) -> Result<(), Failure>
    ensures dumps { OnOk result (spec.IsDumped bytes.now (W.contents output.old) (W.contents output.new)) }
    ensures refused { IfErr result (λ e. spec.IsUndumped bytes.now (HasFailed (W.failure_count output.old) (W.failure_count output.new))
        (W.contents output.old) (W.contents output.new) e) }
    ensures devices { PassesUnless (IsErrOf result (Failure.List LogErr.Io)) (change W.contents W.failure_count output.old output.new) }
{
    let program = read_object(alloc, bytes)?;
    let text = dump_text(alloc, &program)?;
    send_all(output, text.as_bytes())?;
    Ok(())
}
