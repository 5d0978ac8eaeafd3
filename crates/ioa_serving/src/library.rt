//! `library`: the source with the protocols, which can be checked, run and replayed.

ghost use Rattle.std.specs.Prelude.{OnOk, IfErr, IsErrOf};
ghost use Rattle.ioa_links.specs.Library.{library_text};
ghost use Rattle.ioa_device.specs.Devices.{PassesUnless, change};
ghost use Rattle.ioa_device.specs.declared.failure.LogErr.{LogErr};
ghost use Rattle.ioa_device.specs.Failing.{HasFailed};
ghost use Rattle.ioa_serving.specs.Libraries.{IsUnlisted};
ghost use Rattle.std.specs.Io.KnownBytes.{Appends};

use crate::failure::Failure;
use ioa_device::{OutputDevice, send_all};

/// Writes the library's source.
///
/// # Errors
/// `List` where the device failed in this call, and then a beginning of the text was written.
pub fn write_library<W: OutputDevice>(output: &mut W) -> Result<(), Failure>
    ensures writes { OnOk result (Appends (W.contents output.old) (W.contents output.new) library_text) }
    ensures refused { IfErr result (λ e. IsUnlisted (HasFailed (W.failure_count output.old) (W.failure_count output.new))
        (W.contents output.old) (W.contents output.new) e) }
    ensures devices { PassesUnless (IsErrOf result (Failure.List LogErr.Io)) (change W.contents W.failure_count output.old output.new) }
{
    send_all(output, ioa_links::text())?;
    Ok(())
}
