//! `graph`: pictures of compositions.

ghost use Rattle.std.specs.Prelude.{IfErr, IsErrOf, OnOk};
ghost use Rattle.std.specs.Option.{option_copied};
ghost use Rattle.ioa_device.specs.Devices.{PassesUnless, change};
ghost use Rattle.ioa_device.specs.declared.failure.LogErr.{LogErr};
ghost use Rattle.ioa_device.specs.Failing.{HasFailed};
ghost use Rattle.ioa_serving.specs.Pictures.{IsGraphed, IsUngraphed};

use crate::compile::program_of;
use crate::failure::Failure;
use ioa_device::{OutputDevice, send_all};
use ioa_picture::graph;
use std::alloc::Global;

/// Draws a composition of a source, or an object, by its bytes: writes its graph.
///
/// # Errors
/// Those of `program_of`: nothing was written then. `List` where the device failed in this call, and then a beginning of the graph was
/// written.
pub fn graph_text<W: OutputDevice>(
    alloc: Global,
    text: &[u8],
    composition: Option<&str>,
    output: &mut W,
) -> Result<(), Failure>
    ensures graphs { OnOk result (IsGraphed text.now (option_copied composition.entry) (W.contents output.old) (W.contents output.new)) }
    ensures refused { IfErr result (λ e. IsUngraphed text.now (option_copied composition.entry) (HasFailed (W.failure_count output.old) (W.failure_count output.new))
        (W.contents output.old) (W.contents output.new) e) }
    ensures devices { PassesUnless (IsErrOf result (Failure.List LogErr.Io)) (change W.contents W.failure_count output.old output.new) }
{
    let program = program_of(alloc, text, composition)?;
    let drawn = graph(alloc, &program)?;
    send_all(output, drawn.as_bytes())?;
    Ok(())
}
