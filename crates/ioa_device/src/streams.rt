//! Whole texts through devices, piece by piece, and which device is to blame.

ghost use Rattle.std.specs.Prelude.{◌≡◌, ◌≤◌, ◌-◌, ◌^◌, ◌⊎◌, ℕ, OnOk, OnErr, IfOk, IfErr, IfSome, IsErrOf, take};
ghost use Rattle.std.specs.Io.KnownBytes.{Appends};
ghost use Rattle.ioa_device.specs.Devices.{FailsWhere, change};
ghost use Rattle.ioa_device.specs.Failing.{FailedOnceAtMost, HasFailed};
ghost use Rattle.ioa_device.specs.declared.failure.LogErr.{LogErr};

use crate::device::{Failed, InputDevice, OutputDevice};
use crate::failure::LogErr;
use std::alloc::Global;

/// How many bytes are asked for in one read.
pub(crate) const PIECE: usize = 65_536;

/// All that a reader gives.
///
/// # Errors
/// `Io` exactly where the reader failed in this call; `OutOfMemory`.
pub fn read_all<R: InputDevice>(alloc: Global, input: &mut R) -> Result<Vec<u8>, LogErr>
    ensures ok { IfOk result (λ text. IfSome (R.remaining input.old) (λ bytes. text.items ≡ bytes)) }
    ensures devices { FailsWhere (IsErrOf result LogErr.Io) (change R.remaining R.failure_count input.old input.new) }
    ensures only { IfErr result (λ e. (e ≡ LogErr.Io) ⊎ (e ≡ LogErr.OutOfMemory)) }
{
    let mut text = Vec::new(alloc);
    let mut room = vec![in alloc; 0u8; PIECE]?;
    let piece = room.as_mut_slice();
    loop {
        match input.pull(piece) {
            Ok(0) => return Ok(text),
            Ok(count) => text.extend_from_slice(&piece[..count])?,
            Err(Failed) => return Err(LogErr::Io),
        }
    }
}

/// The error, which the reader is to blame for where it is a device's: its count says so then.
pub fn blamed<R: InputDevice>(input: &mut R, error: LogErr) -> LogErr
    requires { error ≡ LogErr.Io → 2 ^ 64 - 1 ≤ R.given_count input.old }
    ensures same { result ≡ error }
    ensures devices { FailsWhere (error ≡ LogErr.Io) (change R.remaining R.failure_count input.old input.new) }
{
    if error == LogErr::Io {
        input.refuse();
    }
    error
}

/// Hands all of a text to a writer.
///
/// # Errors
/// `Io` where the writer failed in this call, which is not tried again. It has taken a beginning of the text then.
pub fn send_all<W: OutputDevice>(output: &mut W, text: &[u8]) -> Result<(), LogErr>
    ensures ok { OnOk result (Appends (W.contents output.old) (W.contents output.new) text.now) }
    ensures io { IfErr result (λ e. (e ≡ LogErr.Io) × HasFailed (W.failure_count output.old) (W.failure_count output.new)) }
    ensures passed { OnOk result (W.failure_count output.new ≡ W.failure_count output.old) }
    ensures once { FailedOnceAtMost (W.failure_count output.old) (W.failure_count output.new) }
    ensures counts { W.failure_count output.old ≤ W.failure_count output.new }
    ensures begun { OnErr result ((k : ℕ) × Appends (W.contents output.old) (W.contents output.new) (take k text.now)) }
{
    let mut at = 0;
    while at < text.len() {
        match output.push(&text[at..]) {
            Ok(taken) => at += taken,
            Err(Failed) => return Err(LogErr::Io),
        }
    }
    Ok(())
}
