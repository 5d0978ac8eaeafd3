//! Replays in either form: as text, or as JSON objects.

ghost use Rattle.std.specs.Prelude.{◌⊎◌, IfOk, IfErr, IfSome, IsErrOf};
ghost use Rattle.std.specs.Option.{option_copied};
ghost use Rattle.ioa_system.specs.Outcomes.{ending_of};
ghost use Rattle.ioa_device.specs.Devices.{BothPassUnless, change};
ghost use Rattle.ioa_device.specs.declared.failure.LogErr.{LogErr};
ghost use Rattle.ioa_device.specs.Failing.{HasFailed};
ghost use Rattle.ioa_serving.specs.Failing.{IsFailure, IsInvariantFailure, IsLogReplayFailure, IsUnwritten};
ghost use Rattle.ioa_serving.specs.Logs.{found_of};
ghost use Rattle.ioa_serving.specs.Objects.{BeginsFindingAs, BeginsLogReplayAs, BeginsReplayAs, IsInvariantReplayAs, IsLogReplayAs, IsReplayAs};

use crate::failure::Failure;
use crate::invariant_objects::replay_invariants_objects_text;
use crate::invariant_replay::{Finding, replay_invariants_text};
use crate::log_replay::replay_log_text;
use crate::replay::replay_text;
use crate::replay_objects::{replay_log_objects_text, replay_objects_text};
use ioa_device::{InputDevice, OutputDevice};
use ioa_system::End;
use std::alloc::Global;

/// Replays a list of actions in a composition of a source, or in an object, by the bytes of both: writes the external trace and how the list ends, as JSON
/// objects or not, and answers that end.
///
/// # Errors
/// Those of `replay_text`.
pub fn replay_in_form<R: InputDevice, W: OutputDevice>(
    alloc: Global,
    text: &[u8],
    composition: Option<&str>,
    json: bool,
    input: &mut R,
    output: &mut W,
) -> Result<End, Failure>
    ensures replays { IfOk result (λ end. IfSome (R.remaining input.old) (λ bytes.
        IsReplayAs json text.now (option_copied composition.entry) bytes (ending_of end) (W.contents output.old) (W.contents output.new))) }
    ensures refused { IfErr result (λ e. IsFailure text.now (option_copied composition.entry) (R.remaining input.old)
        (HasFailed (R.failure_count input.old) (R.failure_count input.new) ⊎ HasFailed (W.failure_count output.old) (W.failure_count output.new)) e) }
    ensures unwritten { IfErr result (λ e. IsUnwritten (BeginsReplayAs json text.now (option_copied composition.entry) (R.remaining input.old))
        (W.contents output.old) (W.contents output.new) e) }
    ensures devices { BothPassUnless (IsErrOf result (Failure.List LogErr.Io)) (change R.remaining R.failure_count input.old input.new) (change W.contents W.failure_count output.old output.new) }
{
    if json {
        return replay_objects_text(alloc, text, composition, input, output);
    }
    replay_text(alloc, text, composition, input, output)
}

/// Replays a log in a composition of a source, or in an object, by the bytes of both: where the log is of the composition's run, writes the external trace and
/// how the log ends, as JSON objects or not, and answers that end.
///
/// # Errors
/// Those of `replay_log_text`.
pub fn replay_log_in_form<R: InputDevice, W: OutputDevice>(
    alloc: Global,
    text: &[u8],
    composition: Option<&str>,
    json: bool,
    input: &mut R,
    output: &mut W,
) -> Result<End, Failure>
    ensures replays { IfOk result (λ end. IfSome (R.remaining input.old) (λ bytes.
        IsLogReplayAs json text.now (option_copied composition.entry) bytes (ending_of end) (W.contents output.old) (W.contents output.new))) }
    ensures refused { IfErr result (λ e. IsLogReplayFailure text.now (option_copied composition.entry) (R.remaining input.old)
        (HasFailed (R.failure_count input.old) (R.failure_count input.new) ⊎ HasFailed (W.failure_count output.old) (W.failure_count output.new)) e) }
    ensures unwritten { IfErr result (λ e. IsUnwritten (BeginsLogReplayAs json text.now (option_copied composition.entry) (R.remaining input.old))
        (W.contents output.old) (W.contents output.new) e) }
    ensures devices { BothPassUnless (IsErrOf result (Failure.List LogErr.Io)) (change R.remaining R.failure_count input.old input.new) (change W.contents W.failure_count output.old output.new) }
{
    if json {
        return replay_log_objects_text(alloc, text, composition, input, output);
    }
    replay_log_text(alloc, text, composition, input, output)
}

/// Replays a log in a composition of a source, both given as texts, and asks for the source's invariants in each of its states: where the log is of the
/// composition's run, writes the first invariant that is broken, or else what a replay of the log writes, as JSON objects or not, and answers which it is.
///
/// # Errors
/// Those of `replay_invariants_text`.
pub fn replay_invariants_in_form<R: InputDevice, W: OutputDevice>(
    alloc: Global,
    text: &[u8],
    composition: Option<&str>,
    json: bool,
    input: &mut R,
    output: &mut W,
) -> Result<Finding, Failure>
    ensures replays { IfOk result (λ finding. IfSome (R.remaining input.old) (λ bytes.
        IsInvariantReplayAs json text.now (option_copied composition.entry) bytes (found_of finding) (W.contents output.old) (W.contents output.new))) }
    ensures refused { IfErr result (λ e. IsInvariantFailure text.now (option_copied composition.entry) (R.remaining input.old)
        (HasFailed (R.failure_count input.old) (R.failure_count input.new) ⊎ HasFailed (W.failure_count output.old) (W.failure_count output.new)) e) }
    ensures unwritten { IfErr result (λ e. IsUnwritten (BeginsFindingAs json text.now (option_copied composition.entry) (R.remaining input.old))
        (W.contents output.old) (W.contents output.new) e) }
    ensures devices { BothPassUnless (IsErrOf result (Failure.List LogErr.Io)) (change R.remaining R.failure_count input.old input.new) (change W.contents W.failure_count output.old output.new) }
{
    if json {
        return replay_invariants_objects_text(alloc, text, composition, input, output);
    }
    replay_invariants_text(alloc, text, composition, input, output)
}
