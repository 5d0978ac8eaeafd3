//! `replay --log --invariants --json`: whether the states of a log keep the invariants of its source, told in JSON objects.

ghost use Rattle.std.specs.Prelude.{◌≡◌, ◌⊎◌, true, IfOk, IfErr, IfSome, IsErrOf};
ghost use Rattle.std.specs.Option.{option_copied};
ghost use Rattle.ioa_tree.specs.Hosts.{Hosted};
ghost use Rattle.ioa_compose.specs.Held.{composed_of};
ghost use Rattle.ioa_compose.specs.Simulates.{Simulates};
ghost use Rattle.ioa_compile.specs.Subjects.{of_hosts};
ghost use Rattle.ioa_device.specs.Devices.{BothPassUnless, FailsWhere, change};
ghost use Rattle.ioa_device.specs.declared.failure.LogErr.{LogErr};
ghost use Rattle.ioa_device.specs.Failing.{HasFailed};
ghost use Rattle.ioa_inspect.specs.Breaking.{broken_of};
ghost use Rattle.ioa_serving.specs.Failing.{IsInvariantFailure, IsNoLogOf, IsUnwritten};
ghost use Rattle.ioa_serving.specs.Json.{broken_json, verdict_line};
ghost use Rattle.ioa_serving.specs.Logs.{found_of};
ghost use Rattle.ioa_serving.specs.Objects.{BeginsFindingAs, IsFoundTold, IsInvariantReplayAs};

use crate::compile::{compose_text, is_object};
use crate::failure::Failure;
use crate::invariant_replay::Finding;
use crate::json::{broken_members, verdict_object};
use crate::objects::objects_of;
use ioa_compose::Composition;
use ioa_device::{InputDevice, LogErr, OutputDevice, send_all};
use ioa_inspect::{Broken, inspect_log};
use ioa_value::OutOfMemory;
use std::alloc::Global;

/// Replays a log as `replay_invariants_text` does, and writes JSON objects: one with the first invariant that is broken, or else those of the run.
///
/// # Errors
/// Those of `replay_invariants_text`: nothing was written then, or, where a device failed, no more than a beginning of the objects.
pub fn replay_invariants_objects_text<R: InputDevice, W: OutputDevice>(
    alloc: Global,
    text: &[u8],
    composition: Option<&str>,
    input: &mut R,
    output: &mut W,
) -> Result<Finding, Failure>
    ensures replays { IfOk result (λ finding. IfSome (R.remaining input.old) (λ bytes.
        IsInvariantReplayAs true text.now (option_copied composition.entry) bytes (found_of finding) (W.contents output.old) (W.contents output.new))) }
    ensures refused { IfErr result (λ e. IsInvariantFailure text.now (option_copied composition.entry) (R.remaining input.old)
        (HasFailed (R.failure_count input.old) (R.failure_count input.new) ⊎ HasFailed (W.failure_count output.old) (W.failure_count output.new)) e) }
    ensures unwritten { IfErr result (λ e. IsUnwritten (BeginsFindingAs true text.now (option_copied composition.entry) (R.remaining input.old))
        (W.contents output.old) (W.contents output.new) e) }
    ensures devices { BothPassUnless (IsErrOf result (Failure.List LogErr.Io)) (change R.remaining R.failure_count input.old input.new) (change W.contents W.failure_count output.old output.new) }
{
    if is_object(text) {
        return Err(Failure::SourceWanted);
    }
    let composed = compose_text(alloc, text, composition)?;
    let (told, finding) = inspect_objects(alloc, &composed, input)?;
    send_all(output, told.as_slice())?;
    Ok(finding)
}

/// What is found in a log of the run of the hosts that the composition stands for, and the objects that tell it.
fn inspect_objects<R: InputDevice>(
    alloc: Global,
    composition: &Composition,
    input: &mut R,
) -> Result<(Vec<u8>, Finding), LogErr>
    ensures finds { IfOk result (λ told. (h : Hosted) → Simulates h (composed_of composition.now)
        → IfSome (R.remaining input.old) (λ bytes. IsFoundTold h bytes (found_of told.1) told.0.items)) }
    ensures refused { IfErr result (λ e. (h : Hosted) → Simulates h (composed_of composition.now)
        → IfSome (R.remaining input.old) (λ bytes. IsNoLogOf e (of_hosts h) bytes)) }
    ensures devices { FailsWhere (IsErrOf result LogErr.Io) (change R.remaining R.failure_count input.old input.new) }
{
    let inspection = inspect_log(alloc, composition, input)?;
    match inspection.broken {
        Some(broken) => {
            let line = broken_object(alloc, broken)?;
            Ok((line, Finding::Broken(broken)))
        }
        None => {
            let replayed = inspection.replayed;
            let objects = objects_of(alloc, &replayed)?;
            Ok((objects, Finding::Unbroken(replayed.end)))
        }
    }
}

/// A line with an invariant that is broken as an object.
fn broken_object(alloc: Global, broken: Broken) -> Result<Vec<u8>, OutOfMemory>
    ensures { IfOk result (λ line. line.items ≡ verdict_line (broken_json (broken_of broken))) }
{
    let members = broken_members(alloc, broken)?;
    let line = verdict_object(alloc, members.as_str())?;
    let mut bytes = Vec::new(alloc);
    bytes.extend_from_slice(line.as_bytes())?;
    Ok(bytes)
}
