//! `replay --log --invariants`: whether the states of a log keep the invariants of its source.

ghost use Rattle.std.specs.Prelude.{◌≡◌, ◌⊎◌, ℕ, IfOk, IfErr, IfSome, IsErrOf};
ghost use Rattle.std.specs.Option.{option_copied};
ghost use Rattle.std.specs.String.{string_bytes};
ghost use Rattle.ioa_tree.specs.Hosts.{Hosted};
ghost use Rattle.ioa_compose.specs.Held.{composed_of};
ghost use Rattle.ioa_compose.specs.Simulates.{Simulates};
ghost use Rattle.ioa_compile.specs.Subjects.{of_hosts};
ghost use Rattle.ioa_device.specs.Devices.{BothPassUnless, FailsWhere, change};
ghost use Rattle.ioa_device.specs.declared.failure.LogErr.{LogErr};
ghost use Rattle.ioa_device.specs.Failing.{HasFailed};
ghost use Rattle.ioa_inspect.specs.Breaking.{broken_of};
ghost use Rattle.ioa_serving.specs.Failing.{BeginsFoundOf, IsInvariantFailure, IsNoLogOf, IsUnwritten};
ghost use Rattle.ioa_serving.specs.Headline.{IsInvariantReplay};
ghost use Rattle.ioa_serving.specs.Logs.{IsFoundInLog, broken_line, found_of};

use crate::compile::{compose_text, is_object};
use crate::failure::Failure;
use ioa_compose::Composition;
use ioa_device::{InputDevice, LogErr, OutputDevice, send_all};
use ioa_inspect::{Broken, inspect_log};
use ioa_system::End;
use ioa_value::OutOfMemory;
use std::alloc::Global;
use std::fmt::Write;

/// What is found where the invariants of a log's states are asked for.
#[derive(Clone, Copy, Debug, PartialEq, Eq)]
pub enum Finding {
    /// The first that is broken.
    Broken(Broken),
    /// None is broken, and the log ends so.
    Unbroken(End),
}

/// Replays a log in a composition of a source, both given as texts, and asks for the source's invariants in each of its states: where
/// the log is of the composition's run, writes the first invariant that is broken, or else what a replay of the log writes, and answers
/// which it is. The log is read and judged line by line.
///
/// # Errors
/// `SourceWanted` where the bytes are an object, which has no invariants; else as those of a replay of a log. They are found before a
/// broken invariant.
pub fn replay_invariants_text<R: InputDevice, W: OutputDevice>(
    alloc: Global,
    text: &[u8],
    composition: Option<&str>,
    input: &mut R,
    output: &mut W,
) -> Result<Finding, Failure>
    ensures replays { IfOk result (λ finding. IfSome (R.remaining input.old) (λ bytes.
        IsInvariantReplay text.now (option_copied composition.entry) bytes (found_of finding) (W.contents output.old) (W.contents output.new))) }
    ensures refused { IfErr result (λ e. IsInvariantFailure text.now (option_copied composition.entry) (R.remaining input.old)
        (HasFailed (R.failure_count input.old) (R.failure_count input.new) ⊎ HasFailed (W.failure_count output.old) (W.failure_count output.new)) e) }
    ensures unwritten { IfErr result (λ e. IsUnwritten (BeginsFoundOf text.now (option_copied composition.entry) (R.remaining input.old))
        (W.contents output.old) (W.contents output.new) e) }
    ensures devices { BothPassUnless (IsErrOf result (Failure.List LogErr.Io)) (change R.remaining R.failure_count input.old input.new) (change W.contents W.failure_count output.old output.new) }
{
    if is_object(text) {
        return Err(Failure::SourceWanted);
    }
    let composed = compose_text(alloc, text, composition)?;
    let (told, finding) = inspect(alloc, &composed, input)?;
    send_all(output, told.as_bytes())?;
    Ok(finding)
}

/// What is found in a log of the run of the hosts that the composition stands for, and the text that tells it.
fn inspect<R: InputDevice>(
    alloc: Global,
    composition: &Composition,
    input: &mut R,
) -> Result<(String, Finding), LogErr>
    ensures finds { IfOk result (λ told. (h : Hosted) → Simulates h (composed_of composition.now)
        → IfSome (R.remaining input.old) (λ bytes. IsFoundInLog h bytes (found_of told.1) (string_bytes told.0))) }
    ensures refused { IfErr result (λ e. (h : Hosted) → Simulates h (composed_of composition.now)
        → IfSome (R.remaining input.old) (λ bytes. IsNoLogOf e (of_hosts h) bytes)) }
    ensures devices { FailsWhere (IsErrOf result LogErr.Io) (change R.remaining R.failure_count input.old input.new) }
{
    let inspection = inspect_log(alloc, composition, input)?;
    match inspection.broken {
        Some(broken) => {
            let line = broken_text(alloc, broken)?;
            Ok((line, Finding::Broken(broken)))
        }
        None => {
            let replayed = inspection.replayed;
            Ok((replayed.text, Finding::Unbroken(replayed.end)))
        }
    }
}

/// A line with an invariant that is broken.
fn broken_text(alloc: Global, broken: Broken) -> Result<String, OutOfMemory>
    ensures { IfOk result (λ text. string_bytes text ≡ broken_line (broken_of broken)) }
{
    let Broken {
        state,
        component,
        invariant,
    } = broken;
    let mut text = String::new(alloc);
    writeln!(
        text,
        "invariant {invariant} of component {component} broken after {state}"
    )?;
    Ok(text)
}
