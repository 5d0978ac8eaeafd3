//! `replay --states` and `replay --enabled`: the states in which lists and logs end, and what is enabled in them.

ghost use Rattle.std.specs.Prelude.{◌≡◌, ◌⊎◌, ◌++◌, ℕ, List, IfOk, IfErr, IfSome, IsErrOf, OnOk};
ghost use Rattle.std.specs.Option.{option_copied};
ghost use Rattle.std.specs.String.{string_bytes};
ghost use Rattle.ioa_value.specs.Lists.{BadLine};
ghost use Rattle.ioa_tree.specs.Hosts.{HostState, Hosted};
ghost use Rattle.ioa_tree.specs.Likes.{AllRelated};
ghost use Rattle.ioa_tree.specs.Meaning.{Env};
ghost use Rattle.ioa_compose.specs.Held.{composed_of};
ghost use Rattle.ioa_compose.specs.Simulates.{Simulates};
ghost use Rattle.ioa_compile.specs.Implements.{Implements};
ghost use Rattle.ioa_compile.specs.Subjects.{HoldsTyped, of_hosts};
ghost use Rattle.ioa_system.specs.Outcomes.{ending_of};
ghost use Rattle.ioa_system.specs.Systems.{values_of};
ghost use Rattle.ioa_enabled.specs.Told.{ShareTypes};
ghost use Rattle.ioa_device.specs.Devices.{BothPassUnless, FailsWhere, change};
ghost use Rattle.ioa_device.specs.declared.failure.LogErr.{LogErr};
ghost use Rattle.ioa_device.specs.Failing.{HasFailed, IsListErr};
ghost use Rattle.ioa_serving.specs.Failing.{BeginsLogStatesOf, BeginsStatesOf, IsInvariantFailure, IsNoLogOf, IsStatesFailure, IsUnwritten};
ghost use Rattle.ioa_serving.specs.Headline.{IsLogStatesReplay, IsStatesReplay};
ghost use Rattle.ioa_serving.specs.States.{Reaches, ReachesByLog, shown_lines};

use crate::compile::{compose_text, is_object};
use crate::failure::Failure;
use ioa_account::put_states;
use ioa_compile::{Program, compile};
use ioa_compose::Composition;
use ioa_device::{InputDevice, LogErr, OutputDevice, send_all};
use ioa_enabled::put_enabled;
use ioa_node::NodeState;
use ioa_replay::{perform_list, perform_log};
use ioa_request::Shown;
use ioa_system::End;
use ioa_value::OutOfMemory;
use std::alloc::Global;

/// Replays a list of actions in a composition of a source, by the bytes of both: writes what a replay of the list does, and then what is asked
/// of the state in which the list ends, and answers that end. Where an action faults, it is the state before it.
///
/// # Errors
/// `SourceWanted` where the bytes are an object, which has no names of variables; else as those of a replay of a list.
pub fn replay_states_text<R: InputDevice, W: OutputDevice>(
    alloc: Global,
    text: &[u8],
    composition: Option<&str>,
    shown: Shown,
    input: &mut R,
    output: &mut W,
) -> Result<End, Failure>
    ensures replays { IfOk result (λ end. IfSome (R.remaining input.old) (λ bytes.
        IsStatesReplay text.now (option_copied composition.entry) shown bytes (ending_of end) (W.contents output.old) (W.contents output.new))) }
    ensures refused { IfErr result (λ e. IsStatesFailure text.now (option_copied composition.entry) (R.remaining input.old)
        (HasFailed (R.failure_count input.old) (R.failure_count input.new) ⊎ HasFailed (W.failure_count output.old) (W.failure_count output.new)) e) }
    ensures unwritten { IfErr result (λ e. IsUnwritten (BeginsStatesOf text.now (option_copied composition.entry) shown (R.remaining input.old))
        (W.contents output.old) (W.contents output.new) e) }
    ensures devices { BothPassUnless (IsErrOf result (Failure.List LogErr.Io)) (change R.remaining R.failure_count input.old input.new) (change W.contents W.failure_count output.old output.new) }
{
    if is_object(text) {
        return Err(Failure::SourceWanted);
    }
    let composed = compose_text(alloc, text, composition)?;
    let (told, end) = reached(alloc, &composed, shown, input)?;
    send_all(output, told.as_bytes())?;
    Ok(end)
}

/// Replays a log in a composition of a source, by the bytes of both: where the log is of the composition's run, writes what a replay of
/// the log does, and then what is asked of the state in which the log ends, and answers that end. The log is read and judged
/// line by line.
///
/// # Errors
/// `SourceWanted` where the bytes are an object, which has no names of variables; else as those of a replay of a log.
pub fn replay_log_states_text<R: InputDevice, W: OutputDevice>(
    alloc: Global,
    text: &[u8],
    composition: Option<&str>,
    shown: Shown,
    input: &mut R,
    output: &mut W,
) -> Result<End, Failure>
    ensures replays { IfOk result (λ end. IfSome (R.remaining input.old) (λ bytes.
        IsLogStatesReplay text.now (option_copied composition.entry) shown bytes (ending_of end) (W.contents output.old) (W.contents output.new))) }
    ensures refused { IfErr result (λ e. IsInvariantFailure text.now (option_copied composition.entry) (R.remaining input.old)
        (HasFailed (R.failure_count input.old) (R.failure_count input.new) ⊎ HasFailed (W.failure_count output.old) (W.failure_count output.new)) e) }
    ensures unwritten { IfErr result (λ e. IsUnwritten (BeginsLogStatesOf text.now (option_copied composition.entry) shown (R.remaining input.old))
        (W.contents output.old) (W.contents output.new) e) }
    ensures devices { BothPassUnless (IsErrOf result (Failure.List LogErr.Io)) (change R.remaining R.failure_count input.old input.new) (change W.contents W.failure_count output.old output.new) }
{
    if is_object(text) {
        return Err(Failure::SourceWanted);
    }
    let composed = compose_text(alloc, text, composition)?;
    let (told, end) = reached_by_log(alloc, &composed, shown, input)?;
    send_all(output, told.as_bytes())?;
    Ok(end)
}

/// The end of the run of the list, by the hosts that the composition stands for, and the text that tells it with the states.
fn reached<R: InputDevice>(
    alloc: Global,
    composition: &Composition,
    shown: Shown,
    input: &mut R,
) -> Result<(String, End), LogErr>
    ensures reaches { IfOk result (λ told. (h : Hosted) → ShareTypes h → Simulates h (composed_of composition.now)
        → IfSome (R.remaining input.old) (λ bytes. Reaches h shown bytes (ending_of told.1) (string_bytes told.0))) }
    ensures bad { (n : ℕ) → IsErrOf result (LogErr.BadEntry n) → IfSome (R.remaining input.old) (λ bytes. BadLine composition.now.types bytes n) }
    ensures devices { FailsWhere (IsErrOf result LogErr.Io) (change R.remaining R.failure_count input.old input.new) }
    ensures only { IfErr result IsListErr }
{
    let program = compile(alloc, composition)?;
    let replayed = perform_list(alloc, &program, input)?;
    let mut told = replayed.text;
    put_shown(
        alloc,
        &mut told,
        composition,
        &program,
        shown,
        &replayed.states,
    )?;
    Ok((told, replayed.end))
}

/// The same of a log that is of the hosts' run, which is read and judged line by line.
fn reached_by_log<R: InputDevice>(
    alloc: Global,
    composition: &Composition,
    shown: Shown,
    input: &mut R,
) -> Result<(String, End), LogErr>
    ensures reaches { IfOk result (λ told. (h : Hosted) → ShareTypes h → Simulates h (composed_of composition.now)
        → IfSome (R.remaining input.old) (λ bytes. ReachesByLog h shown bytes (ending_of told.1) (string_bytes told.0))) }
    ensures refused { IfErr result (λ e. (h : Hosted) → Simulates h (composed_of composition.now)
        → IfSome (R.remaining input.old) (λ bytes. IsNoLogOf e (of_hosts h) bytes)) }
    ensures devices { FailsWhere (IsErrOf result LogErr.Io) (change R.remaining R.failure_count input.old input.new) }
{
    let program = compile(alloc, composition)?;
    let performed = perform_log(alloc, &program, input)?;
    let mut told = performed.text;
    put_shown(
        alloc,
        &mut told,
        composition,
        &program,
        shown,
        &performed.states,
    )?;
    Ok((told, performed.end))
}

/// Puts what is asked of these states behind the text: the variables of each component, what is enabled, or both.
fn put_shown(
    alloc: Global,
    text: &mut String,
    composition: &Composition,
    program: &Program,
    shown: Shown,
    states: &[NodeState],
) -> Result<(), OutOfMemory>
    ensures { OnOk result ((h : Hosted) (hs : List (HostState Env)) → ShareTypes h → Simulates h (composed_of composition.now) → Implements program.now (composed_of composition.now)
        → AllRelated (HoldsTyped h.hosts program.now.members) 0 hs (values_of states.now) → string_bytes text.new ≡ string_bytes text.old ++ shown_lines h shown hs) }
{
    match shown {
        Shown::States => put_states(alloc, text, composition, states),
        Shown::Enabled => put_enabled(alloc, text, composition, program, states),
        Shown::Both => {
            put_states(alloc, text, composition, states)?;
            put_enabled(alloc, text, composition, program, states)
        }
    }
}
