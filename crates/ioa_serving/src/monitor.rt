//! `monitor`: whether a specification accepts what a log tells.

ghost use Rattle.std.specs.Prelude.{◌≡◌, ◌⊎◌, false, IfOk, IfErr, IfSome, IsErrOf, map, option_map};
ghost use Rattle.std.specs.Option.{option_copied};
ghost use Rattle.std.specs.String.{string_bytes};
ghost use Rattle.ioa_value.specs.Actions.{act_of};
ghost use Rattle.ioa_system.specs.Outcomes.{ending_of};
ghost use Rattle.ioa_system.specs.Logs.{logged};
ghost use Rattle.ioa_device.specs.Devices.{BothPassUnless, change};
ghost use Rattle.ioa_device.specs.declared.failure.LogErr.{LogErr};
ghost use Rattle.ioa_device.specs.Failing.{HasFailed};
ghost use Rattle.ioa_serving.specs.Failing.{BeginsMonitorOf, IsMonitorFailure, IsUnwritten};
ghost use Rattle.ioa_serving.specs.Headline.{IsMonitoring};
ghost use Rattle.ioa_serving.specs.Logs as logs;
ghost use Rattle.ioa_serving.specs.Logs.{answer_line};

use crate::compile::program_of;
use crate::failure::Failure;
use crate::json::answer_object;
use ioa_account::actions_in;
use ioa_device::{InputDevice, OutputDevice, send_all};
use ioa_inspect::monitor_log;
use ioa_monitor::hides_actions;
use ioa_system::{End, Log, LogEnd};
use ioa_value::{Action, OutOfMemory};
use std::alloc::Global;
use std::fmt::Write;

/// Monitors a log by a composition of a source, or by an object, given the bytes of both: writes, as a JSON object or not, whether the composition accepts the actions that the log
/// tells to be performed, and answers why not. The log is read line by line.
///
/// # Errors
/// As those of a replay of a log, but whose run the log is does not matter; and `SpecHasInternal` where not all that the composition
/// does is seen. That is found before the log is read.
pub fn monitor_text<R: InputDevice, W: OutputDevice>(
    alloc: Global,
    text: &[u8],
    composition: Option<&str>,
    json: bool,
    input: &mut R,
    output: &mut W,
) -> Result<Option<End>, Failure>
    ensures monitors { IfOk result (λ answer. IfSome (R.remaining input.old) (λ bytes.
        IsMonitoring json text.now (option_copied composition.entry) bytes (option_map ending_of answer) (W.contents output.old) (W.contents output.new))) }
    ensures refused { IfErr result (λ e. IsMonitorFailure text.now (option_copied composition.entry) (R.remaining input.old)
        (HasFailed (R.failure_count input.old) (R.failure_count input.new) ⊎ HasFailed (W.failure_count output.old) (W.failure_count output.new)) e) }
    ensures unwritten { IfErr result (λ e. IsUnwritten (BeginsMonitorOf json text.now (option_copied composition.entry) (R.remaining input.old))
        (W.contents output.old) (W.contents output.new) e) }
    ensures devices { BothPassUnless (IsErrOf result (Failure.List LogErr.Io)) (change R.remaining R.failure_count input.old input.new) (change W.contents W.failure_count output.old output.new) }
{
    let program = program_of(alloc, text, composition)?;
    if hides_actions(&program) {
        return Err(Failure::SpecHasInternal);
    }
    let answer = monitor_log(alloc, &program, input)?;
    let line = answer_text(alloc, json, answer)?;
    send_all(output, line.as_bytes())?;
    Ok(answer)
}

/// The actions that a log tells to be performed: the last one of a log that ends by a fault is not.
pub fn performed_in(alloc: Global, log: Log) -> Result<Vec<Action>, OutOfMemory>
    ensures { IfOk result (λ actions. map act_of actions.items ≡ logs.performed_in (logged log)) }
{
    let mut actions = actions_in(alloc, log.entries)?;
    match log.end {
        LogEnd::Done(_) => {}
        LogEnd::Fault(_, _, _) => {
            actions.pop();
        }
    }
    Ok(actions)
}

/// A line with the answer of a monitor, as a JSON object or not.
fn answer_text(alloc: Global, json: bool, answer: Option<End>) -> Result<String, OutOfMemory>
    ensures { IfOk result (λ text. string_bytes text ≡ answer_line json (option_map ending_of answer)) }
{
    if json {
        return answer_object(alloc, answer);
    }
    answer_words(alloc, answer)
}

/// A line with the answer of a monitor in words.
fn answer_words(alloc: Global, answer: Option<End>) -> Result<String, OutOfMemory>
    ensures { IfOk result (λ text. string_bytes text ≡ answer_line false (option_map ending_of answer)) }
{
    let mut text = String::new(alloc);
    match answer {
        None => writeln!(text, "monitor: ok")?,
        Some(end) => writeln!(text, "monitor: {end}")?,
    }
    Ok(text)
}
