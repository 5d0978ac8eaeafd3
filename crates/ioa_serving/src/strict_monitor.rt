//! `monitor --strict`: whether a specification accepts what a log tells, takes some of it, and passes over nothing that has a name of its own.

ghost use Rattle.std.specs.Prelude.{◌⊎◌, IfOk, IfErr, IfSome, IsErrOf};
ghost use Rattle.std.specs.Option.{option_copied};
ghost use Rattle.ioa_system.specs.Logs.{logged};
ghost use Rattle.ioa_device.specs.Devices.{BothPassUnless, FailsWhere, change};
ghost use Rattle.ioa_device.specs.declared.failure.LogErr.{LogErr};
ghost use Rattle.ioa_device.specs.Failing.{HasFailed, IsTextErr};
ghost use Rattle.ioa_inspect.specs.LogMonitors.{IsNoText};
ghost use Rattle.ioa_watch.specs.Watchers.{HasHeard};
ghost use Rattle.ioa_serving.specs.Failing.{IsMonitorFailure, IsUnwritten};
ghost use Rattle.ioa_serving.specs.Logs.{performed_in};
ghost use Rattle.ioa_serving.specs.Strict.{AnswersStrictly, BeginsStrictOf, IsStrictMonitoring, strict_of};

use crate::compile::program_of;
use crate::failure::Failure;
use crate::judged::performed_count;
use crate::verdict::{Verdict, verdict_of, verdict_text};
use ioa_compile::Program;
use ioa_device::{InputDevice, LogErr, OutputDevice, send_all};
use ioa_monitor::hides_actions;
use ioa_replay::read_log;
use ioa_system::Log;
use ioa_value::OutOfMemory;
use ioa_watch::Watcher;
use std::alloc::Global;

/// Monitors a log strictly by a composition of a source, or by an object, given the bytes of both: writes, as a JSON object or not, whether the composition accepts the actions that the
/// log tells to be performed, takes one of them, and passes over none that has a name of its own; and answers it. The log is read whole.
///
/// # Errors
/// As those of `monitor_text`.
pub fn strict_monitor_text<R: InputDevice, W: OutputDevice>(
    alloc: Global,
    text: &[u8],
    composition: Option<&str>,
    json: bool,
    input: &mut R,
    output: &mut W,
) -> Result<Verdict, Failure>
    ensures monitors { IfOk result (λ verdict. IfSome (R.remaining input.old) (λ bytes.
        IsStrictMonitoring json text.now (option_copied composition.entry) bytes (strict_of verdict) (W.contents output.old) (W.contents output.new))) }
    ensures refused { IfErr result (λ e. IsMonitorFailure text.now (option_copied composition.entry) (R.remaining input.old)
        (HasFailed (R.failure_count input.old) (R.failure_count input.new) ⊎ HasFailed (W.failure_count output.old) (W.failure_count output.new)) e) }
    ensures unwritten { IfErr result (λ e. IsUnwritten (BeginsStrictOf json text.now (option_copied composition.entry) (R.remaining input.old))
        (W.contents output.old) (W.contents output.new) e) }
    ensures devices { BothPassUnless (IsErrOf result (Failure.List LogErr.Io)) (change R.remaining R.failure_count input.old input.new) (change W.contents W.failure_count output.old output.new) }
{
    let program = program_of(alloc, text, composition)?;
    if hides_actions(&program) {
        return Err(Failure::SpecHasInternal);
    }
    let verdict = ask(alloc, &program, input)?;
    let line = verdict_text(alloc, json, verdict)?;
    send_all(output, line.as_bytes())?;
    Ok(verdict)
}

/// Reads a log, and asks a specification of it.
fn ask<R: InputDevice>(alloc: Global, program: &Program, input: &mut R) -> Result<Verdict, LogErr>
    ensures answers { IfOk result (λ verdict. IfSome (R.remaining input.old) (λ bytes. AnswersStrictly program.now bytes (strict_of verdict))) }
    ensures refused { IfErr result (λ e. IfSome (R.remaining input.old) (λ bytes. IsNoText program.now.types bytes e)) }
    ensures devices { FailsWhere (IsErrOf result LogErr.Io) (change R.remaining R.failure_count input.old input.new) }
    ensures only { IfErr result IsTextErr }
{
    let log = read_log(alloc, program.types(), input)?;
    let watcher = hear_log(alloc, program, &log)?;
    Ok(verdict_of(&watcher))
}

/// A specification that has heard what the log tells to be performed.
fn hear_log<'a>(alloc: Global, program: &'a Program, log: &Log) -> Result<Watcher<'a>, OutOfMemory>
    ensures { IfOk result (HasHeard program.now (performed_in (logged log.now))) }
{
    let entries = log.entries.as_slice();
    let mut watcher = Watcher::start(alloc, program)?;
    for index in 0..performed_count(log) {
        let entry = &entries[index];
        watcher.hear(&entry.action)?;
    }
    Ok(watcher)
}
