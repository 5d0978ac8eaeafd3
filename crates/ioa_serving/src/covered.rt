//! How often entries are performed, and arms and bodies taken: of a replay of a list or a log, and of the log of a run.

ghost use Rattle.std.specs.Prelude.{◌≡◌, ◌⊎◌, true, false, List, IfOk, IfErr, IfSome, IsErrOf, map, take};
ghost use Rattle.std.specs.Option.{option_copied};
ghost use Rattle.std.specs.String.{string_bytes};
ghost use Rattle.ioa_value.specs.Actions.{Act, act_of};
ghost use Rattle.ioa_value.specs.Lists.{ReadsList};
ghost use Rattle.ioa_compile.specs.Subjects.{RunsAs, Subject};
ghost use Rattle.ioa_system.specs.Logs.{logged};
ghost use Rattle.ioa_system.specs.Outcomes as outcomes;
ghost use Rattle.ioa_system.specs.Outcomes.{ending_of};
ghost use Rattle.ioa_coverage.specs.Counts.{entered};
ghost use Rattle.ioa_coverage.specs.Covered.{IsOriginOf};
ghost use Rattle.ioa_device.specs.Devices.{BothPassUnless, change};
ghost use Rattle.ioa_device.specs.declared.failure.LogErr.{LogErr};
ghost use Rattle.ioa_device.specs.Failing.{HasFailed};
ghost use Rattle.ioa_log.specs.LogTexts.{ReadsLog};
ghost use Rattle.ioa_serving.specs.Coverage.{BeginsCoverageOf, CoversRun, IsCoverage, IsCoverageFailure, IsUncovered};
ghost use Rattle.ioa_serving.specs.Failing.{IsUnwritten};
ghost use Rattle.ioa_serving.specs.Logs.{performed_in};
ghost use Rattle.ioa_serving.specs.Objects as objects;

use crate::at_hand::AtHand;
use crate::failure::Failure;
use crate::objects::rendered;
use crate::sourced::sourced_of;
use ioa_compile::Program;
use ioa_coverage::{Origin, coverage_of};
use ioa_device::{InputDevice, LogErr, OutputDevice, read_all, send_all};
use ioa_log::{Log, LogEnd, LogEntry};
use ioa_replay::{perform_list, perform_log, read_log};
use ioa_system::End;
use ioa_value::{Action, OutOfMemory, Types, read_list};
use std::alloc::Global;

/// Replays a list of actions, or a log, in a composition of a source, or in an object, by the bytes of both: writes what a replay writes, as JSON objects or not,
/// and answers how the run ends, and the lines that tell how often each entry was performed in it and, of a source, each arm and body taken. The list or the log is
/// kept in memory.
///
/// # Errors
/// As those of a replay of a list, or of a log. Nothing was written then, or, where a device failed, no more than a beginning of the text.
pub fn replay_coverage_text<R: InputDevice, W: OutputDevice>(
    alloc: Global,
    text: &[u8],
    composition: Option<&str>,
    log: bool,
    json: bool,
    input: &mut R,
    output: &mut W,
) -> Result<(String, End), Failure>
    ensures replays { IfOk result (λ told. IfSome (R.remaining input.old) (λ bytes.
        IsCoverage log json text.now (option_copied composition.entry) bytes (ending_of told.1) (string_bytes told.0) (W.contents output.old) (W.contents output.new))) }
    ensures refused { IfErr result (λ e. IsCoverageFailure log text.now (option_copied composition.entry) (R.remaining input.old)
        (HasFailed (R.failure_count input.old) (R.failure_count input.new) ⊎ HasFailed (W.failure_count output.old) (W.failure_count output.new)) e) }
    ensures unwritten { IfErr result (λ e. IsUnwritten (BeginsCoverageOf log json text.now (option_copied composition.entry) (R.remaining input.old))
        (W.contents output.old) (W.contents output.new) e) }
    ensures devices { BothPassUnless (IsErrOf result (Failure.List LogErr.Io)) (change R.remaining R.failure_count input.old input.new) (change W.contents W.failure_count output.old output.new) }
{
    let sourced = sourced_of(alloc, text, composition)?;
    let bytes = read_all(alloc, input)?;
    let source = sourced.source.as_ref();
    let covered = cover(alloc, &sourced.program, source, log, bytes.as_slice())?;
    let written = in_form(alloc, json, covered.text, covered.end)?;
    send_all(output, written.as_slice())?;
    Ok((covered.told, covered.end))
}

/// The text of a run that ends so, as it is or as objects.
fn in_form(alloc: Global, json: bool, text: String, end: End) -> Result<Vec<u8>, OutOfMemory>
    ensures { IfOk result (λ written. written.items ≡ objects.rendered json (string_bytes text) (ending_of end)) }
{
    if json {
        return rendered(alloc, text.as_bytes(), end);
    }
    Ok(text.into_bytes())
}

/// A run of a list or of a log.
#[derive(Drop)]
struct Covered {
    /// How it ends.
    end: End,
    /// What a replay writes.
    text: String,
    /// How often each entry was performed in it, and each arm and body taken.
    told: String,
}

/// The run of the log, or of the list, that these bytes are. Where there is a source, the program runs as it declares.
fn cover(
    alloc: Global,
    program: &Program,
    source: Option<&Origin>,
    log: bool,
    bytes: &[u8],
) -> Result<Covered, LogErr>
    requires { (s : Subject) × RunsAs program.now s × IsOriginOf (option_copied source) s }
    ensures ok { IfOk result (λ c. (s : Subject) → RunsAs program.now s → IsOriginOf (option_copied source.entry) s
        → CoversRun log s bytes.now (ending_of c.end) (string_bytes c.text) (string_bytes c.told)) }
    ensures refused { IfErr result (λ e. (s : Subject) → RunsAs program.now s → IsUncovered log e s bytes.now) }
    ensures io { IsErrOf result LogErr.Io → ⊥ }
{
    if log {
        covered_log(alloc, program, source, bytes)
    } else {
        covered_list(alloc, program, source, bytes)
    }
}

/// The run of a list.
fn covered_list(
    alloc: Global,
    program: &Program,
    source: Option<&Origin>,
    bytes: &[u8],
) -> Result<Covered, LogErr>
    requires { (s : Subject) × RunsAs program.now s × IsOriginOf (option_copied source) s }
    ensures ok { IfOk result (λ c. (s : Subject) → RunsAs program.now s → IsOriginOf (option_copied source.entry) s
        → CoversRun false s bytes.now (ending_of c.end) (string_bytes c.text) (string_bytes c.told)) }
    ensures refused { IfErr result (λ e. (s : Subject) → RunsAs program.now s → IsUncovered false e s bytes.now) }
    ensures io { IsErrOf result LogErr.Io → ⊥ }
{
    let mut at_hand = AtHand::new(bytes);
    let replayed = perform_list(alloc, program, &mut at_hand)?;
    let entries = list_entries(alloc, program.types(), bytes)?;
    let performed = first_of(entries.as_slice(), performed_by(replayed.end));
    let told = coverage_of(alloc, program, source, performed)?;
    Ok(Covered {
        end: replayed.end,
        text: replayed.text,
        told,
    })
}

/// The run of a log.
fn covered_log(
    alloc: Global,
    program: &Program,
    source: Option<&Origin>,
    bytes: &[u8],
) -> Result<Covered, LogErr>
    requires { (s : Subject) × RunsAs program.now s × IsOriginOf (option_copied source) s }
    ensures ok { IfOk result (λ c. (s : Subject) → RunsAs program.now s → IsOriginOf (option_copied source.entry) s
        → CoversRun true s bytes.now (ending_of c.end) (string_bytes c.text) (string_bytes c.told)) }
    ensures refused { IfErr result (λ e. (s : Subject) → RunsAs program.now s → IsUncovered true e s bytes.now) }
    ensures io { IsErrOf result LogErr.Io → ⊥ }
{
    let mut at_hand = AtHand::new(bytes);
    let replayed = perform_log(alloc, program, &mut at_hand)?;
    let log = log_in(alloc, program.types(), bytes)?;
    let told = coverage_of(alloc, program, source, performed_entries(&log))?;
    Ok(Covered {
        end: replayed.end,
        text: replayed.text,
        told,
    })
}

/// The actions of a list, as entries of a log. One that was performed is read again without a fault, which leaves no other error than want of memory.
fn list_entries(alloc: Global, types: &Types, bytes: &[u8]) -> Result<Vec<LogEntry>, OutOfMemory>
    ensures { IfOk result (λ entries. ReadsList types.now bytes.now (entered entries.items)) }
{
    let listed = read_list(alloc, types, bytes)?;
    match listed {
        Ok(actions) => entries_of(alloc, actions),
        Err(_) => Err(OutOfMemory),
    }
}

/// These actions, as entries of a log. Who performs them is not asked of it.
fn entries_of(alloc: Global, actions: Vec<Action>) -> Result<Vec<LogEntry>, OutOfMemory>
    ensures { IfOk result (λ entries. entered entries.items ≡ map act_of actions.items) }
{
    let mut entries = Vec::new(alloc);
    for action in actions {
        entries.push(LogEntry { who: 0, action })?;
    }
    Ok(entries)
}

/// The log that these bytes are. One that was judged is read again without a fault, which leaves no other error than want of memory.
fn log_in(alloc: Global, types: &Types, bytes: &[u8]) -> Result<Log, OutOfMemory>
    ensures { IfOk result (λ log. ReadsLog types.now bytes.now (logged log)) }
{
    let mut at_hand = AtHand::new(bytes);
    match read_log(alloc, types, &mut at_hand) {
        Ok(log) => Ok(log),
        Err(_) => Err(OutOfMemory),
    }
}

/// The first entries, so many; all, where there are no more.
fn first_of(entries: &[LogEntry], count: usize) -> &[LogEntry]
    ensures { result.now ≡ take count entries.now }
{
    if count < entries.len() {
        &entries[..count]
    } else {
        entries
    }
}

/// How many actions a run performed that ends so.
fn performed_by(end: End) -> usize
    ensures { result ≡ outcomes.performed_by end }
{
    match end {
        End::Done(count) => count,
        End::NotAnAction(index) | End::NotEnabled(index) | End::Fault(_, _, index) => index,
    }
}

/// The entries that a log tells to be performed: the last one of a log that ends by a fault is not.
pub(crate) fn performed_entries(log: &Log) -> &[LogEntry]
    ensures { entered result.now ≡ performed_in (logged log.now) }
{
    let entries = log.entries.as_slice();
    match log.end {
        LogEnd::Done(_) => entries,
        LogEnd::Fault(_, _, _) => first_of(entries, entries.len().saturating_sub(1)),
    }
}
