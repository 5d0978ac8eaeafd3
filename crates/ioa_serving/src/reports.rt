//! Reports of workers in lines, with what became of the turns of each entry, and the workers to which memory was refused.

ghost use Rattle.std.specs.Prelude.{◌≡◌, ◌≤◌, ◌++◌, ℕ, [], Some, IfErr, IfOk, IsOk, OnErr, OnOk, length, map, take};
ghost use Rattle.std.specs.Io.KnownBytes.{Appends};
ghost use Rattle.std.specs.String.{string_bytes};
ghost use Rattle.ioa_device.specs.declared.failure.LogErr.TheVariants as errors;
ghost use Rattle.ioa_device.specs.Failing.{FailedOnceAtMost, HasFailed};
ghost use Rattle.ioa_serving.specs.RunReports as spec;
ghost use Rattle.ioa_serving.specs.RunReports.{counts_text, name_at, report_line, want_line, wants_text, why_text};
ghost use Rattle.ioa_serving.specs.Traces as traces;
ghost use Rattle.ioa_serving.specs.Serving.{wants_of};

use crate::run::Ran;
use crate::tallies::{put_left, put_tallies};
use ioa_compile::Program;
use ioa_device::{LogErr, OutputDevice, send_all};
use ioa_run::{Report, Why};
use ioa_value::OutOfMemory;
use std::alloc::{AllocError, Global};
use std::fmt::Write;

/// The reports of a run's workers; behind them of each component's own entries what became of the turns in which they were tried, and then the inputs that were not
/// performed.
pub fn told_text(alloc: Global, ran: &Ran) -> Result<String, OutOfMemory>
    requires { traces.performed ran.now.log.end ≤ length ran.now.log.entries.items }
    ensures { IfOk result (λ text. string_bytes text ≡ traces.told_text ran.now) }
{
    let mut text = reports_text(alloc, &ran.program, &ran.reports)?;
    put_tallies(&mut text, ran)?;
    put_left(&mut text, ran)?;
    Ok(text)
}

/// The reports of a program's workers, a line for each: of the components, in order, and then of the environment.
pub fn reports_text(
    alloc: Global,
    program: &Program,
    reports: &[Report],
) -> Result<String, AllocError>
    ensures { IfOk result (λ text. string_bytes text ≡ spec.reports_text (map (λ m. m.name) program.now.members) reports.now) }
{
    let mut text = String::new(alloc);
    for i in 0..reports.len() {
        let report = reports[i];
        push_report(&mut text, worker_name(program, i), &report)?;
    }
    Ok(text)
}

/// The name of a worker: the component of this number, or past all of them the environment.
fn worker_name(program: &Program, worker: usize) -> &str
    ensures { result.now ≡ name_at (map (λ m. m.name) program.now.members) worker }
{
    let members = program.members();
    if worker < members.len() {
        members[worker].name.as_str()
    } else {
        "environment"
    }
}

/// Puts a line with a worker's report at the text's end.
fn push_report(text: &mut String, name: &str, report: &Report) -> Result<(), AllocError>
    ensures { OnOk result (string_bytes text.new ≡ string_bytes text.old ++ report_line name.now report.now) }
{
    push_counts(text, name, report)?;
    let why = in_words(report.why);
    writeln!(text, ", {why}")?;
    Ok(())
}

/// Puts the worker's name and the numbers of its turns there.
fn push_counts(text: &mut String, name: &str, report: &Report) -> Result<(), AllocError>
    ensures { OnOk result (string_bytes text.new ≡ string_bytes text.old ++ counts_text name.now report.now) }
{
    let Report {
        committed,
        idle,
        stale,
        why: _,
    } = report;
    write!(
        text,
        "{name}: {committed} committed, {idle} idle, {stale} stale"
    )?;
    Ok(())
}

/// Why a worker takes no more turns.
fn in_words(why: Why) -> &'static str
    ensures { result.now ≡ why_text why }
{
    match why {
        Why::TurnsDone => "turns done",
        Why::Faulted => "faulted",
        Why::Stopped => "stopped",
        Why::Memory => "memory",
    }
}

/// Tells of each worker of a run to which memory was refused in its turn, a line for each, in the order of the reports. The lines are written
/// in pieces that stand, since there may be no memory for a text of them. Where there is no such worker the writer is not asked.
///
/// # Errors
/// `Io` where the writer failed in this call, which is not tried again. It has taken a beginning of the lines then.
pub fn send_wants<W: OutputDevice>(ran: &Ran, output: &mut W) -> Result<(), LogErr>
    ensures ok { OnOk result (Appends (W.contents output.old) (W.contents output.new) (wants_of (Some ran.now))) }
    ensures io { IfErr result (λ e. (e ≡ errors.Io) × HasFailed (W.failure_count output.old) (W.failure_count output.new)) }
    ensures passed { OnOk result (W.failure_count output.new ≡ W.failure_count output.old) }
    ensures once { FailedOnceAtMost (W.failure_count output.old) (W.failure_count output.new) }
    ensures begun { OnErr result ((k : ℕ) × Appends (W.contents output.old) (W.contents output.new) (take k (wants_of (Some ran.now)))) }
    ensures quiet { wants_of (Some ran.now) ≡ [] → IsOk result × (output.new ≡ output.old) }
{
    send_lines(&ran.program, &ran.reports, output)
}

/// The same of a program's workers with these reports.
fn send_lines<W: OutputDevice>(
    program: &Program,
    reports: &[Report],
    output: &mut W,
) -> Result<(), LogErr>
    ensures ok { OnOk result (Appends (W.contents output.old) (W.contents output.new) (wants_text (map (λ m. m.name) program.now.members) reports.now)) }
    ensures io { IfErr result (λ e. (e ≡ errors.Io) × HasFailed (W.failure_count output.old) (W.failure_count output.new)) }
    ensures passed { OnOk result (W.failure_count output.new ≡ W.failure_count output.old) }
    ensures once { FailedOnceAtMost (W.failure_count output.old) (W.failure_count output.new) }
    ensures begun { OnErr result ((k : ℕ) × Appends (W.contents output.old) (W.contents output.new) (take k (wants_text (map (λ m. m.name) program.now.members) reports.now))) }
    ensures quiet { wants_text (map (λ m. m.name) program.now.members) reports.now ≡ [] → IsOk result × (output.new ≡ output.old) }
{
    for i in 0..reports.len() {
        let report = reports[i];
        send_line(worker_name(program, i), report.why, output)?;
    }
    Ok(())
}

/// Tells that memory was refused to the worker of this name, where that is why it takes no more turns.
fn send_line<W: OutputDevice>(name: &str, why: Why, output: &mut W) -> Result<(), LogErr>
    ensures ok { OnOk result (Appends (W.contents output.old) (W.contents output.new) (want_line name.now why)) }
    ensures io { IfErr result (λ e. (e ≡ errors.Io) × HasFailed (W.failure_count output.old) (W.failure_count output.new)) }
    ensures passed { OnOk result (W.failure_count output.new ≡ W.failure_count output.old) }
    ensures once { FailedOnceAtMost (W.failure_count output.old) (W.failure_count output.new) }
    ensures begun { OnErr result ((k : ℕ) × Appends (W.contents output.old) (W.contents output.new) (take k (want_line name.now why))) }
    ensures quiet { want_line name.now why ≡ [] → IsOk result × (output.new ≡ output.old) }
{
    match why {
        Why::TurnsDone | Why::Faulted | Why::Stopped => Ok(()),
        Why::Memory => {
            send_all(output, name.as_bytes())?;
            send_all(output, b": memory\n")
        }
    }
}
