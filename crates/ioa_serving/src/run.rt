//! `run`: from what files hold to a history, of which the trace or the log is written.

ghost use Rattle.std.specs.Prelude.{◌≡◌, ◌≤◌, ◌∷◌, [], List, Some, true, false, IfOk, IfErr, IsErrOf, length, map};
ghost use Rattle.std.specs.Io.KnownBytes.{Appends};
ghost use Rattle.std.specs.Option.{option_map};
ghost use Rattle.std.specs.String.{string_bytes};
ghost use Rattle.ioa_value.specs.Actions.{act_of};
ghost use Rattle.ioa_compile.specs.Subjects.{RunsAs, Subject};
ghost use Rattle.ioa_coverage.specs.Covered.{IsOriginOf};
ghost use Rattle.ioa_system.specs.Outcomes.{ending_of};
ghost use Rattle.ioa_system.specs.Logs.{log_end, logged};
ghost use Rattle.ioa_device.specs.Devices.{PassesUnless, Writes, change};
ghost use Rattle.ioa_device.specs.declared.failure.LogErr.{LogErr};
ghost use Rattle.ioa_device.specs.Failing.{HasFailed};
ghost use Rattle.ioa_run.specs.Alone.{IsAloneSince, IsOutcomeFrom, NoMemory, RefusesResumed};
ghost use Rattle.ioa_board.specs.Outcomes.{HaveEnded};
ghost use Rattle.ioa_run.specs.TalliedRuns.{IsTallied};
ghost use Rattle.ioa_board.specs.declared.run_err.RunErr.{RunErr};
ghost use Rattle.ioa_serving.specs.Alone.{IsCutShort, IsRunServed, IsRunUnserved, IsUnrun, count_of, streams_of};
ghost use Rattle.ioa_serving.specs.Coverage.{behind, told_coverage};
ghost use Rattle.ioa_serving.specs.HasRun.{HasRun};
ghost use Rattle.ioa_serving.specs.Logs.{performed_in};
ghost use Rattle.ioa_serving.specs.Serving.{reports_of, wants_of};
ghost use Rattle.ioa_serving.specs.Statuses.{ending_status};
ghost use Rattle.ioa_serving.specs.Traces.{performed, ran_text, table_told, table_text};

use crate::covered::performed_entries;
use crate::failure::Failure;
use crate::groups::groups_of;
use crate::pacer::Pacer;
use crate::ready::{Ready, load_run};
use crate::reports::told_text;
use crate::served::Served;
use crate::status::status_of;
use crate::store::Store;
use crate::trace::trace_text;
use crate::word_sources::WordSources;
use ioa_compile::Program;
use ioa_coverage::{Origin, coverage_of};
use ioa_device::{LogErr, OutputDevice, send_all};
use ioa_log::{Log, write_log};
use ioa_node::Words;
use ioa_request::Settings;
use ioa_run::{OpenGate, Outcome, Report, RunErr, Tally, resume_alone, resume_threads};
use ioa_value::{Action, OutOfMemory};
use std::alloc::{AllocError, Global};
use std::sync::Wait;
use std::thread::Threads;
use std::time::Clock;

/// Runs a composition of a source, or an object, on one thread or on one for each worker, and writes its trace and how it ends, or its log. Where a log
/// is named, the run goes on from where that one ended, and its history begins with what it tells.
/// Answers what came of it, and the run, where there was one, whose workers may have something to be told.
///
/// Whatever the words and the schedule: where the answer is `Ok`, what was written is the trace and the end, or the log, of a legal
/// history of what the source declares or the object is of, in which the environment, once the run goes on, performs its script in order. The workers to
/// which memory was refused in their turns are those of which `send_wants` tells. Where there is none, each worker has had its turns, or a fault
/// ends the run; and on one thread it is the one history in which all workers take turns, round by round, each by its own words.
///
/// # Errors
/// `Io` where a file is not read; `Refused` where the source or its composition is, `Object` where the object is; `BadWords` where a line of
/// the file of words is no list of words; `List` where a line of the script is no action; `RunLog` where the file to go on from is no log; `TooManyTurns`,
/// `BadInput`; `EndedByFault`, `BadLog`; `Threads`, unless the run is on one thread; or want of memory: there was no run then, and nothing was written.
/// Or there was one: `List` where the device failed, which has taken no more than a beginning of the text, and want of memory for the text, of which
/// nothing was written.
pub fn run_file<H: Threads + Wait + Clock + Sync, F: Store, W: OutputDevice>(
    rt: &H,
    alloc: Global,
    settings: &Settings<'_>,
    store: &F,
    output: &mut W,
) -> (Result<Served, Failure>, Option<Ran>)
    ensures runs { IfOk result.0 (λ served. IsRunServed (F.holds store.now) settings.now (W.contents output.old) (W.contents output.new) (reports_of served) (wants_of result.1) served.status) }
    ensures refused { IfErr result.0 (λ e. IsRunUnserved (F.holds store.now) (F.lacks store.now) settings.now (HasFailed (W.failure_count output.old) (W.failure_count output.new))
        (W.contents output.old) (W.contents output.new) (wants_of result.1) e) }
    ensures devices { PassesUnless (IsErrOf result.0 (Failure.List LogErr.Io)) (change W.contents W.failure_count output.old output.new) }
{
    match run_settings(rt, alloc, settings, store) {
        Ok(ran) => {
            let served = serve_run(alloc, settings, &ran, output);
            (served, Some(ran))
        }
        Err(failure) => (Err(failure), None),
    }
}

/// Writes the text of a run, and leaves its reports to be told, and how often each entry was performed and each arm and body taken, where they are asked for.
fn serve_run<W: OutputDevice>(
    alloc: Global,
    settings: &Settings<'_>,
    ran: &Ran,
    output: &mut W,
) -> Result<Served, Failure>
    requires within { performed ran.now.log.end ≤ length ran.now.log.entries.items }
    requires declares { (x : Subject) × RunsAs ran.now.program x × IsOriginOf ran.now.source x }
    ensures served { IfOk result (λ s. Appends (W.contents output.old) (W.contents output.new) (ran_text settings.now.log ran.now)
        × ((x : Subject) → RunsAs ran.now.program x → IsOriginOf ran.now.source x
        → reports_of s ≡ behind (table_told settings.now.reports ran.now) (told_coverage x settings.now.coverage (performed_in (logged ran.now.log) ∷ [])))
        × (s.status ≡ ending_status (log_end ran.now.log.end))) }
    ensures cut { IfErr result (λ e. IsCutShort (ran_text settings.now.log ran.now) (HasFailed (W.failure_count output.old) (W.failure_count output.new)) (W.contents output.old) (W.contents output.new) e) }
    ensures devices { PassesUnless (IsErrOf result (Failure.List LogErr.Io)) (change W.contents W.failure_count output.old output.new) }
{
    let reports = told_of(alloc, settings, ran)?;
    write_run(alloc, &ran.program, &ran.log, settings.log, output)?;
    Ok(Served {
        status: status_of(ran.log.end.end()),
        reports,
    })
}

/// A program that was run: its log, and a report for each component and then for the environment; and what is told beside the reports.
#[derive(Drop)]
pub struct Ran {
    pub program: Program,
    /// The source that declares what was run; of an object none.
    pub source: Option<Origin>,
    pub log: Log,
    pub reports: Vec<Report>,
    /// What became of the turns of each component.
    pub tallies: Vec<Tally>,
    /// How many entries the log has from which the run went on.
    pub before: usize,
    /// The inputs that the environment was to perform.
    pub script: Vec<Action>,
}

/// Reads what a run is given, and runs it. Nothing is written.
fn run_settings<H: Threads + Wait + Clock + Sync, F: Store>(
    rt: &H,
    alloc: Global,
    settings: &Settings<'_>,
    store: &F,
) -> Result<Ran, Failure>
    ensures ran { IfOk result (λ r. HasRun (F.holds store.now) settings.now r) }
    ensures refused { IfErr result (λ e. IsUnrun (F.holds store.now) (F.lacks store.now) settings.now e) }
{
    let ready = load_run(alloc, settings, store)?;
    let Ready {
        program,
        source,
        words,
        script,
        log,
    } = ready;
    let mut tallies = Vec::new(alloc);
    let outcome = run_sources(
        rt,
        alloc,
        &program,
        settings,
        &log,
        words,
        script.as_slice(),
        &mut tallies,
    )?;
    let before = log.entries.len();
    Ok(ran_of(program, source, outcome, tallies, before, script))
}

/// The run without the states to which it leads.
fn ran_of(
    program: Program,
    source: Option<Origin>,
    outcome: Outcome,
    tallies: Vec<Tally>,
    before: usize,
    script: Vec<Action>,
) -> Ran
    ensures program { result.program ≡ program }
    ensures source { result.source ≡ source }
    ensures entries { result.log.entries ≡ outcome.log }
    ensures end { result.log.end ≡ outcome.end }
    ensures reports { result.reports ≡ outcome.reports }
    ensures tallies { result.tallies ≡ tallies }
    ensures before { result.before ≡ before }
    ensures script { result.script ≡ script }
{
    let Outcome {
        log,
        states: _,
        end,
        reports,
    } = outcome;
    Ran {
        program,
        source,
        log: Log { entries: log, end },
        reports,
        tallies,
        before,
        script,
    }
}

/// Runs the program by these words, one source for each component, from where the run ended that the log tells. That of nothing leads to the start.
fn run_sources<H: Threads + Wait + Clock + Sync>(
    rt: &H,
    alloc: Global,
    program: &Program,
    settings: &Settings<'_>,
    log: &Log,
    words: WordSources,
    script: &[Action],
    tallies: &mut Vec<Tally>,
) -> Result<Outcome, RunErr>
    requires sources { count_of words ≡ length program.now.members }
    ensures outcome { IfOk result (λ o. IsOutcomeFrom program.now (logged log.now).entries (map act_of script.now) settings.now.turns o) }
    ensures ended { IfOk result (λ o. HaveEnded settings.now.turns (log_end o.end) o.reports.items) }
    ensures alone { IfOk result (λ o. settings.now.alone ≡ true → NoMemory o.reports.items → IsAloneSince program.now (logged log.now) (streams_of words) (map act_of script.now) settings.now.turns o) }
    ensures tallied { IfOk result (λ o. IsTallied program.now (logged log.now).entries o tallies.new.items) }
    ensures refused { RefusesResumed program.now (map act_of script.now) settings.now.turns (logged log.now) result }
    ensures threads { IsErrOf result RunErr.Threads → settings.now.alone ≡ false }
{
    match words {
        WordSources::Seeded(sources) => run_by(
            rt, alloc, program, settings, log, sources, script, tallies,
        ),
        WordSources::Listed(sources) => run_by(
            rt, alloc, program, settings, log, sources, script, tallies,
        ),
    }
}

/// The same, of sources of one kind: on one thread, where that is asked for, or on one for each worker.
fn run_by<H: Threads + Wait + Clock + Sync, W: Words + Send + Drop>(
    rt: &H,
    alloc: Global,
    program: &Program,
    settings: &Settings<'_>,
    log: &Log,
    words: Vec<W>,
    script: &[Action],
    tallies: &mut Vec<Tally>,
) -> Result<Outcome, RunErr>
    requires sources { length words.items ≡ length program.now.members }
    ensures outcome { IfOk result (λ o. IsOutcomeFrom program.now (logged log.now).entries (map act_of script.now) settings.now.turns o) }
    ensures ended { IfOk result (λ o. HaveEnded settings.now.turns (log_end o.end) o.reports.items) }
    ensures alone { IfOk result (λ o. settings.now.alone ≡ true → NoMemory o.reports.items → IsAloneSince program.now (logged log.now) (map W.stream words.items) (map act_of script.now) settings.now.turns o) }
    ensures tallied { IfOk result (λ o. IsTallied program.now (logged log.now).entries o tallies.new.items) }
    ensures refused { RefusesResumed program.now (map act_of script.now) settings.now.turns (logged log.now) result }
    ensures threads { IsErrOf result RunErr.Threads → settings.now.alone ≡ false }
{
    let turns = settings.turns;
    if settings.alone {
        return resume_alone(alloc, program, log, turns, words, script, tallies);
    }
    let Ok(gate) = gate_of(rt, alloc, program, script) else {
        // memory is short for the gate, so nobody is held
        return resume_threads(
            rt, alloc, program, log, turns, words, script, &OpenGate, tallies,
        );
    };
    resume_threads(
        rt, alloc, program, log, turns, words, script, &gate, tallies,
    )
}

/// A gate for the workers of this program, by their groups.
fn gate_of<'a, H>(
    rt: &'a H,
    alloc: Global,
    program: &Program,
    script: &[Action],
) -> Result<Pacer<'a, H>, AllocError> {
    let groups = groups_of(alloc, program, script)?;
    Pacer::new(rt, alloc, &groups)
}

/// The text of the reports with what is told beside them, and behind it how often each entry was performed and each arm and body taken, where they are to be told.
fn told_of(alloc: Global, settings: &Settings<'_>, ran: &Ran) -> Result<Option<String>, OutOfMemory>
    requires within { performed ran.now.log.end ≤ length ran.now.log.entries.items }
    requires declares { (x : Subject) × RunsAs ran.now.program x × IsOriginOf ran.now.source x }
    ensures { IfOk result (λ told. (x : Subject) → RunsAs ran.now.program x → IsOriginOf ran.now.source x
        → option_map string_bytes told ≡ behind (table_told settings.now.reports ran.now) (told_coverage x settings.now.coverage (performed_in (logged ran.now.log) ∷ []))) }
{
    let reports = told_reports(alloc, settings, ran)?;
    if !settings.coverage {
        return Ok(reports);
    }
    let source = ran.source.as_ref();
    let coverage = coverage_of(alloc, &ran.program, source, performed_entries(&ran.log))?;
    let told = put_behind(reports, coverage)?;
    Ok(Some(told))
}

/// A text, and before it another one, if there is one.
fn put_behind(before: Option<String>, text: String) -> Result<String, OutOfMemory>
    ensures { IfOk result (λ all. Some (string_bytes all) ≡ behind (option_map string_bytes before) (Some (string_bytes text))) }
{
    let Some(mut all) = before else {
        return Ok(text);
    };
    all.push_str(text.as_str())?;
    Ok(all)
}

/// The text of the reports and of what is told beside them, where they are to be told.
fn told_reports(
    alloc: Global,
    settings: &Settings<'_>,
    ran: &Ran,
) -> Result<Option<String>, OutOfMemory>
    requires { performed ran.now.log.end ≤ length ran.now.log.entries.items }
    ensures { IfOk result (λ told. option_map string_bytes told ≡ table_told settings.now.reports ran.now) }
{
    if settings.reports {
        let text = told_text(alloc, ran)?;
        return Ok(Some(text));
    }
    Ok(None)
}

/// Writes the log of a run or, unless that is asked for, its trace and its end.
///
/// # Errors
/// `Io` where the writer failed in this call: it has taken a beginning of the text. `OutOfMemory`: nothing was written.
fn write_run<W: OutputDevice>(
    alloc: Global,
    program: &Program,
    log: &Log,
    as_log: bool,
    output: &mut W,
) -> Result<(), LogErr>
    requires { performed log.now.end ≤ length log.now.entries.items }
    ensures { Writes result (table_text program.now as_log (logged log.now) (performed log.now.end)) (change W.contents W.failure_count output.old output.new) }
{
    if as_log {
        return write_log(alloc, program.types(), log, output);
    }
    let text = trace_text(alloc, program, log)?;
    send_all(output, text.as_bytes())
}
