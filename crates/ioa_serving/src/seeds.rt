//! `run --seeds`: runs by many seeds of one program, which is read and compiled once, each told on a line.

ghost use Rattle.std.specs.Prelude.{◌≡◌, ◌≢◌, ◌⊎◌, ◌↔◌, [], List, None, Err, Ok, IsTrue, IfOk, IfErr, IsErrOf, OnErr, is_some, length, map, option_map, true};
ghost use Rattle.std.specs.String.{string_bytes};
ghost use Rattle.ioa_value.specs.Actions.{act_of};
ghost use Rattle.ioa_compile.specs.Subjects.{RunsAs, Subject};
ghost use Rattle.ioa_coverage.specs.Covered.{IsOriginOf};
ghost use Rattle.ioa_system.specs.Logs.{logged};
ghost use Rattle.ioa_device.specs.Devices.{PassesUnless, Writes, change};
ghost use Rattle.ioa_device.specs.declared.failure.LogErr.{LogErr};
ghost use Rattle.ioa_device.specs.Failing.{HasFailed};
ghost use Rattle.ioa_request.specs.Pasted.{texts};
ghost use Rattle.ioa_run.specs.Alone.{NoMemory, RefusesResumed};
ghost use Rattle.ioa_board.specs.declared.run_err.RunErr.{RunErr};
ghost use Rattle.ioa_serving.specs.Coverage.{told_coverage};
ghost use Rattle.ioa_serving.specs.SeedRuns.{IsBegun, IsCovered, IsNoneRun, IsSeedJudgment, IsSeedRefused, IsSeedRun, IsTallyOf, IsTold, judged_of};
ghost use Rattle.ioa_serving.specs.Worlds.{files};
ghost use Rattle.ioa_serving.specs.Seeds.{IsSeedsServed, IsSeedsUnserved, Judged, monitors_of, performed_by_all, seed_line, seed_lines, seeds_text};
ghost use Rattle.ioa_serving.specs.Serving.{reports_of};
ghost use Rattle.ioa_serving.specs.declared.failure.Failure.{Failure};

use crate::failure::Failure;
use crate::judged::{JudgedRun, judged};
use crate::kept_log::{ask_keep, keep};
use crate::ready::Ready;
use crate::seed::seeded;
use crate::seed_lines::{counts_text, seed_text};
use crate::seed_tally::Tally;
use crate::served::Served;
use crate::sown::{Sown, asked_of, load_sown};
use crate::store::Store;
use ioa_device::{LogErr, OutputDevice, send_all};
use ioa_log::Log;
use ioa_request::{Seeds, numbered_key};
use ioa_run::{Report, RunErr, Why, resume_alone};
use std::alloc::Global;

/// Runs a composition of a source, or an object, on one thread by each seed of these numbers, and writes a line for each, as text or as a JSON object, with the
/// digits of the seed, the run's end, the answer of each specification that is asked, and the first invariant that is broken, where these are asked for, and then
/// one with their counts. The file is read and checked once, and a line is written before the next run begins. Where a file is named for it, the shortest log that
/// is refused is put there, the first of equal length; no more than that log and the last run's are in memory.
///
/// Each line is that of the single run with this seed, where memory is refused to none of its workers, and its answers are those of the monitors of its log,
/// and of the source's invariants in its states.
///
/// # Errors
/// As those of the single run, before anything is written; or where specifications or invariants are asked, `SourceWanted`, and of the first specification that
/// is none `Refused` and `SpecHasInternal`, also before; or `Io` where a log is to be kept in a file in which something else stands, also before. Or `List` where the device failed,
/// which has taken no more than a beginning of the text; or want of memory, also that of a worker: the lines of the runs before it are written then. Or `Io`
/// or want of memory where the log is not put in its file: all of the text is written then. No file was changed in any of these cases.
pub fn run_seeds_file<F: Store, W: OutputDevice>(
    alloc: Global,
    seeds: &Seeds<'_>,
    store: &mut F,
    output: &mut W,
) -> Result<Served, Failure>
    ensures served { IfOk result (λ s. IsSeedsServed (files F.holds F.lacks F.begins F.bars F.saves store.old store.new) seeds.now (W.contents output.old) (W.contents output.new) (reports_of s) s.status) }
    ensures refused { IfErr result (λ e. IsSeedsUnserved (files F.holds F.lacks F.begins F.bars F.saves store.old store.new) seeds.now
        (HasFailed (W.failure_count output.old) (W.failure_count output.new)) (W.contents output.old) (W.contents output.new) e) }
    ensures kept { (is_some seeds.now.keep ≡ true → ⊥) → store.new ≡ store.old }
    ensures devices { PassesUnless (IsErrOf result (Failure.List LogErr.Io)) (change W.contents W.failure_count output.old output.new) }
{
    let sown = load_sown(alloc, seeds, store)?;
    ask_keep(alloc, seeds.keep, store)?;
    let told = tell_all(alloc, seeds, &sown, output)?;
    let types = sown.ready.program.types();
    keep(alloc, types, seeds.keep, &told.tally.shortest, store)?;
    Ok(Served {
        status: told.tally.counts.status(),
        reports: told.coverage,
    })
}

/// Runs that are told, and how often each entry was performed in them and each arm and body taken, where that is to be told.
#[derive(Drop)]
struct Told<'a> {
    tally: Tally<'a>,
    coverage: Option<String>,
}

/// Runs the program by each seed, writes a line for each, and then one with their counts.
fn tell_all<'a, W: OutputDevice>(
    alloc: Global,
    seeds: &Seeds<'_>,
    sown: &'a Sown,
    output: &mut W,
) -> Result<Told<'a>, Failure>
    requires many { length sown.now.specifications.items ≡ length seeds.now.monitors.now }
    requires declares { (x : Subject) × RunsAs sown.now.ready.program x × IsOriginOf sown.now.ready.source x }
    ensures told { IfOk result (λ t. (js : List Judged) × IsTold sown.now seeds.now (seeds_text seeds.now.json (monitors_of seeds.now) seeds.now.invariants seeds.now.first js) (W.contents output.old) (W.contents output.new) t.tally js
        × ((x : Subject) → RunsAs sown.now.ready.program x → IsOriginOf sown.now.ready.source x
        → option_map string_bytes t.coverage ≡ told_coverage x seeds.now.run.coverage (performed_by_all js))) }
    ensures refused { IfErr result (λ e. IsNoneRun sown.now seeds.now.run.turns (W.contents output.old) (W.contents output.new) e
        ⊎ IsBegun sown.now seeds.now (HasFailed (W.failure_count output.old) (W.failure_count output.new)) (W.contents output.old) (W.contents output.new) e) }
    ensures devices { PassesUnless (IsErrOf result (Failure.List LogErr.Io)) (change W.contents W.failure_count output.old output.new) }
{
    let tally = tell_runs(alloc, seeds, sown, output)?;
    let coverage = tally.coverage_text(alloc)?;
    let line = counts_text(
        alloc,
        seeds.json,
        seeds.monitors,
        seeds.invariants,
        &tally.counts,
    )?;
    send_all(output, line.as_bytes())?;
    Ok(Told { tally, coverage })
}

/// Runs the program by each seed, and writes a line for each as soon as it has ended.
fn tell_runs<'a, W: OutputDevice>(
    alloc: Global,
    seeds: &Seeds<'_>,
    sown: &'a Sown,
    output: &mut W,
) -> Result<Tally<'a>, Failure>
    requires many { length sown.now.specifications.items ≡ length seeds.now.monitors.now }
    requires declares { (x : Subject) × RunsAs sown.now.ready.program x × IsOriginOf sown.now.ready.source x }
    ensures told { IfOk result (λ t. (js : List Judged) × IsTold sown.now seeds.now (seed_lines seeds.now.json (monitors_of seeds.now) seeds.now.first js) (W.contents output.old) (W.contents output.new) t js) }
    ensures refused { IfErr result (λ e. IsNoneRun sown.now seeds.now.run.turns (W.contents output.old) (W.contents output.new) e
        ⊎ IsBegun sown.now seeds.now (HasFailed (W.failure_count output.old) (W.failure_count output.new)) (W.contents output.old) (W.contents output.new) e) }
    ensures devices { PassesUnless (IsErrOf result (Failure.List LogErr.Io)) (change W.contents W.failure_count output.old output.new) }
{
    let mut tally = tally_before(alloc, sown, seeds.run.coverage)?;
    for number in seeds.first..=seeds.last {
        let judged = judge_seed(alloc, sown, seeds.run.turns, number)?;
        tell_run(alloc, seeds.json, seeds.monitors, number, &judged, output)?;
        tally.cover(alloc, &judged)?;
        tally.add(judged);
    }
    Ok(tally)
}

/// What is kept before the first run.
fn tally_before(alloc: Global, sown: &Sown, covers: bool) -> Result<Tally<'_>, RunErr>
    ensures counted { IfOk result (λ t. IsTallyOf (length sown.now.specifications.items) t []) }
    ensures covered { IfOk result (λ t. IsCovered sown.now.ready.program sown.now.ready.source covers t.coverage []) }
    ensures memory { IfErr result (λ e. e ≡ RunErr.OutOfMemory) }
{
    let specifications = sown.specifications.len();
    let source = sown.ready.source.as_ref();
    match Tally::start(alloc, specifications, &sown.ready.program, source, covers) {
        Ok(tally) => Ok(tally),
        Err(_) => Err(RunErr::OutOfMemory),
    }
}

/// Runs the program on one thread by the seed of this number, and asks the specifications and the invariants. Where memory is refused to a worker, there is no end to tell.
fn judge_seed(alloc: Global, sown: &Sown, turns: u64, number: u64) -> Result<JudgedRun, RunErr>
    ensures judged { IfOk result (λ j. IsSeedJudgment sown.now turns number (judged_of j)) }
    ensures refused { IfErr result (λ e. IsSeedRefused sown.now turns e) }
{
    let log = run_seed(alloc, &sown.ready, turns, number)?;
    let judged = judged(alloc, &sown.specifications, asked_of(sown), log)?;
    Ok(judged)
}

/// Runs the program on one thread by the seed of this number.
fn run_seed(alloc: Global, ready: &Ready, turns: u64, number: u64) -> Result<Log, RunErr>
    ensures ended { IfOk result (λ log. IsSeedRun ready.now.program (logged ready.now.log) (map act_of ready.now.script.items) turns number (logged log)) }
    ensures refused { IfErr result (λ e. (e ≡ RunErr.OutOfMemory)
        ⊎ ((e ≢ RunErr.Threads) × RefusesResumed ready.now.program (map act_of ready.now.script.items) turns (logged ready.now.log) (Err e))) }
{
    let program = &ready.program;
    let key = numbered_key(number);
    let Ok(words) = seeded(alloc, key, program.members().len()) else {
        return Err(RunErr::OutOfMemory);
    };
    let mut tallies = Vec::new(alloc);
    let outcome = resume_alone(
        alloc,
        program,
        &ready.log,
        turns,
        words,
        ready.script.as_slice(),
        &mut tallies,
    )?;
    if has_memory(outcome.reports.as_slice()) {
        Ok(Log {
            entries: outcome.log,
            end: outcome.end,
        })
    } else {
        Err(RunErr::OutOfMemory)
    }
}

/// Whether memory was refused to none of the workers.
fn has_memory(reports: &[Report]) -> bool
    ensures { IsTrue result ↔ NoMemory reports.now }
{
    reports.iter().all(|report| report.why != Why::Memory)
}

/// Writes the line of the run by the seed of this number.
fn tell_run<W: OutputDevice>(
    alloc: Global,
    json: bool,
    names: &[&str],
    number: u64,
    judged: &JudgedRun,
    output: &mut W,
) -> Result<(), LogErr>
    requires { length judged.now.answers.items ≡ length names.now }
    ensures { Writes result (seed_line json (texts names.now) number (judged_of judged.now)) (change W.contents W.failure_count output.old output.new) }
{
    let line = seed_text(alloc, json, names, number, judged)?;
    send_all(output, line.as_bytes())
}
