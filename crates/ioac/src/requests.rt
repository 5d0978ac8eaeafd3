//! The requests, one by one: what is asked of which file.

ghost use Rattle.std.specs.Prelude.{◌≡◌, [], None, IfOk, IfErr, IsErrOf, option_map};
ghost use Rattle.ioa_system.specs.Outcomes.{ending_of};
ghost use Rattle.ioa_device.specs.Devices.{BothPassUnless, PassesUnless, change, unused};
ghost use Rattle.ioa_device.specs.declared.failure.LogErr.{LogErr};
ghost use Rattle.ioa_request.specs.declared.request.Request.TheVariants as requests;
ghost use Rattle.ioa_serving.specs.Worlds.{files, no_files, read_only};
ghost use Rattle.ioa_serving.specs.Logs.{found_of};
ghost use Rattle.ioa_serving.specs.Serving.{IsReading, IsRunning, IsSaving, IsServed, IsUnserved, reports_of, wants_of};
ghost use Rattle.ioa_serving.specs.Statuses.{answer_status, ending_status, found_status};
ghost use Rattle.ioa_serving.specs.declared.failure.Failure.{Failure};
ghost use Rattle.ioac.specs.Requests.{Fails, Serves};

use ioa_device::{InputDevice, OutputDevice};
use ioa_request::{Request, Selection, Shown, Topic};
use ioa_serving::explain::explain;
use ioa_serving::{
    Failure, Finding, Ran, Served, Status, Store, chart_log_text, check_text, compile_file,
    dump_object, graph_text, log_list_text, log_log_text, monitor_text, replay_coverage_text,
    replay_in_form, replay_invariants_in_form, replay_log_in_form, replay_log_states_text,
    replay_states_text, run_file, run_seeds_file, silent, status_of, status_of_verdict,
    strict_monitor_text, watch_text, write_library,
};
use ioa_system::End;
use std::alloc::Global;
use std::sync::Wait;
use std::thread::Threads;
use std::time::Clock;

/// Does what is asked, and answers the exit status with what is left to tell; and the run, where there was one.
///
/// # Errors
/// `Io` or `OutOfMemory` where the file is not read, and those of the replay, the log, the run, the monitor, the watch, the chart, the graph, the check, the object or the dump of
/// what it holds, or of the explanation or the library. Nothing was written then, or, where a device failed, no more than a beginning of the text.
pub(crate) fn serve<H: Threads + Wait + Clock + Sync, F: Store, R: InputDevice, W: OutputDevice>(
    rt: &H,
    alloc: Global,
    asked: &Request<'_>,
    store: &mut F,
    input: &mut R,
    output: &mut W,
) -> (Result<Served, Failure>, Option<Ran>)
    ensures served { IfOk result.0 (λ s. IsServed (files F.holds F.lacks F.begins F.bars F.saves store.old store.new) asked.now (change R.remaining R.failure_count input.old input.new)
        (change W.contents W.failure_count output.old output.new) (reports_of s) (wants_of result.1) s.status) }
    ensures refused { IfErr result.0 (λ e. IsUnserved (files F.holds F.lacks F.begins F.bars F.saves store.old store.new) asked.now (change R.remaining R.failure_count input.old input.new)
        (change W.contents W.failure_count output.old output.new) (wants_of result.1) e) }
    ensures silent { (IsRunning asked.now → ⊥) → result.1 ≡ None }
    ensures kept { (IsSaving asked.now → ⊥) → store.new ≡ store.old }
    ensures unread { (IsReading asked.now → ⊥) → input.new ≡ input.old }
    ensures devices { BothPassUnless (IsErrOf result.0 (Failure.List LogErr.Io)) (change R.remaining R.failure_count input.old input.new) (change W.contents W.failure_count output.old output.new) }
{
    match asked {
        Request::Replay {
            file,
            composition,
            json,
        } => (
            replay(alloc, file, *composition, *json, store, input, output),
            None,
        ),
        Request::ReplayStates {
            file,
            composition,
            shown,
        } => (
            replay_states(alloc, file, *composition, *shown, store, input, output),
            None,
        ),
        Request::ReplayLog {
            file,
            composition,
            json,
        } => (
            replay_log(alloc, file, *composition, *json, store, input, output),
            None,
        ),
        Request::ReplayLogStates {
            file,
            composition,
            shown,
        } => (
            replay_log_states(alloc, file, *composition, *shown, store, input, output),
            None,
        ),
        Request::ReplayInvariants {
            file,
            composition,
            json,
        } => (
            replay_invariants(alloc, file, *composition, *json, store, input, output),
            None,
        ),
        Request::ReplayCoverage {
            file,
            composition,
            log,
            json,
        } => (
            replay_coverage(alloc, file, *composition, *log, *json, store, input, output),
            None,
        ),
        Request::Log { file, composition } => (
            log(alloc, file, *composition, store, input, output),
            None,
        ),
        Request::LogByLog { file, composition } => (
            log_by_log(alloc, file, *composition, store, input, output),
            None,
        ),
        Request::Run(settings) => run_file(rt, alloc, settings, store, output),
        Request::Seeds(seeds) => (run_seeds_file(alloc, seeds, store, output), None),
        Request::Monitor { file, composition } => (
            monitor(alloc, file, *composition, store, input, output),
            None,
        ),
        Request::MonitorJson { file, composition } => (
            monitor_json(alloc, file, *composition, store, input, output),
            None,
        ),
        Request::StrictMonitor {
            file,
            composition,
            json,
        } => (
            monitor_strictly(alloc, file, *composition, *json, store, input, output),
            None,
        ),
        Request::Watch {
            file,
            compositions,
            first,
            counts,
            json,
        } => (
            watch(
                alloc,
                file,
                compositions,
                *first,
                *counts,
                *json,
                store,
                input,
                output,
            ),
            None,
        ),
        Request::Chart {
            file,
            composition,
            selection,
        } => (
            chart(alloc, file, *composition, selection, store, input, output),
            None,
        ),
        Request::Graph { file, composition } => {
            (graph(alloc, file, *composition, store, output), None)
        }
        Request::Check { file, compositions } => {
            (check(alloc, file, *compositions, store, output), None)
        }
        Request::Compile {
            file,
            out,
            composition,
        } => (compile(alloc, file, out, *composition, store, output), None),
        Request::Dump { file } => (dump(alloc, file, store, output), None),
        Request::Explain { topic } => (explain_topic(alloc, *topic, output), None),
        Request::Library => (library(output), None),
    }
}

/// Replays the list on standard input on what the file gives, and tells objects or text.
fn replay<F: Store, R: InputDevice, W: OutputDevice>(
    alloc: Global,
    file: &str,
    composition: Option<&str>,
    json: bool,
    store: &F,
    input: &mut R,
    output: &mut W,
) -> Result<Served, Failure>
    ensures served { IfOk result (λ s. Serves (read_only F.holds F.lacks store.now) (requests.Replay file.entry composition.entry json) (change R.remaining R.failure_count input.old input.new) (change W.contents W.failure_count output.old output.new) s) }
    ensures refused { IfErr result (λ e. Fails (read_only F.holds F.lacks store.now) (requests.Replay file.entry composition.entry json) (change R.remaining R.failure_count input.old input.new) (change W.contents W.failure_count output.old output.new) e) }
    ensures devices { BothPassUnless (IsErrOf result (Failure.List LogErr.Io)) (change R.remaining R.failure_count input.old input.new) (change W.contents W.failure_count output.old output.new) }
{
    let text = store.load(alloc, file)?;
    let end = replay_in_form(alloc, text.as_slice(), composition, json, input, output)?;
    Ok(silent(status_of(end)))
}

/// Replays the list on standard input, and tells of the states in which it ends.
fn replay_states<F: Store, R: InputDevice, W: OutputDevice>(
    alloc: Global,
    file: &str,
    composition: Option<&str>,
    shown: Shown,
    store: &F,
    input: &mut R,
    output: &mut W,
) -> Result<Served, Failure>
    ensures served { IfOk result (λ s. Serves (read_only F.holds F.lacks store.now) (requests.ReplayStates file.entry composition.entry shown) (change R.remaining R.failure_count input.old input.new) (change W.contents W.failure_count output.old output.new) s) }
    ensures refused { IfErr result (λ e. Fails (read_only F.holds F.lacks store.now) (requests.ReplayStates file.entry composition.entry shown) (change R.remaining R.failure_count input.old input.new) (change W.contents W.failure_count output.old output.new) e) }
    ensures devices { BothPassUnless (IsErrOf result (Failure.List LogErr.Io)) (change R.remaining R.failure_count input.old input.new) (change W.contents W.failure_count output.old output.new) }
{
    let text = store.load(alloc, file)?;
    let end = replay_states_text(alloc, text.as_slice(), composition, shown, input, output)?;
    Ok(silent(status_of(end)))
}

/// Replays the log on standard input, and tells objects or text.
fn replay_log<F: Store, R: InputDevice, W: OutputDevice>(
    alloc: Global,
    file: &str,
    composition: Option<&str>,
    json: bool,
    store: &F,
    input: &mut R,
    output: &mut W,
) -> Result<Served, Failure>
    ensures served { IfOk result (λ s. Serves (read_only F.holds F.lacks store.now) (requests.ReplayLog file.entry composition.entry json) (change R.remaining R.failure_count input.old input.new) (change W.contents W.failure_count output.old output.new) s) }
    ensures refused { IfErr result (λ e. Fails (read_only F.holds F.lacks store.now) (requests.ReplayLog file.entry composition.entry json) (change R.remaining R.failure_count input.old input.new) (change W.contents W.failure_count output.old output.new) e) }
    ensures devices { BothPassUnless (IsErrOf result (Failure.List LogErr.Io)) (change R.remaining R.failure_count input.old input.new) (change W.contents W.failure_count output.old output.new) }
{
    let text = store.load(alloc, file)?;
    let end = replay_log_in_form(alloc, text.as_slice(), composition, json, input, output)?;
    Ok(silent(status_of(end)))
}

/// Replays the log on standard input, and tells of the states in which it ends.
fn replay_log_states<F: Store, R: InputDevice, W: OutputDevice>(
    alloc: Global,
    file: &str,
    composition: Option<&str>,
    shown: Shown,
    store: &F,
    input: &mut R,
    output: &mut W,
) -> Result<Served, Failure>
    ensures served { IfOk result (λ s. Serves (read_only F.holds F.lacks store.now) (requests.ReplayLogStates file.entry composition.entry shown) (change R.remaining R.failure_count input.old input.new) (change W.contents W.failure_count output.old output.new) s) }
    ensures refused { IfErr result (λ e. Fails (read_only F.holds F.lacks store.now) (requests.ReplayLogStates file.entry composition.entry shown) (change R.remaining R.failure_count input.old input.new) (change W.contents W.failure_count output.old output.new) e) }
    ensures devices { BothPassUnless (IsErrOf result (Failure.List LogErr.Io)) (change R.remaining R.failure_count input.old input.new) (change W.contents W.failure_count output.old output.new) }
{
    let text = store.load(alloc, file)?;
    let end = replay_log_states_text(alloc, text.as_slice(), composition, shown, input, output)?;
    Ok(silent(status_of(end)))
}

/// Replays the log on standard input, and asks for the invariants in each of its states, and tells objects or text.
fn replay_invariants<F: Store, R: InputDevice, W: OutputDevice>(
    alloc: Global,
    file: &str,
    composition: Option<&str>,
    json: bool,
    store: &F,
    input: &mut R,
    output: &mut W,
) -> Result<Served, Failure>
    ensures served { IfOk result (λ s. Serves (read_only F.holds F.lacks store.now) (requests.ReplayInvariants file.entry composition.entry json) (change R.remaining R.failure_count input.old input.new) (change W.contents W.failure_count output.old output.new) s) }
    ensures refused { IfErr result (λ e. Fails (read_only F.holds F.lacks store.now) (requests.ReplayInvariants file.entry composition.entry json) (change R.remaining R.failure_count input.old input.new) (change W.contents W.failure_count output.old output.new) e) }
    ensures devices { BothPassUnless (IsErrOf result (Failure.List LogErr.Io)) (change R.remaining R.failure_count input.old input.new) (change W.contents W.failure_count output.old output.new) }
{
    let text = store.load(alloc, file)?;
    let bytes = text.as_slice();
    let finding = replay_invariants_in_form(alloc, bytes, composition, json, input, output)?;
    Ok(silent(status_of_finding(finding)))
}

/// Replays the list, or the log, on standard input, tells objects or text, and leaves it to be told how often each entry was performed, and each arm and body taken.
fn replay_coverage<F: Store, R: InputDevice, W: OutputDevice>(
    alloc: Global,
    file: &str,
    composition: Option<&str>,
    log: bool,
    json: bool,
    store: &F,
    input: &mut R,
    output: &mut W,
) -> Result<Served, Failure>
    ensures served { IfOk result (λ s. Serves (read_only F.holds F.lacks store.now) (requests.ReplayCoverage file.entry composition.entry log json) (change R.remaining R.failure_count input.old input.new) (change W.contents W.failure_count output.old output.new) s) }
    ensures refused { IfErr result (λ e. Fails (read_only F.holds F.lacks store.now) (requests.ReplayCoverage file.entry composition.entry log json) (change R.remaining R.failure_count input.old input.new) (change W.contents W.failure_count output.old output.new) e) }
    ensures devices { BothPassUnless (IsErrOf result (Failure.List LogErr.Io)) (change R.remaining R.failure_count input.old input.new) (change W.contents W.failure_count output.old output.new) }
{
    let text = store.load(alloc, file)?;
    let (told, end) = replay_coverage_text(
        alloc,
        text.as_slice(),
        composition,
        log,
        json,
        input,
        output,
    )?;
    Ok(Served {
        status: status_of(end),
        reports: Some(told),
    })
}

/// Writes the log of the run of the list on standard input.
fn log<F: Store, R: InputDevice, W: OutputDevice>(
    alloc: Global,
    file: &str,
    composition: Option<&str>,
    store: &F,
    input: &mut R,
    output: &mut W,
) -> Result<Served, Failure>
    ensures served { IfOk result (λ s. Serves (read_only F.holds F.lacks store.now) (requests.Log file.entry composition.entry) (change R.remaining R.failure_count input.old input.new) (change W.contents W.failure_count output.old output.new) s) }
    ensures refused { IfErr result (λ e. Fails (read_only F.holds F.lacks store.now) (requests.Log file.entry composition.entry) (change R.remaining R.failure_count input.old input.new) (change W.contents W.failure_count output.old output.new) e) }
    ensures devices { BothPassUnless (IsErrOf result (Failure.List LogErr.Io)) (change R.remaining R.failure_count input.old input.new) (change W.contents W.failure_count output.old output.new) }
{
    let text = store.load(alloc, file)?;
    let end = log_list_text(alloc, text.as_slice(), composition, input, output)?;
    Ok(silent(status_of(end)))
}

/// Writes the log on standard input again.
fn log_by_log<F: Store, R: InputDevice, W: OutputDevice>(
    alloc: Global,
    file: &str,
    composition: Option<&str>,
    store: &F,
    input: &mut R,
    output: &mut W,
) -> Result<Served, Failure>
    ensures served { IfOk result (λ s. Serves (read_only F.holds F.lacks store.now) (requests.LogByLog file.entry composition.entry) (change R.remaining R.failure_count input.old input.new) (change W.contents W.failure_count output.old output.new) s) }
    ensures refused { IfErr result (λ e. Fails (read_only F.holds F.lacks store.now) (requests.LogByLog file.entry composition.entry) (change R.remaining R.failure_count input.old input.new) (change W.contents W.failure_count output.old output.new) e) }
    ensures devices { BothPassUnless (IsErrOf result (Failure.List LogErr.Io)) (change R.remaining R.failure_count input.old input.new) (change W.contents W.failure_count output.old output.new) }
{
    let text = store.load(alloc, file)?;
    let end = log_log_text(alloc, text.as_slice(), composition, input, output)?;
    Ok(silent(status_of(end)))
}

/// Monitors the log on standard input.
fn monitor<F: Store, R: InputDevice, W: OutputDevice>(
    alloc: Global,
    file: &str,
    composition: Option<&str>,
    store: &F,
    input: &mut R,
    output: &mut W,
) -> Result<Served, Failure>
    ensures served { IfOk result (λ s. Serves (read_only F.holds F.lacks store.now) (requests.Monitor file.entry composition.entry) (change R.remaining R.failure_count input.old input.new) (change W.contents W.failure_count output.old output.new) s) }
    ensures refused { IfErr result (λ e. Fails (read_only F.holds F.lacks store.now) (requests.Monitor file.entry composition.entry) (change R.remaining R.failure_count input.old input.new) (change W.contents W.failure_count output.old output.new) e) }
    ensures devices { BothPassUnless (IsErrOf result (Failure.List LogErr.Io)) (change R.remaining R.failure_count input.old input.new) (change W.contents W.failure_count output.old output.new) }
{
    let text = store.load(alloc, file)?;
    let answer = monitor_text(alloc, text.as_slice(), composition, false, input, output)?;
    Ok(silent(status_of_answer(answer)))
}

/// Monitors the log on standard input, and tells the answer as a JSON object.
fn monitor_json<F: Store, R: InputDevice, W: OutputDevice>(
    alloc: Global,
    file: &str,
    composition: Option<&str>,
    store: &F,
    input: &mut R,
    output: &mut W,
) -> Result<Served, Failure>
    ensures served { IfOk result (λ s. Serves (read_only F.holds F.lacks store.now) (requests.MonitorJson file.entry composition.entry) (change R.remaining R.failure_count input.old input.new) (change W.contents W.failure_count output.old output.new) s) }
    ensures refused { IfErr result (λ e. Fails (read_only F.holds F.lacks store.now) (requests.MonitorJson file.entry composition.entry) (change R.remaining R.failure_count input.old input.new) (change W.contents W.failure_count output.old output.new) e) }
    ensures devices { BothPassUnless (IsErrOf result (Failure.List LogErr.Io)) (change R.remaining R.failure_count input.old input.new) (change W.contents W.failure_count output.old output.new) }
{
    let text = store.load(alloc, file)?;
    let answer = monitor_text(alloc, text.as_slice(), composition, true, input, output)?;
    Ok(silent(status_of_answer(answer)))
}

/// Monitors the log on standard input strictly.
fn monitor_strictly<F: Store, R: InputDevice, W: OutputDevice>(
    alloc: Global,
    file: &str,
    composition: Option<&str>,
    json: bool,
    store: &F,
    input: &mut R,
    output: &mut W,
) -> Result<Served, Failure>
    ensures served { IfOk result (λ s. Serves (read_only F.holds F.lacks store.now) (requests.StrictMonitor file.entry composition.entry json) (change R.remaining R.failure_count input.old input.new) (change W.contents W.failure_count output.old output.new) s) }
    ensures refused { IfErr result (λ e. Fails (read_only F.holds F.lacks store.now) (requests.StrictMonitor file.entry composition.entry json) (change R.remaining R.failure_count input.old input.new) (change W.contents W.failure_count output.old output.new) e) }
    ensures devices { BothPassUnless (IsErrOf result (Failure.List LogErr.Io)) (change R.remaining R.failure_count input.old input.new) (change W.contents W.failure_count output.old output.new) }
{
    let text = store.load(alloc, file)?;
    let bytes = text.as_slice();
    let verdict = strict_monitor_text(alloc, bytes, composition, json, input, output)?;
    Ok(silent(status_of_verdict(verdict)))
}

/// Watches the stream on standard input.
fn watch<F: Store, R: InputDevice, W: OutputDevice>(
    alloc: Global,
    file: &str,
    compositions: &[&str],
    first: bool,
    counts: bool,
    json: bool,
    store: &F,
    input: &mut R,
    output: &mut W,
) -> Result<Served, Failure>
    ensures served { IfOk result (λ s. Serves (read_only F.holds F.lacks store.now) (requests.Watch file.entry compositions.entry first counts json) (change R.remaining R.failure_count input.old input.new) (change W.contents W.failure_count output.old output.new) s) }
    ensures refused { IfErr result (λ e. Fails (read_only F.holds F.lacks store.now) (requests.Watch file.entry compositions.entry first counts json) (change R.remaining R.failure_count input.old input.new) (change W.contents W.failure_count output.old output.new) e) }
    ensures devices { BothPassUnless (IsErrOf result (Failure.List LogErr.Io)) (change R.remaining R.failure_count input.old input.new) (change W.contents W.failure_count output.old output.new) }
{
    let text = store.load(alloc, file)?;
    watch_text(
        alloc,
        text.as_slice(),
        compositions,
        first,
        counts,
        json,
        input,
        output,
    )
}

/// Draws the log on standard input.
fn chart<F: Store, R: InputDevice, W: OutputDevice>(
    alloc: Global,
    file: &str,
    composition: Option<&str>,
    selection: &Selection<'_>,
    store: &F,
    input: &mut R,
    output: &mut W,
) -> Result<Served, Failure>
    ensures served { IfOk result (λ s. Serves (read_only F.holds F.lacks store.now) (requests.Chart file.entry composition.entry selection.now) (change R.remaining R.failure_count input.old input.new) (change W.contents W.failure_count output.old output.new) s) }
    ensures refused { IfErr result (λ e. Fails (read_only F.holds F.lacks store.now) (requests.Chart file.entry composition.entry selection.now) (change R.remaining R.failure_count input.old input.new) (change W.contents W.failure_count output.old output.new) e) }
    ensures devices { BothPassUnless (IsErrOf result (Failure.List LogErr.Io)) (change R.remaining R.failure_count input.old input.new) (change W.contents W.failure_count output.old output.new) }
{
    let text = store.load(alloc, file)?;
    let bytes = text.as_slice();
    let end = chart_log_text(alloc, bytes, composition, selection, input, output)?;
    Ok(silent(status_of(end)))
}

/// Draws what the file gives as a graph.
fn graph<F: Store, W: OutputDevice>(
    alloc: Global,
    file: &str,
    composition: Option<&str>,
    store: &F,
    output: &mut W,
) -> Result<Served, Failure>
    ensures served { IfOk result (λ s. Serves (read_only F.holds F.lacks store.now) (requests.Graph file.entry composition.entry) unused (change W.contents W.failure_count output.old output.new) s) }
    ensures refused { IfErr result (λ e. Fails (read_only F.holds F.lacks store.now) (requests.Graph file.entry composition.entry) unused (change W.contents W.failure_count output.old output.new) e) }
    ensures devices { PassesUnless (IsErrOf result (Failure.List LogErr.Io)) (change W.contents W.failure_count output.old output.new) }
{
    let text = store.load(alloc, file)?;
    graph_text(alloc, text.as_slice(), composition, output)?;
    Ok(silent(Status::Done))
}

/// Checks the file, and its compositions where they are asked for.
fn check<F: Store, W: OutputDevice>(
    alloc: Global,
    file: &str,
    compositions: bool,
    store: &F,
    output: &mut W,
) -> Result<Served, Failure>
    ensures served { IfOk result (λ s. Serves (read_only F.holds F.lacks store.now) (requests.Check file.entry compositions) unused (change W.contents W.failure_count output.old output.new) s) }
    ensures refused { IfErr result (λ e. Fails (read_only F.holds F.lacks store.now) (requests.Check file.entry compositions) unused (change W.contents W.failure_count output.old output.new) e) }
    ensures devices { PassesUnless (IsErrOf result (Failure.List LogErr.Io)) (change W.contents W.failure_count output.old output.new) }
{
    let text = store.load(alloc, file)?;
    check_text(alloc, text.as_slice(), compositions, output)?;
    Ok(silent(Status::Done))
}

/// Writes what the object in the file holds.
fn dump<F: Store, W: OutputDevice>(
    alloc: Global,
    file: &str,
    store: &F,
    output: &mut W,
) -> Result<Served, Failure>
    ensures served { IfOk result (λ s. Serves (read_only F.holds F.lacks store.now) (requests.Dump file.entry) unused (change W.contents W.failure_count output.old output.new) s) }
    ensures refused { IfErr result (λ e. Fails (read_only F.holds F.lacks store.now) (requests.Dump file.entry) unused (change W.contents W.failure_count output.old output.new) e) }
    ensures devices { PassesUnless (IsErrOf result (Failure.List LogErr.Io)) (change W.contents W.failure_count output.old output.new) }
{
    let object = store.load(alloc, file)?;
    dump_object(alloc, object.as_slice(), output)?;
    Ok(silent(Status::Done))
}

/// Puts the object of what the file declares in the file `out`.
fn compile<F: Store, W: OutputDevice>(
    alloc: Global,
    file: &str,
    out: &str,
    composition: Option<&str>,
    store: &mut F,
    output: &mut W,
) -> Result<Served, Failure>
    ensures served { IfOk result (λ s. IsServed (files F.holds F.lacks F.begins F.bars F.saves store.old store.new) (requests.Compile file.entry out.entry composition.entry) unused (change W.contents W.failure_count output.old output.new) (reports_of s) [] s.status) }
    ensures refused { IfErr result (λ e. IsUnserved (files F.holds F.lacks F.begins F.bars F.saves store.old store.new) (requests.Compile file.entry out.entry composition.entry) unused (change W.contents W.failure_count output.old output.new) [] e) }
    ensures devices { PassesUnless (IsErrOf result (Failure.List LogErr.Io)) (change W.contents W.failure_count output.old output.new) }
{
    compile_file(alloc, file, out, composition, store, output)?;
    Ok(silent(Status::Done))
}

/// Writes what a topic means.
fn explain_topic<W: OutputDevice>(
    alloc: Global,
    topic: Topic,
    output: &mut W,
) -> Result<Served, Failure>
    ensures served { IfOk result (λ s. Serves no_files (requests.Explain topic) unused (change W.contents W.failure_count output.old output.new) s) }
    ensures refused { IfErr result (λ e. Fails no_files (requests.Explain topic) unused (change W.contents W.failure_count output.old output.new) e) }
    ensures devices { PassesUnless (IsErrOf result (Failure.List LogErr.Io)) (change W.contents W.failure_count output.old output.new) }
{
    explain(alloc, topic, output)?;
    Ok(silent(Status::Done))
}

/// Writes the library's source.
fn library<W: OutputDevice>(output: &mut W) -> Result<Served, Failure>
    ensures served { IfOk result (λ s. Serves no_files requests.Library unused (change W.contents W.failure_count output.old output.new) s) }
    ensures refused { IfErr result (λ e. Fails no_files requests.Library unused (change W.contents W.failure_count output.old output.new) e) }
    ensures devices { PassesUnless (IsErrOf result (Failure.List LogErr.Io)) (change W.contents W.failure_count output.old output.new) }
{
    write_library(output)?;
    Ok(silent(Status::Done))
}

/// The exit status of a log in which this is found.
fn status_of_finding(finding: Finding) -> Status
    ensures { result ≡ found_status (found_of finding) }
{
    match finding {
        Finding::Broken(_) => Status::NotAccepted,
        Finding::Unbroken(end) => status_of(end),
    }
}

/// The exit status of a monitor that gives this answer.
fn status_of_answer(answer: Option<End>) -> Status
    ensures { result ≡ answer_status (option_map ending_of answer) }
{
    match answer {
        None => Status::Done,
        Some(_) => Status::NotAccepted,
    }
}
