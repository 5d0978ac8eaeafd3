//! What there is to say of how a list, a log or a run ended: of the action that was not performed, and of the states before it.

ghost use Rattle.std.specs.Prelude.{◌≡◌, IfOk, IfSome, None, OnOk, map};
ghost use Rattle.std.specs.Option.{option_copied};
ghost use Rattle.std.specs.String.{string_bytes};
ghost use Rattle.ioa_value.specs.Actions.{act_of};
ghost use Rattle.ioa_system.specs.Logs.{actions_of, logged};
ghost use Rattle.ioa_log.specs.LogTexts.{ReadsLog};
ghost use Rattle.ioa_account.specs.Remarks.{TellsDifference, TellsInspected};
ghost use Rattle.ioa_serving.specs.Logs.{performed_in};
ghost use Rattle.ioac.specs.Remarks as spec;
ghost use Rattle.ioac.specs.Remarks.{IsComposed, IsLoaded, IsNoLog, OfBegun, OfHosts, OfLog, Explains, TellsCounted, TellsDone, TellsEndBy, TellsEnded, TellsListEnd, TellsListed, TellsLogEnd, TellsRunEnd, TellsSource};

use crate::remarks::hints::taken_text;
use crate::remarks::idle::put_idle;
use crate::remarks::places::source_of;
use crate::remarks::reached::put_reached;
use crate::remarks::{hints, nameless};
use ioa_account::{
    Told, actions_in, put_difference, put_inspected, put_list_end, put_log_end, put_monitored,
};
use ioa_compile::compile;
use ioa_compose::Composition;
use ioa_device::{Counted, LogErr};
use ioa_log::begun_log;
use ioa_replay::read_log;
use ioa_request::Request;
use ioa_serving::{
    Status, Store, StoreErr, compose_text, is_object, performed_in, put_monitor_counts,
};
use ioa_syntax::Refusal;
use ioa_system::Log;
use ioa_value::{Action, OutOfMemory, Types, read_list};
use std::alloc::Global;

/// What came of a request that had something to read.
#[derive(Clone, Copy)]
pub enum Ended {
    /// It was served, to this exit status.
    Served(Status),
    /// The log is not of the composition's run, by this line, lines counting from 1.
    Diverged(usize),
}

/// Puts behind the text what there is to say of a request that ended so.
pub fn put<F: Store>(
    alloc: Global,
    text: &mut String,
    asked: &Request<'_>,
    ended: Ended,
    store: &F,
    input: &[u8],
) -> Result<(), OutOfMemory>
    ensures { OnOk result (TellsEnded (F.holds store.now) (F.lacks store.now) asked.now (spec.source_of asked.now) ended input.now (string_bytes text.old) (string_bytes text.new)) }
{
    let Some((file, name)) = source_of(asked) else {
        return Ok(());
    };
    let bytes = loaded(alloc, file, store)?;
    let source = bytes.as_slice();
    if is_object(source) {
        return nameless::put(alloc, text, asked, ended, source, name, input);
    }
    put_source(alloc, text, asked, ended, file, source, name, input)
}

/// Puts what there is to say of a request that names a source.
fn put_source(
    alloc: Global,
    text: &mut String,
    asked: &Request<'_>,
    ended: Ended,
    file: &str,
    source: &[u8],
    name: Option<&str>,
    input: &[u8],
) -> Result<(), OutOfMemory>
    ensures { OnOk result (TellsSource asked.now ended (file.now, option_copied name.entry) source.now input.now (string_bytes text.old) (string_bytes text.new)) }
{
    let Some(composition) = composed(alloc, source, name)? else {
        return Ok(());
    };
    let told = Told {
        file,
        source,
        composition: &composition,
        input,
    };
    put_told(alloc, text, asked, ended, &told)
}

/// The bytes of a file. None at all, where it cannot be read now.
pub fn loaded<F: Store>(alloc: Global, name: &str, store: &F) -> Result<Vec<u8>, OutOfMemory>
    ensures { IfOk result (λ bytes. IsLoaded (F.holds store.now) (F.lacks store.now) name.now bytes.items) }
{
    match store.load(alloc, name) {
        Ok(bytes) => Ok(bytes),
        Err(StoreErr::Io) => Ok(Vec::new(alloc)),
        Err(StoreErr::OutOfMemory) => Err(OutOfMemory),
    }
}

/// The composition of this name, where the source has it.
pub fn composed(
    alloc: Global,
    source: &[u8],
    name: Option<&str>,
) -> Result<Option<Composition>, OutOfMemory>
    ensures { IfOk result (λ c. IsComposed source.now (option_copied name.entry) c) }
{
    match compose_text(alloc, source, name) {
        Ok(composition) => Ok(Some(composition)),
        Err(Refusal::OutOfMemory) => Err(OutOfMemory),
        Err(_) => Ok(None),
    }
}

fn put_told(
    alloc: Global,
    text: &mut String,
    asked: &Request<'_>,
    ended: Ended,
    told: &Told<'_>,
) -> Result<(), OutOfMemory>
    ensures { OnOk result (Explains asked.now ended told.now (string_bytes text.old) (string_bytes text.new)) }
{
    match ended {
        Ended::Served(status) => put_served(alloc, text, asked, status, told),
        Ended::Diverged(line) => put_log_difference(alloc, text, told, line),
    }
}

/// Puts what there is to say of a request that was served.
fn put_served(
    alloc: Global,
    text: &mut String,
    asked: &Request<'_>,
    status: Status,
    told: &Told<'_>,
) -> Result<(), OutOfMemory>
    ensures { OnOk result (Explains asked.now (Ended.Served status) told.now (string_bytes text.old) (string_bytes text.new)) }
{
    match asked {
        Request::Replay { composition, .. } => put_end_of_list(alloc, text, told, *composition),
        Request::ReplayStates { composition, .. } => {
            put_end_of_list(alloc, text, told, *composition)
        }
        Request::Log { composition, .. } => put_end_of_list(alloc, text, told, *composition),
        Request::ReplayLog { .. } => put_end_of_log(alloc, text, told),
        Request::ReplayLogStates { .. } => put_end_of_log(alloc, text, told),
        Request::LogByLog { .. } => put_end_of_log(alloc, text, told),
        Request::Chart { .. } => put_end_of_log(alloc, text, told),
        Request::ReplayInvariants { .. } => put_invariants(alloc, text, told),
        Request::ReplayCoverage {
            composition,
            log,
            ..
        } => put_end_by(alloc, text, told, *composition, *log),
        Request::Monitor { .. } => put_monitor(alloc, text, told),
        Request::MonitorJson { .. } => put_monitor(alloc, text, told),
        Request::StrictMonitor { .. } => put_monitor(alloc, text, told),
        Request::Watch { .. } => Ok(()),
        Request::Run(settings) => {
            put_end_of_run(alloc, text, status, told, settings.composition)
        }
        Request::Seeds(_) => Ok(()),
        Request::Graph { .. } => Ok(()),
        Request::Check { .. } => Ok(()),
        Request::Compile { .. } => Ok(()),
        Request::Dump { .. } => Ok(()),
        Request::Explain { .. } => Ok(()),
        Request::Library => Ok(()),
    }
}

/// Puts the action that was not performed, and why: of a log, or of a list.
fn put_end_by(
    alloc: Global,
    text: &mut String,
    told: &Told<'_>,
    name: Option<&str>,
    log: bool,
) -> Result<(), OutOfMemory>
    ensures { OnOk result (TellsEndBy log told.now (string_bytes text.old) (string_bytes text.new)) }
{
    if log {
        put_end_of_log(alloc, text, told)
    } else {
        put_end_of_list(alloc, text, told, name)
    }
}

/// Puts the action of a list that was not performed, and why; and of one that no component has which entries it may mean.
fn put_end_of_list(
    alloc: Global,
    text: &mut String,
    told: &Told<'_>,
    name: Option<&str>,
) -> Result<(), OutOfMemory>
    ensures { OnOk result (TellsListEnd told.now (string_bytes text.old) (string_bytes text.new)) }
{
    match read_list(alloc, told.composition.types(), told.input)? {
        Ok(actions) => put_listed(alloc, text, told, name, actions.as_slice()),
        Err(_) => Ok(()),
    }
}

fn put_listed(
    alloc: Global,
    text: &mut String,
    told: &Told<'_>,
    name: Option<&str>,
    actions: &[Action],
) -> Result<(), OutOfMemory>
    ensures { OnOk result (TellsListed told.now (map act_of actions.now) (string_bytes text.old) (string_bytes text.new)) }
{
    put_list_end(alloc, text, told, actions)?;
    hints::put(alloc, text, told, name, actions)
}

/// Puts the action of a log that was not performed, and why.
fn put_end_of_log(alloc: Global, text: &mut String, told: &Told<'_>) -> Result<(), OutOfMemory>
    ensures { OnOk result (TellsLogEnd told.now (string_bytes text.old) (string_bytes text.new)) }
{
    match heard_log(alloc, told.composition.types(), told.input)? {
        Some(log) => {
            let actions = actions_in(alloc, log.entries)?;
            put_log_end(alloc, text, told, &actions)
        }
        None => Ok(()),
    }
}

/// Puts the action at which a fault ended a run, and which fault it is, the same as of its log; or of a run that is done what was never performed, and what may be next.
fn put_end_of_run(
    alloc: Global,
    text: &mut String,
    status: Status,
    told: &Told<'_>,
    name: Option<&str>,
) -> Result<(), OutOfMemory>
    ensures { OnOk result (TellsRunEnd status told.now (string_bytes text.old) (string_bytes text.new)) }
{
    match status {
        Status::Faulted => put_end_of_log(alloc, text, told),
        Status::Done => put_done_run(alloc, text, told, name),
        Status::NotAccepted => Ok(()),
        Status::Refused => Ok(()),
        Status::BadCommandLine => Ok(()),
        Status::Unable => Ok(()),
    }
}

/// Puts which actions of its components a run that is done never performed, which are enabled in the states that it reached, and which composition was taken, where
/// none was named.
fn put_done_run(
    alloc: Global,
    text: &mut String,
    told: &Told<'_>,
    name: Option<&str>,
) -> Result<(), OutOfMemory>
    ensures { OnOk result (OfLog told.now (TellsDone told.now) (string_bytes text.old) (string_bytes text.new)) }
{
    match heard_log(alloc, told.composition.types(), told.input)? {
        Some(log) => put_performed(alloc, text, told, name, log),
        None => Ok(()),
    }
}

fn put_performed(
    alloc: Global,
    text: &mut String,
    told: &Told<'_>,
    name: Option<&str>,
    log: Log,
) -> Result<(), OutOfMemory>
    ensures { OnOk result (TellsDone told.now (logged log) (string_bytes text.old) (string_bytes text.new)) }
{
    let taken = taken_text(alloc, told.composition, told.source, name)?;
    put_idle(text, told.composition.members(), &log.entries)?;
    let actions = actions_in(alloc, log.entries)?;
    put_reached(alloc, text, told, &actions)?;
    text.push_str(taken.as_str())?;
    Ok(())
}

/// Puts why a log is not of the composition's run, by the run of its actions up to this line, and by its end, where this comes next: no more of
/// it may be heard.
fn put_log_difference(
    alloc: Global,
    text: &mut String,
    told: &Told<'_>,
    line: usize,
) -> Result<(), OutOfMemory>
    ensures { OnOk result (OfBegun told.now line (λ log. TellsDifference told.now (actions_of log) log.ending) (string_bytes text.old) (string_bytes text.new)) }
{
    match begun_log(alloc, told.composition.types(), told.input, line)? {
        Some(log) => {
            let end = log.end;
            let actions = actions_in(alloc, log.entries)?;
            put_difference(alloc, text, told, &actions, end)
        }
        None => Ok(()),
    }
}

/// Puts how many invariants were asked in how many of the log's states, and what came of it.
fn put_invariants(alloc: Global, text: &mut String, told: &Told<'_>) -> Result<(), OutOfMemory>
    ensures { OnOk result (OfLog told.now (λ log. OfHosts told.now (λ h. TellsInspected told.now h log)) (string_bytes text.old) (string_bytes text.new)) }
{
    match heard_log(alloc, told.composition.types(), told.input)? {
        Some(log) => put_inspected(alloc, text, told, log),
        None => Ok(()),
    }
}

/// Puts how many of the log's actions the specification takes, by its names, how many it has, and what came of them.
fn put_monitor(alloc: Global, text: &mut String, told: &Told<'_>) -> Result<(), OutOfMemory>
    ensures { OnOk result (OfLog told.now (λ log. TellsCounted told.now (performed_in log)) (string_bytes text.old) (string_bytes text.new)) }
{
    match heard_log(alloc, told.composition.types(), told.input)? {
        Some(log) => put_counted(alloc, text, told, performed_in(alloc, log)?),
        None => Ok(()),
    }
}

/// The same of these actions.
fn put_counted(
    alloc: Global,
    text: &mut String,
    told: &Told<'_>,
    actions: Vec<Action>,
) -> Result<(), OutOfMemory>
    ensures { OnOk result (TellsCounted told.now (map act_of actions.items) (string_bytes text.old) (string_bytes text.new)) }
{
    let program = compile(alloc, told.composition)?;
    put_monitor_counts(alloc, text, &program, &actions)?;
    put_monitored(alloc, text, told, actions)
}

/// The log that the bytes are, if they are one. They are at hand, so that no device fails.
pub fn heard_log(alloc: Global, types: &Types, bytes: &[u8]) -> Result<Option<Log>, OutOfMemory>
    ensures log { IfOk result (λ heard. IfSome heard (λ log. ReadsLog types.now bytes.now (logged log))) }
    ensures none { IfOk result (λ heard. heard ≡ None → IsNoLog types.now bytes.now) }
{
    let mut device = Counted::new(bytes);
    match read_log(alloc, types, &mut device) {
        Ok(log) => Ok(Some(log)),
        Err(LogErr::OutOfMemory) => Err(OutOfMemory),
        Err(LogErr::Io) => Err(OutOfMemory),
        Err(LogErr::NotJson(_)) => Ok(None),
        Err(LogErr::BadEntry(_)) => Ok(None),
        Err(LogErr::NoEnd) => Ok(None),
        Err(LogErr::AfterEnd) => Ok(None),
        Err(LogErr::WrongOwner(_)) => Ok(None),
        Err(LogErr::Diverges(_)) => Ok(None),
    }
}
