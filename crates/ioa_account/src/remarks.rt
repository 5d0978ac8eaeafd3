//! What is told of how a run ends, and of how much was asked of it.

ghost use Rattle.std.specs.Prelude.{◌≡◌, ◌+◌, ◌++◌, ◌&&◌, ◌==◌, not, suc, length, IfOk, OnOk, map};
ghost use Rattle.std.specs.String.{string_bytes};
ghost use Rattle.ioa_value.specs.Actions.{act_of};
ghost use Rattle.ioa_tree.specs.Hosts.{Hosted, hosts_of};
ghost use Rattle.ioa_tree.specs.Likes.{AllRelated};
ghost use Rattle.ioa_compose.specs.Held.{composed_of};
ghost use Rattle.ioa_compose.specs.Simulates.{SlotsHoldAt, Simulates};
ghost use Rattle.ioa_compile.specs.Implements.{Implements};
ghost use Rattle.ioa_compile.specs.Tables.{tabled};
ghost use Rattle.ioa_inspect.specs.Breaking.{AreStates, broken_of};
ghost use Rattle.ioa_system.specs.Logs as logs;
ghost use Rattle.ioa_system.specs.Logs.{log_end, logged};
ghost use Rattle.ioa_system.specs.Outcomes.{ending_of};
ghost use Rattle.ioa_system.specs.Systems.{values_of};
ghost use Rattle.ioa_account.specs.Remarks as spec;
ghost use Rattle.ioa_account.specs.Remarks.{IsAccountOf, TellsDifference, TellsEnd, TellsInspected, TellsMonitored};

use crate::counts::{asked_invariants, is_known, known_actions};
use crate::ends::{Account, account_of, action_text, fault_words, name_at};
use crate::faults::invariant_fault;
use crate::lines::line_of_action;
use crate::quoted::{put_line, put_transition};
use crate::states::put_component;
use ioa_compile::{Program, compile};
use ioa_compose::Composition;
use ioa_device::LogErr;
use ioa_inspect::{Broken, inspect};
use ioa_monitor::{MonitorErr, monitor};
use ioa_system::{End, Log, LogEnd, LogEntry, Run, run_list};
use ioa_value::{Action, Fault, OutOfMemory, Types};
use std::alloc::Global;
use std::fmt::Write;

/// A composition, the name and the bytes of the file that declares it, and a list or a log.
#[derive(Clone, Copy)]
pub struct Told<'a> {
    pub file: &'a str,
    pub source: &'a [u8],
    pub composition: &'a Composition,
    pub input: &'a [u8],
}

/// Puts behind the text why the run of a list's actions ends before all are performed: the line with the action, a sentence, the transition
/// as it stands in the source, and the variables of its component. Nothing, where all are performed.
pub fn put_list_end(
    alloc: Global,
    text: &mut String,
    told: &Told<'_>,
    actions: &[Action],
) -> Result<(), OutOfMemory>
    ensures { OnOk result (TellsEnd told.now (spec.list_line told.now) (map act_of actions.now) (string_bytes text.old) (string_bytes text.new)) }
{
    match account_by_run(alloc, told.composition, actions)? {
        Some(found) => {
            put_list_line(alloc, text, told, found.index)?;
            put_account(alloc, text, told, &found)
        }
        None => Ok(()),
    }
}

/// The same of a log's actions.
pub fn put_log_end(
    alloc: Global,
    text: &mut String,
    told: &Told<'_>,
    actions: &[Action],
) -> Result<(), OutOfMemory>
    ensures { OnOk result (TellsEnd told.now (spec.log_line told.now) (map act_of actions.now) (string_bytes text.old) (string_bytes text.new)) }
{
    match account_by_run(alloc, told.composition, actions)? {
        Some(found) => {
            put_log_line(alloc, text, told, found.index)?;
            put_account(alloc, text, told, &found)
        }
        None => Ok(()),
    }
}

/// Puts behind the text, of the actions and the end of a log that is not of the composition's run, why the run over them ends, or that they are all performed;
/// and how the log's end differs, where it is this that does.
pub fn put_difference(
    alloc: Global,
    text: &mut String,
    told: &Told<'_>,
    actions: &[Action],
    end: LogEnd,
) -> Result<(), OutOfMemory>
    ensures { OnOk result (TellsDifference told.now (map act_of actions.now) (log_end end) (string_bytes text.old) (string_bytes text.new)) }
{
    match account_by_run(alloc, told.composition, actions)? {
        Some(found) => {
            put_other_fault(text, actions.len(), end, found.end)?;
            put_account(alloc, text, told, &found)
        }
        None => put_all_performed(alloc, text, told.composition.types(), actions, end),
    }
}

/// Puts the run's end, where the log tells that the last of so many actions faults, and it does, but otherwise.
fn put_other_fault(
    text: &mut String,
    count: usize,
    end: LogEnd,
    own: End,
) -> Result<(), OutOfMemory>
    ensures { OnOk result (string_bytes text.new ≡ string_bytes text.old ++ spec.other_fault count (log_end end) (ending_of own)) }
{
    if is_fault(end) && faults_last(count, own) {
        writeln!(text, "the run's end is: {own}")?;
    }
    Ok(())
}

/// Puts that all actions of a log are performed, where its end tells that the last one faults, or another number of them.
fn put_all_performed(
    alloc: Global,
    text: &mut String,
    types: &Types,
    actions: &[Action],
    end: LogEnd,
) -> Result<(), OutOfMemory>
    ensures { OnOk result (string_bytes text.new ≡ string_bytes text.old ++ spec.all_performed types.now (map act_of actions.now) (log_end end)) }
{
    if is_of_last(actions, end) {
        let last = actions.len().saturating_sub(1);
        put_last_performed(alloc, text, types, actions, last)
    } else {
        put_own_end(text, actions.len())
    }
}

/// Whether the end of a log of these actions tells that the last one faults.
fn is_of_last(actions: &[Action], end: LogEnd) -> bool
    ensures { result ≡ (logs.is_fault (log_end end) && not (length actions.now == 0)) }
{
    is_fault(end) && !actions.is_empty()
}

/// Puts that the action of this index is performed, which the log tells to fault.
fn put_last_performed(
    alloc: Global,
    text: &mut String,
    types: &Types,
    actions: &[Action],
    last: usize,
) -> Result<(), OutOfMemory>
    ensures { OnOk result (string_bytes text.new ≡ string_bytes text.old ++ spec.last_performed types.now (map act_of actions.now) last) }
{
    let action = action_text(alloc, types, actions, last)?;
    put_performed(text, action.as_str())
}

/// Puts that an action of this text is performed, which the log tells to fault.
fn put_performed(text: &mut String, action: &str) -> Result<(), OutOfMemory>
    ensures { OnOk result (string_bytes text.new ≡ string_bytes text.old ++ spec.performed_text action.now) }
{
    writeln!(
        text,
        "the log says that {action} faults, and it is performed"
    )?;
    Ok(())
}

/// Puts the end of a run that performs all of so many actions.
fn put_own_end(text: &mut String, count: usize) -> Result<(), OutOfMemory>
    ensures { OnOk result (string_bytes text.new ≡ string_bytes text.old ++ spec.own_end count) }
{
    let own = End::Done(count);
    writeln!(
        text,
        "all actions of the log are performed, so that the run's end is: {own}"
    )?;
    Ok(())
}

/// Whether the log ends by a fault.
fn is_fault(end: LogEnd) -> bool
    ensures { result ≡ logs.is_fault (log_end end) }
{
    match end {
        LogEnd::Done(_) => false,
        LogEnd::Fault(_, _, _) => true,
    }
}

/// Whether a run over so many actions ends by a fault of the last one.
fn faults_last(count: usize, end: End) -> bool
    ensures { result ≡ spec.faults_last count (ending_of end) }
{
    match end {
        End::Done(_) | End::NotAnAction(_) | End::NotEnabled(_) => false,
        End::Fault(_, _, index) => index == count.saturating_sub(1),
    }
}

/// Puts behind the text how many of a log's actions the specification has, and, where it does not perform one of these, which and why.
pub fn put_monitored(
    alloc: Global,
    text: &mut String,
    told: &Told<'_>,
    actions: Vec<Action>,
) -> Result<(), OutOfMemory>
    ensures { OnOk result ((h : Hosted) → Simulates h (composed_of told.now.composition.now)
        → TellsMonitored told.now h (map act_of actions.items) (string_bytes text.old) (string_bytes text.new)) }
{
    let program = compile(alloc, told.composition)?;
    let count = known_actions(alloc, &program, &actions)?;
    put_known(text, count, actions.len())?;
    match monitor(alloc, &program, &actions) {
        Ok(()) => Ok(()),
        Err(MonitorErr::SpecHasInternal) => Ok(()),
        Err(MonitorErr::OutOfMemory) => Err(OutOfMemory),
        Err(MonitorErr::At { index, answer: _ }) => {
            put_log_line(alloc, text, told, index)?;
            put_refused(alloc, text, told, &program, actions)
        }
    }
}

/// Puts behind the text how many invariants were asked in how many of a log's states; and of the first that is broken after which action it is, its fault, where it has one,
/// itself as it stands in the source, and the variables of its component, or else how the log ends. Of a log that is not of the composition's run nothing is told.
pub fn put_inspected(
    alloc: Global,
    text: &mut String,
    told: &Told<'_>,
    log: Log,
) -> Result<(), OutOfMemory>
    ensures { OnOk result ((h : Hosted) → Simulates h (composed_of told.now.composition.now)
        → TellsInspected told.now h (logged log) (string_bytes text.old) (string_bytes text.new)) }
{
    match inspect(alloc, told.composition, &log) {
        Err(LogErr::OutOfMemory) => Err(OutOfMemory),
        Err(_) => Ok(()),
        Ok(inspection) => {
            let actions = actions_in(alloc, log.entries)?;
            let asked = asked_invariants(told.composition);
            match inspection.broken {
                Some(broken) => {
                    put_asked(text, asked, number_of(broken.state)?)?;
                    put_broken(alloc, text, told, &actions, broken)
                }
                None => {
                    put_asked(text, asked, number_of(inspection.run.performed)?)?;
                    put_log_end(alloc, text, told, &actions)
                }
            }
        }
    }
}

/// Why the composition's run of these actions ends before all are performed; none where it performs all.
fn account_by_run(
    alloc: Global,
    composition: &Composition,
    actions: &[Action],
) -> Result<Option<Account>, OutOfMemory>
    ensures { IfOk result (λ found. IsAccountOf composition.now (map act_of actions.now) found) }
{
    let program = compile(alloc, composition)?;
    account_of(alloc, composition, &program, actions)
}

/// Puts why an action was not performed: the sentence, the transition that is to be looked at, and the variables of its component.
fn put_account(
    alloc: Global,
    text: &mut String,
    told: &Told<'_>,
    found: &Account,
) -> Result<(), OutOfMemory>
    ensures { OnOk result (string_bytes text.new ≡ string_bytes text.old ++ spec.account_text told.now found.now) }
{
    text.push_str(found.why.as_str())?;
    text.push_str("\n")?;
    put_transition(alloc, text, told.file, told.source, found.line as usize)?;
    text.push_str(found.states.as_str())?;
    Ok(())
}

/// Puts the list's line with the action of this index.
fn put_list_line(
    alloc: Global,
    text: &mut String,
    told: &Told<'_>,
    index: usize,
) -> Result<(), OutOfMemory>
    ensures { OnOk result (string_bytes text.new ≡ string_bytes text.old ++ spec.list_line told.now index) }
{
    match line_of_action(told.input, index) {
        Some(number) => put_line(alloc, text, "list", told.input, number),
        None => Ok(()),
    }
}

/// Puts the log's line with the action of this index: each line before the last has one.
fn put_log_line(
    alloc: Global,
    text: &mut String,
    told: &Told<'_>,
    index: usize,
) -> Result<(), OutOfMemory>
    ensures { OnOk result (string_bytes text.new ≡ string_bytes text.old ++ spec.log_line told.now index) }
{
    put_line(alloc, text, "log", told.input, number_of(index)?)
}

/// The number, from 1, of what has this index, from 0. So many things are not held in memory that there is none.
pub(crate) fn number_of(index: usize) -> Result<usize, OutOfMemory>
    ensures { IfOk result (λ number. number ≡ index + 1) }
{
    match index.checked_add(1) {
        Some(number) => Ok(number),
        None => Err(OutOfMemory),
    }
}

/// Puts how many of so many actions the specification has.
pub(crate) fn put_known(text: &mut String, count: usize, all: usize) -> Result<(), OutOfMemory>
    ensures { OnOk result (string_bytes text.new ≡ string_bytes text.old ++ spec.known_text count all) }
{
    if count == 0 {
        writeln!(
            text,
            "the specification has 0 of {all} actions of the log: nothing was specified"
        )?;
    } else {
        writeln!(
            text,
            "the specification has {count} of {all} actions of the log"
        )?;
    }
    Ok(())
}

/// Puts why the specification does not perform the first of those actions that it has and does not perform.
fn put_refused(
    alloc: Global,
    text: &mut String,
    told: &Told<'_>,
    program: &Program,
    actions: Vec<Action>,
) -> Result<(), OutOfMemory>
    requires { Implements program.now (composed_of told.now.composition.now) }
    ensures { OnOk result ((h : Hosted) → Simulates h (composed_of told.now.composition.now)
        → TellsEnd told.now spec.no_line (spec.known_among (hosts_of h) (map act_of actions.items)) (string_bytes text.old) (string_bytes text.new)) }
{
    let known = those_known(alloc, program, actions)?;
    match account_of(alloc, told.composition, program, &known)? {
        Some(found) => put_account(alloc, text, told, &found),
        None => Ok(()),
    }
}

/// Those of the actions that a component has.
fn those_known(
    alloc: Global,
    program: &Program,
    actions: Vec<Action>,
) -> Result<Vec<Action>, OutOfMemory>
    ensures { IfOk result (λ known. map act_of known.items ≡ spec.known_among (tabled program.now) (map act_of actions.items)) }
{
    let mut known = Vec::new(alloc);
    for action in actions {
        if is_known(alloc, program, &action)? {
            known.push(action)?;
        }
    }
    Ok(known)
}

/// Puts how many invariants were asked, and in how many states.
fn put_asked(text: &mut String, count: usize, states: usize) -> Result<(), OutOfMemory>
    ensures { OnOk result (string_bytes text.new ≡ string_bytes text.old ++ spec.asked_text count states) }
{
    if count == 0 {
        text.push_str("no invariant is declared of a component's automaton: nothing was asked\n")?;
    } else {
        writeln!(text, "invariants asked: {count} in each of {states} states")?;
    }
    Ok(())
}

/// Puts when and where an invariant is broken, as it stands in the source, and the variables of the component that breaks it.
fn put_broken(
    alloc: Global,
    text: &mut String,
    told: &Told<'_>,
    actions: &[Action],
    broken: Broken,
) -> Result<(), OutOfMemory>
    ensures { OnOk result ((h : Hosted) → Simulates h (composed_of told.now.composition.now)
        → string_bytes text.new ≡ string_bytes text.old ++ spec.broken_text told.now h (map act_of actions.now) (broken_of broken)) }
{
    let run = run_before(alloc, told.composition, actions, broken.state)?;
    let fault = invariant_fault(
        alloc,
        told.composition,
        &run.states,
        broken.component,
        broken.invariant,
    )?;
    let name = name_at(told.composition, broken.component);
    put_broken_after(alloc, text, told, broken.state, name, fault)?;
    put_invariant(alloc, text, told, broken.invariant)?;
    put_component(alloc, text, told.composition, broken.component, &run.states)
}

/// The composition's run of the first so many actions.
fn run_before(
    alloc: Global,
    composition: &Composition,
    actions: &[Action],
    count: usize,
) -> Result<Run, OutOfMemory>
    ensures states { IfOk result (λ r. AreStates (composed_of composition.now).members (values_of r.states.items)) }
    ensures hosts { IfOk result (λ r. (h : Hosted) → Simulates h (composed_of composition.now)
        → AllRelated (SlotsHoldAt h.hosts) 0 (spec.states_before h (map act_of actions.now) count) (values_of r.states.items)) }
{
    let program = compile(alloc, composition)?;
    let before = count.min(actions.len());
    run_list(alloc, &program, &actions[..before])
}

/// Puts after how many of the log's actions an invariant of the component of this name is broken, with the last of these; and its fault, where it has one.
fn put_broken_after(
    alloc: Global,
    text: &mut String,
    told: &Told<'_>,
    state: usize,
    component: &str,
    fault: Option<Fault>,
) -> Result<(), OutOfMemory>
    ensures { OnOk result (string_bytes text.new ≡ string_bytes text.old ++ spec.broken_after told.now state component.now fault) }
{
    match state.checked_sub(1) {
        Some(last) => put_broken_behind(alloc, text, told, last, component, fault),
        None => put_broken_of(text, "in the first state", component, fault),
    }
}

/// Puts the log's line of this index, after whose action an invariant is broken.
fn put_broken_behind(
    alloc: Global,
    text: &mut String,
    told: &Told<'_>,
    last: usize,
    component: &str,
    fault: Option<Fault>,
) -> Result<(), OutOfMemory>
    ensures { OnOk result (string_bytes text.new ≡ string_bytes text.old ++ spec.broken_after told.now (suc last) component.now fault) }
{
    put_log_line(alloc, text, told, last)?;
    put_broken_of(text, "after this action", component, fault)
}

/// Puts when it is that an invariant of the component of this name is false, or which fault it has then.
fn put_broken_of(
    text: &mut String,
    when: &str,
    component: &str,
    fault: Option<Fault>,
) -> Result<(), OutOfMemory>
    ensures { OnOk result (string_bytes text.new ≡ string_bytes text.old ++ spec.broken_of when.now component.now fault) }
{
    match fault {
        None => writeln!(text, "{when} an invariant of {component} is broken:")?,
        Some(fault) => {
            let number = fault.number();
            let words = fault_words(fault);
            writeln!(
                text,
                "{when} an invariant of {component} has fault {number}: {words}"
            )?;
        }
    }
    Ok(())
}

/// Puts the invariant of this number as it stands in the source.
fn put_invariant(
    alloc: Global,
    text: &mut String,
    told: &Told<'_>,
    number: usize,
) -> Result<(), OutOfMemory>
    ensures { OnOk result (string_bytes text.new ≡ string_bytes text.old ++ spec.invariant_text told.now number) }
{
    match told.composition.invariants().get(number) {
        Some(invariant) => {
            let line = invariant.automaton.line as usize;
            put_transition(alloc, text, told.file, told.source, line)
        }
        None => Ok(()),
    }
}

/// The actions of a log's entries.
pub fn actions_in(alloc: Global, entries: Vec<LogEntry>) -> Result<Vec<Action>, OutOfMemory>
    ensures { IfOk result (λ actions. map act_of actions.items ≡ map (λ e. act_of e.action) entries.items) }
{
    let mut actions = Vec::new(alloc);
    for entry in entries {
        actions.push(entry.action)?;
    }
    Ok(actions)
}
