//! What is told of a monitor that is an object: it has no source, and its variables have no names.

ghost use Rattle.std.specs.Prelude.{◌≡◌, ◌+◌, ◌++◌, ℕ, Option, OnOk, Some, codes, map};
ghost use Rattle.std.specs.String.{string_bytes};
ghost use Rattle.ioa_value.specs.Actions.{act_of};
ghost use Rattle.ioa_tree.specs.Runs.{Ending};
ghost use Rattle.ioa_compile.specs.Tables.{tabled};
ghost use Rattle.ioa_monitor.specs.Monitoring.{IsRefusedAt};
ghost use Rattle.ioa_account.specs.Ends as ends;
ghost use Rattle.ioa_account.specs.Objects as spec;
ghost use Rattle.ioa_account.specs.Objects.{TellsObject};

use crate::counts::known_actions;
use crate::ends::{action_text, fault_words};
use crate::quoted::put_line;
use crate::remarks::{number_of, put_known};
use ioa_compile::Program;
use ioa_monitor::{MonitorErr, monitor};
use ioa_system::{Step, owner};
use ioa_value::{Action, Fault, OutOfMemory};
use std::alloc::Global;
use std::fmt::Write;

/// Puts behind the text how many of a log's actions the program has, and, where it does not perform one of these, the log's line with it, and why, by the name of the component.
pub fn put_object_monitored(
    alloc: Global,
    text: &mut String,
    program: &Program,
    input: &[u8],
    actions: &[Action],
) -> Result<(), OutOfMemory>
    ensures { OnOk result (TellsObject program.now input.now (map act_of actions.now) (string_bytes text.old) (string_bytes text.new)) }
{
    let count = known_actions(alloc, program, actions)?;
    put_known(text, count, actions.len())?;
    match monitor(alloc, program, actions) {
        Ok(()) => Ok(()),
        Err(MonitorErr::SpecHasInternal) => Ok(()),
        Err(MonitorErr::OutOfMemory) => Err(OutOfMemory),
        Err(MonitorErr::At { index, answer }) => {
            put_refusal(alloc, text, program, input, actions, index, answer)
        }
    }
}

/// Puts the log's line with the action of this index, which is not accepted, and why.
fn put_refusal(
    alloc: Global,
    text: &mut String,
    program: &Program,
    input: &[u8],
    actions: &[Action],
    index: usize,
    answer: Step,
) -> Result<(), OutOfMemory>
    ensures { (o : Option Ending) → IsRefusedAt index answer o → OnOk result (string_bytes text.new ≡ string_bytes text.old ++ spec.refusal_text program.now input.now (map act_of actions.now) o) }
{
    put_line(alloc, text, "log", input, number_of(index)?)?;
    put_reason(alloc, text, program, actions, index, answer)
}

/// Puts why it is not accepted.
fn put_reason(
    alloc: Global,
    text: &mut String,
    program: &Program,
    actions: &[Action],
    index: usize,
    answer: Step,
) -> Result<(), OutOfMemory>
    ensures { OnOk result (string_bytes text.new ≡ string_bytes text.old ++ spec.reason program.now (map act_of actions.now) (spec.ending_at index answer)) }
{
    match answer {
        Step::Next => Ok(()),
        Step::NotAnAction => Ok(()),
        Step::NotEnabled => put_blocked(alloc, text, program, actions, index),
        Step::Fault(component, fault) => {
            put_fault(alloc, text, program, actions, index, component, fault)
        }
    }
}

/// Puts that the action is not enabled in its owner.
fn put_blocked(
    alloc: Global,
    text: &mut String,
    program: &Program,
    actions: &[Action],
    index: usize,
) -> Result<(), OutOfMemory>
    ensures { OnOk result (string_bytes text.new ≡ string_bytes text.old ++ spec.reason program.now (map act_of actions.now) (spec.ending_at index Step.NotEnabled)) }
{
    let action = action_text(alloc, program.types(), actions, index)?;
    let name = owner_name(program, actions, index);
    put_not_enabled(text, action.as_str(), name)
}

/// Puts that an action of this text is not enabled in the component of this name.
fn put_not_enabled(text: &mut String, action: &str, component: &str) -> Result<(), OutOfMemory>
    ensures { OnOk result (string_bytes text.new ≡ string_bytes text.old ++ spec.not_enabled_text action.now component.now) }
{
    writeln!(text, "{action} is not enabled in {component}")?;
    Ok(())
}

/// Puts which fault the action has in the component.
fn put_fault(
    alloc: Global,
    text: &mut String,
    program: &Program,
    actions: &[Action],
    index: usize,
    component: usize,
    fault: Fault,
) -> Result<(), OutOfMemory>
    ensures { OnOk result (string_bytes text.new ≡ string_bytes text.old ++ spec.reason program.now (map act_of actions.now) (spec.ending_at index (Step.Fault component fault))) }
{
    let action = action_text(alloc, program.types(), actions, index)?;
    let name = member_name(program, Some(component));
    let number = fault.number();
    let words = fault_words(fault);
    writeln!(text, "fault {number} of {action} in {name}: {words}")?;
    Ok(())
}

/// The name of the component that owns the action of this index.
fn owner_name<'a>(program: &'a Program, actions: &[Action], index: usize) -> &'a str
    ensures { result.now ≡ spec.member_name program.now (ends.owner_at (tabled program.now) (map act_of actions.now) index) }
{
    member_name(program, owner_at(program, actions, index))
}

/// The number of the component that owns the action of this index.
fn owner_at(program: &Program, actions: &[Action], index: usize) -> Option<usize>
    ensures { result ≡ ends.owner_at (tabled program.now) (map act_of actions.now) index }
{
    match actions.get(index) {
        Some(action) => owner(program, action),
        None => None,
    }
}

/// The name of the component of this number.
fn member_name<'a>(program: &'a Program, component: Option<usize>) -> &'a str
    ensures { result.now ≡ spec.member_name program.now component }
{
    match component {
        Some(number) => name_at(program, number),
        None => "",
    }
}

fn name_at<'a>(program: &'a Program, number: usize) -> &'a str
    ensures { result.now ≡ spec.member_name program.now (Some number) }
{
    match program.members().get(number) {
        Some(member) => member.name.as_str(),
        None => "",
    }
}
