//! Why a run ends.

ghost use Rattle.std.specs.Prelude.{◌≡◌, ◌++◌, IfOk, List, Some, codes, map};
ghost use Rattle.std.specs.String.{string_bytes};
ghost use Rattle.ioa_value.specs.Actions.{act_of};
ghost use Rattle.ioa_tree.specs.Hosts.{HostState, Hosted, host_starts, hosts_of};
ghost use Rattle.ioa_tree.specs.Likes.{AllRelated};
ghost use Rattle.ioa_tree.specs.Meaning.{Env};
ghost use Rattle.ioa_tree.specs.Runs.{run};
ghost use Rattle.ioa_compose.specs.Held.{composed_of};
ghost use Rattle.ioa_compose.specs.Simulates.{SlotsHoldAt, Simulates};
ghost use Rattle.ioa_compile.specs.Implements.{Implements};
ghost use Rattle.ioa_compile.specs.Subjects.{RunsAs, Subject, its_components};
ghost use Rattle.ioa_compile.specs.Tables.{tabled};
ghost use Rattle.ioa_system.specs.Outcomes.{ending_of};
ghost use Rattle.ioa_system.specs.Records.{IsRunAs};
ghost use Rattle.ioa_system.specs.Systems.{slot_types, types_of, values_of};
ghost use Rattle.ioa_account.specs.Accounts as spec;
ghost use Rattle.ioa_account.specs.Ends.{component_in, index_in, owner_at};
ghost use Rattle.ioa_account.specs.Accounts.{IsAccount, AccountsFor, TellsLine};

use crate::states::{is_down, put_component};
use ioa_compile::Program;
use ioa_compose::Composition;
use ioa_node::NodeState;
use ioa_system::{End, Participation, Run, owner, run_list};
use ioa_tree::Transition;
use ioa_value::{Action, Fault, OutOfMemory, Types, print_action};
use std::alloc::Global;

/// Why a run ends before all its actions are performed.
pub struct Account {
    /// How the run ends.
    pub end: End,
    /// The index of the action that is not performed, from 0.
    pub index: usize,
    /// What is told of it, in a few words.
    pub why: String,
    /// The number of the component that stops the run: the owner of an action that is not enabled, or the one that faults. None
    /// where no component has the action.
    pub component: Option<usize>,
    /// The line of the source in which that component's transition of the action begins: the one of the action's name. 0 where there
    /// is none.
    pub line: u32,
    /// The variables of that component, a line each, in the state before the action.
    pub states: String,
}

/// Written out, so that who drops one calls this, and does not take it apart itself.
impl Drop for Account {
    fn drop(self) {
        let Account {
            end: _,
            index: _,
            why: _,
            component: _,
            line: _,
            states: _,
        } = self;
    }
}

/// Why the program's run over the actions ends before all are performed; none where it does not.
pub fn account_of(
    alloc: Global,
    composition: &Composition,
    program: &Program,
    actions: &[Action],
) -> Result<Option<Account>, OutOfMemory>
    requires { Implements program.now (composed_of composition.now) }
    ensures told { IfOk result (λ told. (h : Hosted) → Simulates h (composed_of composition.now) → IsAccount h (map act_of actions.now) told) }
    ensures line { IfOk result (λ told. TellsLine composition.now.members (map act_of actions.now) told) }
{
    let run = run_list(alloc, program, actions)?;
    let Some(index) = index_of(run.end) else {
        return Ok(None);
    };
    let told = tell(alloc, composition, program, actions, &run, index)?;
    Ok(Some(told))
}

/// The index of the action that is not performed.
fn index_of(end: End) -> Option<usize>
    ensures { result ≡ index_in (ending_of end) }
{
    match end {
        End::Done(_) => None,
        End::NotAnAction(index) | End::NotEnabled(index) | End::Fault(_, _, index) => Some(index),
    }
}

/// Why the run ends, in which the action of this index is not performed.
fn tell(
    alloc: Global,
    composition: &Composition,
    program: &Program,
    actions: &[Action],
    reached: &Run,
    index: usize,
) -> Result<Account, OutOfMemory>
    requires means { Implements program.now (composed_of composition.now) }
    requires run { (s : Subject) → RunsAs program.now s → IsRunAs program.now s (map act_of actions.now) reached.now }
    requires index { index_in (ending_of reached.now.end) ≡ Some index }
    ensures told { IfOk result (λ told. (h : Hosted) → Simulates h (composed_of composition.now)
        → AccountsFor h (map act_of actions.now) (run (hosts_of h) (map act_of actions.now) (host_starts h)) told) }
    ensures line { IfOk result (λ told. told.line ≡ spec.line_of composition.now.members (map act_of actions.now) told.index told.component) }
{
    let component = component_of(program, actions, reached.end);
    let name = name_of(composition, component);
    let is_down = is_down_in(alloc, composition, component, &reached.states)?;
    let is_early = faults_early(alloc, program, actions, index, &reached.states)?;
    let why = why(
        alloc,
        composition.types(),
        actions,
        name,
        is_down,
        is_early,
        reached.end,
    )?;
    let states = lines_of(alloc, composition, component, &reached.states)?;
    Ok(Account {
        end: reached.end,
        index,
        why,
        component,
        line: line_of(composition, actions, index, component),
        states,
    })
}

/// The number of the component that stops the run.
fn component_of(program: &Program, actions: &[Action], end: End) -> Option<usize>
    ensures { (s : Subject) → RunsAs program.now s → result ≡ component_in (its_components s) (map act_of actions.now) (ending_of end) }
{
    match end {
        End::Done(_) | End::NotAnAction(_) => None,
        End::NotEnabled(index) => owner_at(program, actions, index),
        End::Fault(component, _, _) => Some(component),
    }
}

/// The number of the component that has the action of this index as output or internal.
fn owner_at(program: &Program, actions: &[Action], index: usize) -> Option<usize>
    ensures { (s : Subject) → RunsAs program.now s → result ≡ owner_at (its_components s) (map act_of actions.now) index }
{
    match actions.get(index) {
        Some(action) => owner(program, action),
        None => None,
    }
}

/// The component's name.
fn name_of<'a>(composition: &'a Composition, component: Option<usize>) -> &'a str
    ensures { (h : Hosted) → Simulates h (composed_of composition.now) → result.now ≡ spec.name_of h.hosts component }
{
    match component {
        Some(number) => name_at(composition, number),
        None => "",
    }
}

/// The name of the component of this number.
pub(crate) fn name_at<'a>(composition: &'a Composition, number: usize) -> &'a str
    ensures { (h : Hosted) → Simulates h (composed_of composition.now) → result.now ≡ spec.name_at h.hosts number }
{
    match composition.members().get(number) {
        Some(member) => member.name.as_str(),
        None => "",
    }
}

/// Whether it is down in these states.
fn is_down_in(
    alloc: Global,
    composition: &Composition,
    component: Option<usize>,
    states: &[NodeState],
) -> Result<bool, OutOfMemory>
    ensures { IfOk result (λ down. (h : Hosted) (hs : List (HostState Env)) → Simulates h (composed_of composition.now) → AllRelated (SlotsHoldAt h.hosts) 0 hs (values_of states.now)
        → down ≡ spec.is_down_in h.hosts hs component) }
{
    match component {
        Some(number) => is_down(alloc, composition, number, states),
        None => Ok(false),
    }
}

/// Whether the precondition of the owner of the action of this index faults in these states.
fn faults_early(
    alloc: Global,
    program: &Program,
    actions: &[Action],
    index: usize,
    states: &[NodeState],
) -> Result<bool, OutOfMemory>
    requires { types_of states.now ≡ slot_types program.now.members }
    ensures { IfOk result (λ b. b ≡ spec.faults_early (tabled program.now) (map act_of actions.now) index (values_of states.now)) }
{
    match actions.get(index) {
        Some(action) => {
            let participation = Participation::of(alloc, program, action)?;
            participation.precondition_faults(alloc, states)
        }
        None => Ok(false),
    }
}

/// Why, by the name of that component, and by whether it is down, and its precondition faults.
fn why(
    alloc: Global,
    types: &Types,
    actions: &[Action],
    component: &str,
    is_down: bool,
    is_early: bool,
    end: End,
) -> Result<String, OutOfMemory>
    ensures { IfOk result (λ text. string_bytes text ≡ spec.why types.now (map act_of actions.now) component.now is_down is_early (ending_of end)) }
{
    match end {
        End::Done(_) => Ok(String::new(alloc)),
        End::NotAnAction(index) => {
            let action = action_text(alloc, types, actions, index)?;
            Ok(format!(in alloc; "no component has {action}")?)
        }
        End::NotEnabled(index) => {
            let action = action_text(alloc, types, actions, index)?;
            blocked(alloc, is_down, action.as_str(), component)
        }
        End::Fault(_, fault, index) => {
            let action = action_text(alloc, types, actions, index)?;
            let number = fault.number();
            let part = part_words(is_early);
            let words = fault_words(fault);
            Ok(format!(in alloc;
                "fault {number} in the {part} of {action} in {component}: {words}"
            )?)
        }
    }
}

/// Why an action is not enabled, by the name of its owner.
fn blocked(
    alloc: Global,
    is_down: bool,
    action: &str,
    component: &str,
) -> Result<String, OutOfMemory>
    ensures { IfOk result (λ text. string_bytes text ≡ spec.blocked is_down action.now component.now) }
{
    if is_down {
        Ok(format!(in alloc; "{component} is down, so that {action} is not enabled")?)
    } else {
        Ok(format!(in alloc; "the precondition of {action} in {component} is false")?)
    }
}

/// What of a transition faults.
fn part_words(is_early: bool) -> &'static str
    ensures { result.now ≡ spec.part_words is_early }
{
    if is_early { "precondition" } else { "effect" }
}

/// What a fault is.
pub(crate) fn fault_words(fault: Fault) -> &'static str
    ensures { result.now ≡ spec.fault_words fault }
{
    match fault {
        Fault::Overflow => "the result does not fit 64 bits",
        Fault::ZeroDivisor => "the divisor is 0",
        Fault::Empty => "the sequence is empty",
        Fault::OutOfRange => "the index is not from 0 to less than the sequence's length",
        Fault::Full => "the sequence is full",
    }
}

/// The text of the action of this index.
pub(crate) fn action_text(
    alloc: Global,
    types: &Types,
    actions: &[Action],
    index: usize,
) -> Result<String, OutOfMemory>
    ensures { IfOk result (λ text. string_bytes text ≡ spec.action_text types.now (map act_of actions.now) index) }
{
    match actions.get(index) {
        Some(action) => print_action(alloc, types, action),
        None => Ok(String::new(alloc)),
    }
}

/// The lines of the component in these states.
fn lines_of(
    alloc: Global,
    composition: &Composition,
    component: Option<usize>,
    states: &[NodeState],
) -> Result<String, OutOfMemory>
    ensures { IfOk result (λ text. (h : Hosted) (hs : List (HostState Env)) → Simulates h (composed_of composition.now) → AllRelated (SlotsHoldAt h.hosts) 0 hs (values_of states.now)
        → string_bytes text ≡ spec.lines_of h.types h.hosts hs component) }
{
    let mut text = String::new(alloc);
    if let Some(number) = component {
        put_component(alloc, &mut text, composition, number, states)?;
    }
    Ok(text)
}

/// The line in which the component's transition of the action of this index begins; 0 where there is none.
fn line_of(
    composition: &Composition,
    actions: &[Action],
    index: usize,
    component: Option<usize>,
) -> u32
    ensures { result ≡ spec.line_of composition.now.members (map act_of actions.now) index component }
{
    let Some(number) = component else {
        return 0;
    };
    match actions.get(index) {
        Some(action) => line_at(composition, action.name.as_str(), number),
        None => 0,
    }
}

/// The line in which the transition of this name begins in the component of this number.
fn line_at(composition: &Composition, name: &str, number: usize) -> u32
    ensures { result ≡ spec.line_at composition.now.members name.now number }
{
    match composition.members().get(number) {
        Some(member) => transition_line(&member.automaton.transitions, name),
        None => 0,
    }
}

/// The line of the first transition of this name. An automaton has one for each entry, and its entries' names differ.
fn transition_line(transitions: &[Transition], name: &str) -> u32
    ensures { result ≡ spec.transition_line transitions.now name.now }
{
    for transition in transitions {
        if transition.name.is(name) {
            return transition.name.line;
        }
    }
    0
}
