//! Plans are made by copies, without the board, and hold as long as its states equal these.

ghost use Rattle.std.specs.Prelude.{◌≡◌, ◌↔◌, ◌<◌, All, IfNone, IfOk, IfSome, IsTrue, List, length};
ghost use Rattle.ioa_value.specs.Actions.{act_of};
ghost use Rattle.ioa_value.specs.Plain.{Val};
ghost use Rattle.ioa_tree.specs.Steps.{fault, next, participants};
ghost use Rattle.ioa_compile.specs.Tables.{tabled};
ghost use Rattle.ioa_system.specs.Logs.{log_entry, worker};
ghost use Rattle.ioa_system.specs.Participants.{put_back, taken};
ghost use Rattle.ioa_system.specs.Systems.{slot_types, types_of, values_of};
ghost use Rattle.ioa_board.specs.ProgramPlans.{foreseen, numbers_in};
ghost use Rattle.ioa_board.specs.Planning.{Assesses, Makes};

use crate::assessed::Assessed;
use crate::planned::Planned;
use ioa_compile::Program;
use ioa_node::NodeState;
use ioa_system::{LogEntry, Moved, Participation};
use ioa_value::{Action, Fault, OutOfMemory};
use std::alloc::Global;
use std::marker::Model;

/// What a worker means to do: an action, and what it does to its participants' states as they were copied.
#[derive(Drop)]
pub struct Plan<'p> {
    program: &'p Program,
    who: usize,
    action: Action,
    participants: Vec<usize>,
    copied: Vec<NodeState>,
    result: Moved,
}

impl<'p> Model for Plan<'p> {
    ghost use Rattle.ioa_board.specs.ProgramPlans.{ProgramPlan, coded_program_plan};

    ghost Value = { ProgramPlan };

    ghost coded = { coded_program_plan };

    ghost use Rattle.ioa_value.specs.Actions.{act_of};
    ghost use Rattle.ioa_system.specs.Systems.{values_of};
    ghost use Rattle.ioa_board.specs.ProgramPlans.{IsPlan};

    ghost view = { λ p. record { program = p.program.now; who = p.who; intent = record { action = act_of p.action; copied = values_of p.copied.items } } };

    ghost invariant = { λ p. IsPlan (record { program = p.program.now; who = p.who; intent = record { action = act_of p.action; copied = values_of p.copied.items } }) p.participants.items p.copied.items p.result };
}

impl<'p> Plan<'p> {
    /// The worker's plan for the action by these states, one for each participant in order and of its variables' types. Whatever is not the
    /// action's worker is answered `NotYours`, also a number past the workers'.
    pub fn make(
        alloc: Global,
        program: &'p Program,
        who: usize,
        action: Action,
        copied: Vec<NodeState>,
    ) -> Result<Planned<'p>, OutOfMemory>
        requires { types_of copied.items ≡ taken (participants (tabled program.now) (act_of action)) (slot_types program.now.members) }
        ensures { IfOk result (Makes program.now who (act_of action) (values_of copied.items)) }
    {
        let assessed = assess_alone(alloc, program, who, &action, &copied)?;
        Ok(plan_by(program, who, action, copied, assessed))
    }

    /// Whether the participants are in the states that were copied.
    pub(crate) fn is_fresh(&self, states: &[NodeState]) -> bool
        requires { types_of states.now ≡ slot_types self.now.program.members }
        ensures { IsTrue result ↔ (taken (numbers_in self.now) (values_of states.now) ≡ self.now.intent.copied) }
    {
        same_states(states, &self.participants, &self.copied)
    }

    /// The fault that the action has from the states that were copied.
    pub(crate) fn fault(&self) -> Option<(usize, Fault)>
        ensures none { IfNone result ((ts : List (List Val)) × (foreseen self.now ≡ next ts)) }
        ensures some { IfSome result (λ r. foreseen self.now ≡ fault r.0 r.1) }
    {
        match &self.result {
            Moved::Fault(component, fault) => Some((*component, *fault)),
            Moved::Next(_) | Moved::NotAnAction | Moved::NotEnabled => None,
        }
    }

    /// The action.
    pub(crate) fn action(&self) -> &Action
        ensures { act_of result.now ≡ self.now.intent.action }
    {
        &self.action
    }

    /// The action with its worker.
    pub(crate) fn into_entry(self) -> LogEntry
        ensures { log_entry result ≡ (self.entry.who, self.entry.intent.action) }
    {
        LogEntry {
            who: self.who,
            action: self.action,
        }
    }

    /// The action with its worker, the participants' numbers, and their new states.
    pub(crate) fn into_parts(self) -> (LogEntry, Vec<usize>, Vec<NodeState>)
        requires { (ts : List (List Val)) × (foreseen self ≡ next ts) }
        ensures entry { log_entry result.0 ≡ (self.entry.who, self.entry.intent.action) }
        ensures participants { result.1.items ≡ numbers_in self.entry }
        ensures states { foreseen self.entry ≡ next (values_of result.2.items) }
        ensures types { types_of result.2.items ≡ taken (numbers_in self.entry) (slot_types self.entry.program.members) }
    {
        let Plan {
            program: _,
            who,
            action,
            participants,
            copied: _,
            result,
        } = self;
        match result {
            Moved::Next(states) => (LogEntry { who, action }, participants, states),
            _ => unreachable!(),
        }
    }
}

/// Whether the worker can plan the action by these states, with the participants' numbers and what the action does to the states.
fn assess_alone(
    alloc: Global,
    program: &Program,
    who: usize,
    action: &Action,
    copied: &[NodeState],
) -> Result<Assessed, OutOfMemory>
    requires { types_of copied.now ≡ taken (participants (tabled program.now) (act_of action.now)) (slot_types program.now.members) }
    ensures { IfOk result (Assesses program.now who (act_of action.now) copied.now) }
{
    let participation = Participation::of(alloc, program, action)?;
    let numbers = participation.numbers(alloc)?;
    assess(alloc, &participation, who, numbers, copied)
}

/// Whether the worker can plan an action that was looked up, whose participants have these numbers, by these states, one for each of them in order, with what it does to
/// the states.
pub fn assess(
    alloc: Global,
    participation: &Participation<'_, '_>,
    who: usize,
    numbers: Vec<usize>,
    copied: &[NodeState],
) -> Result<Assessed, OutOfMemory>
    requires numbers { numbers.items ≡ participants (tabled participation.now.program) participation.now.action }
    requires types { types_of copied.now ≡ taken numbers.items (slot_types participation.now.program.members) }
    ensures { IfOk result (Assesses participation.now.program who participation.now.action copied.now) }
{
    if participation.participants().is_empty() {
        return Ok(Assessed::NotAnAction);
    }
    if participation.worker() != who {
        return Ok(Assessed::NotYours);
    }
    match participation.step_from(alloc, copied)? {
        Moved::NotAnAction => Ok(Assessed::NotAnAction),
        Moved::NotEnabled => Ok(Assessed::NotEnabled),
        result => Ok(Assessed::Usable(numbers, result)),
    }
}

/// The worker's plan for the action by the states by which this was found out, where it can plan it.
pub fn plan_by<'p>(
    program: &'p Program,
    who: usize,
    action: Action,
    copied: Vec<NodeState>,
    assessed: Assessed,
) -> Planned<'p>
    requires { Assesses program.now who (act_of action) copied.items assessed }
    ensures { Makes program.now who (act_of action) (values_of copied.items) result }
{
    match assessed {
        Assessed::NotAnAction => Planned::NotAnAction,
        Assessed::NotEnabled => Planned::NotEnabled,
        Assessed::NotYours => Planned::NotYours,
        Assessed::Usable(participants, result) => Planned::Ready(Plan {
            program,
            who,
            action,
            participants,
            copied,
            result,
        }),
    }
}

/// Whether the states of these numbers are those that were copied.
fn same_states(states: &[NodeState], numbers: &[usize], copied: &[NodeState]) -> bool
    requires within { All (λ n. n < length states.now) numbers.now }
    requires count { length copied.now ≡ length numbers.now }
    requires types { types_of copied.now ≡ taken numbers.now (types_of states.now) }
    ensures { IsTrue result ↔ (taken numbers.now (values_of states.now) ≡ values_of copied.now) }
{
    for k in 0..numbers.len() {
        if !states[numbers[k]].same(&copied[k]) {
            return false;
        }
    }
    true
}

/// Puts new states in the places of these numbers.
pub(crate) fn put_states(states: &mut Vec<NodeState>, numbers: &[usize], new: Vec<NodeState>)
    requires within { All (λ n. n < length states.old.items) numbers.now }
    requires count { length new.items ≡ length numbers.now }
    ensures { states.new.items ≡ put_back numbers.now new.items states.old.items }
{
    let mut k = 0;
    for state in new {
        states[numbers[k]] = state;
        k += 1;
    }
}
