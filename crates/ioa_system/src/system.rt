//! A program with the state that it is in.

ghost use Rattle.std.specs.Prelude.{◌≡◌, IfOk, OnErr, map};
ghost use Rattle.ioa_value.specs.Actions.{act_of};
ghost use Rattle.ioa_tree.specs.Runs as runs;
ghost use Rattle.ioa_tree.specs.Steps as steps;
ghost use Rattle.ioa_compile.specs.Shown.{member_code};
ghost use Rattle.ioa_compile.specs.Tables.{start_states, tabled};
ghost use Rattle.ioa_system.specs.Outcomes.{KeepsUnlessNext, step_of};
ghost use Rattle.ioa_system.specs.Logs as logs;
ghost use Rattle.ioa_system.specs.Systems.{slot_types, types_of, values_of};

use crate::outcomes::Step;
use crate::participation::Participation;
use crate::stepper::Stepper;
use ioa_compile::{Member, Program};
use ioa_node::NodeState;
use ioa_value::{Action, OutOfMemory};
use std::alloc::Global;
use std::marker::Model;

/// What a step answers to an action, the action's worker, and whether it is external.
#[derive(Clone, Copy)]
pub(crate) struct Performed {
    pub step: Step,
    pub worker: usize,
    pub external: bool,
}

/// A running program: the program, and one state for each of its components.
pub struct System<'a> {
    program: &'a Program,
    states: Vec<NodeState>,
    stepper: Stepper<'a>,
}

/// Written out, so that who drops one calls this, and does not take it apart itself.
impl Drop for System<'_> {
    fn drop(self) {
        let System {
            program: _,
            states: _,
            stepper: _,
        } = self;
    }
}

impl<'a> Model for System<'a> {
    ghost use Rattle.std.specs.Prelude.{◌≡◌};
    ghost use Rattle.ioa_system.specs.Systems.{Running, coded_running, slot_types, types_of, values_of};

    ghost Value = { Running };

    ghost coded = { coded_running };

    ghost view = { λ s. record { program = s.program.now; states = values_of s.states.items } };

    ghost invariant = { λ s. types_of s.states.items ≡ slot_types s.program.now.members };
}

impl<'a> System<'a> {
    /// The program in its start states.
    pub fn start(alloc: Global, program: &'a Program) -> Result<System<'a>, OutOfMemory>
        ensures { IfOk result (λ s. s ≡ record { program = program.now; states = start_states program.now }) }
    {
        let states = start_of(alloc, program.members())?;
        Ok(System::of(alloc, program, states))
    }

    /// The program in these states, one for each component in order, as it goes on from there. It asks that each is of its
    /// component's types.
    pub fn of(alloc: Global, program: &'a Program, states: Vec<NodeState>) -> System<'a>
        requires { types_of states.items ≡ slot_types program.now.members }
        ensures { result ≡ record { program = program.now; states = values_of states.items } }
    {
        System {
            program,
            states,
            stepper: Stepper::new(alloc),
        }
    }

    /// Performs the action, or says why it cannot be performed. All answers but `Next` change nothing, and so
    /// does a refusal of memory.
    pub fn step(&mut self, action: &Action) -> Result<Step, OutOfMemory>
        ensures step { IfOk result (λ s. step_of s self.new.states ≡ steps.step (tabled self.old.program) (act_of action.now) self.old.states) }
        ensures kept { IfOk result (λ s. KeepsUnlessNext s self.old.states self.new.states) }
        ensures program { self.new.program ≡ self.old.program }
        ensures memory { OnErr result (self.new ≡ self.old) }
    {
        Ok(self.perform(action)?.step)
    }

    /// Performs the action as `step` does, and says whose work it is and whether it is external.
    pub(crate) fn perform(&mut self, action: &Action) -> Result<Performed, OutOfMemory>
        ensures step { IfOk result (λ r. step_of r.step self.new.states ≡ steps.step (tabled self.old.program) (act_of action.now) self.old.states) }
        ensures kept { IfOk result (λ r. KeepsUnlessNext r.step self.old.states self.new.states) }
        ensures worker { IfOk result (λ r. r.worker ≡ logs.worker (tabled self.old.program) (act_of action.now)) }
        ensures external { IfOk result (λ r. r.external ≡ runs.is_external self.old.program.hidden (tabled self.old.program) (act_of action.now)) }
        ensures program { self.new.program ≡ self.old.program }
        ensures memory { OnErr result (self.new ≡ self.old) }
    {
        let sites = self.program.sites(action.name.as_str());
        let participation = self.stepper.participation(self.program, sites, action)?;
        let step = self.step_by(&participation)?;
        let worker = participation.worker();
        let external = participation.is_external();
        self.stepper.give_back(participation);
        Ok(Performed {
            step,
            worker,
            external,
        })
    }

    /// Performs the participation's action as `step` does. It asks that the participation is of the program that runs.
    pub fn step_by(&mut self, participation: &Participation<'_, '_>) -> Result<Step, OutOfMemory>
        requires { participation.now.program ≡ self.old.program }
        ensures step { IfOk result (λ s. step_of s self.new.states ≡ steps.step (tabled self.old.program) participation.now.action self.old.states) }
        ensures kept { IfOk result (λ s. KeepsUnlessNext s self.old.states self.new.states) }
        ensures program { self.new.program ≡ self.old.program }
        ensures memory { OnErr result (self.new ≡ self.old) }
    {
        self.stepper.step(participation, &mut self.states)
    }

    /// The program that runs.
    pub fn program(&self) -> &'a Program
        ensures { result.now ≡ self.now.program }
    {
        self.program
    }

    /// The components' states in order.
    pub fn states(&self) -> &[NodeState]
        ensures values { values_of result.now ≡ self.now.states }
        ensures types { types_of result.now ≡ slot_types self.now.program.members }
    {
        self.states.as_slice()
    }

    /// The components' states in order, without the system.
    pub fn into_states(self) -> Vec<NodeState>
        ensures values { values_of result.items ≡ self.entry.states }
        ensures types { types_of result.items ≡ slot_types self.entry.program.members }
    {
        let System {
            program: _,
            states,
            stepper: _,
        } = self;
        states
    }
}

/// Equals of the states in which the components start.
fn start_of(alloc: Global, members: &[Member]) -> Result<Vec<NodeState>, OutOfMemory>
    ensures { IfOk result (λ states. states.items ≡ map (λ m. m.start) (map member_code members.now)) }
{
    let mut states = Vec::new(alloc);
    for member in members {
        states.push(member.start.try_copy(alloc)?)?;
    }
    Ok(states)
}
