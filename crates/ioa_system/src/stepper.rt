//! Steps without copies, on states that stay with a caller.

ghost use Rattle.std.specs.Prelude.{◌≡◌, IfOk, OnErr};
ghost use Rattle.ioa_value.specs.Actions.{act_of};
ghost use Rattle.ioa_tree.specs.Steps as steps;
ghost use Rattle.ioa_compile.specs.Sites.{sites_of};
ghost use Rattle.ioa_compile.specs.Tables.{tabled};
ghost use Rattle.ioa_system.specs.Outcomes.{IfNext, KeepsUnlessNext, step_of};
ghost use Rattle.ioa_system.specs.Drafted.{AreDrafts, ArePlaces, drafted};
ghost use Rattle.ioa_system.specs.Found.{numbers_of};
ghost use Rattle.ioa_system.specs.Participants.{all_back, put_back};
ghost use Rattle.ioa_system.specs.Systems.{slot_types, types_of, values_of};

use crate::outcomes::Step;
use crate::participation::{Participant, Participation};
use crate::steps::moved;
use ioa_compile::Program;
use ioa_node::{Draft, NodeState, Workspace};
use ioa_sites::Site;
use ioa_value::{Action, OutOfMemory};
use std::alloc::Global;
use std::mem;

/// What takes steps on states that a caller holds, in memory that is used again from step to step. What it holds between two steps says
/// nothing.
pub struct Stepper<'a> {
    alloc: Global,
    /// Room for the participants of one action.
    room: Vec<Participant<'a>>,
    /// Memory in which the participants' code runs.
    workspace: Workspace,
    /// Room for the words of an action's values.
    args: Vec<i64>,
    /// Room for the participants' new words.
    drafts: Vec<Draft>,
}

/// Written out, so that who drops one calls this, and does not take it apart itself.
impl Drop for Stepper<'_> {
    fn drop(self) {
        let Stepper {
            alloc: _,
            room: _,
            workspace: _,
            args: _,
            drafts: _,
        } = self;
    }
}

impl<'a> Stepper<'a> {
    /// A stepper that has no memory yet.
    pub fn new(alloc: Global) -> Stepper<'a> {
        Stepper {
            alloc,
            room: Vec::new(alloc),
            workspace: Workspace::new(alloc),
            args: Vec::new(alloc),
            drafts: Vec::new(alloc),
        }
    }

    /// Who takes part in this action, as `Participation::at` says, in the stepper's memory, until `give_back`.
    pub fn participation<'b>(
        &mut self,
        program: &'a Program,
        sites: &[Site],
        action: &'b Action,
    ) -> Result<Participation<'a, 'b>, OutOfMemory>
        requires { sites.now ≡ sites_of program.now (act_of action.now).name }
        ensures { IfOk result (λ q. q ≡ record { program = program.now; action = act_of action.now }) }
    {
        let room = mem::replace(&mut self.room, Vec::new(self.alloc));
        Participation::within(room, program, sites, action)
    }

    /// Takes back the memory in which a participation stood.
    pub fn give_back(&mut self, participation: Participation<'a, '_>) {
        self.room = participation.into_room();
    }

    /// The memory in which code runs.
    pub fn workspace(&mut self) -> &mut Workspace {
        &mut self.workspace
    }

    /// Performs the participation's action on the states of all components, or says why it cannot be performed. It asks that there is a state
    /// for each component in order, of its variables' types. All answers but `Next` change no state, and neither does a refusal of memory.
    pub fn step(
        &mut self,
        participation: &Participation<'_, '_>,
        states: &mut [NodeState],
    ) -> Result<Step, OutOfMemory>
        requires { types_of states.old ≡ slot_types participation.now.program.members }
        ensures step { IfOk result (λ s. step_of s (values_of states.new) ≡ steps.step (tabled participation.now.program) participation.now.action (values_of states.old)) }
        ensures kept { IfOk result (λ s. KeepsUnlessNext s states.old states.new) }
        ensures types { types_of states.new ≡ types_of states.old }
        ensures memory { OnErr result (states.new ≡ states.old) }
    {
        let participants = participation.participants();
        let step = moved(
            self.alloc,
            &mut self.workspace,
            &mut self.args,
            &mut self.drafts,
            participants,
            participation.action(),
            states,
        )?;
        settle(participants, states, &self.drafts, step);
        Ok(step)
    }
}

/// Puts the participants' new words in place where the step is performed. Otherwise the states stay as they are.
fn settle(participants: &[Participant<'_>], states: &mut [NodeState], drafts: &[Draft], step: Step)
    requires places { ArePlaces participants.now states.old }
    requires drafts { IfNext step (AreDrafts states.old participants.now drafts.now) }
    ensures step { step_of step (values_of states.new) ≡ all_back (numbers_of participants.now) (values_of states.old) (step_of step (values_of (drafted states.old participants.now drafts.now))) }
    ensures kept { KeepsUnlessNext step states.old states.new }
    ensures types { types_of states.new ≡ types_of states.old }
{
    match step {
        Step::Next => install(participants, states, drafts),
        Step::NotAnAction | Step::NotEnabled | Step::Fault(_, _) => {}
    }
}

/// Puts the participants' new words in their components' states.
fn install(participants: &[Participant<'_>], states: &mut [NodeState], drafts: &[Draft])
    requires places { ArePlaces participants.now states.old }
    requires drafts { AreDrafts states.old participants.now drafts.now }
    ensures { states.new ≡ put_back (numbers_of participants.now) (drafted states.old participants.now drafts.now) states.old }
{
    for i in 0..participants.len() {
        let participant = &participants[i];
        states[participant.component].change(&drafts[i]);
    }
}
