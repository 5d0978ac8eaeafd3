//! The lock of a run on threads: all that workers do under it.

ghost use Rattle.std.specs.Prelude.{◌≡◌, ◌<◌, All, IfOk, length, map};
ghost use Rattle.ioa_system.specs.Participants.{taken};
ghost use Rattle.ioa_system.specs.Systems.{slot_types, types_of};
ghost use Rattle.ioa_run.specs.Alone.{IsOutcomeFrom};
ghost use Rattle.ioa_run.specs.Tallies.{AreAgreeing, AreTallied, tally_of};

use crate::locals::Locals;
use crate::own_room::{OwnRoom, Terms};
use crate::tally::{Pick, Tally};
use ioa_board::{Outcome, Plan, Room, Verdict, Why};
use ioa_compile::Program;
use ioa_node::NodeState;
use ioa_value::{Action, OutOfMemory};
use std::sync::atomic::{AtomicBool, Ordering};
use std::sync::{Mutex, Wait};

/// What the threads of a run share: what the run is of, the local entries of its components, the room under its lock, and whether the run is cancelled.
///
/// Each function that takes the lock gives it back before it answers.
#[derive(Drop)]
pub(crate) struct Crew<'p, T: Terms> {
    pub program: &'p Program,
    pub inputs: &'p [Action],
    pub turns: u64,
    pub locals: Locals<'p>,
    room: Mutex<OwnRoom<'p, T>>,
    cancelled: AtomicBool,
    ghost own: { program.now ≡ T.program },
    ghost its: { locals ≡ T.program },
}

impl<'p, T: Terms> Crew<'p, T> {
    /// The crew of a run in this room.
    pub(crate) fn of(
        program: &'p Program,
        inputs: &'p [Action],
        turns: u64,
        locals: Locals<'p>,
        room: Room<'p>,
        tallies: Vec<Tally>,
    ) -> Crew<'p, T>
        requires own { program.now ≡ T.program }
        requires its { locals ≡ T.program }
        requires program { room.program ≡ T.program }
        requires inputs { room.inputs ≡ T.inputs }
        requires turns { room.turns ≡ T.turns }
        requires before { room.before ≡ T.before }
        requires tallied { AreTallied room (map tally_of tallies.items) }
    {
        let room = OwnRoom::of(room, tallies);
        Crew {
            program,
            inputs,
            turns,
            locals,
            room: Mutex::new(room),
            cancelled: AtomicBool::new(false),
        }
    }

    /// Equals of the states of the components of these numbers, in their order, all as they are at one moment.
    pub(crate) fn copy<R: Wait>(
        &self,
        rt: &R,
        numbers: &[usize],
    ) -> Result<Vec<NodeState>, OutOfMemory>
        requires { All (λ n. n < length T.program.members) numbers.now }
        ensures { IfOk result (λ states. types_of states.items ≡ taken numbers.now (slot_types T.program.members)) }
    {
        self.room.lock(rt).copy(numbers)
    }

    /// How many actions of the script are performed.
    pub(crate) fn place<R: Wait>(&self, rt: &R) -> usize {
        self.room.lock(rt).place()
    }

    /// Commits the worker's plan, which is that of the entry that it picked.
    pub(crate) fn commit<R: Wait>(
        &self,
        rt: &R,
        who: usize,
        plan: Plan<'p>,
        pick: Pick,
    ) -> Verdict<'p>
        requires who { who ≡ plan.who }
        requires program { plan.program ≡ T.program }
    {
        self.room.lock(rt).commit(who, plan, pick)
    }

    /// Counts a turn in which the worker had nothing to commit.
    pub(crate) fn idle<R: Wait>(&self, rt: &R, who: usize, pick: Pick) {
        self.room.lock(rt).idle(who, pick);
    }

    /// Says why the worker takes no more turns.
    pub(crate) fn leave<R: Wait>(&self, rt: &R, who: usize, why: Why) {
        self.room.lock(rt).leave(who, why);
    }

    /// Tells all workers to take no more turns.
    pub(crate) fn cancel(&self) {
        self.cancelled.store(true, Ordering::SeqCst);
    }

    /// Whether no more turns are to be taken.
    pub(crate) fn is_cancelled(&self) -> bool {
        self.cancelled.load(Ordering::SeqCst)
    }

    /// What the run gives, once no thread is left, and what became of the components' turns.
    pub(crate) fn finish(self) -> (Outcome, Vec<Tally>)
        ensures outcome { IsOutcomeFrom T.program T.before T.inputs T.turns result.0 }
        ensures tallied { AreAgreeing T.program.members result.0.reports.items (map tally_of result.1.items) }
    {
        self.room.into_inner().finish()
    }
}
