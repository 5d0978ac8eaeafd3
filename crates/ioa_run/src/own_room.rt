//! A room whose run is told by its type, since of a value under a lock no more is known.

ghost use Rattle.std.specs.Prelude.{◌≡◌, ◌<◌, All, IfOk, length, map};
ghost use Rattle.ioa_system.specs.Participants.{taken};
ghost use Rattle.ioa_system.specs.Systems.{slot_types, types_of};
ghost use Rattle.ioa_run.specs.Alone.{IsOutcomeFrom};
ghost use Rattle.ioa_board.specs.ProgramRooms.{HasInputsLeft, ChangesReport};
ghost use Rattle.ioa_board.specs.Reports.{left, with_idle};
ghost use Rattle.ioa_board.specs.RoomCommits.{RoomCommit};
ghost use Rattle.ioa_run.specs.Tallies.{AreAgreeing, AreTallied, tally_of};

use crate::tally::{Pick, Tally, follow, report_of};
use ioa_board::{Outcome, Plan, Room, Verdict, Why};
use ioa_node::NodeState;
use ioa_value::OutOfMemory;
use std::marker::{Brand, Model, PhantomData};

/// Of what a run is: its program, the script of inputs, how many turns each worker has, and what was done before it. Each run picks its own.
pub(crate) trait Terms {
    ghost use Rattle.std.specs.Prelude.{ℕ, List};
    ghost use Rattle.ioa_value.specs.Actions.{Act};
    ghost use Rattle.ioa_compile.specs.Programs.{Prog};

    ghost program: { Prog };

    ghost inputs: { List Act };

    ghost turns: { ℕ };

    ghost before: { List (ℕ × Act) };
}

impl Terms for Brand {
    ghost use Rattle.std.specs.Prelude.{[]};

    ghost program = { record { types = []; name = []; members = []; hidden = [] } };

    ghost inputs = { [] };

    ghost turns = { 0 };

    ghost before = { [] };
}

/// The room of a run of just these terms, by its type: whoever gets it from under its lock has the run's own, and asks for nothing. Beside the reports stand the
/// tallies of the components, which agree with them.
#[derive(Drop)]
pub(crate) struct OwnRoom<'p, T: Terms> {
    room: Room<'p>,
    tallies: Vec<Tally>,
    of: PhantomData<T>,
}

impl<'p, T: Terms> Model for OwnRoom<'p, T> {
    ghost use Rattle.ioa_board.specs.ProgramRooms.{ProgramRoom, coded_program_room};

    ghost Value = { ProgramRoom };

    ghost coded = { coded_program_room };

    ghost use Rattle.std.specs.Prelude.{◌≡◌, map};
    ghost use Rattle.ioa_run.specs.Tallies.{AreTallied, tally_of};

    ghost view = { λ o. o.room };

    ghost invariant = { λ o. (o.room.program ≡ T.program) × (o.room.inputs ≡ T.inputs) × (o.room.turns ≡ T.turns) × (o.room.before ≡ T.before) × AreTallied o.room (map tally_of o.tallies.items) };
}

impl<'p, T: Terms> OwnRoom<'p, T> {
    /// This room, which is of these terms, and these tallies, which agree with its reports.
    pub(crate) fn of(room: Room<'p>, tallies: Vec<Tally>) -> OwnRoom<'p, T>
        requires program { room.program ≡ T.program }
        requires inputs { room.inputs ≡ T.inputs }
        requires turns { room.turns ≡ T.turns }
        requires before { room.before ≡ T.before }
        requires tallied { AreTallied room (map tally_of tallies.items) }
        ensures { result ≡ room.entry }
    {
        OwnRoom {
            room,
            tallies,
            of: PhantomData,
        }
    }

    /// Equals of the states of the components of these numbers, in their order.
    pub(crate) fn copy(&self, numbers: &[usize]) -> Result<Vec<NodeState>, OutOfMemory>
        requires { All (λ n. n < length T.program.members) numbers.now }
        ensures { IfOk result (λ states. types_of states.items ≡ taken numbers.now (slot_types T.program.members)) }
    {
        self.room.board().copy(numbers)
    }

    /// How many actions of the script are performed.
    pub(crate) fn place(&self) -> usize {
        self.room.place()
    }

    /// Commits a plan to the board, and counts the turn in the worker's report, and in its tally.
    pub(crate) fn commit(&mut self, who: usize, plan: Plan<'p>, pick: Pick) -> Verdict<'p>
        requires who { who ≡ plan.who }
        requires program { plan.program ≡ T.program }
        ensures { RoomCommit self.old plan.entry result self.new }
    {
        let before = report_of(&self.room, who);
        let verdict = self.room.commit(who, plan);
        follow(&mut self.tallies, &self.room, who, pick, before);
        verdict
    }

    /// Counts a turn in which the worker had nothing to commit, and in its tally; the environment has none before its script is at its end.
    pub(crate) fn idle(&mut self, who: usize, pick: Pick)
        ensures left { HasInputsLeft self.old who → self.new ≡ self.old }
        ensures idle { (HasInputsLeft self.old who → ⊥) → ChangesReport with_idle who self.old self.new }
    {
        let before = report_of(&self.room, who);
        self.room.idle(who);
        follow(&mut self.tallies, &self.room, who, pick, before);
    }

    /// Says why a worker takes no more turns.
    pub(crate) fn leave(&mut self, who: usize, why: Why)
        ensures { ChangesReport (left T.turns why) who self.old self.new }
    {
        self.room.leave(who, why);
    }

    /// The log, the states, the end and the reports, and the tallies beside them.
    pub(crate) fn finish(self) -> (Outcome, Vec<Tally>)
        ensures outcome { IsOutcomeFrom T.program T.before T.inputs T.turns result.0 }
        ensures tallied { AreAgreeing T.program.members result.0.reports.items (map tally_of result.1.items) }
    {
        let OwnRoom {
            room,
            tallies,
            of: _,
        } = self;
        (room.finish(), tallies)
    }
}
