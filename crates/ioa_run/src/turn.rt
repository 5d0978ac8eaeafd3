//! Turns on one thread, from what a worker means to do to whether it goes on.

ghost use Rattle.std.specs.Prelude.{◌≡◌, ◌↔◌, All, IfOk, IfSome, IsTrue, Some, map, slice_get};
ghost use Rattle.std.specs.Option.{option_map};
ghost use Rattle.ioa_value.specs.Actions.{act_of};
ghost use Rattle.ioa_compile.specs.Tables.{tabled};
ghost use Rattle.ioa_board.specs.ProgramRooms.{IsInput, environment, place};
ghost use Rattle.ioa_run.specs.declared.turn.TurnEnd.TheVariants as turn_ends;
ghost use Rattle.ioa_board.specs.Attempted.{IsInScript};
ghost use Rattle.ioa_board.specs.Wishes.{IsWishOf, act_meant};
ghost use Rattle.ioa_run.specs.Turning.{Acts, end_of, ends};

use ioa_board::{Answer, Room, Wish};
use ioa_compile::Program;
use ioa_system::Stepper;
use ioa_value::{Action, OutOfMemory};
use std::alloc::Global;

/// What a turn leaves of its worker.
#[derive(Clone, Copy)]
pub(crate) enum TurnEnd {
    /// It takes more turns, if it has some.
    GoesOn,
    /// It takes no more turns.
    IsLast,
    /// Memory was refused: nothing was done.
    NoMemory,
}

impl TurnEnd {
    /// Whether the worker takes no more turns.
    pub(crate) fn is_last(self) -> bool
        ensures { result ≡ ends self }
    {
        match self {
            TurnEnd::GoesOn => false,
            TurnEnd::IsLast | TurnEnd::NoMemory => true,
        }
    }

    /// Whether memory was refused.
    pub(crate) fn is_refused(self) -> bool
        ensures { IsTrue result ↔ (self ≡ turn_ends.NoMemory) }
    {
        match self {
            TurnEnd::NoMemory => true,
            TurnEnd::GoesOn | TurnEnd::IsLast => false,
        }
    }
}

/// The turn of a worker that means to perform this action, or has nothing to commit.
pub(crate) fn act<'p>(
    stepper: &mut Stepper<'p>,
    room: &mut Room<'p>,
    who: usize,
    meant: Option<Wish<'_>>,
) -> TurnEnd
    requires known { IfSome meant (IsWishOf room.old.program) }
    requires script { who ≡ environment room.old → option_map act_meant meant ≡ slice_get room.old.inputs (place room.old) }
    requires inputs { All (IsInput (tabled room.old.program)) room.old.inputs }
    ensures { Acts room.old who (option_map act_meant meant.entry) result room.new }
{
    match meant {
        Some(wish) => attempt(stepper, room, who, wish),
        None => {
            room.idle(who);
            TurnEnd::GoesOn
        }
    }
}

/// The same for this action. No plan is made: on one thread nobody commits before it would be.
fn attempt<'p>(
    stepper: &mut Stepper<'p>,
    room: &mut Room<'p>,
    who: usize,
    wish: Wish<'_>,
) -> TurnEnd
    requires known { IsWishOf room.old.program wish }
    requires script { IsInScript room.old who (act_meant wish) }
    ensures { Acts room.old who (Some (act_meant wish.entry)) result room.new }
{
    match room.attempt(stepper, who, wish) {
        Ok(answer) => end_by(answer),
        Err(_) => TurnEnd::NoMemory,
    }
}

/// What an attempt that is answered so leaves of its worker.
fn end_by(answer: Answer) -> TurnEnd
    ensures { result ≡ end_of answer }
{
    match answer {
        Answer::Faulted(_, _) | Answer::Stopped => TurnEnd::IsLast,
        Answer::Committed(_)
        | Answer::NotAnAction
        | Answer::NotYours
        | Answer::NotEnabled
        | Answer::Planned
        | Answer::NoPlan
        | Answer::Stale => TurnEnd::GoesOn,
    }
}

/// The next action of the program's script, of which so many are performed.
pub(crate) fn next_input<'a>(
    alloc: Global,
    program: &'a Program,
    inputs: &'a [Action],
    performed: usize,
) -> Result<Option<Wish<'a>>, OutOfMemory>
    ensures next { IfOk result (λ r. option_map act_meant r ≡ slice_get (map act_of inputs.now) performed) }
    ensures known { IfOk result (λ r. IfSome r (IsWishOf program.now)) }
{
    if performed < inputs.len() {
        let wish = Wish::of(alloc, program, &inputs[performed])?;
        Ok(Some(wish))
    } else {
        Ok(None)
    }
}
