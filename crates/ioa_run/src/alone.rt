//! Runs on one thread, whose history the words and the script decide.

ghost use Rattle.std.specs.Prelude.{◌≡◌, ◌+◌, ◌<◌, ◌≤◌, [], All, IfOk, IfSome, IsErrOf, false, length, map, replicate, slice_get};
ghost use Rattle.std.specs.Option.{option_map};
ghost use Rattle.ioa_value.specs.Actions.{act_of};
ghost use Rattle.ioa_compile.specs.Tables.{tabled};
ghost use Rattle.ioa_system.specs.Logs.{log_end, logged};
ghost use Rattle.ioa_board.specs.ProgramRooms.{IsInput, environment, place, room_on};
ghost use Rattle.ioa_board.specs.Wishes.{IsWishOf, act_meant};
ghost use Rattle.ioa_run.specs.Alone.{IsAlone, IsAloneFrom, IsAloneSince, IsOutcome, IsOutcomeFrom, NoMemory, Refuses, RefusesResumed, most_turns};
ghost use Rattle.ioa_board.specs.declared.run_err.RunErr.{RunErr};
ghost use Rattle.ioa_board.specs.Outcomes.{HaveEnded};
ghost use Rattle.ioa_run.specs.Rounds.{Dismisses, GoesRound, GoesRounds};
ghost use Rattle.ioa_run.specs.TalliedRuns.{IsTallied};
ghost use Rattle.ioa_run.specs.Tallies.{AreTallied, blank, tally_of};
ghost use Rattle.ioa_run.specs.Turning.{Acts, HasPerformed, Takes, Wishes};

use crate::beginning::{check, resumed_room};
use crate::choice::choose;
use crate::locals::Locals;
use crate::tally::{Pick, Tally, blank_tallies, follow, report_of};
use crate::turn::{TurnEnd, act, next_input};
use ioa_board::{Outcome, Room, RunErr, Why, Wish};
use ioa_compile::Program;
use ioa_node::{Words, Workspace};
use ioa_system::{Log, Stepper};
use ioa_value::{Action, OutOfMemory};
use std::alloc::Global;

/// Runs the program on one thread. In each of so many rounds each component takes a turn, in ascending order, and then the environment,
/// which performs the inputs. There is one source of words for each component.
///
/// A worker takes no more turns after a fault of its action, or where it would commit after another's; the others go on. Memory that is
/// refused to a worker in its turn ends that worker alone, and its report says so. So of each worker all turns are counted, or fewer, since
/// its action faulted, or another's did, or memory was refused to it. Behind a run the tallies are those of its components, in order; what stood there is gone then, and may be gone where there is no run, too.
///
/// It answers `TooManyTurns` where each worker would have more than 100,000 turns; then `BadInput` with the first action that is no
/// input of the composition; and `OutOfMemory` where memory was refused before the start. It never answers `Threads`.
pub fn run_alone<W: Words + Drop>(
    alloc: Global,
    program: &Program,
    turns: u64,
    words: Vec<W>,
    inputs: &[Action],
    tallies: &mut Vec<Tally>,
) -> Result<Outcome, RunErr>
    requires sources { length words.items ≡ length program.now.members }
    ensures outcome { IfOk result (λ o. IsOutcome program.now (map act_of inputs.now) turns o) }
    ensures ended { IfOk result (λ o. HaveEnded turns (log_end o.end) o.reports.items) }
    ensures alone { IfOk result (λ o. NoMemory o.reports.items → IsAlone program.now (map W.stream words.items) (map act_of inputs.now) turns o) }
    ensures tallied { IfOk result (λ o. IsTallied program.now [] o tallies.new.items) }
    ensures refused { Refuses program.now (map act_of inputs.now) turns result }
    ensures threads { IsErrOf result RunErr.Threads → ⊥ }
{
    check(alloc, program, turns, inputs)?;
    let room = Room::start(alloc, program, inputs, turns)?;
    *tallies = blank_tallies(alloc, program.members())?;
    let outcome = run_in(alloc, room, turns, words, inputs, tallies)?;
    Ok(outcome)
}

/// Runs the program on one thread as `run_alone` does, from where the run ended that the log tells: what the log has stands at the
/// beginning of the history, words and inputs begin anew, and the reports and the tallies tell of what is new.
///
/// It answers `TooManyTurns` and `BadInput` as `run_alone` does; then `EndedByFault` where the log ends by a fault; then `BadLog` with the first
/// of its entries whose worker is not its action's or whose action is not performed, or with their number where the end has another count; and `OutOfMemory` where memory
/// was refused before the start. It never answers `Threads`.
pub fn resume_alone<W: Words + Drop>(
    alloc: Global,
    program: &Program,
    log: &Log,
    turns: u64,
    words: Vec<W>,
    inputs: &[Action],
    tallies: &mut Vec<Tally>,
) -> Result<Outcome, RunErr>
    requires sources { length words.items ≡ length program.now.members }
    ensures outcome { IfOk result (λ o. IsOutcomeFrom program.now (logged log.now).entries (map act_of inputs.now) turns o) }
    ensures ended { IfOk result (λ o. HaveEnded turns (log_end o.end) o.reports.items) }
    ensures alone { IfOk result (λ o. NoMemory o.reports.items → IsAloneSince program.now (logged log.now) (map W.stream words.items) (map act_of inputs.now) turns o) }
    ensures tallied { IfOk result (λ o. IsTallied program.now (logged log.now).entries o tallies.new.items) }
    ensures refused { RefusesResumed program.now (map act_of inputs.now) turns (logged log.now) result }
    ensures threads { IsErrOf result RunErr.Threads → ⊥ }
{
    let room = resumed_room(alloc, program, log, inputs, turns)?;
    *tallies = blank_tallies(alloc, program.members())?;
    let outcome = run_in(alloc, room, turns, words, inputs, tallies)?;
    Ok(outcome)
}

/// The turns of all workers in this room, in which nothing is done yet.
fn run_in<'p, W: Words + Drop>(
    alloc: Global,
    room: Room<'p>,
    turns: u64,
    words: Vec<W>,
    inputs: &'p [Action],
    tallies: &mut Vec<Tally>,
) -> Result<Outcome, OutOfMemory>
    requires blank { map tally_of tallies.old.items ≡ map blank room.program.members }
    requires fresh { room ≡ room_on room.program room.board (map act_of inputs.now) turns }
    requires few { turns ≤ most_turns }
    requires fine { All (IsInput (tabled room.program)) (map act_of inputs.now) }
    requires sources { length words.items ≡ length room.program.members }
    ensures outcome { IfOk result (λ o. IsOutcomeFrom room.entry.program room.entry.board.history (map act_of inputs.now) turns o) }
    ensures ended { IfOk result (λ o. HaveEnded turns (log_end o.end) o.reports.items) }
    ensures alone { IfOk result (λ o. NoMemory o.reports.items → IsAloneFrom room.entry.program room.entry.board (map W.stream words.items) (map act_of inputs.now) turns o) }
    ensures tallied { IfOk result (λ o. IsTallied room.entry.program room.entry.board.history o tallies.new.items) }
{
    let mut room = room;
    let mut words = words;
    let program = room.board().program();
    let mut ended = none_ended(alloc, program.members().len())?;
    let locals = Locals::of(alloc, program)?;
    take_turns(
        alloc, &mut room, &locals, inputs, turns, &mut words, &mut ended, tallies,
    );
    dismiss(&mut room, &ended);
    Ok(room.finish())
}

/// For each of so many components, and for the environment, that it has not ended.
fn none_ended(alloc: Global, components: usize) -> Result<Vec<bool>, OutOfMemory>
    ensures { IfOk result (λ ended. ended.items ≡ replicate (components + 1) false) }
{
    let mut ended = Vec::new(alloc);
    for _ in 0..components {
        ended.push(false)?;
    }
    ended.push(false)?;
    Ok(ended)
}

/// So many rounds of turns.
fn take_turns<'p, W: Words>(
    alloc: Global,
    room: &mut Room<'p>,
    locals: &Locals<'p>,
    inputs: &'p [Action],
    turns: u64,
    words: &mut [W],
    ended: &mut [bool],
    tallies: &mut Vec<Tally>,
)
    requires tallied { AreTallied room.old (map tally_of tallies.old.items) }
    requires locals { locals.now ≡ room.old.program }
    requires inputs { room.old.inputs ≡ map act_of inputs.now }
    requires fine { All (IsInput (tabled room.old.program)) room.old.inputs }
    requires words { length words.old ≡ length room.old.program.members }
    requires ended { length ended.old ≡ length room.old.program.members + 1 }
    ensures goes { GoesRounds turns room.old (map W.stream words.old) ended.old room.new (map W.stream words.new) ended.new }
    ensures tallied { AreTallied room.new (map tally_of tallies.new.items) }
{
    let mut stepper = Stepper::new(alloc);
    for _ in 0..turns {
        round(
            alloc,
            &mut stepper,
            room,
            locals,
            inputs,
            words,
            ended,
            tallies,
        );
    }
}

/// A turn of each worker that has not ended: of the components in ascending order, and then of the environment.
fn round<'p, W: Words>(
    alloc: Global,
    stepper: &mut Stepper<'p>,
    room: &mut Room<'p>,
    locals: &Locals<'p>,
    inputs: &'p [Action],
    words: &mut [W],
    ended: &mut [bool],
    tallies: &mut Vec<Tally>,
)
    requires tallied { AreTallied room.old (map tally_of tallies.old.items) }
    requires locals { locals.now ≡ room.old.program }
    requires inputs { room.old.inputs ≡ map act_of inputs.now }
    requires fine { All (IsInput (tabled room.old.program)) room.old.inputs }
    requires words { length words.old ≡ length room.old.program.members }
    requires ended { length ended.old ≡ length room.old.program.members + 1 }
    ensures goes { GoesRound room.old (map W.stream words.old) ended.old room.new (map W.stream words.new) ended.new }
    ensures tallied { AreTallied room.new (map tally_of tallies.new.items) }
{
    for who in 0..ended.len() {
        if !ended[who] {
            let end = turn(alloc, stepper, room, locals, inputs, words, who, tallies);
            ended[who] = end.is_last();
        }
    }
}

/// A worker's turn, which is counted in its tally as its report counts it. Where memory is refused it leaves.
fn turn<'p, W: Words>(
    alloc: Global,
    stepper: &mut Stepper<'p>,
    room: &mut Room<'p>,
    locals: &Locals<'p>,
    inputs: &'p [Action],
    words: &mut [W],
    who: usize,
    tallies: &mut Vec<Tally>,
) -> TurnEnd
    requires tallied { AreTallied room.old (map tally_of tallies.old.items) }
    requires locals { locals.now ≡ room.old.program }
    requires inputs { room.old.inputs ≡ map act_of inputs.now }
    requires fine { All (IsInput (tabled room.old.program)) room.old.inputs }
    requires words { length words.old ≡ length room.old.program.members }
    requires worker { who < length room.old.program.members + 1 }
    ensures takes { Takes room.old (map W.stream words.old) who result room.new (map W.stream words.new) }
    ensures tallied { AreTallied room.new (map tally_of tallies.new.items) }
{
    let performed = room.reports()[who].committed;
    let mut pick = Pick::none();
    let Ok(meant) = wish(
        alloc,
        stepper.workspace(),
        room,
        locals,
        inputs,
        words,
        who,
        performed,
        &mut pick,
    ) else {
        room.leave(who, Why::Memory);
        return TurnEnd::NoMemory;
    };
    let end = act_counted(stepper, room, who, meant, pick, tallies);
    if end.is_refused() {
        room.leave(who, Why::Memory);
    }
    end
}

/// The turn of a worker that means to perform this action, or has nothing to commit, and which picked this entry.
fn act_counted<'p>(
    stepper: &mut Stepper<'p>,
    room: &mut Room<'p>,
    who: usize,
    meant: Option<Wish<'_>>,
    pick: Pick,
    tallies: &mut Vec<Tally>,
) -> TurnEnd
    requires tallied { AreTallied room.old (map tally_of tallies.old.items) }
    requires known { IfSome meant (IsWishOf room.old.program) }
    requires script { who ≡ environment room.old → option_map act_meant meant ≡ slice_get room.old.inputs (place room.old) }
    requires inputs { All (IsInput (tabled room.old.program)) room.old.inputs }
    ensures acts { Acts room.old who (option_map act_meant meant.entry) result room.new }
    ensures tallied { AreTallied room.new (map tally_of tallies.new.items) }
{
    let before = report_of(room, who);
    let end = act(stepper, room, who, meant);
    follow(tallies, room, who, pick, before);
    end
}

/// What a worker that has performed so many actions means to do: a component by its state on the board, which is lent, and by its words, and which entry it picks;
/// the environment by its script.
fn wish<'p, W: Words>(
    alloc: Global,
    workspace: &mut Workspace,
    room: &Room<'_>,
    locals: &Locals<'p>,
    inputs: &'p [Action],
    words: &mut [W],
    who: usize,
    performed: usize,
    pick: &mut Pick,
) -> Result<Option<Wish<'p>>, OutOfMemory>
    requires locals { locals.now ≡ room.now.program }
    requires inputs { room.now.inputs ≡ map act_of inputs.now }
    requires words { length words.old ≡ length room.now.program.members }
    requires worker { who < length room.now.program.members + 1 }
    requires performed { HasPerformed room.now who performed }
    ensures wishes { IfOk result (λ r. Wishes room.now (map W.stream words.old) who (option_map act_meant r) (map W.stream words.new)) }
    ensures known { IfOk result (λ r. IfSome r (IsWishOf room.now.program)) }
{
    let program = locals.program();
    let members = program.members();
    if who < members.len() {
        let state = &room.board().states()[who];
        let own = locals.of_component(who);
        let meant = choose(alloc, workspace, own, state, &mut words[who], pick)?;
        Ok(meant)
    } else {
        next_input(alloc, program, inputs, performed)
    }
}

/// Tells of each worker that has not ended that its turns are done.
fn dismiss(room: &mut Room<'_>, ended: &[bool])
    ensures { Dismisses room.old ended.now room.new }
{
    for who in 0..ended.len() {
        if !ended[who] {
            room.leave(who, Why::TurnsDone);
        }
    }
}
