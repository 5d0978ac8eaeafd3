//! Runs on threads, whose history is legal in whatever order their workers come.

ghost use Rattle.std.specs.Prelude.{◌≡◌, ◌+◌, ◌≤◌, [], All, IfErr, IfOk, length, map, replicate};
ghost use denote.Param.Send.{IsSend, IsSync};
ghost use Rattle.ioa_value.specs.Actions.{act_of};
ghost use Rattle.ioa_compile.specs.Tables.{tabled};
ghost use Rattle.ioa_system.specs.Logs.{log_end, logged};
ghost use Rattle.ioa_board.specs.declared.run_err.RunErr.TheVariants as errors;
ghost use Rattle.ioa_board.specs.ProgramRooms.{IsInput};
ghost use Rattle.ioa_run.specs.Alone.{IsOutcome, IsOutcomeFrom, Refuses, RefusesResumed, most_turns};
ghost use Rattle.ioa_board.specs.Outcomes.{HaveEnded};
ghost use Rattle.ioa_board.specs.Reports.{blank};
ghost use Rattle.ioa_run.specs.TalliedRuns.{IsTallied};

use crate::beginning::{check, resumed_room};
use crate::crew::Crew;
use crate::gate::Gate;
use crate::locals::Locals;
use crate::own_room::Terms;
use crate::tally::{Tally, blank_tallies};
use crate::worker::{Source, Worker};
use ioa_board::{Outcome, Room, RunErr, have_ended};
use ioa_compile::Program;
use ioa_node::Words;
use ioa_system::Log;
use ioa_value::Action;
use std::alloc::Global;
use std::marker::Brand;
use std::sync::Wait;
use std::thread;
use std::thread::Threads;

/// Runs the program on threads: one for each component, which takes so many turns by its source of words, and one for the environment,
/// which performs the inputs in as many turns. There is one source of words for each component.
///
/// A worker tells the gate where it is, and waits there as long as the gate holds it. It takes no more turns after a fault of its action,
/// or where it would commit after another's; the others go on. Memory that is refused to a worker in its turn ends that worker alone, and
/// its report says so. So of each worker all turns are counted, or fewer, since its action faulted, or another's did, or memory was refused
/// to it. Behind a run the tallies are those of its components, in order; what stood there is gone then, and may be gone where there is no run, too.
///
/// It answers `TooManyTurns` where each worker would have more than 100,000 turns; then `BadInput` with the first action that is no input
/// of the composition; `Threads` where a thread was refused, once the others are stopped and have ended, or where one has ended without a
/// word, which none of these threads does; and `OutOfMemory` where memory was refused before the start.
pub fn run_threads<R: Threads + Wait + Sync, W: Words + Send + Drop, G: Gate + Sync>(
    rt: &R,
    alloc: Global,
    program: &Program,
    turns: u64,
    words: Vec<W>,
    inputs: &[Action],
    gate: &G,
    tallies: &mut Vec<Tally>,
) -> Result<Outcome, RunErr>
    requires sources { length words.items ≡ length program.now.members }
    ensures outcome { IfOk result (λ o. IsOutcome program.now (map act_of inputs.now) turns o) }
    ensures ended { IfOk result (λ o. HaveEnded turns (log_end o.end) o.reports.items) }
    ensures refused { Refuses program.now (map act_of inputs.now) turns result }
    ensures tallied { IfOk result (λ o. IsTallied program.now [] o tallies.new.items) }
{
    check(alloc, program, turns, inputs)?;
    let room = Room::start(alloc, program, inputs, turns)?;
    run_on::<Brand, R, W, G>(
        rt, alloc, program, room, turns, words, inputs, gate, tallies,
    )
}

/// Runs the program on threads as `run_threads` does, from where the run ended that the log tells: what the log has stands at the beginning of the
/// history, words and inputs begin anew, and the reports and the tallies tell of what is new.
///
/// It answers as `run_threads` does; and after `TooManyTurns` and `BadInput`, `EndedByFault` where the log ends by a fault, then `BadLog` with the
/// first of its entries whose worker is not its action's or whose action is not performed, or with their number where the end has another count.
pub fn resume_threads<R: Threads + Wait + Sync, W: Words + Send + Drop, G: Gate + Sync>(
    rt: &R,
    alloc: Global,
    program: &Program,
    log: &Log,
    turns: u64,
    words: Vec<W>,
    inputs: &[Action],
    gate: &G,
    tallies: &mut Vec<Tally>,
) -> Result<Outcome, RunErr>
    requires sources { length words.items ≡ length program.now.members }
    ensures outcome { IfOk result (λ o. IsOutcomeFrom program.now (logged log.now).entries (map act_of inputs.now) turns o) }
    ensures ended { IfOk result (λ o. HaveEnded turns (log_end o.end) o.reports.items) }
    ensures refused { RefusesResumed program.now (map act_of inputs.now) turns (logged log.now) result }
    ensures tallied { IfOk result (λ o. IsTallied program.now (logged log.now).entries o tallies.new.items) }
{
    let room = resumed_room(alloc, program, log, inputs, turns)?;
    run_on::<Brand, R, W, G>(
        rt, alloc, program, room, turns, words, inputs, gate, tallies,
    )
}

/// A run of these terms, which may begin.
fn run_on<'p, T: Terms + Send, R: Threads + Wait + Sync, W: Words + Send + Drop, G: Gate + Sync>(
    rt: &R,
    alloc: Global,
    program: &'p Program,
    room: Room<'p>,
    turns: u64,
    words: Vec<W>,
    inputs: &'p [Action],
    gate: &G,
    tallies: &mut Vec<Tally>,
) -> Result<Outcome, RunErr>
    requires reports { room.reports ≡ replicate (length T.program.members + 1) blank }
    requires program { program.now ≡ T.program }
    requires own { room.program ≡ T.program }
    requires script { room.inputs ≡ T.inputs }
    requires rounds { room.turns ≡ T.turns }
    requires before { room.before ≡ T.before }
    requires inputs { map act_of inputs.now ≡ T.inputs }
    requires turns { turns ≡ T.turns }
    requires few { T.turns ≤ most_turns }
    requires fine { All (IsInput (tabled T.program)) T.inputs }
    ensures outcome { IfOk result (λ o. IsOutcomeFrom T.program T.before T.inputs T.turns o) }
    ensures ended { IfOk result (λ o. HaveEnded T.turns (log_end o.end) o.reports.items) }
    ensures refused { Refuses T.program T.inputs T.turns result }
    ensures tallied { IfOk result (λ o. IsTallied T.program T.before o tallies.new.items) }
{
    let blank = blank_tallies(alloc, program.members())?;
    let locals = Locals::of(alloc, program)?;
    let crew: Crew<'_, T> = Crew::of(program, inputs, turns, locals, room, blank);
    if !work_all(rt, alloc, &crew, words, gate) {
        return Err(RunErr::Threads);
    }
    let (outcome, counted) = crew.finish();
    *tallies = counted;
    unless_silent(outcome, turns)
}

/// What a run with so many turns for each worker gave, unless a worker has ended without a word. A worker's thread says why it takes no more
/// turns in every way out but that of a cancelled run (`Worker::work`), which gives nothing: so none of them is silent. Since of the room
/// under the lock nothing is known but what its type says, this is asked of the reports.
fn unless_silent(outcome: Outcome, turns: u64) -> Result<Outcome, RunErr>
    ensures same { IfOk result (λ o. o ≡ outcome) }
    ensures ended { IfOk result (λ o. HaveEnded turns (log_end o.end) o.reports.items) }
    ensures silent { IfErr result (λ e. (e ≡ errors.Threads) × (HaveEnded turns (log_end outcome.end) outcome.reports.items → ⊥)) }
{
    if have_ended(&outcome.reports, turns, outcome.end) {
        Ok(outcome)
    } else {
        Err(RunErr::Threads)
    }
}

/// Starts a thread for each worker of the crew, and waits until all have ended. Where a thread is refused, those that were started take no
/// more turns, and it answers false.
fn work_all<T: Terms + Send, R: Threads + Wait + Sync, W: Words + Send + Drop, G: Gate + Sync>(
    rt: &R,
    alloc: Global,
    crew: &Crew<'_, T>,
    words: Vec<W>,
    gate: &G,
) -> bool {
    let environment = crew.program.members().len();
    thread::scope(
        thread::scope_env(),
        rt,
        |scope| -> bool
            requires { IsSync R.row × IsSend W.row × IsSync G.row }
        {
            for (who, words) in words.into_iter().enumerate() {
                let started = scope
                    .spawn(move || work(rt, alloc, crew, gate, who, Source::Words(words)))
                    .is_ok();
                if !started {
                    crew.cancel();
                    return false;
                }
            }
            let started = scope
                .spawn(move || work(rt, alloc, crew, gate, environment, Source::<W>::Script))
                .is_ok();
            if !started {
                crew.cancel();
            }
            started
        },
    )
}

/// The turns of the worker of this number.
fn work<R: Wait, T: Terms, W: Words + Drop, G: Gate>(
    rt: &R,
    alloc: Global,
    crew: &Crew<'_, T>,
    gate: &G,
    who: usize,
    source: Source<W>,
) {
    let mut source = source;
    let worker = Worker {
        rt,
        alloc,
        crew,
        gate,
        who,
    };
    worker.work(&mut source);
}
