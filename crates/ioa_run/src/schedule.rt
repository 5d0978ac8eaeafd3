//! The schedule machine, on which copies and commits of workers come in any order.

ghost use Rattle.std.specs.Prelude.{◌≡◌, ◌+◌, IfOk, None, OnErr, map, replicate, slice_get, slice_set, unwrap_or};
ghost use Rattle.ioa_value.specs.Actions.{act_of};
ghost use Rattle.ioa_compile.specs.Tables.{tabled};
ghost use Rattle.ioa_run.specs.Schedules as machine;
ghost use Rattle.ioa_run.specs.ProgramSchedules.{IsPlay, Parts, Settles, board_now, event_of, start_program};

use crate::event::Event;
use ioa_board::{Answer, Board, Plan, Planned, Verdict, plan_now};
use ioa_compile::Program;
use ioa_value::{Action, OutOfMemory};
use std::alloc::Global;
use std::marker::Model;
use std::mem;

/// A run of a program whose events come one by one: whoever's event comes next moves next. The workers are the components, numbered as
/// such, and the environment, whose number is that of the components. A greater number is no worker's: its copies are answered
/// `NotAnAction` or `NotYours`, and its commits `NoPlan`.
pub struct Core<'p> {
    alloc: Global,
    board: Board<'p>,
    /// For each worker its plan or none.
    plans: Vec<Option<Plan<'p>>>,
}

/// Written out, so that who drops one calls this, and does not take it apart itself.
impl Drop for Core<'_> {
    fn drop(self) {
        let Core {
            alloc: _,
            board: _,
            plans: _,
        } = self;
    }
}

impl<'p> Model for Core<'p> {
    ghost use Rattle.ioa_run.specs.ProgramSchedules.{ScheduledProgram, coded_scheduled_program};

    ghost Value = { ScheduledProgram };

    ghost coded = { coded_scheduled_program };

    ghost use Rattle.ioa_run.specs.ProgramSchedules.{ArePlans, intents};

    ghost view = { λ c. record { program = c.board.program; schedule = record { board = c.board.board; plans = intents c.plans.items } } };

    ghost invariant = { λ c. ArePlans c.board.program c.plans.items };
}

impl<'p> Core<'p> {
    /// The run in which nothing is done yet, and no worker has a plan.
    pub fn start(alloc: Global, program: &'p Program) -> Result<Core<'p>, OutOfMemory>
        ensures { IfOk result (λ c. c ≡ start_program program.now) }
    {
        let board = Board::start(alloc, program)?;
        let plans = no_plans(alloc, program.members().len())?;
        Ok(Core {
            alloc,
            board,
            plans,
        })
    }

    /// The board.
    pub fn board(&self) -> &Board<'p>
        ensures { result.now ≡ board_now self.now }
    {
        &self.board
    }

    /// Answers the event as the schedule machine does. A refusal of memory changes nothing.
    pub fn event(&mut self, event: Event) -> Result<Answer, OutOfMemory>
        ensures answers { IfOk result (λ a. machine.Answers (tabled self.old.program) (event_of event) self.old.schedule a self.new.schedule) }
        ensures program { self.new.program ≡ self.old.program }
        ensures memory { OnErr result (self.new ≡ self.old) }
    {
        match event {
            Event::Copy(who, action) => self.copy(who, action),
            Event::Commit(who) => self.commit(who),
        }
    }

    fn copy(&mut self, who: usize, action: Action) -> Result<Answer, OutOfMemory>
        ensures answers { IfOk result (λ a. machine.Answers (tabled self.old.program) (machine.copy who (act_of action)) self.old.schedule a self.new.schedule) }
        ensures program { self.new.program ≡ self.old.program }
        ensures memory { OnErr result (self.new ≡ self.old) }
    {
        let planned = plan_now(self.alloc, &self.board, who, action)?;
        let (answer, plan) = parted(planned);
        put_plan(&mut self.plans, who, plan);
        Ok(answer)
    }

    fn commit(&mut self, who: usize) -> Result<Answer, OutOfMemory>
        ensures answers { IfOk result (λ a. machine.Answers (tabled self.old.program) (machine.commit who) self.old.schedule a self.new.schedule) }
        ensures program { self.new.program ≡ self.old.program }
        ensures memory { OnErr result (self.new ≡ self.old) }
    {
        let Some(plan) = exchange(&mut self.plans, who, None) else {
            return Ok(Answer::NoPlan);
        };
        match settled(self.board.commit(who, plan)) {
            Ok(answer) => Ok(answer),
            Err(plan) => {
                put_plan(&mut self.plans, who, Some(plan));
                Err(OutOfMemory)
            }
        }
    }
}

/// No plan for each of the workers: the components, of which there are so many, and the environment.
fn no_plans<'p>(alloc: Global, components: usize) -> Result<Vec<Option<Plan<'p>>>, OutOfMemory>
    ensures { IfOk result (λ plans. plans.items ≡ replicate (components + 1) None) }
{
    let mut plans = Vec::new(alloc);
    for _ in 0..components {
        plans.push(None)?;
    }
    plans.push(None)?;
    Ok(plans)
}

/// Puts a plan in the worker's place. A number past the workers' has none, and nothing changes.
fn put_plan<'p>(plans: &mut Vec<Option<Plan<'p>>>, who: usize, plan: Option<Plan<'p>>)
    ensures { plans.new.items ≡ slice_set plans.old.items who plan.entry }
{
    let _old = exchange(plans, who, plan);
}

/// The same, with the plan that was there.
fn exchange<'p>(
    plans: &mut Vec<Option<Plan<'p>>>,
    who: usize,
    plan: Option<Plan<'p>>,
) -> Option<Plan<'p>>
    ensures old { result ≡ unwrap_or (slice_get plans.old.items who) None }
    ensures new { plans.new.items ≡ slice_set plans.old.items who plan.entry }
{
    if who < plans.len() {
        mem::replace(&mut plans[who], plan)
    } else {
        None
    }
}

/// The answer, and the plan that the worker then has.
fn parted<'p>(planned: Planned<'p>) -> (Answer, Option<Plan<'p>>)
    ensures { Parts planned.entry result.0 result.1 }
{
    match planned {
        Planned::Ready(plan) => (Answer::Planned, Some(plan)),
        Planned::NotAnAction => (Answer::NotAnAction, None),
        Planned::NotEnabled => (Answer::NotEnabled, None),
        Planned::NotYours => (Answer::NotYours, None),
    }
}

/// The answer, or the plan that was given back.
fn settled<'p>(verdict: Verdict<'p>) -> Result<Answer, Plan<'p>>
    ensures { Settles verdict.entry result }
{
    match verdict {
        Verdict::Stopped => Ok(Answer::Stopped),
        Verdict::Stale => Ok(Answer::Stale),
        Verdict::Faulted(component, fault) => Ok(Answer::Faulted(component, fault)),
        Verdict::Committed(index) => Ok(Answer::Committed(index)),
        Verdict::Memory(plan) => Err(plan),
    }
}

/// The answers to the events, one after another, and the run to which they lead.
pub fn play<'p>(
    alloc: Global,
    program: &'p Program,
    events: &[Event],
) -> Result<(Core<'p>, Vec<Answer>), OutOfMemory>
    ensures { IfOk result (λ r. IsPlay program.now (map event_of events.now) r.0 r.1.items) }
{
    let mut core = Core::start(alloc, program)?;
    let mut answers = Vec::new(alloc);
    for event in events {
        let answer = core.event(event.try_copy(alloc)?)?;
        answers.push(answer)?;
    }
    Ok((core, answers))
}
