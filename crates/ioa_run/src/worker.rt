//! Turns on a thread of their own: a worker proposes and plans without the lock.

ghost use Rattle.std.specs.Prelude.{◌≡◌, IfOk, IfSome};
ghost use Rattle.ioa_value.specs.Actions.{act_of};
ghost use Rattle.ioa_compile.specs.Sites.{sites_of};
ghost use Rattle.ioa_run.specs.declared.gate.Point.TheVariants as points;
ghost use Rattle.ioa_board.specs.Planning.{Assesses, IfReady, IsOf};
ghost use Rattle.ioa_board.specs.Wishes.{IsWishOf};
ghost use Rattle.ioa_run.specs.Points.{EndsAt, IsEnd};

use crate::choice::choose;
use crate::crew::Crew;
use crate::gate::{Gate, Point};
use crate::own_room::Terms;
use crate::tally::Pick;
use crate::turn::next_input;
use ioa_board::{Assessed, Plan, Planned, Verdict, Why, Wish, assess, plan_by};
use ioa_node::{NodeState, Words, Workspace};
use ioa_sites::Site;
use ioa_system::Participation;
use ioa_value::{Action, OutOfMemory};
use std::alloc::Global;
use std::sync::Wait;

/// From what a worker's actions come.
#[derive(Drop)]
pub(crate) enum Source<W> {
    /// A component's: its state, and these words.
    Words(W),
    /// The environment's: the script.
    Script,
}

/// A worker of a run on threads, on its own thread.
#[derive(Drop)]
pub(crate) struct Worker<'a, 'p, R: Wait, T: Terms, G: Gate> {
    pub rt: &'a R,
    pub alloc: Global,
    pub crew: &'a Crew<'p, T>,
    pub gate: &'a G,
    pub who: usize,
}

impl<'a, 'p, R: Wait, T: Terms, G: Gate> Worker<'a, 'p, R, T, G> {
    /// Takes the worker's turns, and leaves. A fault of its action ends them, and so do a fault of another's, where it would commit, and
    /// memory that is refused.
    pub(crate) fn work<W: Words>(&self, source: &mut Source<W>) {
        let mut workspace = Workspace::new(self.alloc);
        for _ in 0..self.crew.turns {
            if self.crew.is_cancelled() {
                return;
            }
            self.gate.reach(self.who, Point::Turn);
            match self.turn(&mut workspace, source) {
                Ok(Some(end)) => self.gate.reach(self.who, end),
                Ok(None) => return,
                Err(_) => {
                    self.crew.leave(self.rt, self.who, Why::Memory);
                    return;
                }
            }
        }
        self.crew.leave(self.rt, self.who, Why::TurnsDone);
    }

    /// A turn, and where it ends; nowhere where the worker takes no more.
    fn turn<W: Words>(
        &self,
        workspace: &mut Workspace,
        source: &mut Source<W>,
    ) -> Result<Option<Point>, OutOfMemory>
        ensures { IfOk result (λ r. IfSome r IsEnd) }
    {
        let mut pick = Pick::none();
        let meant = self.wish(workspace, source, &mut pick)?;
        match meant {
            Some(wish) => self.attempt(wish, pick),
            None => Ok(Some(self.idle(pick))),
        }
    }

    /// What the worker means to do, or nothing; and which entry it tries, where it is a component.
    fn wish<W: Words>(
        &self,
        workspace: &mut Workspace,
        source: &mut Source<W>,
        pick: &mut Pick,
    ) -> Result<Option<Wish<'p>>, OutOfMemory>
        ensures { IfOk result (λ r. IfSome r (IsWishOf T.program)) }
    {
        match source {
            Source::Words(words) => self.choice(workspace, words, pick),
            Source::Script => self.next_of_script(),
        }
    }

    /// The next action of the script, or nothing behind its end.
    fn next_of_script(&self) -> Result<Option<Wish<'p>>, OutOfMemory>
        ensures { IfOk result (λ r. IfSome r (IsWishOf T.program)) }
    {
        let place = self.crew.place(self.rt);
        next_input(self.alloc, self.crew.program, self.crew.inputs, place)
    }

    /// What a component means to do by a copy of its own state; a number past the components' means nothing.
    fn choice<W: Words>(
        &self,
        workspace: &mut Workspace,
        words: &mut W,
        pick: &mut Pick,
    ) -> Result<Option<Wish<'p>>, OutOfMemory>
        ensures { IfOk result (λ r. IfSome r (IsWishOf T.program)) }
    {
        let members = self.crew.program.members();
        if self.who >= members.len() {
            return Ok(None);
        }
        let own = self.crew.copy(self.rt, &[self.who])?;
        let locals = self.crew.locals.of_component(self.who);
        choose(self.alloc, workspace, locals, &own[0], words, pick)
    }

    /// Plans the action and commits the plan, with the gate between.
    fn attempt(&self, wish: Wish<'p>, pick: Pick) -> Result<Option<Point>, OutOfMemory>
        requires { IsWishOf T.program wish }
        ensures { IfOk result (λ r. IfSome r IsEnd) }
    {
        let Planned::Ready(plan) = self.plan(wish)? else {
            return Ok(Some(self.idle(pick)));
        };
        self.gate.reach(self.who, Point::Planned);
        self.commit(plan, pick)
    }

    /// The worker's plan for the action, by copies of the participants' states as they are now: others may have committed since it was chosen.
    fn plan(&self, wish: Wish<'p>) -> Result<Planned<'p>, OutOfMemory>
        requires { IsWishOf T.program wish }
        ensures { IfOk result (IfReady (IsOf T.program self.now.who)) }
    {
        let sites = wish.sites;
        let action = wish.into_action(self.alloc)?;
        let (copied, assessed) = self.assess(sites, &action)?;
        Ok(plan_by(self.crew.program, self.who, action, copied, assessed))
    }

    /// Copies of the participants' states, and whether the worker can plan the action by these. It asks for the sites of the action's name, so that this is
    /// not searched for.
    fn assess(
        &self,
        sites: &[Site],
        action: &Action,
    ) -> Result<(Vec<NodeState>, Assessed), OutOfMemory>
        requires { sites.now ≡ sites_of T.program (act_of action.now).name }
        ensures { IfOk result (λ r. Assesses T.program self.now.who (act_of action.now) r.0.items r.1) }
    {
        let participation = Participation::at(self.alloc, self.crew.program, sites, action)?;
        let numbers = participation.numbers(self.alloc)?;
        let copied = self.crew.copy(self.rt, &numbers)?;
        let assessed = assess(self.alloc, &participation, self.who, numbers, &copied)?;
        Ok((copied, assessed))
    }

    /// Commits the plan, and where the turn then ends.
    fn commit(&self, plan: Plan<'p>, pick: Pick) -> Result<Option<Point>, OutOfMemory>
        requires who { self.now.who ≡ plan.who }
        requires program { plan.program ≡ T.program }
        ensures { IfOk result (λ r. IfSome r IsEnd) }
    {
        self.end_by(self.crew.commit(self.rt, self.who, plan, pick))
    }

    /// Where a turn ends whose commit is answered so. A worker that is stopped leaves.
    fn end_by(&self, verdict: Verdict<'p>) -> Result<Option<Point>, OutOfMemory>
        ensures at { EndsAt verdict.entry result }
        ensures end { IfOk result (λ r. IfSome r IsEnd) }
    {
        match verdict {
            Verdict::Committed(_) => Ok(Some(Point::Committed)),
            Verdict::Stale => Ok(Some(Point::Stale)),
            Verdict::Faulted(_, _) => Ok(None),
            Verdict::Stopped => {
                self.crew.leave(self.rt, self.who, Why::Stopped);
                Ok(None)
            }
            Verdict::Memory(_) => Err(OutOfMemory),
        }
    }

    /// Counts a turn in which there is nothing to commit, and ends it.
    fn idle(&self, pick: Pick) -> Point
        ensures at { result ≡ points.Idle }
        ensures end { IsEnd result }
    {
        self.crew.idle(self.rt, self.who, pick);
        Point::Idle
    }
}
