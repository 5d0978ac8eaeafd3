//! The state of the gate of runs on threads, which decides who waits for whom.

ghost use Rattle.std.specs.Prelude.{◌≡◌, IfOk, false, map};
ghost use Rattle.std.specs.List.{list_any};
ghost use Rattle.ioa_serving.specs.Pacing.{Begins, given_up, is_ahead, is_behind, is_held, lets_go, progress_of, unseen};

use crate::progress::{LEAD, Progress};
use std::alloc::{AllocError, Global};

/// What is seen as a worker begins a turn.
#[derive(Clone, Copy, Debug, PartialEq, Eq)]
pub struct Arrival {
    /// How far it has come with this one.
    pub worker: Progress,
    /// Whether it has to wait for another.
    pub is_held: bool,
    /// Whether others have waited for it, and need not any more.
    pub lets_go: bool,
}

/// How far the workers of a run on threads have come, so far as their gate has seen.
#[derive(Drop)]
pub struct Pace {
    pub workers: Vec<Progress>,
}

impl Pace {
    /// The pace of a worker of each of these groups, none of which was seen.
    pub fn new(alloc: Global, groups: &[usize]) -> Result<Pace, AllocError>
        ensures { IfOk result (λ pace. pace.workers.items ≡ map unseen groups.now) }
    {
        let mut workers = Vec::new(alloc);
        for group in groups {
            workers.push(Progress::unseen(*group))?;
        }
        Ok(Pace { workers })
    }

    /// Sees that the worker of this number begins one more turn.
    pub fn begin(&mut self, who: usize) -> Arrival
        ensures begins { Begins who self.old.workers.items self.new.workers.items }
        ensures worker { result.worker ≡ progress_of who self.new.workers.items }
        ensures held { result.is_held ≡ is_held result.worker self.new.workers.items }
        ensures lets_go { result.lets_go ≡ lets_go result.worker self.new.workers.items }
    {
        let worker = self.count(who);
        Arrival {
            worker,
            is_held: self.is_held(worker),
            lets_go: self.lets_go(worker),
        }
    }

    /// Counts one more turn of the worker of this number, and answers how far it has come.
    fn count(&mut self, who: usize) -> Progress
        ensures begins { Begins who self.old.workers.items self.new.workers.items }
        ensures worker { result ≡ progress_of who self.new.workers.items }
    {
        match self.workers.get_mut(who) {
            Some(worker) => {
                *worker = worker.next();
                *worker
            }
            None => Progress::unseen(0),
        }
    }

    /// Whether who has come so far has to wait for another.
    pub fn is_held(&self, who: Progress) -> bool
        ensures { result ≡ is_held who self.now.workers.items }
    {
        self.workers.iter().any(|other| who.awaits(*other))
    }

    /// Whether those are let go that have waited: the last of all comes so far, to its first turn, or to a third one from there of which
    /// others are ahead.
    fn lets_go(&self, who: Progress) -> bool
        ensures { result ≡ lets_go who self.now.workers.items }
    {
        who.begun % LEAD == 1 && !self.has_behind(who) && (who.begun == 1 || self.has_ahead(who))
    }

    /// Whether a worker is ahead of who has come so far.
    fn has_ahead(&self, who: Progress) -> bool
        ensures { result ≡ list_any (is_ahead who) self.now.workers.items }
    {
        self.workers.iter().any(|other| who.has_ahead(*other))
    }

    /// Whether a worker is behind who has come so far.
    fn has_behind(&self, who: Progress) -> bool
        ensures { result ≡ list_any (is_behind who) self.now.workers.items }
    {
        self.workers.iter().any(|other| who.has_behind(*other))
    }

    /// Gives those up for whom one has waited in vain that has come so far: nobody waits for them until they begin their next turn.
    pub fn give_up(&mut self, who: Progress)
        ensures given_up { self.new.workers.items ≡ map (given_up who) self.old.workers.items }
        ensures free { is_held who self.new.workers.items ≡ false }
    {
        for i in 0..self.workers.len() {
            self.workers[i] = self.workers[i].given_up(who);
        }
    }
}
