//! Reports of workers, in which each turn is counted as what became of it.

ghost use Rattle.std.specs.Prelude.{◌≡◌, ◌↔◌, ◌+◌, ◌<◌, ◌^◌, ◌==◌, ℕ, IsTrue};
ghost use Rattle.ioa_board.specs.Reports.{told_in, blank, counted, judged, left, resumed, unless_done, with_committed, with_idle, with_stale, with_why};
ghost use Rattle.ioa_system.specs.Logs.{log_end};
ghost use Rattle.ioa_board.specs.Outcomes.{HasEnded, HaveEnded};
ghost use Rattle.ioa_board.specs.declared.answer.Answer.TheVariants as answers;
ghost use Rattle.ioa_board.specs.declared.verdict.Verdict.TheVariants as verdicts;

use crate::answer::Answer;
use crate::verdict::Verdict;
use ioa_system::LogEnd;

/// Why a worker takes no more turns.
#[derive(Clone, Copy, Debug, PartialEq, Eq)]
pub enum Why {
    /// It has taken all its turns.
    TurnsDone,
    /// Its action faulted.
    Faulted,
    /// The run was stopped, or goes on.
    Stopped,
    /// Memory was refused.
    Memory,
}

/// What became of a worker's turns.
#[derive(Clone, Copy, Debug, PartialEq, Eq)]
pub struct Report {
    /// The actions that it performed.
    pub committed: usize,
    /// The turns in which it had nothing to commit.
    pub idle: u64,
    /// The plans that came too late, or out of turn.
    pub stale: u64,
    pub why: Why,
}

impl Report {
    /// The report of a worker that has taken no turn yet.
    pub fn blank() -> Report
        ensures { result ≡ blank }
    {
        Report {
            committed: 0,
            idle: 0,
            stale: 0,
            why: Why::Stopped,
        }
    }

    /// The report after a turn in which the worker had nothing to commit.
    pub(crate) fn with_idle(self) -> Report
        ensures { result ≡ with_idle self }
    {
        Report {
            committed: self.committed,
            idle: self.idle.saturating_add(1),
            stale: self.stale,
            why: self.why.resumed(),
        }
    }

    /// The report after a turn whose plan came too late, or out of turn.
    pub(crate) fn with_stale(self) -> Report
        ensures { result ≡ with_stale self }
    {
        Report {
            committed: self.committed,
            idle: self.idle,
            stale: self.stale.saturating_add(1),
            why: self.why.resumed(),
        }
    }

    /// The report after a turn in which an action was performed.
    fn with_committed(self) -> Report
        requires { self.committed + 1 < 2 ^ 64 }
        ensures { result ≡ with_committed self }
    {
        Report {
            committed: self.committed + 1,
            idle: self.idle,
            stale: self.stale,
            why: self.why.resumed(),
        }
    }

    fn with_why(self, why: Why) -> Report
        ensures { result ≡ with_why why self }
    {
        Report {
            committed: self.committed,
            idle: self.idle,
            stale: self.stale,
            why,
        }
    }

    /// The report after a commit that this verdict answered.
    pub(crate) fn judged(self, verdict: &Verdict<'_>) -> Report
        requires { (n : ℕ) → verdict.now ≡ verdicts.Committed n → self.committed + 1 < 2 ^ 64 }
        ensures { result ≡ judged verdict.now self }
    {
        match verdict {
            Verdict::Committed(_) => self.with_committed(),
            Verdict::Stale => self.with_stale(),
            Verdict::Faulted(_, _) => self.with_why(Why::Faulted),
            Verdict::Stopped | Verdict::Memory(_) => self,
        }
    }

    /// The report after an attempt that was answered so, where each worker has so many turns. A worker that is stopped leaves.
    pub(crate) fn told(self, answer: Answer, turns: u64) -> Report
        requires { (n : ℕ) → answer ≡ answers.Committed n → self.committed + 1 < 2 ^ 64 }
        ensures { result ≡ told_in turns answer self }
    {
        match answer {
            Answer::Committed(_) => self.with_committed(),
            Answer::Faulted(_, _) => self.with_why(Why::Faulted),
            Answer::Stopped => self.left(Why::Stopped, turns),
            Answer::Stale => self.with_stale(),
            Answer::NotAnAction
            | Answer::NotYours
            | Answer::NotEnabled
            | Answer::Planned
            | Answer::NoPlan => self.with_idle(),
        }
    }

    /// The report of a worker that leaves, where each has so many turns.
    pub(crate) fn left(self, why: Why, turns: u64) -> Report
        ensures { result ≡ left turns why self }
    {
        match self.why {
            Why::Faulted => self,
            Why::TurnsDone | Why::Stopped | Why::Memory => self.with_reason(why, turns),
        }
    }

    fn with_reason(self, why: Why, turns: u64) -> Report
        ensures { result ≡ with_why (unless_done (counted self == turns) self.why why) self }
    {
        match why {
            Why::TurnsDone => {
                if self.counted() == u128::from(turns) {
                    self.with_why(Why::TurnsDone)
                } else {
                    self
                }
            }
            Why::Faulted => self,
            Why::Stopped | Why::Memory => self.with_why(why),
        }
    }

    /// Whether the worker has ended, where each has so many turns and the log ends so: all its turns are counted, or fewer, since its action
    /// faulted, or another's did and stopped it, or memory was refused to it. Who is stopped without a fault has said nothing.
    pub(crate) fn has_ended(self, turns: u64, end: LogEnd) -> bool
        ensures { IsTrue result ↔ HasEnded turns (log_end end) self }
    {
        match self.why {
            Why::TurnsDone => self.counted() == u128::from(turns),
            Why::Faulted | Why::Stopped => {
                self.counted() < u128::from(turns) && matches!(end, LogEnd::Fault(_, _, _))
            }
            Why::Memory => self.counted() < u128::from(turns),
        }
    }

    /// How many turns are counted.
    fn counted(self) -> u128
        ensures { result ≡ counted self }
    {
        self.committed as u128 + u128::from(self.idle) + u128::from(self.stale)
    }
}

impl Why {
    /// The reason once one more turn is taken.
    fn resumed(self) -> Why
        ensures { result ≡ resumed self }
    {
        match self {
            Why::TurnsDone => Why::Stopped,
            Why::Faulted | Why::Stopped | Why::Memory => self,
        }
    }
}

/// Whether all workers have ended, where each has so many turns and the log ends so.
pub fn have_ended(reports: &[Report], turns: u64, end: LogEnd) -> bool
    ensures { IsTrue result ↔ HaveEnded turns (log_end end) reports.now }
{
    for report in reports {
        if !report.has_ended(turns, end) {
            return false;
        }
    }
    true
}
