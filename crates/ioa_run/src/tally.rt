//! Tallies: which of its own entries a component tried in its turns, and what came of those in which it performed nothing.

ghost use Rattle.std.specs.Prelude.{◌≡◌, IfOk, map, replicate};
ghost use Rattle.ioa_compile.specs.Shown.{member_code};
ghost use Rattle.ioa_run.specs.Tallies as spec;
ghost use Rattle.ioa_run.specs.Tallies.{followed, no_tries, report_at, tallied, tally_of, with_lost, with_stale};
ghost use Rattle.ioa_run.specs.Turns.{changed};

use crate::locals::local_count;
use ioa_board::{Report, Room};
use ioa_compile::Member;
use ioa_value::OutOfMemory;
use std::alloc::Global;

/// Why a turn is idle in which a component has an entry to try.
#[derive(Clone, Copy)]
pub(crate) enum Lost {
    /// The entry's proposal has nothing to give.
    NoProposal,
    /// The entry's proposal faults.
    ProposalFaulted,
    /// The action that it gives is not enabled.
    NotEnabled,
}

/// Which entry a turn tries, by the word that picks it, and why the turn is idle, if it is.
#[derive(Clone, Copy)]
pub(crate) struct Pick {
    pub word: u32,
    pub lost: Lost,
}

impl Pick {
    /// What stands for it before a word is taken, and where there is no entry to pick.
    pub(crate) fn none() -> Pick
        ensures { result ≡ spec.no_pick }
    {
        Pick {
            word: 0,
            lost: Lost::NoProposal,
        }
    }
}

/// What came of the turns in which a component tried one of its own entries, but for those in which it performed an action of it, which the log counts, and the
/// one by which its action, or another's fault, ended its turns.
#[derive(Clone, Copy, Debug, PartialEq, Eq)]
pub struct Tries {
    /// The proposal had nothing to give.
    pub no_proposal: u64,
    /// The proposal faulted.
    pub proposal_faulted: u64,
    /// The action was not enabled.
    pub not_enabled: u64,
    /// The plan came too late.
    pub stale: u64,
}

impl Tries {
    fn none() -> Tries
        ensures { result ≡ no_tries }
    {
        Tries {
            no_proposal: 0,
            proposal_faulted: 0,
            not_enabled: 0,
            stale: 0,
        }
    }

    /// Behind a turn that changes the worker's report: it is idle, for this reason, or stale, or neither.
    fn followed(self, lost: Lost, before: Report, after: Report) -> Tries
        ensures { result ≡ followed lost before after self }
    {
        if before.idle < after.idle {
            self.with_lost(lost)
        } else if before.stale < after.stale {
            self.with_stale()
        } else {
            self
        }
    }

    /// With one more idle turn.
    fn with_lost(self, lost: Lost) -> Tries
        ensures { result ≡ with_lost lost self }
    {
        let Tries {
            no_proposal,
            proposal_faulted,
            not_enabled,
            stale,
        } = self;
        match lost {
            Lost::NoProposal => Tries {
                no_proposal: no_proposal.saturating_add(1),
                proposal_faulted,
                not_enabled,
                stale,
            },
            Lost::ProposalFaulted => Tries {
                no_proposal,
                proposal_faulted: proposal_faulted.saturating_add(1),
                not_enabled,
                stale,
            },
            Lost::NotEnabled => Tries {
                no_proposal,
                proposal_faulted,
                not_enabled: not_enabled.saturating_add(1),
                stale,
            },
        }
    }

    /// With one more plan that came too late.
    fn with_stale(self) -> Tries
        ensures { result ≡ with_stale self }
    {
        Tries {
            no_proposal: self.no_proposal,
            proposal_faulted: self.proposal_faulted,
            not_enabled: self.not_enabled,
            stale: self.stale.saturating_add(1),
        }
    }
}

/// What came of a component's turns, beside its report.
#[derive(Drop)]
pub struct Tally {
    /// Of each of its outputs and internal actions, in the order of its entries.
    pub entries: Vec<Tries>,
}

impl Tally {
    /// The tally of a component with so many entries of its own, which has taken no turn yet.
    fn blank(alloc: Global, count: usize) -> Result<Tally, OutOfMemory>
        ensures { IfOk result (λ t. tally_of t ≡ replicate count no_tries) }
    {
        let mut entries = Vec::new(alloc);
        for _ in 0..count {
            entries.push(Tries::none())?;
        }
        Ok(Tally { entries })
    }

    /// Counts a turn that changes the worker's report, under the entry that the word picks.
    fn follow(&mut self, pick: Pick, before: Report, after: Report)
        ensures { tally_of self.new ≡ tallied pick before after (tally_of self.old) }
    {
        let count = self.entries.len();
        if count == 0 {
            return;
        }
        let number = pick.word as usize % count;
        self.entries[number] = self.entries[number].followed(pick.lost, before, after);
    }
}

/// A tally without turns for each component.
pub(crate) fn blank_tallies(alloc: Global, members: &[Member]) -> Result<Vec<Tally>, OutOfMemory>
    ensures { IfOk result (λ tallies. map tally_of tallies.items ≡ map spec.blank (map member_code members.now)) }
{
    let mut tallies = Vec::new(alloc);
    for member in members {
        let tally = Tally::blank(alloc, local_count(&member.entries))?;
        tallies.push(tally)?;
    }
    Ok(tallies)
}

/// Counts a turn of the worker of this number, before which its report was this one. The environment, which has no entries, has no tally.
pub(crate) fn follow(
    tallies: &mut Vec<Tally>,
    room: &Room<'_>,
    who: usize,
    pick: Pick,
    before: Report,
)
    ensures { map tally_of tallies.new.items ≡ changed (tallied pick before (report_at room.now.reports who)) who (map tally_of tallies.old.items) }
{
    let after = report_of(room, who);
    if who < tallies.len() {
        tallies[who].follow(pick, before, after);
    }
}

/// The report of the worker of this number; past the workers one without turns.
pub(crate) fn report_of(room: &Room<'_>, who: usize) -> Report
    ensures { result ≡ report_at room.now.reports who }
{
    match room.reports().get(who) {
        Some(report) => *report,
        None => Report::blank(),
    }
}
