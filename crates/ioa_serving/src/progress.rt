//! How far one worker of a run on threads has come, and whether others wait for it.

ghost use Rattle.std.specs.Prelude.{◌≡◌};
ghost use Rattle.ioa_serving.specs.Pacing.{given_up, heeds, is_ahead, is_awaited, is_behind, next, unseen};

/// How many turns a worker may be ahead of another of its group.
pub(crate) const LEAD: u64 = 3;

/// How far a worker of a run on threads has come, so far as its gate has seen.
#[derive(Clone, Copy, Debug, PartialEq, Eq)]
pub struct Progress {
    /// Its group: of those of another it is independent.
    pub group: usize,
    /// How many turns it has begun.
    pub begun: u64,
    /// Whether another has waited for it in vain since it began the last of them.
    pub is_lost: bool,
}

impl Progress {
    /// The progress of a worker of this group of which nothing was seen.
    pub(crate) fn unseen(group: usize) -> Progress
        ensures { result ≡ unseen group }
    {
        Progress {
            group,
            begun: 0,
            is_lost: false,
        }
    }

    /// The progress once the worker begins one more turn.
    pub(crate) fn next(self) -> Progress
        ensures { result ≡ next self }
    {
        Progress {
            group: self.group,
            begun: self.begun.saturating_add(1),
            is_lost: false,
        }
    }

    /// Whether the worker looks at this other one: it is of its group, or has begun no turn.
    fn heeds(self, other: Progress) -> bool
        ensures { result ≡ heeds self other }
    {
        other.group == self.group || other.begun == 0
    }

    /// Whether this other one has still to begin as many turns, and nobody has waited for it in vain.
    pub(crate) fn has_behind(self, other: Progress) -> bool
        ensures { result ≡ is_behind self other }
    {
        self.heeds(other) && !other.is_lost && other.begun < self.begun
    }

    /// Whether the worker has to wait for this other one, which has begun no turn, or is too far behind.
    pub(crate) fn awaits(self, other: Progress) -> bool
        ensures { result ≡ is_awaited self other }
    {
        self.has_behind(other)
            && (other.begun == 0 || other.begun.saturating_add(LEAD) < self.begun)
    }

    /// Whether this other one has begun more turns, but no more than it may.
    pub(crate) fn has_ahead(self, other: Progress) -> bool
        ensures { result ≡ is_ahead self other }
    {
        self.heeds(other) && self.begun < other.begun && other.begun - self.begun <= LEAD
    }

    /// The progress of the worker once who has come so far has waited in vain.
    pub(crate) fn given_up(self, who: Progress) -> Progress
        ensures { result ≡ given_up who self }
    {
        Progress {
            group: self.group,
            begun: self.begun,
            is_lost: self.is_lost || who.awaits(self),
        }
    }
}
