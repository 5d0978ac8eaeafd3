//! Gates, by which a caller sees where workers of a run on threads are, and can hold them there.

/// Where a worker of a run on threads is in its turn.
#[derive(Clone, Copy, Debug, PartialEq, Eq)]
pub enum Point {
    /// Its turn begins.
    Turn,
    /// It has a plan, which it has not committed yet.
    Planned,
    /// Its turn ends: the action was performed.
    Committed,
    /// Its turn ends: the plan came too late, or out of turn.
    Stale,
    /// Its turn ends: it had nothing to commit.
    Idle,
}

/// What a worker tells where it is, with no lock held; it may hold the worker there.
pub trait Gate {
    /// The worker of this number is there.
    fn reach(&self, who: usize, at: Point);
}

/// A gate that holds nobody.
#[derive(Clone, Copy, Debug)]
pub struct OpenGate;

impl Gate for OpenGate {
    fn reach(&self, _who: usize, _at: Point) {}
}
