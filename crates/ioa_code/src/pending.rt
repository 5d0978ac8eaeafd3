//! What the ways of code bring to places further on, where they have to agree.

ghost use Rattle.std.specs.Prelude.{◌≡◌, ◌<◌, ◌+◌, ◌∷◌, [], length, slice_get, Some, IfOk};
ghost use Rattle.ioa_code.specs.Stacks.{listed};
ghost use Rattle.ioa_code.specs.Pending.{Meets, AreBelow, Brings, IsFirst};

use crate::exits::{Exit, Exits};
use crate::stacks::{Stacks, same};
use std::alloc::{AllocError, Global};

/// What the ways from earlier places have brought to a place.
#[derive(Clone, Copy)]
pub(crate) enum Pending {
    /// No way comes.
    Nothing,
    /// The ways bring the stack of this number.
    Stack(usize),
    /// The ways bring different stacks.
    Clash,
}

// Before the first of this many instructions.
pub(crate) fn first(alloc: Global, instrs: usize) -> Result<Vec<Pending>, AllocError>
    ensures long { IfOk result (λ p. length p.items ≡ instrs + 1) }
    ensures first { IfOk result (λ p. IsFirst p.items) }
{
    let mut pending = Vec::new(alloc);
    pending.push(Pending::Stack(0))?;
    for _i in 0..instrs {
        pending.push(Pending::Nothing)?;
    }
    Ok(pending)
}

// One more stack comes to a place.
fn meet(stacks: &Stacks, had: Pending, stack: usize) -> Pending
    ensures { Meets stacks.now had stack result }
{
    match had {
        Pending::Nothing => Pending::Stack(stack),
        Pending::Stack(other) => {
            if same(stacks, other, stack) {
                Pending::Stack(other)
            } else {
                Pending::Clash
            }
        }
        Pending::Clash => Pending::Clash,
    }
}

// The exit's stack comes to its place.
fn bring(stacks: &Stacks, pending: &mut Vec<Pending>, exit: Exit)
    requires { exit.to < length pending.old.items }
    ensures { Brings stacks.now pending.old.items pending.new.items (exit ∷ []) }
{
    let next = meet(stacks, pending[exit.to], exit.stack);
    pending[exit.to] = next;
}

// Each exit's stack comes to its place.
pub(crate) fn bring_on(stacks: &Stacks, pending: &mut Vec<Pending>, exits: Exits)
    requires { AreBelow (length pending.old.items) (listed exits) }
    ensures { Brings stacks.now pending.old.items pending.new.items (listed exits) }
{
    match exits {
        Exits::Back => {}
        Exits::One(exit) => bring(stacks, pending, exit),
        Exits::Two(first, second) => {
            bring(stacks, pending, first);
            bring(stacks, pending, second);
        }
    }
}

// What is pending at a place.
pub(crate) fn at(pending: &[Pending], place: usize) -> Pending
    requires { place < length pending.now }
    ensures { slice_get pending.now place ≡ Some result }
{
    pending[place]
}
