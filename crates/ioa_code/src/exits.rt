//! The ways on from an instruction, which have to lead forward.

ghost use Rattle.std.specs.Prelude.{◌≡◌, ◌+◌, ◌<◌, ◌^◌, ◌&&◌, nat_lt, nat_le, map};
ghost use Rattle.ioa_code.specs.Scan.{all_forward};
ghost use Rattle.ioa_code.specs.Stacks.{listed, next_exit, both_exits};

use crate::reason::Reason;

/// A place to which an instruction leads, and the number of the stack that it brings there.
#[derive(Clone, Copy)]
pub(crate) struct Exit {
    pub(crate) to: usize,
    pub(crate) stack: usize,
}

/// Where an instruction leads.
#[derive(Clone, Copy)]
pub(crate) enum Exits {
    /// Back alone, to where it came from.
    Back,
    One(Exit),
    Two(Exit, Exit),
}

// With this stack to the next place.
pub(crate) fn to_next(place: usize, stack: Result<usize, Reason>) -> Result<Exits, Reason>
    requires { place + 1 < 2 ^ 64 }
    ensures { result ≡ next_exit place stack }
{
    match stack {
        Ok(stack) => Ok(Exits::One(Exit {
            to: place + 1,
            stack,
        })),
        Err(why) => Err(why),
    }
}

// With this stack to place `to`, and to the next place.
pub(crate) fn to_either(
    to: usize,
    place: usize,
    stack: Result<usize, Reason>,
) -> Result<Exits, Reason>
    requires { place + 1 < 2 ^ 64 }
    ensures { result ≡ both_exits to place stack }
{
    match stack {
        Ok(stack) => Ok(Exits::Two(
            Exit { to, stack },
            Exit {
                to: place + 1,
                stack,
            },
        )),
        Err(why) => Err(why),
    }
}

// Whether each exit leads forward, and at most to the end.
pub(crate) fn are_forward(exits: Exits, place: usize, end: usize) -> bool
    ensures { result ≡ all_forward end place (map (λ e. e.to) (listed exits)) }
{
    match exits {
        Exits::Back => true,
        Exits::One(exit) => is_forward(exit, place, end),
        Exits::Two(first, second) => {
            is_forward(first, place, end) && is_forward(second, place, end)
        }
    }
}

fn is_forward(exit: Exit, place: usize, end: usize) -> bool
    ensures { result ≡ (nat_lt place exit.to && nat_le exit.to end) }
{
    place < exit.to && exit.to <= end
}
