//! What the program explains.

use crate::code::Code;
use ioa_arithmetic::Fault;
use std::fmt;

/// What can be explained: what the program prints where something is refused, faults, ends, or is as it should be.
#[derive(Clone, Copy, Debug, PartialEq, Eq)]
pub enum Topic {
    /// A code.
    Code(Code),
    /// An operator that has no value.
    Fault(Fault),
    /// A list or a log whose actions were all performed.
    Done,
    /// An action that no component has.
    NotAnAction,
    /// An action whose precondition is false.
    NotEnabled,
    /// An action that has a name of a specification's, and is none of its actions.
    PassedOver,
    /// A log of which a specification takes no action.
    NothingTaken,
    /// An invariant that a state breaks.
    Broken,
    /// A file or a log that is as it should be.
    Fine,
}

impl fmt::Display for Topic {
    ghost use Rattle.std.specs.Prelude.{Some};
    ghost use Rattle.ioa_request.specs.Explained.{title};

    ghost output = { λ topic. Some (title topic) };

    fn fmt<W: fmt::Write>(&self, f: &mut fmt::Formatter<W>) -> fmt::Result {
        match self {
            Topic::Code(code) => write!(f, "{code}"),
            Topic::Fault(fault) => {
                let number = fault.number();
                write!(f, "fault {number}")
            }
            Topic::Done => f.write_str("done"),
            Topic::NotAnAction => f.write_str("not an action"),
            Topic::NotEnabled => f.write_str("not enabled"),
            Topic::PassedOver => f.write_str("passed over"),
            Topic::NothingTaken => f.write_str("nothing taken"),
            Topic::Broken => f.write_str("invariant broken"),
            Topic::Fine => f.write_str("ok"),
        }
    }
}
