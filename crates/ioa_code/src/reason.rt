//! The conditions of valid code that may fail, in the order of their numbers.

ghost use Rattle.std.specs.Prelude.{◌≡◌};
ghost use Rattle.ioa_code.specs.Reasons.{number_of};

/// Why code is not valid.
#[derive(Clone, Copy)]
pub(crate) enum Reason {
    /// There is no such constant.
    NoConstant,
    /// There is no such variable.
    NoVariable,
    /// There is no such argument, or the instruction may not stand in this kind of part.
    NotAllowed,
    /// The stack is too short.
    TooShort,
    /// An operand has another type, or the values of a type are not counted.
    Mistyped,
    /// A way leads back, or past the end.
    NotForward,
    /// No way comes to the place, or two bring different stacks.
    NotOne,
    /// The stack at the end is not the result.
    WrongResult,
    /// A loop is not closed, or crosses another one or a jump, or is nested too deeply.
    BadLoop,
}

impl Reason {
    /// The number by which the reason is told.
    pub(crate) fn number(self) -> u8
        ensures { result ≡ number_of self }
    {
        match self {
            Reason::NoConstant => 1,
            Reason::NoVariable => 2,
            Reason::NotAllowed => 3,
            Reason::TooShort => 4,
            Reason::Mistyped => 5,
            Reason::NotForward => 6,
            Reason::NotOne => 7,
            Reason::WrongResult => 8,
            Reason::BadLoop => 9,
        }
    }
}
