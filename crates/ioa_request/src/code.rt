//! Codes of refusals and failures, and how they are spelled.

ghost use Rattle.std.specs.Prelude.{◌≡◌, true, IfSome, IfNone, find, option_map};
ghost use Rattle.ioa_request.specs.Codes.{spelling};
ghost use Rattle.ioa_request.specs.Pasted.{reads};

use crate::pasted::reads;
use std::convert::AsStr;
use std::fmt;

/// The codes by which the program prints why something was not done, and by which it explains that.
#[derive(Clone, Copy, Debug, PartialEq, Eq)]
pub enum Code {
    E1,
    E2,
    E3,
    E4,
    E5,
    E6,
    E7,
    E8,
    E9,
    E10,
    E11,
    E12,
    E13,
    E14,
    E15,
    E16,
    E17,
    O1,
    O2,
    O3,
    O4,
    O5,
    O6,
    O7,
    L1,
    L2,
    L3,
    L4,
    L5,
    L6,
    L7,
    L8,
    N1,
    N2,
    N3,
    N4,
    N5,
    Words,
    Object,
    Memory,
    Io,
}

impl Code {
    ghost use Rattle.ioa_request.specs.declared.code.Code.{Code};

    /// Each code, once.
    pub const ALL: [Code; 41] = [
        Code::E1,
        Code::E2,
        Code::E3,
        Code::E4,
        Code::E5,
        Code::E6,
        Code::E7,
        Code::E8,
        Code::E9,
        Code::E10,
        Code::E11,
        Code::E12,
        Code::E13,
        Code::E14,
        Code::E15,
        Code::E16,
        Code::E17,
        Code::O1,
        Code::O2,
        Code::O3,
        Code::O4,
        Code::O5,
        Code::O6,
        Code::O7,
        Code::L1,
        Code::L2,
        Code::L3,
        Code::L4,
        Code::L5,
        Code::L6,
        Code::L7,
        Code::L8,
        Code::N1,
        Code::N2,
        Code::N3,
        Code::N4,
        Code::N5,
        Code::Words,
        Code::Object,
        Code::Memory,
        Code::Io,
    ];

    /// As it is printed.
    pub fn spelling(self) -> &'static str
        ensures { result.now ≡ spelling self }
    {
        match self {
            Code::E1 => "E1",
            Code::E2 => "E2",
            Code::E3 => "E3",
            Code::E4 => "E4",
            Code::E5 => "E5",
            Code::E6 => "E6",
            Code::E7 => "E7",
            Code::E8 => "E8",
            Code::E9 => "E9",
            Code::E10 => "E10",
            Code::E11 => "E11",
            Code::E12 => "E12",
            Code::E13 => "E13",
            Code::E14 => "E14",
            Code::E15 => "E15",
            Code::E16 => "E16",
            Code::E17 => "E17",
            Code::O1 => "O1",
            Code::O2 => "O2",
            Code::O3 => "O3",
            Code::O4 => "O4",
            Code::O5 => "O5",
            Code::O6 => "O6",
            Code::O7 => "O7",
            Code::L1 => "L1",
            Code::L2 => "L2",
            Code::L3 => "L3",
            Code::L4 => "L4",
            Code::L5 => "L5",
            Code::L6 => "L6",
            Code::L7 => "L7",
            Code::L8 => "L8",
            Code::N1 => "N1",
            Code::N2 => "N2",
            Code::N3 => "N3",
            Code::N4 => "N4",
            Code::N5 => "N5",
            Code::Words => "words",
            Code::Object => "object",
            Code::Memory => "memory",
            Code::Io => "io",
        }
    }

    /// The code that is spelled so, in capitals or not, if there is one.
    pub fn find(word: &[u8]) -> Option<Code>
        ensures some { IfSome result (λ code. reads (spelling code) word.now ≡ true) }
        ensures none { IfNone result ((code : Code) → reads (spelling code) word.now ≡ true → ⊥) }
    {
        first_spelled(Code::ALL.as_slice(), word).copied()
    }
}

/// The first of the codes that is spelled so, in capitals or not.
fn first_spelled<'a>(codes: &'a [Code], word: &[u8]) -> Option<&'a Code>
    ensures { option_map (λ c. c.now) result ≡ find (λ c. reads (spelling c) word.now) codes.now }
{
    codes
        .iter()
        .find(|code| reads(code.spelling().as_bytes(), word))
}

impl AsStr for Code {
    ghost use Rattle.ioa_request.specs.Codes.{spelling};

    ghost text = { λ code. spelling code };

    fn as_str(&self) -> &str {
        self.spelling()
    }
}

impl fmt::Display for Code {
    ghost use Rattle.std.specs.Prelude.{Some};
    ghost use Rattle.ioa_request.specs.Codes.{spelling};

    ghost output = { λ code. Some (spelling code) };

    fn fmt<W: fmt::Write>(&self, f: &mut fmt::Formatter<W>) -> fmt::Result {
        f.write_str(self.spelling())
    }
}
