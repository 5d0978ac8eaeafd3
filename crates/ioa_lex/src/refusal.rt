//! Refusals of texts, sources and compositions: one type for all crates that may refuse them.

use ioa_value::{Fault, OutOfMemory};
use std::alloc::{AllocError, AllocFailed};
use std::error::Error;
use std::fmt;

/// Why a source, or a composition of it, is refused. Lines count from 1, components from 0.
#[derive(Debug, Drop)]
pub enum Refusal {
    /// The text has more than 1,048,576 bytes.
    TextTooLong,
    /// The text is no list of tokens: a byte on this line begins none, a name has more than 64 bytes, or a number is
    /// too large.
    BadByte(u32),
    /// No source begins with the tokens up to one on this line.
    Syntax(u32),
    /// An expression or a statement of the declaration on this line is more than 64 deep.
    TooDeep(u32),
    /// A name is declared twice.
    DuplicateName(u32),
    /// A name is not declared, or not before its use, or may not stand here.
    UnknownName(u32),
    /// An expression has another type than its place wants.
    TypeMismatch(u32),
    /// Entries and transitions do not match one to one, or an input has a precondition or a proposal.
    BadSignature(u32),
    /// A parameter of a local transition that is neither Bool nor an enumeration has no proposal.
    NoProposal(u32),
    /// A limit of the language is passed.
    TooMany(u32),
    /// A type takes more than 4,096 words.
    TooWide(u32),
    /// A component's arguments are not those of its automaton's formals.
    ArgMismatch(usize),
    /// A component's crash and recover are one name, or one of them names an entry of its automaton.
    CrashName(usize),
    /// Two components are not compatible: an action of this name is an output of both, or internal to one of them.
    Clash(usize, usize, String),
    /// A hidden name is no component's output.
    HiddenUnknown(String),
    /// An argument or a start expression of a component faults.
    StartFault(usize, Fault),
    /// There is no composition of this name.
    NoComposition,
    /// A growth of memory was refused.
    OutOfMemory,
}

impl Refusal {
    // The number that it names first, of a line or of a component.
    fn number(&self) -> Option<usize> {
        match self {
            Refusal::BadByte(line)
            | Refusal::Syntax(line)
            | Refusal::TooDeep(line)
            | Refusal::DuplicateName(line)
            | Refusal::UnknownName(line)
            | Refusal::TypeMismatch(line)
            | Refusal::BadSignature(line)
            | Refusal::NoProposal(line)
            | Refusal::TooMany(line)
            | Refusal::TooWide(line) => Some(*line as usize),
            Refusal::ArgMismatch(component)
            | Refusal::CrashName(component)
            | Refusal::Clash(component, _, _)
            | Refusal::StartFault(component, _) => Some(*component),
            Refusal::TextTooLong
            | Refusal::HiddenUnknown(_)
            | Refusal::NoComposition
            | Refusal::OutOfMemory => None,
        }
    }

    // The words before that number.
    fn head(&self) -> &str {
        match self {
            Refusal::BadByte(_)
            | Refusal::Syntax(_)
            | Refusal::TooDeep(_)
            | Refusal::DuplicateName(_)
            | Refusal::UnknownName(_)
            | Refusal::TypeMismatch(_)
            | Refusal::BadSignature(_)
            | Refusal::NoProposal(_)
            | Refusal::TooMany(_)
            | Refusal::TooWide(_) => "line ",
            Refusal::ArgMismatch(_) | Refusal::CrashName(_) | Refusal::StartFault(_, _) => {
                "component "
            }
            Refusal::Clash(_, _, _) => "components ",
            Refusal::HiddenUnknown(name) => name.as_str(),
            Refusal::TextTooLong | Refusal::NoComposition | Refusal::OutOfMemory => "",
        }
    }

    // The words that follow it.
    fn text(&self) -> &'static str {
        match self {
            Refusal::TextTooLong => "the text is longer than 1048576 bytes",
            Refusal::BadByte(_) => ": no token begins here",
            Refusal::Syntax(_) => ": no declaration continues so",
            Refusal::TooDeep(_) => ": this declaration is more than 64 deep",
            Refusal::DuplicateName(_) => ": this name is declared already",
            Refusal::UnknownName(_) => ": this name is not known here",
            Refusal::TypeMismatch(_) => ": this has another type than its place wants",
            Refusal::BadSignature(_) => ": signature and transitions do not match here",
            Refusal::NoProposal(_) => ": a parameter of this transition has no proposal",
            Refusal::TooMany(_) => ": there are too many of these",
            Refusal::TooWide(_) => ": this type takes more than 4096 words",
            Refusal::ArgMismatch(_) => ": the arguments are not those of the automaton",
            Refusal::CrashName(_) => ": crash or recover has a name that is taken",
            Refusal::Clash(_, _, _) => " and ",
            Refusal::HiddenUnknown(_) => " is hidden, and no output",
            Refusal::StartFault(_, _) => ": the start ends by fault ",
            Refusal::NoComposition => "there is no such composition",
            Refusal::OutOfMemory => "memory",
        }
    }
}

/// Written out, in pieces: derived, each variant would have a `write!` of its own, and its proof takes long.
impl fmt::Display for Refusal {
    fn fmt<W: fmt::Write>(&self, f: &mut fmt::Formatter<W>) -> fmt::Result {
        f.write_str(self.head())?;
        if let Some(number) = self.number() {
            write!(f, "{number}")?;
        }
        f.write_str(self.text())?;
        match self {
            Refusal::Clash(_, other, name) => write!(f, "{other} clash on {name}"),
            Refusal::StartFault(_, fault) => write!(f, "{fault:?}"),
            _ => Ok(()),
        }
    }
}

impl Error for Refusal {}

impl From<OutOfMemory> for Refusal {
    ghost use Rattle.std.specs.Prelude.{◌≡◌};
    ghost use Rattle.ioa_lex.specs.declared.refusal.Refusal.TheVariants as refusals;

    ghost from_gives = { λ _ r. r ≡ refusals.OutOfMemory };

    fn from(_error: OutOfMemory) -> Refusal {
        Refusal::OutOfMemory
    }
}

impl From<AllocError> for Refusal {
    ghost use Rattle.std.specs.Prelude.{◌≡◌};
    ghost use Rattle.ioa_lex.specs.declared.refusal.Refusal.TheVariants as refusals;

    ghost from_gives = { λ _ r. r ≡ refusals.OutOfMemory };

    fn from(_error: AllocError) -> Refusal {
        Refusal::OutOfMemory
    }
}

impl<T: Drop> From<AllocFailed<T>> for Refusal {
    ghost use Rattle.std.specs.Prelude.{◌≡◌};
    ghost use Rattle.ioa_lex.specs.declared.refusal.Refusal.TheVariants as refusals;

    ghost from_gives = { λ _ r. r ≡ refusals.OutOfMemory };

    fn from(_error: AllocFailed<T>) -> Refusal {
        Refusal::OutOfMemory
    }
}
