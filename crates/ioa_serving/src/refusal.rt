//! Refusals of sources as they are printed.

ghost use Rattle.std.specs.Prelude.{◌≡◌, Some};
ghost use Rattle.ioa_serving.specs.FailureCodes as codes;
ghost use Rattle.ioa_serving.specs.Printed.{refusal_details};
ghost use Rattle.ioa_serving.specs.Statuses as statuses;

use crate::status::Status;
use ioa_request::Code;
use ioa_syntax::Refusal;
use std::fmt;

/// The code of a refusal of a source.
pub fn refusal_code(refusal: &Refusal) -> Code
    ensures { result ≡ codes.refusal_code refusal.now }
{
    match refusal {
        Refusal::TextTooLong => Code::E1,
        Refusal::BadByte(_) => Code::E2,
        Refusal::Syntax(_) => Code::E3,
        Refusal::TooDeep(_) => Code::E4,
        Refusal::DuplicateName(_) => Code::E5,
        Refusal::UnknownName(_) => Code::E6,
        Refusal::TypeMismatch(_) => Code::E7,
        Refusal::BadSignature(_) => Code::E8,
        Refusal::NoProposal(_) => Code::E9,
        Refusal::TooMany(_) => Code::E10,
        Refusal::TooWide(_) => Code::E11,
        Refusal::ArgMismatch(_) => Code::E12,
        Refusal::CrashName(_) => Code::E13,
        Refusal::Clash(_, _, _) => Code::E14,
        Refusal::HiddenUnknown(_) => Code::E15,
        Refusal::StartFault(_, _) => Code::E16,
        Refusal::NoComposition => Code::E17,
        Refusal::OutOfMemory => Code::Memory,
    }
}

/// What is printed of a refusal after its code: its line, its components, its name.
#[derive(Clone, Copy, Drop)]
pub struct Details<'a>(pub &'a Refusal);

impl<'a> fmt::Display for Details<'a> {
    ghost output = { λ details. Some (refusal_details details.0.now) };

    fn fmt<W: fmt::Write>(&self, f: &mut fmt::Formatter<W>) -> fmt::Result {
        match self.0 {
            Refusal::BadByte(line)
            | Refusal::Syntax(line)
            | Refusal::TooDeep(line)
            | Refusal::DuplicateName(line)
            | Refusal::UnknownName(line)
            | Refusal::TypeMismatch(line)
            | Refusal::BadSignature(line)
            | Refusal::NoProposal(line)
            | Refusal::TooMany(line)
            | Refusal::TooWide(line) => write!(f, " line {line}"),
            Refusal::ArgMismatch(i) | Refusal::CrashName(i) => write!(f, " component {i}"),
            Refusal::Clash(i, j, name) => write!(f, " components {i} and {j} on {name}"),
            Refusal::HiddenUnknown(name) => write!(f, " {name}"),
            Refusal::StartFault(i, fault) => {
                let number = fault.number();
                write!(f, " component {i} fault {number}")
            }
            Refusal::TextTooLong | Refusal::NoComposition | Refusal::OutOfMemory => Ok(()),
        }
    }
}

/// The exit status of a source that is refused so.
pub fn refusal_status(refusal: &Refusal) -> Status
    ensures { result ≡ statuses.refusal_status refusal.now }
{
    match refusal {
        Refusal::TextTooLong
        | Refusal::BadByte(_)
        | Refusal::Syntax(_)
        | Refusal::TooDeep(_)
        | Refusal::DuplicateName(_)
        | Refusal::UnknownName(_)
        | Refusal::TypeMismatch(_)
        | Refusal::BadSignature(_)
        | Refusal::NoProposal(_)
        | Refusal::TooMany(_)
        | Refusal::TooWide(_)
        | Refusal::ArgMismatch(_)
        | Refusal::CrashName(_)
        | Refusal::Clash(_, _, _)
        | Refusal::HiddenUnknown(_)
        | Refusal::StartFault(_, _)
        | Refusal::NoComposition => Status::Refused,
        Refusal::OutOfMemory => Status::Unable,
    }
}
