//! Refusals of objects as they are printed.

ghost use Rattle.std.specs.Prelude.{◌≡◌, Some};
ghost use Rattle.ioa_serving.specs.FailureCodes as codes;
ghost use Rattle.ioa_serving.specs.Printed.{object_details};
ghost use Rattle.ioa_serving.specs.Statuses as statuses;

use crate::status::Status;
use ioa_object::ObjErr;
use ioa_request::Code;
use std::fmt;

/// The code of an object that is refused.
pub fn object_code(error: ObjErr) -> Code
    ensures { result ≡ codes.object_code error }
{
    match error {
        ObjErr::Magic => Code::O1,
        ObjErr::Version => Code::O2,
        ObjErr::Truncated => Code::O3,
        ObjErr::Trailing => Code::O4,
        ObjErr::BadTable(_) => Code::O5,
        ObjErr::BadCode(..) => Code::O6,
        ObjErr::Clash => Code::O7,
        ObjErr::OutOfMemory => Code::Memory,
    }
}

/// What is printed of the refusal of an object after its code: its byte, or its part of code and the place in it.
#[derive(Clone, Copy, Drop)]
pub struct ObjectDetails(pub ObjErr);

impl fmt::Display for ObjectDetails {
    ghost output = { λ details. Some (object_details details.0) };

    fn fmt<W: fmt::Write>(&self, f: &mut fmt::Formatter<W>) -> fmt::Result {
        match self.0 {
            ObjErr::BadTable(byte) => write!(f, " byte {byte}"),
            ObjErr::BadCode(part, at) => write!(f, " part {part} at {at}"),
            ObjErr::Magic
            | ObjErr::Version
            | ObjErr::Truncated
            | ObjErr::Trailing
            | ObjErr::Clash
            | ObjErr::OutOfMemory => Ok(()),
        }
    }
}

/// The exit status of an object that is refused so.
pub fn object_status(error: ObjErr) -> Status
    ensures { result ≡ statuses.object_status error }
{
    match error {
        ObjErr::Magic
        | ObjErr::Version
        | ObjErr::Truncated
        | ObjErr::Trailing
        | ObjErr::BadTable(_)
        | ObjErr::BadCode(..)
        | ObjErr::Clash => Status::Refused,
        ObjErr::OutOfMemory => Status::Unable,
    }
}
