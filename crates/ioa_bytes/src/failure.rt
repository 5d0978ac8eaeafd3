//! Refusals of bytes that are no object, by the place at which they fail.

use ioa_value::OutOfMemory;
use std::alloc::{AllocError, AllocFailed};
use std::error::Error;
use std::fmt;

/// Why bytes are not an object. Bytes and parts of code count from 0.
#[derive(Clone, Copy, Debug, PartialEq, Eq)]
pub enum ObjErr {
    /// The first four bytes are not all there, or are others.
    Magic,
    /// The byte is no version's, or the program has no need of the version.
    Version,
    /// The bytes end inside an item.
    Truncated,
    /// Bytes follow the end of the object.
    Trailing,
    /// The tag, the number, the name or the payload that begins at this byte is wrong.
    BadTable(usize),
    /// The part of code of this number, in the order of the bytes, is not valid at this place.
    BadCode(usize, usize),
    /// Two components clash.
    Clash,
    /// A growth of memory was refused.
    OutOfMemory,
}

impl ObjErr {
    // What is wrong, without where.
    fn text(self) -> &'static str {
        match self {
            ObjErr::Magic => "no object",
            ObjErr::Version => "another version",
            ObjErr::Truncated => "the object is cut",
            ObjErr::Trailing => "bytes follow the object",
            ObjErr::BadTable(_) | ObjErr::BadCode(_, _) => "is wrong",
            ObjErr::Clash => "components clash",
            ObjErr::OutOfMemory => "memory",
        }
    }
}

impl fmt::Display for ObjErr {
    fn fmt<W: fmt::Write>(&self, f: &mut fmt::Formatter<W>) -> fmt::Result {
        let text = self.text();
        match self {
            ObjErr::BadTable(byte) => write!(f, "byte {byte} {text}"),
            ObjErr::BadCode(part, place) => write!(f, "part {part} {text} at place {place}"),
            ObjErr::Magic
            | ObjErr::Version
            | ObjErr::Truncated
            | ObjErr::Trailing
            | ObjErr::Clash
            | ObjErr::OutOfMemory => f.write_str(text),
        }
    }
}

impl Error for ObjErr {}

impl From<OutOfMemory> for ObjErr {
    ghost use Rattle.std.specs.Prelude.{◌≡◌};
    ghost use Rattle.ioa_bytes.specs.declared.failure.ObjErr.TheVariants as errors;

    ghost from_gives = { λ _ e. e ≡ errors.OutOfMemory };

    fn from(_error: OutOfMemory) -> ObjErr {
        ObjErr::OutOfMemory
    }
}

impl From<AllocError> for ObjErr {
    ghost use Rattle.std.specs.Prelude.{◌≡◌};
    ghost use Rattle.ioa_bytes.specs.declared.failure.ObjErr.TheVariants as errors;

    ghost from_gives = { λ _ e. e ≡ errors.OutOfMemory };

    fn from(_error: AllocError) -> ObjErr {
        ObjErr::OutOfMemory
    }
}

impl<T: Drop> From<AllocFailed<T>> for ObjErr {
    ghost use Rattle.std.specs.Prelude.{◌≡◌};
    ghost use Rattle.ioa_bytes.specs.declared.failure.ObjErr.TheVariants as errors;

    ghost from_gives = { λ _ e. e ≡ errors.OutOfMemory };

    fn from(_error: AllocFailed<T>) -> ObjErr {
        ObjErr::OutOfMemory
    }
}
