//! Failures of reading, which tell how many tokens are left, and not yet a line.

use std::alloc::{AllocError, AllocFailed};

/// Why the tokens do not go on as the grammar wants.
#[derive(Clone, Copy)]
pub enum Fault {
    /// Nothing goes on with the token before whose end so many are left, itself among them.
    Syntax(usize),
    /// An expression is deeper than it may be.
    TooDeep,
}

/// Why nothing was read.
#[derive(Clone, Copy)]
pub enum ReadError {
    /// A growth of memory was refused.
    OutOfMemory,
    /// The tokens do not go on so.
    Fault(Fault),
}

impl From<AllocError> for ReadError {
    ghost use Rattle.std.specs.Prelude.{◌≡◌};
    ghost use Rattle.ioa_grammar.specs.declared.fault.ReadError.TheVariants as errors;

    ghost from_gives = { λ _ e. e ≡ errors.OutOfMemory };

    fn from(_error: AllocError) -> ReadError {
        ReadError::OutOfMemory
    }
}

impl<T: Drop> From<AllocFailed<T>> for ReadError {
    ghost use Rattle.std.specs.Prelude.{◌≡◌};
    ghost use Rattle.ioa_grammar.specs.declared.fault.ReadError.TheVariants as errors;

    ghost from_gives = { λ _ e. e ≡ errors.OutOfMemory };

    fn from(_error: AllocFailed<T>) -> ReadError {
        ReadError::OutOfMemory
    }
}
