//! Values that are read where they are, and copied only where they have to be.

ghost use Rattle.std.specs.Prelude.{◌≡◌, IfOk};
ghost use Rattle.ioa_value.specs.Operators.{answer_of};
ghost use Rattle.ioa_value.specs.Plain.{plain};
ghost use Rattle.ioa_compose.specs.Givens.{given, answer_in};

use ioa_value::{Fault, OutOfMemory, Value};
use std::alloc::Global;

/// What an expression gives: a value of its scope, which is lent, or a part of one; or a value of its own.
pub(crate) enum Given<'a> {
    Lent(&'a Value),
    Own(Value),
}

/// Written out, so that who drops one calls this, and does not take it apart itself.
impl Drop for Given<'_> {
    fn drop(self) {
        match self {
            Given::Lent(_) => {}
            Given::Own(_) => {}
        }
    }
}

impl<'a> Given<'a> {
    /// The value.
    pub(crate) fn value(&self) -> &Value
        ensures { plain result.now ≡ given self.now }
    {
        match self {
            Given::Lent(value) => value,
            Given::Own(value) => value,
        }
    }

    /// The value, which is copied where it is lent.
    pub(crate) fn into_value(self, alloc: Global) -> Result<Value, OutOfMemory>
        ensures { IfOk result (λ value. plain value ≡ given self.entry) }
    {
        match self {
            Given::Lent(value) => value.try_copy(alloc),
            Given::Own(value) => Ok(value),
        }
    }
}

/// The value or fault of its own.
pub(crate) fn owned<'a>(answer: Result<Value, Fault>) -> Result<Given<'a>, Fault>
    ensures { answer_in result ≡ answer_of answer }
{
    match answer {
        Ok(value) => Ok(Given::Own(value)),
        Err(fault) => Err(fault),
    }
}
