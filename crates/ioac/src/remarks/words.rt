//! What is wrong with a source of which a failure tells, in words: the byte, the token or the name, where it is known.

ghost use Rattle.std.specs.Prelude.{IfOk};
ghost use Rattle.std.specs.String.{string_bytes};
ghost use Rattle.ioac.specs.Worded as spec;

use ioa_causes::words::{general, of_refusal};
use ioa_serving::Failure;
use ioa_value::OutOfMemory;
use std::alloc::Global;

/// What is wrong with a source, of which a failure tells.
pub fn of_source(alloc: Global, failure: &Failure, source: &Vec<u8>) -> Result<String, OutOfMemory>
    ensures { IfOk result (λ words. spec.TellsCause failure.now source.now.items (string_bytes words)) }
{
    of_text(alloc, failure, source.as_slice())
}

fn of_text(alloc: Global, failure: &Failure, source: &[u8]) -> Result<String, OutOfMemory>
    ensures { IfOk result (λ words. spec.TellsCause failure.now source.now (string_bytes words)) }
{
    match failure {
        Failure::Refused(refusal) => of_refusal(alloc, refusal, source),
        Failure::List(_)
        | Failure::RunLog(_)
        | Failure::BadInput(_)
        | Failure::BadWords(_)
        | Failure::BadLog(_)
        | Failure::Object(_)
        | Failure::SpecHasInternal
        | Failure::SourceWanted
        | Failure::TooManyTurns
        | Failure::Threads
        | Failure::EndedByFault
        | Failure::Io
        | Failure::OutOfMemory => general(alloc, failure.code()),
    }
}
