//! Ends as members of a JSON object. No text in them has anything that JSON would escape.

ghost use Rattle.std.specs.Prelude.{◌≡◌, IfOk};
ghost use Rattle.std.specs.String.{string_bytes};
ghost use Rattle.ioa_system.specs.Outcomes.{ending_of};
ghost use Rattle.ioa_watch.specs.Json.{ending_json};

use ioa_system::End;
use ioa_value::OutOfMemory;
use std::alloc::Global;
use std::fmt::Write;

/// Which end it is, and the members with its numbers, as `"not enabled","index":3`.
pub fn ending_members(alloc: Global, end: End) -> Result<String, OutOfMemory>
    ensures { IfOk result (λ text. string_bytes text ≡ ending_json (ending_of end)) }
{
    let mut text = String::new(alloc);
    match end {
        End::Done(count) => write!(text, "\"done\",\"count\":{count}")?,
        End::NotAnAction(index) => write!(text, "\"not an action\",\"index\":{index}")?,
        End::NotEnabled(index) => write!(text, "\"not enabled\",\"index\":{index}")?,
        End::Fault(component, fault, index) => {
            let number = fault.number();
            write!(
                text,
                "\"fault\",\"fault\":{number},\"component\":{component},\"index\":{index}"
            )?;
        }
    }
    Ok(text)
}
