//! Combinations of values, by number.

ghost use Rattle.std.specs.Prelude.{◌≡◌, IfOk, map};
ghost use Rattle.std.specs.Option.{option_map};
ghost use Rattle.ioa_parts.specs.Proposals.{values_in};
ghost use Rattle.ioa_enabled.specs.Offers.{picked};

use ioa_value::{OutOfMemory, Value};
use std::alloc::Global;

/// The combination of this number, of a value for each place, by the values of the places; none where there are fewer. The first place changes the fastest.
pub(crate) fn combination(
    alloc: Global,
    columns: &[Vec<Value>],
    number: usize,
) -> Result<Option<Vec<Value>>, OutOfMemory>
    ensures { IfOk result (λ r. option_map values_in r ≡ picked (map values_in columns.now) number) }
{
    let mut values = Vec::new(alloc);
    let mut left = number;
    for column in columns {
        if column.is_empty() {
            return Ok(None);
        }
        let value = column[left % column.len()].try_copy(alloc)?;
        values.push(value)?;
        left /= column.len();
    }
    if left == 0 {
        Ok(Some(values))
    } else {
        Ok(None)
    }
}
