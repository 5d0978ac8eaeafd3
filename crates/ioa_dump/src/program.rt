//! Dumps of whole programs, in the order of their tables.

ghost use Rattle.std.specs.Prelude.{◌≡◌, ◌++◌, IfOk, OnOk, map};
ghost use Rattle.std.specs.List.{flat_map};
ghost use Rattle.std.specs.String.{string_bytes};
ghost use Rattle.ioa_dump.specs.Dumps as spec;

use crate::components::put_members;
use crate::types::put_types;
use ioa_compile::Program;
use ioa_value::OutOfMemory;
use std::alloc::Global;
use std::fmt::Write;

/// The dump of a program: its tables and its code, an item a line.
///
/// # Errors
/// `OutOfMemory`.
pub fn dump_text(alloc: Global, program: &Program) -> Result<String, OutOfMemory>
    ensures { IfOk result (λ text. string_bytes text ≡ spec.dump program.now) }
{
    let mut text = String::new(alloc);
    let name = program.name();
    writeln!(text, "composition {name}")?;
    put_types(&mut text, program.types())?;
    put_members(alloc, &mut text, program.types(), program.members())?;
    put_hidden(&mut text, program.hidden())?;
    Ok(text)
}

/// The hidden names.
fn put_hidden(text: &mut String, names: &[String]) -> Result<(), OutOfMemory>
    ensures { OnOk result (string_bytes text.new ≡ string_bytes text.old ++ flat_map spec.hidden_line (map string_bytes names.now)) }
{
    for name in names {
        put_hidden_name(text, name.as_str())?;
    }
    Ok(())
}

fn put_hidden_name(text: &mut String, name: &str) -> Result<(), OutOfMemory>
    ensures { OnOk result (string_bytes text.new ≡ string_bytes text.old ++ spec.hidden_line name.now) }
{
    writeln!(text, "hidden {name}")?;
    Ok(())
}
