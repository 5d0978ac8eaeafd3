//! Code in lines, with what the numbers in its instructions stand for.

ghost use Rattle.std.specs.Prelude.{◌≡◌, ◌++◌, ℕ, [], IfOk, OnOk, map, slice_get};
ghost use Rattle.std.specs.Option.{option_map_or};
ghost use Rattle.std.specs.String.{string_bytes};
ghost use Rattle.ioa_value.specs.Plain.{plain};
ghost use Rattle.ioa_dump.specs.Dumps as spec;

use crate::values::{brief_value, type_in, type_name};
use ioa_code::{Instr, Verified};
use ioa_node::Decoded;
use ioa_value::{Op, OutOfMemory, Types, Value};
use std::alloc::Global;
use std::fmt::Write;

/// A part that an input has not.
pub fn put_local(
    alloc: Global,
    text: &mut String,
    types: &Types,
    heading: &str,
    part: &Option<Decoded>,
) -> Result<(), OutOfMemory>
    ensures { OnOk result (string_bytes text.new ≡ string_bytes text.old ++ spec.local_lines types.now heading.now part.now) }
{
    match part {
        Some(part) => put_part(alloc, text, types, heading, part.code()),
        None => Ok(()),
    }
}

/// The instructions of a part under its heading, each behind its place.
pub fn put_part(
    alloc: Global,
    text: &mut String,
    types: &Types,
    heading: &str,
    part: &Verified,
) -> Result<(), OutOfMemory>
    ensures { OnOk result (string_bytes text.new ≡ string_bytes text.old ++ spec.part_lines types.now heading.now part.now) }
{
    writeln!(text, "    {heading}")?;
    let instrs = part.instrs();
    for place in 0..instrs.len() {
        put_instruction(alloc, text, types, part, place, instrs[place])?;
    }
    Ok(())
}

/// An instruction of a part behind its place.
fn put_instruction(
    alloc: Global,
    text: &mut String,
    types: &Types,
    part: &Verified,
    place: usize,
    instr: Instr,
) -> Result<(), OutOfMemory>
    ensures { OnOk result (string_bytes text.new ≡ string_bytes text.old ++ spec.instruction_line types.now part.now place instr) }
{
    let spelled = instruction_text(alloc, types, part, instr)?;
    writeln!(text, "      {place} {spelled}")?;
    Ok(())
}

/// An instruction's name and its operand, with the constant or the type that the operand stands for.
fn instruction_text(
    alloc: Global,
    types: &Types,
    part: &Verified,
    instr: Instr,
) -> Result<String, OutOfMemory>
    ensures { IfOk result (λ text. string_bytes text ≡ spec.instruction_text types.now part.now instr) }
{
    match instr {
        Instr::Const(k) => {
            let value = constant_text(alloc, types, part.consts(), k)?;
            Ok(format!(in alloc; "Const {k}: {value}")?)
        }
        Instr::Slot(i) => {
            let ty = type_in(types, part.slots(), i);
            Ok(format!(in alloc; "Slot {i}: {ty}")?)
        }
        Instr::Arg(i) => {
            let ty = type_in(types, part.arguments(), i);
            Ok(format!(in alloc; "Arg {i}: {ty}")?)
        }
        Instr::Store(i) => {
            let ty = type_in(types, part.slots(), i);
            Ok(format!(in alloc; "Store {i}: {ty}")?)
        }
        Instr::Jump(t) => Ok(format!(in alloc; "Jump {t}")?),
        Instr::JumpIfFalse(t) => Ok(format!(in alloc; "JumpIfFalse {t}")?),
        Instr::Any => Ok(String::from_str(alloc, "Any")?),
        Instr::Pick(ty) => {
            let name = type_name(types, ty);
            Ok(format!(in alloc; "Pick {name}")?)
        }
        Instr::Apply(op) => operator_text(alloc, types, op),
        Instr::Each(t) => Ok(format!(in alloc; "Each {t}")?),
        Instr::Again(t) => Ok(format!(in alloc; "Again {t}")?),
        Instr::Local(d) => Ok(format!(in alloc; "Local {d}")?),
    }
}

/// The constant of this number, in short.
fn constant_text(
    alloc: Global,
    types: &Types,
    constants: &[Value],
    number: u16,
) -> Result<String, OutOfMemory>
    ensures { IfOk result (λ text. string_bytes text ≡ option_map_or (spec.brief_value types.now) (slice_get (map plain constants.now) number) []) }
{
    match constants.get(number as usize) {
        Some(value) => brief_value(alloc, types, value),
        None => Ok(String::new(alloc)),
    }
}

/// An operator's instruction.
fn operator_text(alloc: Global, types: &Types, op: Op) -> Result<String, OutOfMemory>
    ensures { IfOk result (λ text. string_bytes text ≡ spec.operator_text types.now op) }
{
    let name = match op {
        Op::Neg => "Neg",
        Op::Add => "Add",
        Op::Sub => "Sub",
        Op::Mul => "Mul",
        Op::Div => "Div",
        Op::Mod => "Mod",
        Op::Lt => "Lt",
        Op::Le => "Le",
        Op::Gt => "Gt",
        Op::Ge => "Ge",
        Op::Not => "Not",
        Op::Eq => "Eq",
        Op::Ne => "Ne",
        Op::Len => "Len",
        Op::Head => "Head",
        Op::Tail => "Tail",
        Op::Last => "Last",
        Op::Init => "Init",
        Op::Append => "Append",
        Op::At => "At",
        Op::Member => "Member",
        Op::Without => "Without",
        Op::Make(ty) => {
            let of = type_name(types, ty);
            return Ok(format!(in alloc; "Make {of}")?);
        }
        Op::Field(j) => return Ok(format!(in alloc; "Field {j}")?),
    };
    Ok(String::from_str(alloc, name)?)
}
