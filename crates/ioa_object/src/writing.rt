//! Programs as bytes.

ghost use Rattle.std.specs.Prelude.{◌≡◌, ◌++◌, ◌∷◌, [], ◌<◌, ◌^◌, ℕ, All, length, map, IfOk, IfSome, OnOk};
ghost use Rattle.std.specs.String.{string_bytes};
ghost use Rattle.ioa_value.specs.Names.{IsName};
ghost use Rattle.ioa_value.specs.Plain.{plain, plain_all};
ghost use Rattle.ioa_value.specs.Positions.{IsDomain, domain_of};
ghost use Rattle.ioa_value.specs.Shapes.{declaration as declaration_of, tuple_field};
ghost use Rattle.ioa_value.specs.Table.{Table, AreTypes, MayStand, field_names, given_names};
ghost use Rattle.ioa_value.specs.Typing.{HasType, OwnTypes, own};
ghost use Rattle.ioa_compile.specs.Programs.{MemberCode};
ghost use Rattle.ioa_compile.specs.Shown.{entry_code, member_code};
ghost use Rattle.ioa_compile.specs.Tables.{AreMembers, AreEntries, IsEntry};
ghost use Rattle.ioa_object.specs.Objects.{IsObject};
ghost use Rattle.ioa_object.specs.Spelling as spelling;

use crate::mark::MARK;
use crate::versions::{have_loops, version_byte};
use ioa_code::{Instr, Verified};
use ioa_compile::{Entry, Member, Program};
use ioa_node::{Decoded, state_values};
use ioa_tree::Kind;
use ioa_value::{Declared, Field, Form, Op, OutOfMemory, Position, Ty, Types, Value};
use std::alloc::Global;

/// The object of a program: under version 2 where its code has loops, else under version 1.
///
/// # Errors
/// `OutOfMemory`.
pub fn write_object(alloc: Global, program: &Program) -> Result<Vec<u8>, OutOfMemory>
    ensures { IfOk result (λ bytes. IsObject bytes.items program.now) }
{
    let mut out = Vec::new(alloc);
    out.extend_from_slice(&MARK)?;
    out.push(version_byte(have_loops(program.members())))?;
    put_types(&mut out, program.types())?;
    put_text(&mut out, program.name())?;
    put_members(alloc, &mut out, program.members())?;
    put_names(&mut out, program.hidden())?;
    Ok(out)
}

/// A number of 16 bits.
fn put_short(out: &mut Vec<u8>, number: u16) -> Result<(), OutOfMemory>
    ensures { OnOk result (out.new.items ≡ out.old.items ++ spelling.short number) }
{
    out.extend_from_slice(&number.to_le_bytes())?;
    Ok(())
}

/// How many items a list has.
fn put_count(out: &mut Vec<u8>, count: usize) -> Result<(), OutOfMemory>
    requires { count < 2 ^ 16 }
    ensures { OnOk result (out.new.items ≡ out.old.items ++ spelling.short count) }
{
    put_short(out, count as u16)
}

/// A text: its length, and its bytes.
fn put_text(out: &mut Vec<u8>, text: &str) -> Result<(), OutOfMemory>
    requires { length text.now < 2 ^ 8 }
    ensures { OnOk result (out.new.items ≡ out.old.items ++ spelling.text text.now) }
{
    out.push(text.len() as u8)?;
    out.extend_from_slice(text.as_bytes())?;
    Ok(())
}

/// A list of texts.
fn put_names(out: &mut Vec<u8>, names: &[String]) -> Result<(), OutOfMemory>
    requires few { length names.now < 2 ^ 16 }
    requires short { All (λ x. length x < 2 ^ 8) (map string_bytes names.now) }
    ensures { OnOk result (out.new.items ≡ out.old.items ++ spelling.list_of spelling.text (map string_bytes names.now)) }
{
    put_count(out, names.len())?;
    for name in names {
        put_text(out, name.as_str())?;
    }
    Ok(())
}

/// The types that are declared.
fn put_types(out: &mut Vec<u8>, types: &Types) -> Result<(), OutOfMemory>
    ensures { OnOk result (out.new.items ≡ out.old.items ++ spelling.list_of spelling.declaration (spelling.declared types.now)) }
{
    put_count(out, types.len() - 2)?;
    for number in 2..types.len() {
        match types.declared(Ty(number as u16)) {
            Some(declared) => put_declared(out, declared)?,
            None => unreachable!(),
        }
    }
    Ok(())
}

/// A type's tag, its name, and what it is.
fn put_declared(out: &mut Vec<u8>, declared: &Declared) -> Result<(), OutOfMemory>
    requires stands { (n : ℕ) × MayStand n (declaration_of declared.now).shape }
    requires legal { All IsName (given_names (declaration_of declared.now)) }
    ensures { OnOk result (out.new.items ≡ out.old.items ++ spelling.declaration (declaration_of declared.now)) }
{
    let name = declared.name.as_str();
    match &declared.form {
        Form::Truths | Form::Numbers => Ok(()),
        Form::Names(names) => {
            out.push(1)?;
            put_text(out, name)?;
            put_names(out, names)
        }
        Form::Fields(fields) => {
            out.push(2)?;
            put_text(out, name)?;
            put_fields(out, fields)
        }
        Form::Sequence(most, of) => {
            out.push(3)?;
            put_text(out, name)?;
            put_short(out, *most)?;
            put_short(out, of.0)
        }
    }
}

/// The fields of a tuple.
fn put_fields(out: &mut Vec<u8>, fields: &[Field]) -> Result<(), OutOfMemory>
    requires few { length fields.now < 2 ^ 16 }
    requires legal { All IsName (field_names (map tuple_field fields.now)) }
    ensures { OnOk result (out.new.items ≡ out.old.items ++ spelling.list_of spelling.field (map tuple_field fields.now)) }
{
    put_count(out, fields.len())?;
    for field in fields {
        put_text(out, field.name.as_str())?;
        put_short(out, field.ty.0)?;
    }
    Ok(())
}

/// A list of values.
fn put_values(out: &mut Vec<u8>, values: &[Value]) -> Result<(), OutOfMemory>
    requires few { length values.now < 2 ^ 16 }
    requires typed { (types : Table) × AreTypes types × OwnTypes types (map plain values.now) }
    ensures { OnOk result (out.new.items ≡ out.old.items ++ spelling.list_of spelling.value (map plain values.now)) }
{
    put_count(out, values.len())?;
    for value in values {
        put_value(out, value)?;
    }
    Ok(())
}

/// A value: its type, and the payload.
fn put_value(out: &mut Vec<u8>, value: &Value) -> Result<(), OutOfMemory>
    requires { (types : Table) × AreTypes types × HasType types (plain value.now) (own (plain value.now)) }
    ensures { OnOk result (out.new.items ≡ out.old.items ++ spelling.value (plain value.now)) }
{
    put_short(out, value.ty().0)?;
    put_payload(out, value)
}

/// What is spelled of a value whose type is known.
#[cycle(payload)]
fn put_payload(out: &mut Vec<u8>, value: &Value) -> Result<(), OutOfMemory>
    requires { (types : Table) × AreTypes types × HasType types (plain value.now) (own (plain value.now)) }
    ensures { OnOk result (out.new.items ≡ out.old.items ++ spelling.payload (plain value.now)) }
{
    match value {
        Value::Truth(b) => Ok(out.push(*b as u8)?),
        Value::Num(n) => Ok(out.extend_from_slice(&n.to_le_bytes())?),
        Value::Name(_, n) => Ok(out.push(*n)?),
        Value::Tuple(_, parts) => put_payloads(out, parts),
        Value::Items(_, items) => {
            put_count(out, items.len())?;
            put_payloads(out, items)
        }
    }
}

/// The payloads of values, one after the other.
#[cycle(payload)]
fn put_payloads(out: &mut Vec<u8>, values: &[Value]) -> Result<(), OutOfMemory>
    requires { (types : Table) × AreTypes types × OwnTypes types (map plain values.now) }
    ensures { OnOk result (out.new.items ≡ out.old.items ++ spelling.payloads (plain_all values.now)) }
{
    for value in values {
        put_payload(out, value)?;
    }
    Ok(())
}

/// The components.
fn put_members(alloc: Global, out: &mut Vec<u8>, members: &[Member]) -> Result<(), OutOfMemory>
    requires few { length members.now < 2 ^ 16 }
    requires right { (types : Table) × AreTypes types × AreMembers types (map member_code members.now) }
    ensures { OnOk result (out.new.items ≡ out.old.items ++ spelling.list_of spelling.component (map member_code members.now)) }
{
    put_count(out, members.len())?;
    for member in members {
        put_text(out, member.name.as_str())?;
        put_values(out, &state_values(alloc, &member.start)?)?;
        put_entries(out, &member.entries)?;
    }
    Ok(())
}

/// The entries of a component.
fn put_entries(out: &mut Vec<u8>, entries: &[Entry]) -> Result<(), OutOfMemory>
    requires few { length entries.now < 2 ^ 16 }
    requires right { (m : MemberCode) × AreTypes m.start.table × AreEntries m (map entry_code entries.now) }
    ensures { OnOk result (out.new.items ≡ out.old.items ++ spelling.list_of spelling.entry (map entry_code entries.now)) }
{
    put_count(out, entries.len())?;
    for entry in entries {
        put_entry(out, entry)?;
    }
    Ok(())
}

/// An entry, with its constants and its code.
fn put_entry(out: &mut Vec<u8>, entry: &Entry) -> Result<(), OutOfMemory>
    requires { (m : MemberCode) × AreTypes m.start.table × IsEntry m (entry_code entry.now) }
    ensures { OnOk result (out.new.items ≡ out.old.items ++ spelling.entry (entry_code entry.now)) }
{
    out.push(kind_byte(entry.kind))?;
    put_text(out, entry.name.as_str())?;
    put_positions(out, &entry.positions)?;
    put_values(out, entry.effect.code().consts())?;
    put_local(out, &entry.pre)?;
    put_local(out, &entry.propose)?;
    put_part(out, entry.effect.code())
}

fn kind_byte(kind: Kind) -> u8
    ensures { result ≡ spelling.kind_byte kind }
{
    match kind {
        Kind::Input => 0,
        Kind::Output => 1,
        Kind::Internal => 2,
    }
}

/// The positions of an entry.
fn put_positions(out: &mut Vec<u8>, positions: &[Position]) -> Result<(), OutOfMemory>
    requires few { length positions.now < 2 ^ 16 }
    requires typed { (types : Table) × AreTypes types × All (IsDomain types) (map domain_of positions.now) }
    ensures { OnOk result (out.new.items ≡ out.old.items ++ spelling.list_of spelling.position (map domain_of positions.now)) }
{
    put_count(out, positions.len())?;
    for position in positions {
        put_position(out, position)?;
    }
    Ok(())
}

/// A position: any value of a type, or a single value.
fn put_position(out: &mut Vec<u8>, position: &Position) -> Result<(), OutOfMemory>
    requires { (types : Table) × AreTypes types × IsDomain types (domain_of position.now) }
    ensures { OnOk result (out.new.items ≡ out.old.items ++ spelling.position (domain_of position.now)) }
{
    match position {
        Position::Typed(ty) => {
            out.push(0)?;
            put_short(out, ty.0)
        }
        Position::Constant(value) => {
            out.push(1)?;
            put_value(out, value)
        }
    }
}

/// A part that an input has not.
fn put_local(out: &mut Vec<u8>, part: &Option<Decoded>) -> Result<(), OutOfMemory>
    requires { IfSome part.now (λ part. length part.code.instrs < 2 ^ 16) }
    ensures { OnOk result (out.new.items ≡ out.old.items ++ spelling.local_code part.now) }
{
    match part {
        Some(part) => put_part(out, part.code()),
        None => Ok(()),
    }
}

/// The instructions of a part.
fn put_part(out: &mut Vec<u8>, part: &Verified) -> Result<(), OutOfMemory>
    requires { length part.now.code.instrs < 2 ^ 16 }
    ensures { OnOk result (out.new.items ≡ out.old.items ++ spelling.code part.now) }
{
    let instrs = part.instrs();
    put_count(out, instrs.len())?;
    for instr in instrs {
        put_instr(out, *instr)?;
    }
    Ok(())
}

/// An instruction's byte and, where it has one, its operand.
fn put_instr(out: &mut Vec<u8>, instr: Instr) -> Result<(), OutOfMemory>
    ensures { OnOk result (out.new.items ≡ out.old.items ++ spelling.instruction instr) }
{
    match instr {
        Instr::Const(k) => put_with(out, 0x01, k),
        Instr::Slot(i) => put_with(out, 0x02, i),
        Instr::Arg(i) => put_with(out, 0x03, i),
        Instr::Store(i) => put_with(out, 0x04, i),
        Instr::Jump(t) => put_with(out, 0x05, t),
        Instr::JumpIfFalse(t) => put_with(out, 0x06, t),
        Instr::Any => put_byte(out, 0x07),
        Instr::Pick(ty) => put_with(out, 0x08, ty.0),
        Instr::Apply(op) => put_operator(out, op),
        Instr::Each(t) => put_with(out, 0x28, t),
        Instr::Again(t) => put_with(out, 0x29, t),
        Instr::Local(d) => put_with(out, 0x2A, d),
    }
}

/// The instruction of an operator.
fn put_operator(out: &mut Vec<u8>, op: Op) -> Result<(), OutOfMemory>
    ensures { OnOk result (out.new.items ≡ out.old.items ++ spelling.operator op) }
{
    match op {
        Op::Neg => put_byte(out, 0x10),
        Op::Add => put_byte(out, 0x11),
        Op::Sub => put_byte(out, 0x12),
        Op::Mul => put_byte(out, 0x13),
        Op::Div => put_byte(out, 0x14),
        Op::Mod => put_byte(out, 0x15),
        Op::Lt => put_byte(out, 0x16),
        Op::Le => put_byte(out, 0x17),
        Op::Gt => put_byte(out, 0x18),
        Op::Ge => put_byte(out, 0x19),
        Op::Not => put_byte(out, 0x1A),
        Op::Eq => put_byte(out, 0x1B),
        Op::Ne => put_byte(out, 0x1C),
        Op::Len => put_byte(out, 0x1D),
        Op::Head => put_byte(out, 0x1E),
        Op::Tail => put_byte(out, 0x1F),
        Op::Last => put_byte(out, 0x20),
        Op::Init => put_byte(out, 0x21),
        Op::Append => put_byte(out, 0x22),
        Op::At => put_byte(out, 0x23),
        Op::Member => put_byte(out, 0x24),
        Op::Without => put_byte(out, 0x25),
        Op::Make(ty) => put_with(out, 0x26, ty.0),
        Op::Field(j) => put_with(out, 0x27, j),
    }
}

/// A byte.
fn put_byte(out: &mut Vec<u8>, byte: u8) -> Result<(), OutOfMemory>
    ensures { OnOk result (out.new.items ≡ out.old.items ++ byte ∷ []) }
{
    out.push(byte)?;
    Ok(())
}

/// A byte and an operand.
fn put_with(out: &mut Vec<u8>, byte: u8, operand: u16) -> Result<(), OutOfMemory>
    ensures { OnOk result (out.new.items ≡ out.old.items ++ byte ∷ spelling.short operand) }
{
    out.push(byte)?;
    put_short(out, operand)
}
