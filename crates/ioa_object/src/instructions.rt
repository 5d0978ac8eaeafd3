//! Instructions by their bytes.

ghost use Rattle.std.specs.Prelude.{◌≡◌, ◌≤◌, OnOk};
ghost use Rattle.ioa_object.specs.Reading as spec;
ghost use Rattle.ioa_bytes.specs.Items.{ReadsItem};

use ioa_bytes::{Cursor, ObjErr};
use ioa_code::Instr;
use ioa_value::{Op, Ty};

/// The instruction of this part that comes after these. Where loops may not stand, those that they
/// have are unknown.
#[tactic(auto, unfolding(crate::specs::Reading::instr_at))]
pub(crate) fn instruction(
    cursor: &mut Cursor<'_>,
    loops: bool,
    part: usize,
    before: &[Instr],
) -> Result<Instr, ObjErr>
    ensures read { ReadsItem (λ i. i) (spec.instr_at loops part before.now cursor.old) result cursor.new }
    ensures further { OnOk result ((cursor.old.place ≤ cursor.new.place) × (cursor.new.parts ≡ cursor.old.parts)) }
{
    let byte = cursor.byte()?;
    if !loops && is_of_loops(byte) {
        return Err(ObjErr::BadCode(part, before.len()));
    }
    of_byte(cursor, part, before.len(), byte)
}

/// Whether the byte is that of an instruction of loops.
fn is_of_loops(byte: u8) -> bool
    ensures { result ≡ spec.is_of_loops byte }
{
    0x28 <= byte && byte <= 0x2A
}

/// The instruction of this byte, with its operand, as the one at this place of this part.
#[tactic(auto, unfolding(crate::specs::Reading::instr_of))]
fn of_byte(cursor: &mut Cursor<'_>, part: usize, at: usize, byte: u8) -> Result<Instr, ObjErr>
    ensures read { ReadsItem (λ i. i) (spec.instr_of part at byte cursor.old) result cursor.new }
    ensures further { OnOk result ((cursor.old.place ≤ cursor.new.place) × (cursor.new.parts ≡ cursor.old.parts)) }
{
    match byte {
        0x01 => Ok(Instr::Const(cursor.short()?)),
        0x02 => Ok(Instr::Slot(cursor.short()?)),
        0x03 => Ok(Instr::Arg(cursor.short()?)),
        0x04 => Ok(Instr::Store(cursor.short()?)),
        0x05 => Ok(Instr::Jump(cursor.short()?)),
        0x06 => Ok(Instr::JumpIfFalse(cursor.short()?)),
        0x07 => Ok(Instr::Any),
        0x08 => Ok(Instr::Pick(Ty(cursor.short()?))),
        0x26 => Ok(Instr::Apply(Op::Make(Ty(cursor.short()?)))),
        0x27 => Ok(Instr::Apply(Op::Field(cursor.short()?))),
        0x28 => Ok(Instr::Each(cursor.short()?)),
        0x29 => Ok(Instr::Again(cursor.short()?)),
        0x2A => Ok(Instr::Local(cursor.short()?)),
        _ => match operator(byte) {
            Some(op) => Ok(Instr::Apply(op)),
            None => Err(ObjErr::BadCode(part, at)),
        },
    }
}

/// The operator of this byte, if there is one that has no operand.
#[tactic(auto, unfolding(crate::specs::Reading::operator_at))]
fn operator(byte: u8) -> Option<Op>
    ensures { result ≡ spec.operator_at byte }
{
    match byte {
        0x10 => Some(Op::Neg),
        0x11 => Some(Op::Add),
        0x12 => Some(Op::Sub),
        0x13 => Some(Op::Mul),
        0x14 => Some(Op::Div),
        0x15 => Some(Op::Mod),
        0x16 => Some(Op::Lt),
        0x17 => Some(Op::Le),
        0x18 => Some(Op::Gt),
        0x19 => Some(Op::Ge),
        0x1A => Some(Op::Not),
        0x1B => Some(Op::Eq),
        0x1C => Some(Op::Ne),
        0x1D => Some(Op::Len),
        0x1E => Some(Op::Head),
        0x1F => Some(Op::Tail),
        0x20 => Some(Op::Last),
        0x21 => Some(Op::Init),
        0x22 => Some(Op::Append),
        0x23 => Some(Op::At),
        0x24 => Some(Op::Member),
        0x25 => Some(Op::Without),
        _ => None,
    }
}
