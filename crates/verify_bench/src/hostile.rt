//! Valid code of any length that is made to cost the verifier much.

ghost use Rattle.std.specs.Prelude.{◌≡◌, ◌∷◌, [], ◌<◌, true, IfOk, length, map};
ghost use Rattle.ioa_value.specs.Plain.{plain, truth};
ghost use Rattle.ioa_value.specs.Table.{basic};

use ioa_code::{Code, CodeErr, Env, Instr, PartKind, verify};
use ioa_value::{LIMITS, Ty, Types, Value};
use std::alloc::{AllocError, Global};

/// How code makes itself costly to verify.
#[derive(Clone, Copy)]
pub enum Kind {
    /// A deep stack, which is then taken down by a jump at each place.
    Jumps,
    /// A deep stack, with which a jump at each second place leads to the end.
    Meets,
    /// On one stack, a type after another, as many as a source may have.
    Types,
    /// On one stack, one type again and again, which is found after as many others as a type has bits.
    Bits,
    /// A deep stack, of which items half way down are then copied.
    Locals,
}

impl Kind {
    /// The kind of this name.
    pub fn named(name: &str) -> Option<Kind> {
        match name {
            "jumps" => Some(Kind::Jumps),
            "meets" => Some(Kind::Meets),
            "types" => Some(Kind::Types),
            "bits" => Some(Kind::Bits),
            "locals" => Some(Kind::Locals),
            _ => None,
        }
    }
}

// The bits of a type.
const BITS: u16 = 16;

// How deep the deep stack is.
fn depth(kind: Kind, places: u16) -> u16 {
    match kind {
        Kind::Jumps | Kind::Locals => places / 2,
        Kind::Meets => places / 6 * 2,
        Kind::Types | Kind::Bits => 0,
    }
}

// The variable of this slot is pushed at an even place, and popped at an odd one.
fn to_and_fro(place: u16, slot: u16) -> Instr {
    if place % 2 == 0 {
        Instr::Slot(slot)
    } else {
        Instr::Store(slot)
    }
}

// The instruction at a place among so many.
fn instr(kind: Kind, place: u16, places: u16) -> Instr
    requires { place < places }
{
    if place == places / 2 * 2 {
        return Instr::Jump(places);
    }
    if place < depth(kind, places) {
        return Instr::Const(0);
    }
    match kind {
        Kind::Jumps => Instr::JumpIfFalse(place + 1),
        Kind::Meets => {
            if place % 2 == 0 {
                Instr::Const(0)
            } else {
                Instr::JumpIfFalse(places)
            }
        }
        Kind::Types => to_and_fro(place, place / 2 % (2 + LIMITS.types) as u16),
        Kind::Bits => to_and_fro(place, (place / 2).min(BITS)),
        Kind::Locals => Instr::Local(place / 2),
    }
}

// Code of so many places.
fn code(alloc: Global, kind: Kind, places: u16) -> Result<Code, AllocError>
    ensures long { IfOk result (λ c. length c.instrs.items ≡ places) }
    ensures consts { IfOk result (λ c. map plain c.consts.items ≡ truth true ∷ []) }
{
    let mut instrs = Vec::new(alloc);
    for place in 0..places {
        instrs.push(instr(kind, place, places))?;
    }
    let mut consts = Vec::new(alloc);
    consts.push(Value::Truth(true))?;
    Ok(Code { instrs, consts })
}

// The types of the variables.
fn slots(alloc: Global, kind: Kind) -> Result<Vec<Ty>, AllocError> {
    let mut slots = Vec::new(alloc);
    match kind {
        Kind::Types => {
            for ty in 0..(2 + LIMITS.types) as u16 {
                slots.push(Ty(ty))?;
            }
        }
        Kind::Bits => {
            for bit in 0..BITS {
                slots.push(Ty(1 << bit))?;
            }
            slots.push(Ty(0))?;
        }
        Kind::Jumps | Kind::Meets | Kind::Locals => {}
    }
    Ok(slots)
}

// How deep the stack is at the end.
fn height(kind: Kind, places: u16) -> u16 {
    match kind {
        Kind::Meets => depth(kind, places),
        Kind::Locals => places / 2 * 2,
        Kind::Jumps | Kind::Types | Kind::Bits => 0,
    }
}

// What is on the stack at the end.
fn left(alloc: Global, kind: Kind, places: u16) -> Result<Vec<Ty>, AllocError> {
    let mut left = Vec::new(alloc);
    for _item in 0..height(kind, places) {
        left.push(Ty::BOOL)?;
    }
    Ok(left)
}

/// Whether the verifier takes code of this kind with so many places.
pub fn verified(alloc: Global, types: &Types, kind: Kind, places: u16) -> Result<(), CodeErr>
    requires { types.now ≡ basic }
{
    let slots = slots(alloc, kind)?;
    let result = left(alloc, kind, places)?;
    let env = Env {
        types,
        kind: PartKind::Eff,
        slots: &slots,
        arguments: &[],
        result: &result,
    };
    let _verified = verify(alloc, code(alloc, kind, places)?, &env)?;
    Ok(())
}
