//! Positions of an entry in a signature: by these it is decided which actions the entry has, and
//! whether it has one in common with another entry.

ghost use Rattle.std.specs.Prelude.{◌≡◌, IfOk, map};
ghost use Rattle.ioa_value.specs.Plain.{plain};
ghost use Rattle.ioa_value.specs.Positions as spec;
ghost use Rattle.ioa_value.specs.Positions.{domain_of, domain_type};

use crate::memory::OutOfMemory;
use crate::types::Types;
use crate::typing::has_type;
use crate::value::{Ty, Value, same};
use std::alloc::Global;

/// A position of an entry: which values an action may have in its place.
pub enum Position {
    /// Any value of the type.
    Typed(Ty),
    /// This value alone.
    Constant(Value),
}

/// Written out, so that who drops one calls this, and does not take it apart itself.
impl Drop for Position {
    fn drop(self) {
        match self {
            Position::Typed(_) => {}
            Position::Constant(_) => {}
        }
    }
}

impl Position {
    /// Whether an action may have the value here.
    pub fn takes(&self, types: &Types, value: &Value) -> bool
        ensures { result ≡ spec.takes types.now (domain_of self.now) (plain value.now) }
    {
        match self {
            Position::Typed(ty) => has_type(types, value, *ty),
            Position::Constant(own) => same(own, value),
        }
    }

    /// Whether some value may stand in both positions, which are of declared types and well typed constants.
    pub fn meets(&self, types: &Types, other: &Position) -> bool
        ensures { result ≡ spec.meets types.now (domain_of self.now) (domain_of other.now) }
    {
        match (self, other) {
            (Position::Typed(a), Position::Typed(b)) => a.0 == b.0,
            (Position::Typed(ty), Position::Constant(value))
            | (Position::Constant(value), Position::Typed(ty)) => has_type(types, value, *ty),
            (Position::Constant(a), Position::Constant(b)) => same(a, b),
        }
    }

    /// The type of the values that may stand here.
    pub fn ty(&self) -> Ty
        ensures { result.0 ≡ domain_type (domain_of self.now) }
    {
        match self {
            Position::Typed(ty) => *ty,
            Position::Constant(value) => value.ty(),
        }
    }

    /// A position that equals this one.
    pub fn try_copy(&self, alloc: Global) -> Result<Position, OutOfMemory>
        ensures { IfOk result (λ copy. domain_of copy ≡ domain_of self.now) }
    {
        match self {
            Position::Typed(ty) => Ok(Position::Typed(*ty)),
            Position::Constant(value) => Ok(Position::Constant(value.try_copy(alloc)?)),
        }
    }
}

/// Whether an action may have these values: there is one for each position, and each may stand in its own.
pub fn all_take(types: &Types, positions: &[Position], values: &[Value]) -> bool
    ensures { result ≡ spec.all_take types.now (map domain_of positions.now) (map plain values.now) }
{
    if positions.len() != values.len() {
        return false;
    }
    for i in 0..positions.len() {
        if !positions[i].takes(types, &values[i]) {
            return false;
        }
    }
    true
}

/// Whether some values may stand in both lists of positions, which are of declared types and well typed constants.
pub fn all_meet(types: &Types, a: &[Position], b: &[Position]) -> bool
    ensures { result ≡ spec.all_meet types.now (map domain_of a.now) (map domain_of b.now) }
{
    if a.len() != b.len() {
        return false;
    }
    for i in 0..a.len() {
        if !a[i].meets(types, &b[i]) {
            return false;
        }
    }
    true
}
