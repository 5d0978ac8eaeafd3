//! A place in some bytes, from which they are read.

ghost use Rattle.std.specs.Prelude.{◌≡◌, ◌+◌, ◌<◌, ◌≤◌, ◌^◌, All, drop, length, IfOk, IfErr, OnOk};
ghost use Rattle.ioa_value.specs.Names.{IsName};
ghost use Rattle.ioa_value.specs.Plain.{number as type_number, plain};
ghost use Rattle.ioa_bytes.specs.Items as spec;
ghost use Rattle.ioa_bytes.specs.Items.{ReadsItem, counted};
ghost use Rattle.ioa_bytes.specs.declared.failure.ObjErr.TheVariants as errors;

use crate::failure::ObjErr;
use ioa_value::{LIMITS, Ty, Value, is_name};
use std::alloc::Global;
use std::marker::Model;

/// What is left to read of some bytes, and how many parts of code came before.
#[derive(Drop)]
pub struct Cursor<'a> {
    alloc: Global,
    bytes: &'a [u8],
    place: usize,
    parts: usize,
}

impl<'a> Model for Cursor<'a> {
    ghost use Rattle.ioa_bytes.specs.Spots.{Spot, coded_spot};

    ghost Value = { Spot };

    ghost coded = { coded_spot };

    ghost use Rattle.std.specs.Prelude.{◌<◌, ◌≤◌, ◌^◌, All, drop, length};

    ghost view = { λ c. record { place = c.place; rest = drop c.place c.bytes.now; parts = c.parts } };

    ghost invariant = { λ c. (c.place ≤ length c.bytes.now) × (c.parts ≤ c.place) × All (λ b. b < 2 ^ 8) c.bytes.now };
}

/// A legal name, and the place of its first letter.
#[derive(Clone, Copy)]
pub struct Named<'a> {
    pub text: &'a str,
    pub at: usize,
}

impl<'a> Cursor<'a> {
    /// At this place of some bytes, which they have. No part came before.
    pub fn new(alloc: Global, bytes: &'a [u8], place: usize) -> Cursor<'a>
        requires { place ≤ length bytes.now }
        ensures { result ≡ record { place = place; rest = drop place bytes.now; parts = 0 } }
    {
        Cursor {
            alloc,
            bytes,
            place,
            parts: 0,
        }
    }

    /// Where memory comes from.
    pub fn alloc(&self) -> Global
        ensures bytes { All (λ b. b < 2 ^ 8) self.now.rest }
        ensures parts { self.now.parts ≤ self.now.place }
    {
        self.alloc
    }

    /// How many bytes came before.
    pub fn place(&self) -> usize
        ensures { result ≡ self.now.place }
    {
        self.place
    }

    /// How many bytes are left.
    pub fn left(&self) -> usize
        ensures { result ≡ length self.now.rest }
    {
        self.bytes.len() - self.place
    }

    /// How many parts of code came before.
    pub fn parts(&self) -> usize
        ensures { result ≡ self.now.parts }
    {
        self.parts
    }

    /// One more part came before.
    pub fn count_part(&mut self)
        requires { self.old.parts < self.old.place }
        ensures { self.new ≡ counted self.old }
    {
        self.parts += 1;
    }

    /// So many bytes.
    #[tactic(auto, unfolding(crate::specs::Items::bytes_at))]
    pub fn bytes(&mut self, count: usize) -> Result<&'a [u8], ObjErr>
        ensures read { ReadsItem (λ bytes. bytes.now) (spec.bytes_at count self.old) result self.new }
        ensures count { IfOk result (λ bytes. length bytes.now ≡ count) }
        ensures further { OnOk result ((self.new.place ≡ self.old.place + count) × (self.new.parts ≡ self.old.parts)) }
    {
        if self.left() < count {
            return Err(ObjErr::Truncated);
        }
        let start = self.place;
        self.place += count;
        Ok(&self.bytes[start..self.place])
    }

    /// The next byte.
    #[tactic(auto, unfolding(crate::specs::Items::byte_at))]
    pub fn byte(&mut self) -> Result<u8, ObjErr>
        ensures read { ReadsItem (λ b. b) (spec.byte_at self.old) result self.new }
        ensures cut { IfErr result (λ e. e ≡ errors.Truncated) }
        ensures further { OnOk result ((self.new.place ≡ self.old.place + 1) × (self.new.parts ≡ self.old.parts)) }
    {
        match self.bytes.get(self.place) {
            Some(byte) => {
                self.place += 1;
                Ok(*byte)
            }
            None => Err(ObjErr::Truncated),
        }
    }

    /// A number of 16 bits.
    #[tactic(auto, unfolding(crate::specs::Items::short_at))]
    pub fn short(&mut self) -> Result<u16, ObjErr>
        ensures read { ReadsItem (λ n. n) (spec.short_at self.old) result self.new }
        ensures further { OnOk result ((self.new.place ≡ self.old.place + 2) × (self.new.parts ≡ self.old.parts)) }
    {
        let found = self.bytes(2)?;
        Ok(u16::from_le_bytes([found[0], found[1]]))
    }

    /// A whole number of 64 bits.
    #[tactic(auto, unfolding(crate::specs::Items::long_at))]
    pub fn long(&mut self) -> Result<Value, ObjErr>
        ensures { ReadsItem plain (spec.long_at self.old) result self.new }
    {
        let b = self.bytes(8)?;
        let number = i64::from_le_bytes([b[0], b[1], b[2], b[3], b[4], b[5], b[6], b[7]]);
        Ok(Value::Num(number))
    }

    /// A number from `least` to `most`.
    #[tactic(auto, unfolding(crate::specs::Items::count_at))]
    pub fn count(&mut self, least: usize, most: usize) -> Result<usize, ObjErr>
        ensures read { ReadsItem (λ n. n) (spec.count_at least most self.old) result self.new }
        ensures within { IfOk result (λ n. (least ≤ n) × (n ≤ most)) }
    {
        let at = self.place;
        let count = self.short()? as usize;
        if least <= count && count <= most {
            Ok(count)
        } else {
            Err(ObjErr::BadTable(at))
        }
    }

    /// The number of one of so many types.
    #[tactic(auto, unfolding(crate::specs::Items::type_at))]
    pub fn ty(&mut self, count: usize) -> Result<Ty, ObjErr>
        ensures read { ReadsItem type_number (spec.type_at count self.old) result self.new }
        ensures within { IfOk result (λ ty. ty.0 < count) }
    {
        let at = self.place;
        let ty = self.short()?;
        if (ty as usize) < count {
            Ok(Ty(ty))
        } else {
            Err(ObjErr::BadTable(at))
        }
    }

    /// A legal name.
    #[tactic(auto, unfolding(crate::specs::Items::named_at))]
    pub fn name(&mut self) -> Result<Named<'a>, ObjErr>
        ensures read { ReadsItem (λ x. (x.text.now, x.at)) (spec.named_at self.old) result self.new }
        ensures legal { IfOk result (λ x. IsName x.text.now) }
    {
        let at = self.place;
        let length = self.byte()? as usize;
        if length < 1 || LIMITS.name < length {
            return Err(ObjErr::BadTable(at));
        }
        let at = self.place;
        let word = self.bytes(length)?;
        if !is_name(word) {
            return Err(ObjErr::BadTable(at));
        }
        match str::from_utf8(word) {
            Ok(text) => Ok(Named { text, at }),
            Err(_) => unreachable!(),
        }
    }
}
