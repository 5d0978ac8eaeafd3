//! Texts in memory, as readers.

ghost use Rattle.std.specs.Prelude.{◌≡◌, ◌≤◌, ◌-◌, ◌^◌, Some, false, OnErr, OnOk};
ghost use Rattle.std.specs.Io.KnownBytes.{ReadConsumes};
ghost use Rattle.std.specs.Io.{ReadsAtMost};
ghost use Rattle.ioa_device.specs.Counts.{given_after};
ghost use Rattle.ioa_device.specs.Failing.{FailedOnceAtMost, HasFailed};
ghost use Rattle.ioa_serving.specs.AtHand.{failures_of, given_of};

use ioa_device::{Device, Failed, InputDevice};
use std::io;
use std::io::Read;

/// A text in memory, as a reader. No call of it fails.
#[derive(Drop)]
pub struct AtHand<'a> {
    /// What is left to give.
    rest: &'a [u8],
    /// Whether it gave more than can be counted. No text in memory is so long, so none is.
    worn: bool,
}

impl<'a> AtHand<'a> {
    /// A reader of this text.
    pub fn new(text: &'a [u8]) -> AtHand<'a>
        ensures { result ≡ record { rest = text.entry; worn = false } }
    {
        AtHand {
            rest: text,
            worn: false,
        }
    }
}

impl Device for AtHand<'_> {
    ghost failure_count = { λ h. failures_of h.worn };

    fn failures(&self) -> u64 {
        if self.worn { u64::MAX } else { 0 }
    }
}

impl Read for AtHand<'_> {
    ghost remaining = { λ h. Some h.rest.now };

    fn read(&mut self, buf: &mut [u8]) -> io::Result<usize>
        ensures bound { ReadsAtMost result buf.new }
        ensures bytes { ReadConsumes (Some self.old.rest.now) (Some self.new.rest.now) result buf.new }
        ensures worn { self.new.worn ≡ self.old.worn }
    {
        self.rest.read(buf)
    }
}

impl InputDevice for AtHand<'_> {
    ghost given_count = { λ h. given_of h.worn h.rest.now };

    fn pull(&mut self, piece: &mut [u8]) -> Result<usize, Failed>
        ensures bound { ReadsAtMost result piece.new }
        ensures bytes { ReadConsumes (Some self.old.rest.now) (Some self.new.rest.now) result piece.new }
        ensures given { given_of self.new.worn self.new.rest.now ≡ given_after result (given_of self.old.worn self.old.rest.now) }
        ensures failed { OnErr result (HasFailed (failures_of self.old.worn) (failures_of self.new.worn)) }
        ensures passed { OnOk result (failures_of self.new.worn ≡ failures_of self.old.worn) }
        ensures counts { failures_of self.old.worn ≤ failures_of self.new.worn }
        ensures once { FailedOnceAtMost (failures_of self.old.worn) (failures_of self.new.worn) }
    {
        match self.rest.read(piece) {
            Ok(count) => Ok(count),
            Err(_) => Err(Failed),
        }
    }

    fn refuse(&mut self)
        requires { 2 ^ 64 - 1 ≤ given_of self.old.worn self.old.rest.now }
        ensures failed { HasFailed (failures_of self.old.worn) (failures_of self.new.worn) }
        ensures counts { failures_of self.old.worn ≤ failures_of self.new.worn }
        ensures once { FailedOnceAtMost (failures_of self.old.worn) (failures_of self.new.worn) }
    {}
}
