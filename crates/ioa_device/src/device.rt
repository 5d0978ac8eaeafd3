//! Devices: what replays read from and write to, which remember that a call failed.

ghost use Rattle.std.specs.Prelude.{◌≡◌, ◌≤◌, ◌-◌, ◌^◌, ℕ, OnErr, OnOk};
ghost use Rattle.std.specs.Io.KnownBytes.{ReadConsumes, WriteAppends};
ghost use Rattle.std.specs.Io.{ReadsAtMost, WritesAtMost};
ghost use Rattle.ioa_device.specs.Counts.{given_after};
ghost use Rattle.ioa_device.specs.Failing.{FailedOnceAtMost, HasFailed, TakesSome};

use std::io::{Read, Write};

/// A call of a device failed, and its count says so.
#[derive(Clone, Copy, Debug, PartialEq, Eq)]
pub struct Failed;

/// A reader or a writer that knows how many of its calls failed.
pub trait Device {
    ghost failure_count: { Self → ℕ };

    /// How many calls failed so far.
    fn failures(&self) -> u64
        ensures { result ≡ failure_count self.now };
}

/// A reader whose failures are counted, and the bytes that it gave. That count stops at its greatest.
pub trait InputDevice: Read + Device {
    ghost given_count: { Self → ℕ };

    /// One read: how many bytes it put at the front of the piece, or `Failed`, which is counted.
    fn pull(&mut self, piece: &mut [u8]) -> Result<usize, Failed>
        ensures bound { ReadsAtMost result piece.new }
        ensures bytes { ReadConsumes (Self.remaining self.old) (Self.remaining self.new) result piece.new }
        ensures given { given_count self.new ≡ given_after result (given_count self.old) }
        ensures failed { OnErr result (HasFailed (Self.failure_count self.old) (Self.failure_count self.new)) }
        ensures passed { OnOk result (Self.failure_count self.new ≡ Self.failure_count self.old) }
        ensures counts { Self.failure_count self.old ≤ Self.failure_count self.new }
        ensures once { FailedOnceAtMost (Self.failure_count self.old) (Self.failure_count self.new) };

    /// Counts as failed a reader that goes on past what can be counted: it gave the greatest count of bytes, so that its reads, or the
    /// lines that it gave, may have no number any more.
    fn refuse(&mut self)
        requires { 2 ^ 64 - 1 ≤ given_count self.old }
        ensures failed { HasFailed (Self.failure_count self.old) (Self.failure_count self.new) }
        ensures counts { Self.failure_count self.old ≤ Self.failure_count self.new }
        ensures once { FailedOnceAtMost (Self.failure_count self.old) (Self.failure_count self.new) };
}

/// A writer whose failures are counted, a write that takes nothing of a piece among them.
pub trait OutputDevice: Write + Device {
    /// One write: how many bytes of the piece it took, or `Failed`, which is counted, also where it takes none of some.
    fn push(&mut self, piece: &[u8]) -> Result<usize, Failed>
        ensures bound { WritesAtMost result piece.now }
        ensures some { TakesSome result piece.now }
        ensures bytes { WriteAppends (Self.contents self.old) (Self.contents self.new) result piece.now }
        ensures failed { OnErr result (HasFailed (Self.failure_count self.old) (Self.failure_count self.new)) }
        ensures passed { OnOk result (Self.failure_count self.new ≡ Self.failure_count self.old) }
        ensures counts { Self.failure_count self.old ≤ Self.failure_count self.new }
        ensures once { FailedOnceAtMost (Self.failure_count self.old) (Self.failure_count self.new) };
}
