//! A reader that can keep what it gives, so that it can be told of afterwards.

ghost use Rattle.std.specs.Prelude.{◌≡◌, ◌≤◌, [], None, Some, OnErr, OnOk, IfOk, take};
ghost use Rattle.std.specs.Option.{option_copied};
ghost use Rattle.std.specs.Io.KnownBytes.{ReadConsumes};
ghost use Rattle.std.specs.Io.{ReadsAtMost};
ghost use Rattle.ioa_device.specs.Counts.{given_after};
ghost use Rattle.ioa_device.specs.Failing.{FailedOnceAtMost, HasFailed};
ghost use Rattle.ioac.specs.Tees.{IsNoted, kept_of};

use ioa_device::{Device, Failed, InputDevice};
use std::alloc::Global;
use std::io;
use std::io::Read;

/// A reader, and what it gave since it was asked to keep that.
#[derive(Drop)]
pub struct Tee<T> {
    pub inner: T,
    kept: Option<Vec<u8>>,
}

impl<T> Tee<T> {
    /// A reader that keeps nothing.
    pub fn new(inner: T) -> Tee<T>
        ensures inner { result.inner ≡ inner }
        ensures kept { kept_of result ≡ None }
    {
        Tee { inner, kept: None }
    }

    /// Keeps from now on what it gives, as long as memory is found for it.
    pub fn keep(&mut self, alloc: Global)
        ensures inner { self.new.inner ≡ self.old.inner }
        ensures kept { kept_of self.new ≡ Some [] }
    {
        self.kept = Some(Vec::new(alloc));
    }

    /// What it gave since it was asked to keep that. None where it was not, or where memory was short.
    pub fn kept(&self) -> Option<&[u8]>
        ensures { option_copied result ≡ kept_of self.now }
    {
        match &self.kept {
            Some(bytes) => Some(bytes.as_slice()),
            None => None,
        }
    }

    /// Keeps a piece that it gave.
    fn note(&mut self, piece: &[u8])
        ensures inner { self.new.inner ≡ self.old.inner }
        ensures noted { IsNoted (kept_of self.old) piece.now (kept_of self.new) }
    {
        let is_whole = match &mut self.kept {
            Some(bytes) => bytes.extend_from_slice(piece).is_ok(),
            None => true,
        };
        if !is_whole {
            self.kept = None;
        }
    }
}

impl<T: Device> Device for Tee<T> {
    ghost failure_count = { λ h. T.failure_count h.inner };

    fn failures(&self) -> u64 {
        self.inner.failures()
    }
}

impl<T: Read> Read for Tee<T> {
    ghost remaining = { λ h. T.remaining h.inner };

    fn read(&mut self, buf: &mut [u8]) -> io::Result<usize>
        ensures bound { ReadsAtMost result buf.new }
        ensures bytes { ReadConsumes (T.remaining self.old.inner) (T.remaining self.new.inner) result buf.new }
        ensures noted { IfOk result (λ n. IsNoted (kept_of self.old) (take n buf.new) (kept_of self.new)) }
        ensures unnoted { OnErr result (kept_of self.new ≡ kept_of self.old) }
    {
        let count = self.inner.read(buf)?;
        self.note(&buf[..count]);
        Ok(count)
    }
}

impl<T: InputDevice> InputDevice for Tee<T> {
    ghost given_count = { λ h. T.given_count h.inner };

    fn pull(&mut self, piece: &mut [u8]) -> Result<usize, Failed>
        ensures bound { ReadsAtMost result piece.new }
        ensures bytes { ReadConsumes (T.remaining self.old.inner) (T.remaining self.new.inner) result piece.new }
        ensures given { T.given_count self.new.inner ≡ given_after result (T.given_count self.old.inner) }
        ensures failed { OnErr result (HasFailed (T.failure_count self.old.inner) (T.failure_count self.new.inner)) }
        ensures passed { OnOk result (T.failure_count self.new.inner ≡ T.failure_count self.old.inner) }
        ensures counts { T.failure_count self.old.inner ≤ T.failure_count self.new.inner }
        ensures once { FailedOnceAtMost (T.failure_count self.old.inner) (T.failure_count self.new.inner) }
        ensures noted { IfOk result (λ n. IsNoted (kept_of self.old) (take n piece.new) (kept_of self.new)) }
    {
        let answer = self.inner.pull(piece);
        if let Ok(count) = answer {
            self.note(&piece[..count]);
        }
        answer
    }

    fn refuse(&mut self) {
        self.inner.refuse();
    }
}
