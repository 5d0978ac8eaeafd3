//! Streams of any kind as devices.

ghost use Rattle.std.specs.Prelude.{◌≡◌, ◌≤◌, ◌+◌, ◌-◌, ◌^◌, ℕ, min, true, OnErr, OnOk};
ghost use Rattle.std.specs.Result.{is_err, result_ok};
ghost use Rattle.std.specs.Io.KnownBytes.{Keeps, ReadConsumes, WriteAppends};
ghost use Rattle.std.specs.Io.{ReadsAtMost, WritesAtMost};
ghost use Rattle.ioa_device.specs.Counts.{moved, has_failed, least_taken, count_after, given_after};
ghost use Rattle.ioa_device.specs.Failing.{FailedOnceAtMost, HasFailed, TakesSome};

use crate::device::{Device, Failed, InputDevice, OutputDevice};
use std::io;
use std::io::{Read, Write};

/// A reader or a writer, how many of its calls failed, and how many bytes its reads gave. Both counts stop at their greatest.
#[derive(Drop)]
pub struct Counted<T> {
    inner: T,
    failures: u64,
    given: u64,
}

impl<T> Counted<T> {
    /// This reader or writer, of which no call failed, and which gave no byte.
    pub fn new(inner: T) -> Counted<T>
        ensures { result ≡ record { inner = inner; failures = 0; given = 0 } }
    {
        Counted {
            inner,
            failures: 0,
            given: 0,
        }
    }

    /// The reader or writer itself, without its counts.
    pub fn into_inner(self) -> T
        ensures { result ≡ self.inner }
    {
        self.inner
    }

    /// Counts a call, if it failed.
    fn count(&mut self, failed: bool)
        ensures inner { self.new.inner ≡ self.old.inner }
        ensures count { self.new.failures ≡ count_after failed self.old.failures }
        ensures failed { failed ≡ true → HasFailed self.old.failures self.new.failures }
        ensures counts { self.old.failures ≤ self.new.failures }
        ensures once { FailedOnceAtMost self.old.failures self.new.failures }
        ensures given { self.new.given ≡ self.old.given }
    {
        if failed {
            self.failures = self.failures.saturating_add(1);
        }
    }

    /// Counts the bytes that a read gave.
    fn gave<E>(&mut self, answer: &Result<usize, E>)
        ensures inner { self.new.inner ≡ self.old.inner }
        ensures count { self.new.failures ≡ self.old.failures }
        ensures given { self.new.given ≡ given_after answer.now self.old.given }
    {
        if let Ok(count) = answer {
            self.given = self.given.saturating_add(*count as u64);
        }
    }
}

/// What is told of a call that answered this, and has to move so many bytes at least.
fn told(answer: &io::Result<usize>, least: usize) -> Result<usize, Failed>
    ensures { result_ok result ≡ moved least answer.now }
{
    match answer {
        Ok(count) if *count >= least => Ok(*count),
        Ok(_) | Err(_) => Err(Failed),
    }
}

/// How many bytes a write of a piece has to take: one, where there is one.
fn least_taken_of(piece: &[u8]) -> usize
    ensures { result ≡ least_taken piece.now }
{
    piece.len().min(1)
}

impl<T> Device for Counted<T> {
    ghost failure_count = { λ c. c.failures };

    fn failures(&self) -> u64 {
        self.failures
    }
}

impl<T: Read> Read for Counted<T> {
    ghost remaining = { λ c. T.remaining c.inner };

    fn read(&mut self, buf: &mut [u8]) -> io::Result<usize>
        ensures bound { ReadsAtMost result buf.new }
        ensures bytes { ReadConsumes (T.remaining self.old.inner) (T.remaining self.new.inner) result buf.new }
        ensures given { self.new.given ≡ given_after result self.old.given }
        ensures count { self.new.failures ≡ count_after (is_err result) self.old.failures }
    {
        let answer = self.inner.read(buf);
        self.gave(&answer);
        self.count(answer.is_err());
        answer
    }
}

impl<T: Read> InputDevice for Counted<T> {
    ghost given_count = { λ c. c.given };

    fn pull(&mut self, piece: &mut [u8]) -> Result<usize, Failed>
        ensures bound { ReadsAtMost result piece.new }
        ensures bytes { ReadConsumes (T.remaining self.old.inner) (T.remaining self.new.inner) result piece.new }
        ensures given { self.new.given ≡ given_after result self.old.given }
        ensures failed { OnErr result (HasFailed self.old.failures self.new.failures) }
        ensures passed { OnOk result (self.new.failures ≡ self.old.failures) }
        ensures counts { self.old.failures ≤ self.new.failures }
        ensures once { FailedOnceAtMost self.old.failures self.new.failures }
        ensures count { self.new.failures ≡ count_after (is_err result) self.old.failures }
    {
        let answer = told(&self.inner.read(piece), 0);
        self.gave(&answer);
        self.count(answer.is_err());
        answer
    }

    fn refuse(&mut self)
        requires { 2 ^ 64 - 1 ≤ self.old.given }
        ensures failed { HasFailed self.old.failures self.new.failures }
        ensures counts { self.old.failures ≤ self.new.failures }
        ensures once { FailedOnceAtMost self.old.failures self.new.failures }
        ensures inner { self.new.inner ≡ self.old.inner }
        ensures given { self.new.given ≡ self.old.given }
        ensures count { self.new.failures ≡ count_after true self.old.failures }
    {
        self.count(true);
    }
}

impl<T: Write> Write for Counted<T> {
    ghost contents = { λ c. T.contents c.inner };

    fn write(&mut self, buf: &[u8]) -> io::Result<usize>
        ensures bound { WritesAtMost result buf.now }
        ensures bytes { WriteAppends (T.contents self.old.inner) (T.contents self.new.inner) result buf.now }
        ensures count { self.new.failures ≡ count_after (has_failed (least_taken buf.now) result) self.old.failures }
    {
        let answer = self.inner.write(buf);
        self.count(told(&answer, least_taken_of(buf)).is_err());
        answer
    }

    fn flush(&mut self) -> io::Result<()>
        ensures bytes { Keeps (T.contents self.old.inner) (T.contents self.new.inner) }
        ensures count { self.new.failures ≡ count_after (is_err result) self.old.failures }
    {
        let answer = self.inner.flush();
        self.count(answer.is_err());
        answer
    }
}

impl<T: Write> OutputDevice for Counted<T> {
    fn push(&mut self, piece: &[u8]) -> Result<usize, Failed>
        ensures bound { WritesAtMost result piece.now }
        ensures some { TakesSome result piece.now }
        ensures bytes { WriteAppends (T.contents self.old.inner) (T.contents self.new.inner) result piece.now }
        ensures failed { OnErr result (HasFailed self.old.failures self.new.failures) }
        ensures passed { OnOk result (self.new.failures ≡ self.old.failures) }
        ensures counts { self.old.failures ≤ self.new.failures }
        ensures once { FailedOnceAtMost self.old.failures self.new.failures }
        ensures count { self.new.failures ≡ count_after (is_err result) self.old.failures }
    {
        let answer = told(&self.inner.write(piece), least_taken_of(piece));
        self.count(answer.is_err());
        answer
    }
}
