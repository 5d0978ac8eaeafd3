//! The lines of a text, one after another, as a reader gives them.

ghost use Rattle.std.specs.Prelude.{◌≡◌, ◌<◌, ◌≤◌, ◌-◌, ◌+◌, ◌^◌, ◌⊎◌, [], ℕ, Ok, Some, true, false, IfOk, IfErr, IfSome, OnOk, IsErrOf, length, min};
ghost use Rattle.ioa_value.specs.Lists.{after_line, first_line};
ghost use Rattle.ioa_device.specs.Devices.{FailsWhere, change};
ghost use Rattle.ioa_device.specs.LineReading.{HasByte, HasLine, IsLineText, IsOver, IsWithin, rest, to_come};
ghost use Rattle.ioa_device.specs.declared.failure.LogErr.{LogErr};

use crate::device::{Failed, InputDevice};
use crate::failure::LogErr;
use crate::streams::{PIECE, blamed};
use ioa_value::{OutOfMemory, ended_line};
use std::alloc::Global;

/// What has come of a text. Kept are a piece and one line.
pub struct LineReader {
    /// The piece that was read last: of it the bytes from `start` to `end` are still to come.
    pub room: Vec<u8>,
    pub start: usize,
    pub end: usize,
    /// Whether the reader gave its last byte: it is asked for no more then.
    pub over: bool,
    /// The line that came last, without its LF.
    pub line: Vec<u8>,
}

/// Written out, so that who drops one calls this, and does not take it apart itself.
impl Drop for LineReader {
    fn drop(self) {
        let LineReader {
            room: _,
            start: _,
            end: _,
            over: _,
            line: _,
        } = self;
    }
}

impl LineReader {
    /// Before the first byte.
    pub fn start(alloc: Global) -> Result<LineReader, OutOfMemory>
        ensures none { IfOk result (λ r. rest r ≡ []) }
        ensures within { IfOk result IsWithin }
        ensures going { IfOk result (λ r. r.over ≡ false) }
    {
        Ok(LineReader {
            room: vec![in alloc; 0u8; PIECE]?,
            start: 0,
            end: 0,
            over: false,
            line: Vec::new(alloc),
        })
    }

    /// Whether a byte is to come; `Io` where the reader fails. Of a byte that was read the reader is not asked again, nor behind its end.
    pub fn has_more<R: InputDevice>(&mut self, input: &mut R) -> Result<bool, LogErr>
        requires within { IsWithin self.old }
        requires over { IsOver (R.remaining input.old) self.old }
        ensures within { IsWithin self.new }
        ensures over { IsOver (R.remaining input.new) self.new }
        ensures some { result ≡ Ok true → IfSome (to_come (R.remaining input.old) self.old) (λ all. (0 < length all) × (to_come (R.remaining input.new) self.new ≡ Some all)) }
        ensures none { result ≡ Ok false → IfSome (to_come (R.remaining input.old) self.old) (λ all. (all ≡ []) × (to_come (R.remaining input.new) self.new ≡ Some all)) }
        ensures room { result ≡ Ok true → self.new.start < self.new.end }
        ensures asked { HasByte self.old → (input.new ≡ input.old) × (self.new ≡ self.old) }
        ensures ended { result ≡ Ok false → self.new.over ≡ true }
        ensures line { self.new.line ≡ self.old.line }
        ensures counted { OnOk result ((n : ℕ) → min (n + length (rest self.old)) (2 ^ 64 - 1) ≤ R.given_count input.old → min (n + length (rest self.new)) (2 ^ 64 - 1) ≤ R.given_count input.new) }
        ensures devices { FailsWhere (IsErrOf result LogErr.Io) (change R.remaining R.failure_count input.old input.new) }
        ensures only { IfErr result (λ e. e ≡ LogErr.Io) }
    {
        if self.start < self.end {
            return Ok(true);
        }
        if self.over {
            return Ok(false);
        }
        match input.pull(self.room.as_mut_slice()) {
            Ok(count) => {
                self.start = 0;
                self.end = count;
                self.over = count == 0;
                Ok(count > 0)
            }
            Err(Failed) => Err(LogErr::Io),
        }
    }

    /// Takes the bytes up to the next LF, or to the text's end, where that is seen. The reader is asked for nothing behind a line that was read
    /// whole, nor behind its end. After `Io` and `OutOfMemory` it is not asked again: what came of the line is lost.
    pub fn next<R: InputDevice>(&mut self, input: &mut R) -> Result<(), LogErr>
        requires within { IsWithin self.old }
        requires over { IsOver (R.remaining input.old) self.old }
        ensures within { IsWithin self.new }
        ensures over { OnOk result (IsOver (R.remaining input.new) self.new) }
        ensures line { OnOk result (IfSome (to_come (R.remaining input.old) self.old) (λ all. (self.new.line.items ≡ first_line all)
            × (to_come (R.remaining input.new) self.new ≡ Some (after_line all)))) }
        ensures asked { HasLine self.old → input.new ≡ input.old }
        ensures ended { OnOk result (IfSome (to_come (R.remaining input.old) self.old) (λ all. IsLineText all → self.new.over ≡ true)) }
        ensures stays { OnOk result (self.old.over ≡ true → self.new.over ≡ true) }
        ensures counted { OnOk result ((n : ℕ) → min (n + length (rest self.old)) (2 ^ 64 - 1) ≤ R.given_count input.old → 0 < length (rest self.old)
            → min (n + 1 + length (rest self.new)) (2 ^ 64 - 1) ≤ R.given_count input.new) }
        ensures devices { FailsWhere (IsErrOf result LogErr.Io) (change R.remaining R.failure_count input.old input.new) }
        ensures only { IfErr result (λ e. (e ≡ LogErr.Io) ⊎ (e ≡ LogErr.OutOfMemory)) }
    {
        self.line.clear();
        for turn in 0..u64::MAX {
            let piece = &self.room[self.start..self.end];
            if let Some((line, after)) = ended_line(piece) {
                self.line.extend_from_slice(line)?;
                self.start = self.end - after.len();
                return Ok(());
            }
            self.line.extend_from_slice(piece)?;
            self.start = self.end;
            if !self.has_more(input)? {
                return Ok(());
            }
        }
        Err(blamed(input, LogErr::Io))
    }

    /// Takes the next line, where a byte is to come: the answer is whether one was. None may come where the text has ended.
    ///
    /// # Errors
    /// Those of `next`; `AfterEnd` where a byte is to come though the text has ended.
    pub fn advance<R: InputDevice>(&mut self, input: &mut R, ended: bool) -> Result<bool, LogErr>
        requires within { IsWithin self.old }
        requires over { IsOver (R.remaining input.old) self.old }
        ensures within { IsWithin self.new }
        ensures over { OnOk result (IsOver (R.remaining input.new) self.new) }
        ensures going { result ≡ Ok true → ended ≡ false }
        ensures line { result ≡ Ok true → IfSome (to_come (R.remaining input.old) self.old) (λ all. (0 < length all) × (self.new.line.items ≡ first_line all)
            × (to_come (R.remaining input.new) self.new ≡ Some (after_line all))) }
        ensures none { result ≡ Ok false → IfSome (to_come (R.remaining input.old) self.old) (λ all. all ≡ []) }
        ensures asked { HasLine self.old → input.new ≡ input.old }
        ensures ended { result ≡ Ok false → self.new.over ≡ true }
        ensures longer { IsErrOf result LogErr.AfterEnd → (ended ≡ true) × IfSome (to_come (R.remaining input.old) self.old) (λ all. 0 < length all) }
        ensures counted { result ≡ Ok true → (n : ℕ) → min (n + length (rest self.old)) (2 ^ 64 - 1) ≤ R.given_count input.old
            → min (n + 1 + length (rest self.new)) (2 ^ 64 - 1) ≤ R.given_count input.new }
        ensures devices { FailsWhere (IsErrOf result LogErr.Io) (change R.remaining R.failure_count input.old input.new) }
        ensures only { IfErr result (λ e. (e ≡ LogErr.Io) ⊎ ((e ≡ LogErr.AfterEnd) ⊎ (e ≡ LogErr.OutOfMemory))) }
    {
        let some = self.has_more(input)?;
        if !some {
            return Ok(false);
        }
        if ended {
            return Err(LogErr::AfterEnd);
        }
        self.next(input)?;
        Ok(true)
    }
}
