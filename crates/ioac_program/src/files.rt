//! The files of the process as a `Store`. A file is replaced whole, or stays as it is.

ghost use Rattle.std.specs.Prelude.{◌≡◌, ◌++◌, ◌∷◌, [], IfOk, IfSome, MatchOption, OnOk};
ghost use Rattle.std.specs.Io.{StartsWith};
ghost use Rattle.std.specs.Io.KnownBytes.{Consumes, IsAtEnd};
ghost use Rattle.ioac_program.specs.Files.{read_of};

use ioa_value::LIMITS;
use ioac::{Store, StoreErr, is_object};
use std::alloc::{AllocError, Global};
use std::fs::{File, OpenFile};
use std::io::{ErrorKind, Read, Write};
use std::{fs, io, rt};

/// The files that a runtime reaches.
#[derive(Drop)]
pub struct Files<'a, R> {
    rt: &'a R,
}

impl<'a, R> Files<'a, R> {
    ghost use Rattle.std.specs.Prelude.{◌≡◌};

    /// The files of this runtime.
    pub fn new(rt: &'a R) -> Files<'a, R>
        ensures { result.rt ≡ rt.entry }
    {
        Files { rt }
    }
}

impl<'a, R: rt::Files> Store for Files<'a, R> {
    // Nothing is claimed of what a file holds.
    ghost holds = { λ _ _ _. Unit {0} };

    ghost lacks = { λ _ _. Unit {0} };

    ghost begins = { λ _ _ _. Unit {0} };

    ghost bars = { λ _ _. Unit {0} };

    ghost saves = { λ _ _ _ _. Unit {0} };

    fn load(&self, alloc: Global, name: &str) -> Result<Vec<u8>, StoreErr> {
        let file = open(self.rt, name)?;
        read_file(alloc, file, LIMITS.text as u64)
    }

    fn load_whole(&self, alloc: Global, name: &str) -> Result<Vec<u8>, StoreErr> {
        let file = open(self.rt, name)?;
        read_all(alloc, file)
    }

    fn beginning(&self, alloc: Global, name: &str) -> Result<Option<Vec<u8>>, AllocError> {
        match first_bytes(self.rt, alloc, name, 4) {
            Ok(bytes) => Ok(Some(bytes)),
            Err(StoreErr::Io) => Ok(None),
            Err(StoreErr::OutOfMemory) => Err(AllocError),
        }
    }

    fn save(&mut self, alloc: Global, name: &str, bytes: &[u8]) -> Result<(), StoreErr> {
        let beside = format!(in alloc; "{name}.part")?;
        match replace(self.rt, beside.as_str(), name, bytes) {
            Ok(()) => Ok(()),
            Err(error) => Err(store_err(&error)),
        }
    }

    fn complaint(&self, alloc: Global, name: &str) -> Result<Option<String>, StoreErr> {
        match first_read(self.rt, name) {
            Ok(_) => Ok(None),
            Err(error) => Ok(Some(format!(in alloc; "{error}")?)),
        }
    }
}

fn open<R: rt::Files>(rt: &R, name: &str) -> Result<R::File, StoreErr> {
    match fs::open(rt, name) {
        Ok(file) => Ok(file),
        Err(error) => Err(store_err(&error)),
    }
}

/// So many bytes of a file at most. What is no file, as a pipe, is not opened: that would wait for who writes to it.
///
/// # Errors
/// `Io` where there is no file of this name that can be read; or want of memory.
fn first_bytes<R: rt::Files>(
    rt: &R,
    alloc: Global,
    name: &str,
    most: u64,
) -> Result<Vec<u8>, StoreErr> {
    if !is_file(rt, name) {
        return Err(StoreErr::Io);
    }
    let file = open(rt, name)?;
    read_all(alloc, file.take(most))
}

/// Whether a file stands under this name, or where a link of this name leads.
fn is_file<R: rt::Files>(rt: &R, name: &str) -> bool {
    match fs::metadata(rt, name) {
        Ok(found) => found.is_file(),
        Err(_) => false,
    }
}

/// How many bytes one read of a file gives, of one that is asked for. A folder can be opened, and not read.
fn first_read<R: rt::Files>(rt: &R, name: &str) -> io::Result<usize> {
    let mut file = fs::open(rt, name)?;
    let mut byte = [0; 1];
    file.read(&mut byte)
}

/// Puts the bytes in a new file beside another one, whose place it takes once it is whole.
///
/// # Errors
/// The new file's name is taken, what has its place is no file, or the system refuses. The new file is removed, if there is one.
fn replace<R: rt::Files>(rt: &R, beside: &str, name: &str, bytes: &[u8]) -> io::Result<()> {
    if let Ok(found) = fs::metadata(rt, name) {
        if !found.is_file() {
            return Err(io::Error::from(ErrorKind::InvalidInput));
        }
    }
    let file = File::create_new(rt, beside)?;
    let placed = match fill(file, bytes) {
        Ok(()) => fs::rename(rt, beside, name),
        Err(error) => Err(error),
    };
    if placed.is_err() {
        let _ = fs::remove_file(rt, beside);
    }
    placed
}

/// Writes the bytes, and waits until the system has stored them.
fn fill<F: Write + OpenFile + Drop>(mut file: F, bytes: &[u8]) -> io::Result<()> {
    file.write_all(bytes)?;
    file.sync_all()
}

/// The bytes of a file: of an object all, of anything else one past the limit at most, which tells that a source is too long. They are counted as they
/// come, and no length is believed before.
///
/// # Errors
/// `Io` where a read fails, if it was not just interrupted; or want of memory.
fn read_file<R: Read + Drop>(alloc: Global, mut file: R, limit: u64) -> Result<Vec<u8>, StoreErr>
    ensures { IfOk result (λ bytes. IfSome (R.remaining file) (λ all. bytes.items ≡ read_of limit all)) }
{
    let mut bytes = Vec::new(alloc);
    let Some(first) = first_byte(&mut file)? else {
        return Ok(bytes);
    };
    bytes.push(first)?;
    if is_object(bytes.as_slice()) {
        read_on(&mut file, &mut bytes)?;
    } else {
        read_on(&mut file.take(limit), &mut bytes)?;
    }
    Ok(bytes)
}

/// The next byte of a reader. None at its end.
///
/// # Errors
/// `Io` where a read fails, if it was not just interrupted; or want of memory.
fn first_byte<R: Read>(reader: &mut R) -> Result<Option<u8>, StoreErr>
    ensures { IfOk result (λ first. MatchOption first (IsAtEnd (R.remaining reader.old)) (λ byte. Consumes (R.remaining reader.old) (R.remaining reader.new) (byte ∷ []))) }
{
    let mut byte = [0; 1];
    for _ in 0..u64::MAX {
        match reader.read(&mut byte) {
            Ok(0) => return Ok(None),
            Ok(_) => return Ok(Some(byte[0])),
            Err(error) if error.kind() == ErrorKind::Interrupted => {}
            Err(error) => return Err(store_err(&error)),
        }
    }
    Err(StoreErr::Io)
}

/// All that a reader gives.
///
/// # Errors
/// `Io` where a read fails, if it was not just interrupted; or want of memory.
fn read_all<R: Read + Drop>(alloc: Global, mut reader: R) -> Result<Vec<u8>, StoreErr>
    ensures { IfOk result (λ bytes. IfSome (R.remaining reader) (λ all. bytes.items ≡ all)) }
{
    let mut bytes = Vec::new(alloc);
    read_on(&mut reader, &mut bytes)?;
    Ok(bytes)
}

/// Reads to the end.
fn read_on<R: Read>(reader: &mut R, bytes: &mut Vec<u8>) -> Result<(), StoreErr>
    ensures whole { OnOk result (IfSome (R.remaining reader.old) (λ all. bytes.new.items ≡ bytes.old.items ++ all)) }
    ensures begins { StartsWith bytes.new.items bytes.old.items }
{
    match reader.read_to_end(bytes) {
        Ok(_) => Ok(()),
        Err(error) => Err(store_err(&error)),
    }
}

fn store_err(error: &io::Error) -> StoreErr {
    match error.kind() {
        ErrorKind::OutOfMemory => StoreErr::OutOfMemory,
        _ => StoreErr::Io,
    }
}
