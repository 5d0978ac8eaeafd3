//! The program in memory: its files and devices, and one loop over a table of rows.

use ioa_device::{Counted, InputDevice, OutputDevice};
pub use ioa_rows::COUNTER;
use ioa_rows::{column, columns, is_row};
use ioac::command::command;
use ioac::{Store, StoreErr, Tee};
use std::alloc::{AllocError, Global};
use std::process::Abort;
use std::sync::Wait;
use std::thread::Threads;
use std::time::Clock;

/// The words, after the program's name, that most tests give.
pub const REPLAY: &str = "replay f";

/// Two files in memory: `f`, which is only read, and `o`, which is there once it was saved.
#[derive(Drop)]
pub struct Shelf<'a> {
    pub bytes: &'a [u8],
    pub saved: Option<Vec<u8>>,
}

impl<'a> Store for Shelf<'a> {
    ghost use Rattle.std.specs.Prelude.{◌≡◌, codes, IfNone, IfSome};
    ghost use Rattle.std.specs.Option.{option_map};

    ghost holds = { λ shelf name bytes. (name ≡ codes "f") × (bytes ≡ shelf.bytes.now) };

    ghost lacks = { λ _ name. name ≡ codes "f" → ⊥ };

    ghost begins = { λ shelf name found. name ≡ codes "o" → found ≡ option_map (λ o. o.items) shelf.saved };

    ghost bars = { λ _ name. name ≡ codes "o" → ⊥ };

    ghost saves = { λ _ after name bytes. (name ≡ codes "o") × IfNone after.saved ⊥ × IfSome after.saved (λ o. o.items ≡ bytes) };

    fn load(&self, alloc: Global, name: &str) -> Result<Vec<u8>, StoreErr> {
        if name == "f" {
            Ok(Vec::from_slice(alloc, self.bytes)?)
        } else {
            Err(StoreErr::Io)
        }
    }

    fn load_whole(&self, alloc: Global, name: &str) -> Result<Vec<u8>, StoreErr> {
        self.load(alloc, name)
    }

    fn beginning(&self, alloc: Global, name: &str) -> Result<Option<Vec<u8>>, AllocError> {
        if name == "o" {
            match &self.saved {
                Some(bytes) => Ok(Some(Vec::from_slice(alloc, bytes)?)),
                None => Ok(None),
            }
        } else {
            Ok(None)
        }
    }

    fn save(&mut self, alloc: Global, name: &str, bytes: &[u8]) -> Result<(), StoreErr> {
        if name == "o" {
            self.saved = Some(Vec::from_slice(alloc, bytes)?);
            Ok(())
        } else {
            Err(StoreErr::Io)
        }
    }

    fn complaint(&self, alloc: Global, name: &str) -> Result<Option<String>, StoreErr> {
        if name == "f" {
            Ok(None)
        } else {
            Ok(Some(String::from_str(alloc, "there is none")?))
        }
    }
}

/// What a run of the program is given: the words of its command line after the program's name, parted by spaces, the file
/// `f`, and standard input.
#[derive(Clone, Copy)]
pub struct Given<'a> {
    pub words: &'a str,
    pub file: &'a [u8],
    pub list: &'a str,
}

/// What a run of the program has to print, and its exit status.
#[derive(Clone, Copy)]
pub struct Wanted<'a> {
    pub output: &'a str,
    pub errors: &'a str,
    pub status: u8,
}

/// What a run of the program printed, its exit status, and what it has saved.
#[derive(Drop)]
pub struct Ran {
    pub output: Vec<u8>,
    pub errors: Vec<u8>,
    pub status: u8,
    pub saved: Option<Vec<u8>>,
}

/// The program's name, and the words of this text, which are parted by spaces.
pub fn words<'a>(rt: &impl Abort, alloc: Global, text: &'a str) -> Vec<&'a str> {
    let mut words = Vec::new(alloc);
    words.push("ioac").expect(rt, "memory");
    for word in text.split_whitespace() {
        words.push(word).expect(rt, "memory");
    }
    words
}

/// Runs the program on devices, and answers its exit status, and what it has saved.
pub fn run_on<
    H: Abort + Threads + Wait + Clock + Sync,
    R: InputDevice,
    W: OutputDevice,
    E: OutputDevice,
>(
    rt: &H,
    alloc: Global,
    given: &Given<'_>,
    input: &mut Tee<R>,
    output: &mut W,
    errors: &mut E,
) -> (u8, Option<Vec<u8>>) {
    let words = words(rt, alloc, given.words);
    let mut store = Shelf {
        bytes: given.file,
        saved: None,
    };
    let status = command(
        rt,
        alloc,
        words.as_slice(),
        &mut store,
        input,
        output,
        errors,
    );
    (status, store.saved)
}

/// Runs the program.
pub fn run<H: Abort + Threads + Wait + Clock + Sync>(
    rt: &H,
    alloc: Global,
    given: &Given<'_>,
) -> Ran {
    let mut input = Tee::new(Counted::new(given.list.as_bytes()));
    let mut output = Counted::new(Vec::new(alloc));
    let mut errors = Counted::new(Vec::new(alloc));
    let (status, saved) = run_on(rt, alloc, given, &mut input, &mut output, &mut errors);
    Ran {
        output: output.into_inner(),
        errors: errors.into_inner(),
        status,
        saved,
    }
}

/// Runs the program and compares what it prints. It tells the row that fails.
pub fn expect<H: Abort + Threads + Wait + Clock + Sync>(
    rt: &H,
    alloc: Global,
    row: &str,
    given: &Given<'_>,
    wanted: &Wanted<'_>,
) {
    let ran = run(rt, alloc, given);
    expect_answer(rt, row, &ran, wanted);
    assert!(rt; ran.saved.is_none() || ran.status == 0, "saved in {row}");
}

/// Compares what the program printed with what is wanted. It tells the row that fails.
pub fn expect_answer(rt: &impl Abort, row: &str, ran: &Ran, wanted: &Wanted<'_>) {
    assert!(rt;
        ran.errors.as_slice() == wanted.errors.as_bytes(),
        "errors in {row}"
    );
    assert!(rt;
        ran.output.as_slice() == wanted.output.as_bytes(),
        "output in {row}"
    );
    assert!(rt; ran.status == wanted.status, "status in {row}");
}

/// What the first columns of a table are.
#[derive(Clone, Copy)]
pub enum First<'a> {
    /// A list, to be replayed on this file.
    List(&'a str),
    /// A file to replay, and a list.
    File,
    /// The words after the program's name, and a list, for this file.
    Words(&'a str),
    /// The words after the program's name, and a file.
    Request,
    /// A file to check.
    Check,
    /// The words after the program's name, a file, and standard input.
    All,
    /// A list, to be replayed on the object of this source.
    Object(&'a str),
    /// The words after the program's name, the digits of a file's bytes, and standard input.
    Bytes,
    /// A part of this file, what stands in its place, and a list: to be replayed on the file that is changed so.
    Changed(&'a str),
}

// The file of a row that tells what is changed in one, and nothing where the part is not in it.
fn changed(rt: &impl Abort, alloc: Global, file: &str, columns: &[String]) -> Vec<u8> {
    let Some((before, after)) = file.split_once(column(columns, 0)) else {
        return Vec::new(alloc);
    };
    let by = column(columns, 1);
    let changed = format!(in alloc; "{before}{by}{after}");
    changed.expect(rt, "memory").into_bytes()
}

/// The object that the program makes of a source.
pub fn object<H: Abort + Threads + Wait + Clock + Sync>(
    rt: &H,
    alloc: Global,
    source: &str,
) -> Vec<u8> {
    let given = Given {
        words: "compile f o",
        file: source.as_bytes(),
        list: "",
    };
    run(rt, alloc, &given).saved.expect(rt, "an object")
}

// The bytes of a row's file.
fn file_in<H: Abort + Threads + Wait + Clock + Sync>(
    rt: &H,
    alloc: Global,
    first: First<'_>,
    columns: &[String],
) -> Vec<u8> {
    let text = match first {
        First::Object(source) => return object(rt, alloc, source),
        First::Bytes => return hex::decode(alloc, column(columns, 1)).expect(rt, "digits"),
        First::Changed(file) => return changed(rt, alloc, file, columns),
        First::List(file) | First::Words(file) => file,
        First::File | First::Check => column(columns, 0),
        First::Request | First::All => column(columns, 1),
    };
    Vec::from_slice(alloc, text.as_bytes()).expect(rt, "memory")
}

// What the first columns give with a file, and how many they are.
fn given_in<'a>(first: First<'_>, columns: &'a [String], file: &'a [u8]) -> (Given<'a>, usize) {
    let one = column(columns, 0);
    let (words, list, count) = match first {
        First::List(_) | First::Object(_) => (REPLAY, one, 1),
        First::File => (REPLAY, column(columns, 1), 2),
        First::Words(_) => (one, column(columns, 1), 2),
        First::Request => (one, "", 2),
        First::Check => ("check f", "", 1),
        First::All | First::Bytes => (one, column(columns, 2), 3),
        First::Changed(_) => (REPLAY, column(columns, 2), 3),
    };
    (Given { words, file, list }, count)
}

/// What has to be printed, told of errors, and answered as exit status: the columns from this number on.
pub fn wanted_in<'a>(rt: &impl Abort, columns: &'a [String], number: usize) -> Wanted<'a> {
    let status = column(columns, number.saturating_add(2));
    Wanted {
        output: column(columns, number),
        errors: column(columns, number.saturating_add(1)),
        status: status.parse::<u8>().expect(rt, "a status"),
    }
}

// Runs the program on this row, and compares what it prints.
fn expect_row<H: Abort + Threads + Wait + Clock + Sync>(
    rt: &H,
    alloc: Global,
    row: &str,
    first: First<'_>,
) {
    let columns = columns(alloc, row).expect(rt, "a row");
    let file = file_in(rt, alloc, first, &columns);
    let (given, count) = given_in(first, &columns, &file);
    let wanted = wanted_in(rt, &columns, count);
    expect(rt, alloc, row, &given, &wanted);
}

/// Runs the program on each row of a table and compares what it prints: after the first columns come what is printed, what is
/// told of errors, and the exit status.
pub fn expect_rows<H: Abort + Threads + Wait + Clock + Sync>(
    rt: &H,
    alloc: Global,
    rows: &str,
    first: First<'_>,
) {
    for row in rows.lines() {
        if is_row(row) {
            expect_row(rt, alloc, row, first);
        }
    }
}
