//! The line by which an editor jumps to what is told of: the file, the line, the code, and words. Below it the line is shown.

ghost use Rattle.std.specs.Prelude.{◌≡◌, ◌++◌, OnOk, codes};
ghost use Rattle.std.specs.String.{string_bytes};
ghost use Rattle.ioac.specs.Remarks as spec;

use ioa_account::{line_at, put_shown};
use ioa_request::Code;
use ioa_value::OutOfMemory;
use std::alloc::Global;
use std::fmt::Write;

/// Puts the file, the line and the code.
pub fn put_head(text: &mut String, name: &str, line: usize, code: Code) -> Result<(), OutOfMemory>
    ensures { OnOk result (string_bytes text.new ≡ string_bytes text.old ++ spec.head_text name.now line code) }
{
    write!(text, "{name}:{line}: {code}: ")?;
    Ok(())
}

/// Puts the line of this number, from 1, of the bytes. Nothing, where there is none.
pub fn put_shown_line(
    alloc: Global,
    text: &mut String,
    bytes: &[u8],
    number: usize,
) -> Result<(), OutOfMemory>
    ensures { OnOk result (string_bytes text.new ≡ string_bytes text.old ++ spec.shown_line bytes.now number) }
{
    match line_at(bytes, number) {
        Some(line) => put_shown(alloc, text, line),
        None => Ok(()),
    }
}

/// Puts such a line with its words, and below it the line of the bytes that it names.
pub fn put_jump(
    alloc: Global,
    text: &mut String,
    name: &str,
    line: usize,
    code: Code,
    words: &str,
    bytes: &[u8],
) -> Result<(), OutOfMemory>
    ensures { OnOk result (string_bytes text.new ≡ string_bytes text.old ++ spec.jump_text name.now line code words.now bytes.now) }
{
    put_head(text, name, line, code)?;
    put_worded(alloc, text, line, words, bytes)
}

/// Puts words at the end of their line, and below it the line of the bytes that this names.
fn put_worded(
    alloc: Global,
    text: &mut String,
    line: usize,
    words: &str,
    bytes: &[u8],
) -> Result<(), OutOfMemory>
    ensures { OnOk result (string_bytes text.new ≡ string_bytes text.old ++ (words.now ++ (codes "\n" ++ spec.shown_line bytes.now line))) }
{
    text.push_str(words)?;
    text.push_str("\n")?;
    put_shown_line(alloc, text, bytes, line)
}

/// Puts the file, the code and words, where no line is named.
pub fn put_flat(text: &mut String, name: &str, code: Code, words: &str) -> Result<(), OutOfMemory>
    ensures { OnOk result (string_bytes text.new ≡ string_bytes text.old ++ spec.flat_text name.now code words.now) }
{
    writeln!(text, "{name}: {code}: {words}")?;
    Ok(())
}

/// Puts the line of a log that is the first that the composition's run does not have.
pub fn put_differing(
    alloc: Global,
    text: &mut String,
    log: &[u8],
    line: usize,
) -> Result<(), OutOfMemory>
    ensures { OnOk result (string_bytes text.new ≡ string_bytes text.old ++ spec.differing_text log.now line) }
{
    put_differing_head(text, line)?;
    put_shown_line(alloc, text, log, line)
}

/// Puts what is told of that line.
fn put_differing_head(text: &mut String, line: usize) -> Result<(), OutOfMemory>
    ensures { OnOk result (string_bytes text.new ≡ string_bytes text.old ++ spec.differing_head line) }
{
    put_head(text, "log", line, Code::L4)?;
    text.push_str("the composition's run differs from here on\n")?;
    Ok(())
}
