//! Lines of files, lists and logs, as they are shown.

ghost use Rattle.std.specs.Prelude.{◌≡◌, ◌++◌, OnOk, encode_utf8_all, map};
ghost use Rattle.std.specs.Str.{chars};
ghost use Rattle.std.specs.String.{string_bytes};
ghost use Rattle.ioa_value.specs.Lists.{lines};
ghost use Rattle.ioa_value.specs.Reads as reads;
ghost use Rattle.ioa_value.specs.Tokens as tokens;
ghost use Rattle.ioa_account.specs.Quoted as spec;

use crate::lines::{behind, line_at};
use ioa_value::{OutOfMemory, first_line};
use std::alloc::Global;
use std::fmt::Write;

/// How many bytes of a line are shown.
const MOST_SHOWN: usize = 160;

/// How many lines of a transition are shown behind its first.
const MOST_FOLLOWING: usize = 11;

/// Puts the line of this number, from 1, of the bytes behind the text, with the name of what they are. Nothing, where there is none.
pub fn put_line(
    alloc: Global,
    text: &mut String,
    name: &str,
    bytes: &[u8],
    number: usize,
) -> Result<(), OutOfMemory>
    ensures { OnOk result (string_bytes text.new ≡ string_bytes text.old ++ spec.line_text name.now bytes.now number) }
{
    let Some(line) = line_at(bytes, number) else {
        return Ok(());
    };
    writeln!(text, "{name}, line {number}:")?;
    put_shown(alloc, text, line)
}

/// Puts the lines of a transition that begins on the line of this number, from 1: those up to the next line that is blank or begins another transition or
/// declaration, 12 at most. Nothing, where the number is 0.
pub fn put_transition(
    alloc: Global,
    text: &mut String,
    name: &str,
    source: &[u8],
    number: usize,
) -> Result<(), OutOfMemory>
    ensures { OnOk result (string_bytes text.new ≡ string_bytes text.old ++ spec.transition_text name.now source.now number) }
{
    if number == 0 {
        return Ok(());
    }
    put_line(alloc, text, name, source, number)?;
    put_following(alloc, text, behind(source, number))
}

/// Puts the first lines that go on with what stands before them.
fn put_following(alloc: Global, text: &mut String, after: &[u8]) -> Result<(), OutOfMemory>
    ensures { OnOk result (string_bytes text.new ≡ string_bytes text.old ++ spec.following spec.most_following (lines after.now)) }
{
    let mut rest = after;
    for _ in 0..MOST_FOLLOWING {
        if rest.is_empty() {
            return Ok(());
        }
        let (line, further) = first_line(rest);
        if !goes_on(line) {
            return Ok(());
        }
        put_shown(alloc, text, line)?;
        rest = further;
    }
    Ok(())
}

/// Whether a line goes on with what stands before it: it is not blank, and its first word begins neither a transition nor a declaration.
fn goes_on(line: &[u8]) -> bool
    ensures { result ≡ spec.goes_on line.now }
{
    let rest = after_blanks(line);
    !rest.is_empty() && !begins_anew(rest)
}

/// What stands behind the blanks at the line's front.
fn after_blanks(line: &[u8]) -> &[u8]
    ensures { result.now ≡ tokens.after_blanks line.now }
{
    let mut rest = line;
    while let [byte, after @ ..] = rest {
        if !is_blank(*byte) {
            return rest;
        }
        rest = after;
    }
    rest
}

fn is_blank(byte: u8) -> bool
    ensures { result ≡ reads.is_blank byte }
{
    byte == b' ' || byte == b'\t' || byte == b'\r'
}

fn begins_anew(rest: &[u8]) -> bool
    ensures { result ≡ spec.begins_anew rest.now }
{
    rest.starts_with(b"input ")
        || rest.starts_with(b"output ")
        || rest.starts_with(b"internal ")
        || rest.starts_with(b"automaton ")
        || rest.starts_with(b"composition ")
        || rest.starts_with(b"type ")
        || rest.starts_with(b"invariant ")
}

/// Puts a line, indented; its beginning, where it is long. What is no text, and what would move the cursor of a terminal, is replaced.
pub fn put_shown(alloc: Global, text: &mut String, line: &[u8]) -> Result<(), OutOfMemory>
    ensures { OnOk result (string_bytes text.new ≡ string_bytes text.old ++ spec.shown_text line.now) }
{
    let count = MOST_SHOWN.min(line.len());
    let words = String::from_utf8_lossy(alloc, &line[..count])?;
    text.push_str("    ")?;
    put_letters(text, words.as_str())?;
    text.push_str(end_of(line.len()))?;
    Ok(())
}

/// Puts the letters of a text, each with a shape.
fn put_letters(text: &mut String, words: &str) -> Result<(), OutOfMemory>
    ensures { OnOk result (string_bytes text.new ≡ string_bytes text.old ++ encode_utf8_all (map spec.shown (chars words.now))) }
{
    for letter in words.chars() {
        text.push(shown(letter))?;
    }
    Ok(())
}

/// What stands behind a line of so many bytes.
fn end_of(length: usize) -> &'static str
    ensures { result.now ≡ spec.end_of length }
{
    if length > MOST_SHOWN { " ..\n" } else { "\n" }
}

/// The letter, or what stands for one that has no shape.
fn shown(letter: char) -> char
    ensures { result ≡ spec.shown letter }
{
    if letter == '\t' || !letter.is_control() {
        letter
    } else {
        char::REPLACEMENT_CHARACTER
    }
}
