//! What stands at the front of a text.

ghost use Rattle.std.specs.Prelude.{◌≡◌, ◌<◌, IsTrue, IfOk, IfErr, MatchResult, length, slice_index, string_bytes};
ghost use Rattle.std.specs.List.{list_all};
ghost use Rattle.ioa_value.specs.Names.{is_letter, is_digit, is_word_byte};
ghost use Rattle.ioa_lex.specs.Fronts.{IsFront, NoFront, is_sign_part};

use crate::refusal::Refusal;
use crate::scan::{digits_len, is_blank, line_len, value_of, word_len};
use crate::token::Kind;
use ioa_value::{LIMITS, Terminal};
use std::alloc::Global;

/// A blank, a comment or a token at the front of a text.
#[derive(Drop)]
pub struct Front {
    /// The token, if it is one.
    pub kind: Option<Kind>,
    /// How many bytes it takes.
    pub len: usize,
}

/// The blank, the comment or the longest token at the front of a text on this line.
pub fn front_of(alloc: Global, text: &[u8], line: u32) -> Result<Front, Refusal>
    requires { 0 < length text.now }
    ensures { MatchResult result (λ f. IsFront text.now f.kind f.len) (λ e. NoFront text.now line e) }
{
    let first = text[0];
    if is_blank(first) {
        Ok(Front { kind: None, len: 1 })
    } else if first == b'%' {
        Ok(Front {
            kind: None,
            len: line_len(text),
        })
    } else if first.is_ascii_alphabetic() {
        word(alloc, text, line)
    } else if first.is_ascii_digit() {
        number(text, line)
    } else {
        sign(text, line)
    }
}

fn word(alloc: Global, text: &[u8], line: u32) -> Result<Front, Refusal>
    requires some { 0 < length text.now }
    requires letter { IsTrue (is_letter (slice_index text.now 0)) }
    ensures { MatchResult result (λ f. IsFront text.now f.kind f.len) (λ e. NoFront text.now line e) }
{
    let len = word_len(text);
    let word = &text[..len];
    if let Some(terminal) = Terminal::find(word) {
        return Ok(Front {
            kind: Some(Kind::Terminal(terminal)),
            len,
        });
    }
    if len > LIMITS.name {
        return Err(Refusal::BadByte(line));
    }
    let name = name_of(alloc, word)?;
    Ok(Front {
        kind: Some(Kind::Name(name)),
        len,
    })
}

fn name_of(alloc: Global, word: &[u8]) -> Result<String, Refusal>
    requires { IsTrue (list_all is_word_byte word.now) }
    ensures kept { IfOk result (λ s. string_bytes s ≡ word.now) }
    ensures memory { IfErr result (λ e. e ≡ Refusal.OutOfMemory) }
{
    match std::str::from_utf8(word) {
        Ok(name) => Ok(String::from_str(alloc, name)?),
        Err(_) => unreachable!(),
    }
}

fn number(text: &[u8], line: u32) -> Result<Front, Refusal>
    requires some { 0 < length text.now }
    requires digit { IsTrue (is_digit (slice_index text.now 0)) }
    ensures { MatchResult result (λ f. IsFront text.now f.kind f.len) (λ e. NoFront text.now line e) }
{
    let len = digits_len(text);
    match value_of(&text[..len]) {
        Some(value) => Ok(Front {
            kind: Some(Kind::Number(value)),
            len,
        }),
        None => Err(Refusal::BadByte(line)),
    }
}

fn sign(text: &[u8], line: u32) -> Result<Front, Refusal>
    requires some { 0 < length text.now }
    requires other { IsTrue (is_sign_part (slice_index text.now 0)) }
    ensures { MatchResult result (λ f. IsFront text.now f.kind f.len) (λ e. NoFront text.now line e) }
{
    let two = &text[..text.len().min(2)];
    if let Some(terminal) = Terminal::find(two) {
        return Ok(Front {
            kind: Some(Kind::Terminal(terminal)),
            len: two.len(),
        });
    }
    match Terminal::find(&text[..1]) {
        Some(terminal) => Ok(Front {
            kind: Some(Kind::Terminal(terminal)),
            len: 1,
        }),
        None => Err(Refusal::BadByte(line)),
    }
}
