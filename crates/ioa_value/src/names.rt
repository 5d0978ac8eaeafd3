//! Which words may name a type, an automaton, an action or a variable.

ghost use Rattle.std.specs.Prelude.{◌≡◌, ◌↔◌, ◌&&◌, IsTrue, length, nat_le};
ghost use Rattle.std.specs.List.{list_all};
ghost use Rattle.ioa_value.specs.Names as spec;
ghost use Rattle.ioa_value.specs.Spelling.{IsReserved};

use crate::limits::LIMITS;
use crate::terminal::Terminal;

/// Whether the bytes are a name: a letter, then letters, digits or `_`, within the limit of bytes,
/// and no reserved word.
pub fn is_name(text: &[u8]) -> bool
    ensures { result ≡ spec.is_name text.now }
{
    is_word(text) && !is_reserved(text)
}

// Whether the bytes are a letter, then letters, digits or `_`, within the limit.
fn is_word(text: &[u8]) -> bool
    ensures { result ≡ (spec.begins_with_letter text.now && list_all spec.is_word_byte text.now && nat_le (length text.now) LIMITS.name) }
{
    begins_with_letter(text) && all_word_bytes(text) && text.len() <= LIMITS.name
}

/// Whether the bytes begin with a letter, as every name and every reserved word does.
pub(crate) fn begins_with_letter(text: &[u8]) -> bool
    ensures { result ≡ spec.begins_with_letter text.now }
{
    match text.first() {
        Some(b) => b.is_ascii_alphabetic(),
        None => false,
    }
}

fn all_word_bytes(text: &[u8]) -> bool
    ensures { result ≡ list_all spec.is_word_byte text.now }
{
    for b in text {
        if !is_word_byte(*b) {
            return false;
        }
    }
    true
}

fn is_word_byte(b: u8) -> bool
    ensures { result ≡ spec.is_word_byte b }
{
    b.is_ascii_alphanumeric() || b == b'_'
}

// Whether the bytes are a reserved word or a sign.
fn is_reserved(text: &[u8]) -> bool
    ensures { IsTrue result ↔ IsReserved text.now }
{
    Terminal::find(text).is_some()
}
