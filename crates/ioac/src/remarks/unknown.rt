//! The word of an action's values that is not known.

ghost use Rattle.std.specs.Prelude.{◌≡◌, ◌==◌, ◌≤◌, ◌<◌, ◌+◌, IsTrue, drop, find, length};
ghost use Rattle.std.specs.List.{list_all, position_or_len};
ghost use Rattle.std.specs.Option.{option_copied};
ghost use Rattle.ioa_value.specs.Names as names;
ghost use Rattle.ioac.specs.Unknown as spec;

use ioa_value::Types;

/// The first word among the values of an action that is neither a truth value nor a type nor a name of an enumeration.
pub fn unknown_word<'a>(types: &Types, line: &'a [u8]) -> Option<&'a str>
    ensures { spec.IsUnknownIn types.now line.now (option_copied result) }
{
    match str::from_utf8(line) {
        Ok(_) => unknown_in(types, values_of(line)),
        Err(_) => None,
    }
}

/// What stands behind the first `(`, up to the first `"` there.
fn values_of(line: &[u8]) -> &[u8]
    ensures { result.now ≡ spec.values_of line.now }
{
    let inner = behind_mark(line, b'(');
    &inner[..place_of(inner, b'"')]
}

/// What stands behind the first such byte. Nothing, where there is none.
fn behind_mark(text: &[u8], mark: u8) -> &[u8]
    ensures { result.now ≡ spec.behind mark text.now }
{
    let at = place_of(text, mark);
    match text.get(at + 1..) {
        Some(behind) => behind,
        None => b"",
    }
}

/// The index of the first such byte, or how many there are.
fn place_of(text: &[u8], mark: u8) -> usize
    ensures place { result ≡ position_or_len (λ b. b == mark) text.now }
    ensures within { result ≤ length text.now }
{
    for at in 0..text.len() {
        if text[at] == mark {
            return at;
        }
    }
    text.len()
}

/// The first word of a text that is not known.
fn unknown_in<'a>(types: &Types, text: &'a [u8]) -> Option<&'a str>
    ensures { option_copied result ≡ find (spec.is_unknown types.now) (spec.words_of text.now) }
{
    let mut rest = text;
    loop {
        let length = word_len(rest);
        let word = word_text(&rest[..length]);
        if is_unknown(types, word) {
            return Some(word);
        }
        if rest.len() <= length {
            return None;
        }
        rest = behind(rest, length);
    }
}

/// What stands behind the byte of this index.
fn behind(text: &[u8], at: usize) -> &[u8]
    requires { at < length text.now }
    ensures { result.now ≡ drop (at + 1) text.now }
{
    &text[at + 1..]
}

/// How many bytes stand before the first that is in no word.
fn word_len(text: &[u8]) -> usize
    ensures { result ≡ position_or_len spec.is_between text.now }
{
    for at in 0..text.len() {
        if is_between(text[at]) {
            return at;
        }
    }
    text.len()
}

/// The text of a word.
fn word_text(word: &[u8]) -> &str
    requires { IsTrue (list_all names.is_word_byte word.now) }
    ensures { result.now ≡ word.now }
{
    match str::from_utf8(word) {
        Ok(text) => text,
        Err(_) => unreachable!(),
    }
}

/// Whether a byte stands in no name and in no number.
fn is_between(byte: u8) -> bool
    ensures { result ≡ spec.is_between byte }
{
    !(byte.is_ascii_alphanumeric() || byte == b'_')
}

fn is_unknown(types: &Types, word: &str) -> bool
    ensures { result ≡ spec.is_unknown types.now word.now }
{
    begins_word(word) && !is_known(types, word)
}

fn begins_word(word: &str) -> bool
    ensures { result ≡ names.begins_with_letter word.now }
{
    match word.as_bytes() {
        [byte, ..] => byte.is_ascii_alphabetic(),
        [] => false,
    }
}

/// Whether a word stands in a value: a truth value, a type, or a name of an enumeration.
fn is_known(types: &Types, word: &str) -> bool
    ensures { result ≡ spec.is_known types.now word.now }
{
    match (types.named(word), types.constant(word)) {
        (None, None) => word == "true" || word == "false",
        _ => true,
    }
}
