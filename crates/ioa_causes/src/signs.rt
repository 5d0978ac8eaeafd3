//! What stands in a source that is no token, and what is written in its place.

ghost use Rattle.std.specs.Prelude.{◌≡◌, IfOk, IfSome, MatchOption, None, true};
ghost use Rattle.std.specs.List.{prefix_len};
ghost use Rattle.std.specs.String.{string_bytes};
ghost use Rattle.ioa_lex.specs.Stops.{IsStop};
ghost use Rattle.ioa_value.specs.Names.{is_digit, is_letter, is_word_byte};
ghost use Rattle.ioa_causes.specs.Words as spec;

use ioa_lex::stop_of;
use ioa_value::OutOfMemory;
use std::alloc::Global;

/// Signs of other languages, and what there is to say of each. One that begins another stands below it.
const SIGNS: &str = r#"
!= unequal is written `~=`
! not is written `~`
&& and is written `/\`
& and is written `/\`
|| or is written `\/`
| or is written `\/`
// a comment begins with `%`
/* a comment begins with `%`
/ a quotient is written `div`
# a comment begins with `%`
" there are no texts; the names of an enumeration can stand for them
' there are no texts; the names of an enumeration can stand for them
[ what stands at an index is written `at(q, i)`, and an empty sequence `empty(T)`
] what stands at an index is written `at(q, i)`, and an empty sequence `empty(T)`
\A there are no quantifiers
\E there are no quantifiers
\ and is written `/\`, and or `\/`
^ there are no powers, only products
_ a name begins with a letter
? a choice is written `if .. then .. else .. fi`
≤ write `<=`
≥ write `>=`
≠ write `~=`
∧ write `/\`
∨ write `\/`
¬ write `~`
⇒ write `=>`
→ write `=>`
≔ write `:=`
← write `:=`
∈ whether a sequence has a value is written `member(q, v)`
∀ there are no quantifiers
∃ there are no quantifiers
× write `*`
· write `*`
÷ write `div`
− write `-`
– write `-`
“ there are no texts; the names of an enumeration can stand for them
” there are no texts; the names of an enumeration can stand for them
‘ there are no texts; the names of an enumeration can stand for them
’ there are no texts; the names of an enumeration can stand for them
"#;

/// How many bytes are told of a name that is too long.
const MOST_TOLD: usize = 24;

/// How many bytes the letter at the front of a text has at most.
const LONGEST_LETTER: usize = 4;

/// A sign of another language, and what there is to say of it.
#[derive(Clone, Copy)]
struct Foreign {
    sign: &'static str,
    said: &'static str,
}

/// What stands where a text stops. None, where it does not stop.
pub fn said(alloc: Global, source: &[u8]) -> Result<Option<String>, OutOfMemory>
    ensures { IfOk result (λ found. MatchOption found (IsStop source.now None) (λ words. spec.TellsStop source.now (string_bytes words))) }
{
    match stop_of(alloc, source)? {
        Some(at) => Ok(Some(front_words(alloc, &source[at..])?)),
        None => Ok(None),
    }
}

/// What is wrong with the front of a text, where no token stands.
fn front_words(alloc: Global, front: &[u8]) -> Result<String, OutOfMemory>
    ensures { IfOk result (λ words. spec.TellsFront front.now (string_bytes words)) }
{
    match front.first() {
        Some(byte) => Ok(first_words(alloc, front, *byte)?),
        None => Ok(String::from_str(alloc, "nothing stands here")?),
    }
}

/// What is wrong with a text that begins with this byte.
fn first_words(alloc: Global, front: &[u8], byte: u8) -> Result<String, OutOfMemory>
    ensures { IfOk result (λ words. spec.TellsFirst front.now byte (string_bytes words)) }
{
    if is_letter(byte) {
        Ok(long_name_words(alloc, front)?)
    } else if is_digit(byte) {
        Ok(large_number_words(alloc)?)
    } else {
        Ok(sign_words(alloc, front, byte)?)
    }
}

fn is_letter(byte: u8) -> bool
    ensures { result ≡ is_letter byte }
{
    byte.is_ascii_alphabetic()
}

fn is_digit(byte: u8) -> bool
    ensures { result ≡ is_digit byte }
{
    byte.is_ascii_digit()
}

fn large_number_words(alloc: Global) -> Result<String, OutOfMemory>
    ensures { IfOk result (λ words. string_bytes words ≡ spec.large_number_words) }
{
    Ok(String::from_str(alloc, "this number is above 9223372036854775807")?)
}

fn long_name_words(alloc: Global, front: &[u8]) -> Result<String, OutOfMemory>
    ensures { IfOk result (λ words. string_bytes words ≡ spec.long_name_words front.now) }
{
    let beginning = &front[..MOST_TOLD.min(front.len())];
    let told = String::from_utf8_lossy(alloc, beginning)?;
    let told = told.as_str();
    let size = name_size(front);
    Ok(format!(in alloc; "a name has at most 64 bytes, and `{told}..` has {size}")?)
}

/// How many bytes at the front are letters, digits and `_`.
fn name_size(front: &[u8]) -> usize
    ensures { result ≡ prefix_len is_word_byte front.now }
{
    front
        .iter()
        .take_while(|byte| byte.is_ascii_alphanumeric() || **byte == b'_')
        .count()
}

/// What there is to say of the sign, or the byte, at the front of a text.
fn sign_words(alloc: Global, front: &[u8], byte: u8) -> Result<String, OutOfMemory>
    ensures { IfOk result (λ words. spec.TellsSign front.now byte (string_bytes words)) }
{
    if let Some(foreign) = foreign_at(front) {
        return Ok(foreign_words(alloc, foreign)?);
    }
    match letter_at(front) {
        Some(letter) => Ok(letter_words(alloc, letter)?),
        None => Ok(byte_words(alloc, byte)?),
    }
}

fn foreign_words(alloc: Global, foreign: Foreign) -> Result<String, OutOfMemory>
    ensures { IfOk result (λ words. string_bytes words ≡ spec.foreign_words foreign.sign.now foreign.said.now) }
{
    let Foreign { sign, said } = foreign;
    Ok(format!(in alloc; "`{sign}` is no sign of the language: {said}")?)
}

fn letter_words(alloc: Global, letter: &str) -> Result<String, OutOfMemory>
    ensures { IfOk result (λ words. string_bytes words ≡ spec.letter_words letter.now) }
{
    Ok(format!(in alloc; "`{letter}` is no sign of the language")?)
}

fn byte_words(alloc: Global, byte: u8) -> Result<String, OutOfMemory>
    ensures { IfOk result (λ words. string_bytes words ≡ spec.byte_words byte) }
{
    Ok(format!(in alloc; "the byte {byte} begins nothing in the language")?)
}

/// The sign of another language at the front of a text, if it is one of those that are known.
fn foreign_at(front: &[u8]) -> Option<Foreign>
    ensures { IfSome result (λ f. spec.IsFront front.now f.sign.now) }
{
    for row in SIGNS.lines() {
        if let Some((sign, said)) = row.split_once(" ") {
            if begins_with(front, sign) {
                return Some(Foreign { sign, said });
            }
        }
    }
    None
}

fn begins_with(text: &[u8], front: &str) -> bool
    ensures { result ≡ true → spec.IsFront text.now front.now }
{
    text.starts_with(front.as_bytes())
}

/// The letter at the front of a text, if that has a shape.
fn letter_at(front: &[u8]) -> Option<&str>
    ensures { IfSome result (λ letter. spec.IsFront front.now letter.now) }
{
    for size in 1..=LONGEST_LETTER.min(front.len()) {
        if let Ok(letter) = str::from_utf8(&front[..size]) {
            return if has_shape(letter) {
                Some(letter)
            } else {
                None
            };
        }
    }
    None
}

fn has_shape(letter: &str) -> bool {
    letter.chars().all(|letter| !letter.is_control())
}
