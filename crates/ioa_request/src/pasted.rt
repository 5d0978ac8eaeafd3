//! What words that the program printed ask to be explained.

ghost use Rattle.std.specs.Prelude.{◌≡◌, ◌++◌, IfSome, IfNone};
ghost use Rattle.std.specs.Option.{option_copied, option_map, option_to_list};
ghost use Rattle.ioa_request.specs.Fields.{after_field, first_field};
ghost use Rattle.ioa_request.specs.Pasted as spec;
ghost use Rattle.ioa_request.specs.Pasted.{IsNamed, IsPasted, left_of, texts};
ghost use Rattle.ioa_request.specs.declared.topic.Topic.{Topic};

use crate::code::Code;
use crate::fields::first_field;
use crate::topic::Topic;
use ioa_arithmetic::Fault;

/// Words that are read one by one: what is left of one with spaces, and those after it.
#[derive(Clone, Copy)]
struct Left<'t> {
    begun: Option<&'t [u8]>,
    rest: &'t [&'t str],
}

/// What is asked to be explained by words, as the program printed them. The first word tells, or the first two; a word with a colon, as `end:` or the
/// name of a specification, may stand before them, and more behind them. Whether letters are capitals does not matter, and a word with spaces stands for several.
pub fn pasted(words: &[&str]) -> Option<Topic>
    ensures some { IfSome result (λ topic. IsPasted (texts words.now) topic) }
    ensures none { IfNone result ((topic : Topic) → IsPasted (texts words.now) topic → ⊥) }
{
    let (first, second) = told(words)?;
    named(first, second)
}

/// The first word behind a label, if there is one, and the one that comes next.
fn told<'t>(words: &'t [&'t str]) -> Option<(&'t [u8], Option<&'t [u8]>)>
    ensures { option_map (λ p. (p.0.now, option_copied p.1)) result ≡ spec.told (texts words.now) }
{
    let whole = Left {
        begun: None,
        rest: words,
    };
    let (first, left) = next_word(whole)?;
    if is_label(first) {
        let (word, after) = next_word(left)?;
        return Some((word, second_word(after)));
    }
    Some((first, second_word(left)))
}

/// Whether the word is what stands before an end, or before what a monitor or a specification answers.
fn is_label(word: &[u8]) -> bool
    ensures { result ≡ spec.is_label word.now }
{
    word.ends_with(b":")
}

/// The word that comes next, if there is one.
fn second_word<'t>(left: Left<'t>) -> Option<&'t [u8]>
    ensures { option_copied result ≡ option_map (λ p. p.0) (spec.next_word (left_of left.entry)) }
{
    let (word, _) = next_word(left)?;
    Some(word)
}

/// The first word, and what is left.
fn next_word<'t>(left: Left<'t>) -> Option<(&'t [u8], Left<'t>)>
    ensures { option_map (λ p. (p.0.now, left_of p.1)) result ≡ spec.next_word (left_of left.entry) }
{
    match left.begun {
        Some(text) => Some(parted(text, left.rest)),
        None => {
            let (word, rest) = left.rest.split_first()?;
            Some(parted(word.as_bytes(), rest))
        }
    }
}

/// What stands before a text's first space, and what is left, with the words after it.
fn parted<'t>(text: &'t [u8], rest: &'t [&'t str]) -> (&'t [u8], Left<'t>)
    ensures word { result.0.now ≡ first_field text.now }
    ensures left { left_of result.1 ≡ option_to_list (after_field text.now) ++ texts rest.now }
{
    let (word, after) = first_field(text);
    (word, Left { begun: after, rest })
}

/// Whether the word is this one, whatever of both is written in capitals.
pub fn reads(word: &[u8], this: &[u8]) -> bool
    ensures { result ≡ spec.reads word.now this.now }
{
    word.eq_ignore_ascii_case(this)
}

/// What a word and the next one name.
fn named(word: &[u8], second: Option<&[u8]>) -> Option<Topic>
    ensures some { IfSome result (λ topic. IsNamed word.now (option_copied second.entry) topic) }
    ensures none { IfNone result ((topic : Topic) → IsNamed word.now (option_copied second.entry) topic → ⊥) }
{
    match Code::find(word) {
        Some(code) => Some(Topic::Code(code)),
        None => phrase(word, second),
    }
}

/// What a word and the next one name that is no code.
fn phrase(word: &[u8], second: Option<&[u8]>) -> Option<Topic>
    ensures { result ≡ spec.phrase_in word.now (option_copied second.entry) }
{
    if reads(word, b"fault") {
        let fault = numbered(second?)?;
        return Some(Topic::Fault(fault));
    }
    if reads(word, b"not") {
        return refused(second?);
    }
    if reads(word, b"done") {
        return Some(Topic::Done);
    }
    if reads(word, b"passed") {
        return Some(Topic::PassedOver);
    }
    if reads(word, b"nothing") {
        return Some(Topic::NothingTaken);
    }
    if reads(word, b"invariant") {
        return Some(Topic::Broken);
    }
    if reads(word, b"ok") {
        return Some(Topic::Fine);
    }
    None
}

/// The fault of this number.
fn numbered(word: &[u8]) -> Option<Fault>
    ensures { result ≡ spec.fault_in word.now }
{
    match word {
        b"1" => Some(Fault::Overflow),
        b"2" => Some(Fault::ZeroDivisor),
        b"3" => Some(Fault::Empty),
        b"4" => Some(Fault::OutOfRange),
        b"5" => Some(Fault::Full),
        _ => None,
    }
}

/// What an action is not, by the word behind `not`.
fn refused(word: &[u8]) -> Option<Topic>
    ensures { result ≡ spec.refused_in word.now }
{
    if reads(word, b"an") {
        return Some(Topic::NotAnAction);
    }
    if reads(word, b"enabled") {
        return Some(Topic::NotEnabled);
    }
    None
}
