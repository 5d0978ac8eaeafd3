//! Texts of actions in words, marks and blanks.

ghost use Rattle.std.specs.Prelude.{◌≡◌, ◌∷◌, ℕ, List, IfSome, IfNone};
ghost use Rattle.std.specs.List.{list_all};
ghost use Rattle.ioa_value.specs.Reads as reads;
ghost use Rattle.ioa_value.specs.Tokens as spec;

/// A word, and the text after it.
#[derive(Clone, Copy)]
pub(crate) struct Split<'a> {
    pub(crate) word: &'a [u8],
    pub(crate) rest: &'a [u8],
}

/// The first word after blanks, and what follows it after blanks.
pub(crate) fn first_word(text: &[u8]) -> Split<'_>
    ensures word { result.word.now ≡ spec.first_word text.now }
    ensures rest { result.rest.now ≡ spec.after_first text.now }
{
    let split = split_word(after_blanks(text));
    Split {
        word: split.word,
        rest: after_blanks(split.rest),
    }
}

/// What follows the mark at the front.
pub(crate) fn after_mark(text: &[u8], mark: u8) -> Option<&[u8]>
    ensures found { IfSome result (λ rest. text.now ≡ mark ∷ rest.now) }
    ensures none { IfNone result ((rest : List ℕ) → text.now ≡ mark ∷ rest → ⊥) }
{
    match text.split_first() {
        Some((b, rest)) if *b == mark => Some(rest),
        _ => None,
    }
}

/// The text without the blanks at its front.
pub(crate) fn after_blanks(text: &[u8]) -> &[u8]
    ensures { result.now ≡ spec.after_blanks text.now }
{
    let mut at = 0;
    while at < text.len() && is_blank(text[at]) {
        at += 1;
    }
    &text[at..]
}

/// Whether the text is blanks alone.
pub(crate) fn is_blank_text(text: &[u8]) -> bool
    ensures { result ≡ list_all reads.is_blank text.now }
{
    for b in text {
        if !is_blank(*b) {
            return false;
        }
    }
    true
}

fn split_word(text: &[u8]) -> Split<'_>
    ensures word { result.word.now ≡ spec.word text.now }
    ensures rest { result.rest.now ≡ spec.after_word text.now }
{
    let mut at = 0;
    while at < text.len() && is_inside(text[at]) {
        at += 1;
    }
    Split {
        word: &text[..at],
        rest: &text[at..],
    }
}

fn is_blank(b: u8) -> bool
    ensures { result ≡ reads.is_blank b }
{
    b == b' ' || b == b'\t' || b == b'\r'
}

fn is_mark(b: u8) -> bool
    ensures { result ≡ spec.is_mark b }
{
    b == b'(' || b == b')' || b == b',' || b == b'[' || b == b']'
}

fn is_inside(b: u8) -> bool
    ensures { result ≡ spec.is_inside b }
{
    !(is_blank(b) || is_mark(b))
}
