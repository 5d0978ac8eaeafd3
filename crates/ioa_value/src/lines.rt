//! Texts in lines.

ghost use Rattle.std.specs.Prelude.{◌≡◌, ◌++◌, ◌∷◌, IfSome, IfNone};
ghost use Rattle.ioa_value.specs.Lists as spec;

/// The line that the text's first LF ends, without it, and what comes after; none where the text has no LF.
pub fn ended_line(text: &[u8]) -> Option<(&[u8], &[u8])>
    ensures line { IfSome result (λ parts. parts.0.now ≡ spec.first_line text.now) }
    ensures parts { IfSome result (λ parts. text.now ≡ parts.0.now ++ 10 ∷ parts.1.now) }
    ensures none { IfNone result (text.now ≡ spec.first_line text.now) }
{
    match text.iter().position(|byte| *byte == b'\n') {
        Some(at) => Some((&text[..at], &text[at + 1..])),
        None => None,
    }
}

/// The first line of a text, and what comes after its LF. Both are empty where the text is.
pub fn first_line(text: &[u8]) -> (&[u8], &[u8])
    ensures line { result.0.now ≡ spec.first_line text.now }
    ensures after { result.1.now ≡ spec.after_line text.now }
{
    match ended_line(text) {
        Some(parts) => parts,
        None => (text, &[]),
    }
}
