//! Texts in parts, and lines in fields, which single spaces part.

ghost use Rattle.std.specs.Prelude.{◌≡◌, option_map};
ghost use Rattle.ioa_request.specs.Fields.{after_field, before, behind, first_field};

/// What stands before the first space, and what after it, where there is one.
pub fn first_field(text: &[u8]) -> (&[u8], Option<&[u8]>)
    ensures field { result.0.now ≡ first_field text.now }
    ensures after { option_map (λ b. b.now) result.1 ≡ after_field text.now }
{
    parted(text, b' ')
}

/// What stands before the first such sign, and what behind it, where there is one.
pub fn parted(text: &[u8], sign: u8) -> (&[u8], Option<&[u8]>)
    ensures before { result.0.now ≡ before sign text.now }
    ensures behind { option_map (λ b. b.now) result.1 ≡ behind sign text.now }
{
    match text.iter().position(|b| *b == sign) {
        Some(at) => (&text[..at], Some(&text[at + 1..])),
        None => (text, None),
    }
}
