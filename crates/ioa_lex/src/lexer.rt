//! From a text to its tokens.

ghost use Rattle.std.specs.Prelude.{◌≡◌, ◌⊎◌, ℕ, ◌≤◌, ◌<◌, ◌↔◌, List, length, IfOk, IfErr, IsErrOf, MatchResult};
ghost use Rattle.ioa_lex.specs.Tokens.{Tok};
ghost use Rattle.ioa_lex.specs.Lexing.{Lexes, StopsOn, IsRefused, placed};

use crate::front::{Front, front_of};
use crate::refusal::Refusal;
use crate::token::Token;
use ioa_value::LIMITS;
use std::alloc::Global;

/// The tokens of a text, each with the line on which it begins.
///
/// `TextTooLong` where it has more than 1,048,576 bytes; otherwise `BadByte` with the line of the first place where no
/// token stands: a byte that begins none, or the first byte of a name or a number that is too long or too large.
/// `OutOfMemory` where a growth of memory was refused.
pub fn lex(alloc: Global, text: &[u8]) -> Result<Vec<Token>, Refusal>
    ensures ok { IfOk result (λ v. Lexes text.now (placed v.items)) }
    ensures refused { IfErr result (λ e. IsRefused text.now e) }
    ensures long { IsErrOf result Refusal.TextTooLong ↔ (LIMITS.text < length text.now) }

    // Where there are tokens they are the answer, and where there are none their want is.
    ensures only { (ts : List (Tok × ℕ)) → Lexes text.now ts → length text.now ≤ LIMITS.text → MatchResult result (λ v. placed v.items ≡ ts) (λ e. e ≡ Refusal.OutOfMemory) }
    ensures stops { (line : ℕ) → StopsOn text.now line → length text.now ≤ LIMITS.text → MatchResult result (λ _. ⊥) (λ e. (e ≡ Refusal.BadByte line) ⊎ (e ≡ Refusal.OutOfMemory)) }
{
    if text.len() > LIMITS.text {
        return Err(Refusal::TextTooLong);
    }
    tokens_of(alloc, text)
}

fn tokens_of(alloc: Global, text: &[u8]) -> Result<Vec<Token>, Refusal>
    requires { length text.now ≤ LIMITS.text }
    ensures { MatchResult result (λ v. Lexes text.now (placed v.items)) (λ e. IsRefused text.now e) }
{
    let mut tokens = Vec::new(alloc);
    let mut line = 1;
    let mut at = 0;
    while at < text.len() {
        let Front { kind, len } = front_of(alloc, &text[at..], line)?;
        if let Some(kind) = kind {
            tokens.push(Token { kind, line })?;
        }
        if text[at] == b'\n' {
            line += 1;
        }
        at += len;
    }
    Ok(tokens)
}
