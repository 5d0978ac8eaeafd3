//! Where the tokens of a text are no source.

ghost use Rattle.std.specs.Prelude.{◌≡◌, ◌≤◌, ◌↔◌, ℕ, List, None, IfOk, IfNone, IfSome, IsTrue, MatchOption, length};
ghost use Rattle.ioa_value.specs.declared.limits.TheConstants.{LIMITS};
ghost use Rattle.ioa_lex.specs.Lexing.{Lexes, placed};
ghost use Rattle.ioa_lex.specs.Tokens.{Tok};
ghost use Rattle.ioa_grammar.specs.DeadEnds.{IsDeadAt};
ghost use Rattle.ioa_syntax.specs.Source.{plain};
ghost use Rattle.ioa_syntax.specs.Stuck.{IsStuckIn};

use ioa_declarations::dead_end;
use ioa_lex::{Refusal, Token, lex};
use ioa_value::OutOfMemory;
use std::alloc::Global;

/// The tokens of a text, and the index of the one, or of the end, at which no source goes on.
#[derive(Drop)]
pub struct Stuck {
    pub tokens: Vec<Token>,
    pub at: usize,
}

/// Where the tokens of a text are no source: at the token whose line `parse` tells by `Syntax`. None, where they are not refused so, or the text is no list
/// of tokens.
///
/// Fails where a growth of memory was refused.
pub fn stuck_in(alloc: Global, text: &[u8]) -> Result<Option<Stuck>, OutOfMemory>
    ensures some { IfOk result (λ found. IfSome found (λ s. IsStuckIn text.now (placed s.tokens.items) s.at)) }
    ensures none { IfOk result (λ found. IfNone found ((ts : List (Tok × ℕ)) → Lexes text.now ts → length text.now ≤ LIMITS.text → IsDeadAt (plain ts) None)) }
{
    let Some(tokens) = lexed(alloc, text)? else {
        return Ok(None);
    };
    match dead_end(alloc, tokens.as_slice())? {
        Some(at) => Ok(Some(Stuck { tokens, at })),
        None => Ok(None),
    }
}

/// The tokens of a text, if it is a list of them.
fn lexed(alloc: Global, text: &[u8]) -> Result<Option<Vec<Token>>, OutOfMemory>
    ensures { IfOk result (λ found. MatchOption found ((ts : List (Tok × ℕ)) → Lexes text.now ts → length text.now ≤ LIMITS.text → ⊥) (λ v. Lexes text.now (placed v.items))) }
{
    match lex(alloc, text) {
        Ok(tokens) => Ok(Some(tokens)),
        Err(refusal) => {
            if is_memory(&refusal) {
                Err(OutOfMemory)
            } else {
                Ok(None)
            }
        }
    }
}

fn is_memory(refusal: &Refusal) -> bool
    ensures { IsTrue result ↔ (refusal.now ≡ Refusal.OutOfMemory) }
{
    matches!(refusal, Refusal::OutOfMemory)
}
