//! Where a text stops that is no list of tokens.

ghost use Rattle.std.specs.Prelude.{ℕ, ◌<◌, Option, IfOk, MatchOption, length, take};
ghost use Rattle.ioa_lex.specs.declared.token.Kind.{Kind};
ghost use Rattle.ioa_lex.specs.Fronts.{IsFront};
ghost use Rattle.ioa_lex.specs.Lexing.{NoneStands, StopsOn, line_after};
ghost use Rattle.ioa_lex.specs.Stops.{IsStop};

use crate::front::front_of;
use crate::refusal::Refusal;
use ioa_value::OutOfMemory;
use std::alloc::Global;

/// How many bytes of a text stand before the first place where no token stands. None, where the text is a list of tokens.
///
/// This is the place whose line `lex` tells by `BadByte`. Fails where a growth of memory was refused.
pub fn stop_of(alloc: Global, text: &[u8]) -> Result<Option<usize>, OutOfMemory>
    ensures place { IfOk result (λ found. IsStop text.now found) }

    // `lex` stops on its line, since a text stops on one.
    ensures line { IfOk result (λ found. MatchOption found ((line : ℕ) → StopsOn text.now line → ⊥) (λ at. StopsOn text.now (line_after (take at text.now)))) }
{
    let mut at = 0;
    while at < text.len() {
        let Some(len) = piece_len(alloc, &text[at..])? else {
            return Ok(Some(at));
        };
        at += len;
    }
    Ok(None)
}

/// How many bytes the blank, the comment or the token at the front of a text takes, if one stands there.
fn piece_len(alloc: Global, text: &[u8]) -> Result<Option<usize>, OutOfMemory>
    requires { 0 < length text.now }
    ensures { IfOk result (λ found. MatchOption found (NoneStands text.now) (λ len. (kind : Option Kind) × IsFront text.now kind len)) }
{
    match front_of(alloc, text, 1) {
        Ok(front) => Ok(Some(front.len)),
        Err(Refusal::BadByte(_)) => Ok(None),
        Err(_) => Err(OutOfMemory),
    }
}
