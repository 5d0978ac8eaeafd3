//! Sources: declarations up to the end of the tokens.

ghost use Rattle.ioa_value.specs.declared.limits.TheConstants.{LIMITS};
ghost use Rattle.std.specs.Prelude.{◌≡◌};
ghost use Rattle.ioa_lex.specs.Tokens.{tokens_shown};
ghost use Rattle.ioa_grammar.specs.Reading as spec;
ghost use Rattle.ioa_grammar.specs.Reading.{ReturnsSource, line_at, refusal_of};
ghost use Rattle.ioa_tree.specs.View.{tree_of};

use ioa_declarations::declaration;
use ioa_grammar::{Cursor, Fault, ReadError};
use ioa_lex::{Refusal, Token};
use ioa_tree::Declaration;
use std::alloc::Global;

/// The line of the token where so many tokens are left, or of the end.
fn line(tokens: &[Token], end: u32, left: usize) -> u32
    ensures { result ≡ line_at tokens.now end left }
{
    match &tokens[tokens.len().saturating_sub(left)..] {
        [token, ..] => token.line,
        [] => end,
    }
}

/// Why these tokens are no source, where a declaration with `first` tokens left was not read.
fn refusal(tokens: &[Token], end: u32, error: ReadError, first: usize) -> Refusal
    ensures { spec.RefusedBy (line_at tokens.now end) first error result }
{
    match error {
        ReadError::OutOfMemory => Refusal::OutOfMemory,
        ReadError::Fault(Fault::Syntax(left)) => Refusal::Syntax(line(tokens, end, left)),
        ReadError::Fault(Fault::TooDeep) => Refusal::TooDeep(line(tokens, end, first)),
    }
}

/// The declarations that the tokens are. The text ends on line `end`.
#[tactic(auto, unfolding(ioa_grammar::specs::Reading::source))]
pub fn declarations(alloc: Global, tokens: &[Token], end: u32) -> Result<Vec<Declaration>, Refusal>
    ensures { ReturnsSource (λ v. tree_of v.items) result (spec.source LIMITS.depth (line_at tokens.now end) (tokens_shown tokens.now)) }
{
    let mut cursor = Cursor::new(alloc, tokens);
    let mut found = Vec::new(alloc);
    for _turn in 0..tokens.len() {
        let first = cursor.left();
        if first == 0 {
            return Ok(found);
        }
        match declaration(&mut cursor) {
            Ok(declaration) => found.push(declaration)?,
            Err(error) => return Err(refusal(tokens, end, error, first)),
        }
    }
    Ok(found)
}
