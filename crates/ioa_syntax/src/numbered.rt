//! Sources with the indices of their tokens in the place of lines: what tells of a line tells of a token then.

ghost use Rattle.std.specs.Prelude.{◌≡◌, IfOk};
ghost use Rattle.ioa_lex.specs.Lexing.{placed};
ghost use Rattle.ioa_lex.specs.Tokens.{kind_shown, tokens_shown};
ghost use Rattle.ioa_syntax.specs.Stuck.{IsNumbered};
ghost use Rattle.ioa_tree.specs.View.{tree_of};

use crate::parsing::parse_tokens;
use crate::source::Source;
use ioa_lex::{Kind, Refusal, Token, lex};
use ioa_value::OutOfMemory;
use std::alloc::Global;

/// A source whose lines are the indices of tokens, and these tokens with their own lines.
#[derive(Drop)]
pub struct Numbered {
    pub source: Source,
    pub tokens: Vec<Token>,
}

/// The source that a text is, with the index of a token wherever `parse` has its line.
///
/// # Errors
///
/// Those of `parse`, but that `Syntax` and `TooDeep` have indices, too.
pub fn parse_numbered(alloc: Global, text: &[u8]) -> Result<Numbered, Refusal>
    ensures { IfOk result (λ n. IsNumbered text.now (placed n.tokens.items) (tree_of n.source)) }
{
    let tokens = lex(alloc, text)?;
    let numbered = with_indices(alloc, tokens.as_slice())?;
    let source = parse_tokens(alloc, numbered.as_slice(), u32::MAX)?;
    Ok(Numbered { source, tokens })
}

/// The same tokens, each with its index as its line.
fn with_indices(alloc: Global, tokens: &[Token]) -> Result<Vec<Token>, OutOfMemory>
    ensures { IfOk result (λ v. tokens_shown v.items ≡ tokens_shown tokens.now) }
{
    let mut found = Vec::new(alloc);
    let mut index: u32 = 0;
    for token in tokens {
        let kind = same_kind(alloc, &token.kind)?;
        found.push(Token { kind, line: index })?;
        index = index.saturating_add(1);
    }
    Ok(found)
}

fn same_kind(alloc: Global, kind: &Kind) -> Result<Kind, OutOfMemory>
    ensures { IfOk result (λ copy. kind_shown copy ≡ kind_shown kind.now) }
{
    match kind {
        Kind::Number(number) => Ok(Kind::Number(*number)),
        Kind::Name(name) => Ok(Kind::Name(String::from_str(alloc, name.as_str())?)),
        Kind::Terminal(word) => Ok(Kind::Terminal(*word)),
    }
}
