//! From a text to a source.

ghost use Rattle.ioa_value.specs.declared.limits.TheConstants.{LIMITS};
ghost use Rattle.std.specs.Prelude.{◌≡◌, ◌⊎◌, ℕ, ◌≤◌, ◌<◌, ◌↔◌, List, length, IfOk, IfErr, IsErrOf, MatchResult};
ghost use Rattle.ioa_lex.specs.Tokens.{Tok, tokens_shown};
ghost use Rattle.ioa_lex.specs.Lexing.{Lexes, StopsOn, line_after};
ghost use Rattle.ioa_tree.specs.Tree.{SourceTree};
ghost use Rattle.ioa_tree.specs.Depth.{source_deep};
ghost use Rattle.ioa_grammar.specs.Grammar.{SpellsSource};
ghost use Rattle.ioa_syntax.specs.Source.{AreTokens, line_left, plain, IsRefused};
ghost use Rattle.ioa_grammar.specs.Reading as spec;
ghost use Rattle.ioa_grammar.specs.Reading.{ReturnsSource, line_at};
ghost use Rattle.ioa_tree.specs.View.{tree_of};

use crate::source::Source;
use ioa_lex::{Refusal, Token, lex};
use ioa_sources::declarations;
use std::alloc::Global;

/// The source that a text is.
///
/// # Errors
///
/// `TextTooLong` for more than 1,048,576 bytes, and `BadByte` where the text is no list of tokens. `Syntax` where no
/// tree of any depth spells the tokens, with the line of a token, or of the end, with which the tokens so far begin no
/// source; that it is the first such token is tested, not proved. `TooDeep` where the tokens are more than 64 and each tree
/// that they spell is too deep, with the line on which its first declaration that goes deeper than 64 begins.
/// `OutOfMemory` where a growth of memory was refused.
pub fn parse(alloc: Global, text: &[u8]) -> Result<Source, Refusal>
    // What is read is spelled so.
    ensures found { IfOk result (λ s. (ts : List (Tok × ℕ)) × Lexes text.now ts × SpellsSource (tree_of s) (plain ts)) }
    ensures refused { IfErr result (λ e. IsRefused text.now e) }
    ensures long { IsErrOf result Refusal.TextTooLong ↔ (LIMITS.text < length text.now) }
    ensures stops { (line : ℕ) → StopsOn text.now line → length text.now ≤ LIMITS.text → MatchResult result (λ _. ⊥) (λ e. (e ≡ Refusal.BadByte line) ⊎ (e ≡ Refusal.OutOfMemory)) }

    // What is spelled so, and not too deep, is read, unless memory runs out.
    ensures only { (ts : List (Tok × ℕ)) (t : SourceTree) → Lexes text.now ts → SpellsSource t (plain ts) → source_deep t ≤ LIMITS.depth → length text.now ≤ LIMITS.text → MatchResult result (λ s. tree_of s ≡ t) (λ e. e ≡ Refusal.OutOfMemory) }

    // And in any case the answer is what comes of reading its tokens, unless memory runs out.
    ensures as_read { (ts : List (Tok × ℕ)) → Lexes text.now ts → length text.now ≤ LIMITS.text → ReturnsSource tree_of result (spec.source LIMITS.depth (line_left text.now ts) (plain ts)) }
{
    let tokens = lex(alloc, text)?;
    parse_tokens(alloc, &tokens, last_line(text))
}

pub(crate) fn parse_tokens(alloc: Global, tokens: &[Token], end: u32) -> Result<Source, Refusal>
    requires { AreTokens (tokens_shown tokens.now) }
    ensures { ReturnsSource tree_of result (spec.source LIMITS.depth (line_at tokens.now end) (tokens_shown tokens.now)) }
{
    Ok(Source::new(declarations(alloc, tokens, end)?))
}

/// The line on which the text ends, counted from 1.
fn last_line(text: &[u8]) -> u32
    requires { length text.now ≤ LIMITS.text }
    ensures { result ≡ line_after text.now }
{
    let mut line = 1;
    for byte in text {
        if *byte == b'\n' {
            line += 1;
        }
    }
    line
}
