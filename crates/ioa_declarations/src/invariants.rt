//! Invariants.

ghost use Rattle.ioa_value.specs.declared.limits.TheConstants.{LIMITS};
ghost use Rattle.std.specs.Prelude.{◌≡◌};
ghost use Rattle.ioa_lex.specs.Tokens.{tokens_shown};
ghost use Rattle.ioa_grammar.specs.Reading as spec;
ghost use Rattle.ioa_grammar.specs.Reading.{ReadsAs};
ghost use Rattle.ioa_tree.specs.View.{invariant_of};

use ioa_grammar::{Cursor, ReadError, whole_expression};
use ioa_lex::Terminal;
use ioa_tree::Invariant;

/// What stands after the word `invariant`, with or without a semicolon at its end.
#[tactic(auto, unfolding(ioa_grammar::specs::Reading::an_invariant, ioa_grammar::specs::Reading::perhaps))]
pub(crate) fn invariant(cursor: &mut Cursor<'_>) -> Result<Invariant, ReadError>
    ensures { ReadsAs invariant_of (spec.an_invariant LIMITS.depth (tokens_shown cursor.old)) result (tokens_shown cursor.new) }
{
    cursor.expect(Terminal::Of)?;
    let automaton = cursor.name()?;
    cursor.expect(Terminal::Colon)?;
    let condition = whole_expression(cursor)?;
    cursor.take(Terminal::Semicolon);
    Ok(Invariant {
        automaton,
        condition,
    })
}
