//! Automata.

ghost use Rattle.ioa_value.specs.declared.limits.TheConstants.{LIMITS};
ghost use Rattle.std.specs.Prelude.{◌≡◌};
ghost use Rattle.ioa_lex.specs.Tokens.{tokens_shown};
ghost use Rattle.ioa_grammar.specs.Reading as spec;
ghost use Rattle.ioa_grammar.specs.Reading.{ReadsAs};
ghost use Rattle.ioa_tree.specs.View.{automaton_of};

use crate::signatures::{entries, formals};
use crate::states::states;
use crate::transitions::transitions;
use ioa_grammar::{Cursor, ReadError};
use ioa_lex::Terminal;
use ioa_tree::Automaton;

/// What stands after the word `automaton`.
#[tactic(auto, unfolding(ioa_grammar::specs::Reading::an_automaton))]
pub(crate) fn automaton(cursor: &mut Cursor<'_>) -> Result<Automaton, ReadError>
    ensures { ReadsAs automaton_of (spec.an_automaton LIMITS.depth (tokens_shown cursor.old)) result (tokens_shown cursor.new) }
{
    let name = cursor.name()?;
    let formals = formals(cursor)?;
    cursor.expect(Terminal::Signature)?;
    let entries = entries(cursor)?;
    let variables = states(cursor)?;
    cursor.expect(Terminal::Transitions)?;
    let transitions = transitions(cursor)?;
    Ok(Automaton {
        name,
        formals,
        entries,
        variables,
        transitions,
    })
}
