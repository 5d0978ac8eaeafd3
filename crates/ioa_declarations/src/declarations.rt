//! Declarations.

ghost use Rattle.ioa_value.specs.declared.limits.TheConstants.{LIMITS};
ghost use Rattle.std.specs.Prelude.{◌≡◌};
ghost use Rattle.ioa_lex.specs.Tokens.{tokens_shown};
ghost use Rattle.ioa_grammar.specs.Reading as spec;
ghost use Rattle.ioa_grammar.specs.Reading.{ReadsAs};
ghost use Rattle.ioa_tree.specs.View.{declaration_of};

use crate::automata::automaton;
use crate::compositions::composition;
use crate::invariants::invariant;
use crate::types::type_declaration;
use ioa_grammar::{Cursor, ReadError};
use ioa_lex::Terminal;
use ioa_tree::Declaration;

#[tactic(auto, unfolding(ioa_grammar::specs::Reading::composed))]
fn composed(cursor: &mut Cursor<'_>) -> Result<Declaration, ReadError>
    ensures { ReadsAs declaration_of (spec.composed LIMITS.depth (tokens_shown cursor.old)) result (tokens_shown cursor.new) }
{
    cursor.expect(Terminal::Composition)?;
    Ok(Declaration::Composition(composition(cursor)?))
}

/// An automaton or a composition.
#[tactic(auto, unfolding(ioa_grammar::specs::Reading::machine))]
fn machine(cursor: &mut Cursor<'_>) -> Result<Declaration, ReadError>
    ensures { ReadsAs declaration_of (spec.machine LIMITS.depth (tokens_shown cursor.old)) result (tokens_shown cursor.new) }
{
    if cursor.take(Terminal::Automaton) {
        Ok(Declaration::Automaton(automaton(cursor)?))
    } else {
        composed(cursor)
    }
}

/// An automaton, a composition or an invariant.
#[tactic(auto, unfolding(ioa_grammar::specs::Reading::about_machines))]
fn about_machines(cursor: &mut Cursor<'_>) -> Result<Declaration, ReadError>
    ensures { ReadsAs declaration_of (spec.about_machines LIMITS.depth (tokens_shown cursor.old)) result (tokens_shown cursor.new) }
{
    if cursor.take(Terminal::Invariant) {
        Ok(Declaration::Invariant(invariant(cursor)?))
    } else {
        machine(cursor)
    }
}

/// The declaration that comes next: a type, or what is about automata.
#[tactic(auto, unfolding(ioa_grammar::specs::Reading::declaration))]
pub fn declaration(cursor: &mut Cursor<'_>) -> Result<Declaration, ReadError>
    ensures { ReadsAs declaration_of (spec.declaration LIMITS.depth (tokens_shown cursor.old)) result (tokens_shown cursor.new) }
{
    if cursor.take(Terminal::Type) {
        Ok(Declaration::Type(type_declaration(cursor)?))
    } else {
        about_machines(cursor)
    }
}
