//! Declarations of types.

ghost use Rattle.std.specs.Prelude.{◌≡◌, map};
ghost use Rattle.ioa_lex.specs.Tokens.{tokens_shown};
ghost use Rattle.ioa_grammar.specs.Reading as spec;
ghost use Rattle.ioa_grammar.specs.Reading.{ReadsAs};
ghost use Rattle.ioa_tree.specs.View.{name_of, field_of, type_form_of, type_declaration_of};

use crate::signatures::field_list;
use ioa_grammar::{Cursor, ReadError};
use ioa_lex::Terminal;
use ioa_tree::{Field, Name, TypeDeclaration, TypeForm};

/// Names, with commas between them.
#[tactic(auto, unfolding(ioa_grammar::specs::Reading::separated), using(ioa_grammar::proofs::Turns::items_turn, ioa_grammar::proofs::Turns::items_close, ioa_grammar::proofs::Turns::items_fail, ioa_grammar::proofs::Turns::items_spent))]
pub(crate) fn name_list(cursor: &mut Cursor<'_>) -> Result<Vec<Name>, ReadError>
    ensures { ReadsAs (λ v. map name_of v.items) (spec.separated Terminal.Comma spec.a_name (tokens_shown cursor.old)) result (tokens_shown cursor.new) }
{
    let mut found = Vec::new(cursor.alloc());
    for _turn in 0..cursor.left() {
        found.push(cursor.name()?)?;
        if !cursor.take(Terminal::Comma) {
            return Ok(found);
        }
    }
    Err(cursor.fault())
}

/// Names between braces.
#[tactic(auto, unfolding(ioa_grammar::specs::Reading::braced))]
fn names(cursor: &mut Cursor<'_>) -> Result<Vec<Name>, ReadError>
    ensures { ReadsAs (λ v. map name_of v.items) (spec.braced spec.a_name (tokens_shown cursor.old)) result (tokens_shown cursor.new) }
{
    cursor.expect(Terminal::OpenBrace)?;
    let found = name_list(cursor)?;
    cursor.expect(Terminal::CloseBrace)?;
    Ok(found)
}

/// Fields between braces.
#[tactic(auto, unfolding(ioa_grammar::specs::Reading::braced))]
fn fields(cursor: &mut Cursor<'_>) -> Result<Vec<Field>, ReadError>
    ensures { ReadsAs (λ v. map field_of v.items) (spec.braced spec.field (tokens_shown cursor.old)) result (tokens_shown cursor.new) }
{
    cursor.expect(Terminal::OpenBrace)?;
    let found = field_list(cursor)?;
    cursor.expect(Terminal::CloseBrace)?;
    Ok(found)
}

/// At most so many items of a type, after the word `seq`.
#[tactic(auto, unfolding(ioa_grammar::specs::Reading::a_sequence))]
fn sequence(cursor: &mut Cursor<'_>) -> Result<TypeForm, ReadError>
    ensures { ReadsAs type_form_of (spec.a_sequence (tokens_shown cursor.old)) result (tokens_shown cursor.new) }
{
    let line = cursor.line();
    let capacity = cursor.number()?;
    cursor.expect(Terminal::Of)?;
    let item = cursor.name()?;
    Ok(TypeForm::Sequence(capacity, item, line))
}

/// What stands after the `=` of a type.
#[tactic(auto, unfolding(ioa_grammar::specs::Reading::type_form, ioa_grammar::specs::Reading::compound_form, ioa_grammar::specs::Reading::sequence_form, ioa_grammar::specs::Reading::an_enumeration, ioa_grammar::specs::Reading::a_tuple))]
fn form(cursor: &mut Cursor<'_>) -> Result<TypeForm, ReadError>
    ensures { ReadsAs type_form_of (spec.type_form (tokens_shown cursor.old)) result (tokens_shown cursor.new) }
{
    if cursor.take(Terminal::Enum) {
        return Ok(TypeForm::Enumeration(names(cursor)?));
    }
    if cursor.take(Terminal::Tuple) {
        return Ok(TypeForm::Tuple(fields(cursor)?));
    }
    cursor.expect(Terminal::Seq)?;
    sequence(cursor)
}

/// What stands after the word `type`.
#[tactic(auto, unfolding(ioa_grammar::specs::Reading::a_type))]
pub(crate) fn type_declaration(cursor: &mut Cursor<'_>) -> Result<TypeDeclaration, ReadError>
    ensures { ReadsAs type_declaration_of (spec.a_type (tokens_shown cursor.old)) result (tokens_shown cursor.new) }
{
    let name = cursor.name()?;
    cursor.expect(Terminal::Equal)?;
    let form = form(cursor)?;
    Ok(TypeDeclaration { name, form })
}
