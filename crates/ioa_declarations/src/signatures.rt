//! Fields and signatures.

ghost use Rattle.std.specs.Prelude.{◌≡◌, map};
ghost use Rattle.ioa_lex.specs.Tokens.{tokens_shown};
ghost use Rattle.ioa_grammar.specs.Reading as spec;
ghost use Rattle.ioa_grammar.specs.Reading.{ReadsAs};
ghost use Rattle.ioa_tree.specs.View.{field_of, constant_of, position_of, entry_of};

use ioa_grammar::{Cursor, ReadError};
use ioa_lex::{Kind, Terminal, Token};
use ioa_tree::{Constant, Entry, Field, Position};

/// A name and its type.
#[tactic(auto, unfolding(ioa_grammar::specs::Reading::field))]
pub(crate) fn field(cursor: &mut Cursor<'_>) -> Result<Field, ReadError>
    ensures { ReadsAs field_of (spec.field (tokens_shown cursor.old)) result (tokens_shown cursor.new) }
{
    let name = cursor.name()?;
    cursor.expect(Terminal::Colon)?;
    let ty = cursor.name()?;
    Ok(Field { name, ty })
}

/// Fields, with commas between them.
#[tactic(auto, unfolding(ioa_grammar::specs::Reading::separated), using(ioa_grammar::proofs::Turns::items_turn, ioa_grammar::proofs::Turns::items_close, ioa_grammar::proofs::Turns::items_fail, ioa_grammar::proofs::Turns::items_spent))]
pub(crate) fn field_list(cursor: &mut Cursor<'_>) -> Result<Vec<Field>, ReadError>
    ensures { ReadsAs (λ v. map field_of v.items) (spec.separated Terminal.Comma spec.field (tokens_shown cursor.old)) result (tokens_shown cursor.new) }
{
    let mut found = Vec::new(cursor.alloc());
    for _turn in 0..cursor.left() {
        found.push(field(cursor)?)?;
        if !cursor.take(Terminal::Comma) {
            return Ok(found);
        }
    }
    Err(cursor.fault())
}

/// Formal parameters between parentheses, or none.
#[tactic(auto, unfolding(ioa_grammar::specs::Reading::optional_list, ioa_grammar::specs::Reading::fields, ioa_grammar::specs::Reading::closing))]
pub(crate) fn formals(cursor: &mut Cursor<'_>) -> Result<Vec<Field>, ReadError>
    ensures { ReadsAs (λ v. map field_of v.items) (spec.optional_list Terminal.Open spec.fields (tokens_shown cursor.old)) result (tokens_shown cursor.new) }
{
    if !cursor.take(Terminal::Open) {
        return Ok(Vec::new(cursor.alloc()));
    }
    let found = field_list(cursor)?;
    cursor.expect(Terminal::Close)?;
    Ok(found)
}

/// A constant that is written with one token.
#[tactic(auto, unfolding(ioa_grammar::specs::Reading::literal, ioa_grammar::specs::Reading::literal_at, ioa_grammar::specs::Reading::literal_of, ioa_grammar::specs::Reading::a_name))]
fn literal(cursor: &mut Cursor<'_>) -> Result<Constant, ReadError>
    ensures { ReadsAs constant_of (spec.literal (tokens_shown cursor.old)) result (tokens_shown cursor.new) }
{
    let Some(Token { kind, line }) = cursor.peek() else {
        return Err(cursor.fault());
    };
    let constant = match kind {
        Kind::Number(n) => Constant::Number(*n, *line),
        Kind::Terminal(Terminal::True) => Constant::Truth(true, *line),
        Kind::Terminal(Terminal::False) => Constant::Truth(false, *line),
        Kind::Name(_) => return Ok(Constant::Name(cursor.name()?)),
        Kind::Terminal(_) => return Err(cursor.fault()),
    };
    cursor.skip();
    Ok(constant)
}

/// What stands after the word `const`.
#[tactic(auto, unfolding(ioa_grammar::specs::Reading::a_constant))]
fn constant(cursor: &mut Cursor<'_>) -> Result<Constant, ReadError>
    ensures { ReadsAs constant_of (spec.a_constant (tokens_shown cursor.old)) result (tokens_shown cursor.new) }
{
    let line = cursor.line();
    if cursor.take(Terminal::Minus) {
        return Ok(Constant::Negative(cursor.number()?, line));
    }
    literal(cursor)
}

#[tactic(auto, unfolding(ioa_grammar::specs::Reading::position))]
fn position(cursor: &mut Cursor<'_>) -> Result<Position, ReadError>
    ensures { ReadsAs position_of (spec.position (tokens_shown cursor.old)) result (tokens_shown cursor.new) }
{
    if cursor.take(Terminal::Const) {
        return Ok(Position::Constant(constant(cursor)?));
    }
    Ok(Position::Typed(field(cursor)?))
}

#[tactic(auto, unfolding(ioa_grammar::specs::Reading::separated), using(ioa_grammar::proofs::Turns::items_turn, ioa_grammar::proofs::Turns::items_close, ioa_grammar::proofs::Turns::items_fail, ioa_grammar::proofs::Turns::items_spent))]
fn position_list(cursor: &mut Cursor<'_>) -> Result<Vec<Position>, ReadError>
    ensures { ReadsAs (λ v. map position_of v.items) (spec.separated Terminal.Comma spec.position (tokens_shown cursor.old)) result (tokens_shown cursor.new) }
{
    let mut found = Vec::new(cursor.alloc());
    for _turn in 0..cursor.left() {
        found.push(position(cursor)?)?;
        if !cursor.take(Terminal::Comma) {
            return Ok(found);
        }
    }
    Err(cursor.fault())
}

/// Positions between parentheses, or none.
#[tactic(auto, unfolding(ioa_grammar::specs::Reading::optional_list, ioa_grammar::specs::Reading::positions, ioa_grammar::specs::Reading::closing))]
fn positions(cursor: &mut Cursor<'_>) -> Result<Vec<Position>, ReadError>
    ensures { ReadsAs (λ v. map position_of v.items) (spec.optional_list Terminal.Open spec.positions (tokens_shown cursor.old)) result (tokens_shown cursor.new) }
{
    if !cursor.take(Terminal::Open) {
        return Ok(Vec::new(cursor.alloc()));
    }
    let found = position_list(cursor)?;
    cursor.expect(Terminal::Close)?;
    Ok(found)
}

/// An entry: a kind, a name, and its positions.
#[tactic(auto, unfolding(ioa_grammar::specs::Reading::entry))]
fn entry(cursor: &mut Cursor<'_>) -> Result<Entry, ReadError>
    ensures { ReadsAs entry_of (spec.entry (tokens_shown cursor.old)) result (tokens_shown cursor.new) }
{
    let kind = cursor.kind()?;
    let name = cursor.name()?;
    let positions = positions(cursor)?;
    Ok(Entry {
        kind,
        name,
        positions,
    })
}

/// The entries of a signature, the last of them with or without a semicolon.
#[tactic(auto, unfolding(ioa_grammar::specs::Reading::entries, ioa_grammar::specs::Reading::terminated), using(ioa_grammar::proofs::Turns::items_turn, ioa_grammar::proofs::Turns::items_close, ioa_grammar::proofs::Turns::items_fail, ioa_grammar::proofs::Turns::items_spent))]
pub(crate) fn entries(cursor: &mut Cursor<'_>) -> Result<Vec<Entry>, ReadError>
    ensures { ReadsAs (λ v. map entry_of v.items) (spec.entries (tokens_shown cursor.old)) result (tokens_shown cursor.new) }
{
    let mut found = Vec::new(cursor.alloc());
    for _turn in 0..cursor.left() {
        found.push(entry(cursor)?)?;
        if !cursor.take(Terminal::Semicolon) || !cursor.sees_kind() {
            return Ok(found);
        }
    }
    Err(cursor.fault())
}
