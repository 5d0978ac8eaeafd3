//! The token at which tokens are no source, and what may stand in its place.

ghost use Rattle.std.specs.Prelude.{◌≡◌, ◌∷◌, [], false, IfOk, MatchResult};
ghost use Rattle.ioa_value.specs.declared.limits.TheConstants.{LIMITS};
ghost use Rattle.ioa_lex.specs.Tokens.{tokens_shown, kind_shown};
ghost use Rattle.ioa_tree.specs.declared.tree.Declaration.{Declaration};
ghost use Rattle.ioa_tree.specs.View.{declaration_of};
ghost use Rattle.ioa_grammar.specs.DeadEnds as dead_ends;
ghost use Rattle.ioa_grammar.specs.DeadEnds.{IsDeadAt, IsFaultAt};
ghost use Rattle.ioa_grammar.specs.Grammar.{IsDeadEnd};
ghost use Rattle.ioa_grammar.specs.Reading as spec;
ghost use Rattle.ioa_grammar.specs.Reading.{Fails};

use crate::declarations::declaration;
use ioa_grammar::{Cursor, Fault, ReadError};
use ioa_lex::{Kind, Token};
use ioa_value::OutOfMemory;
use std::alloc::Global;

/// The index of the token, or of the end, at which no source goes on, and from which the line of `Syntax` comes. None, where the tokens are not refused
/// so: they are a source, or one that is too deep.
///
/// Fails where a growth of memory was refused.
pub fn dead_end(alloc: Global, tokens: &[Token]) -> Result<Option<usize>, OutOfMemory>
    ensures { IfOk result (λ found. IsDeadAt (tokens_shown tokens.now) found) }
{
    let mut cursor = Cursor::new(alloc, tokens);
    for _turn in 0..tokens.len() {
        let first = cursor.left();
        if first == 0 {
            return Ok(None);
        }
        match pass(&mut cursor) {
            Ok(()) => {}
            Err(error) => return stopped_by(error, tokens.len()),
        }
    }
    Ok(None)
}

/// Where the reading of so many tokens stopped by this.
fn stopped_by(error: ReadError, count: usize) -> Result<Option<usize>, OutOfMemory>
    ensures { IfOk result (λ found. IsFaultAt count error found) }
{
    match error {
        ReadError::OutOfMemory => Err(OutOfMemory),
        ReadError::Fault(fault) => Ok(fault_index(fault, count)),
    }
}

/// The index of the token of a fault among so many.
fn fault_index(fault: Fault, count: usize) -> Option<usize>
    ensures { result ≡ dead_ends.fault_index count fault }
{
    match fault {
        Fault::Syntax(left) => Some(count.saturating_sub(left)),
        Fault::TooDeep => None,
    }
}

/// Passes over a declaration.
fn pass(cursor: &mut Cursor<'_>) -> Result<(), ReadError>
    ensures { MatchResult result (λ _. (d : Declaration) × (spec.declaration LIMITS.depth (tokens_shown cursor.old) ≡ Ok (declaration_of d, tokens_shown cursor.new))) (λ e. Fails e (spec.declaration LIMITS.depth (tokens_shown cursor.old))) }
{
    declaration(cursor)?;
    Ok(())
}

/// Whether a source may go on with such a token behind these. It is false only where none does.
///
/// The tokens are as before, unless a growth of memory was refused.
pub fn goes_on(alloc: Global, tokens: &mut Vec<Token>, kind: Kind) -> Result<bool, OutOfMemory>
    ensures none { IfOk result (λ may. may ≡ false → IsDeadEnd (tokens_shown tokens.old.items) (kind_shown kind ∷ [])) }
    ensures kept { IfOk result (λ _. tokens.new.items ≡ tokens.old.items) }
{
    let next = tokens.len();
    tokens.push(Token { kind, line: 0 })?;
    let found = dead_end(alloc, tokens.as_slice())?;
    tokens.pop();
    match found {
        Some(at) => Ok(at > next),
        None => Ok(true),
    }
}
