//! Where a source names what is told of.

ghost use Rattle.std.specs.Prelude.{◌≡◌, IfOk, IfSome, Some, find, reverse, option_map, true};
ghost use Rattle.std.specs.Option.{option_copied};
ghost use Rattle.std.specs.Str.{bytes_eq};
ghost use Rattle.ioa_lex.specs.Lexing.{placed};
ghost use Rattle.ioa_lex.specs.Tokens as lexed;
ghost use Rattle.ioa_lex.specs.Tokens.{kind_shown};
ghost use Rattle.ioa_tree.specs.Compositions as compositions;
ghost use Rattle.ioa_tree.specs.Tree.{CompositionTree};
ghost use Rattle.ioa_tree.specs.View.{assembly_of, tree_of};
ghost use Rattle.ioa_syntax.specs.Stuck.{IsNumbered};
ghost use Rattle.ioa_compose.specs.Refusals.{IsRefused};
ghost use Rattle.ioa_causes.specs.Composing.{IsOn};
ghost use Rattle.ioa_causes.specs.Words.{StandsOn};
ghost use Rattle.ioa_serving.specs.Headline.{Spells};

use ioa_check::{Checked, check};
use ioa_compose::compose;
use ioa_lex::{Kind, Token};
use ioa_syntax::{Numbered, Refusal, parse, parse_numbered};
use ioa_tree::{Assembly, Declaration, Name};
use ioa_value::OutOfMemory;
use std::alloc::Global;

/// The source that a text is, if it keeps the rules.
pub fn checked_in(alloc: Global, text: &[u8]) -> Result<Option<Checked>, OutOfMemory>
    ensures { IfOk result (λ found. IfSome found (λ c. Spells text.now (tree_of c))) }
{
    let source = match parse(alloc, text) {
        Ok(source) => source,
        Err(Refusal::OutOfMemory) => return Err(OutOfMemory),
        Err(_) => return Ok(None),
    };
    match check(alloc, source) {
        Ok(checked) => Ok(Some(checked)),
        Err(Refusal::OutOfMemory) => Err(OutOfMemory),
        Err(_) => Ok(None),
    }
}

/// A source that keeps the rules, whose lines are indices of its tokens, and these tokens.
#[derive(Drop)]
pub struct Placed {
    pub checked: Checked,
    pub tokens: Vec<Token>,
}

/// The source that a text is, if it keeps the rules, with its tokens.
pub fn placed_in(alloc: Global, text: &[u8]) -> Result<Option<Placed>, OutOfMemory>
    ensures { IfOk result (λ found. IfSome found (λ p. IsNumbered text.now (placed p.tokens.items) (tree_of p.checked))) }
{
    let numbered = match parse_numbered(alloc, text) {
        Ok(numbered) => numbered,
        Err(Refusal::OutOfMemory) => return Err(OutOfMemory),
        Err(_) => return Ok(None),
    };
    let Numbered { source, tokens } = numbered;
    match check(alloc, source) {
        Ok(checked) => Ok(Some(Placed { checked, tokens })),
        Err(Refusal::OutOfMemory) => Err(OutOfMemory),
        Err(_) => Ok(None),
    }
}

/// Why the composition of this name is refused, or the last one where no name is given. None, where it is not.
pub fn refusal_of(
    alloc: Global,
    checked: &Checked,
    name: Option<&str>,
) -> Result<Option<Refusal>, OutOfMemory>
    ensures { IfOk result (λ found. IfSome found (λ r. (t : CompositionTree) → compositions.picked (tree_of checked.now) (option_copied name.entry) ≡ Some t → IsRefused (tree_of checked.now) t r)) }
{
    match compose(alloc, checked, name) {
        Ok(_) => Ok(None),
        Err(Refusal::OutOfMemory) => Err(OutOfMemory),
        Err(refusal) => Ok(Some(refusal)),
    }
}

/// The name of the first composition of a source that is refused.
pub fn first_refused<'a>(
    alloc: Global,
    checked: &'a Checked,
) -> Result<Option<&'a str>, OutOfMemory> {
    for declaration in checked.declarations() {
        if let Declaration::Composition(assembly) = declaration {
            let name = assembly.name.text.as_str();
            if refusal_of(alloc, checked, Some(name))?.is_some() {
                return Ok(Some(name));
            }
        }
    }
    Ok(None)
}

/// The composition of this name, or the last one where no name is given.
pub fn picked<'a>(declarations: &'a [Declaration], name: Option<&str>) -> Option<&'a Assembly>
    ensures { option_map (λ c. assembly_of c.now) result ≡ compositions.picked (tree_of declarations.now) (option_copied name.entry) }
{
    match name {
        Some(name) => composition_named(declarations, name),
        None => last_composition(declarations),
    }
}

fn composition_named<'a>(declarations: &'a [Declaration], name: &str) -> Option<&'a Assembly>
    ensures { option_map (λ c. assembly_of c.now) result ≡ find (λ c. bytes_eq c.name name.now) (compositions.compositions (tree_of declarations.now)) }
{
    for declaration in declarations {
        if let Declaration::Composition(composition) = declaration
            && composition.name.is(name)
        {
            return Some(composition);
        }
    }
    None
}

fn last_composition(declarations: &[Declaration]) -> Option<&Assembly>
    ensures { option_map (λ c. assembly_of c.now) result ≡ compositions.first_item (reverse (compositions.compositions (tree_of declarations.now))) }
{
    let mut last = None;
    for declaration in declarations {
        if let Declaration::Composition(composition) = declaration {
            last = Some(composition);
        }
    }
    last
}

/// The line of the token that is the name, whose own line is the index of a token.
pub fn line_on(tokens: &[Token], name: &Name) -> Option<u32>
    ensures { IfSome result (IsOn tokens.now name.now) }
{
    line_of_name(tokens, name.line, name.text.as_str())
}

/// The line of the token of this index, where it is this name.
fn line_of_name(tokens: &[Token], index: u32, name: &str) -> Option<u32>
    ensures { IfSome result (λ line. StandsOn tokens.now index (lexed.name name.now) line) }
{
    let token = tokens.get(index as usize)?;
    if is_name(&token.kind, name) {
        Some(token.line)
    } else {
        None
    }
}

fn is_name(kind: &Kind, name: &str) -> bool
    ensures { result ≡ true → kind_shown kind.now ≡ lexed.name name.now }
{
    match name_in(kind) {
        Some(found) => found == name,
        None => false,
    }
}

fn name_in(kind: &Kind) -> Option<&str>
    ensures { IfSome result (λ x. kind_shown kind.now ≡ lexed.name x.now) }
{
    match kind {
        Kind::Name(name) => Some(name.as_str()),
        Kind::Number(_) | Kind::Terminal(_) => None,
    }
}
