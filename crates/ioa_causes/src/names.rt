//! Which name is declared twice, or is not known, and what else it is.

ghost use Rattle.std.specs.Prelude.{◌≡◌, IfOk, IfSome};
ghost use Rattle.std.specs.String.{string_bytes};
ghost use Rattle.ioa_causes.specs.Words as spec;

use crate::broken::{Known, What, is_word_at, known_names, line_of, line_of_name, name_at};
use crate::nearest::nearest;
use ioa_lex::{Terminal, Token};
use ioa_tree::Declaration;
use ioa_value::OutOfMemory;
use std::alloc::Global;
use std::fmt::Write;

/// Names of types in other languages, each with the one that is written here.
const TYPES: &str = r#"
Nat Int
nat Int
Integer Int
integer Int
int Int
Boolean Bool
boolean Bool
bool Bool
"#;

/// Which name the token of this index declares again, and where it is declared first. None, where it is no name.
pub fn twice_words(
    alloc: Global,
    declarations: &[Declaration],
    tokens: &[Token],
    index: u32,
) -> Result<Option<String>, OutOfMemory>
    ensures { IfOk result (λ found. IfSome found (λ words. spec.TellsTwice tokens.now (string_bytes words))) }
{
    match name_at(tokens, index) {
        Some(name) => Ok(Some(again_words(alloc, declarations, tokens, name, index)?)),
        None => Ok(None),
    }
}

/// Where a name is declared that the token of this index declares again.
fn again_words(
    alloc: Global,
    declarations: &[Declaration],
    tokens: &[Token],
    name: &str,
    index: u32,
) -> Result<String, OutOfMemory>
    ensures { IfOk result (λ words. spec.TellsAgain tokens.now index name.now (string_bytes words)) }
{
    let known = known_names(alloc, declarations)?;
    match other_of(&known, name, index) {
        Some(other) => first_words(alloc, tokens, name, index, other),
        None if is_built_in(name) => Ok(built_in_words(alloc, name)?),
        None => Ok(repeated_words(alloc, tokens, name, index)?),
    }
}

/// On which line a name is declared already, and as what.
fn first_words(
    alloc: Global,
    tokens: &[Token],
    name: &str,
    index: u32,
    other: &Known<'_>,
) -> Result<String, OutOfMemory>
    ensures { IfOk result (λ words. spec.TellsAgain tokens.now index name.now (string_bytes words)) }
{
    let at = other.name.line;
    match line_of_name(tokens, at, name) {
        Some(line) if at != index => Ok(declared_words(alloc, name, line, other)?),
        _ => Ok(repeated_words(alloc, tokens, name, index)?),
    }
}

fn declared_words(
    alloc: Global,
    name: &str,
    line: u32,
    other: &Known<'_>,
) -> Result<String, OutOfMemory>
    ensures { IfOk result (λ words. spec.TellsLine name.now line (string_bytes words)) }
{
    let what = what_text(alloc, other)?;
    Ok(already_words(alloc, name, line, what.as_str())?)
}

fn already_words(alloc: Global, name: &str, line: u32, what: &str) -> Result<String, OutOfMemory>
    ensures { IfOk result (λ words. string_bytes words ≡ spec.already_words name.now line what.now) }
{
    Ok(format!(in alloc; "`{name}` is declared on line {line} already, as {what}")?)
}

fn built_in_words(alloc: Global, name: &str) -> Result<String, OutOfMemory>
    ensures { IfOk result (λ words. string_bytes words ≡ spec.built_in_words name.now) }
{
    Ok(format!(in alloc; "`{name}` is a type without a declaration")?)
}

/// That a name that is declared by no more than a proposal or as hidden stands there again.
fn repeated_words(
    alloc: Global,
    tokens: &[Token],
    name: &str,
    index: u32,
) -> Result<String, OutOfMemory>
    ensures { IfOk result (λ words. spec.TellsRepeated tokens.now index name.now (string_bytes words)) }
{
    match line_before(tokens, name, index) {
        Some(line) => Ok(line_words(alloc, name, line)?),
        None => Ok(bare_words(alloc, name)?),
    }
}

fn line_words(alloc: Global, name: &str, line: u32) -> Result<String, OutOfMemory>
    ensures { IfOk result (λ words. string_bytes words ≡ spec.repeated_words name.now line) }
{
    Ok(format!(in alloc; "`{name}` stands here again, as on line {line}")?)
}

fn bare_words(alloc: Global, name: &str) -> Result<String, OutOfMemory>
    ensures { IfOk result (λ words. string_bytes words ≡ spec.again_words name.now) }
{
    Ok(format!(in alloc; "`{name}` stands here again")?)
}

/// The line of the last token before this one that is the name.
fn line_before(tokens: &[Token], name: &str, index: u32) -> Option<u32>
    ensures { IfSome result (spec.IsLineBefore tokens.now index name.now) }
{
    for back in 0..index {
        let found = line_of_name(tokens, index - 1 - back, name);
        if found.is_some() {
            return found;
        }
    }
    None
}

fn is_built_in(name: &str) -> bool {
    name == "Int" || name == "Bool"
}

/// What a name is declared as.
fn what_text(alloc: Global, known: &Known<'_>) -> Result<String, OutOfMemory> {
    let what = known.what.words();
    let of = known.of.text.as_str();
    match known.what {
        What::Constant => Ok(format!(in alloc; "{what} {of}")?),
        What::Formal
        | What::Variable
        | What::Parameter
        | What::Loop
        | What::Entry
        | What::Component => Ok(format!(in alloc; "{what} of {of}")?),
        What::Type | What::Automaton | What::Composition => Ok(String::from_str(alloc, what)?),
    }
}

/// The other declaration of the name that is declared by the token of this index.
fn other_of<'a, 'b>(known: &'b [Known<'a>], name: &str, index: u32) -> Option<&'b Known<'a>> {
    let own = declared_at(known, index)?;
    let mut around = None;
    for other in known {
        if other.name.line != index && other.name.is(name) && shares_names(own, other) {
            if other.what != What::Loop {
                return Some(other);
            }
            // Of loops before it with its name the last one is round it: another would have been told first.
            around = Some(other);
        }
    }
    around
}

/// What the token of this index declares.
pub fn declared_at<'a, 'b>(known: &'b [Known<'a>], index: u32) -> Option<&'b Known<'a>> {
    for own in known {
        if own.name.line == index {
            return Some(own);
        }
    }
    None
}

/// Whether two names have to differ.
fn shares_names(own: &Known<'_>, other: &Known<'_>) -> bool {
    if own.what == What::Entry || own.what == What::Component {
        return own.what == other.what && own.within == other.within;
    }
    if other.what.is_global() {
        return true;
    }
    if own.what == What::Loop || other.what == What::Loop {
        return own.what == What::Loop && own.within == other.within && is_round(own, other);
    }
    let parameters = own.what == What::Parameter && other.what == What::Parameter;
    own.within == other.within
        && other.what != What::Entry
        && (!parameters || own.of.line == other.of.line)
}

/// Whether a loop may stand where the other name of its automaton does.
fn is_round(own: &Known<'_>, other: &Known<'_>) -> bool {
    match other.what {
        What::Loop => own.of.line == other.of.line && other.name.line < own.name.line,
        What::Parameter => own.of.is(other.of.text.as_str()),
        What::Entry => false,
        _ => true,
    }
}

/// Which name is not known where the token of this index stands, and what it is elsewhere. None, where it is no name.
pub fn unknown_words(
    alloc: Global,
    declarations: &[Declaration],
    tokens: &[Token],
    index: u32,
) -> Result<Option<String>, OutOfMemory>
    ensures { IfOk result (λ found. IfSome found (λ words. spec.TellsUnknown tokens.now (string_bytes words))) }
{
    match name_at(tokens, index) {
        Some(name) => Ok(Some(unknown_name_words(alloc, declarations, tokens, name, index)?)),
        None => Ok(None),
    }
}

/// What a name is that is not known where the token of this index stands.
fn unknown_name_words(
    alloc: Global,
    declarations: &[Declaration],
    tokens: &[Token],
    name: &str,
    index: u32,
) -> Result<String, OutOfMemory>
    ensures { IfOk result (λ words. spec.TellsName name.now (string_bytes words)) }
{
    if is_word_at(tokens, index.checked_sub(1), Terminal::Dot) {
        return Ok(field_words(alloc, name)?);
    }
    let what = meaning(alloc, declarations, tokens, name, index)?;
    Ok(meaning_words(alloc, name, what.as_str())?)
}

fn field_words(alloc: Global, name: &str) -> Result<String, OutOfMemory>
    ensures { IfOk result (λ words. string_bytes words ≡ spec.field_words name.now) }
{
    Ok(format!(in alloc; "the tuple has no field `{name}`")?)
}

fn meaning_words(alloc: Global, name: &str, what: &str) -> Result<String, OutOfMemory>
    ensures { IfOk result (λ words. string_bytes words ≡ spec.meaning_words name.now what.now) }
{
    Ok(format!(in alloc; "`{name}` is {what}")?)
}

/// What a name is, and why it is not known where the token of this index stands.
fn meaning(
    alloc: Global,
    declarations: &[Declaration],
    tokens: &[Token],
    name: &str,
    index: u32,
) -> Result<String, OutOfMemory> {
    let known = known_names(alloc, declarations)?;
    let within = declaration_of(&known, index);
    match meant(&known, name, within) {
        Some(other) => {
            let mut text = what_text(alloc, other)?;
            put_why(&mut text, tokens, other, within, index)?;
            Ok(text)
        }
        None => nowhere(alloc, &known, name),
    }
}

/// The declaration in which the token of this index stands: the last one that is named up to it.
fn declaration_of(known: &[Known<'_>], index: u32) -> usize {
    let mut within = 0;
    for other in known {
        if other.name.line <= index {
            within = other.within;
        }
    }
    within
}

/// What is most likely meant by a name: what the same declaration has, or else what is known in the whole source, or else what another one has.
fn meant<'a, 'b>(known: &'b [Known<'a>], name: &str, within: usize) -> Option<&'b Known<'a>> {
    let mut global = None;
    let mut elsewhere = None;
    for other in known {
        if other.name.is(name) {
            if other.what.is_global() {
                global = Some(other);
            } else if other.within == within {
                return Some(other);
            } else {
                elsewhere = Some(other);
            }
        }
    }
    global.or(elsewhere)
}

/// Puts why a name that is declared is not known where the token of this index stands.
fn put_why(
    text: &mut String,
    tokens: &[Token],
    other: &Known<'_>,
    within: usize,
    index: u32,
) -> Result<(), OutOfMemory> {
    let line = line_of(tokens, other.name.line);
    if other.what.is_global() && other.name.line > index {
        write!(text, ", and is declared later, on line {line}")?;
    } else if is_word_at(tokens, index.checked_add(1), Terminal::Becomes) {
        text.push_str(why_not_assigned(other.what))?;
    } else if other.what.is_global() {
        text.push_str(", which cannot stand here")?;
    } else if other.within == within {
        text.push_str(", which is not read here")?;
    } else {
        write!(text, " (line {line}), and is not known here")?;
    }
    Ok(())
}

/// Why nothing is assigned to, or proposed for, what a name is declared as.
fn why_not_assigned(what: What) -> &'static str {
    match what {
        What::Variable => ", and values are proposed for parameters",
        _ => ", and only variables of the automaton are assigned to",
    }
}

/// That a name is declared nowhere, and the nearest that is.
fn nowhere(alloc: Global, known: &[Known<'_>], name: &str) -> Result<String, OutOfMemory> {
    let mut text = String::from_str(alloc, "declared nowhere")?;
    if let Some(ty) = type_for(name) {
        write!(text, ": write `{ty}`")?;
        return Ok(text);
    }
    let mut names = Vec::new(alloc);
    for other in known {
        names.push(other.name.text.as_str())?;
    }
    if let Some(near) = nearest(name, &names) {
        write!(text, ": is `{near}` meant?")?;
    }
    Ok(text)
}

/// The type that another language calls so.
fn type_for(name: &str) -> Option<&'static str> {
    for row in TYPES.lines() {
        if let Some((other, ty)) = row.split_once(" ") {
            if other == name {
                return Some(ty);
            }
        }
    }
    None
}
