//! The token at which no source goes on, and what may stand in its place.

ghost use Rattle.std.specs.Prelude.{◌≡◌, ◌++◌, ℕ, List, IfOk, MatchOption, OnOk};
ghost use Rattle.std.specs.String.{string_bytes};
ghost use Rattle.ioa_lex.specs.Lexing.{placed};
ghost use Rattle.ioa_lex.specs.Spaced.{text_of};
ghost use Rattle.ioa_lex.specs.Tokens.{kind_shown};
ghost use Rattle.ioa_syntax.specs.Stuck.{IsStuckIn};
ghost use Rattle.ioa_causes.specs.Words as spec;

use crate::expected::Expected;
use crate::nearest::nearest;
use ioa_declarations::goes_on;
use ioa_lex::{Kind, Terminal, Token};
use ioa_syntax::{Stuck, stuck_in};
use ioa_value::OutOfMemory;
use std::alloc::Global;
use std::fmt::Write;

/// Words and signs of other languages, each with what is written in its place.
const NEAR: &str = r#"
and /\
And /\
AND /\
or \/
Or \/
OR \/
not ~
Not ~
NOT ~
implies =>
effect eff
effects eff
precondition pre
preconditions pre
proposal propose
proposes propose
elsif elseif
elif elseif
endif fi
end fi
integer Int
"#;

/// Words that are tried before the token that does not fit, one after the other: where it fits behind one of them, that one is missing.
const MISSING: [Terminal; 19] = [
    Terminal::Semicolon,
    Terminal::Fi,
    Terminal::Od,
    Terminal::Close,
    Terminal::CloseBrace,
    Terminal::Then,
    Terminal::In,
    Terminal::Do,
    Terminal::Becomes,
    Terminal::Open,
    Terminal::OpenBrace,
    Terminal::Colon,
    Terminal::Comma,
    Terminal::States,
    Terminal::Transitions,
    Terminal::Signature,
    Terminal::Components,
    Terminal::Of,
    Terminal::Equal,
];

/// At which token of a source none goes on, and what may stand in its place. None, where one goes on at each.
pub fn said(alloc: Global, source: &[u8]) -> Result<Option<String>, OutOfMemory>
    ensures { IfOk result (λ found. MatchOption found (spec.IsUnstuck source.now) (λ words. spec.TellsStuck source.now (string_bytes words))) }
{
    match stuck_in(alloc, source)? {
        Some(stuck) => Ok(Some(stuck_words(alloc, tokens_of(&stuck), stuck.at)?)),
        None => Ok(None),
    }
}

/// The tokens of a text that is no source.
fn tokens_of(stuck: &Stuck) -> &[Token]
    ensures { (text : List ℕ) → IsStuckIn text (placed stuck.now.tokens.items) stuck.now.at → IsStuckIn text (placed result.now) stuck.now.at }
{
    stuck.tokens.as_slice()
}

/// What is wrong with the token of this index, or that none stands there, and what may stand in its place.
fn stuck_words(alloc: Global, tokens: &[Token], at: usize) -> Result<String, OutOfMemory>
    ensures { IfOk result (λ words. spec.TellsToken tokens.now at (string_bytes words)) }
{
    let mut front = declaration_before(alloc, tokens, at)?;
    let expected = Expected::behind(alloc, &mut front)?;
    match tokens.get(at) {
        Some(token) => {
            let more = misfit_text(alloc, token, &mut front, &expected)?;
            Ok(misfit_words(alloc, token, more.as_str())?)
        }
        None => {
            let more = place_text(alloc, front.as_slice(), &expected)?;
            Ok(end_words(alloc, more.as_str())?)
        }
    }
}

/// That a token does not fit.
fn misfit_words(alloc: Global, token: &Token, more: &str) -> Result<String, OutOfMemory>
    ensures { IfOk result (λ words. string_bytes words ≡ spec.misfit_words (kind_shown token.now.kind) more.now) }
{
    let mut text = String::new(alloc);
    put_token(&mut text, &token.kind)?;
    write!(text, " does not fit: {more}")?;
    Ok(text)
}

/// That the source ends too early.
fn end_words(alloc: Global, more: &str) -> Result<String, OutOfMemory>
    ensures { IfOk result (λ words. string_bytes words ≡ spec.end_words more.now) }
{
    Ok(format!(in alloc; "the source ends here, where only this may stand: {more}")?)
}

/// What may stand in a place, and what is open there.
fn place_text(alloc: Global, front: &[Token], expected: &Expected) -> Result<String, OutOfMemory> {
    let mut text = String::new(alloc);
    expected.put(alloc, &mut text)?;
    put_open(&mut text, front, expected)?;
    Ok(text)
}

/// The tokens before this one, from the beginning of its declaration on.
fn declaration_before(
    alloc: Global,
    tokens: &[Token],
    at: usize,
) -> Result<Vec<Token>, OutOfMemory> {
    let front = &tokens[..at.min(tokens.len())];
    let mut found = Vec::new(alloc);
    for Token { kind, line } in front {
        let kind = kind_of(alloc, kind)?;
        if begins_declaration(&kind) {
            found.clear();
        }
        found.push(Token { kind, line: *line })?;
    }
    Ok(found)
}

/// Whether a declaration begins with this token: with no other one does, and within a declaration it does not stand.
fn begins_declaration(kind: &Kind) -> bool {
    matches!(
        kind,
        Kind::Terminal(
            Terminal::Type | Terminal::Automaton | Terminal::Invariant | Terminal::Composition
        )
    )
}

fn kind_of(alloc: Global, kind: &Kind) -> Result<Kind, OutOfMemory> {
    match kind {
        Kind::Number(number) => Ok(Kind::Number(*number)),
        Kind::Name(name) => Ok(Kind::Name(String::from_str(alloc, name.as_str())?)),
        Kind::Terminal(word) => Ok(Kind::Terminal(*word)),
    }
}

/// Puts a token as it is written.
pub fn put_token(text: &mut String, kind: &Kind) -> Result<(), OutOfMemory>
    ensures { OnOk result (string_bytes text.new ≡ string_bytes text.old ++ spec.quoted (text_of (kind_shown kind.now))) }
{
    match kind {
        Kind::Number(number) => write!(text, "`{number}`")?,
        Kind::Name(name) => {
            let name = name.as_str();
            write!(text, "`{name}`")?;
        }
        Kind::Terminal(word) => {
            let word = word.text();
            write!(text, "`{word}`")?;
        }
    }
    Ok(())
}

/// What is wrong with a token, and what may stand in its place.
fn misfit_text(
    alloc: Global,
    token: &Token,
    front: &mut Vec<Token>,
    expected: &Expected,
) -> Result<String, OutOfMemory> {
    let mut text = String::new(alloc);
    if !put_known(alloc, &mut text, token, front.as_slice(), expected)? {
        put_missing(alloc, &mut text, token, front, expected)?;
    }
    text.push_str("here may stand ")?;
    let place = place_text(alloc, front.as_slice(), expected)?;
    text.push_str(place.as_str())?;
    Ok(text)
}

/// Puts what is often meant by such a token here, and answers whether that is known.
fn put_known(
    alloc: Global,
    text: &mut String,
    token: &Token,
    front: &[Token],
    expected: &Expected,
) -> Result<bool, OutOfMemory> {
    let said = match &token.kind {
        Kind::Name(name) => return put_near(alloc, text, name.as_str(), expected),
        Kind::Number(_) => "",
        Kind::Terminal(word) => known_sign(*word, front, expected),
    };
    text.push_str(said)?;
    Ok(!said.is_empty())
}

/// Puts the word that a name is near to, where that may stand.
fn put_near(
    alloc: Global,
    text: &mut String,
    name: &str,
    expected: &Expected,
) -> Result<bool, OutOfMemory> {
    let near = match near_word(name) {
        Some(word) if may_stand(word, expected) => Some(word),
        _ => nearest(name, &texts_of(alloc, expected)?),
    };
    match near {
        Some(word) => {
            write!(text, "write `{word}`; ")?;
            Ok(true)
        }
        None => Ok(false),
    }
}

/// How the words and signs are written that may stand there.
fn texts_of(alloc: Global, expected: &Expected) -> Result<Vec<&'static str>, OutOfMemory> {
    let mut found = Vec::new(alloc);
    for word in expected.words() {
        found.push(word.text())?;
    }
    Ok(found)
}

/// The word or sign that is written in a name's place.
fn near_word(name: &str) -> Option<&'static str> {
    for row in NEAR.lines() {
        if let Some((other, word)) = row.split_once(" ") {
            if other == name {
                return Some(word);
            }
        }
    }
    None
}

fn may_stand(word: &str, expected: &Expected) -> bool {
    match Terminal::find(word.as_bytes()) {
        Some(word) => expected.has(word),
        None => expected.name(),
    }
}

/// What is often meant by a word or sign here. Nothing, where that is not known.
fn known_sign(word: Terminal, front: &[Token], expected: &Expected) -> &'static str {
    match word {
        Terminal::Equal if expected.has(Terminal::Becomes) => "an assignment is written `:=`; ",
        Terminal::Equal if is_last(front, Terminal::Equal) => "equality is one `=`; ",
        Terminal::Becomes if expected.has(Terminal::Equal) => {
            "`:=` assigns, and equality is written `=`; "
        }
        Terminal::Dot if expected.has(Terminal::Becomes) => {
            "a field is not assigned to: assign a whole tuple; "
        }
        Terminal::Open if expected.has(Terminal::Eff) => {
            "a transition has the name of its entry alone, and the parameters stand in the signature; "
        }
        Terminal::Comma if expected.has(Terminal::Semicolon) => "`;` stands between these; ",
        _ if is_comparison(word) && expected.has(Terminal::And) => {
            "comparisons stand in no row: join them by `/\\`; "
        }
        _ => "",
    }
}

fn is_last(front: &[Token], word: Terminal) -> bool {
    match front.last() {
        Some(token) => word_in(&token.kind) == Some(word),
        None => false,
    }
}

fn is_comparison(word: Terminal) -> bool {
    matches!(
        word,
        Terminal::Equal
            | Terminal::NotEqual
            | Terminal::Less
            | Terminal::LessEqual
            | Terminal::Greater
            | Terminal::GreaterEqual
    )
}

/// Puts what is missing before a token, or that it is reserved where a name is wanted, if one of them is so.
fn put_missing(
    alloc: Global,
    text: &mut String,
    token: &Token,
    front: &mut Vec<Token>,
    expected: &Expected,
) -> Result<(), OutOfMemory> {
    for word in &MISSING {
        if expected.has(*word)
            && !expected.is_covered(*word)
            && fits_behind(alloc, token, front, *word)?
        {
            let word = word.text();
            write!(text, "`{word}` is missing before it; ")?;
            return Ok(());
        }
    }
    if expected.name() && is_reserved(&token.kind) {
        text.push_str("it is a reserved word; ")?;
    }
    Ok(())
}

/// Whether the token may stand behind this word, which may stand behind those.
fn fits_behind(
    alloc: Global,
    token: &Token,
    front: &mut Vec<Token>,
    word: Terminal,
) -> Result<bool, OutOfMemory> {
    front.push(Token {
        kind: Kind::Terminal(word),
        line: token.line,
    })?;
    let kind = kind_of(alloc, &token.kind)?;
    let fits = goes_on(alloc, front, kind)?;
    front.pop();
    Ok(fits)
}

/// Whether it is a word, and no sign.
fn is_reserved(kind: &Kind) -> bool {
    match kind {
        Kind::Terminal(word) => begins_with_letter(word.text()),
        _ => false,
    }
}

fn begins_with_letter(word: &str) -> bool {
    match word.as_bytes().first() {
        Some(byte) => byte.is_ascii_alphabetic(),
        None => false,
    }
}

/// Puts what is still open before the token, where that may be closed in its place.
fn put_open(text: &mut String, front: &[Token], expected: &Expected) -> Result<(), OutOfMemory> {
    let Some(open) = last_open(front) else {
        return Ok(());
    };
    if expected.has(closing(open.word)) {
        let word = open.word.text();
        let line = open.line;
        write!(text, "; the `{word}` of line {line} is open")?;
        if open.has_else_if {
            text.push_str(", and `else if` is written `elseif`")?;
        }
    }
    Ok(())
}

/// A word or sign that opens something.
#[derive(Clone, Copy)]
struct Open {
    word: Terminal,
    line: u32,
    /// Whether `else if` stands behind it.
    has_else_if: bool,
}

/// The last word or sign that opens something which is not closed behind it.
fn last_open(front: &[Token]) -> Option<Open> {
    let mut closed: usize = 0;
    let mut has_else_if = false;
    let mut behind = None;
    for token in front.iter().rev() {
        let word = word_in(&token.kind);
        if let Some(word) = word {
            if opens(word) && closed == 0 {
                return Some(Open {
                    word,
                    line: token.line,
                    has_else_if,
                });
            }
            closed = closed_before(word, closed);
            has_else_if = has_else_if || is_else_if(word, behind);
        }
        behind = word;
    }
    None
}

/// How many things are closed behind this word or sign, where so many are behind what follows it.
fn closed_before(word: Terminal, closed: usize) -> usize {
    if closes(word) {
        closed.saturating_add(1)
    } else if opens(word) {
        closed.saturating_sub(1)
    } else {
        closed
    }
}

fn is_else_if(word: Terminal, behind: Option<Terminal>) -> bool {
    word == Terminal::Else && behind == Some(Terminal::If)
}

fn word_in(kind: &Kind) -> Option<Terminal> {
    match kind {
        Kind::Terminal(word) => Some(*word),
        Kind::Number(_) | Kind::Name(_) => None,
    }
}

fn opens(word: Terminal) -> bool {
    matches!(
        word,
        Terminal::If | Terminal::For | Terminal::Open | Terminal::OpenBrace
    )
}

fn closes(word: Terminal) -> bool {
    matches!(
        word,
        Terminal::Fi | Terminal::Od | Terminal::Close | Terminal::CloseBrace
    )
}

/// What closes what this word or sign opens.
fn closing(word: Terminal) -> Terminal {
    match word {
        Terminal::Open => Terminal::Close,
        Terminal::OpenBrace => Terminal::CloseBrace,
        Terminal::For => Terminal::Od,
        _ => Terminal::Fi,
    }
}
