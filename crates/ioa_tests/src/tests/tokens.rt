//! Tokens of texts, and texts that have none.

use crate::tests::made::{Got, expect_so, expect_text};
use ioa_lex::{Kind, Refusal, Terminal, Token, lex};
use std::alloc::{AllocError, Global};
use std::fmt::Write;
use std::process::Abort;

static WORDS: [(&str, Terminal); 47] = [
    ("type", Terminal::Type),
    ("enum", Terminal::Enum),
    ("tuple", Terminal::Tuple),
    ("seq", Terminal::Seq),
    ("of", Terminal::Of),
    ("invariant", Terminal::Invariant),
    ("automaton", Terminal::Automaton),
    ("signature", Terminal::Signature),
    ("states", Terminal::States),
    ("transitions", Terminal::Transitions),
    ("input", Terminal::Input),
    ("output", Terminal::Output),
    ("internal", Terminal::Internal),
    ("const", Terminal::Const),
    ("true", Terminal::True),
    ("false", Terminal::False),
    ("stable", Terminal::Stable),
    ("pre", Terminal::Pre),
    ("propose", Terminal::Propose),
    ("any", Terminal::Any),
    ("eff", Terminal::Eff),
    ("if", Terminal::If),
    ("then", Terminal::Then),
    ("elseif", Terminal::Elseif),
    ("else", Terminal::Else),
    ("fi", Terminal::Fi),
    ("composition", Terminal::Composition),
    ("components", Terminal::Components),
    ("hidden", Terminal::Hidden),
    ("crash", Terminal::Crash),
    ("recover", Terminal::Recover),
    ("div", Terminal::Div),
    ("mod", Terminal::Mod),
    ("empty", Terminal::Empty),
    ("len", Terminal::Len),
    ("head", Terminal::Head),
    ("tail", Terminal::Tail),
    ("last", Terminal::Last),
    ("init", Terminal::Init),
    ("append", Terminal::Append),
    ("at", Terminal::At),
    ("member", Terminal::Member),
    ("without", Terminal::Without),
    ("for", Terminal::For),
    ("in", Terminal::In),
    ("do", Terminal::Do),
    ("od", Terminal::Od),
];

static SIGNS: [(&str, Terminal); 22] = [
    ("=", Terminal::Equal),
    ("~=", Terminal::NotEqual),
    ("<", Terminal::Less),
    ("<=", Terminal::LessEqual),
    (">", Terminal::Greater),
    (">=", Terminal::GreaterEqual),
    ("+", Terminal::Plus),
    ("-", Terminal::Minus),
    ("*", Terminal::Star),
    ("~", Terminal::Not),
    ("/\\", Terminal::And),
    ("\\/", Terminal::Or),
    ("=>", Terminal::Implies),
    (":=", Terminal::Becomes),
    (":", Terminal::Colon),
    (";", Terminal::Semicolon),
    (",", Terminal::Comma),
    (".", Terminal::Dot),
    ("(", Terminal::Open),
    (")", Terminal::Close),
    ("{", Terminal::OpenBrace),
    ("}", Terminal::CloseBrace),
];

/// A text that is no list of tokens, and the line at fault.
static REFUSED: [(&str, u32); 8] = [
    ("a\n#", 2),
    ("9223372036854775807 9223372036854775808", 1),
    (
        "\n\nabbbbbbbbbbbbbbbbbbbbbbbbbbbbbbbbbbbbbbbbbbbbbbbbbbbbbbbbbbbbbbbb",
        3,
    ),
    ("_a", 1),
    ("a /", 1),
    ("a\n\n\\", 3),
    ("% \u{e9}\n\u{e9}", 2),
    ("\"", 1),
];

fn expect_terminals(rt: &impl Abort, alloc: Global, rows: &[(&str, Terminal)]) {
    for (text, terminal) in rows {
        let tokens = lex(alloc, text.as_bytes()).expect(rt, "tokens");
        let is_so = match tokens.as_slice() {
            [token] => matches!(&token.kind, Kind::Terminal(found) if found == terminal),
            _ => false,
        };
        expect_so(rt, is_so, text);
    }
}

#[test]
fn words_and_signs_are_tokens(rt: HostRuntime) {
    let alloc = rt.alloc();
    expect_terminals(&rt, alloc, &WORDS);
    expect_terminals(&rt, alloc, &SIGNS);
}

#[test]
fn other_texts_are_no_tokens(rt: HostRuntime) {
    let alloc = rt.alloc();
    for (text, line) in &REFUSED {
        let is_so = match lex(alloc, text.as_bytes()) {
            Err(Refusal::BadByte(at)) => at == *line,
            _ => false,
        };
        expect_so(&rt, is_so, text);
    }
}

/// Writes a token on a line, with its own line.
fn push_token(text: &mut String, token: &Token) -> Result<(), AllocError> {
    let line = token.line;
    match &token.kind {
        Kind::Name(name) => write!(text, "{line} name {name}\n"),
        Kind::Number(number) => write!(text, "{line} number {number}\n"),
        Kind::Terminal(terminal) => write!(text, "{line} {}\n", terminal.text()),
    }
}

#[test]
fn the_longest_token_is_taken(rt: HostRuntime) {
    let alloc = rt.alloc();
    let tokens = lex(alloc, b"inputs 007x:==% = +\n\tinput").expect(&rt, "tokens");
    let mut told = String::new(alloc);
    for token in &tokens {
        push_token(&mut told, token).got(&rt);
    }
    let wanted = "1 name inputs\n1 number 7\n1 name x\n1 :=\n1 =\n2 input\n";
    expect_text(&rt, told.as_str(), wanted);
}
