//! What may stand behind some tokens, as the grammar tells of one token after the other.

use ioa_declarations::goes_on;
use ioa_lex::{Kind, Terminal, Token};
use ioa_value::OutOfMemory;
use std::alloc::Global;
use std::fmt::Write;

/// The words and signs of the grammar, in the order in which they are told.
const TERMINALS: [Terminal; 68] = [
    Terminal::Semicolon,
    Terminal::Comma,
    Terminal::Colon,
    Terminal::Becomes,
    Terminal::Open,
    Terminal::Close,
    Terminal::OpenBrace,
    Terminal::CloseBrace,
    Terminal::Then,
    Terminal::Elseif,
    Terminal::Else,
    Terminal::Fi,
    Terminal::In,
    Terminal::Do,
    Terminal::Od,
    Terminal::If,
    Terminal::For,
    Terminal::Pre,
    Terminal::Propose,
    Terminal::Eff,
    Terminal::Signature,
    Terminal::States,
    Terminal::Transitions,
    Terminal::Components,
    Terminal::Hidden,
    Terminal::Crash,
    Terminal::Recover,
    Terminal::Of,
    Terminal::Enum,
    Terminal::Tuple,
    Terminal::Seq,
    Terminal::Const,
    Terminal::Stable,
    Terminal::Any,
    Terminal::Input,
    Terminal::Output,
    Terminal::Internal,
    Terminal::Type,
    Terminal::Automaton,
    Terminal::Invariant,
    Terminal::Composition,
    Terminal::True,
    Terminal::False,
    Terminal::Not,
    Terminal::Empty,
    Terminal::Len,
    Terminal::Head,
    Terminal::Tail,
    Terminal::Last,
    Terminal::Init,
    Terminal::Append,
    Terminal::At,
    Terminal::Member,
    Terminal::Without,
    Terminal::Equal,
    Terminal::NotEqual,
    Terminal::Less,
    Terminal::LessEqual,
    Terminal::Greater,
    Terminal::GreaterEqual,
    Terminal::Plus,
    Terminal::Minus,
    Terminal::Star,
    Terminal::Div,
    Terminal::Mod,
    Terminal::And,
    Terminal::Or,
    Terminal::Implies,
];

/// What may stand behind some tokens.
#[derive(Drop)]
pub struct Expected {
    name: bool,
    number: bool,
    words: Vec<Terminal>,
}

impl Expected {
    /// What may stand behind the tokens: all else is a dead end. The tokens are left as they are.
    pub fn behind(alloc: Global, tokens: &mut Vec<Token>) -> Result<Expected, OutOfMemory> {
        let mut words = Vec::new(alloc);
        for word in &TERMINALS {
            if goes_on(alloc, tokens, Kind::Terminal(*word))? {
                words.push(*word)?;
            }
        }
        let some_name = String::from_str(alloc, "x")?;
        Ok(Expected {
            name: goes_on(alloc, tokens, Kind::Name(some_name))?,
            number: goes_on(alloc, tokens, Kind::Number(0))?,
            words,
        })
    }

    /// Whether a name may stand there.
    pub fn name(&self) -> bool {
        self.name
    }

    /// Whether this word or sign may stand there.
    pub fn has(&self, word: Terminal) -> bool {
        self.words.iter().any(|other| *other == word)
    }

    /// The words and signs that may stand there.
    pub fn words(&self) -> &[Terminal] {
        self.words.as_slice()
    }

    /// Whether an expression may begin there.
    fn begins_expression(&self) -> bool {
        self.name && self.has(Terminal::True) && self.has(Terminal::Open)
    }

    /// Whether an operator may stand there.
    fn has_operator(&self) -> bool {
        self.has(Terminal::And)
    }

    /// Whether a declaration may begin there.
    fn begins_declaration(&self) -> bool {
        self.has(Terminal::Composition)
    }

    /// Whether this word or sign is told as a part of something larger.
    pub fn is_covered(&self, word: Terminal) -> bool {
        match part_of(word) {
            Part::Expression => self.begins_expression(),
            Part::Operator => self.has_operator(),
            Part::Either => self.has_operator() || self.begins_expression(),
            Part::Declaration => self.begins_declaration(),
            Part::Itself => false,
        }
    }

    /// Puts all that may stand there.
    pub fn put(&self, alloc: Global, text: &mut String) -> Result<(), OutOfMemory> {
        let mut said = Vec::new(alloc);
        if self.begins_expression() {
            said.push(Phrase::Kind("an expression"))?;
        } else {
            self.push_plain(&mut said)?;
        }
        for word in &self.words {
            if !self.is_covered(*word) {
                said.push(Phrase::Word(*word))?;
            }
        }
        if self.has_operator() {
            said.push(Phrase::Kind("an operator"))?;
        }
        if self.begins_declaration() {
            said.push(Phrase::Kind("a declaration"))?;
        }
        put_phrases(text, &said)
    }

    /// Adds a name and a number, where they may stand by themselves.
    fn push_plain(&self, said: &mut Vec<Phrase>) -> Result<(), OutOfMemory> {
        if self.name {
            said.push(Phrase::Kind("a name"))?;
        }
        if self.number {
            said.push(Phrase::Kind("a number"))?;
        }
        Ok(())
    }
}

/// What a word or sign is a part of.
#[derive(Clone, Copy)]
enum Part {
    Expression,
    Operator,
    /// A sign that begins an expression, or stands behind one.
    Either,
    Declaration,
    Itself,
}

fn part_of(word: Terminal) -> Part {
    match word {
        Terminal::True
        | Terminal::False
        | Terminal::Not
        | Terminal::Empty
        | Terminal::Len
        | Terminal::Head
        | Terminal::Tail
        | Terminal::Last
        | Terminal::Init
        | Terminal::Append
        | Terminal::At
        | Terminal::Member
        | Terminal::Without => Part::Expression,
        Terminal::Equal
        | Terminal::NotEqual
        | Terminal::Less
        | Terminal::LessEqual
        | Terminal::Greater
        | Terminal::GreaterEqual
        | Terminal::Plus
        | Terminal::Star
        | Terminal::Div
        | Terminal::Mod
        | Terminal::And
        | Terminal::Or
        | Terminal::Implies => Part::Operator,
        Terminal::Minus | Terminal::Open => Part::Either,
        Terminal::Type | Terminal::Automaton | Terminal::Invariant | Terminal::Composition => {
            Part::Declaration
        }
        _ => Part::Itself,
    }
}

/// What may stand in a place.
#[derive(Clone, Copy)]
enum Phrase {
    Word(Terminal),
    Kind(&'static str),
}

/// Puts the phrases with commas between them, and `or` before the last.
fn put_phrases(text: &mut String, said: &[Phrase]) -> Result<(), OutOfMemory> {
    let mut left = said.len();
    for phrase in said {
        match phrase {
            Phrase::Word(word) => {
                let word = word.text();
                write!(text, "`{word}`")?;
            }
            Phrase::Kind(kind) => text.push_str(kind)?,
        }
        left = left.saturating_sub(1);
        text.push_str(joint(left))?;
    }
    Ok(())
}

/// What stands behind a phrase that so many follow.
fn joint(left: usize) -> &'static str {
    match left {
        0 => "",
        1 => " or ",
        _ => ", ",
    }
}
