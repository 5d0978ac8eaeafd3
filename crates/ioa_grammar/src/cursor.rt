//! The tokens that are still to be read.

ghost use Rattle.std.specs.Prelude.{◌≡◌, length, MatchOption, List, [], ◌∷◌};
ghost use Rattle.ioa_lex.specs.Tokens.{tokens_shown, kind_shown};
ghost use Rattle.ioa_grammar.specs.Reading as spec;
ghost use Rattle.ioa_grammar.specs.Reading.{ReadsAs};
ghost use Rattle.ioa_tree.specs.View.{name_of};

use crate::fault::{Fault, ReadError};
use ioa_lex::{Kind, Terminal, Token};
use ioa_tree::Name;
use std::alloc::Global;
use std::marker::Model;

/// What is left to read of some tokens.
#[derive(Drop)]
pub struct Cursor<'a> {
    alloc: Global,
    left: &'a [Token],
}

impl<'a> Model for Cursor<'a> {
    ghost use Rattle.std.specs.Prelude.{List};
    ghost use Rattle.std.specs.Coded.{coded_list};
    ghost use Rattle.ioa_lex.specs.declared.token.Token.{Token};
    ghost use Rattle.ioa_lex.specs.contracts.token.Token as t;

    ghost Value = { List Token };

    ghost coded = { coded_list t.the_row.coded };

    ghost view = { λ c. c.left.now };
}

#[tactic(auto, unfolding(crate::specs::Reading::same_terminal))]
fn same_terminal(a: Terminal, b: Terminal) -> bool
    ensures { result ≡ spec.same_terminal a b }
{
    a == b
}

#[tactic(auto, unfolding(crate::specs::Reading::kind_of))]
fn kind_of(terminal: Terminal) -> Option<ioa_tree::Kind>
    ensures { result ≡ spec.kind_of terminal }
{
    match terminal {
        Terminal::Input => Some(ioa_tree::Kind::Input),
        Terminal::Output => Some(ioa_tree::Kind::Output),
        Terminal::Internal => Some(ioa_tree::Kind::Internal),
        _ => None,
    }
}

impl<'a> Cursor<'a> {
    /// All of the tokens are left.
    pub fn new(alloc: Global, tokens: &'a [Token]) -> Cursor<'a>
        ensures { result ≡ tokens.now }
    {
        Cursor {
            alloc,
            left: tokens,
        }
    }

    /// Where memory comes from.
    pub fn alloc(&self) -> Global {
        self.alloc
    }

    /// How many tokens are left.
    pub fn left(&self) -> usize
        ensures { result ≡ length self.now }
    {
        self.left.len()
    }

    /// Nothing goes on with the next token.
    pub fn fault(&self) -> ReadError
        ensures { result ≡ ReadError.Fault (Fault.Syntax (length self.now)) }
    {
        ReadError::Fault(Fault::Syntax(self.left()))
    }

    /// No expression and no statement of depth 0 comes next.
    pub fn too_deep(&self) -> ReadError
        ensures expression { spec.Fails result (spec.no_depth (tokens_shown self.now)) }
        ensures statement { spec.Fails result (spec.no_statement (tokens_shown self.now)) }
    {
        match self.left {
            [] => ReadError::Fault(Fault::Syntax(0)),
            _ => ReadError::Fault(Fault::TooDeep),
        }
    }

    /// The next token.
    pub fn peek(&self) -> Option<&'a Token>
        ensures { MatchOption result (tokens_shown self.now ≡ []) (λ t. tokens_shown self.now ≡ kind_shown t.now.kind ∷ spec.rest (tokens_shown self.now)) }
    {
        self.left.first()
    }

    /// The line of the next token, or 0.
    pub fn line(&self) -> u32
        ensures { result ≡ spec.line_of 0 self.now }
    {
        match self.left {
            [Token { line, .. }, ..] => *line,
            [] => 0,
        }
    }

    /// The word or sign that comes next.
    #[tactic(auto, unfolding(crate::specs::Reading::terminal_at))]
    pub(crate) fn terminal(&self) -> Option<Terminal>
        ensures { result ≡ spec.terminal_at (tokens_shown self.now) }
    {
        match self.left {
            [
                Token {
                    kind: Kind::Terminal(found),
                    ..
                },
                ..
            ] => Some(*found),
            _ => None,
        }
    }

    /// Whether this word or sign comes next.
    #[tactic(auto, unfolding(crate::specs::Reading::sees))]
    pub fn sees(&self, wanted: Terminal) -> bool
        ensures { result ≡ spec.sees wanted (tokens_shown self.now) }
    {
        match self.left {
            [
                Token {
                    kind: Kind::Terminal(found),
                    ..
                },
                ..
            ] => same_terminal(*found, wanted),
            _ => false,
        }
    }

    /// Takes this word or sign, if it comes next.
    #[tactic(auto, unfolding(crate::specs::Reading::after))]
    pub fn take(&mut self, wanted: Terminal) -> bool
        ensures found { result ≡ spec.sees wanted (tokens_shown self.old) }
        ensures after { tokens_shown self.new ≡ spec.after wanted (tokens_shown self.old) }
    {
        let found = self.sees(wanted);
        if found {
            self.skip();
        }
        found
    }

    /// Passes over the next token.
    pub fn skip(&mut self)
        ensures { tokens_shown self.new ≡ spec.rest (tokens_shown self.old) }
    {
        if let [_, rest @ ..] = self.left {
            self.left = rest;
        }
    }

    /// Takes this word or sign.
    #[tactic(auto, unfolding(crate::specs::Reading::sign))]
    pub fn expect(&mut self, wanted: Terminal) -> Result<(), ReadError>
        ensures { ReadsAs (λ u. u) (spec.sign wanted (tokens_shown self.old)) result (tokens_shown self.new) }
    {
        if !self.sees(wanted) {
            return Err(self.fault());
        }
        self.skip();
        Ok(())
    }

    /// Takes a name.
    #[tactic(auto, unfolding(crate::specs::Reading::a_name))]
    pub fn name(&mut self) -> Result<Name, ReadError>
        ensures { ReadsAs name_of (spec.a_name (tokens_shown self.old)) result (tokens_shown self.new) }
    {
        match self.left {
            [
                Token {
                    kind: Kind::Name(text),
                    line,
                },
                rest @ ..,
            ] => {
                let text = String::from_str(self.alloc, text.as_str())?;
                self.left = rest;
                Ok(Name { text, line: *line })
            }
            _ => Err(self.fault()),
        }
    }

    /// Takes a number.
    #[tactic(auto, unfolding(crate::specs::Reading::a_number))]
    pub fn number(&mut self) -> Result<u64, ReadError>
        ensures { ReadsAs (λ n. n) (spec.a_number (tokens_shown self.old)) result (tokens_shown self.new) }
    {
        match self.left {
            [
                Token {
                    kind: Kind::Number(number),
                    ..
                },
                rest @ ..,
            ] => {
                self.left = rest;
                Ok(*number)
            }
            _ => Err(self.fault()),
        }
    }

    /// Takes the word for a kind.
    #[tactic(auto, unfolding(crate::specs::Reading::a_kind, crate::specs::Reading::kind_at))]
    pub fn kind(&mut self) -> Result<ioa_tree::Kind, ReadError>
        ensures { ReadsAs (λ k. k) (spec.a_kind (tokens_shown self.old)) result (tokens_shown self.new) }
    {
        let Some(kind) = self.next_kind() else {
            return Err(self.fault());
        };
        self.skip();
        Ok(kind)
    }

    #[tactic(auto, unfolding(crate::specs::Reading::kind_at))]
    fn next_kind(&self) -> Option<ioa_tree::Kind>
        ensures { result ≡ spec.kind_at (tokens_shown self.now) }
    {
        kind_of(self.terminal()?)
    }

    /// Whether the word for a kind comes next.
    #[tactic(auto, unfolding(crate::specs::Reading::sees_kind))]
    pub fn sees_kind(&self) -> bool
        ensures { result ≡ spec.sees_kind (tokens_shown self.now) }
    {
        self.next_kind().is_some()
    }

    /// Whether a name comes next.
    #[tactic(auto, unfolding(crate::specs::Reading::sees_name))]
    pub fn sees_name(&self) -> bool
        ensures { result ≡ spec.sees_name (tokens_shown self.now) }
    {
        matches!(
            self.left,
            [
                Token {
                    kind: Kind::Name(_),
                    ..
                },
                ..
            ]
        )
    }

    /// Whether a statement comes next.
    #[tactic(auto, unfolding(crate::specs::Reading::sees_statement))]
    pub fn sees_statement(&self) -> bool
        ensures { result ≡ spec.sees_statement (tokens_shown self.now) }
    {
        self.sees_name() || self.sees(Terminal::If) || self.sees(Terminal::For)
    }

    /// Whether a variable comes next.
    #[tactic(auto, unfolding(crate::specs::Reading::sees_variable))]
    pub fn sees_variable(&self) -> bool
        ensures { result ≡ spec.sees_variable (tokens_shown self.now) }
    {
        self.sees_name() || self.sees(Terminal::Stable)
    }
}
