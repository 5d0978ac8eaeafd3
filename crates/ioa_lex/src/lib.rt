//! Texts as tokens, each with the line on which it begins, and `Refusal`, by which this crate and
//! those above it say why a source or a composition is refused. A text has one list of tokens, or
//! stops on one line.
#![tactic(auto)]

// Tokens and refusals.
mod refusal;
mod token;

// From a text to its tokens.
mod front;
mod lexer;
mod scan;
mod stop;

// Laws.
mod laws;

pub use ioa_value::Terminal;
pub use laws::{one_answer, spaced_tokens, tokens_alone, written_once};
pub use lexer::lex;
pub use refusal::Refusal;
pub use stop::stop_of;
pub use token::{Kind, Token};
