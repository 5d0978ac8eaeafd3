//! Tokens: what the grammar goes over, in the place of bytes.

use ioa_value::Terminal;
/// What a token is.
pub enum Kind {
    /// A whole number, at most 9223372036854775807.
    Number(u64),
    /// A name that is no reserved word, of at most 64 bytes.
    Name(String),
    /// A reserved word or a sign.
    Terminal(Terminal),
}

/// Written out, so that who drops one calls this, and does not take it apart itself.
impl Drop for Kind {
    fn drop(self) {
        match self {
            Kind::Number(_) => {}
            Kind::Name(_) => {}
            Kind::Terminal(_) => {}
        }
    }
}

/// A token, and the line on which it begins, counted from 1.
pub struct Token {
    pub kind: Kind,
    pub line: u32,
}

/// Written out, so that who drops one calls this, and does not take it apart itself.
impl Drop for Token {
    fn drop(self) {
        let Token { kind: _, line: _ } = self;
    }
}
