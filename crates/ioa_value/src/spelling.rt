//! How reserved words and signs are written.

ghost use Rattle.std.specs.Prelude.{◌≡◌, IfSome, IfNone, find};
ghost use Rattle.std.specs.Str.{bytes_eq};
ghost use Rattle.ioa_value.specs.Spelling.{spelling_of, IsReserved};
ghost use Rattle.ioa_value.specs.Lookup as lookup;

use crate::terminal::Terminal;

/// The reserved words and signs that begin with this byte.
fn beginning_with(first: u8) -> &'static [Terminal]
    ensures { result.now ≡ lookup.beginning_with first }
{
    match first {
        b'a' => &[
            Terminal::Any,
            Terminal::Append,
            Terminal::At,
            Terminal::Automaton,
        ],
        b'c' => &[
            Terminal::Composition,
            Terminal::Components,
            Terminal::Const,
            Terminal::Crash,
        ],
        b'd' => &[Terminal::Div, Terminal::Do],
        b'e' => &[
            Terminal::Eff,
            Terminal::Else,
            Terminal::Elseif,
            Terminal::Empty,
            Terminal::Enum,
        ],
        b'f' => &[Terminal::False, Terminal::Fi, Terminal::For],
        b'h' => &[Terminal::Head, Terminal::Hidden],
        b'i' => &[
            Terminal::If,
            Terminal::In,
            Terminal::Init,
            Terminal::Input,
            Terminal::Internal,
            Terminal::Invariant,
        ],
        b'l' => &[Terminal::Last, Terminal::Len],
        b'm' => &[Terminal::Member, Terminal::Mod],
        b'o' => &[Terminal::Od, Terminal::Of, Terminal::Output],
        b'p' => &[Terminal::Pre, Terminal::Propose],
        b'r' => &[Terminal::Recover],
        b's' => &[
            Terminal::Seq,
            Terminal::Signature,
            Terminal::Stable,
            Terminal::States,
        ],
        b't' => &[
            Terminal::Tail,
            Terminal::Then,
            Terminal::Transitions,
            Terminal::True,
            Terminal::Tuple,
            Terminal::Type,
        ],
        b'w' => &[Terminal::Without],
        b'=' => &[Terminal::Equal, Terminal::Implies],
        b'~' => &[Terminal::Not, Terminal::NotEqual],
        b'<' => &[Terminal::Less, Terminal::LessEqual],
        b'>' => &[Terminal::Greater, Terminal::GreaterEqual],
        b'+' => &[Terminal::Plus],
        b'-' => &[Terminal::Minus],
        b'*' => &[Terminal::Star],
        b'/' => &[Terminal::And],
        b'\\' => &[Terminal::Or],
        b':' => &[Terminal::Becomes, Terminal::Colon],
        b';' => &[Terminal::Semicolon],
        b',' => &[Terminal::Comma],
        b'.' => &[Terminal::Dot],
        b'(' => &[Terminal::Open],
        b')' => &[Terminal::Close],
        b'{' => &[Terminal::OpenBrace],
        b'}' => &[Terminal::CloseBrace],
        _ => &[],
    }
}

impl Terminal {
    /// How it is written.
    pub fn text(self) -> &'static str
        ensures { result.now ≡ spelling_of self }
    {
        match self {
            Terminal::Type => "type",
            Terminal::Enum => "enum",
            Terminal::Tuple => "tuple",
            Terminal::Seq => "seq",
            Terminal::Of => "of",
            Terminal::Invariant => "invariant",
            Terminal::Automaton => "automaton",
            Terminal::Signature => "signature",
            Terminal::States => "states",
            Terminal::Transitions => "transitions",
            Terminal::Input => "input",
            Terminal::Output => "output",
            Terminal::Internal => "internal",
            Terminal::Const => "const",
            Terminal::True => "true",
            Terminal::False => "false",
            Terminal::Stable => "stable",
            Terminal::Pre => "pre",
            Terminal::Propose => "propose",
            Terminal::Any => "any",
            Terminal::Eff => "eff",
            Terminal::If => "if",
            Terminal::Then => "then",
            Terminal::Elseif => "elseif",
            Terminal::Else => "else",
            Terminal::Fi => "fi",
            Terminal::Composition => "composition",
            Terminal::Components => "components",
            Terminal::Hidden => "hidden",
            Terminal::Crash => "crash",
            Terminal::Recover => "recover",
            Terminal::Div => "div",
            Terminal::Mod => "mod",
            Terminal::Empty => "empty",
            Terminal::Len => "len",
            Terminal::Head => "head",
            Terminal::Tail => "tail",
            Terminal::Last => "last",
            Terminal::Init => "init",
            Terminal::Append => "append",
            Terminal::At => "at",
            Terminal::Member => "member",
            Terminal::Without => "without",
            Terminal::For => "for",
            Terminal::In => "in",
            Terminal::Do => "do",
            Terminal::Od => "od",
            Terminal::Equal => "=",
            Terminal::NotEqual => "~=",
            Terminal::Less => "<",
            Terminal::LessEqual => "<=",
            Terminal::Greater => ">",
            Terminal::GreaterEqual => ">=",
            Terminal::Plus => "+",
            Terminal::Minus => "-",
            Terminal::Star => "*",
            Terminal::Not => "~",
            Terminal::And => "/\\",
            Terminal::Or => "\\/",
            Terminal::Implies => "=>",
            Terminal::Becomes => ":=",
            Terminal::Colon => ":",
            Terminal::Semicolon => ";",
            Terminal::Comma => ",",
            Terminal::Dot => ".",
            Terminal::Open => "(",
            Terminal::Close => ")",
            Terminal::OpenBrace => "{",
            Terminal::CloseBrace => "}",
        }
    }

    /// The reserved word or sign that is written so.
    pub fn find(text: &[u8]) -> Option<Terminal>
        ensures found { IfSome result (λ t. text.now ≡ spelling_of t) }
        ensures free { IfNone result (¬ (IsReserved text.now)) }
    {
        let first = text.first()?;
        among(beginning_with(*first), text)
    }
}

/// The one of these that is written so.
fn among(terminals: &[Terminal], text: &[u8]) -> Option<Terminal>
    ensures { result ≡ find (λ t. bytes_eq (spelling_of t) text.now) terminals.now }
{
    for terminal in terminals {
        if is_written(*terminal, text) {
            return Some(*terminal);
        }
    }
    None
}

/// Whether it is written so. Most words differ in their length or their second byte, so their bytes are compared here,
/// one by one.
fn is_written(terminal: Terminal, text: &[u8]) -> bool
    ensures { result ≡ bytes_eq (spelling_of terminal) text.now }
{
    let spelling = terminal.text().as_bytes();
    if spelling.len() != text.len() {
        return false;
    }
    for i in 0..text.len() {
        if spelling[i] != text[i] {
            return false;
        }
    }
    true
}
