//! Texts that read as an operand, with which a statement may go on or end.

ghost use Rattle.std.specs.Prelude.{◌≡◌};
ghost use Rattle.ioa_value.specs.Names as names;
ghost use Rattle.ioa_warnings.specs.Comments as spec;

use crate::comments::is_blank;

/// How far a text has been read as an operand.
#[derive(Clone, Copy)]
pub(crate) enum Reading {
    /// An operand has to come.
    Wanted,
    /// An operator has begun, behind an operand.
    Operator,
    /// It ends within a number or a name.
    Word,
    /// An operand ends before it.
    Behind,
    /// An `f` stands behind an operand.
    Closing,
    /// `fi` stands behind an operand.
    Closed,
    /// It is no operand.
    Other,
}

/// Whether the text up to its first `;` reads as an operand: numbers and names with operators between them. Two words that follow each other are none, unless
/// the second one is `fi`.
pub(crate) fn is_operand(text: &[u8]) -> bool
    ensures { result ≡ spec.is_operand text.now }
{
    let mut reading = Reading::Wanted;
    for byte in text {
        if *byte == b';' {
            return is_whole(reading);
        }
        reading = next(reading, *byte);
    }
    is_whole(reading)
}

/// How far it is read with one byte more.
fn next(reading: Reading, byte: u8) -> Reading
    ensures { result ≡ spec.next reading byte }
{
    match reading {
        Reading::Wanted => begun(byte),
        Reading::Operator if is_sign(byte) => Reading::Wanted,
        Reading::Operator => begun(byte),
        Reading::Word if is_word_byte(byte) => Reading::Word,
        Reading::Word if byte == b'(' => Reading::Wanted,
        Reading::Word => gone_on(byte),
        Reading::Behind if byte == b'f' => Reading::Closing,
        Reading::Behind => gone_on(byte),
        Reading::Closing if byte == b'i' => Reading::Closed,
        Reading::Closed if is_blank(byte) => Reading::Closed,
        Reading::Closing | Reading::Closed | Reading::Other => Reading::Other,
    }
}

/// How far, where an operand is wanted.
fn begun(byte: u8) -> Reading
    ensures { result ≡ spec.begun byte }
{
    if is_blank(byte) || opens(byte) {
        Reading::Wanted
    } else if is_word_byte(byte) {
        Reading::Word
    } else {
        Reading::Other
    }
}

/// How far, behind an operand.
fn gone_on(byte: u8) -> Reading
    ensures { result ≡ spec.gone_on byte }
{
    if is_blank(byte) || byte == b')' {
        Reading::Behind
    } else if joins(byte) {
        Reading::Wanted
    } else if is_sign(byte) {
        Reading::Operator
    } else {
        Reading::Other
    }
}

/// Whether an operand is there, whole.
fn is_whole(reading: Reading) -> bool
    ensures { result ≡ spec.is_whole reading }
{
    match reading {
        Reading::Word | Reading::Behind | Reading::Closed => true,
        Reading::Wanted | Reading::Operator | Reading::Closing | Reading::Other => false,
    }
}

/// A byte of a number or a name.
fn is_word_byte(byte: u8) -> bool
    ensures { result ≡ names.is_word_byte byte }
{
    byte.is_ascii_alphanumeric() || byte == b'_'
}

/// What stands before an operand.
fn opens(byte: u8) -> bool
    ensures { result ≡ spec.opens byte }
{
    byte == b'(' || byte == b'-' || byte == b'~'
}

/// What stands between two.
fn joins(byte: u8) -> bool
    ensures { result ≡ spec.joins byte }
{
    byte == b'.' || byte == b','
}

/// A byte of an operator that stands between two operands.
fn is_sign(byte: u8) -> bool
    ensures { result ≡ spec.is_sign byte }
{
    byte == b'+'
        || byte == b'-'
        || byte == b'*'
        || byte == b'/'
        || byte == b'\\'
        || byte == b'='
        || byte == b'~'
        || byte == b'<'
        || byte == b'>'
}
