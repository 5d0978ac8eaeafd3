//! Bytes, and runs of bytes.

ghost use Rattle.std.specs.Prelude.{◌≡◌, ◌≤◌, ◌<◌, IsTrue, MatchOption};
ghost use Rattle.std.specs.List.{list_all, prefix_len};
ghost use Rattle.ioa_value.specs.Names.{is_digit, is_word_byte};
ghost use Rattle.ioa_lex.specs.Lexing as spec;

/// The largest number that a text may write.
const LARGEST_NUMBER: u64 = 9223372036854775807;

pub fn is_blank(byte: u8) -> bool
    ensures { result ≡ spec.is_blank byte }
{
    byte == b' ' || byte == b'\t' || byte == b'\n' || byte == b'\r'
}

fn is_word_byte(byte: u8) -> bool
    ensures { result ≡ is_word_byte byte }
{
    byte.is_ascii_alphanumeric() || byte == b'_'
}

/// How many bytes at the front are letters, digits and `_`.
pub fn word_len(text: &[u8]) -> usize
    ensures { result ≡ prefix_len is_word_byte text.now }
{
    text.iter().take_while(|byte| is_word_byte(**byte)).count()
}

/// How many bytes at the front are digits.
pub fn digits_len(text: &[u8]) -> usize
    ensures { result ≡ prefix_len is_digit text.now }
{
    text.iter().take_while(|byte| byte.is_ascii_digit()).count()
}

/// How many bytes there are up to the end of the line.
pub fn line_len(text: &[u8]) -> usize
    ensures { result ≡ prefix_len spec.is_in_line text.now }
{
    text.iter().take_while(|byte| **byte != b'\n').count()
}

/// The value of the digits, if it is small enough.
pub fn value_of(digits: &[u8]) -> Option<u64>
    requires { IsTrue (list_all is_digit digits.now) }
    ensures { MatchOption result (LARGEST_NUMBER < spec.value_of digits.now) (λ n. (n ≡ spec.value_of digits.now) × (n ≤ LARGEST_NUMBER)) }
{
    let mut value: u64 = 0;
    for digit in digits {
        let next = u128::from(value) * 10 + u128::from(*digit - b'0');
        if next > u128::from(LARGEST_NUMBER) {
            return None;
        }
        value = next as u64;
    }
    Some(value)
}
