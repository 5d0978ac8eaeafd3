//! Numbers in decimal digits, within a bound.

ghost use Rattle.std.specs.Prelude.{◌≡◌, ◌-◌, ◌^◌};
ghost use Rattle.ioa_request.specs.Numerals.{numeral_in};

use std::str;

/// The number that a word spells in decimal digits alone, where it is no greater than this one.
#[tactic(auto, using(crate::proofs::Numbers::within, crate::proofs::Numbers::past, crate::proofs::Numbers::still_none))]
pub fn numeral(word: &[u8], most: u64) -> Option<u64>
    ensures { result ≡ numeral_in most word.now }
{
    let number = number(word)?;
    if number <= most { Some(number) } else { None }
}

/// The number of 64 bits that a word spells in decimal digits alone.
fn number(word: &[u8]) -> Option<u64>
    ensures { result ≡ numeral_in (2 ^ 64 - 1) word.now }
{
    if word.is_empty() || word[0] == b'+' {
        return None;
    }
    let Ok(digits) = str::from_utf8(word) else {
        return None;
    };
    match digits.parse::<u64>() {
        Ok(number) => Some(number),
        Err(_) => None,
    }
}
