//! Seeds: the keys of a run's words.

ghost use Rattle.std.specs.Prelude.{◌≡◌, IfOk, Some};
ghost use Rattle.std.specs.String.{string_bytes};
ghost use Rattle.ioa_request.specs.Keys.{key_in, numbered_digits, numbered_key};

use hex::FromHex;
use std::alloc::{AllocError, Global};

/// The key that 64 hexadecimal digits spell, two for each byte.
pub fn read_key(digits: &str) -> Option<[u8; 32]>
    ensures { result ≡ key_in digits.now }
{
    <[u8; 32] as FromHex>::from_hex(digits).ok()
}

/// The key of a number, which its decimal digits spell, with zeros before them, two for each byte.
pub fn numbered_key(number: u64) -> [u8; 32]
    ensures { result ≡ numbered_key number }
{
    let mut key = [0; 32];
    let mut rest = number;
    for i in (0..32).rev() {
        let pair = (rest % 100) as u8;
        key[i] = pair / 10 * 16 + pair % 10;
        rest /= 100;
    }
    key
}

/// The 64 digits of the key of a number, by which the key is read again.
#[tactic(auto, using(crate::proofs::Keys::key_read))]
pub fn numbered_digits(alloc: Global, number: u64) -> Result<String, AllocError>
    ensures digits { IfOk result (λ text. string_bytes text ≡ numbered_digits number) }
    ensures read { key_in (numbered_digits number) ≡ Some (numbered_key number) }
{
    format!(in alloc; "{number:064}")
}
