//! Operators on whole numbers of 64 bits. No result is wrapped: one that does not fit is a fault.

ghost use Rattle.std.specs.Prelude.{◌≡◌, ◌+ℤ◌, ◌-ℤ◌, ◌*ℤ◌, neg_ℤ};
ghost use Rattle.ioa_arithmetic.specs.Arithmetic.{tested, quotient, remainder, fault_number};

/// Why an operator has no value.
#[derive(Clone, Copy, PartialEq, Eq, Debug)]
pub enum Fault {
    /// The result is no number of 64 bits.
    Overflow = 1,
    /// The divisor is 0.
    ZeroDivisor = 2,
    /// The sequence is empty.
    Empty = 3,
    /// The index is outside the sequence.
    OutOfRange = 4,
    /// The sequence is full.
    Full = 5,
}

impl Fault {
    /// The fault's number, from 1 to 5.
    pub fn number(self) -> u8
        ensures { result ≡ fault_number self }
    {
        self as u8
    }
}

/// The number with the other sign; a fault where it does not fit.
pub fn negate(a: i64) -> Result<i64, Fault>
    ensures { result ≡ tested (neg_ℤ a) }
{
    match a.checked_neg() {
        Some(negative) => Ok(negative),
        None => Err(Fault::Overflow),
    }
}

/// The sum; a fault where it does not fit.
pub fn add(a: i64, b: i64) -> Result<i64, Fault>
    ensures { result ≡ tested (a +ℤ b) }
{
    match a.checked_add(b) {
        Some(sum) => Ok(sum),
        None => Err(Fault::Overflow),
    }
}

/// The difference; a fault where it does not fit.
pub fn subtract(a: i64, b: i64) -> Result<i64, Fault>
    ensures { result ≡ tested (a -ℤ b) }
{
    match a.checked_sub(b) {
        Some(rest) => Ok(rest),
        None => Err(Fault::Overflow),
    }
}

/// The product; a fault where it does not fit.
pub fn multiply(a: i64, b: i64) -> Result<i64, Fault>
    ensures { result ≡ tested (a *ℤ b) }
{
    match a.checked_mul(b) {
        Some(product) => Ok(product),
        None => Err(Fault::Overflow),
    }
}

/// The Euclidean quotient; a fault where the divisor is 0 or the quotient does not fit.
pub fn divide(a: i64, b: i64) -> Result<i64, Fault>
    ensures { result ≡ quotient a b }
{
    if b == 0 {
        return Err(Fault::ZeroDivisor);
    }
    if a == i64::MIN && b == -1 {
        return Err(Fault::Overflow);
    }
    Ok(a.div_euclid(b))
}

/// The Euclidean remainder; a fault where the divisor is 0. The remainder by -1 is 0, also where the quotient does not fit.
pub fn modulo(a: i64, b: i64) -> Result<i64, Fault>
    ensures { result ≡ remainder a b }
{
    if b == 0 {
        return Err(Fault::ZeroDivisor);
    }
    if b == -1 {
        return Ok(0);
    }
    Ok(a.rem_euclid(b))
}
