//! What follows from the definitions alone.

ghost use Rattle.std.specs.Prelude.{◌≡◌, ◌≢◌, ℕ, ◌<◌, ℤ, pos, ◌+ℤ◌, ◌*ℤ◌, unsigned_abs};
ghost use Rattle.std.specs.Int.{int_div_euclid, int_rem_euclid};

/// A number is the divisor times the Euclidean quotient, and the remainder, which is not negative and less than the divisor's
/// absolute value.
pub fn quotient_and_remainder()
    ensures sum { (a b : ℤ) → b ≢ pos 0 → a ≡ (int_div_euclid a b *ℤ b) +ℤ int_rem_euclid a b }
    ensures rest { (a b : ℤ) → b ≢ pos 0 → (r : ℕ) × (int_rem_euclid a b ≡ pos r) × (r < unsigned_abs b) }
{}
