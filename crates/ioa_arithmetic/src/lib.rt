//! Whole numbers of 64 bits: what operators on them give, and why an operator has no value. A
//! result is the number that mathematics gives, or a `Fault`.
#![tactic(auto)]

mod arithmetic;
mod laws;

pub use arithmetic::{Fault, add, divide, modulo, multiply, negate, subtract};
pub use laws::quotient_and_remainder;
