//! Objects as programs: bytes are read just where they are the object of a program, as that program,
//! and why other bytes are refused.
#![tactic(auto)]

mod reading;

pub use reading::read_object;
