//! The tests of the public calls below `ioac`.
//! It has no code, and no crate stands on it.
#![tactic(auto)]

#[cfg(test)]
mod tests;
