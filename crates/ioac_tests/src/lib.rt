//! The tests of what `ioac` does, over tables of rows.
//! It has no code, and no crate stands on it.
#![tactic(auto)]

#[cfg(test)]
mod tests;
