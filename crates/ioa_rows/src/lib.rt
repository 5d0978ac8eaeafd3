//! Tables whose rows are texts, the sources that tests of more than one crate run, and devices that fail. Only tests
//! stand on it.
#![tactic(auto)]

mod devices;
mod rows;
mod sources;

pub use devices::{Dripping, KINDS, Slow};
pub use rows::{RowErr, column, columns, is_row, text};
pub use sources::{COUNTER, GAME};
