//! A place in the bytes of an object, from which numbers, names and values are read, item by item, and why bytes are no object.
#![tactic(auto)]

mod cursor;
mod failure;
mod read_values;

pub use cursor::{Cursor, Named};
pub use failure::ObjErr;
pub use read_values::{value, values};
