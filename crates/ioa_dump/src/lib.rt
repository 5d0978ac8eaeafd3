//! Programs as lines of text, for people: the tables and the code, an item a line. What is written
//! of each item is defined letter by letter.
#![tactic(auto)]

mod code;
mod components;
mod program;
mod types;
mod values;

pub use program::dump_text;
