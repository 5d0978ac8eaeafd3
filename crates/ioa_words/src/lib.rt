//! Values as words: whole numbers of 64 bits in a row, as many for each value of a type, so that
//! equal values are equal words. Values are written as words and read back, and each operator works
//! on the words of its operands.
#![tactic(auto)]

// Types, and how wide their values are.
mod layout;

// Values as words, and words as values.
mod reading;
mod writing;

// Operators on words.
mod decoding;
mod word_op;
mod working;

// Laws.
mod laws;

pub use decoding::{decode, sizes_of};
pub use laws::{
    as_many_words, equal_words, marked_are_read, operators_agree, parts_stand, values_are_words,
    words_are_read, written_are_marked,
};
pub use layout::Layout;
pub use reading::{read_value, read_values};
pub use word_op::{Part, Sizes, WordOp};
pub use writing::{pad, push_value, push_values};
