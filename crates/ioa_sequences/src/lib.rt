//! The words of sequences: how many items there are, the words of an item, and sequences with an item more or less, in the place of
//! the words that are there.
#![tactic(auto)]

mod sequences;

pub use sequences::{
    append, append_word, count_word, first_place, item_count, last_place, pick, pick_word,
    place_among, place_of, shorten, without,
};
