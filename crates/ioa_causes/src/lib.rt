//! What is wrong with a source that is refused, in words for people: at which byte, token or name a rule is broken, and how.
#![tactic(auto)]

// In words, by the refusal.
pub mod composing;
mod wordings;
pub mod words;

// What stands in the source.
mod broken;
mod entries;
pub mod nearest;

// What is wrong with it, rule by rule.
mod expected;
mod misfits;
mod mistyped;
mod names;
mod signatures;
mod signs;
mod typing;

pub use entries::entry_named;
pub use wordings::wording;
