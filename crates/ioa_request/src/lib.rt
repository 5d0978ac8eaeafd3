//! What the words of a command line ask for: a `Request`, with `Settings` where it is a run,
//! `Seeds` where it is one for each of many seeds, and a `Selection` of a log's entries where it is a chart; and with it a `Cut` of a list or a
//! log, where no more of these is taken. No file is read for it. Each `Code` and each
//! `Topic` of what the program prints has an explanation here.
#![tactic(auto)]

// What is asked for.
mod arguments;
mod chart_usage;
mod cut;
mod cut_usage;
mod monitor_usage;
mod reading;
mod request;
mod run_usage;
mod seeds;
mod selection;
mod settings;
mod shown;
mod watch_usage;

// Words, and what they spell.
mod fields;
mod key;
mod numerals;

// Codes and topics, and what is said of them.
mod code;
pub mod explanation;
pub mod explanations;
mod pasted;
mod topic;

pub use code::Code;
pub use cut::{Cut, read_cut};
pub use fields::first_field;
pub use key::{numbered_digits, numbered_key};
pub use numerals::numeral;
pub use reading::{is_explained, is_set, mixes_json, read_request};
pub use request::{Request, parse};
pub use seeds::{Seeds, asks_seeds, is_given, read_range};
pub use selection::{Selection, read_bound};
pub use settings::{Settings, WordsFrom, read_turns};
pub use shown::Shown;
pub use topic::Topic;
