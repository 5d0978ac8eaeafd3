//! What `ioac` does: `command` serves what the words of a command line ask for, and tells what came
//! of it, with `--explain` in words for people. What a caller names is handed on from here.
#![tactic(auto)]

// The command, and what it is asked for.
pub mod command;
mod requests;
mod usage;

// What is told of a request.
mod remarks;
mod served;
mod tees;
mod telling;

pub use ioa_request::{Code, Topic, explanation, explanations};
pub use ioa_serving::{
    Status, Store, StoreErr, compile_text, cuts_are_beginnings, is_object,
    objects_do_as_their_sources, objects_run_as_their_sources, one_composition,
};
pub use tees::Tee;
pub use telling::told_unread;
