//! What is told of runs for people, put behind a text: states by the source's names, why a run ends
//! where it does, in which line, and how much was asked. What each call puts is said letter by
//! letter.
#![tactic(auto)]

// Lines of files, lists and logs.
mod lines;
mod quoted;

// States, ends and counts.
mod counts;
mod ends;
mod states;

// What is told of them.
mod faults;
mod objects;
mod remarks;

// Laws.
mod laws;

pub use counts::{asked_invariants, known_actions};
pub use ends::{Account, account_of};
pub use laws::{actions_have_lines, ends_are_found};
pub use lines::{line_at, line_of_action};
pub use objects::put_object_monitored;
pub use quoted::{put_line, put_shown, put_transition};
pub use remarks::{
    Told, actions_in, put_difference, put_inspected, put_list_end, put_log_end, put_monitored,
};
pub use states::{put_component, put_states};
