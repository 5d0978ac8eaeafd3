//! Steps of a program's components, and runs over lists of actions. A `Participation` keeps which
//! components have an action, each with the entry that has it. A `System` and a `Runner` keep
//! states of the program's types; a `Stepper` takes steps on such states, which are lent to it.
#![tactic(auto)]

// Who takes part in an action.
mod participation;

// Steps.
mod outcomes;
mod stepper;
mod steps;
mod system;

// Runs, and logs of runs.
mod log;
mod runner;
mod runs;

// Laws.
mod laws;

pub use laws::{runs_are_the_subjects, steps_are_the_subjects};
pub use log::{Log, LogEnd, LogEntry};
pub use outcomes::{End, Moved, Step};
pub use participation::{Participant, Participation, is_external, owner, participants};
pub use runner::{RunStep, Runner};
pub use runs::{Run, run_list};
pub use stepper::Stepper;
pub use steps::step_from;
pub use system::System;
