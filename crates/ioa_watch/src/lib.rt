//! Streams of actions, watched: specifications that perform those of their names as they come, and count them.
#![tactic(auto)]

// Specifications that are handed actions.
mod names;
mod watcher;
mod watching;

// Streams of lines.
mod endings;
mod lines;
mod streams;
mod verdicts;

// Laws.
mod laws;

pub use endings::ending_members;
pub use laws::{counted_by_names, refused_as_monitored, streams_are_the_subjects};
pub use streams::watch;
pub use watcher::Watcher;
