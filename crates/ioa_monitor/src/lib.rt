//! Monitors: specifications that are asked which actions they accept, all at once or one after another.
#![tactic(auto)]

mod monitors;
mod watch;

// Laws.
mod laws;

pub use laws::monitored_is_the_run;
pub use monitors::{MonitorErr, hides_actions, monitor};
pub use watch::Watch;
