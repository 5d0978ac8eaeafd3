//! Where the actions of each name stand in a table.
#![tactic(auto)]

mod sites;

pub use sites::{Site, Sited, add_sites};
