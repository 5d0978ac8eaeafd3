//! What is enabled in the states of a program's components: the actions of which chance may make its entries propose one, and which of these may be
//! performed.
#![tactic(auto)]

// What an entry's code gives by equal words.
mod columns;
mod samples;

// Preconditions, and what is told of an entry.
mod combinations;
mod guards;
mod offers;

// Lines of text.
mod next;
mod part;
mod placing;
mod signatures;
mod telling;

// Laws.
mod laws;

pub use laws::{nothing_more_is_proposed, offers_are_the_hosts, ways_are_proposals};
pub use next::put_next;
pub use offers::{Offer, offer_of};
pub use telling::{MOST, put_enabled};
