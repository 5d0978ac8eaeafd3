//! Sources that are well formed. A `Checked` keeps that its source breaks no rule of names, types
//! and limits, that some tokens spell it, and the table of its types.
#![tactic(auto)]

mod checked;

pub use checked::{Checked, check};
pub use ioa_syntax::Refusal;
