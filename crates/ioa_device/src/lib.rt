//! Devices, which count their failures, so that none is passed over, the texts that pass through them, whole or line by line, and why the text of
//! a list or a log is refused.
#![tactic(auto)]

mod counted;
mod device;
mod failure;
mod line_reader;
mod streams;

pub use counted::Counted;
pub use device::{Device, Failed, InputDevice, OutputDevice};
pub use failure::LogErr;
pub use line_reader::LineReader;
pub use streams::{blamed, read_all, send_all};
