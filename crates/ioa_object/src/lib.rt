//! The format of object files: programs as bytes, and the tables that bytes tell. Bytes are tested
//! item by item and their code is verified, so tables that are read are right, whoever wrote the bytes.
#![tactic(auto)]

// How objects begin.
mod mark;
mod versions;

// Items of a program.
mod components;
mod instructions;
mod parts;
mod types;

// Whole programs.
mod programs;
mod writing;

// Laws.
mod laws;

pub use ioa_bytes::ObjErr;
pub use laws::objects_are_their_programs;
pub use mark::{MARK, is_marked};
pub use programs::read_tables;
pub use versions::{is_needless, version_of};
pub use writing::write_object;
