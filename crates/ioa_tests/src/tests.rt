//! Tests by what they call, and what they make their arguments of.

mod calls;
mod code;
mod drawn;
mod given;
mod library;
mod logs;
mod made;
mod memory;
mod objects;
mod operators;
mod reached;
mod resumed;
mod rooms;
mod said;
mod schedules;
mod threads;
mod tokens;
mod watched;
mod words;
