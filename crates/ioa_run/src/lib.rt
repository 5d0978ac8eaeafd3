//! Runs of workers that plan actions by copies and commit them to one board: by the events of a
//! schedule, on one thread, and on threads. A `Core` keeps each worker's plan beside the board, a
//! `Tally` counts by entries what a report counts.
#![tactic(auto)]

// The schedule machine.
mod event;
mod schedule;

// How runs begin, and what workers mean to do.
mod beginning;
mod choice;
mod locals;
mod seeded;
mod tally;

// Turns on one thread.
mod alone;
mod turn;

// Turns on threads.
mod crew;
mod gate;
mod own_room;
mod threads;
mod worker;

// Laws.
mod laws;

pub use alone::{resume_alone, run_alone};
pub use event::Event;
pub use gate::{Gate, OpenGate, Point};
pub use ioa_board::{
    Answer, Board, Outcome, Plan, Planned, Recorded, Report, Room, RunErr, Verdict, Why, Wish,
};
pub use laws::{
    attempts_answer, copies_answer, histories_are_the_subjects, logs_resume, one_play,
    runs_alone_are_plays, schedules_are_the_subjects, turns_are_the_subjects,
};
pub use schedule::{Core, play};
pub use seeded::Seeded;
pub use tally::{Tally, Tries};
pub use threads::{resume_threads, run_threads};
