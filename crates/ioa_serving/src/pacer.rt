//! The gate of runs on threads, which holds a worker for a while where others of its group are too far behind.

use crate::pace::Pace;
use crate::progress::Progress;
use ioa_run::{Gate, Point};
use std::alloc::{AllocError, Global};
use std::sync::{Condvar, Mutex, Wait};
use std::time::{Clock, Duration};

/// How many milliseconds a worker waits at most as it begins a turn.
const PATIENCE: u64 = 10;

/// A gate that keeps those workers of a run together that can influence each other: as a worker begins a turn, it waits for those of its group
/// that are too far behind.
#[derive(Drop)]
pub struct Pacer<'a, R> {
    rt: &'a R,
    pace: Mutex<Pace>,
    /// For each group, by its number, what those of it wait on: so none is woken for the sake of another group.
    moved: Vec<Condvar>,
}

impl<'a, R> Pacer<'a, R> {
    /// A gate for a worker of each of these groups, which are numbers of workers.
    pub fn new(rt: &'a R, alloc: Global, groups: &[usize]) -> Result<Pacer<'a, R>, AllocError> {
        let pace = Pace::new(alloc, groups)?;
        let mut moved = Vec::new(alloc);
        for _ in 0..groups.len() {
            moved.push(Condvar::new())?;
        }
        Ok(Pacer {
            rt,
            pace: Mutex::new(pace),
            moved,
        })
    }

    /// Wakes those that wait for the worker, which has come so far: those of its group and, where it has come to its first turn, all.
    fn wake(&self, worker: Progress) {
        for group in 0..self.moved.len() {
            if group == worker.group || worker.begun == 1 {
                self.moved[group].notify_all();
            }
        }
    }
}

impl<R: Wait + Clock> Pacer<'_, R> {
    /// Waits until the worker, which has come so far, need not wait for another, or has waited in vain.
    fn wait(&self, worker: Progress) {
        let Some(moved) = self.moved.get(worker.group) else {
            return;
        };
        let (mut pace, waited) = moved.wait_timeout_while(
            self.rt,
            self.pace.lock(self.rt),
            Duration::from_millis(PATIENCE),
            |pace| pace.is_held(worker),
        );
        if waited.timed_out() {
            pace.give_up(worker);
            self.wake(worker);
        }
    }
}

impl<R: Wait + Clock> Gate for Pacer<'_, R> {
    fn reach(&self, who: usize, at: Point) {
        if at != Point::Turn {
            return;
        }
        let arrival = self.pace.lock(self.rt).begin(who);
        if arrival.lets_go {
            self.wake(arrival.worker);
        }
        if arrival.is_held {
            self.wait(arrival.worker);
        }
    }
}
