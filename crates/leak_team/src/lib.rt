//! The workers that share the work of a call.
//!
//! A [`Team`] says what starts them, whose memory they take, and how many they are. Calls that take one share out what
//! they have to do among so many workers at most, and give the same answer for every number.
#![tactic(auto)]

ghost use Rattle.std.specs.Prelude.{◌≡◌};

use std::alloc::Global;
use std::thread::Threads;

/// The workers that share the work of a call.
#[derive(Clone, Copy)]
pub struct Team<'a, R: Threads + Sync> {
    /// What starts them.
    pub rt: &'a R,
    /// Whose memory they take.
    pub alloc: Global,
    /// How many they are at most, the caller among them. 0 is the caller alone, as 1 is.
    pub workers: u32,
}

impl<'a, R: Threads + Sync> Team<'a, R> {
    /// The same of so many workers.
    pub fn of(&self, workers: u32) -> Team<'a, R>
        ensures { result ≡ record self.now { workers = workers } }
    {
        Team {
            rt: self.rt,
            alloc: self.alloc,
            workers,
        }
    }
}
