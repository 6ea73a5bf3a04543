//! Who does the work of a call, and who is told how far it has come.

ghost use Rattle.std.specs.Prelude.{◌≡◌};

use std::thread::Threads;

/// Is told how far a call has come: after each marking, on the thread of the caller.
///
/// What is told changes nothing of what a call gives.
pub trait Progress {
    /// `done` of `all` texts are done.
    fn tell(&self, done: u64, all: u64);

    /// Nothing more is told: all texts are done, or memory was refused.
    fn end(&self);
}

/// Tells nobody.
#[derive(Clone, Copy, Debug)]
pub struct Silent;

impl Progress for Silent {
    fn tell(&self, _done: u64, _all: u64) {}

    fn end(&self) {}
}

/// The threads of a call, how many may work at once, and who is told of the work.
#[derive(Drop)]
pub struct Workers<'a, R: Threads + Sync, P: Progress> {
    pub rt: &'a R,
    pub count: u32,
    pub progress: &'a P,
}

impl<'a, R: Threads + Sync, P: Progress> Workers<'a, R, P> {
    /// This many workers.
    pub fn new(rt: &'a R, count: u32, progress: &'a P) -> Workers<'a, R, P>
        ensures { result.count ≡ count }
    {
        Workers {
            rt,
            count,
            progress,
        }
    }
}
