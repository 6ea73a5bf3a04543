//! What a terminal is told of a run that takes long.

use leak_find::Progress;
use std::fmt;
use std::fmt::{Display, Formatter};
use std::time::{Clock, Instant};

/// How many seconds a run may take before the terminal is told how far it has come.
const PATIENCE: u64 = 2;

/// As wide as the longest line that is told.
const BLANK: &str = "                                                  ";

/// Tells a terminal, on standard error, how far a run has come, once it has taken over two seconds.
///
/// Each line is written over the one before, and the last is wiped out. It tells nothing else, and what it writes is no warning.
#[derive(Drop)]
pub struct Screen<'a, R: Eprint + Clock> {
    rt: &'a R,
    /// When the run began. `None`: nothing is told.
    start: Option<Instant>,
}

impl<'a, R: Eprint + Clock> Screen<'a, R> {
    /// A run that begins now. Nothing is told if standard error is no terminal, or if there is no clock.
    pub fn new(rt: &'a R, is_terminal: bool) -> Screen<'a, R> {
        let start = if is_terminal {
            Instant::now(rt).ok()
        } else {
            None
        };
        Screen { rt, start }
    }

    /// Whether the run takes long.
    fn is_late(&self) -> bool {
        let Some(start) = self.start else {
            return false;
        };
        match start.elapsed(self.rt) {
            Ok(time) => time.as_secs() >= PATIENCE,
            Err(_) => false,
        }
    }
}

impl<'a, R: Eprint + Clock> Progress for Screen<'a, R> {
    fn tell(&self, done: u64, all: u64) {
        if self.is_late() {
            let (done, all) = (Grouped(done), Grouped(all));
            // A terminal that takes nothing is no reason to stop the run.
            let _written = eprint!(self.rt; "\rleak_find: {done} of {all} callers");
        }
    }

    fn end(&self) {
        if self.is_late() {
            let _written = eprint!(self.rt; "\r{BLANK}\r");
        }
    }
}

/// A number whose digits are shown in threes.
#[derive(Clone, Copy, Drop)]
struct Grouped(u64);

impl Display for Grouped {
    fn fmt<W: fmt::Write>(&self, f: &mut Formatter<W>) -> fmt::Result {
        let (high, low) = (self.0 / 1000, self.0 % 1000);
        let (higher, middle) = (high / 1000, high % 1000);
        let (highest, upper) = (higher / 1000, higher % 1000);
        if highest > 0 {
            write!(f, "{highest},{upper:03},{middle:03},{low:03}")
        } else if higher > 0 {
            write!(f, "{higher},{middle:03},{low:03}")
        } else if high > 0 {
            write!(f, "{high},{low:03}")
        } else {
            write!(f, "{low}")
        }
    }
}
