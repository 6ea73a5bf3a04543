//! Words of a core, of which two are asked for at the same time.
ghost use Rattle.leak_elf.specs.Words.{word_of};
ghost use Rattle.leak_elf.specs.Aligned.{aligned_words};

use leak_elf::{Image, Words};
use std::sync::atomic::{AtomicU64, Ordering};

/// How many turns a worker waits for another, at most.
const TURNS: u64 = 1_000_000_000;

/// A place in the memory, and whether it has been asked for.
#[derive(Drop)]
struct MeetingPlace {
    addr: u64,
    asked: AtomicU64,
}

impl MeetingPlace {
    /// A place that nobody has asked for.
    fn of(addr: u64) -> MeetingPlace {
        MeetingPlace {
            addr,
            asked: AtomicU64::new(0),
        }
    }

    /// Whether somebody has asked for it before the turns end.
    fn is_asked_in_time(&self) -> bool {
        for _ in 0..TURNS {
            if self.asked.load(Ordering::SeqCst) != 0 {
                return true;
            }
        }
        false
    }
}

/// The words of a core with two places. Who asks for one of them goes on once somebody has asked for the other.
#[derive(Drop)]
pub struct Appointment<'a> {
    image: &'a Image<'a>,
    /// Whether bytes of several words are given at once.
    in_runs: bool,
    first: MeetingPlace,
    second: MeetingPlace,
    late: AtomicU64,
}

impl<'a> Appointment<'a> {
    /// Two places of a core at which nobody has been.
    pub fn of(image: &'a Image<'a>, in_runs: bool, first: u64, second: u64) -> Appointment<'a> {
        Appointment {
            image,
            in_runs,
            first: MeetingPlace::of(first),
            second: MeetingPlace::of(second),
            late: AtomicU64::new(0),
        }
    }

    /// Whether both places were asked for, each in time for the other.
    pub fn is_kept(&self) -> bool {
        let first = self.first.asked.load(Ordering::SeqCst);
        let second = self.second.asked.load(Ordering::SeqCst);
        first != 0 && second != 0 && self.late.load(Ordering::SeqCst) == 0
    }

    /// Asks for an address.
    fn ask(&self, addr: u64) {
        if addr == self.first.addr {
            self.meet(&self.first, &self.second);
        } else if addr == self.second.addr {
            self.meet(&self.second, &self.first);
        }
    }

    /// Asks for one place, and waits for the other.
    fn meet(&self, here: &MeetingPlace, there: &MeetingPlace) {
        here.asked.store(1, Ordering::SeqCst);
        if !there.is_asked_in_time() {
            self.late.store(1, Ordering::SeqCst);
        }
    }
}

impl<'a> Words for Appointment<'a> {
    ghost word_at = { λ a. word_of a.image.now };

    fn word(&self, addr: u64) -> Option<u64> {
        self.ask(addr);
        self.image.word(addr)
    }

    fn next(&self, from: u64) -> Option<u64> {
        self.image.next(from)
    }

    fn run(&self, from: u64) -> &[u8] {
        if !self.in_runs {
            return &[];
        }
        self.ask(from);
        self.image.run(from)
    }

    ghost aligned = { λ a. aligned_words a.image.now };
}
