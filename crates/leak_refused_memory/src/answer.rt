//! What a call answered.

use std::fmt;

/// What a call answered, the better first.
#[derive(Clone, Copy, Debug, PartialEq, Eq)]
pub(crate) enum Answer {
    /// What it answers with ample memory.
    Same,
    /// Want of memory, in the call's own type.
    Wanting,
    /// Memory for the inputs of the call was refused, so it was not made.
    NoInput,
    /// Anything else: another refusal, or another result.
    Other,
}

impl Answer {
    /// Whether a result is what the call gives with ample memory.
    pub(crate) fn of(is_same: bool) -> Answer {
        if is_same { Answer::Same } else { Answer::Other }
    }

    /// Want of memory, if the refusal is that.
    pub(crate) fn of_refusal(is_wanting: bool) -> Answer {
        if is_wanting {
            Answer::Wanting
        } else {
            Answer::Other
        }
    }

    /// The later of two answers in the order above.
    pub(crate) fn worse(self, other: Answer) -> Answer {
        if other.rank() > self.rank() {
            other
        } else {
            self
        }
    }

    fn rank(self) -> u8 {
        match self {
            Answer::Same => 0,
            Answer::Wanting => 1,
            Answer::NoInput => 2,
            Answer::Other => 3,
        }
    }

    /// The status of the program.
    pub(crate) fn status(self) -> u8 {
        match self {
            Answer::Same => 0,
            Answer::Wanting => 3,
            Answer::Other => 4,
            Answer::NoInput => 5,
        }
    }
}

impl fmt::Display for Answer {
    fn fmt<W: fmt::Write>(&self, f: &mut fmt::Formatter<W>) -> fmt::Result {
        f.write_str(match self {
            Answer::Same => "as with ample memory",
            Answer::Wanting => "out of memory",
            Answer::NoInput => "no memory for its inputs",
            Answer::Other => "something else",
        })
    }
}
