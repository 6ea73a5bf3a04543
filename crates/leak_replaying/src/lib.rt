//! A log of allocations is replayed while it is read, and not held.
//!
//! [`replay_reading`] reads a log piece by piece, goes over the complete lines of each window, and lets go of them: only
//! the bytes behind the last line feed are held. The workers of a `leak_team::Team` read the lines of a long window side by
//! side; they are replayed by the caller, in order. It returns a [`LogByTexts`]: the live blocks, and the text of each
//! block's caller, each text kept once ([`KeptTexts`]). The callers of the blocks stay ranges of the log.
//!
//! `specs/Outcome.antt` says what is read of a log, and `specs/Replaying.antt` how far a reading has come.
//!
//! The contracts don't say how many bytes are held, nor for how long.
#![tactic(auto)]

mod finishing;
mod log_so_far;
mod numbering;
mod replaying;
mod sharing;
mod texts;

pub use finishing::LogByTexts;
pub use replaying::replay_reading;
pub use texts::{KeptTexts, Numbers};
