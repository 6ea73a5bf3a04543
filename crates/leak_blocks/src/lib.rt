//! The live blocks of an allocation log.
//!
//! [`replay_bytes`] goes over the lines of a log while it reads them, keeps none, and gives [`Live`]: each [`Block`] that no
//! later line ends, by ascending address, with the number of give-backs that met no live block and the number of
//! allocations that another allocation ended. [`replay_with_spans`] also gives the addresses of small allocations, as
//! far as they are outside the live blocks: the program goes by it if freed memory is left out, and by [`replay_bytes`]
//! otherwise. [`replay`] and [`small_spans`], which find the live blocks and all addresses of small allocations from
//! the lines of a `leak_mtrace::Log`, are for libraries and tests.
//!
//! A log can be gone over window by window, so that it need not be held: a [`Stage`] is between two arenas,
//! [`Stage::begin`] goes on with an arena, [`OngoingReplay::go_on`] goes over the complete lines of a window until the arena
//! is nearly full, and [`OngoingReplay::end`] leaves it. [`OngoingReplay::go_on_read`] goes over all lines of a window that
//! were read before. [`OngoingReplay::allocated`] has the blocks of the new allocations, so that the texts of their callers
//! can be kept before the window's bytes are let go.
//!
//! glibc's mtrace says what a line reports; which line ends which block is own rule, stated in `specs/Live.antt` over pairs
//! of lines. [`Live`] keeps callers as ranges of the log's bytes, and no bytes.
//!
//! The contracts don't say that the log is complete, nor that its lines are in the order of the calls.
#![tactic(auto)]

mod block;
mod laws;
mod live;
mod numbers;
mod ongoing_replay;
mod read_window;
mod replaying;
mod small;
mod stage;
mod window;

pub use block::Block;
pub use laws::{
    live_are_addressed, live_are_disjoint, live_are_of_lines, live_are_one_a_line, live_were_live,
    replays_line_by_line, worked_logs,
};
pub use live::Live;
pub use ongoing_replay::OngoingReplay;
pub use replaying::{Replayed, guess_allocations, replay, replay_bytes, replay_with_spans};
pub use small::{SmallSpans, Span, joined, small_spans};
pub use stage::Stage;
pub use window::LogPlace;
