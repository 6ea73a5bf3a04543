//! Two cores of one process: what the later has in common with the earlier, and marking in the later from there.
//!
//! [`carry`] tells which blocks of the later log were marked in the earlier core (kept) and which are not of the earlier
//! log (fresh). [`differing`] compares the cores page by page and gives the [`leak_scan::Pages`] that differ. [`retrace`] marks
//! from those blocks: it scans all words of fresh blocks, and those of kept blocks on differing pages alone.
//!
//! The rules of pages and of marking again are those of Boehm, Demers and Shenker (PLDI 1991), who look at the pages
//! written since; here two cores are compared. That blocks allocated meanwhile count as marked is own rule. The
//! contracts don't say that the cores are of one process, nor how much is read.
#![tactic(auto)]

mod carrying;
mod comparing;
mod kept;
mod laws;
mod rereading;
mod retracing;

pub use carrying::carry;
pub use comparing::differing;
pub use kept::Carry;
pub use laws::{absent_are_fresh, same_words_lead_within, worked_cores};
pub use retracing::{Retraced, retrace};
