//! What grew between two logs of one process.
//!
//! [`text`] makes the report of what two logs come to: for each text of a caller, how many blocks and bytes were live in the first
//! log and are in the second, and how many of the latter are new. The rows are sorted by growth in bytes, the greatest first. A text
//! whose blocks are the same ones has no row. The lines are own rule, stated in `specs/Report.antt`.
//!
//! [`find_growth`] does so from the bytes of both logs, or gives their first fault.
#![tactic(auto)]

mod growing;
mod growth;
mod lines;
mod report;
mod rows;
mod summing;

pub use growth::{Grown, find_growth};
pub use report::{Logs, text};
pub use rows::Row;
pub use summing::Sizes;
