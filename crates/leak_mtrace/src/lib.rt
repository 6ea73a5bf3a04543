//! Reads an allocation log as glibc's mtrace writes it.
//!
//! The program goes by a [`Reader`]: [`Reader::next_line`] gives the lines of a log one after another, each a [`Line`] that
//! [`parse_line`] reads, or the number of the first that it refuses. It keeps none. [`Log::read`], which keeps all lines in a
//! [`Log`], is for libraries and tests.
//!
//! Only lines as glibc's `malloc/mtrace-impl.c` prints them are accepted: skipping a line could turn a block that was given
//! back into a leak. Of the place of a call only its end is looked for, since the names of files and functions may hold any
//! byte but a line feed; where it ends is our own rule.
//!
//! The contracts don't say that there is enough memory, nor that a log is complete: a log that wasn't flushed, or to
//! which two processes wrote, can lack lines and still be read.
#![tactic(auto)]

mod call;
mod call_place;
mod error;
mod laws;
mod line;
mod log;
mod number;
mod parsing;
mod reader;

pub use error::LogError;
pub use laws::{
    callers_hold_their_places, first_faults_are_one, lines_are_one, logs_are_one, logs_continue,
    logs_have_no_fault, logs_have_their_callers, logs_join, places_are_one, refused_lines,
    worked_lines, worked_logs,
};
pub use line::{Kind, Line};
pub use log::Log;
pub use parsing::parse_line;
pub use reader::Reader;
