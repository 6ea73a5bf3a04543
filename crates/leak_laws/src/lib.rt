//! Laws of what the program tells, over the contracts of the calls that tell it. The program does not need them.
//!
//! Each is a function that does nothing: its contract is the law.
//!
//! - **Answers are functions of the files**: [`reports_are_one`], [`signs_are_one`], [`reports_of_holders_are_one`],
//!   [`reports_of_growth_are_one`], and of whole runs [`runs_are_one`], [`other_runs_are_one`]. Which of the shortest chains
//!   is told of a block is open, but not how long it is ([`answers_of_why_are_as_long`]).
//! - **What leaks by other options**: [`reported_stay_reported`], [`earlier_cores_keep_blocks`].
//! - **Lines belong together**, as docs/FORMAT.md says: [`lines_belong_together`], [`check_adds_misfits`],
//!   [`runs_write_reports`], [`holders_belong_together`], [`texts_have_holders`], [`holders_have_lines`],
//!   [`holder_lines_say`], [`outermost_hold_all`], [`parts_have_lines`], [`part_lines_say`],
//!   [`in_lines_add_up`], [`growths_add_up`].
//! - **Bytes tell the lines**: [`reports_read_back`], [`texts_are_of_one_line`], [`growth_reads_back`],
//!   [`holders_read_back`], [`why_reads_back`], [`answers_are_of_lines`], and what is escaped in a message
//!   ([`escaped_texts_read_back`]).
//! - **Worked rows**: [`worked_growths`], [`roots_at_zero`].
//!
//! What the lines of a report say is in `specs/Told.antt`, and how they belong together in `specs/Together.antt`.
#![tactic(auto)]

mod answers;
mod growth;
mod held;
mod leaks;
mod messages;
mod reports;
mod runs;
mod same;

pub use answers::{
    answers_are_of_lines, growth_reads_back, holders_read_back, roots_at_zero, why_reads_back,
};
pub use growth::{growths_add_up, reports_of_growth_are_one, worked_growths};
pub use held::{
    answers_of_why_are_as_long, holder_lines_say, holders_belong_together, holders_have_lines,
    in_lines_add_up, outermost_hold_all, part_lines_say, parts_have_lines,
    reports_of_holders_are_one, texts_have_holders,
};
pub use leaks::{earlier_cores_keep_blocks, reported_stay_reported};
pub use messages::escaped_texts_read_back;
pub use reports::{
    check_adds_misfits, lines_belong_together, reports_read_back, texts_are_of_one_line,
};
pub use runs::{other_runs_are_one, runs_are_one, runs_write_reports};
pub use same::{reports_are_one, signs_are_one};
