//! The report of a leak search.
//!
//! [`text`] makes the whole report from the live blocks of a log, the set of those that are marked and the numbers of
//! a [`Head`]; [`CallerTexts`] says where the texts of their callers stand. [`Totals`] sums the leaked blocks up by the text
//! of their caller. The lines and their order are own rule, stated in `specs/Report.antt`; `leak_blocks` says what a live
//! block and its caller are, and a [`Leak`] is one that leaked. [`warnings`] makes the
//! lines that tell what is odd about the inputs, from their [`Signs`].
//!
//! [`number_texts`] numbers the texts of the callers of live blocks, and [`number`] any texts: each once, in the order of
//! their bytes. So equal numbers are equal texts, and numbers compare as their texts do. [`push_texts`] lists the texts of
//! blocks, for a caller that numbers those of two logs together. The contracts don't say how long that takes.
//!
//! The contracts say nothing of which blocks are marked.
#![tactic(auto)]

mod by_text;
mod caller_texts;
mod grouping;
mod head;
mod laws;
mod leaked;
mod lines;
mod listing;
mod meeting;
mod misfits;
mod numbering;
mod places;
mod report;
mod signs;
mod tail;
mod texts;
mod totals;
mod warning;

pub use caller_texts::{CallerTexts, Places};
pub use head::{Head, Two};
pub use laws::{
    live_have_callers, numbers_tell, reports_go_by_texts, rows_are_sums, worked_places,
    worked_reports, worked_texts, worked_warnings,
};
pub use leaked::Leak;
pub use lines::{caller_text, push_dead, push_freed, push_head, push_line, push_sizes};
pub use listing::{number_texts, push_texts};
pub use numbering::number;
pub use report::text;
pub use signs::Signs;
pub use texts::Texts;
pub use totals::{CallerRow, Totals, count_clear, marked_sizes};
pub use warning::warnings;
