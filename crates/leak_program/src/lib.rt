//! The program without its `main`: from the words of a command line to a report and an exit status.
//!
//! [`start`] is all that `main` calls: it takes the words, writes the report to one writer and the warnings, or why there is no
//! report, to another, and gives the status. [`answer_all`] does so for any words, and [`answer`] without telling a refusal: it
//! does the task that the words make for the files that they name ([`answer_files`]), writes the text of help, or, if no word follows the program's name, searches a
//! sample from memory ([`search_sample`]). A [`Failure`] says why there is no report, and [`message`] how it is told. A [`Screen`]
//! tells a terminal how far a run has come.
//!
//! Files are opened by an [`Opener`]: it gives a file for a path, or a refusal. [`open_all`] opens each of some paths once, in order, up
//! to the first that is refused, and its contract names each opening that it made. The kit promises nothing of what its
//! [`Files`](std::rt::Files) opens, so the opening by it says nothing more. The contracts say that each path of the request was opened once, in order, before
//! any was read, that the files so opened were searched by the options of the words, that only the report of what they held was
//! written, and that the status is that of the report. No contract can say that an opened file is that of its path; runs over files
//! show it.
#![tactic(auto)]

mod answering;
mod failure;
mod files;
mod messages;
mod naming;
mod open_fault;
mod opener;
mod opening;
mod progress;
mod sample;
mod starting;
mod texts;

pub use answering::answer;
pub use failure::Failure;
pub use files::answer_files;
pub use leak_find::{Progress, Silent};
pub use messages::{message, messages_are_lines};
pub use open_fault::{OpenFault, Reason, reason_of};
pub use opener::Opener;
pub use opening::{open_all, sizes_of};
pub use progress::Screen;
pub use sample::search_sample;
pub use starting::{answer_all, start};
pub use texts::{
    push_core, push_displace, push_find, push_log, push_notes, push_read, push_reason, push_usage,
    push_write, texts_are_shown,
};
