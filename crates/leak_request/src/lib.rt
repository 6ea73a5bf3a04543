//! What the program is asked for: from the words of a command line to a request.
//!
//! [`request`] reads the words, which begin with the program's name, by a command line of clap: `leak_find one CORE
//! LOG`, `leak_find two CORE1 LOG1 CORE2 LOG2`, `leak_find why CORE LOG ADDRESS`, `leak_find holders CORE LOG` or
//! `leak_find grow LOG1 LOG2`, with options after the subcommand. It gives a [`Request`], with the paths of the files and how
//! they are searched or asked, or with the text of help or of the version; or it says as a [`UsageFault`] why there is none.
//! [`read_displace`] reads the list of `--displace`, and answers its first fault as a [`DisplaceFault`]. [`push_escaped`] shows text
//! from outside so that it stays in its line.
//!
//! The command line is own rule; its definition is in `specs/CommandLine.antt`, and what clap makes of words is
//! defined by clap's specs. The contracts don't say how clap's texts of help and of refusals read, and nothing here opens
//! a file.
#![tactic(auto)]

mod address;
mod arguments;
mod command_line;
mod displacements;
mod escaping;
mod fault;
mod found_values;
mod laws;
mod options;
mod question;
mod unmatched;

pub use arguments::request;
pub use displacements::read_displace;
pub use escaping::push_escaped;
pub use fault::{AddressArgument, DisplaceFault, UsageFault};
pub use laws::escaped_text_is_shown;
pub use options::{
    CORE_LIMIT, GrowOptions, GrowRequest, HoldersRequest, LOG_LIMIT, Options, Request,
    SearchRequest, WhyRequest,
};
