//! Worked command lines: what the definition of a request makes of words.
//!
//! Each row was made by hand. If words are taken, the law says that the definition gives them this request and no other, and no
//! refusal but want of memory; if they are refused, that it gives them no request, and this refusal alone. No row says what clap's
//! text of a refusal is. The rows have each subcommand, each option alone and many together, the defaults, numbers at both ends
//! of what is allowed, addresses in both cases, and each reason of a refusal.
#![tactic(auto)]

mod lines;

pub use lines::{
    worked_grow_lines, worked_holders_lines, worked_refusals, worked_search_lines, worked_why_lines,
};
