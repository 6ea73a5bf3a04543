//! What more than one crate's tests are made of.

use leak_blocks::{Live, replay};
use leak_mtrace::Log;
use std::alloc::Global;
use std::test::Fail;

/// The live blocks of a log.
pub fn lives(alloc: Global, text: &str) -> Result<Live, Fail> {
    let log = Log::read(alloc, text.as_bytes())?;
    Ok(replay(alloc, &log)?)
}
