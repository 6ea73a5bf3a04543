//! Cores, notes and logs that are cut short.

use crate::comparisons::same_in;
use crate::samples::{Part, core_of};
use crate::searches::{alone, reports};
use leak_elf::ElfError;
use leak_find::FindError;
use leak_notes::NoteError;
use leak_tests_inputs::examples::{NOTHING, ONE_BLOCK};
use std::alloc::Global;
use std::test::Fail;

/// Why the core and the log give no report.
fn refusal(alloc: Global, core: &[u8], log: &str) -> Option<FindError> {
    alone(alloc, core, log.as_bytes()).err()
}

/// Why the sample core with the parts and the log give no report.
fn refusal_with(alloc: Global, parts: &[Part], log: &str) -> Result<Option<FindError>, Fail> {
    let core = core_of(alloc, parts)?;
    Ok(refusal(alloc, core.as_slice(), log))
}

/// Why the first `len` bytes of the sample are refused as a core.
fn fault_of_first(len: usize) -> ElfError {
    match len {
        0..=63 => ElfError::Short,
        64..=175 => ElfError::TableCut,
        176..=531 => ElfError::Truncated(0),
        _ => ElfError::Truncated(1),
    }
}

#[test]
fn a_core_that_is_cut_short_is_refused(rt: HostRuntime) -> Result<(), Fail> {
    let mut core = core_of(rt.alloc(), &[])?;
    for len in (0..8192).rev() {
        core.truncate(len);
        let wanted = Some(FindError::Core(1, fault_of_first(len)));
        same_in(
            &rt,
            &len,
            refusal(rt.alloc(), core.as_slice(), ONE_BLOCK),
            wanted,
        );
    }
    Ok(())
}

#[test]
fn notes_that_are_cut_short_are_refused(rt: HostRuntime) -> Result<(), Fail> {
    for len in 0..=367 {
        let wanted = match len {
            0 => Some(NoteError::NoThread),
            1..=355 => Some(NoteError::Cut(176)),
            356 => None,
            _ => Some(NoteError::Cut(532)),
        };
        let refused = refusal_with(rt.alloc(), &[Part::Notes(len)], ONE_BLOCK)?;
        same_in(&rt, &len, refused, wanted.map(|e| FindError::Notes(1, e)));
    }
    Ok(())
}

#[test]
fn a_log_that_is_cut_short_is_torn(rt: HostRuntime) -> Result<(), Fail> {
    let core = core_of(rt.alloc(), &[])?;
    let torn = "blocks 0 bytes 0\n\
                undumped 0\n\
                unknown 0 displaced 0 torn 1\n\
                marked 0 bytes 0\n\
                leaked 0 bytes 0\n\
                heads 0\n";
    let mut log = Vec::from_slice(rt.alloc(), ONE_BLOCK.as_bytes())?;
    for len in (0..ONE_BLOCK.len()).rev() {
        log.truncate(len);
        let found = alone(rt.alloc(), core.as_slice(), log.as_slice())?;
        let wanted = if len == 0 { NOTHING } else { torn };
        reports(&rt, &len, &found, wanted);
        same_in(&rt, &len, found.leaked, 0);
    }
    Ok(())
}
