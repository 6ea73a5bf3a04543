//! A core and its log are read in one pass.

use crate::comparisons::{same, same_in};
use crate::samples::{core_of, set};
use leak_elf::core_k;
use leak_find::{ReadFault, Skip};
use leak_passing::{
    Limits, Numbers, Passed, PassedByTexts, PassingFault, read_passing, read_passing_by_texts,
};
use leak_team::Team;
use leak_tests_inputs::examples::ONE_BLOCK;
use leak_tests_inputs::fakes::Steps;
use std::alloc::Global;
use std::process::Abort;
use std::test::Fail;
use std::thread::Threads;

/// How many bytes core and log have.
const ENOUGH: Limits = Limits {
    core: 8192,
    log: 36,
    core_size: 0,
    log_size: 0,
};

/// A log of two blocks whose callers' texts differ.
const TWO_TEXTS: &str =
    "@ ./a.out:[0x401136] + 0x10100 0x20\n@ ./a.out:[0x401140] + 0x10200 0x20\n";

/// Of the sample core, whose head has 536 bytes, a word that leads to the block and one that leads nowhere.
const WORDS: [(u64, u64); 2] = [(0x10000, 0x10100), (0x10008, 0x20000)];

/// Reads a core, so many bytes at a time, and a log, by the team.
fn pass_core<T: Threads + Sync>(
    team: &Team<'_, T>,
    core: &[u8],
    step: usize,
    log: &str,
    limits: Limits,
    skip: Skip,
) -> Result<Passed, PassingFault> {
    let mut readers = [Steps::of(core, step), Steps::of(log.as_bytes(), usize::MAX)];
    read_passing(team, &mut readers, limits, skip)
}

/// Reads the sample core with the words, so many bytes at a time, and the log of the one block, by this many workers.
fn pass<T: AllocGlobal + Threads + Sync>(
    rt: &T,
    workers: u32,
    step: usize,
    limits: Limits,
    skip: Skip,
) -> Result<Result<Passed, PassingFault>, Fail> {
    let alloc = rt.alloc();
    let core = core_k(alloc, &WORDS)?;
    let team = Team { rt, alloc, workers };
    Ok(pass_core(&team, core.as_slice(), step, ONE_BLOCK, limits, skip))
}

/// The numbers of few texts, or none if there are many.
fn few(numbers: &Numbers) -> &[u8] {
    match numbers {
        Numbers::Few(few) => few.as_slice(),
        Numbers::Many(_) => &[],
    }
}

/// Reads the same core and this log, and keeps texts in its place.
fn pass_by_texts<T: AllocGlobal + Threads + Sync>(
    rt: &T,
    workers: u32,
    step: usize,
    log: &str,
    limits: Limits,
) -> Result<Result<PassedByTexts, PassingFault>, Fail> {
    let alloc = rt.alloc();
    let core = core_k(alloc, &WORDS)?;
    let team = Team { rt, alloc, workers };
    let log = log.as_bytes();
    let mut readers = [Steps::of(core.as_slice(), step), Steps::of(log, usize::MAX)];
    Ok(read_passing_by_texts(&team, &mut readers, limits, Skip::usual()))
}

#[test]
fn the_head_and_few_words_are_kept(rt: HostRuntime) -> Result<(), Fail> {
    for workers in [1, 2, 4] {
        for step in [1, 7, 536, 8192] {
            let passed = pass(&rt, workers, step, ENOUGH, Skip::usual())??;
            same(&rt, passed.held.len(), 536);
            same(&rt, passed.len, 7656);
            same(&rt, passed.words.len(), 957);
            same(&rt, passed.words.kept(), 1);
            same(&rt, passed.log.as_slice(), ONE_BLOCK.as_bytes());
        }
    }
    Ok(())
}

#[test]
fn the_text_of_the_caller_is_kept_in_place_of_the_log(rt: HostRuntime) -> Result<(), Fail> {
    for (workers, step) in [(1, 1), (2, 7), (4, 8192)] {
        let passed = pass_by_texts(&rt, workers, step, ONE_BLOCK, ENOUGH)??;
        same(&rt, passed.held.len(), 536);
        same(&rt, passed.len, 7656);
        same(&rt, passed.words.kept(), 1);
        same(
            &rt,
            passed.texts.bytes.as_slice(),
            "./a.out:[0x401136]".as_bytes(),
        );
        same(&rt, passed.texts.places.first().copied(), Some((0, 18)));
        same(&rt, few(&passed.texts.numbers), &[0u8][..]);
    }
    Ok(())
}

#[test]
fn each_block_has_the_number_of_its_text(rt: HostRuntime) -> Result<(), Fail> {
    let limits = Limits { log: 72, ..ENOUGH };
    let passed = pass_by_texts(&rt, 1, 100, TWO_TEXTS, limits)??;
    same(&rt, passed.texts.places.len(), 2);
    same(&rt, few(&passed.texts.numbers), &[0u8, 1u8][..]);
    Ok(())
}

#[test]
fn the_core_is_held_where_dead_stack_is_left_out(rt: HostRuntime) -> Result<(), Fail> {
    let skip = Skip {
        dead: true,
        ..Skip::usual()
    };
    let passed = pass(&rt, 1, 1000, ENOUGH, skip)??;
    same(&rt, passed.held.len(), 8192);
    same(&rt, passed.len, 0);
    Ok(())
}

#[test]
fn the_input_that_is_too_long_is_told(rt: HostRuntime) -> Result<(), Fail> {
    let short_core = Limits {
        core: 8191,
        ..ENOUGH
    };
    let short_log = Limits { log: 35, ..ENOUGH };
    let too_long = ReadFault::TooLong;
    let cases = [
        (short_core, PassingFault::Core(too_long)),
        (short_log, PassingFault::Log(too_long)),
    ];
    for (limits, fault) in cases {
        let passed = pass(&rt, 1, 100, limits, Skip::usual())?;
        same(&rt, passed.err(), Some(fault));
        let by_texts = pass_by_texts(&rt, 1, 100, ONE_BLOCK, limits)?;
        same(&rt, by_texts.err(), Some(fault));
    }
    Ok(())
}

/// How many bytes the segment of the wide core has. By two to four workers it is read in two or three pieces, each long
/// enough for two threads.
const WIDE: u64 = 0x26_0000;

/// How many words are behind the head of the wide core, of which the first 445 are before the segment.
const WIDE_WORDS: usize = 311_741;

/// How many of these are kept.
const WIDE_KEPT: usize = 116;

/// A word that leads nowhere. It is kept where a block's size word is.
const SIZE_WORD: u64 = 0x31;

/// The address of a word of the wide core, by its place behind the head.
fn address_of(place: usize) -> u64 {
    (place as u64).wrapping_mul(8).wrapping_add(0xf218)
}

/// A word that leads to the first block, to another byte for each of 32 places.
fn word_at(place: usize) -> u64 {
    address_of(16_384 + 5).wrapping_add(place as u64 % 32)
}

/// Appends rows of words that lead to a block, and of one before and after them that leads nowhere.
fn push_rows(rows: &mut Vec<(usize, u64)>, first: usize, last: usize) -> Result<(), Fail> {
    rows.push((first.saturating_sub(1), 0))?;
    for place in first..=last {
        rows.push((place, word_at(place)))?;
    }
    rows.push((last.saturating_add(1), 0))?;
    Ok(())
}

/// Of the wide core some places, in words behind the head, and what is kept of each. Words that lead to a block are the
/// first and the last of the segment, and some around each multiple of 131,072 bytes: of those behind the head, and of
/// those of the file, which has 67 words before. The next block's size word is kept too.
fn wide_rows(alloc: Global) -> Result<Vec<(usize, u64)>, Fail> {
    let mut rows = Vec::new(alloc);
    rows.push((445, word_at(445)))?;
    for number in 1..=19usize {
        let multiple = 16_384 * number;
        push_rows(&mut rows, multiple - 68, multiple - 67)?;
        push_rows(&mut rows, multiple - 1, multiple + 1)?;
        rows.push((multiple + 4, SIZE_WORD))?;
        rows.push((multiple + 5, 0))?;
    }
    rows.push((WIDE_WORDS - 1, word_at(WIDE_WORDS - 1)))?;
    Ok(rows)
}

/// A log with a block after each multiple.
fn wide_log(alloc: Global) -> Result<String, Fail> {
    let mut log = String::new(alloc);
    for number in 1..=19usize {
        let start = address_of(16_384 * number + 5);
        writeln!(log, "+ 0x{start:x} 0x20")?;
    }
    Ok(log)
}

/// The sample core with a wide segment that has the words of the rows. Those that aren't kept are size words.
fn wide_core(alloc: Global, rows: &[(usize, u64)]) -> Result<Vec<u8>, Fail> {
    let mut core = core_of(alloc, &[])?;
    set(&mut core, 152, &WIDE.to_le_bytes());
    set(&mut core, 160, &WIDE.to_le_bytes());
    for (place, kept) in rows {
        let word = if *kept == 0 { SIZE_WORD } else { *kept };
        core.resize(place.saturating_mul(8).saturating_add(536), 0)?;
        core.extend_from_slice(&word.to_le_bytes())?;
    }
    Ok(core)
}

/// The wide core and its log.
#[derive(Drop)]
pub(crate) struct Wide {
    pub(crate) rows: Vec<(usize, u64)>,
    pub(crate) core: Vec<u8>,
    pub(crate) log: String,
}

impl Wide {
    pub(crate) fn new(alloc: Global) -> Result<Wide, Fail> {
        let rows = wide_rows(alloc)?;
        let core = wide_core(alloc, rows.as_slice())?;
        let log = wide_log(alloc)?;
        Ok(Wide { rows, core, log })
    }

    /// Ends the test if so many workers, by reads of so many bytes, keep other words than the rows say.
    fn is_kept<T: Abort + AllocGlobal + Threads + Sync>(
        &self,
        rt: &T,
        workers: u32,
        step: usize,
    ) -> Result<(), Fail> {
        let alloc = rt.alloc();
        let limits = Limits {
            core: self.core.len() as u64,
            log: self.log.len() as u64,
            ..ENOUGH
        };
        let team = Team { rt, alloc, workers };
        let (core, log) = (self.core.as_slice(), self.log.as_str());
        let passed = pass_core(&team, core, step, log, limits, Skip::usual())?;
        let case = (workers, step);
        same_in(rt, &case, passed.words.len(), WIDE_WORDS);
        same_in(rt, &case, passed.words.kept(), WIDE_KEPT);
        for (place, kept) in &self.rows {
            same_in(rt, &(case, *place), passed.words.get(*place), Some(*kept));
        }
        Ok(())
    }
}

#[test]
fn any_number_of_workers_keeps_the_same_words(rt: HostRuntime) -> Result<(), Fail> {
    let wide = Wide::new(rt.alloc())?;
    for workers in [1, 2, 3, 4, 7, 64] {
        for step in [300_001, usize::MAX] {
            wide.is_kept(&rt, workers, step)?;
        }
    }
    Ok(())
}

#[test]
fn words_that_reads_cut_are_kept(rt: HostRuntime) -> Result<(), Fail> {
    let wide = Wide::new(rt.alloc())?;
    wide.is_kept(&rt, 4, 3)?;
    wide.is_kept(&rt, 4, 65_535)
}
