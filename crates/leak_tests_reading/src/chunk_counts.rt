//! Misfits that threads count.

use crate::comparisons::same_in;
use crate::cores::made;
use crate::samples::lives;
use leak_chunks::{count_misfits, count_misfits_by};
use leak_elf::Image;
use leak_team::Team;
use std::alloc::Global;
use std::test::Fail;

/// How many chunks of 32 bytes the cores have, each with a block of 24 bytes.
const CHUNKS: u64 = 50_000;

/// Where the sample's segment begins, in the file and in memory.
const FILE: usize = 4096;

const MEMORY: u64 = 0x10000;

/// A core of chunks, of which these have the size word of a chunk of 128 bytes.
fn core_of_chunks(alloc: Global, misfits: &[u64]) -> Result<Vec<u8>, Fail> {
    let bytes = 32 * (CHUNKS + 1);
    let mut core = made(alloc, FILE, FILE, &[(152, bytes), (160, bytes)], &[])?;
    for i in 0..CHUNKS + 1 {
        let size_word = if misfits.contains(&i) { 0x81 } else { 0x21u64 };
        for word in [0, size_word, 0, 0] {
            core.extend_from_slice(&word.to_le_bytes())?;
        }
    }
    Ok(core)
}

/// The log of their blocks.
fn log_of_chunks(alloc: Global) -> Result<String, Fail> {
    let mut log = String::new(alloc);
    for i in 0..CHUNKS {
        let start = MEMORY + 16 + 32 * i;
        writeln!(log, "+ 0x{start:x} 0x18")?;
    }
    Ok(log)
}

#[test]
fn any_number_of_workers_counts_all_misfits(rt: HostRuntime) -> Result<(), Fail> {
    let alloc = rt.alloc();
    let log = log_of_chunks(alloc)?;
    let live = lives(alloc, log.as_str())?;
    let cases: [&[u64]; 6] = [
        &[],
        &[0],
        // the last block alone
        &[49_999],
        // of every share of 6 or fewer
        &[0, 9_000, 18_000, 26_000, 34_000, 49_000],
        // beside the cuts into halves and quarters
        &[12_499, 12_500, 24_999, 25_000, 37_499, 37_500],
        // the last share of 4 alone
        &[37_500, 40_000, 45_000],
    ];
    for misfits in cases {
        let core = core_of_chunks(alloc, misfits)?;
        let image = Image::read(alloc, core.as_slice())?;
        let wanted = misfits.len() as u64;
        same_in(&rt, &wanted, count_misfits(&image, &live), wanted);
        for workers in [0, 1, 2, 3, 4, 64] {
            let rt = &rt;
            let found = count_misfits_by(&Team { rt, alloc, workers }, &image, &live);
            same_in(rt, &(wanted, workers), found, wanted);
        }
    }
    Ok(())
}

#[test]
fn few_blocks_are_counted_as_well(rt: HostRuntime) -> Result<(), Fail> {
    let alloc = rt.alloc();
    let core = core_of_chunks(alloc, &[1])?;
    let image = Image::read(alloc, core.as_slice())?;
    let cases = [
        ("", 0),
        ("+ 0x10010 0x18\n", 0),
        ("+ 0x10010 0x18\n+ 0x10030 0x18\n", 1),
        ("+ 0x10030 0x18\n+ 0x10058 0x8\n", 2),
    ];
    for (log, wanted) in cases {
        let live = lives(alloc, log)?;
        for workers in [1, 64] {
            let rt = &rt;
            let found = count_misfits_by(&Team { rt, alloc, workers }, &image, &live);
            same_in(rt, &(log, workers), found, wanted);
        }
    }
    Ok(())
}
