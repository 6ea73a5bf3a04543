//! Tests of the crates that read a core and a log, look blocks up, find root words, scan words and hold marks, crate by crate.
//!
//! They are in a crate of their own, so that those crates are proved once, without their tests.
#![tactic(auto)]

// Comparisons that end a test.
#[cfg(test)]
mod comparisons;

// Cores that differ from the sample in a named way.
#[cfg(test)]
mod cores;

// Lists of words of which most are 0.
#[cfg(test)]
mod sparse;

// Cores: headers, segments and words.
#[cfg(test)]
mod elf;

// Threads and their registers.
#[cfg(test)]
mod notes;

// Vector registers.
#[cfg(test)]
mod note_vectors;

// State entries.
#[cfg(test)]
mod note_states;

// Lines of a log.
#[cfg(test)]
mod mtrace;

// Live blocks of a log.
#[cfg(test)]
mod blocks;

// Live blocks of logs whose allocations ascend, in whole or in runs.
#[cfg(test)]
mod blocks_runs;

// The addresses of small allocations, as ranges.
#[cfg(test)]
mod blocks_small;

// What more than one module is made of.
#[cfg(test)]
mod samples;

// Blocks that a word leads to.
#[cfg(test)]
mod index;

// Lookups if blocks start at multiples of 16, and if they don't.
#[cfg(test)]
mod index_ranks;

// Words that lead to a block if ends are left out.
#[cfg(test)]
mod index_ends;

// Blocks that fit the heap of a core.
#[cfg(test)]
mod chunks;

// Misfits that threads count.
#[cfg(test)]
mod chunk_counts;

// Links to free chunks.
#[cfg(test)]
mod chunk_links;

// Root words.
#[cfg(test)]
mod roots;

// Pieces of the root words.
#[cfg(test)]
mod roots_pieces;

// Root words outside freed memory.
#[cfg(test)]
mod roots_freed;

// Root words in the ranges that a test keeps.
#[cfg(test)]
mod roots_where;

// What malloc gives blocks past their size, and root words without that.
#[cfg(test)]
mod slack;

// Dead stack, and root words without it.
#[cfg(test)]
mod stacks;

// Blocks that the words of a range lead to.
#[cfg(test)]
mod scan;

// Root words with links to free chunks, and without them.
#[cfg(test)]
mod scan_roots;

// How many words of a core a scan reads.
#[cfg(test)]
mod scan_counted;

// Scans of a core that keeps few words behind its head.
#[cfg(test)]
mod scan_sifted;

// Mark bits and lists of claims.
#[cfg(test)]
mod marks;

// Worked values of the sample core, by a law: they are computed as it is proved.
mod elf_values;

pub use elf_values::sample_values;
