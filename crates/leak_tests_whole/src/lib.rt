//! Tests that cross the crates, of what no run of the program shows: claims and rounds by any plan, gates and schedules, readers and
//! writers that fail, limits, and inputs of every length.
//!
//! A sample is named for what it is about, and docs/EXAMPLES.md has its input. The reports of the examples are cases of gate/.
#![tactic(auto)]

// Comparisons that end a test.
#[cfg(test)]
mod comparisons;

// Cores and logs from named parts.
#[cfg(test)]
mod samples;

// Searches and runs in few words.
#[cfg(test)]
mod searches;

// Examples of a hundred blocks, which loops write.
#[cfg(test)]
mod hundreds;

// The table of examples of two cores.
#[cfg(test)]
mod pairs;

// Plans that the same reports are asked for by.
#[cfg(test)]
mod plans;

// What lists of claims hold.
#[cfg(test)]
mod claims;

// Claims of one core, on the caller's thread.
#[cfg(test)]
mod one_core;

// The same by worker threads.
#[cfg(test)]
mod workers;

// Claims of two cores.
#[cfg(test)]
mod two_cores;

// A core with vector registers.
#[cfg(test)]
mod vectors;

// Lists of claims are those of the workers that claimed.
#[cfg(test)]
mod lists;

// Runs that ask what holds a block.
#[cfg(test)]
mod why;

// Schedules that a gate forces on the workers.
#[cfg(test)]
mod schedules;

// Cores, notes and logs that are cut short.
#[cfg(test)]
mod refusals;

// Whole runs over readers and a writer, some of which fail.
#[cfg(test)]
mod devices;

// Whole runs over the readers of two cores.
#[cfg(test)]
mod four_readers;

// Warnings, if a writer fails.
#[cfg(test)]
mod signs;

// Reading an input to its end.
#[cfg(test)]
mod readers;

// A core and its log in one pass.
#[cfg(test)]
mod passing;

// A core that is read on while its last piece is sifted.
#[cfg(test)]
mod reading_ahead;

// Runs that ask who holds the memory.
#[cfg(test)]
mod holding;

// Readers and writers that fail or are interrupted between their bytes.
#[cfg(test)]
mod turns;

// Inputs larger than the samples.
#[cfg(test)]
mod sizes;

// What a refusal prints, if no case of gate/ can have it.
#[cfg(test)]
mod texts;

// Marking without a report.
#[cfg(test)]
mod marking;

// Rounds, by the number of entries in a worker's stack.
#[cfg(test)]
mod stacks;

// Marking by edges, and without them if they have no room.
#[cfg(test)]
mod edges;

// Gates that many workers pass.
#[cfg(test)]
mod gates;
