//! Tests of the crates that make reports and answers and read the command line, crate by crate.
//!
//! They are beside the program, so that those crates are proved once, without their tests. The cases of gate/ show what a
//! run of the program does.

// Comparisons that end a test.
mod comparisons;

// The text of a report.
mod report;

// Names of registers in a chain that holds a block.
mod why;

// What words ask for, in words.
mod asked;

// Words of the command line.
mod arguments;

// An input that is read.
mod input;

// Searches of cores in memory.
mod search;

// Runs over readers whose sizes are told.
mod find;

// Texts of faults, and what their own Display writes.
mod messages;

// What the program says of a failure.
mod program;
