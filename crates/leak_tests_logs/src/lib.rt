//! Tests of inputs that are read piece by piece, and of logs that are replayed while they are read.
#![tactic(auto)]

// Comparisons that end a test.
#[cfg(test)]
mod comparisons;

// The numbers of texts, as a list.
#[cfg(test)]
mod numbers;

// Reading an input piece by piece.
#[cfg(test)]
mod pieces;

// A log that is replayed while it is read.
#[cfg(test)]
mod replaying;

// The lines of a log are read side by side.
#[cfg(test)]
mod sharing;
