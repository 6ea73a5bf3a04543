//! Cores, by subject.

// Facts of an accepted core.
mod facts;

// Refusals of the file header.
mod file_header;

// The number of program headers in section header 0.
mod extended;

// Refusals of program headers, and headers that are skipped.
mod program_headers;

// Segments, notes and words of an accepted core.
mod words;

// Cores of many segments.
mod many;

// A core of which the head alone is held.
pub(crate) mod passed;

// What a refusal prints.
mod texts;
