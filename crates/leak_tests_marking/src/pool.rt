//! Marking by workers, by subject.

mod free_links;
mod gates;
mod leading;
mod leading_by_workers;
mod leading_found;
mod listed_cores;
mod listings;
mod meetings;
mod numbers;
mod samples;
mod starts;
