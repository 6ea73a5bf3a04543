//! Reports, by subject.

mod devices;
mod leaked;
mod odd;
mod reports;
mod samples;
