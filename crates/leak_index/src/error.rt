//! Why displacements are no reading.
use thiserror::Error;

/// Why a list of displacements is refused, in the order in which the reasons are tried.
#[derive(Clone, Copy, Debug, PartialEq, Eq, Error)]
pub enum ReadingError {
    /// The list has more than 16 values.
    #[error("more than 16 values")]
    TooMany,
    /// The value with the number is the first over 65,535. Values count from 0.
    #[error("item {0} is over 65535")]
    TooLarge(usize),
}
