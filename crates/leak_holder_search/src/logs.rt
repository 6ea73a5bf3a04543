//! What is known of allocations.

/// A log, and maybe an earlier log of the same process.
#[derive(Clone, Copy)]
pub struct Logs<'a> {
    /// The bytes of the log, in mtrace(3)'s format.
    pub log: &'a [u8],
    /// The log as it was earlier: its complete lines begin the log. Only blocks of later lines are counted then.
    pub since: Option<&'a [u8]>,
}
