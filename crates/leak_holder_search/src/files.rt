//! What is asked.

/// A core and its log, and maybe an earlier log of the same process.
#[derive(Clone, Copy)]
pub struct Files<'a> {
    /// The bytes of an ELF64 core of x86-64 Linux.
    pub core: &'a [u8],
    /// The bytes of a log of the same process, in mtrace(3)'s format.
    pub log: &'a [u8],
    /// The log as it was earlier: its complete lines begin the log. Only blocks of later lines are counted then.
    pub since: Option<&'a [u8]>,
}
