//! What a line of the log says.

/// What a line reports, by its sign.
#[derive(Clone, Copy, Debug, PartialEq, Eq)]
pub enum Kind {
    /// `+`: a block was allocated.
    Alloc,
    /// `-`: a block was given back.
    Free,
    /// `<`: a block was given up by a `realloc` that moves or grows it.
    MoveOut,
    /// `>`: the block that such a `realloc` returned.
    MoveIn,
    /// `!`: a `realloc` failed, and its block stays.
    Failed,
    /// Nothing about a block: an empty line, or one that begins with `=`.
    Remark,
}

/// What one line of the log says.
#[derive(Clone, Copy, Debug, PartialEq, Eq)]
pub struct Line {
    pub kind: Kind,
    /// The address of the block's first byte, 0 for `(nil)` and in a remark.
    pub addr: u64,
    /// The size of the block in bytes, 0 if the line has none.
    pub size: u64,
    /// The place of the call, as a range of bytes with its end excluded: of the line if one line was read,
    /// of the whole log in a [`Log`](crate::Log). `(0, 0)` if the line names no place.
    pub caller: (usize, usize),
}
