//! Size words of chunks (glibc's malloc, `struct malloc_chunk`).
ghost use Rattle.std.specs.Prelude.{◌≡◌, ◌≤◌, ◌^◌, MatchOption};
ghost use Rattle.leak_chunks.specs.Fit.{is_previous_in_use, is_mapped, chunk_size, is_mapping_for, is_heap_chunk_for, least_chunk};

/// PREV_INUSE, a flag of a size word: the chunk before this one is in use.
const PREV_INUSE: u64 = 0b001;
/// IS_MMAPPED: the chunk is a mapping of its own.
const IS_MMAPPED: u64 = 0b010;
/// The bits of a size word that are flags.
const FLAGS: u64 = 0b111;

/// The word before a block, in which malloc keeps the size of the block's chunk.
#[derive(Clone, Copy)]
pub(crate) struct SizeWord(pub(crate) u64);

impl SizeWord {
    /// Whether the chunk before this one is in use.
    pub(crate) fn is_previous_in_use(self) -> bool
        ensures { result ≡ is_previous_in_use self.0 }
    {
        self.0 & PREV_INUSE != 0
    }

    /// Whether the chunk is a mapping of its own.
    pub(crate) fn is_mapped(self) -> bool
        ensures { result ≡ is_mapped self.0 }
    {
        self.0 & IS_MMAPPED != 0
    }

    /// The size of the chunk, in bytes.
    pub(crate) fn chunk_size(self) -> u64
        ensures { result ≡ chunk_size self.0 }
    {
        self.0 & !FLAGS
    }
}

/// Whether malloc takes a mapping of `chunk` bytes for a block of `size` bytes.
pub(crate) fn is_mapping_for(size: u64, chunk: u64) -> bool
    ensures { result ≡ is_mapping_for size chunk }
{
    chunk >= size && (16..4128).contains(&(chunk - size))
}

/// Whether malloc takes a chunk of `chunk` bytes in a heap for a block of `size` bytes.
pub(crate) fn is_heap_chunk_for(size: u64, chunk: u64) -> bool
    ensures { result ≡ is_heap_chunk_for size chunk }
{
    let Some(least) = least_chunk(size) else {
        return false;
    };
    matches!(chunk.checked_sub(least), Some(0 | 16 | 32))
}

/// The size of the least chunk of a heap for a block of the size, in bytes.
///
/// A block near 2^64 bytes has none, since that size would not fit a word.
pub(crate) fn least_chunk(size: u64) -> Option<u64>
    ensures { MatchOption result (2 ^ 64 ≤ least_chunk size) (λ least. least ≡ least_chunk size) }
{
    let Some(padded) = size.checked_add(23) else {
        return None;
    };
    let least = (padded / 16 * 16).max(32);
    Some(least)
}
