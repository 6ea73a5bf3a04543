//! The pieces of a core.

ghost use Rattle.std.specs.Prelude.{◌≡◌, ◌*◌, min, max};
ghost use Rattle.leak_alike.specs.SiftedCores.{AreBytes};

/// How many bytes of a piece are for each worker: 512 KiB. Own rule: they fit a processor's second cache, and take some
/// times as long as the start of a thread.
const PART: usize = 524_288;

/// How many bytes a piece has at most, since all of it is held: 8 MiB.
const MOST_PIECE: usize = 8_388_608;

/// How many bytes of a core are read at a time, if so many workers sift them.
pub(crate) fn piece_size(count: u32) -> usize
    ensures { result ≡ min (max 1 count * PART) MOST_PIECE }
{
    (count.max(1) as usize * PART).min(MOST_PIECE)
}

/// A law, for proofs: each number in a slice of bytes is below 256.
pub(crate) fn are_bytes(bytes: &[u8])
    ensures { AreBytes bytes.now }
{
    let _bytes = bytes;
}
