//! Where the number of a text is kept that was met lately.
ghost use Rattle.std.specs.Prelude.{◌<◌};

use crate::key::tail;

/// By which of the kept numbers a text is looked for: by the highest bits of its tail times the golden ratio, since the
/// tails of addresses differ in any of their bits (Knuth, The Art of Computer Programming, volume 3, 6.4).
pub(crate) fn slot_of(text: &[u8]) -> usize
    ensures { result < 256 }
{
    (tail(text).wrapping_mul(0x9e37_79b9_7f4a_7c15) >> 56) as usize
}
