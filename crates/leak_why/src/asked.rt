//! The block that an address lies in.
ghost use Rattle.std.specs.Prelude.{◌≡◌, ℕ, ◌<◌, length, IfSome, IfNone};
ghost use Rattle.leak_why.specs.Asked.{IsAsked, AreNotAsked};

use leak_blocks::Live;

/// The number of the live block that has a byte at the address, or that begins there.
pub fn block_at(live: &Live, address: u64) -> Option<usize>
    ensures some { IfSome result (IsAsked live.now.blocks address) }
    ensures none { IfNone result (AreNotAsked live.now.blocks address (length live.now.blocks)) }
{
    for (i, block) in live.blocks().iter().enumerate() {
        let inside = block.start <= address && address - block.start < block.size;
        if inside || block.start == address {
            return Some(i);
        }
    }
    None
}
