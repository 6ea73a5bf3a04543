//! What a worker claims in a round.
ghost use Rattle.std.specs.Prelude.{◌≡◌, ◌≤◌, ◌-◌, ◌++◌, IfOk, length, take, drop, vec_capacity};

use std::alloc::AllocError;

/// The blocks that a worker claimed in a round.
#[derive(Drop)]
pub(crate) struct Hand {
    /// All of them, in the order of the claims.
    pub(crate) list: Vec<u32>,
    /// Those of them that it scans itself in the round, from the last on, several at once.
    pub(crate) stack: Vec<u32>,
    /// Those of them that wait for the next round.
    pub(crate) left: Vec<u32>,
}

/// Puts claimed blocks on the stack while it has fewer than `limit` entries, and leaves the others. To put a block on the
/// stack allocates nothing.
pub(crate) fn put_away(
    blocks: &[u32],
    limit: usize,
    stack: &mut Vec<u32>,
    left: &mut Vec<u32>,
) -> Result<(), AllocError>
    requires few { length stack.old.items ≤ limit }
    requires room { limit ≤ vec_capacity stack.old }
    ensures room { vec_capacity stack.new ≡ vec_capacity stack.old }
    ensures stack { stack.new.items
        ≡ stack.old.items ++ take (limit - length stack.old.items) blocks.now }
    ensures left { IfOk result (λ _.
        left.new.items ≡ left.old.items ++ drop (limit - length stack.old.items) blocks.now) }
{
    let room = (limit - stack.len()).min(blocks.len());
    let (fitting, others) = blocks.split_at(room);
    for block in fitting {
        stack.push_reserved(*block);
    }
    left.extend_from_slice(others)
}
