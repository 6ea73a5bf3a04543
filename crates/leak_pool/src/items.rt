//! What the workers of a round scan.
ghost use Rattle.std.specs.Prelude.{◌≡◌, ◌↔◌, ◌<◌, ◌≤◌, ◌+◌, IsTrue, IfSome, length, map, take, drop, slice_index_or};
ghost use Rattle.leak_pool.specs.Items.{items_in, AreMany};
ghost use Rattle.leak_pool.specs.declared.target_source.Item.{Item};
ghost use Rattle.leak_pool.specs.declared.target_source.Item.TheVariants.{Block};

use crate::target_source::Item;

/// From this many blocks on a round is worth the threads that it starts. Own rule: four workers scan fewer in less time
/// than their threads take to start.
const MANY: usize = 1000;

/// The items of a round, which have no list of their own: a number of parts of the roots, or blocks.
#[derive(Clone, Copy)]
pub(crate) enum Items<'a> {
    Roots(usize),
    Blocks(&'a [u32]),
}

impl<'a> Items<'a> {
    /// How many items there are.
    pub(crate) fn len(&self) -> usize
        ensures { result ≡ length (items_in self.now) }
    {
        match self {
            Items::Roots(parts) => *parts,
            Items::Blocks(blocks) => blocks.len(),
        }
    }

    /// The item with the number.
    pub(crate) fn at(&self, k: usize) -> Item
        requires { k < length (items_in self.now) }
        ensures { (d : Item) → result ≡ slice_index_or (items_in self.now) k d }
    {
        match self {
            Items::Roots(_) => Item::Root(k),
            Items::Blocks(blocks) => block_at(blocks, k),
        }
    }

    /// If the items are blocks, the next of them from the number `from` on and before `end`: `most` of them, or all if they are
    /// fewer.
    pub(crate) fn next_blocks(&self, from: usize, end: usize, most: usize) -> Option<&'a [u32]>
        requires some { from < end }
        requires within { end ≤ length (items_in self.now) }
        requires most { 0 < most }
        ensures some { IfSome result (λ blocks. 0 < length blocks.now) }
        ensures within { IfSome result (λ blocks. from + length blocks.now ≤ end) }
        ensures are { IfSome result (λ blocks.
            map Block blocks.now ≡ take (length blocks.now) (drop from (items_in self.now))) }
    {
        match self {
            Items::Roots(_) => None,
            Items::Blocks(blocks) => Some(first_of(blocks, from, (end - from).min(most))),
        }
    }

    /// Whether threads are worth their start. The roots are scanned once, and a part of them can have thousands of words.
    pub(crate) fn are_many(&self) -> bool
        ensures { IsTrue result ↔ AreMany (items_in self.now) }
    {
        match self {
            Items::Roots(parts) => *parts > 0,
            Items::Blocks(blocks) => blocks.len() >= MANY,
        }
    }
}

/// The block with the number among those of a round.
fn block_at(blocks: &[u32], k: usize) -> Item
    requires { k < length blocks.now }
    ensures { (d : Item) → result ≡ slice_index_or (map Block blocks.now) k d }
{
    Item::Block(blocks[k])
}

/// So many of a round's blocks, from the number `from` on.
fn first_of<'a>(blocks: &'a [u32], from: usize, count: usize) -> &'a [u32]
    requires { from + count ≤ length blocks.now }
    ensures len { length result.now ≡ count }
    ensures are { map Block result.now ≡ take count (drop from (map Block blocks.now)) }
{
    &blocks[from..from + count]
}
