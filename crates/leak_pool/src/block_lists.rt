//! What each live block leads to.
ghost use Rattle.std.specs.Prelude.{[]};
ghost use Rattle.leak_pool.specs.Edges.{AreEdges};
ghost use Rattle.leak_pool.specs.EdgesLaw.{edges_prop};
ghost use Rattle.leak_pool.specs.Lists.{AreBlocks, lists_in};
ghost use Rattle.leak_pool.specs.ListsLaw.{blocks_prop};

use crate::rows::Rows;

/// What each live block leads to: all of a [`Listing`] but what root words lead to.
#[derive(Drop)]
pub struct BlockLists {
    pub(crate) blocks: u32,
    /// How many blocks each row has, except the last.
    pub(crate) size: usize,
    pub(crate) rows: Vec<Rows>,
    ghost listed: { AreEdges (lists_in blocks size rows.items) size rows.items } by { edges_prop _ _ _ },
    ghost inside: { AreBlocks blocks [] (lists_in blocks size rows.items) } by { blocks_prop _ _ _ },
}
