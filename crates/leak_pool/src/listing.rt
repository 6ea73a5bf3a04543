//! What each live block leads to, and the blocks that root words lead to, as a value that needs no words of the core.
ghost use Rattle.std.specs.Prelude.{◌≡◌};
ghost use Rattle.leak_pool.specs.Edges.{AreEdges};
ghost use Rattle.leak_pool.specs.EdgesLaw.{edges_prop};
ghost use Rattle.leak_pool.specs.Lists.{AreBlocks, lists_in};
ghost use Rattle.leak_pool.specs.ListsLaw.{blocks_prop};

use crate::claiming::{claim_listed, claim_lists};
use crate::edges::{listed_targets, lists_of};
use crate::rows::Rows;
use crate::target_source::{Item, TargetSource};
use leak_marks::{MarkSeat, Marks};
use leak_without::HasEdges;
use std::alloc::{AllocError, Global};

/// What each live block leads to, and the blocks that root words lead to. Marking and heads go over it alone, so that the words
/// of which it was made can be let go. A target takes four bytes, and a block four more.
#[derive(Drop)]
pub struct Listing {
    /// The blocks that root words lead to.
    pub(crate) first: Vec<u32>,
    pub(crate) blocks: u32,
    /// How many blocks each row has, except the last.
    pub(crate) size: usize,
    pub(crate) rows: Vec<Rows>,
    ghost listed: { AreEdges (lists_in blocks size rows.items) size rows.items } by { edges_prop _ _ _ },
    ghost inside: { AreBlocks blocks first.items (lists_in blocks size rows.items) } by { blocks_prop _ _ _ },
}

impl Listing {
    /// The blocks that root words lead to.
    pub fn first(&self) -> &[u32]
        ensures { result.now ≡ self.now.first.items }
    {
        self.first.as_slice()
    }
}

impl HasEdges for Listing {
    ghost use Rattle.leak_pool.specs.Lists.{lists_in};
    ghost use Rattle.leak_pool.specs.ListsLaw.{lists_inside};

    ghost targets = { λ l. lists_in l.blocks l.size l.rows.items };

    ghost inside = { λ l. lists_inside l.blocks l.size l.rows.items l.first.items l.inside };

    fn blocks(&self) -> u32 {
        self.blocks
    }

    fn targets(&self, block: u32) -> &[u32] {
        listed_targets(&self.rows, self.size, block)
    }
}

impl TargetSource for Listing {
    ghost use Rattle.leak_pool.specs.Lists.{each_alone, lists_in};
    ghost use Rattle.leak_pool.specs.ListsLaw.{items_inside};

    ghost roots = { λ l. each_alone l.first.items };

    ghost targets = { λ l. lists_in l.blocks l.size l.rows.items };

    ghost inside = { λ l. items_inside l.blocks l.size l.rows.items l.first.items l.inside };

    fn blocks(&self) -> u32 {
        self.blocks
    }

    fn roots(&self) -> usize {
        self.first.len()
    }

    fn scan(
        &self,
        marks: &Marks,
        seat: &mut MarkSeat,
        list: &mut Vec<u32>,
        item: Item,
    ) -> Result<(), AllocError> {
        match item {
            Item::Root(place) => claim_listed(&[self.first[place]], marks, seat, list),
            Item::Block(block) => {
                let targets = listed_targets(&self.rows, self.size, block);
                claim_listed(targets, marks, seat, list)
            }
        }
    }

    fn scan_blocks(
        &self,
        alloc: Global,
        marks: &Marks,
        seat: &mut MarkSeat,
        list: &mut Vec<u32>,
        blocks: &[u32],
    ) -> Result<(), AllocError> {
        let lists = lists_of(alloc, &self.rows, self.size, blocks)?;
        claim_lists(&lists, marks, seat, list)
    }
}
