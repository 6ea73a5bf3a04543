//! Where an address is among blocks.
ghost use Rattle.std.specs.Prelude.{IfOk};
ghost use Rattle.leak_blocks.specs.Span.{AreDisjoint};
ghost use Rattle.leak_index.specs.Finder.{Finds};
ghost use Rattle.leak_index.specs.AddressPlaces.{IsAddressPlace};

use crate::address_place::AddressPlace;
use crate::directory::Directory;
use crate::ranks::Ranks;
use leak_blocks::Block;
use std::alloc::{AllocError, Global};

/// Finds where an address is among blocks: by rows if each block starts at a multiple of 16, as those of glibc do, and
/// otherwise by pages. From 4294967296 blocks on it goes by pages too, since the count of a row has 32 bits.
#[derive(Drop)]
pub(crate) enum Finder {
    Rows(Ranks),
    Pages(Directory),
}

impl Finder {
    /// The finder for blocks by ascending start.
    pub(crate) fn new(alloc: Global, blocks: &[Block]) -> Result<Finder, AllocError>
        requires { AreDisjoint blocks.now }
        ensures { IfOk result (λ finder. Finds blocks.now finder) }
    {
        if blocks.len() <= u32::MAX as usize {
            if let Some(ranks) = Ranks::new(alloc, blocks)? {
                return Ok(Finder::Rows(ranks));
            }
        }
        let directory = Directory::new(alloc, blocks)?;
        Ok(Finder::Pages(directory))
    }

    /// Where the address is among the blocks.
    #[inline(always)]
    pub(crate) fn place(&self, blocks: &[Block], address: u64) -> AddressPlace
        requires disjoint { AreDisjoint blocks.now }
        requires finds { Finds blocks.now self.now }
        ensures { IsAddressPlace blocks.now address result }
    {
        match self {
            Finder::Rows(ranks) => ranks.place(blocks, address),
            Finder::Pages(directory) => AddressPlace::After(directory.count_up_to(blocks, address)),
        }
    }
}
