//! What marking scans of a core.
ghost use Rattle.std.specs.Prelude.{◌≡◌, ◌<◌, ◌^◌, length};
ghost use Rattle.leak_roots.specs.Places.{IsRange, addresses_in};
ghost use Rattle.leak_roots.specs.Pieces.{IsPiece};
ghost use Rattle.leak_pool.specs.Marking.{led_in_memory};
ghost use Rattle.leak_pool.specs.Items.{IsItem, targets_of_item};
ghost use Rattle.leak_pool.specs.Scopes.{root_targets, all_targets, piece_targets, part_targets, ArePieces, AreParts};
ghost use Rattle.leak_pool.specs.ScopeLaw.{pieces_prop, parts_prop};

use crate::claiming::claim_all;
use crate::start::Part;
use crate::target_source::{Item, TargetSource};
use leak_blocks::{Block, Live};
use leak_elf::Words;
use leak_index::Lookup;
use leak_marks::{MarkSeat, Marks};
use leak_roots::{Piece, Pieces, Roots};
use leak_scan::{Pages, Targets};
use std::alloc::{AllocError, Global};

/// The pieces of the root words, after them the parts of blocks that are scanned again, and the blocks.
#[derive(Drop)]
pub(crate) struct Scope<'a, W: Words, L: Lookup> {
    pub(crate) words: &'a W,
    pub(crate) lookup: &'a L,
    pub(crate) live: &'a Live,
    pub(crate) blocks: &'a [Block],
    pub(crate) roots: &'a Roots,
    pub(crate) pieces: &'a Pieces<'a>,
    pub(crate) rescan: &'a [(u32, Part)],
    pub(crate) pages: &'a Pages,
    ghost of_live: { (L.index lookup.now).blocks ≡ live.now.blocks },
    ghost same: { (L.index lookup.now).blocks ≡ blocks.now },
    ghost few: { length blocks.now < 2 ^ 32 },
    ghost in_roots: { ArePieces roots.now pieces.now } by { pieces_prop roots.now pieces.now },
    ghost in_blocks: { AreParts (length blocks.now) rescan.now } by { parts_prop _ _ },
}

impl<'a, W: Words, L: Lookup> Scope<'a, W, L> {
    // The blocks that an item leads to.
    fn targets(&self, item: Item) -> Targets<'a, W, L>
        requires { let s = self.now in
            let w = W.word_at s.words.now in let i = L.index s.lookup.now in
            IsItem (root_targets w i s.roots.now s.pieces.now s.pages.now s.rescan.now)
            (all_targets w i) item }
        ensures { let s = self.now in
            let w = W.word_at s.words.now in let i = L.index s.lookup.now in
            result ≡ targets_of_item
            (root_targets w i s.roots.now s.pieces.now s.pages.now s.rescan.now)
            (all_targets w i) item }
    {
        match item {
            Item::Block(block) => {
                Targets::of_block(self.words, self.lookup, &self.blocks[block as usize])
            }
            Item::Root(place) if place < self.pieces.len() => self.of_piece(self.pieces.at(place)),
            Item::Root(place) => self.of_part(self.rescan[place - self.pieces.len()]),
        }
    }

    // The blocks that a piece of the roots leads to.
    fn of_piece(&self, piece: Piece) -> Targets<'a, W, L>
        requires { IsPiece self.now.roots.now piece }
        ensures { let s = self.now in
            let w = W.word_at s.words.now in let i = L.index s.lookup.now in
            result ≡ piece_targets w i s.roots.now piece }
    {
        match piece {
            Piece::Registers(from, to) => {
                let registers = &self.roots.registers()[from..to];
                Targets::of_registers(self.words, registers, self.lookup)
            }
            Piece::Memory(from, to) => {
                of_memory(self.words, self.lookup, self.live, self.roots, (from, to))
            }
        }
    }

    // The blocks that a part of a block leads to.
    fn of_part(&self, part: (u32, Part)) -> Targets<'a, W, L>
        requires { part.0 < length self.now.blocks.now }
        ensures { let s = self.now in
            let w = W.word_at s.words.now in let i = L.index s.lookup.now in
            result ≡ part_targets w i s.pages.now part }
    {
        let block = &self.blocks[part.0 as usize];
        match part.1 {
            Part::Whole => Targets::of_block(self.words, self.lookup, block),
            Part::Differing => {
                Targets::of_block_pages(self.words, self.lookup, block, self.pages)
            }
        }
    }
}

/// The blocks that the root words of a range of memory lead to, with malloc's links to free chunks or without, as the
/// roots say.
pub fn of_memory<'a, W: Words, L: Lookup>(
    words: &'a W,
    lookup: &'a L,
    live: &'a Live,
    roots: &Roots,
    range: (u64, u64),
) -> Targets<'a, W, L>
    requires same_blocks { (L.index lookup.now).blocks ≡ live.now.blocks }
    requires range { IsRange range }
    ensures { let w = W.word_at words.now in let i = L.index lookup.now in
        result ≡ led_in_memory roots.now.skips_links w i (addresses_in range) }
{
    let (from, to) = range;
    if roots.skips_links() {
        Targets::of_root_range(words, lookup, live, from, to)
    } else {
        Targets::of_range(words, lookup, from, to)
    }
}

impl<'a, W: Words, L: Lookup> TargetSource for Scope<'a, W, L> {
    ghost use Rattle.leak_pool.specs.ScopeLaw.{scope_inside};

    ghost roots = { λ s. root_targets (W.word_at s.words.now) (L.index s.lookup.now)
        s.roots.now s.pieces.now s.pages.now s.rescan.now };

    ghost targets = { λ s. all_targets (W.word_at s.words.now) (L.index s.lookup.now) };

    ghost inside = { λ s. scope_inside (W.word_at s.words.now) (L.index s.lookup.now)
        s.roots.now s.pieces.now s.pages.now s.rescan.now };

    fn blocks(&self) -> u32 {
        self.blocks.len() as u32
    }

    fn roots(&self) -> usize {
        self.pieces.len() + self.rescan.len()
    }

    fn scan(
        &self,
        marks: &Marks,
        seat: &mut MarkSeat,
        list: &mut Vec<u32>,
        item: Item,
    ) -> Result<(), AllocError> {
        claim_all(self.targets(item), marks, seat, list)
    }

    fn scan_blocks(
        &self,
        _alloc: Global,
        marks: &Marks,
        seat: &mut MarkSeat,
        list: &mut Vec<u32>,
        blocks: &[u32],
    ) -> Result<(), AllocError> {
        for block in blocks {
            self.scan(marks, seat, list, Item::Block(*block))?;
        }
        Ok(())
    }
}
