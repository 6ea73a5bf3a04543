//! The chain back from an entry.
ghost use Rattle.std.specs.Prelude.{◌≡◌, ◌<◌, [], length, OnOk, IfOk, slice_index_or};
ghost use Rattle.leak_blocks.specs.declared.block.Block.{Block};
ghost use Rattle.leak_blocks.specs.Span.{AreAddressed};
ghost use Rattle.leak_marks.specs.Lists.{Has};
ghost use Rattle.leak_scan.specs.Targets.{block_targets};
ghost use Rattle.leak_why.specs.Chains.{IsRoot, IsLink};
ghost use Rattle.leak_why.specs.ReachedBlocks.{AreLedByBlocks, AreTraced, IsOrigin, led_of_origin};

use crate::chain::{Chain, Link, RootPlace, RootWord};
use crate::finding::{first_register, first_root_word, first_word};
use crate::reached_block::{FirstLead, Origin, ReachedBlock};
use leak_blocks::{Block, Live};
use leak_elf::Words;
use leak_index::Lookup;
use leak_roots::Roots;
use std::alloc::AllocError;

/// A word of the holder that leads to the block.
fn link_to<W: Words, L: Lookup>(
    words: &W,
    lookup: &L,
    blocks: &[Block],
    holder: usize,
    block: usize,
) -> Link
    requires holder { holder < length blocks.now }
    requires addressed { AreAddressed blocks.now }
    requires blocks { (L.index lookup.now).blocks ≡ blocks.now }
    requires leads { let w = W.word_at words.now in let i = L.index lookup.now in
        (d : Block) → Has (block_targets w i (slice_index_or blocks.now holder d)) block }
    ensures holder { result.holder ≡ holder }
    ensures link { IsLink (W.word_at words.now) (L.index lookup.now) result block }
{
    let of = &blocks[holder];
    let Some((address, word)) = first_word(words, lookup, of.start, of.start + of.size, block)
    else {
        unreachable!()
    };
    Link {
        holder,
        address,
        word,
    }
}

/// Goes back from the entry with the number to one that a root word led to, and adds the links between them. Gives that
/// root word's origin, and the block that it led to.
pub(crate) fn trace<W: Words, L: Lookup>(
    words: &W,
    lookup: &L,
    blocks: &[Block],
    entries: &[ReachedBlock],
    last: usize,
    links: &mut Vec<Link>,
) -> Result<(Origin, usize), AllocError>
    requires blocks { (L.index lookup.now).blocks ≡ blocks.now }
    requires addressed { AreAddressed blocks.now }
    requires led { AreLedByBlocks (W.word_at words.now) (L.index lookup.now) entries.now }
    requires last { last < length entries.now }
    requires none { links.old.items ≡ [] }
    ensures { let w = W.word_at words.now in let i = L.index lookup.now in
        IfOk result (λ r. AreTraced w i entries.now last links.new.items r.0 r.1) }
{
    let mut at = last;
    'back: loop {
        let entry = entries[at];
        match entry.source {
            FirstLead::Root(origin) => return Ok((origin, entry.block)),
            FirstLead::Earlier(number) => {
                let holder = entries[number].block;
                links.push(link_to(words, lookup, blocks, holder, entry.block))?;
                at = number;
            }
        }
    }
}

/// A root word of the origin that leads to the block.
pub(crate) fn root_of<W: Words, L: Lookup>(
    words: &W,
    lookup: &L,
    live: &Live,
    roots: &Roots,
    origin: Origin,
    block: usize,
) -> RootWord
    requires same_blocks { (L.index lookup.now).blocks ≡ live.now.blocks }
    requires origin { IsOrigin roots.now origin }
    requires leads { let w = W.word_at words.now in let i = L.index lookup.now in
        Has (led_of_origin w i roots.now origin) block }
    ensures { IsRoot (W.word_at words.now) (L.index lookup.now) roots.now result block }
{
    match origin {
        Origin::Registers => {
            let registers = roots.registers();
            let Some(i) = first_register(lookup, registers, block) else {
                unreachable!()
            };
            RootWord {
                place: RootPlace::Register(i),
                word: registers[i],
            }
        }
        Origin::Range(i) => {
            let range = roots.memory()[i];
            let Some((address, word)) = first_root_word(words, lookup, live, roots, range, block)
            else {
                unreachable!()
            };
            RootWord {
                place: RootPlace::Address(address),
                word,
            }
        }
    }
}
