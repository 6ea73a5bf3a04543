//! Links to free chunks in the sample core.
ghost use Rattle.std.specs.Prelude.{◌≡◌};
ghost use Rattle.leak_elf.specs.Words.{word_of};
ghost use Rattle.leak_elf.specs.Aligned.{aligned_words};

use crate::chunks::core_with;
use crate::comparisons::same_in;
use leak_blocks::replay;
use leak_chunks::{is_free_link, without_free_links};
use leak_elf::{Image, Words};
use leak_index::{Hits, Lookup, Reading, Sorted};
use leak_mtrace::Log;
use std::alloc::Global;
use std::cell::Cell;
use std::test::Fail;

/// A block of 32 bytes at 0x10100, whose least chunk has 0x30 bytes: the header of the next chunk is at 0x10120.
const BLOCK: &str = "+ 0x10100 0x20\n";

/// What the word at a place of the sample core with the words set leads to, and what is left without links.
fn hits_with(
    alloc: Global,
    log: &str,
    words: &[(u64, u64)],
    place: u64,
) -> Result<(Hits, Hits), Fail> {
    let core = core_with(alloc, words)?;
    let image = Image::read(alloc, core.as_slice())?;
    let lines = Log::read(alloc, log.as_bytes())?;
    let live = replay(alloc, &lines)?;
    let word = image.word(place).unwrap_or(0);
    let hits = Sorted::new(&live, Reading::interior()).hits(word);
    Ok((hits, without_free_links(&image, &live, place, word, hits)))
}

/// The size word of a top whose end is past the last address.
const PAST: u64 = 0xffff_ffff_ffff_fee1;

/// The words of a list of free chunks, or of a top: what they are, and whether the block is left.
#[test]
fn links_to_the_chunk_after_a_block(rt: HostRuntime) -> Result<(), Fail> {
    let cases = [
        // the chunk's list leads back to the place, by either of its words
        (0x31, (0x10008, 0x10120), (0x10138, 0xfff8), Hits::Zero),
        (0x31, (0x10008, 0x10120), (0x10130, 0xfff0), Hits::Zero),
        (0x31, (0x10010, 0x10120), (0x10138, 0xfff8), Hits::One(0)),
        (0x31, (0x10008, 0x10120), (0x10138, 0xfff0), Hits::One(0)),
        (0x31, (0x10008, 0x10120), (0x10130, 0xfff8), Hits::One(0)),
        // the top of a heap, up to the end of a page
        (0x31, (0x10008, 0x10120), (0x10128, 0xee1), Hits::Zero),
        (0x31, (0x10008, 0x10120), (0x10128, 0xee5), Hits::Zero),
        (0x31, (0x10008, 0x10120), (0x10128, 0x1ee1), Hits::Zero),
        (0x31, (0x10008, 0x10120), (0x10128, 0xee0), Hits::One(0)),
        (0x31, (0x10008, 0x10120), (0x10128, 0xee3), Hits::One(0)),
        (0x31, (0x10008, 0x10120), (0x10128, 0xed1), Hits::One(0)),
        // a top whose end is past the last address ends with a page
        (0x31, (0x10008, 0x10120), (0x10128, PAST), Hits::Zero),
        // a pointer into the block's last bytes
        (0x31, (0x10008, 0x10120), (0x10128, 0), Hits::One(0)),
        (0x31, (0x10008, 0x10118), (0x10138, 0xfff8), Hits::One(0)),
        (0x31, (0x10008, 0x10100), (0x10138, 0xfff8), Hits::One(0)),
        // chunks that are mapped, or larger than the least for the block
        (0x33, (0x10008, 0x10120), (0x10138, 0xfff8), Hits::One(0)),
        (0x41, (0x10008, 0x10120), (0x10138, 0xfff8), Hits::One(0)),
        // of another arena, or with the chunk before it free
        (0x34, (0x10008, 0x10120), (0x10138, 0xfff8), Hits::Zero),
    ];
    for (size_word, link, next, left) in cases {
        let words = [(0x100f8, size_word), link, next];
        let found = hits_with(rt.alloc(), BLOCK, &words, link.0)?;
        same_in(&rt, &(size_word, link, next), found, (Hits::One(0), left));
    }
    Ok(())
}

/// Other blocks: their log, the place and its word, the words beside it, what the word leads to, and what is left.
#[test]
fn links_past_other_blocks(rt: HostRuntime) -> Result<(), Fail> {
    let link = (0x10008, 0x10120);
    let back = (0x10138, 0xfff8);
    let cases = [
        // a live block has the header
        (
            "+ 0x10100 0x20\n+ 0x10130 0x10\n",
            [(0x100f8, 0x31), link, back],
            (Hits::One(0), Hits::One(0)),
        ),
        // the word is the start of another block, and leads to that
        (
            "+ 0x10100 0x20\n+ 0x10120 0x8\n",
            [(0x100f8, 0x31), link, back],
            (Hits::Two(0, 1), Hits::One(1)),
        ),
        // the same, and the block after that has the header
        (
            "+ 0x10100 0x20\n+ 0x10120 0x8\n+ 0x10130 0x8\n",
            [(0x100f8, 0x31), link, back],
            (Hits::Two(0, 1), Hits::Two(0, 1)),
        ),
        // blocks before and after
        (
            "+ 0x10010 0x8\n+ 0x10100 0x20\n+ 0x10140 0x8\n",
            [(0x100f8, 0x31), link, back],
            (Hits::One(1), Hits::Zero),
        ),
    ];
    for (log, words, wanted) in cases {
        let found = hits_with(rt.alloc(), log, &words, 0x10008)?;
        same_in(&rt, &log, found, wanted);
    }
    Ok(())
}

/// The same for blocks of other sizes and at other places.
#[test]
fn links_past_blocks_of_other_sizes(rt: HostRuntime) -> Result<(), Fail> {
    let cases = [
        // the header begins inside the block's last bytes
        (
            "+ 0x10100 0x18\n",
            [(0x100f8, 0x21), (0x10008, 0x10110), (0x10128, 0xfff8)],
            (Hits::One(0), Hits::Zero),
        ),
        // the least chunk of all
        (
            "+ 0x10100 0x10\n",
            [(0x100f8, 0x21), (0x10008, 0x10110), (0x10128, 0xfff8)],
            (Hits::One(0), Hits::Zero),
        ),
        // the size word would be before the segment
        (
            "+ 0x10000 0x10\n",
            [(0x10018, 0x10010), (0x10008, 0x10010), (0x10028, 0xfff8)],
            (Hits::One(0), Hits::One(0)),
        ),
        // not at a multiple of 16
        (
            "+ 0x10108 0x20\n",
            [(0x10100, 0x31), (0x10008, 0x10128), (0x10140, 0xfff8)],
            (Hits::One(0), Hits::One(0)),
        ),
    ];
    for (log, words, wanted) in cases {
        let found = hits_with(rt.alloc(), log, &words, 0x10008)?;
        same_in(&rt, &log, found, wanted);
    }
    Ok(())
}

#[test]
fn both_words_of_a_lists_head_are_links(rt: HostRuntime) -> Result<(), Fail> {
    // both words of a list's head lead to the one chunk of the list, and it leads back to the head by both
    let words = [
        (0x100f8, 0x31),
        (0x10008, 0x10120),
        (0x10010, 0x10120),
        (0x10130, 0xfff8),
        (0x10138, 0xfff8),
    ];
    for place in [0x10008, 0x10010] {
        let found = hits_with(rt.alloc(), BLOCK, &words, place)?;
        same_in(&rt, &place, found, (Hits::One(0), Hits::Zero));
    }
    Ok(())
}

/// The words of a core, which counts the words that are read.
#[derive(Drop)]
struct Counted<'a> {
    image: &'a Image<'a>,
    asked: Cell<u64>,
}

impl<'a> Words for Counted<'a> {
    ghost word_at = { λ counted. word_of counted.image.now };

    fn word(&self, addr: u64) -> Option<u64> {
        self.asked.set(self.asked.get().wrapping_add(1));
        self.image.word(addr)
    }

    fn next(&self, from: u64) -> Option<u64> {
        self.image.next(from)
    }

    ghost aligned = { λ counted. aligned_words counted.image.now };
}

#[test]
fn at_most_four_words_are_asked_for(rt: HostRuntime) -> Result<(), Fail> {
    let alloc = rt.alloc();
    let cases = [
        // a word that is no header's address
        ((0x100f8, 0x31), (0x10138, 0xfff8), 0x10118, 0, false),
        ((0x100f8, 0x31), (0x10138, 0xfff8), 0x10120, 2, true),
        ((0x100f8, 0x31), (0x10130, 0xfff0), 0x10120, 3, true),
        ((0x100f8, 0x31), (0x10128, 0xee1), 0x10120, 4, true),
        ((0x100f8, 0x31), (0x10128, 0), 0x10120, 4, false),
        ((0x100f8, 0x41), (0x10138, 0xfff8), 0x10120, 1, false),
    ];
    for (size_word, next, word, asked, link) in cases {
        let core = core_with(alloc, &[size_word, next])?;
        let image = Image::read(alloc, core.as_slice())?;
        let live = replay(alloc, &Log::read(alloc, BLOCK.as_bytes())?)?;
        let counted = Counted {
            image: &image,
            asked: Cell::new(0),
        };
        same_in(
            &rt,
            &word,
            is_free_link(&counted, &live, 0x10008, word, 0),
            link,
        );
        same_in(&rt, &word, counted.asked.get(), asked);
        assert!(rt; !is_free_link(&image, &live, 0x10008, word, 1));
    }
    Ok(())
}

#[test]
fn no_header_is_past_the_end_of_the_address_space(rt: HostRuntime) -> Result<(), Fail> {
    let alloc = rt.alloc();
    let core = core_with(alloc, &[(0x100f8, 0xffff_ffff_fffe_ff01), (0x10000, 1)])?;
    let image = Image::read(alloc, core.as_slice())?;
    for log in [
        "+ 0x10100 0xfffffffffffefef8\n",
        "+ 0x10100 0xfffffffffffefeff\n",
    ] {
        let live = replay(alloc, &Log::read(alloc, log.as_bytes())?)?;
        for word in [0, 0xfff0, 0xffff_ffff_ffff_fff0, 0xffff_ffff_ffff_ffff] {
            let found = without_free_links(&image, &live, 0x10008, word, Hits::One(0));
            same_in(&rt, &word, found, Hits::One(0));
        }
    }
    Ok(())
}
