//! Links of malloc to free chunks: words of its lists, and its pointers to the tops of heaps.
ghost use Rattle.std.specs.Prelude.{◌≡◌, ◌+◌, ◌<◌, ◌≤◌, ◌==◌, length};
ghost use Rattle.leak_blocks.specs.Span.{AreAddressed, AreDisjoint};
ghost use Rattle.leak_index.specs.Hits.{hits_in};
ghost use Rattle.leak_index.specs.Ranks.{IsCountBelow};
ghost use Rattle.leak_chunks.specs.FreeLinks.{next_header, is_least_chunk_for, has_least_chunk, has_start, is_before, leads_back, is_size_of_top, is_top, links_to_free, is_free_link, is_free_link_past, without_free_links};

use crate::chunk::{SizeWord, least_chunk};
use crate::fitting::word_after;
use leak_blocks::{Block, Live};
use leak_elf::Words;
use leak_index::Hits;

/// How many bytes before its block a chunk's header begins.
const HEADER: u64 = 16;
/// How many bytes after a header the chunk's size word is.
const SIZE: u64 = 8;
/// How many bytes after a header the word is that leads to the next chunk of a list.
const NEXT: u64 = 16;
/// How many bytes after a header the word is that leads to the chunk before it in a list.
const PREVIOUS: u64 = 24;
/// The size of a page, in bytes.
const PAGE: u64 = 4096;

/// Whether the word, which is in memory at the place, is malloc's link to a free chunk as far as the block with the number
/// goes: it leads to the block only because the header of the chunk after the block is there.
///
/// It reads at most four words, and none if the word is not the address of such a header.
pub fn is_free_link<W: Words>(words: &W, live: &Live, place: u64, word: u64, block: usize) -> bool
    ensures { result ≡ is_free_link_past (W.word_at words.now) live.now.blocks place word block }
{
    let blocks = live.blocks();
    match blocks.get(block) {
        Some(block) => is_free_link_of(words, blocks, place, word, block),
        None => false,
    }
}

/// The blocks that a word leads to, without those for which it is a link to a free chunk. The word is in memory at
/// the place.
pub fn without_free_links<W: Words>(
    words: &W,
    live: &Live,
    place: u64,
    word: u64,
    hits: Hits,
) -> Hits
    ensures { let blocks = live.now.blocks in
        hits_in result ≡ without_free_links (W.word_at words.now) blocks place word (hits_in hits) }
{
    match hits {
        Hits::Zero => Hits::Zero,
        Hits::One(block) => {
            if is_free_link(words, live, place, word, block) {
                return Hits::Zero;
            }
            hits
        }
        Hits::Two(first, second) => {
            let is_first_link = is_free_link(words, live, place, word, first);
            let is_second_link = is_free_link(words, live, place, word, second);
            match (is_first_link, is_second_link) {
                (false, false) => hits,
                (false, true) => Hits::One(first),
                (true, false) => Hits::One(second),
                (true, true) => Hits::Zero,
            }
        }
    }
}

/// Whether the word at the place is a link to a free chunk as far as the block goes, a live one.
#[tactic(auto, unfolding(crate::specs::FreeLinks::is_free_link))]
fn is_free_link_of<W: Words>(
    words: &W,
    blocks: &[Block],
    place: u64,
    word: u64,
    block: &Block,
) -> bool
    requires addressed { AreAddressed blocks.now }
    requires disjoint { AreDisjoint blocks.now }
    requires above { 0 < block.now.start }
    ensures { result ≡ is_free_link (W.word_at words.now) blocks.now place word block.now }
{
    if block.start % 16 != 0 {
        return false;
    }
    is_next_header(word, block)
        && has_least_chunk(words, block)
        && links_to_free(words, blocks, place, word)
}

/// Whether the word is the address of the header after the block's chunk, if that is the least for its size.
fn is_next_header(word: u64, block: &Block) -> bool
    requires { 16 ≤ block.now.start }
    ensures { result ≡ (word == next_header block.now) }
{
    match (least_chunk(block.size), word.checked_sub(block.start)) {
        (Some(least), Some(bytes)) => bytes == least - HEADER,
        _ => false,
    }
}

/// Whether the block's chunk is one in a heap, and the least for its size.
fn has_least_chunk<W: Words>(words: &W, block: &Block) -> bool
    requires { 8 ≤ block.now.start }
    ensures { result ≡ has_least_chunk (W.word_at words.now) block.now }
{
    match words.word(block.start - 8) {
        Some(word) => is_least_chunk_for(block.size, SizeWord(word)),
        None => false,
    }
}

/// Whether the size word is that of a chunk in a heap, and of the least one for the size.
fn is_least_chunk_for(size: u64, word: SizeWord) -> bool
    ensures { result ≡ is_least_chunk_for size word.0 }
{
    match least_chunk(size) {
        Some(least) => !word.is_mapped() && word.chunk_size() == least,
        None => false,
    }
}

/// Whether the word at the place is malloc's link to the chunk with that header, which no live block has.
fn links_to_free<W: Words>(words: &W, blocks: &[Block], place: u64, word: u64) -> bool
    requires addressed { AreAddressed blocks.now }
    requires disjoint { AreDisjoint blocks.now }
    ensures { result ≡ links_to_free (W.word_at words.now) blocks.now place word }
{
    if has_start(blocks, word, HEADER) {
        return false;
    }
    leads_back(words, word, place) || is_top(words, word)
}

/// Whether a live block begins that many bytes after the address.
fn has_start(blocks: &[Block], addr: u64, bytes: u64) -> bool
    requires addressed { AreAddressed blocks.now }
    requires disjoint { AreDisjoint blocks.now }
    ensures { result ≡ has_start blocks.now (addr + bytes) }
{
    // No block begins past the last address.
    let Some(start) = addr.checked_add(bytes) else {
        return false;
    };
    let at = count_before(blocks, start);
    at < blocks.len() && blocks[at].start == start
}

/// How many of the blocks begin before the address.
fn count_before(blocks: &[Block], address: u64) -> usize
    requires { AreDisjoint blocks.now }
    ensures { IsCountBelow blocks.now (length blocks.now) address result }
{
    blocks.partition_point(|block| block.start < address)
}

/// Whether the list of the chunk with the header leads back to the place.
fn leads_back<W: Words>(words: &W, header: u64, place: u64) -> bool
    ensures { result ≡ leads_back (W.word_at words.now) header place }
{
    is_before(word_after(words, header, PREVIOUS), NEXT, place)
        || is_before(word_after(words, header, NEXT), PREVIOUS, place)
}

/// Whether there is an address, and it is that many bytes before the place.
fn is_before(address: Option<u64>, bytes: u64, place: u64) -> bool
    ensures { result ≡ is_before address bytes place }
{
    match address {
        Some(address) => place.checked_sub(address) == Some(bytes),
        None => false,
    }
}

/// Whether the chunk with the header is the top of a heap, as its size word says.
fn is_top<W: Words>(words: &W, header: u64) -> bool
    ensures { result ≡ is_top (W.word_at words.now) header }
{
    match word_after(words, header, SIZE) {
        Some(word) => is_size_of_top(header, SizeWord(word)),
        None => false,
    }
}

/// Whether the size word is that of a heap's top with the header.
fn is_size_of_top(header: u64, word: SizeWord) -> bool
    ensures { result ≡ is_size_of_top header word.0 }
{
    if !word.is_previous_in_use() || word.is_mapped() {
        return false;
    }
    (header % PAGE + word.chunk_size() % PAGE) % PAGE == 0
}
