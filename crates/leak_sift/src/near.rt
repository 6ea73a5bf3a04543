//! Whether a place is near a live block.
ghost use Rattle.std.specs.Prelude.{◌≡◌, ◌+◌, ◌-◌, ◌*◌, ◌^◌, ◌<◌, ◌≤◌, ◌==◌, ℕ, Bool, length, slice_index_or, true, false, IsTrue};
ghost use Rattle.std.specs.List.{list_any};
ghost use Rattle.leak_blocks.specs.Span.{AreDisjoint};
ghost use Rattle.leak_chunks.specs.Fit.{least_chunk};
ghost use Rattle.leak_index.specs.Ranks.{none};
ghost use Rattle.leak_sift.specs.Grouped.{AreBits, AreOff};
ghost use Rattle.leak_sift.specs.Kept.{distances, is_near, is_near_block};
ghost use Rattle.leak_sift.specs.Passed.{AreBehind, AreCalm, IsPassed};

use leak_blocks::Block;

/// How many bytes before its block a chunk's size word is.
const SIZE: u64 = 8;

/// From this many bytes after the start of a block on, no place is near an earlier block. The least chunk of that one
/// ends at most 31 bytes after the start; the next size word is 8 bytes before that end, and the last distance is 32.
const FARTHEST: u64 = 56;

/// How many blocks are passed one by one at most, but for the last.
const FEW: usize = 64;

/// How many of the blocks have their size word at the place or before it. The count for the last place is a guess from
/// which a place a little later goes on.
pub(crate) fn count_passed(blocks: &[Block], place: u64, guess: usize) -> usize
    requires disjoint { AreDisjoint blocks.now }
    requires guessed { guess ≤ length blocks.now }
    ensures { IsPassed blocks.now place result }
{
    if !is_soon_after(blocks, place, guess) {
        return blocks.partition_point(|block| size_place(block) <= place);
    }
    let mut count = guess;
    while count < blocks.len() && size_place(&blocks[count]) <= place {
        count += 1;
    }
    count
}

/// Whether the last of so many blocks has its size word at the place or before it, and the block a few behind them has it
/// after the place.
fn is_soon_after(blocks: &[Block], place: u64, count: usize) -> bool
    requires { count ≤ length blocks.now }
    ensures { IsTrue result → 0 < count →
        (slice_index_or blocks.now (count - 1) none).start - 8 ≤ place }
{
    if count > 0 && place < size_place(&blocks[count - 1]) {
        return false;
    }
    // (mostly the next block tells; one a few behind it is seldom in the processor's cache)
    if count < blocks.len() && place < size_place(&blocks[count]) {
        return true;
    }
    let few = count.saturating_add(FEW);
    few >= blocks.len() || place < size_place(&blocks[few])
}

/// Whether the place is near one of the blocks, given how many have their size word at the place or before it.
///
/// It tries the last of those, and goes back while an earlier one can be near: over 65 blocks at most.
pub(crate) fn is_near(blocks: &[Block], links: bool, count: usize, place: u64) -> bool
    requires disjoint { AreDisjoint blocks.now }
    requires passed { IsPassed blocks.now place count }
    ensures { result ≡ is_near blocks.now links place }
{
    let mut left = count;
    while left > 0 {
        left -= 1;
        let block = blocks[left];
        if is_near_block(&block, links, place) {
            return true;
        }
        if place.saturating_sub(block.start) >= FARTHEST {
            return false;
        }
    }
    false
}

/// From which block on one can be near the place or a later one, given how many come before it.
pub(crate) fn first_near(blocks: &[Block], passed: usize, place: u64) -> usize
    requires disjoint { AreDisjoint blocks.now }
    requires bound { passed ≤ length blocks.now }
    ensures bound { result ≤ passed }
    ensures off { (links : Bool) → AreOff blocks.now links place result }
{
    let mut first = passed;
    while first > 0 {
        first -= 1;
        if place.saturating_sub(blocks[first].start) >= FARTHEST {
            return first;
        }
    }
    0
}

/// Which of 64 places are near a block, by bits, given from which block on one can be; and how many blocks were tried or come
/// before that. The places are 8 bytes apart.
pub(crate) fn near_bits(blocks: &[Block], links: bool, first: usize, place: u64) -> (u64, usize)
    requires disjoint { AreDisjoint blocks.now }
    requires bound { first ≤ length blocks.now }
    requires off { AreOff blocks.now links place first }
    requires fits { place + 512 < 2 ^ 64 + 8 }
    ensures bits { AreBits (λ k. is_near blocks.now links (place + 8 * k)) 64 result.0 }
    ensures bound { result.1 ≤ length blocks.now }
{
    let mut bits = 0;
    let mut next = first;
    while next < blocks.len() && size_place(&blocks[next]).saturating_sub(place) < 512 {
        bits |= bits_of_block(&blocks[next], links, place);
        next += 1;
    }
    (bits, next)
}

/// Which of 64 places are near the block, by bits. They are 8 bytes apart.
#[inline(always)]
fn bits_of_block(block: &Block, links: bool, place: u64) -> u64
    requires { place + 512 < 2 ^ 64 + 8 }
    ensures { AreBits (λ k. is_near_block links (place + 8 * k) block.now) 64 result }
{
    let size = bit_of(size_place(block), place);
    // (at places past 64 bits there are no words)
    let Some(end) = block.start.checked_add(block.size) else {
        return size;
    };
    let Some(end) = end.checked_add(padding(block.size)) else {
        return size;
    };
    size | bits_behind(end, links, place)
}

/// Which of 64 places are at such a distance from the end that words are asked for there, by bits.
#[inline(always)]
fn bits_behind(end: u64, links: bool, place: u64) -> u64
    ensures { AreBits (λ k. list_any (λ d. place + 8 * k == end + d) (distances links)) 64 result }
{
    let asked = if links { 0b1_0111 } else { 0b1_0101 };
    if end < place {
        let distance = place - end;
        if distance % 8 == 0 && distance <= 32 {
            return asked >> (distance / 8);
        }
        return 0;
    }
    let distance = end - place;
    if distance % 8 == 0 && distance < 512 {
        return asked << (distance / 8);
    }
    0
}

/// The bit of a place, if it is one of 64 places that are 8 bytes apart. Otherwise none.
#[inline(always)]
fn bit_of(at: u64, place: u64) -> u64
    ensures { AreBits (λ k. place + 8 * k == at) 64 result }
{
    if at < place {
        return 0;
    }
    let distance = at - place;
    if distance % 8 == 0 && distance < 512 {
        return 1 << (distance / 8);
    }
    0
}

/// Up to which place, that one excluded, no place from this one on is near a block, given how many have their size word
/// there or before it. Where more than two blocks can be near, it looks no further, and gives the place.
pub(crate) fn calm_end(blocks: &[Block], links: bool, count: usize, place: u64) -> u64
    requires disjoint { AreDisjoint blocks.now }
    requires passed { IsPassed blocks.now place count }
    ensures { AreCalm blocks.now links place result }
{
    let next = next_size_place(blocks, count);
    if count == 0 {
        return next;
    }
    let last = blocks[count - 1];
    let end = near_from(&last, links, place).min(next);
    if count == 1 || place.saturating_sub(last.start) >= FARTHEST {
        return end;
    }
    let before = blocks[count - 2];
    if place.saturating_sub(before.start) < FARTHEST {
        return place;
    }
    near_from(&before, links, place).min(end)
}

/// From the place on, the first place that is near the block. If there is none, the last place of all; up to the block's
/// size word, the place.
fn near_from(block: &Block, links: bool, place: u64) -> u64
    ensures { (other : ℕ) → place ≤ other → other < result
        → is_near_block links other block.now ≡ false }
{
    if place <= size_place(block) {
        return place;
    }
    let end = block.start.saturating_add(block.size);
    let end = end.saturating_add(padding(block.size));
    if place <= end {
        return end;
    }
    match place - end {
        1..=8 if links => end.saturating_add(8),
        1..=16 => end.saturating_add(16),
        17..=32 => end.saturating_add(32),
        _ => u64::MAX,
    }
}

/// Where the size word of the first block behind so many is. If there is none, the last place of all.
fn next_size_place(blocks: &[Block], count: usize) -> u64
    requires disjoint { AreDisjoint blocks.now }
    ensures { AreBehind blocks.now count result }
{
    if count < blocks.len() {
        size_place(&blocks[count])
    } else {
        u64::MAX
    }
}

/// Whether the place is where the size word of the first block behind so many is. It is near that block then.
pub(crate) fn is_next_size_place(blocks: &[Block], count: usize, place: u64) -> bool
    ensures within { IsTrue result → count < length blocks.now }
    ensures near { IsTrue result → (links : Bool) → is_near blocks.now links place ≡ true }
{
    count < blocks.len() && place == size_place(&blocks[count])
}

/// Whether the place is near the block.
fn is_near_block(block: &Block, links: bool, place: u64) -> bool
    ensures { result ≡ is_near_block links place block.now }
{
    if place == size_place(block) {
        return true;
    }
    let Some(distance) = place.checked_sub(block.start) else {
        return false;
    };
    // A sum with the size could exceed 64 bits.
    let Some(past) = distance.checked_sub(block.size) else {
        return false;
    };
    match past.checked_sub(padding(block.size)) {
        Some(0 | 16 | 32) => true,
        Some(8) => links,
        _ => false,
    }
}

/// Where the size word of the block's chunk is.
fn size_place(block: &Block) -> u64
    ensures { result ≡ block.now.start - 8 }
{
    block.start.saturating_sub(SIZE)
}

/// How many bytes after the end of a block the next size word is, if the block's chunk is the least for its size.
fn padding(size: u64) -> u64
    ensures { size + result ≡ least_chunk size - 8 }
{
    if size <= 24 {
        return 24 - size;
    }
    15 - (size % 16 + 7) % 16
}
