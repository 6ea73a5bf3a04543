//! Misfits that threads count side by side. No other file of the crate starts threads.
ghost use Rattle.std.specs.Prelude.{◌≡◌, count_by, not};
ghost use Rattle.leak_blocks.specs.Span.{AreAddressed};
ghost use Rattle.leak_chunks.specs.Fit.{fits_of};

use crate::fitting::count_misfits_among;
use leak_blocks::{Block, Live};
use leak_elf::Words;
use leak_team::Team;
use std::thread::{Threads, join};

/// How many blocks a share has at least. Own rule: they take some times as long as the start of a thread.
const LEAST: usize = 8192;

/// What [`count_misfits`](crate::count_misfits) counts, by the workers of a team.
///
/// Threads that can't be had are no error: the caller does their share.
pub fn count_misfits_by<R: Threads + Sync, W: Words + Sync>(
    team: &Team<'_, R>,
    words: &W,
    live: &Live,
) -> u64
    ensures { result ≡ count_by not (fits_of (W.word_at words.now) live.now.blocks) }
{
    let blocks = live.blocks();
    let shares = (blocks.len() / LEAST).min(team.workers as usize);
    count_by_shares(team, words, blocks, shares)
}

/// How many of the blocks are misfits, counted in so many shares.
///
/// The caller starts each thread itself, and takes the first share. A thread that starts another at the same moment may share
/// a processor with it.
fn count_by_shares<R: Threads + Sync, W: Words + Sync>(
    team: &Team<'_, R>,
    words: &W,
    blocks: &[Block],
    shares: usize,
) -> u64
    requires { AreAddressed blocks.now }
    ensures { result ≡ count_by not (fits_of (W.word_at words.now) blocks.now) }
{
    if shares < 2 {
        return count_misfits_among(words, blocks);
    }
    let (front, back) = blocks.split_at(blocks.len() - blocks.len() / shares);
    let left = shares - 1;
    let of_back = move || -> u64
        requires { AreAddressed back.now }
        ensures { result ≡ count_by not (fits_of (W.word_at words.entry.now) back.entry.now) }
    { count_misfits_among(words, back) };
    let of_front = move || -> u64
        requires { AreAddressed front.now }
        ensures { result ≡ count_by not (fits_of (W.word_at words.entry.now) front.entry.now) }
    { count_by_shares(team, words, front, left) };
    let (last, others) = join(team.rt, of_back, of_front);
    others + last
}
