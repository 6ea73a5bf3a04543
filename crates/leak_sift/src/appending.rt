//! Appends what is kept of words.
ghost use Rattle.std.specs.Prelude.{◌≡◌, ◌+◌, ◌++◌, ◌%◌, ◌^◌, ◌<◌, ◌≤◌, length, OnErr, OnOk};
ghost use Rattle.leak_sift.specs.Grouped.{IsPart};
ghost use Rattle.leak_sift.specs.Sifted.{AreSomeAppended, run_of, sifted};

use crate::places::Places;
use crate::sieve::Sieve;
use leak_sparse::SparseWords;
use std::alloc::AllocError;

/// Appends what is kept of the words that the bytes are, 8 each. In the file the bytes begin at the offset.
pub(crate) fn append_words(
    words: &mut SparseWords,
    places: &mut Places,
    sieve: &mut Sieve,
    offset: u64,
    bytes: &[u8],
) -> Result<(), AllocError>
    requires { offset + length bytes.now < 2 ^ 64 }
    ensures ok { OnOk result
        (words.new ≡ words.old ++ sifted sieve.old places.old offset bytes.now) }
    ensures err { OnErr result
        (AreSomeAppended words.old (sifted sieve.old places.old offset bytes.now) words.new) }
    ensures segments { places.new ≡ places.old }
    ensures rule { sieve.new ≡ sieve.old }
{
    let count = bytes.len() / 8;
    let mut done = 0;
    while done < count {
        let run = places.run_at(offset + 8 * done as u64, count - done);
        let end = done + run.words;
        match run.place {
            Some(place) => append_run(words, sieve, place, &bytes[8 * done..8 * end])?,
            None => words.push_zeros(run.words)?,
        }
        done = end;
    }
    Ok(())
}

/// Appends what is kept of the words that the bytes are, 8 each. The first of them is at the place.
pub(crate) fn append_run(
    words: &mut SparseWords,
    sieve: &mut Sieve,
    place: u64,
    bytes: &[u8],
) -> Result<(), AllocError>
    requires { place + length bytes.now < 2 ^ 64 + 8 }
    ensures ok { OnOk result (words.new ≡ words.old ++ run_of sieve.old place bytes.now) }
    ensures err { OnErr result
        (AreSomeAppended words.old (run_of sieve.old place bytes.now) words.new) }
    ensures same { sieve.new ≡ sieve.old }
{
    let count = bytes.len() / 8;
    let mut done = 0;
    while done < count {
        let end = done + part_len(words.len(), count - done);
        let at = place + 8 * done as u64;
        let part = &bytes[8 * done..8 * end];
        if end - done < 64 {
            append_each(words, sieve, at, part)?;
        } else {
            append_groups(words, sieve, at, part)?;
        }
        done = end;
    }
    Ok(())
}

/// How many words, of so many that are left, come next: whole groups of 64 behind whole groups, and fewer than 64 elsewhere.
fn part_len(before: usize, left: usize) -> usize
    requires { 0 < left }
    ensures { IsPart before left result }
{
    let begun = before % 64;
    if begun == 0 && left >= 64 {
        return left / 64 * 64;
    }
    (64 - begun).min(left)
}

/// The same as [`append_run`], one word after the other.
fn append_each(
    words: &mut SparseWords,
    sieve: &mut Sieve,
    place: u64,
    bytes: &[u8],
) -> Result<(), AllocError>
    requires { place + length bytes.now < 2 ^ 64 + 8 }
    ensures ok { OnOk result (words.new ≡ words.old ++ run_of sieve.old place bytes.now) }
    ensures err { OnErr result
        (AreSomeAppended words.old (run_of sieve.old place bytes.now) words.new) }
    ensures same { sieve.new ≡ sieve.old }
{
    let count = bytes.len() / 8;
    let mut done = 0;
    while let Some((number, word)) = sieve.next_kept(place, bytes, done) {
        words.push_after(number - done, word)?;
        done = number + 1;
    }
    if done < count {
        words.push_zeros(count - done)?;
    }
    Ok(())
}

/// The same, 64 words at once. The words so far fill whole groups of 64, and so do these.
fn append_groups(
    words: &mut SparseWords,
    sieve: &mut Sieve,
    place: u64,
    bytes: &[u8],
) -> Result<(), AllocError>
    requires fits { place + length bytes.now < 2 ^ 64 + 8 }
    requires before { length words.old % 64 ≡ 0 }
    requires groups { length bytes.now % 512 ≡ 0 }
    ensures ok { OnOk result (words.new ≡ words.old ++ run_of sieve.old place bytes.now) }
    ensures err { OnErr result
        (AreSomeAppended words.old (run_of sieve.old place bytes.now) words.new) }
    ensures same { sieve.new ≡ sieve.old }
{
    let count = bytes.len() / 8;
    let (all, _) = bytes.as_chunks::<8>();
    sieve.seek(place);
    let mut done = 0;
    while done < count {
        let start = place + 8 * done as u64;
        // (where blocks are far, long runs of words are dropped at once)
        let zeros = sieve.count_dropped(start, &bytes[8 * done..]) / 64 * 64;
        if zeros > 0 {
            words.push_zeros(zeros)?;
            done += zeros;
        } else {
            let group = &all[done..done + 64];
            words.push_group(sieve.group_bits(start, group), group)?;
            done += 64;
        }
    }
    Ok(())
}
