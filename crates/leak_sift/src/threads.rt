//! Words that threads sift side by side. No other file of the crate starts threads.
ghost use Rattle.std.specs.Prelude.{◌≡◌, ◌+◌, ◌^◌, ◌<◌, length, IfOk};
ghost use Rattle.leak_sift.specs.Sifted.{sifted};

use crate::appending::append_words;
use crate::places::Places;
use crate::sieve::Sieve;
use leak_sparse::SparseWords;
use leak_team::Team;
use std::alloc::{AllocError, Global};
use std::thread::{Threads, join};

/// How many bytes a part has at least, but for a group of words. Own rule: they take some times as long as the start of a
/// thread.
pub(crate) const LEAST: usize = 131_072;

/// How many bytes a group of words has. The words of each part but the last fill whole groups.
const GROUP: usize = 512;

/// What decides which words of a core are kept.
#[derive(Clone, Copy)]
pub(crate) struct Mesh<'a, 'b> {
    pub(crate) places: &'b Places<'a>,
    pub(crate) sieve: &'b Sieve<'a>,
}

/// What is kept of the words that the bytes are, 8 each. In the file the bytes begin at the offset.
fn sift_part(
    alloc: Global,
    mesh: &Mesh,
    offset: u64,
    bytes: &[u8],
) -> Result<SparseWords, AllocError>
    requires { offset + length bytes.now < 2 ^ 64 }
    ensures { IfOk result (λ words.
        words ≡ sifted mesh.now.sieve.now mesh.now.places.now offset bytes.now) }
{
    let mut words = SparseWords::new(alloc);
    let mut places = mesh.places.again();
    let mut sieve = mesh.sieve.again();
    append_words(&mut words, &mut places, &mut sieve, offset, bytes)?;
    Ok(words)
}

/// The same, by so many workers of the team.
///
/// The caller starts each of them itself, and takes the first part. A thread that starts another at the same moment may
/// share a processor with it.
pub(crate) fn sift_parts<T: Threads + Sync>(
    team: &Team<'_, T>,
    mesh: &Mesh,
    offset: u64,
    bytes: &[u8],
    count: u32,
) -> Result<SparseWords, AllocError>
    requires { offset + length bytes.now < 2 ^ 64 }
    ensures { IfOk result (λ words.
        words ≡ sifted mesh.now.sieve.now mesh.now.places.now offset bytes.now) }
{
    let alloc = team.alloc;
    if count < 2 {
        return sift_part(alloc, mesh, offset, bytes);
    }
    let middle = (bytes.len() - bytes.len() / count as usize) / GROUP * GROUP;
    let (front, back) = bytes.split_at(middle);
    let (later, left) = (offset + middle as u64, count - 1);
    let of_back = move || -> Result<SparseWords, AllocError>
        requires { later + length back.now < 2 ^ 64 }
        ensures { IfOk result (λ words. words ≡ sifted mesh.entry.now.sieve.now
            mesh.entry.now.places.now later back.entry.now) }
    { sift_part(alloc, mesh, later, back) };
    let of_front = move || -> Result<SparseWords, AllocError>
        requires { offset + length front.now < 2 ^ 64 }
        ensures { IfOk result (λ words. words ≡ sifted mesh.entry.now.sieve.now
            mesh.entry.now.places.now offset front.entry.now) }
    { sift_parts(team, mesh, offset, front, left) };
    let (last, others) = join(team.rt, of_back, of_front);
    let mut words = others?;
    let last = last?;
    words.append(&last)?;
    Ok(words)
}
