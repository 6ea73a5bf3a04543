//! A core is sifted behind its head, as it passes.

ghost use Rattle.std.specs.Prelude.{◌≡◌, ℕ, List, IfOk, IfErr, OnOk};
ghost use Rattle.leak_streams.specs.Pieces.{HasComeTo};
ghost use Rattle.leak_passing.specs.Begun.{IsAtHead};
ghost use Rattle.leak_passing.specs.Kept.{Keeps};
ghost use Rattle.leak_passing.specs.Rest.{IsRestFault, LosesRest};
ghost use Rattle.leak_passing.specs.Sifting.{SiftsRest};

use crate::ahead::Ahead;
use crate::begun::Front;
use crate::fault::RestFault;
use crate::pieces::{are_bytes, piece_size};
use leak_blocks::Live;
use leak_elf::Segment;
use leak_roots::Skip;
use leak_sift::{Sieve, Sifting};
use leak_sparse::SparseWords;
use leak_streams::{ReadCalls, Reading};
use leak_team::Team;
use std::thread::Threads;

/// How many words are kept of a core for each block, if glibc made its heap: a guess, by which room is made for them.
const KEPT_EACH: usize = 5;

/// How many words the segments have behind the head, as far as their offsets tell.
fn words_ahead(segments: &[Segment], head: u64) -> usize {
    let Some(last) = segments.last() else {
        return 0;
    };
    let end = last.offset.saturating_add(last.filesz);
    (end.saturating_sub(head) / 8) as usize
}

/// Makes room for what is kept of so many words, by so many blocks, if there is memory for it. A list that grows is
/// copied, and leaves behind what it had.
fn make_room(sifting: &mut Sifting<'_>, words: usize, blocks: usize)
    ensures { sifting.new ≡ sifting.old }
{
    if sifting
        .reserve(words, blocks.saturating_mul(KEPT_EACH))
        .is_err()
    {
        // it grows as words come
    }
}

/// Sifts the pieces of a core that are left.
fn sift_pieces<T: Threads + Sync, R: ReadCalls>(
    team: &Team<'_, T>,
    reading: Reading,
    reader: &mut R,
    limit: u64,
    sifting: &mut Sifting<'_>,
) -> Result<(), RestFault>
    requires { (first : R) × (bytes : List ℕ)
        × HasComeTo R.calls limit first reader.old reading bytes }
    ensures ok { OnOk result ((more : List ℕ)
        × SiftsRest R.calls limit reader.old reading sifting.old reader.new sifting.new more) }
    ensures refused { IfErr result (LosesRest R.calls limit reader.old reading reader.new) }
{
    let mut ahead = Ahead::new(team.alloc, reading, piece_size(team.workers))?;
    'pieces: while ahead.sift_and_read(team, sifting, reader, limit)? {}
    Ok(())
}

/// Sifts a core behind its head to its end, by the live blocks. Returns its head, what is kept of the words behind it,
/// and how many bytes the core has there.
pub(crate) fn sift_core<T: Threads + Sync, R: ReadCalls>(
    team: &Team<'_, T>,
    front: Front,
    reader: &mut R,
    limit: u64,
    live: &Live,
    skip: Skip,
) -> Result<(Vec<u8>, SparseWords, u64), RestFault>
    requires { (first : R) × IsAtHead R.calls limit first reader.old skip front }
    ensures ok { IfOk result (λ kept. (first : R)
        → IsAtHead R.calls limit first reader.old skip front
        → Keeps R.calls limit first reader.new skip live.now.blocks kept.0.items kept.1 kept.2) }
    ensures refused { IfErr result (λ f. (first : R)
        → IsAtHead R.calls limit first reader.old skip front
        → IsRestFault R.calls limit first reader.new f) }
{
    let Front {
        reading,
        mut held,
        head,
        segments,
    } = front;
    let bytes = held.as_slice();
    are_bytes(bytes);
    let sieve = Sieve::new(live, skip.links);
    let parts = segments.as_slice();
    let mut sifting = Sifting::new(team.alloc, parts, head as u64, sieve);
    make_room(
        &mut sifting,
        words_ahead(parts, head as u64),
        live.blocks().len(),
    );
    sifting.take(team, &bytes[head..])?;
    held.truncate(head);
    sift_pieces(team, reading, reader, limit, &mut sifting)?;
    let (words, len) = sifting.finish();
    Ok((held, words, len))
}
