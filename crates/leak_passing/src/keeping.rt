//! What is kept of a core, by the log as it was read.

ghost use Rattle.std.specs.Prelude.{◌≡◌, [], IfOk, IfErr};
ghost use Rattle.leak_passing.specs.Begun.{IsAtHead, IsBegun};
ghost use Rattle.leak_passing.specs.Kept.{Keeps};
ghost use Rattle.leak_passing.specs.Rest.{IsRestFault};
ghost use Rattle.leak_replaying.specs.Texts.{blocks_of};

use crate::begun::{Begun, Front};
use crate::fault::RestFault;
use crate::sifted::sift_core;
use leak_blocks::{Live, Replayed, SmallSpans, replay_bytes};
use leak_mtrace::LogError;
use leak_roots::Skip;
use leak_sparse::SparseWords;
use leak_streams::ReadCalls;
use leak_team::Team;
use std::alloc::{AllocError, Global};
use std::thread::Threads;

/// The live blocks of an empty log: none.
fn no_blocks(alloc: Global) -> Result<Live, AllocError>
    ensures { IfOk result (λ live. live.blocks ≡ []) }
{
    match replay_bytes(alloc, &[]) {
        Ok(replayed) => Ok(replayed.live),
        Err(_) => Err(AllocError),
    }
}

/// Sifts a core behind its head by the log as it was read: if the log has a fault, no word is kept.
fn sift_by_log<T: Threads + Sync, R: ReadCalls>(
    team: &Team<'_, T>,
    front: Front,
    reader: &mut R,
    limit: u64,
    read: &Result<(Replayed, SmallSpans), LogError>,
    skip: Skip,
) -> Result<(Vec<u8>, SparseWords, u64), RestFault>
    requires { (first : R) × IsAtHead R.calls limit first reader.old skip front }
    ensures ok { IfOk result (λ kept. (first : R)
        → IsAtHead R.calls limit first reader.old skip front
        → Keeps R.calls limit first reader.new skip (blocks_of read.now)
        kept.0.items kept.1 kept.2) }
    ensures refused { IfErr result (λ f. (first : R)
        → IsAtHead R.calls limit first reader.old skip front
        → IsRestFault R.calls limit first reader.new f) }
{
    match read {
        Ok(parts) => sift_core(team, front, reader, limit, &parts.0.live, skip),
        Err(_) => {
            let none = no_blocks(team.alloc)?;
            sift_core(team, front, reader, limit, &none, skip)
        }
    }
}

/// Reads the rest of a core that was begun, and returns what is kept of it, by the log as it was read.
pub(crate) fn keep_core<T: Threads + Sync, R: ReadCalls>(
    team: &Team<'_, T>,
    begun: Begun,
    reader: &mut R,
    limit: u64,
    read: &Result<(Replayed, SmallSpans), LogError>,
    skip: Skip,
) -> Result<(Vec<u8>, SparseWords, u64), RestFault>
    requires { (first : R) × IsBegun R.calls limit first reader.old skip begun }
    ensures ok { IfOk result (λ kept. (first : R)
        → IsBegun R.calls limit first reader.old skip begun
        → Keeps R.calls limit first reader.new skip (blocks_of read.now)
        kept.0.items kept.1 kept.2) }
    ensures refused { IfErr result (λ f. (first : R)
        → IsBegun R.calls limit first reader.old skip begun
        → IsRestFault R.calls limit first reader.new f) }
{
    match begun {
        Begun::Whole(bytes) => Ok((bytes, SparseWords::new(team.alloc), 0)),
        Begun::Head(front) => sift_by_log(team, front, reader, limit, read, skip),
    }
}
