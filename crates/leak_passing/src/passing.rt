//! A core and its log are read in one pass.

ghost use Rattle.std.specs.Prelude.{◌≡◌, ℕ, List, length, IfOk, IfErr};
ghost use Rattle.leak_replaying.specs.Outcome.{IsOfLog};
ghost use Rattle.leak_passing.specs.Passed.{AreTwo, BeginsBoth, IsPassed, IsPassedByTexts, IsPassingFault, Passes};
ghost use Rattle.leak_passing.specs.Rest.{at_rest};

use crate::begun::{Begun, begin_core};
use crate::fault::{PassingFault, RestFault};
use crate::keeping::keep_core;
use crate::passed::{Passed, PassedByTexts};
use crate::pieces::piece_size;
use leak_replaying::{LogByTexts, replay_reading};
use leak_roots::Skip;
use leak_search::read_log;
use leak_streams::{ReadCalls, read_sized};
use leak_team::Team;
use std::thread::Threads;

/// How many bytes a core and its log may have.
#[derive(Clone, Copy, Debug, PartialEq, Eq)]
pub struct Limits {
    /// The most bytes of the core.
    pub core: u64,
    /// The most bytes of the log.
    pub log: u64,
    /// How many bytes the core is said to have, or 0, as of the log. These sizes change only time and memory.
    pub core_size: u64,
    pub log_size: u64,
}

/// Begins to read a core, and reads its log.
fn begin_both<T: Threads + Sync, R: ReadCalls>(
    team: &Team<'_, T>,
    readers: &mut [R],
    limits: Limits,
    skip: Skip,
) -> Result<(Begun, Vec<u8>), PassingFault>
    requires { length readers.old ≡ 2 }
    ensures ok { IfOk result (λ both. AreTwo readers.old readers.new
        (BeginsBoth R.calls limits skip both.0 both.1.items)) }
    ensures refused { IfErr result (λ fault.
        AreTwo readers.old readers.new (IsPassingFault R.calls limits fault)) }
{
    let alloc = team.alloc;
    let (limit, size) = (limits.core, limits.core_size);
    let piece = piece_size(team.workers);
    let begun = match begin_core(alloc, &mut readers[0], limit, size, piece, skip) {
        Ok(begun) => begun,
        Err(fault) => return Err(PassingFault::Core(fault)),
    };
    match read_sized(alloc, &mut readers[1], limits.log, limits.log_size) {
        Ok(log) => Ok((begun, log)),
        Err(fault) => Err(PassingFault::Log(fault)),
    }
}

/// Begins to read a core, and replays its log while that is read.
fn begin_and_replay<T: Threads + Sync, R: ReadCalls>(
    team: &Team<'_, T>,
    readers: &mut [R],
    limits: Limits,
    skip: Skip,
) -> Result<(Begun, LogByTexts), PassingFault>
    requires { length readers.old ≡ 2 }
    ensures ok { IfOk result (λ both. (log : List ℕ) × IsOfLog skip.freed log both.1
        × AreTwo readers.old readers.new (BeginsBoth R.calls limits skip both.0 log)) }
    ensures refused { IfErr result (λ fault.
        AreTwo readers.old readers.new (IsPassingFault R.calls limits fault)) }
{
    let alloc = team.alloc;
    let (limit, size) = (limits.core, limits.core_size);
    let piece = piece_size(team.workers);
    let begun = match begin_core(alloc, &mut readers[0], limit, size, piece, skip) {
        Ok(begun) => begun,
        Err(fault) => return Err(PassingFault::Core(fault)),
    };
    match replay_reading(
        team,
        &mut readers[1],
        limits.log,
        limits.log_size,
        skip.freed,
    ) {
        Ok(replayed) => Ok((begun, replayed)),
        Err(unread) => Err(PassingFault::Log(unread)),
    }
}

/// The fault of a passing whose log was read to its end, by that of the rest of its core.
fn at_rest(fault: RestFault) -> PassingFault
    ensures { result ≡ at_rest fault }
{
    match fault {
        RestFault::Read(fault) => PassingFault::Core(fault),
        RestFault::Short => PassingFault::NoMemory,
    }
}

/// Reads a core and its log, in one pass over each: the core's head, the log, and then the rest of the core, of which
/// only the words are kept that a search needs. The first reader has the core, the second the log. How many workers the
/// team has changes nothing of what is read and kept.
///
/// A core that can't be sifted is read whole, and so is every core if dead stack is left out. Faults in the core or in
/// the log refuse nothing here.
///
/// # Errors
///
/// `Core` if the core is not read to its end, or if there is no memory for what is kept of it; `Log` if the log is not
/// read to its end. The first that comes, in the order of the reading. `NoMemory` if there is no memory for what is kept
/// of a core whose end was found by then.
pub fn read_passing<T: Threads + Sync, R: ReadCalls>(
    team: &Team<'_, T>,
    readers: &mut [R],
    limits: Limits,
    skip: Skip,
) -> Result<Passed, PassingFault>
    requires { length readers.old ≡ 2 }
    ensures ok { IfOk result (λ passed. AreTwo readers.old readers.new
        (Passes R.calls limits (λ core log. IsPassed core log skip passed))) }
    ensures refused { IfErr result (λ fault.
        AreTwo readers.old readers.new (IsPassingFault R.calls limits fault)) }
{
    let (begun, log) = begin_both(team, readers, limits, skip)?;
    let read = read_log(team.alloc, skip, log.as_slice());
    match keep_core(team, begun, &mut readers[0], limits.core, &read, skip) {
        Ok((held, words, len)) => Ok(Passed {
            held,
            words,
            len,
            log,
            read,
        }),
        Err(fault) => Err(at_rest(fault)),
    }
}

/// Reads a core and its log as [`read_passing`] does, but replays the log while it is read, and holds no more of it than
/// a piece and a line: it keeps the texts of the live blocks' callers in its place.
///
/// # Errors
///
/// Those of [`read_passing`]. Want of memory for the texts refuses nothing here: it counts as want of memory for the
/// log.
pub fn read_passing_by_texts<T: Threads + Sync, R: ReadCalls>(
    team: &Team<'_, T>,
    readers: &mut [R],
    limits: Limits,
    skip: Skip,
) -> Result<PassedByTexts, PassingFault>
    requires { length readers.old ≡ 2 }
    ensures ok { IfOk result (λ passed. AreTwo readers.old readers.new
        (Passes R.calls limits (λ core log. IsPassedByTexts core log skip passed))) }
    ensures refused { IfErr result (λ fault.
        AreTwo readers.old readers.new (IsPassingFault R.calls limits fault)) }
{
    let (begun, LogByTexts { read, texts }) = begin_and_replay(team, readers, limits, skip)?;
    match keep_core(team, begun, &mut readers[0], limits.core, &read, skip) {
        Ok((held, words, len)) => Ok(PassedByTexts {
            held,
            words,
            len,
            texts,
            read,
        }),
        Err(fault) => Err(at_rest(fault)),
    }
}
