//! The lines of a window are read side by side. No other file of the crate starts threads.
ghost use Rattle.std.specs.Prelude.{◌≡◌, ◌≢◌, ◌+◌, ◌^◌, ◌<◌, ◌≤◌, length, IfOk, IfErr, IfSome};
ghost use Rattle.leak_mtrace.specs.Log.{IsReadAs, whole_len_of};
ghost use Rattle.leak_blocks.specs.Runs.{HasComeTo};
ghost use Rattle.leak_blocks.specs.Windows.{AreReadInParts, GoesOn, IsLaterFault};

use bumpalo::Bump;
use leak_blocks::{LogPlace, OngoingReplay, guess_allocations};
use leak_mtrace::{Log, LogError};
use leak_team::Team;
use memchr::memrchr;
use std::alloc::Global;
use std::thread::{Threads, join};

/// How many bytes of a log are read at a time for each worker: 256 KiB. Own rule: they and their copy fit a processor's
/// second cache, and take some times as long as the start of a thread.
const PIECE: usize = 262_144;

/// How many bytes are read at a time at most, since all of them are held: 2 MiB.
const MOST_PIECE: usize = 2_097_152;

/// How many bytes of a log are read at a time, if so many workers read their lines.
pub(crate) fn piece_size(workers: u32) -> usize {
    (workers.max(1) as usize * PIECE).min(MOST_PIECE)
}

/// How many bytes the complete lines take.
fn whole_len(bytes: &[u8]) -> usize
    ensures { result ≡ whole_len_of bytes.now }
{
    match memrchr(b'\n', bytes) {
        Some(at) => at + 1,
        None => 0,
    }
}

/// The lines of the bytes, as one part.
fn read_part(alloc: Global, bytes: &[u8]) -> Result<Vec<Log>, LogError>
    ensures { IfOk result (λ parts. AreReadInParts bytes.now parts.items) }
{
    let mut parts = Vec::new(alloc);
    parts.push(Log::read(alloc, bytes)?)?;
    Ok(parts)
}

/// The same, by so many workers of the team: the last part is read in a new thread, those before it from here.
fn read_parts<T: Threads + Sync>(
    team: &Team<'_, T>,
    bytes: &[u8],
    count: u32,
) -> Result<Vec<Log>, LogError>
    ensures { IfOk result (λ parts. AreReadInParts bytes.now parts.items) }
{
    let alloc = team.alloc;
    if count < 2 {
        return read_part(alloc, bytes);
    }
    let first = &bytes[..bytes.len() - bytes.len() / count as usize];
    let (front, back) = bytes.split_at(whole_len(first));
    let left = count - 1;
    let of_back = move || -> Result<Log, LogError>
        ensures { IfOk result (λ log. IsReadAs back.entry.now log) }
    { Log::read(alloc, back) };
    let of_front = move || -> Result<Vec<Log>, LogError>
        ensures { IfOk result (λ parts. AreReadInParts front.entry.now parts.items) }
    { read_parts(team, front, left) };
    let (last, others) = join(team.rt, of_back, of_front);
    let mut parts = others?;
    parts.push(last?)?;
    Ok(parts)
}

/// How many lines the parts have.
fn count_lines(parts: &[Log]) -> usize {
    let mut count = 0usize;
    for part in parts {
        count = count.saturating_add(part.lines().len());
    }
    count
}

/// The lines of a window, read by the team, if it is long, has no fault, and the arena has room for them. A fault is found again,
/// and told, by who goes over the lines one by one.
fn read_ahead<T: Threads + Sync>(
    team: &Team<'_, T>,
    ongoing: &OngoingReplay<'_>,
    arena: &Bump,
    window: &[u8],
) -> Option<Vec<Log>>
    ensures { IfSome result (λ parts. AreReadInParts window.now parts.items) }
{
    let count = (window.len() / PIECE).min(team.workers as usize) as u32;
    if count < 2 || !ongoing.has_room_for(arena, guess_allocations(window, window.len())) {
        return None;
    }
    let Ok(parts) = read_parts(team, window, count) else {
        return None;
    };
    if !ongoing.has_room_for(arena, count_lines(parts.as_slice())) {
        return None;
    }
    Some(parts)
}

/// Goes over the complete lines of a window, as [`OngoingReplay::go_on`] does. The team reads them if they are many.
pub(crate) fn go_on<T: Threads + Sync>(
    team: &Team<'_, T>,
    ongoing: &mut OngoingReplay<'_>,
    arena: &Bump,
    window: &[u8],
    from: LogPlace,
) -> Result<(LogPlace, bool), LogError>
    requires fits { from.bytes + length window.now < 2 ^ 64 }
    requires few { from.lines ≤ from.bytes }
    requires so_far { HasComeTo (from.lines + 1) ongoing.old }
    ensures ok { IfOk result (λ gone.
        GoesOn window.now from gone.0 gone.1 ongoing.old ongoing.new) }
    ensures refused { IfErr result
        (λ e. e ≢ LogError.NoMemory → IsLaterFault from.lines window.now e) }
{
    match read_ahead(team, ongoing, arena, window) {
        Some(parts) => Ok((ongoing.go_on_read(parts.as_slice(), from)?, false)),
        None => ongoing.go_on(arena, window, from),
    }
}
