//! Going over a log, line by line.
ghost use Rattle.std.specs.Prelude.{◌≡◌, ◌≢◌, ◌<◌, ◌≤◌, List, length, take, IfOk, IfErr, IsTrue};
ghost use Rattle.leak_mtrace.specs.declared.line.Line.{Line};
ghost use Rattle.leak_mtrace.specs.Log.{LinesFit, IsFirstFault};
ghost use Rattle.leak_mtrace.specs.Reading.{HasReadAll};
ghost use Rattle.leak_blocks.specs.Live.{is_allocation, is_give_back, replay_of};
ghost use Rattle.leak_blocks.specs.Numbers.{IsStageAfter};
ghost use Rattle.leak_blocks.specs.Outcome.{ComesTo, IsReplayOf, IsSpannedReplayOf};
ghost use Rattle.leak_blocks.specs.Runs.{IsOngoingAfter, AreAtEnd, HaveRead, HaveReadOn};

use crate::live::Live;
use crate::ongoing_replay::OngoingReplay;
use crate::small::SmallSpans;
use crate::stage::{Stage, arena_bytes};
use bumpalo::Bump;
use leak_mtrace::{Kind, Line, Log, LogError, Reader};
use memchr::memchr_iter;
use std::alloc::{AllocError, Global};

/// Whether the line allocates a block.
pub(crate) fn is_allocation(line: &Line) -> bool
    ensures { result ≡ is_allocation line.now }
{
    matches!(line.kind, Kind::Alloc | Kind::MoveIn) && line.addr != 0
}

/// Whether the line gives a block back.
pub(crate) fn is_give_back(line: &Line) -> bool
    ensures { result ≡ is_give_back line.now }
{
    matches!(line.kind, Kind::Free | Kind::MoveOut) && line.addr != 0
}

impl OngoingReplay<'_> {
    /// Goes over the next line, and then over others until few of the arena's bytes are left. Returns how many lines it has
    /// gone over then.
    fn go_over(&mut self, arena: &Bump, lines: &[Line], next: usize) -> Result<usize, AllocError>
        requires in_log { next < length lines.now }
        requires fit { LinesFit lines.now }
        requires so_far { IsOngoingAfter (take next lines.now) self.old }
        ensures later { IfOk result
            (λ later. (next < later) × (later ≤ length lines.now)) }
        ensures after { IfOk result (λ later. IsOngoingAfter (take later lines.now) self.new) }
    {
        let mut at = next;
        loop {
            let line = lines[at];
            at += 1;
            self.step(&line, at)?;
            if at == lines.len() || self.is_full(arena) {
                return Ok(at);
            }
        }
    }

    /// Goes over the next lines of the reader until few of the arena's bytes are left. Returns whether there may be more.
    fn read_on(&mut self, arena: &Bump, reader: &mut Reader<'_>) -> Result<bool, LogError>
        requires so_far { HaveRead reader.old self.old }
        ensures bytes { reader.new.bytes ≡ reader.old.bytes }
        ensures after { IfOk result (λ more. HaveReadOn more reader.new self.new) }
        ensures later { IfOk result
            (λ more. IsTrue more → reader.old.count < reader.new.count) }
        ensures refused { IfErr result
            (λ e. e ≢ LogError.NoMemory → IsFirstFault reader.old.bytes e) }
    {
        loop {
            let Some(line) = reader.next_line()? else {
                return Ok(false);
            };
            self.step(&line, reader.count())?;
            if self.is_full(arena) {
                return Ok(true);
            }
        }
    }
}

/// The number of lines that allocate a block.
fn allocations(lines: &[Line]) -> usize {
    let mut allocations = 0usize;
    for line in lines {
        allocations = allocations.saturating_add(usize::from(is_allocation(line)));
    }
    allocations
}

/// Goes over all lines.
fn replay_lines(alloc: Global, lines: &[Line]) -> Result<Live, AllocError>
    requires { LinesFit lines.now }
    ensures { IfOk result (λ live. live ≡ replay_of lines.now) }
{
    let allocations = allocations(lines);
    let mut stage = Stage::new(alloc, allocations)?;
    let mut next = 0;
    while next < lines.len() {
        let arena = Bump::try_with_capacity(alloc, arena_bytes(allocations))?;
        let mut ongoing = stage.begin(&arena)?;
        next = ongoing.go_over(&arena, lines, next)?;
        stage = ongoing.end()?;
    }
    stage.live(alloc)
}

/// Finds the live blocks of a log. It is for libraries and tests: the program goes by [`replay_bytes`].
pub fn replay(alloc: Global, log: &Log) -> Result<Live, AllocError>
    ensures { IfOk result (λ live. live ≡ replay_of log.now.lines) }
{
    replay_lines(alloc, log.lines())
}

/// What the bytes of a log come to.
#[derive(Drop)]
pub struct Replayed {
    /// The live blocks.
    pub live: Live,
    /// How many lines are torn: 1 if something follows the last line feed, and 0 otherwise.
    pub torn: u64,
    /// How many bytes the complete lines take, the last line feed included.
    pub whole_len: usize,
}

/// The bytes at a log's front by which its lines are guessed.
const FRONT_BYTES: usize = 65_536;

/// The fewest bytes of a line that allocates: `+ 0x1 0` and a line feed.
const LEAST_BYTES: usize = 8;

/// A guess of how many lines of a log of this length allocate a block: the lines of its front, for its length, and an
/// eighth more. The front is the log's first 65,536 bytes, or all of a shorter log; what it has behind these doesn't count.
///
/// Only memory depends on it. If there are more, lists grow and the arena is replaced.
pub fn guess_allocations(front: &[u8], len: usize) -> usize {
    let front = &front[..front.len().min(FRONT_BYTES)];
    let lines = memchr_iter(b'\n', front).count();
    let fronts = len.div_ceil(FRONT_BYTES);
    let all = lines.saturating_mul(fronts);
    all.saturating_add(all / 8).min(len / LEAST_BYTES)
}

/// Reads a log and goes over all its lines. Returns the replay and the reader, which have come to its end.
fn go_through(alloc: Global, bytes: &[u8]) -> Result<(Stage, Reader<'_>), LogError>
    ensures bytes { IfOk result (λ ended. ended.1.bytes ≡ bytes.now) }
    ensures after { IfOk result (λ ended. AreAtEnd ended.1 ended.0) }
    ensures refused { IfErr result (λ e. e ≢ LogError.NoMemory → IsFirstFault bytes.now e) }
{
    let guess = guess_allocations(bytes, bytes.len());
    let mut reader = Reader::new(bytes);
    let mut stage = Stage::new(alloc, guess)?;
    let mut more = true;
    while more {
        let arena = stage.arena(alloc, guess)?;
        let mut ongoing = stage.begin(&arena)?;
        more = ongoing.read_on(&arena, &mut reader)?;
        stage = ongoing.end()?;
    }
    Ok((stage, reader))
}

/// What the log comes to, when the replay and the reader have come to its end.
fn outcome_of(alloc: Global, stage: Stage, reader: &Reader<'_>) -> Result<Replayed, AllocError>
    requires { AreAtEnd reader.now stage }
    ensures { IfOk result (λ replayed. (lines : List Line) → HasReadAll reader.now lines
        → IsStageAfter lines stage → ComesTo reader.now.bytes lines replayed) }
{
    Ok(Replayed {
        live: stage.live(alloc)?,
        torn: reader.torn(),
        whole_len: reader.whole_len(),
    })
}

/// Reads a log and finds its live blocks, or gives its first fault: what [`Log::read`] and [`replay`] do one after the other. It
/// keeps no lines, and 40 bytes for each allocation.
pub fn replay_bytes(alloc: Global, bytes: &[u8]) -> Result<Replayed, LogError>
    ensures ok { IfOk result (IsReplayOf bytes.now) }
    ensures refused { IfErr result (λ e. e ≢ LogError.NoMemory → IsFirstFault bytes.now e) }
{
    let (stage, reader) = go_through(alloc, bytes)?;
    Ok(outcome_of(alloc, stage, &reader)?)
}

/// [`replay_bytes`], and with it the addresses of the log's small allocations outside the live blocks, as
/// [`small_spans`](crate::small_spans) finds them. Of the addresses in live blocks it may give some. They are made of
/// the blocks of all allocations, so that no lines are kept here either.
///
/// While they are found it takes one byte for each allocation, 16 for each that is not live, and as much again for each
/// small one of these unless they ascend.
pub fn replay_with_spans(alloc: Global, bytes: &[u8]) -> Result<(Replayed, SmallSpans), LogError>
    ensures ok { IfOk result (IsSpannedReplayOf bytes.now) }
    ensures refused { IfErr result (λ e. e ≢ LogError.NoMemory → IsFirstFault bytes.now e) }
{
    let (stage, reader) = go_through(alloc, bytes)?;
    let small = stage.small_spans(alloc)?;
    Ok((outcome_of(alloc, stage, &reader)?, small))
}
