//! A log is replayed while it is read, and its callers' texts are kept.

ghost use Rattle.std.specs.Prelude.{◌≡◌, ◌<◌, ◌≤◌, ℕ, List, [], ◌++◌, false, IfOk, IfErr, OnOk, IsTrue};
ghost use Rattle.leak_mtrace.specs.declared.error.LogError.TheVariants.{NoMemory};
ghost use Rattle.leak_mtrace.specs.declared.line.Line.{Line};
ghost use Rattle.leak_blocks.specs.Numbers.{IsStageAfter};
ghost use Rattle.leak_blocks.specs.Windows.{all_blocks_of};
ghost use Rattle.leak_streams.specs.Reads.{IsGivenUp, IsReadWhole};
ghost use Rattle.leak_replaying.specs.declared.replaying.Stop.TheVariants.{Log, Read};
ghost use Rattle.leak_replaying.specs.Outcome.{IsOfLog};
ghost use Rattle.leak_replaying.specs.Replaying.{HasReadTo, IsAtEnd, IsBetween, IsOngoing, IsStoppedBy, IsUnderway};

use crate::finishing::{LogByTexts, finish_or_none};
use crate::log_so_far::LogSoFar;
use crate::sharing::piece_size;
use bumpalo::Bump;
use leak_blocks::{OngoingReplay, Stage, guess_allocations};
use leak_mtrace::LogError;
use leak_streams::{ReadCalls, ReadFault};
use leak_team::Team;
use std::alloc::{AllocError, Global};
use std::thread::Threads;

/// Why a replay ended before the log did.
#[derive(Clone, Copy)]
pub(crate) enum Stop {
    /// The log has a fault, or there was no memory for its blocks.
    Log(LogError),
    /// The log could not be read on.
    Read(ReadFault),
}

impl From<LogError> for Stop {
    ghost from_gives = { λ e stop. stop ≡ Log e };

    fn from(error: LogError) -> Stop {
        Stop::Log(error)
    }
}

impl From<AllocError> for Stop {
    ghost from_gives = { λ _ stop. stop ≡ Log NoMemory };

    fn from(_e: AllocError) -> Stop {
        Stop::Log(LogError::NoMemory)
    }
}

impl From<ReadFault> for Stop {
    ghost from_gives = { λ f stop. stop ≡ Read f };

    fn from(fault: ReadFault) -> Stop {
        Stop::Read(fault)
    }
}

impl LogSoFar {
    /// Reads on and goes over the lines until few of the arena's bytes are left, many allocations may have ended, or the
    /// log ends. Tells whether there may be more lines.
    fn fill<T: Threads + Sync, R: ReadCalls>(
        &mut self,
        team: &Team<'_, T>,
        ongoing: &mut OngoingReplay<'_>,
        arena: &Bump,
        reader: &mut R,
        limit: u64,
    ) -> Result<bool, Stop>
        requires { (first : R) × (lines : List Line)
            × IsOngoing R.calls limit first reader.old self.old lines ongoing.old }
        ensures ok { IfOk result (λ _. (first : R) (lines : List Line)
            → IsOngoing R.calls limit first reader.old self.old lines ongoing.old
            → (later : List Line) × IsOngoing R.calls limit first reader.new self.new later ongoing.new) }
        ensures not_back { IfOk result (λ _. self.old.at.bytes ≤ self.new.at.bytes) }
        ensures further { IfOk result (λ more. IsTrue more → self.old.at.bytes < self.new.at.bytes) }
        ensures end { IfOk result (λ more. more ≡ false → IsAtEnd self.new) }
        ensures spans { IfOk result (λ _. self.new.spans ≡ self.old.spans) }
        ensures stopped { IfErr result (λ stop. (first : R) (lines : List Line)
            → IsOngoing R.calls limit first reader.old self.old lines ongoing.old
            → IsStoppedBy R.calls limit first reader.new self.new stop) }
    {
        let before = self.at.bytes;
        loop {
            if self.go_over(team, ongoing, arena)? {
                return Ok(true);
            }
            if self.ended {
                return Ok(false);
            }
            if self.at.bytes > before && self.have_many_ended() {
                return Ok(true);
            }
            self.read_lines(reader, limit)?;
        }
    }
}

/// A replay before the first line, with room for so many allocations. If there is no memory for that, it has none: the size
/// of a log that is said is no promise, so it refuses nothing.
fn first_stage(alloc: Global, guess: usize) -> Result<Stage, AllocError>
    ensures after { IfOk result (λ stage. IsStageAfter [] stage) }
    ensures allocated { IfOk result (λ stage. all_blocks_of stage ≡ []) }
{
    match Stage::new(alloc, guess) {
        Ok(stage) => Ok(stage),
        Err(_) => Stage::new(alloc, 0),
    }
}

/// An arena for the replay, with room for so many allocations, and for eight times the live ones: all are placed in each
/// arena. If there is no memory for that, it has room for as many as it needs.
fn arena_for(stage: &Stage, alloc: Global, guess: usize) -> Result<Bump, AllocError> {
    let live = stage.numbers().len();
    match stage.arena(alloc, guess.max(live.saturating_mul(8))) {
        Ok(arena) => Ok(arena),
        Err(_) => stage.arena(alloc, 0),
    }
}

/// Goes on with a replay until an arena is full, or the log has ended, and lets go of allocations that ended. Tells whether
/// there may be more lines.
fn replay_on<T: Threads + Sync, R: ReadCalls>(
    team: &Team<'_, T>,
    guess: usize,
    stage: Stage,
    log: &mut LogSoFar,
    reader: &mut R,
    limit: u64,
) -> Result<(Stage, bool), Stop>
    requires { (first : R) × (lines : List Line)
        × IsBetween R.calls limit first reader.old log.old lines stage }
    ensures ok { IfOk result (λ on. (first : R) (lines : List Line)
        → IsBetween R.calls limit first reader.old log.old lines stage
        → (later : List Line) × IsBetween R.calls limit first reader.new log.new later on.0) }
    ensures not_back { IfOk result (λ _. log.old.at.bytes ≤ log.new.at.bytes) }
    ensures further { IfOk result (λ on. IsTrue on.1 → log.old.at.bytes < log.new.at.bytes) }
    ensures end { IfOk result (λ on. on.1 ≡ false → IsAtEnd log.new) }
    ensures spans { IfOk result (λ _. log.new.spans ≡ log.old.spans) }
    ensures stopped { IfErr result (λ stop. (first : R) (lines : List Line)
        → IsBetween R.calls limit first reader.old log.old lines stage
        → IsStoppedBy R.calls limit first reader.new log.new stop) }
{
    let arena = arena_for(&stage, team.alloc, guess)?;
    let mut ongoing = stage.begin(&arena)?;
    let more = log.fill(team, &mut ongoing, &arena, reader, limit)?;
    let stage = ongoing.end()?;
    Ok((log.let_go(team.alloc, stage, more)?, more))
}

/// Replays a log while it is read from the reader, to its end.
fn replay_log<T: Threads + Sync, R: ReadCalls>(
    team: &Team<'_, T>,
    log: &mut LogSoFar,
    reader: &mut R,
    limit: u64,
    size: u64,
) -> Result<Stage, Stop>
    requires open { log.old.ended ≡ false }
    requires begun { (first : R) × IsUnderway R.calls limit first reader.old log.old [] [] }
    ensures ok { IfOk result (λ stage. (first : R)
        → IsUnderway R.calls limit first reader.old log.old [] []
        → (lines : List Line) × IsBetween R.calls limit first reader.new log.new lines stage) }
    ensures end { IfOk result (λ _. IsAtEnd log.new) }
    ensures spans { IfOk result (λ _. log.new.spans ≡ log.old.spans) }
    ensures stopped { IfErr result (λ stop. (first : R)
        → IsUnderway R.calls limit first reader.old log.old [] []
        → IsStoppedBy R.calls limit first reader.new log.new stop) }
{
    log.read_lines(reader, limit)?;
    let guess = guess_allocations(log.window.as_slice(), size as usize);
    let mut stage = first_stage(team.alloc, guess)?;
    let mut more = true;
    while more {
        let (later, may_go_on) = replay_on(team, guess, stage, log, reader, limit)?;
        stage = later;
        more = may_go_on;
    }
    Ok(stage)
}

/// Reads a log to its end, and keeps nothing of it.
fn read_rest<R: ReadCalls>(log: LogSoFar, reader: &mut R, limit: u64) -> Result<(), ReadFault>
    requires { (first : R) × (bytes : List ℕ)
        × HasReadTo R.calls limit first reader.old log.reading log.ended bytes }
    ensures ok { OnOk result ((more : List ℕ) × ((first : R) (bytes : List ℕ)
        → HasReadTo R.calls limit first reader.old log.reading log.ended bytes
        → IsReadWhole R.calls limit first reader.new (bytes ++ more))) }
    ensures refused { IfErr result (λ f. (first : R) (bytes : List ℕ)
        → HasReadTo R.calls limit first reader.old log.reading log.ended bytes
        → IsGivenUp R.calls limit first reader.new f) }
{
    if log.ended {
        return Ok(());
    }
    let mut reading = log.reading;
    'pieces: while reading.next_piece(reader, limit)? {}
    Ok(())
}

/// Reads a log and replays it, and keeps the texts of its live blocks' callers, but none of its bytes. `spans` says whether
/// the addresses of small allocations are wanted, as far as they are outside the live blocks. The log is said to have
/// `size` bytes, which changes only time and memory. A fault of the log refuses nothing here, nor does want of memory for
/// its blocks: the log is read to its end all the same. How many workers the team has changes nothing of what is read.
///
/// # Errors
///
/// Why the log was not read to its end.
pub fn replay_reading<T: Threads + Sync, R: ReadCalls>(
    team: &Team<'_, T>,
    reader: &mut R,
    limit: u64,
    size: u64,
    spans: bool,
) -> Result<LogByTexts, ReadFault>
    ensures ok { IfOk result (λ by_texts. (log : List ℕ) × IsOfLog spans log by_texts
        × IsReadWhole R.calls limit reader.old reader.new log) }
    ensures refused { IfErr result (IsGivenUp R.calls limit reader.old reader.new) }
{
    let alloc = team.alloc;
    let mut log = LogSoFar::begin::<R>(alloc, spans, piece_size(team.workers))?;
    match replay_log(team, &mut log, reader, limit, size) {
        Ok(stage) => Ok(finish_or_none(alloc, stage, log)),
        Err(Stop::Read(fault)) => Err(fault),
        Err(Stop::Log(error)) => {
            read_rest(log, reader, limit)?;
            Ok(LogByTexts::unread(alloc, error))
        }
    }
}
