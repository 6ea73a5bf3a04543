//! A log as far as it was read and replayed.

ghost use Rattle.std.specs.Prelude.{◌≡◌, ◌≢◌, ◌+◌, ◌^◌, ◌<◌, ◌≤◌, ◌++◌, ℕ, List, [], false, length, take, IfOk, IfErr, OnOk};
ghost use Rattle.std.specs.List.{AllByRecursion};
ghost use Rattle.leak_mtrace.specs.declared.line.Line.{Line};
ghost use Rattle.leak_mtrace.specs.Log.{IsFirstFault};
ghost use Rattle.leak_blocks.specs.Numbers.{IsStageAfter};
ghost use Rattle.leak_blocks.specs.Runs.{IsOngoingAfter};
ghost use Rattle.leak_streams.specs.Pieces.{GivesUp, HasComeTo};
ghost use Rattle.leak_replaying.specs.Numbering.{IsBehind, NumbersMore};
ghost use Rattle.leak_replaying.specs.Replaying.{HasPassed, HoldsMore, PassesOn, ReadsOn, left};

use crate::numbering::{drop_front, number_callers};
use crate::sharing::go_on;
use bumpalo::Bump;
use leak_blocks::{Block, LogPlace, OngoingReplay, Stage};
use leak_mtrace::LogError;
use leak_streams::{ReadCalls, ReadFault, Reading};
use leak_team::Team;
use leak_texts::{TextTable, gather};
use memchr::memchr;
use std::alloc::{AllocError, Global};
use std::thread::Threads;

/// How many lines that allocate nothing come at least before allocations are let go. Own rule: an allocation takes some
/// 100 bytes with its node, and letting go takes time for each live block.
const MANY: usize = 16_384;

/// How far a log was replayed when it was last between two arenas.
#[derive(Clone, Copy)]
pub(crate) struct LastStage {
    /// How many lines came before.
    pub(crate) lines: usize,
    /// How many allocations were held.
    pub(crate) held: usize,
}

/// A log that is replayed while it is read. Of its bytes only those behind the last line so far are held.
#[derive(Drop)]
pub(crate) struct LogSoFar {
    /// Whether spans are wanted of the small allocations. Then none of them is let go.
    pub(crate) spans: bool,
    pub(crate) reading: Reading,
    /// Whether the log's end was found.
    pub(crate) ended: bool,
    /// The bytes behind the last line that was gone over.
    pub(crate) window: Vec<u8>,
    /// Where these bytes begin.
    pub(crate) at: LogPlace,
    /// The texts of the callers of all allocations so far.
    pub(crate) texts: TextTable,
    /// For each allocation that is held the number of its caller's text.
    pub(crate) numbers: Vec<u32>,
    pub(crate) last: LastStage,
}

/// Reads pieces behind the bytes that are held, until one has a line feed, so that a long line is looked through once.
/// Tells whether the log has ended.
fn read_pieces<R: ReadCalls>(
    reading: &mut Reading,
    reader: &mut R,
    limit: u64,
    held: &mut Vec<u8>,
) -> Result<bool, ReadFault>
    requires { (first : R) × (bytes : List ℕ)
        × HasComeTo R.calls limit first reader.old reading.old bytes }
    ensures ok { IfOk result (λ ended. HoldsMore R.calls limit reader.old reading.old held.old.items
        reader.new reading.new ended held.new.items) }
    ensures nearer { IfOk result (λ ended.
        left limit reading.new ended < left limit reading.old false) }
    ensures refused { IfErr result (GivesUp R.calls limit reader.old reading.old reader.new) }
{
    'pieces: while reading.next_piece(reader, limit)? {
        let piece = reading.piece();
        held.extend_from_slice(piece)?;
        if memchr(b'\n', piece).is_some() {
            return Ok(false);
        }
    }
    Ok(true)
}

impl LogSoFar {
    /// Before the first read, of so many bytes at a time.
    pub(crate) fn begin<R: ReadCalls>(
        alloc: Global,
        spans: bool,
        piece: usize,
    ) -> Result<LogSoFar, AllocError>
        ensures spans { IfOk result (λ log. log.spans ≡ spans) }
        ensures come { IfOk result (λ log. (limit : ℕ) (reader : R)
            → HasComeTo R.calls limit reader reader log.reading []) }
        ensures none { IfOk result (λ log. HasPassed log [] [] []) }
        ensures open { IfOk result (λ log. log.ended ≡ false) }
        ensures empty { IfOk result (λ log. log.window.items ≡ []) }
    {
        Ok(LogSoFar {
            spans,
            reading: Reading::begin::<R>(alloc, piece)?,
            ended: false,
            window: Vec::new(alloc),
            at: LogPlace { bytes: 0, lines: 0 },
            texts: TextTable::new(alloc),
            numbers: Vec::new(alloc),
            last: LastStage { lines: 0, held: 0 },
        })
    }

    /// Reads on until a line feed was read, or the log's end was found.
    pub(crate) fn read_lines<R: ReadCalls>(
        &mut self,
        reader: &mut R,
        limit: u64,
    ) -> Result<(), ReadFault>
        requires open { self.old.ended ≡ false }
        requires begun { (first : R) × (bytes : List ℕ)
            × HasComeTo R.calls limit first reader.old self.old.reading bytes }
        ensures ok { OnOk result (ReadsOn R.calls limit reader.old self.old reader.new self.new) }
        ensures refused { IfErr result (GivesUp R.calls limit reader.old self.old.reading reader.new) }
    {
        self.ended = read_pieces(&mut self.reading, reader, limit, &mut self.window)?;
        Ok(())
    }

    /// Numbers the texts of the callers of these blocks, which are in the first so many bytes that are held.
    fn number_front(&mut self, blocks: &[Block], len: usize) -> Result<(), AllocError>
        requires within { len ≤ length self.old.window.items }
        requires behind { AllByRecursion (λ b. IsBehind self.old.at.bytes len b.caller) blocks.now }
        ensures numbered { OnOk result (NumbersMore self.old.at.bytes
            (take len self.old.window.items) blocks.now self.old.texts self.old.numbers.items
            self.new.texts self.new.numbers.items) }
        ensures window { self.new.window ≡ self.old.window }
        ensures at { self.new.at ≡ self.old.at }
        ensures reading { self.new.reading ≡ self.old.reading }
        ensures ended { self.new.ended ≡ self.old.ended }
        ensures spans { self.new.spans ≡ self.old.spans }
    {
        let before = self.at.bytes;
        let window = &self.window[..len];
        number_callers(&mut self.texts, &mut self.numbers, blocks, window, before)
    }

    /// Goes over the complete lines that are held, and numbers their callers' texts, until few of the arena's bytes are
    /// left. Tells whether there may be more lines.
    pub(crate) fn go_over<T: Threads + Sync>(
        &mut self,
        team: &Team<'_, T>,
        ongoing: &mut OngoingReplay<'_>,
        arena: &Bump,
    ) -> Result<bool, LogError>
        requires fits { self.old.at.bytes + length self.old.window.items < 2 ^ 64 }
        requires so_far { (passed : List ℕ) × (lines : List Line)
            × HasPassed self.old passed lines ongoing.old.allocated.items
            × IsOngoingAfter lines ongoing.old }
        ensures ok { IfOk result (λ more. (passed : List ℕ) (lines : List Line)
            → HasPassed self.old passed lines ongoing.old.allocated.items
            → IsOngoingAfter lines ongoing.old
            → PassesOn self.old passed more self.new ongoing.new) }
        ensures refused { IfErr result (λ e. e ≢ LogError.NoMemory → (passed : List ℕ) (lines : List Line)
            → HasPassed self.old passed lines ongoing.old.allocated.items
            → IsFirstFault (passed ++ self.old.window.items) e) }
        ensures reading { self.new.reading ≡ self.old.reading }
        ensures ended { self.new.ended ≡ self.old.ended }
        ensures spans { self.new.spans ≡ self.old.spans }
    {
        let before = ongoing.allocated().len();
        let (at, more) = go_on(team, ongoing, arena, self.window.as_slice(), self.at)?;
        let len = at.bytes - self.at.bytes;
        self.number_front(&ongoing.allocated()[before..], len)?;
        drop_front(&mut self.window, len);
        self.at = at;
        Ok(more)
    }

    /// Whether so many lines that allocate nothing came since the last arena was begun that half of the allocations may have
    /// ended that are held, unless spans are wanted of them.
    pub(crate) fn have_many_ended(&self) -> bool {
        let held = self.numbers.len();
        let lines = self.at.lines.saturating_sub(self.last.lines);
        let others = lines.saturating_sub(held.saturating_sub(self.last.held));
        !self.spans && others >= MANY.max(held / 2)
    }

    /// Lets go of the allocations that lines so far end, with the numbers of their texts, if these are half of them, more
    /// lines may come, and no spans are wanted.
    pub(crate) fn let_go(
        &mut self,
        alloc: Global,
        stage: Stage,
        more: bool,
    ) -> Result<Stage, AllocError>
        requires { (passed : List ℕ) × (lines : List Line)
            × HasPassed self.old passed lines stage.allocated.items × IsStageAfter lines stage }
        ensures ok { IfOk result (λ later. (passed : List ℕ) (lines : List Line)
            → HasPassed self.old passed lines stage.allocated.items → IsStageAfter lines stage
            → HasPassed self.new passed lines later.allocated.items × IsStageAfter lines later) }
        ensures window { self.new.window ≡ self.old.window }
        ensures at { self.new.at ≡ self.old.at }
        ensures reading { self.new.reading ≡ self.old.reading }
        ensures ended { self.new.ended ≡ self.old.ended }
        ensures spans { self.new.spans ≡ self.old.spans }
    {
        let are_live = stage.numbers().len() > self.numbers.len() / 2;
        self.last.lines = self.at.lines;
        self.last.held = self.numbers.len();
        if self.spans || are_live || !more {
            return Ok(stage);
        }
        self.last.held = stage.numbers().len();
        self.numbers = gather(alloc, self.numbers.as_slice(), stage.numbers())?;
        let live = stage.without_ended(alloc)?;
        Ok(live)
    }
}
