//! The marks that threads share: one bit for each block, in words that change by single atomic steps.
ghost use Rattle.std.specs.Prelude.{◌≡◌, ℕ, ◌<◌, ◌≤◌, [], length, IfOk, IfSome, IfNone, IsTrue, false};
ghost use Rattle.std.specs.Slots.{slots_items, IsFull};
ghost use Rattle.leak_marks.specs.Lists.{times, Has, Within, mark_of, word_count};
ghost use Rattle.leak_marks.specs.Seats.{held, with_claim, with_sight, kept_rest, split_off, both_seats, IsSound};

use crate::bits::{bit_of, count_for, is_set, word_of};
use crate::rule::{Both, Check, Claim, Look, MarkRule, SplitOff, Target};
use crate::seat::MarkSeat;
use crate::view::View;
use atomic_table::{Closed, Table};
use std::alloc::{AllocError, Global};
use std::marker::{Brand, Model};

type Words = Table<(), View, u32, MarkRule, Global>;

/// One mark for each block. Contracts see which table it is, and the number of blocks.
#[derive(Drop)]
pub struct Marks {
    words: Words,
}

impl Model for Marks {
    ghost use Rattle.std.specs.Prelude.{◌≡◌};
    ghost use Rattle.leak_marks.specs.Lists.{word_count};
    ghost use Rattle.leak_marks.specs.Seats.{TableOf};

    ghost Value = { TableOf };

    ghost view = { λ m. record { table = m.words.shared.table_id; blocks = m.words.shared.key } };

    ghost invariant = { λ m. (m.words.shared.table_id.words ≡ word_count m.words.shared.key)
        × (m.words.shared.table_id.slots ≡ 0) };
}

impl Marks {
    /// Makes a table in which no block is marked, and its first seat, which has the whole share.
    pub fn new(alloc: Global, blocks: u32) -> Result<(Marks, MarkSeat), AllocError>
        ensures { IfOk result (λ r.
            (r.0.blocks ≡ blocks) × (r.1 ≡ held r.0.table [] [] 4294967296)) }
    {
        let zeros = vec![in alloc; 0u64; count_for(blocks)]?;
        let (words, seat) = Table::of_words(alloc, zeros.as_slice(), &blocks)?;
        Ok((
            Marks { words },
            MarkSeat {
                seat,
                share: 4_294_967_296,
            },
        ))
    }

    /// Claims a block by one `fetch_or`. True if no other claim of it came before, in any seat.
    pub fn claim(&self, seat: &mut MarkSeat, block: u32) -> bool
        requires table { seat.old.table ≡ self.now.table }
        requires block { block < self.now.blocks }
        ensures won { IsTrue result →
            (seat.new ≡ with_claim seat.old block) × ¬ Has seat.old.seen block }
        ensures lost { result ≡ false → seat.new ≡ with_sight seat.old block }
        ensures table { seat.new.table ≡ seat.old.table }
        ensures sound { IsSound seat.new }
    {
        let before = self
            .words
            .shared
            .fetch_or::<Claim>(&mut seat.seat, word_of(block), bit_of(block));
        !is_set(before, block)
    }

    // The look, with the block named as a ghost member, since a load has no operand that would tell it.
    fn look<B: Target>(&self, seat: &mut MarkSeat, block: u32) -> bool
        requires target { block ≡ B.block }
        requires table { seat.old.table ≡ self.now.table }
        requires block { block < self.now.blocks }
        ensures yes { IsTrue result → seat.new ≡ with_sight seat.old block }
        ensures no { result ≡ false → (seat.new ≡ seat.old) × ¬ Has seat.old.seen block }
        ensures table { seat.new.table ≡ seat.old.table }
        ensures sound { IsSound seat.new }
    {
        let found = self
            .words
            .shared
            .load::<Look<B>>(&mut seat.seat, word_of(block));
        is_set(found, block)
    }

    /// Looks by one load whether a block is claimed, in any seat.
    pub fn seen(&self, seat: &mut MarkSeat, block: u32) -> bool
        requires table { seat.old.table ≡ self.now.table }
        requires block { block < self.now.blocks }
        ensures yes { IsTrue result → seat.new ≡ with_sight seat.old block }
        ensures no { result ≡ false → (seat.new ≡ seat.old) × ¬ Has seat.old.seen block }
        ensures table { seat.new.table ≡ seat.old.table }
        ensures sound { IsSound seat.new }
    {
        self.look::<Brand>(seat, block)
    }

    /// Gives a share of 1 to a new seat. `None` if the seat's own share is 1.
    pub fn split(&self, seat: &mut MarkSeat) -> Option<MarkSeat>
        requires { seat.old.table ≡ self.now.table }
        ensures giver { IfSome result (λ _. seat.new ≡ kept_rest seat.old) }
        ensures given { IfSome result (λ r. r ≡ split_off seat.old) }
        ensures none { IfNone result ((seat.new ≡ seat.old) × (seat.old.share ≡ 1)) }
        ensures table { seat.new.table ≡ seat.old.table }
        ensures sound { IsSound seat.new }
        ensures given_sound { IfSome result (λ r. IsSound r) }
    {
        if seat.share < 2 {
            return None;
        }
        let other = self.words.shared.split_seat::<SplitOff>(&mut seat.seat);
        seat.share -= 1;
        Some(MarkSeat {
            seat: other,
            share: 1,
        })
    }

    /// Puts the claims, what was seen and the share of another seat after those of this one.
    pub fn join(&self, seat: &mut MarkSeat, other: MarkSeat)
        requires table { seat.old.table ≡ self.now.table }
        requires other { other.table ≡ self.now.table }
        ensures joined { seat.new ≡ both_seats seat.old other }
        ensures table { seat.new.table ≡ seat.old.table }
        ensures sound { IsSound seat.new }
    {
        let MarkSeat {
            seat: theirs,
            share,
        } = other;
        self.words.shared.join_seat::<Both>(&mut seat.seat, theirs);
        // A join tells nothing of the other views. This load does: no block is claimed in both.
        self.words.shared.load::<Check>(&mut seat.seat, 0);
        seat.share += share;
    }

    /// Ends the table and gives the words of its marks: block `b` is bit `b % 64` of word `b / 64`, bit 0 the least.
    ///
    /// After an error table and seat are gone. A seat that was dropped keeps its share and its claims.
    pub fn close(self, alloc: Global, seat: MarkSeat) -> Result<Vec<u64>, AllocError>
        requires { seat.table ≡ self.table }
        ensures len { IfOk result (λ w. length w.items ≡ word_count self.blocks) }
        ensures clear { IfOk result (λ w. (b : ℕ) → self.blocks ≤ b → mark_of w.items b ≡ 0) }
        ensures claimed { IfOk result (λ w. (b : ℕ) → Has seat.claims b → mark_of w.items b ≡ 1) }
        ensures seen { IfOk result (λ w. (b : ℕ) → Has seat.seen b → mark_of w.items b ≡ 1) }
        ensures whole { seat.share ≡ 4294967296 → IfOk result (λ w.
            Within seat.seen seat.claims × ((b : ℕ) → mark_of w.items b ≡ times b seat.claims)) }
    {
        let MarkSeat {
            seat: last,
            share: _,
        } = seat;
        let Marks { words } = self;
        let closed = words.close_with(last);
        let copied = copy_words(alloc, &closed);
        closed.free();
        copied
    }
}

// The words of a table that was closed.
fn copy_words(alloc: Global, closed: &Closed<(), Global>) -> Result<Vec<u64>, AllocError>
    requires { IsFull closed.now.words }
    ensures { IfOk result (λ v. v.items ≡ slots_items closed.now.words) }
{
    let mut copied = Vec::with_capacity(alloc, closed.words.len())?;
    for i in 0..closed.words.len() {
        copied.push(closed.word(i))?;
    }
    Ok(copied)
}
