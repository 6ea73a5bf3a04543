//! Claims what words lead to.
ghost use Rattle.std.specs.Prelude.{◌≡◌, ◌⊎◌, ℕ, ◌<◌, ◌^◌, List, [], ◌∷◌, ◌++◌, flat_map, IfOk, vec_len, vec_capacity};
ghost use Rattle.leak_marks.specs.Lists.{Has};
ghost use Rattle.leak_marks.specs.Seats.{IsSound};
ghost use Rattle.leak_pool.specs.Promises.{IsScanned};

use crate::target_list::TargetList;
use leak_elf::Words;
use leak_index::Lookup;
use leak_marks::{MarkSeat, Marks};
use leak_scan::Targets;
use std::alloc::AllocError;

/// Claims the targets, and lists those whose claim is won. Room is made before each claim, so that each is on the list.
pub(crate) fn claim_all<W: Words, L: Lookup>(
    targets: Targets<'_, W, L>,
    marks: &Marks,
    seat: &mut MarkSeat,
    list: &mut Vec<u32>,
) -> Result<(), AllocError>
    requires table { seat.old.table ≡ marks.now.table }
    requires inside { (b : ℕ) → Has targets b → b < marks.now.blocks }
    requires few { marks.now.blocks < 2 ^ 32 }
    requires sound { IsSound seat.old }
    ensures same { (seat.new.table ≡ seat.old.table) × (seat.new.share ≡ seat.old.share) }
    ensures sound { IsSound seat.new }
    ensures listed { (base : List ℕ) → seat.old.claims ≡ base ++ list.old.items
        → seat.new.claims ≡ base ++ list.new.items }
    ensures done { IfOk result (λ _.
        IsScanned (Has targets.entry) []
        seat.old.seen list.old.items seat.new.seen list.new.items) }
{
    for block in targets {
        list.reserve(1)?;
        claim(marks, seat, list, block as u32);
    }
    Ok(())
}

/// Claims the blocks of a list, and lists those whose claim is won, as [`claim_all`] does.
pub(crate) fn claim_listed(
    targets: &[u32],
    marks: &Marks,
    seat: &mut MarkSeat,
    list: &mut Vec<u32>,
) -> Result<(), AllocError>
    requires table { seat.old.table ≡ marks.now.table }
    requires inside { (b : ℕ) → Has targets.now b → b < marks.now.blocks }
    requires sound { IsSound seat.old }
    ensures same { (seat.new.table ≡ seat.old.table) × (seat.new.share ≡ seat.old.share) }
    ensures sound { IsSound seat.new }
    ensures listed { (base : List ℕ) → seat.old.claims ≡ base ++ list.old.items
        → seat.new.claims ≡ base ++ list.new.items }
    ensures done { IfOk result (λ _.
        IsScanned (Has targets.now) [] seat.old.seen list.old.items seat.new.seen list.new.items) }
{
    for block in targets {
        list.reserve(1)?;
        claim(marks, seat, list, *block);
    }
    Ok(())
}

/// Claims the blocks of some lists, list by list, as [`claim_listed`] does.
pub(crate) fn claim_lists(
    lists: &[TargetList<'_>],
    marks: &Marks,
    seat: &mut MarkSeat,
    list: &mut Vec<u32>,
) -> Result<(), AllocError>
    requires table { seat.old.table ≡ marks.now.table }
    requires inside { (b : ℕ) → Has (flat_map (λ l. l.targets.now) lists.now) b → b < marks.now.blocks }
    requires sound { IsSound seat.old }
    ensures same { (seat.new.table ≡ seat.old.table) × (seat.new.share ≡ seat.old.share) }
    ensures sound { IsSound seat.new }
    ensures listed { (base : List ℕ) → seat.old.claims ≡ base ++ list.old.items
        → seat.new.claims ≡ base ++ list.new.items }
    ensures done { IfOk result (λ _. IsScanned (Has (flat_map (λ l. l.targets.now) lists.now)) []
        seat.old.seen list.old.items seat.new.seen list.new.items) }
{
    for of_block in lists {
        claim_listed(of_block.targets, marks, seat, list)?;
    }
    Ok(())
}

// Claims a block, and lists it if the claim is won.
fn claim(marks: &Marks, seat: &mut MarkSeat, list: &mut Vec<u32>, block: u32)
    requires table { seat.old.table ≡ marks.now.table }
    requires block { block < marks.now.blocks }
    requires room { vec_len list.old < vec_capacity list.old }
    ensures same { (seat.new.table ≡ seat.old.table) × (seat.new.share ≡ seat.old.share) }
    ensures sound { IsSound seat.new }
    ensures seen { seat.new.seen ≡ seat.old.seen ++ block ∷ [] }
    ensures listed { (base : List ℕ) → seat.old.claims ≡ base ++ list.old.items
        → seat.new.claims ≡ base ++ list.new.items }
    ensures gained { (b : ℕ) → Has list.new.items b
        → Has list.old.items b ⊎ ((b ≡ block) × (Has seat.old.seen block → ⊥)) }
    ensures grown { (more : List ℕ) × (list.new.items ≡ list.old.items ++ more) }
{
    if marks.seen(seat, block) || !marks.claim(seat, block) {
        return;
    }
    list.push_reserved(block);
}
