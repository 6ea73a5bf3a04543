//! What there is to scan.
ghost use Rattle.std.specs.Prelude.{◌≡◌, ◌<◌, ℕ, List, [], ◌++◌, length, IfOk};
ghost use Rattle.leak_marks.specs.Lists.{Has};
ghost use Rattle.leak_marks.specs.Seats.{IsSound};
ghost use Rattle.leak_pool.specs.Items.{targets_of_item, IsItem};
ghost use Rattle.leak_pool.specs.Promises.{IsScanned};
ghost use Rattle.leak_pool.specs.Tops.{targets_of_blocks};
ghost use Rattle.leak_pool.specs.declared.target_source.Item.{Item};

use leak_marks::{MarkSeat, Marks};
use std::alloc::{AllocError, Global};

/// What a worker scans at once: a part of the roots, or a block.
#[derive(Clone, Copy)]
pub(crate) enum Item {
    Root(usize),
    Block(u32),
}

/// Parts of the roots and blocks, each of which leads to blocks. Both are counted from 0.
pub(crate) trait TargetSource {
    ghost use Rattle.leak_pool.specs.declared.target_source.Item.{Item};

    // for each part of the roots, and for each block, what it leads to
    ghost roots: { Self → List (List ℕ) };

    ghost targets: { Self → List (List ℕ) };

    /// How many blocks there are.
    fn blocks(&self) -> u32
        ensures { result ≡ length (targets self.now) };

    /// How many parts of the roots there are.
    fn roots(&self) -> usize
        ensures { result ≡ length (roots self.now) };

    /// Claims what an item leads to, and adds each claim to the list. After an error too, each claim is on the list.
    fn scan(
        &self,
        marks: &Marks,
        seat: &mut MarkSeat,
        list: &mut Vec<u32>,
        item: Item,
    ) -> Result<(), AllocError>
        requires table { seat.old.table ≡ marks.now.table }
        requires blocks { marks.now.blocks ≡ length (targets self.now) }
        requires item { IsItem (roots self.now) (targets self.now) item }
        requires sound { IsSound seat.old }
        ensures same { (seat.new.table ≡ seat.old.table) × (seat.new.share ≡ seat.old.share) }
        ensures sound { IsSound seat.new }
        ensures listed { (base : List ℕ) → seat.old.claims ≡ base ++ list.old.items
            → seat.new.claims ≡ base ++ list.new.items }
        ensures done { IfOk result (λ _.
            IsScanned (Has (targets_of_item (roots self.now) (targets self.now) item)) []
            seat.old.seen list.old.items seat.new.seen list.new.items) };

    /// Claims what some blocks lead to, block by block, and adds each claim to the list. After an error too, each claim is
    /// on the list.
    fn scan_blocks(
        &self,
        alloc: Global,
        marks: &Marks,
        seat: &mut MarkSeat,
        list: &mut Vec<u32>,
        blocks: &[u32],
    ) -> Result<(), AllocError>
        requires table { seat.old.table ≡ marks.now.table }
        requires blocks { marks.now.blocks ≡ length (targets self.now) }
        requires inside { (b : ℕ) → Has blocks.now b → b < length (targets self.now) }
        requires sound { IsSound seat.old }
        ensures same { (seat.new.table ≡ seat.old.table) × (seat.new.share ≡ seat.old.share) }
        ensures sound { IsSound seat.new }
        ensures listed { (base : List ℕ) → seat.old.claims ≡ base ++ list.old.items
            → seat.new.claims ≡ base ++ list.new.items }
        ensures done { IfOk result (λ _.
            IsScanned (Has (targets_of_blocks (targets self.now) blocks.now)) []
            seat.old.seen list.old.items seat.new.seen list.new.items) };

    // a target is a block
    ghost inside: { (s : Self) (item : Item) (b : ℕ)
        → Has (targets_of_item (roots s) (targets s) item) b → b < length (targets s) };
}

/// What an item leads to are blocks: the law of the source, for its callers.
pub(crate) fn targets_are_blocks<S: TargetSource>(source: &S)
    ensures { (item : Item) (b : ℕ)
        → Has (targets_of_item (S.roots source.now) (S.targets source.now) item) b
        → b < length (S.targets source.now) }
{
    let _ = source;
}
