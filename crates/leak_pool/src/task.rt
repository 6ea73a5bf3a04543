//! What workers share.
ghost use Rattle.std.specs.Prelude.{ℕ, ◌≡◌, ◌<◌, ◌≤◌, ◌+◌, ◌↔◌, IsTrue};
ghost use Rattle.leak_pool.specs.Items.{AreMany};
ghost use Rattle.leak_pool.specs.SearchModel.{Work, IsSeatOf, HaveBoth};
ghost use Rattle.leak_pool.specs.Promises.{HaveScanned};

use leak_marks::{MarkSeat, Marks};
use std::alloc::{AllocError, Global};

/// What workers gained in a round.
#[derive(Drop)]
pub(crate) struct Gains {
    /// For each worker, the blocks that it claimed.
    pub(crate) claims: Vec<Vec<u32>>,
    /// The blocks that were claimed and not scanned.
    pub(crate) left: Vec<u32>,
}

/// What workers gained, unless memory ran out.
pub(crate) type Gained = Result<Gains, AllocError>;

/// Items of which each worker scans a share.
pub(crate) trait Task {
    ghost work: { Self → Work };

    // a gate let the worker through to an item of its share, counted from 0
    ghost passed: { Self → ℕ → ℕ → Type 0 };

    /// Where the blocks are marked.
    fn marks(&self) -> &Marks
        ensures { result.now.table ≡ (work self.now).model.table };

    /// Whether both the workers from `low` up to `middle` and those from there up to `high` have an item, and there are so
    /// many items that a thread is worth its start. If not, one thread scans the shares of both in turn. Many rounds have
    /// few items: those that follow lists.
    fn is_shared(&self, low: u32, middle: u32, high: u32) -> bool
        requires { (low ≤ middle) × (middle ≤ high) × (high ≤ (work self.now).model.workers) }
        ensures { IsTrue result ↔ (AreMany (work self.now).items
            × HaveBoth (work self.now) low middle high) };

    /// One worker scans its share.
    fn scan_share(&self, alloc: Global, seat: &mut MarkSeat, worker: u32) -> Gained
        requires seat { IsSeatOf (work self.now).model seat.old }
        requires worker { worker < (work self.now).model.workers }
        ensures { HaveScanned (work self.now) (passed self.now) worker (worker + 1)
            seat.old seat.new result };
}
