//! Marking by worker threads over a listing.
ghost use Rattle.std.specs.Prelude.{◌≡◌, ◌<◌, ℕ, [], Option, IfOk, length};
ghost use Rattle.leak_index.specs.Hits.{Index};
ghost use Rattle.leak_roots.specs.Places.{Places};
ghost use Rattle.leak_pool.specs.Course.{HaveGone, HaveLed};
ghost use Rattle.leak_pool.specs.Listing.{IsListingOf, targets_in};
ghost use Rattle.leak_pool.specs.Lists.{each_alone};
ghost use Rattle.leak_pool.specs.Marking.{MarksFromRoots, lists_of};

use crate::gate::Gate;
use crate::listing::Listing;
use crate::marked::Marked;
use crate::marking_by_rounds::mark_by_rounds;
use crate::plan::Plan;
use std::alloc::{AllocError, Global};
use std::thread::Threads;

/// Marks what the roots lead to in the memory that was listed, by the workers of the plan. In the first round they share out the
/// blocks that the root words lead to. There is one list of claims for each worker.
///
/// It fails only if memory is refused.
pub fn mark_by_listing<R: Threads + Sync, G: Gate + Sync>(
    rt: &R,
    alloc: Global,
    listing: &Listing,
    plan: Plan,
    gate: &G,
) -> Result<Marked, AllocError>
    ensures one_each { IfOk result (λ m. length m.set.items ≡ length (targets_in listing.now)) }
    ensures marks { (word_at : ℕ → Option ℕ) (index : Index) (places : Places)
        → IsListingOf word_at index places listing.now
        → IfOk result (MarksFromRoots word_at index places plan.workers) }
    ensures course { let l = listing.now in IfOk result (λ m. 0 < l.blocks →
        HaveLed (each_alone l.first.items) (targets_in l) plan.workers plan.stack m.rounds (lists_of m) []) }
    ensures gate { let l = listing.now in IfOk result (λ m. 0 < l.blocks →
        HaveGone (G.passed gate.now) (length l.first.items) (each_alone l.first.items) (targets_in l)
        plan.workers plan.stack m.rounds (lists_of m) []) }
{
    mark_by_rounds(rt, alloc, listing, gate, plan, &[])
}
