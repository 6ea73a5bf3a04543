//! Laws of the definitions, worked targets and worked heads.
ghost use Rattle.std.specs.Prelude.{ℕ, ◌<◌, List, length};
ghost use Rattle.std.specs.List.{AllByRecursion};
ghost use Rattle.leak_index.specs.Hits.{Index};
ghost use Rattle.leak_scan.specs.Targets.{targets_of};
ghost use Rattle.leak_scan.specs.RootWords.{RangesLeadLess};
ghost use Rattle.leak_scan.specs.Rows.{AreWorkedTargets, AreWorkedHeads};

use leak_index::hits_are_blocks;

/// The numbers of the blocks that words lead to are below the number of blocks.
pub fn targets_are_blocks()
    ensures { (index : Index) (words : List ℕ) →
        AllByRecursion (λ block. block < length index.blocks) (targets_of index words) }
{
    // (a law, for the proof: each hit is the number of a block)
    hits_are_blocks();
}

/// Without links to free chunks, the root words of a range lead to no block to which its words don't lead.
pub fn ranges_lead_less()
    ensures { RangesLeadLess }
{}

/// The words of some blocks, and the blocks that they lead to.
pub fn worked_targets()
    ensures { AreWorkedTargets }
{}

/// The words of some blocks, and which of the blocks are heads.
pub fn worked_heads()
    ensures { AreWorkedHeads }
{}
