//! What a heap of glibc's malloc says of the blocks that it serves.
ghost use Rattle.leak_examples.specs.Heap.{BlocksFitIfInUse, LiveHeapsFit};
ghost use Rattle.leak_examples.specs.WorkedHeap.{IsWorkedHeap};

/// A block fits a heap that its chunk is in exactly if the chunk is in use.
pub fn blocks_fit_if_in_use()
    ensures { BlocksFitIfInUse }
{}

/// A heap has no misfit if the live blocks are those of its chunks in use.
pub fn live_heaps_fit()
    ensures { LiveHeapsFit }
{}

/// Three chunks in a core, and the blocks that fit it.
pub fn worked_heap()
    ensures { IsWorkedHeap }
{}
