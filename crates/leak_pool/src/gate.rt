//! Where a test can hold a worker.
ghost use Rattle.std.specs.Prelude.{ℕ, ⊤};

/// Each worker calls `pass` before it scans an item: a piece of the roots, a part to scan again, or a block that waited.
///
/// Blocks that a worker takes from its stack pass no gate, nor does what the caller scans of a later round before the
/// workers start. Gates are for tests, which hold a worker until another has come; [`Open`] holds none.
pub trait Gate {
    // the gate let the worker through at this step. Code that knows only the trait learns so by `pass` alone
    ghost passed: { Self → ℕ → ℕ → Type 0 } = { λ _ _ _. ⊤ };

    /// Returns when the worker may scan its `step`-th item, counted from 0 over its own passes of the whole call.
    fn pass(&self, worker: u32, step: u64)
        ensures { passed self.now worker step };
}

/// A gate that holds nobody.
#[derive(Clone, Copy, Debug)]
pub struct Open;

impl Gate for Open {
    fn pass(&self, _worker: u32, _step: u64) {}
}
