//! A worker's way through the gate.
ghost use Rattle.std.specs.Prelude.{◌≡◌, ◌+◌, ◌%◌, ◌^◌, ◌<◌, ℕ};

use crate::gate::Gate;

/// One step after another through a gate. Code that has a door, and not its gate, makes no step that the door does not
/// count.
#[derive(Drop)]
pub(crate) struct Door<'a, G: Gate> {
    gate: &'a G,
    worker: u32,
    step: u64,
}

impl<'a, G: Gate> Door<'a, G> {
    /// The worker's way through the gate, from this step on.
    pub(crate) fn new(gate: &'a G, worker: u32, step: u64) -> Self
        ensures gate { result.gate.now ≡ gate.now }
        ensures worker { result.worker ≡ worker }
        ensures step { result.step ≡ step }
    {
        Door { gate, worker, step }
    }

    /// Returns when the worker may scan its next item. Steps are counted modulo 2^64.
    pub(crate) fn pass(&mut self)
        ensures passed { G.passed self.old.gate.now self.old.worker self.old.step }
        ensures counted { self.new.step ≡ (self.old.step + 1) % 2 ^ 64 }
        ensures same { (self.new.gate ≡ self.old.gate) × (self.new.worker ≡ self.old.worker) }
    {
        self.gate.pass(self.worker, self.step);
        self.step = self.step.wrapping_add(1);
    }
    /// Returns when the worker may scan so many of its next items.
    pub(crate) fn pass_items(&mut self, count: usize)
        ensures passed { (j : ℕ) → j < count →
            G.passed self.old.gate.now self.old.worker ((self.old.step + j) % 2 ^ 64) }
        ensures counted { self.new.step ≡ (self.old.step + count) % 2 ^ 64 }
        ensures same { (self.new.gate ≡ self.old.gate) × (self.new.worker ≡ self.old.worker) }
    {
        for item in 0..count {
            self.gate
                .pass(self.worker, self.step.wrapping_add(item as u64));
        }
        self.step = self.step.wrapping_add(count as u64);
    }
}
