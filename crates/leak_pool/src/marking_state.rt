//! How far marking has come.
use leak_marks::MarkSeat;

/// What was claimed and scanned before a round.
#[derive(Drop)]
pub(crate) struct MarkingState {
    /// Its claims are those of the start and those of the workers.
    pub(crate) seat: MarkSeat,
    /// For each worker, the blocks that it claimed.
    pub(crate) claims: Vec<Vec<u32>>,
    /// The blocks that were claimed and are not scanned yet.
    pub(crate) waiting: Vec<u32>,
    /// For each worker, how many items it has scanned.
    pub(crate) steps: Vec<u64>,
}
