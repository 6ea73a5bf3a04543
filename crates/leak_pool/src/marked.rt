//! What marking came to.

/// The marked blocks, and who claimed them.
#[derive(Drop)]
pub struct Marked {
    /// For each block, whether it is marked.
    pub set: Vec<bool>,
    /// For each worker, the numbers of the blocks that it claimed, in the order of its claims.
    pub claims: Vec<Vec<u32>>,
    /// How many rounds there were: 0 if there is no block, else 1 for the roots and one for each later pass.
    pub rounds: u64,
}
