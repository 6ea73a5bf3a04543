//! What a seat knows.
use std::collections::LinkedList;

/// The blocks that a seat claimed, those that it has seen marked, and its share of 2^32.
///
/// No value of it is made: the proofs alone read it, and to them the lists are lists of numbers.
pub struct View {
    pub claims: LinkedList<u32>,
    pub seen: LinkedList<u32>,
    pub share: u64,
}
