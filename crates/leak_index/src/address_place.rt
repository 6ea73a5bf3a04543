//! Where an address is among blocks.

/// Where an address is among blocks by ascending start.
#[derive(Clone, Copy)]
pub(crate) enum AddressPlace {
    /// It is the start of the block with the number, and each block before that ends before it.
    Start(usize),
    /// This many blocks begin at it or before it.
    After(usize),
}
