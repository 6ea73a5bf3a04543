//! Texts with their numbers.

/// Some texts, each once, and for each given one its number.
#[derive(Drop)]
pub struct Texts<'a> {
    /// The texts, by the ascending order of their bytes. The number of a text is its place here, from 0.
    pub texts: Vec<&'a [u8]>,
    /// For each given text, in order, its number.
    pub numbers: Vec<u32>,
}
