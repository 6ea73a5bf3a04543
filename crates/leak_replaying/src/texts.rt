//! The texts of the callers of blocks, kept in place of the log that has them.

ghost use Rattle.std.specs.Prelude.{◌≡◌, ◌<◌, ℕ, List, [], length, map, slice_index_or, All, IfOk};
ghost use Rattle.leak_replaying.specs.Texts.{AreCallersOf, AreKeptOf, numbers_in};

use leak_report::{CallerTexts, Places};
use leak_texts::gather;
use std::alloc::{AllocError, Global};

/// Numbers of texts, one for each block. Few texts are common: a log of a process that was not traced has one for each
/// size of its chunks.
#[derive(Drop)]
pub enum Numbers {
    /// Those of at most 256 texts.
    Few(Vec<u8>),
    Many(Vec<u32>),
}

/// The texts of the callers of blocks, each once.
#[derive(Drop)]
pub struct KeptTexts {
    /// The texts, one after another.
    pub bytes: Vec<u8>,
    /// For each text its range of these bytes, with its end excluded.
    pub places: Vec<(usize, usize)>,
    /// For each block which of the places its text has.
    pub numbers: Numbers,
}

impl KeptTexts {
    /// Where the texts of the callers stand.
    pub fn callers(&self) -> CallerTexts<'_>
        ensures { AreCallersOf self.now result }
    {
        let places = Places {
            bytes: self.bytes.as_slice(),
            ranges: self.places.as_slice(),
        };
        match &self.numbers {
            Numbers::Few(numbers) => CallerTexts::Few(places, numbers.as_slice()),
            Numbers::Many(numbers) => CallerTexts::Many(places, numbers.as_slice()),
        }
    }

    /// Those of no block.
    pub(crate) fn none(alloc: Global) -> KeptTexts
        ensures { (log : List ℕ) → AreKeptOf log [] result }
    {
        KeptTexts {
            bytes: Vec::new(alloc),
            places: Vec::new(alloc),
            numbers: Numbers::Few(Vec::new(alloc)),
        }
    }
}

/// The numbers at the chosen places, of so many texts, in one byte each if that is enough: a list of them stands beside the
/// core's words until the report is written.
pub(crate) fn chosen_numbers(
    alloc: Global,
    numbers: &[u32],
    chosen: &[usize],
    texts: usize,
) -> Result<Numbers, AllocError>
    requires within { All (λ k. k < length numbers.now) chosen.now }
    requires few { All (λ n. n < texts) (map (λ k. slice_index_or numbers.now k 0) chosen.now) }
    ensures { IfOk result (λ narrow. numbers_in narrow
        ≡ map (λ k. slice_index_or numbers.now k 0) chosen.now) }
{
    if texts > 256 {
        return Ok(Numbers::Many(gather(alloc, numbers, chosen)?));
    }
    let mut narrow = Vec::with_capacity(alloc, chosen.len())?;
    for k in chosen {
        narrow.push(numbers[*k] as u8)?;
    }
    Ok(Numbers::Few(narrow))
}
