//! How far from a block's start a word may point to keep the block.
ghost use Rattle.std.specs.Prelude.{◌≤◌};

use crate::error::ReadingError;

/// The distances from a block's start, in bytes, at which a word leads to the block.
///
/// bdwgc calls the second form registered displacements. Own rule: it counts for words of registers and stacks too.
#[derive(Clone, Copy, Debug)]
pub struct Reading {
    interior: bool,
    skips_ends: bool,
    count: usize,
    values: [u16; 16],
    ghost few: { count ≤ 16 },
}

impl Reading {
    ghost use Rattle.std.specs.Prelude.{◌≡◌, ◌-◌, true, false, Some, None, IfOk, IfErr};
    ghost use Rattle.leak_index.specs.Leads.{Distances, allows};
    ghost use Rattle.leak_index.specs.Readings.{distances_of, last_of, listed_by, refusal_of};

    /// All distances up to the block's size, that one included.
    pub fn interior() -> Reading
        ensures { distances_of result ≡ record { listed = None; skips_ends = false } }
    {
        Reading {
            interior: true,
            skips_ends: false,
            count: 0,
            values: [0; 16],
        }
    }

    /// The distance 0 and the listed ones. A value may be in the list more than once.
    pub fn displaced(values: &[u64]) -> Result<Reading, ReadingError>
        ensures ok { IfOk result (λ reading.
            (distances_of reading ≡ record { listed = Some values.now; skips_ends = false })
            × (refusal_of values.now ≡ None)) }
        ensures refused { IfErr result (λ e. refusal_of values.now ≡ Some e) }
    {
        if values.len() > 16 {
            return Err(ReadingError::TooMany);
        }
        let mut listed = [0; 16];
        for (i, value) in values.iter().enumerate() {
            if *value > 65535 {
                return Err(ReadingError::TooLarge(i));
            }
            listed[i] = *value as u16;
        }
        Ok(Reading {
            interior: false,
            skips_ends: false,
            count: values.len(),
            values: listed,
        })
    }

    /// The same distances, with the block's size left out or not. The start of an empty block counts either way.
    ///
    /// Allocators that lay blocks side by side have each block begin at the end of the one before. There a word that leads to
    /// an end is a pointer to the second block, and seldom one to the end of the first.
    pub fn skip_ends(self, skip: bool) -> Reading
        ensures { distances_of result ≡ record { listed = listed_by self; skips_ends = skip } }
    {
        let values = self.values;
        Reading {
            interior: self.interior,
            skips_ends: skip,
            count: self.count,
            values,
        }
    }

    /// The greatest distance at which a block of the size is led to, if it is listed.
    pub(crate) fn last(&self, size: u64) -> u64
        ensures { result ≡ last_of self.now.skips_ends size }
    {
        if self.skips_ends {
            size.saturating_sub(1)
        } else {
            size
        }
    }

    /// Whether a word that far past a block's start leads to the block.
    pub(crate) fn allows(&self, distance: u64) -> bool
        ensures { result ≡ allows (listed_by self.now) distance }
    {
        if self.interior || distance == 0 {
            return true;
        }
        self.values[..self.count]
            .iter()
            .any(|value| u64::from(*value) == distance)
    }
}
