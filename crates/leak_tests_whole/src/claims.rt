//! What lists of claims hold.

use std::alloc::Global;
use std::test::Fail;

/// Whether the lists together hold the numbers, which ascend, and no others, each once.
pub fn hold(alloc: Global, lists: &[Vec<u32>], numbers: &[u32]) -> Result<bool, Fail> {
    let mut all: Vec<u32> = Vec::new(alloc);
    for list in lists {
        all.extend_from_slice(list.as_slice())?;
    }
    all.sort()?;
    Ok(all.as_slice() == numbers)
}

/// Whether the lists together hold each number below the count once, and no other number.
pub fn hold_each_once(alloc: Global, lists: &[Vec<u32>], count: u32) -> Result<bool, Fail> {
    let mut numbers: Vec<u32> = Vec::new(alloc);
    for number in 0..count {
        numbers.push(number)?;
    }
    hold(alloc, lists, numbers.as_slice())
}
