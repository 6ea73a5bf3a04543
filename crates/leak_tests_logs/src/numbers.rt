//! The numbers of texts, as a list.

use leak_replaying::Numbers;
use std::alloc::{AllocError, Global};

/// The numbers, one for each block.
pub(crate) fn listed(alloc: Global, numbers: &Numbers) -> Result<Vec<u32>, AllocError> {
    let mut list = Vec::new(alloc);
    match numbers {
        Numbers::Few(narrow) => {
            for number in narrow.as_slice() {
                list.push(u32::from(*number))?;
            }
        }
        Numbers::Many(wide) => list.extend_from_slice(wide.as_slice())?,
    }
    Ok(list)
}
