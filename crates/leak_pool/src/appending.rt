//! Lists of blocks, one after another.
ghost use Rattle.std.specs.Prelude.{◌≡◌, ◌++◌, IfOk};

use std::alloc::AllocError;

/// Appends blocks to a list. To one that has none they are moved: a copy would stand beside them while it is made.
pub(crate) fn append_blocks(list: &mut Vec<u32>, more: Vec<u32>) -> Result<(), AllocError>
    ensures { IfOk result (λ _. list.new.items ≡ list.old.items ++ more.items) }
{
    if list.is_empty() {
        *list = more;
        return Ok(());
    }
    list.extend_from_slice(more.as_slice())
}
