//! Rows in order.
ghost use Rattle.std.specs.Prelude.{◌≡◌, IfOk};
ghost use Rattle.std.specs.List.Sorted.{IsStrictlySortedBy};
ghost use Rattle.std.specs.Ordering.{nat_cmp};
ghost use Rattle.leak_holders.specs.Holders.{ranked, with_blocks};

use crate::holder::Holder;
use std::alloc::AllocError;
use std::cmp::Reverse;

/// The rows of texts that hold a counted block, the most bytes first. Those with equal bytes stay in the order of their
/// texts, since the sort is stable.
pub(crate) fn ranked_rows(mut rows: Vec<Holder>) -> Result<Vec<Holder>, AllocError>
    requires { IsStrictlySortedBy (λ r s. nat_cmp r.text s.text) rows.items }
    ensures { IfOk result (λ sorted. sorted.items ≡ ranked (with_blocks rows.items)) }
{
    rows.retain(|row| row.blocks > 0);
    rows.sort_by_key(|row| Reverse(row.bytes))?;
    Ok(rows)
}
