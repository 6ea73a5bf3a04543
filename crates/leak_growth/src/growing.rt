//! From live blocks to rows.
ghost use Rattle.std.specs.Prelude.{◌≡◌, ◌+◌, ◌^◌, ◌<◌, length, map, IfOk};
ghost use Rattle.leak_report.specs.Totals.{HaveCallersIn, bytes_of};
ghost use Rattle.leak_growth.specs.Rows.{new_of, plain};
ghost use Rattle.leak_growth.specs.Report.{growths_of};

use crate::rows::{Row, ranked_rows};
use crate::summing::sums;
use leak_blocks::Block;
use leak_report::{number, push_texts};
use std::alloc::{AllocError, Global};

/// The rows of two logs, of which the first has this many lines.
pub(crate) fn growths<'a>(
    alloc: Global,
    log1: &'a [u8],
    earlier: &[Block],
    log2: &'a [u8],
    later: &[Block],
    after: usize,
) -> Result<Vec<Row<'a>>, AllocError>
    requires first_in_log { HaveCallersIn log1.now earlier.now }
    requires second_in_log { HaveCallersIn log2.now later.now }
    requires few { length earlier.now + length later.now < 2 ^ 32 }
    requires first_fits { bytes_of earlier.now < 2 ^ 64 }
    requires second_fits { bytes_of later.now < 2 ^ 64 }
    requires first_numbered { new_of 0 earlier.now ≡ earlier.now }
    requires second_numbered { new_of 0 later.now ≡ later.now }
    ensures { IfOk result (λ rows. map plain rows.items
        ≡ growths_of log1.now earlier.now log2.now later.now after) }
{
    let mut given = Vec::with_capacity(alloc, earlier.len() + later.len())?;
    push_texts(&mut given, earlier, log1)?;
    push_texts(&mut given, later, log2)?;
    let numbered = number(alloc, given.as_slice())?;
    let texts = numbered.texts.as_slice();
    let (numbers1, numbers2) = numbered.numbers.as_slice().split_at(earlier.len());
    let before = sums(alloc, texts, numbers1, earlier, log1, 0)?;
    let now = sums(alloc, texts, numbers2, later, log2, 0)?;
    let new = sums(alloc, texts, numbers2, later, log2, after)?;
    let rows = ranked_rows(
        alloc,
        texts,
        before.as_slice(),
        now.as_slice(),
        new.as_slice(),
    )?;
    Ok(rows)
}
