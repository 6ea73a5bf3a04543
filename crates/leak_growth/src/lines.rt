//! The lines of the report.
ghost use Rattle.std.specs.Prelude.{◌≡◌, ◌++◌, OnOk, string_bytes};
ghost use Rattle.leak_report.specs.Lines.{newline, sizes_line};
ghost use Rattle.leak_growth.specs.Lines.{counts_line, growth_of, row_front, row_line};

use crate::rows::Row;
use crate::summing::Sizes;
use std::alloc::AllocError;

/// Appends a line of some blocks: their name, their number and the sum of their sizes.
pub(crate) fn push_sizes(out: &mut String, name: &str, sizes: Sizes) -> Result<(), AllocError>
    ensures { OnOk result (string_bytes out.new ≡ string_bytes out.old
        ++ sizes_line name.now sizes.blocks sizes.bytes) }
{
    let Sizes { blocks, bytes } = sizes;
    writeln!(out, "{name} {blocks} bytes {bytes}")
}

/// Appends the line of what is odd about a log.
pub(crate) fn push_counts(
    out: &mut String,
    unknown: u64,
    displaced: u64,
    torn: u64,
) -> Result<(), AllocError>
    ensures { OnOk result (string_bytes out.new ≡ string_bytes out.old
        ++ counts_line unknown displaced torn) }
{
    writeln!(out, "unknown {unknown} displaced {displaced} torn {torn}")
}

/// Appends by how much bytes grew, with a sign if they became fewer.
fn push_growth(out: &mut String, earlier: u64, later: u64) -> Result<(), AllocError>
    ensures { OnOk result (string_bytes out.new ≡ string_bytes out.old ++ growth_of earlier later) }
{
    if later < earlier {
        let less = earlier - later;
        write!(out, "-{less}")
    } else {
        let more = later - earlier;
        write!(out, "{more}")
    }
}

/// Appends a row up to its text.
fn push_front(out: &mut String, row: &Row) -> Result<(), AllocError>
    ensures { OnOk result (string_bytes out.new ≡ string_bytes out.old ++ row_front row.now) }
{
    let Row {
        earlier,
        later,
        new,
        ..
    } = *row;
    let (earlier_blocks, earlier_bytes) = (earlier.blocks, earlier.bytes);
    let (later_blocks, later_bytes) = (later.blocks, later.bytes);
    let (new_blocks, new_bytes) = (new.blocks, new.bytes);
    write!(out, "grew ")?;
    push_growth(out, earlier_bytes, later_bytes)?;
    write!(
        out,
        " {earlier_blocks} {earlier_bytes} {later_blocks} {later_bytes} {new_blocks} {new_bytes} "
    )
}

/// Appends a row. Its front is made in the buffer.
pub(crate) fn push_row(out: &mut Vec<u8>, buffer: &mut String, row: &Row) -> Result<(), AllocError>
    ensures { OnOk result (out.new.items ≡ out.old.items ++ row_line row.now) }
{
    buffer.clear();
    push_front(buffer, row)?;
    out.extend_from_slice(buffer.as_bytes())?;
    out.extend_from_slice(row.text)?;
    out.push(b'\n')?;
    Ok(())
}
