//! The lines of the report.
ghost use Rattle.std.specs.Prelude.{◌≡◌, ◌++◌, OnOk, codes, string_bytes};
ghost use Rattle.leak_report.specs.Totals.{IsIn, text_at};
ghost use Rattle.leak_report.specs.Lines.{newline, sizes_line, undumped_line, log_line, freed_lines, dead_lines, reread_line, two_lines, heads_line, kind_of, caller_front, leak_front, caller_line, leak_line};
ghost use Rattle.leak_report.specs.Misfits.{number_line, misfit_line};

use crate::head::{Head, Two};
use crate::leaked::Leak;
use crate::totals::CallerRow;
use leak_blocks::Block;
use std::alloc::AllocError;

/// The text that is shown for a caller: its bytes in the log, or a question mark for none.
pub fn caller_text<'a>(log: &'a [u8], caller: (usize, usize)) -> &'a [u8]
    requires { IsIn log.now caller }
    ensures { result.now ≡ text_at log.now caller }
{
    if caller.0 < caller.1 {
        &log[caller.0..caller.1]
    } else {
        b"?"
    }
}

/// Appends a line of some blocks: their name, their number and the sum of their sizes.
pub fn push_sizes(out: &mut String, name: &str, blocks: u64, bytes: u64) -> Result<(), AllocError>
    ensures { OnOk result (string_bytes out.new ≡ string_bytes out.old
        ++ sizes_line name.now blocks bytes) }
{
    writeln!(out, "{name} {blocks} bytes {bytes}")
}

/// Appends the lines of what the core leaves out and of what is odd about the log.
pub fn push_head(out: &mut String, head: &Head) -> Result<(), AllocError>
    ensures { OnOk result (string_bytes out.new ≡ string_bytes out.old ++ undumped_line head.now
        ++ log_line head.now) }
{
    let Head {
        undumped,
        unknown,
        displaced,
        torn,
        ..
    } = *head;
    writeln!(out, "undumped {undumped}")?;
    writeln!(out, "unknown {unknown} displaced {displaced} torn {torn}")
}

/// Appends the line of the words of freed memory, if they are left out.
pub fn push_freed(out: &mut String, freed: Option<u64>) -> Result<(), AllocError>
    ensures { OnOk result (string_bytes out.new ≡ string_bytes out.old ++ freed_lines freed) }
{
    match freed {
        Some(freed) => writeln!(out, "freed {freed}"),
        None => Ok(()),
    }
}

/// Appends the line of the words of dead stack, if they are left out.
pub fn push_dead(out: &mut String, dead: Option<u64>) -> Result<(), AllocError>
    ensures { OnOk result (string_bytes out.new ≡ string_bytes out.old ++ dead_lines dead) }
{
    match dead {
        Some(dead) => writeln!(out, "dead {dead}"),
        None => Ok(()),
    }
}

/// Appends the lines of a search in two cores.
pub fn push_two(out: &mut String, two: Option<Two>) -> Result<(), AllocError>
    ensures { OnOk result (string_bytes out.new ≡ string_bytes out.old ++ two_lines two) }
{
    let Some(
        Two {
            fresh,
            fresh_bytes,
            reread,
        },
    ) = two
    else {
        return Ok(());
    };
    push_sizes(out, "new", fresh, fresh_bytes)?;
    writeln!(out, "reread {reread}")
}

/// Appends the line of a number of heads.
pub fn push_heads(out: &mut String, heads: u64) -> Result<(), AllocError>
    ensures { OnOk result (string_bytes out.new ≡ string_bytes out.old ++ heads_line heads) }
{
    writeln!(out, "heads {heads}")
}

/// Appends the line of a number of misfits.
pub fn push_misfit_number(out: &mut String, misfits: u64) -> Result<(), AllocError>
    ensures { OnOk result (string_bytes out.new ≡ string_bytes out.old ++ number_line misfits) }
{
    writeln!(out, "misfits {misfits}")
}

/// Appends a line that ends in a text.
pub fn push_line(out: &mut Vec<u8>, front: &str, text: &[u8]) -> Result<(), AllocError>
    ensures { OnOk result (out.new.items ≡ out.old.items ++ (front.now ++ text.now ++ newline)) }
{
    out.extend_from_slice(front.as_bytes())?;
    out.extend_from_slice(text)?;
    out.push(b'\n')?;
    Ok(())
}

/// Appends a caller's line. Its front is made in the buffer.
pub fn push_caller(
    out: &mut Vec<u8>,
    buffer: &mut String,
    row: &CallerRow,
    log: &[u8],
) -> Result<(), AllocError>
    requires { IsIn log.now row.now.caller }
    ensures { OnOk result (out.new.items ≡ out.old.items ++ caller_line log.now row.now) }
{
    let CallerRow {
        blocks,
        bytes,
        heads,
        caller,
    } = *row;
    buffer.clear();
    write!(buffer, "caller {blocks} {bytes} {heads} ")?;
    push_line(out, buffer.as_str(), caller_text(log, caller))
}

/// What a leaked block is: a head, or held by another.
fn kind(head: bool) -> &'static str
    ensures { result.now ≡ kind_of head }
{
    if head { "head" } else { "held" }
}

/// Appends a leaked block's line. Its front is made in the buffer.
pub fn push_leak(
    out: &mut Vec<u8>,
    buffer: &mut String,
    leak: &Leak,
    log: &[u8],
) -> Result<(), AllocError>
    requires { IsIn log.now leak.now.block.caller }
    ensures { OnOk result (out.new.items ≡ out.old.items ++ leak_line log.now leak.now) }
{
    let Block {
        start,
        size,
        line,
        caller,
    } = leak.block;
    let kind = kind(leak.head);
    buffer.clear();
    write!(buffer, "leak 0x{start:x} {size} {line} {kind} ")?;
    push_line(out, buffer.as_str(), caller_text(log, caller))
}

/// Appends a misfit's line. Its front is made in the buffer.
pub fn push_misfit(
    out: &mut Vec<u8>,
    buffer: &mut String,
    block: &Block,
    log: &[u8],
) -> Result<(), AllocError>
    requires { IsIn log.now block.now.caller }
    ensures { OnOk result (out.new.items ≡ out.old.items ++ misfit_line log.now block.now) }
{
    let Block {
        start,
        size,
        line,
        caller,
    } = *block;
    buffer.clear();
    write!(buffer, "misfit 0x{start:x} {size} {line} ")?;
    push_line(out, buffer.as_str(), caller_text(log, caller))
}
