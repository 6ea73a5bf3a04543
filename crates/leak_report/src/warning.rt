//! The warnings of a search.
ghost use Rattle.std.specs.Prelude.{◌≡◌, ◌++◌, IfOk, OnOk, string_bytes};
ghost use Rattle.leak_report.specs.Warnings.{warning_line, no_block_line, torn_line, unknown_line, displaced_line, misfits_line, input_warnings, warnings_of};

use crate::signs::Signs;
use std::alloc::{AllocError, Global};

/// Makes the warnings of a search: a line for each sign that a core and its log don't belong together, by the inputs in
/// order. If there is no such sign the text is empty.
pub fn warnings(alloc: Global, signs: &[Signs]) -> Result<String, AllocError>
    ensures { IfOk result (λ out. string_bytes out ≡ warnings_of signs.now) }
{
    let mut out = String::new(alloc);
    for (i, input) in signs.iter().enumerate() {
        push_input(alloc, &mut out, i + 1, input)?;
    }
    Ok(out)
}

/// Appends the warnings of the input with the number, from 1.
fn push_input(
    alloc: Global,
    out: &mut String,
    input: usize,
    signs: &Signs,
) -> Result<(), AllocError>
    ensures { OnOk result (string_bytes out.new ≡ string_bytes out.old
        ++ input_warnings input signs.now) }
{
    push_no_block(out, input, signs.live)?;
    push_torn(out, input, signs.torn)?;
    push_unknown(alloc, out, input, signs.unknown)?;
    push_displaced(alloc, out, input, signs.displaced)?;
    push_misfits(alloc, out, input, signs.misfits, signs.live)
}

/// Appends a warning of the input.
fn push_warning(out: &mut String, input: usize, text: &str) -> Result<(), AllocError>
    ensures { OnOk result (string_bytes out.new ≡ string_bytes out.old
        ++ warning_line input text.now) }
{
    writeln!(out, "leak_find: warning: input {input}: {text}")
}

fn push_no_block(out: &mut String, input: usize, live: u64) -> Result<(), AllocError>
    ensures { OnOk result (string_bytes out.new ≡ string_bytes out.old
        ++ no_block_line input live) }
{
    if live > 0 {
        return Ok(());
    }
    let text = "no live block: the log shows no allocation that was kept";
    push_warning(out, input, text)
}

fn push_torn(out: &mut String, input: usize, torn: u64) -> Result<(), AllocError>
    ensures { OnOk result (string_bytes out.new ≡ string_bytes out.old ++ torn_line input torn) }
{
    if torn == 0 {
        return Ok(());
    }
    let text = "the log ends inside a line: its last calls are missing";
    push_warning(out, input, text)
}

fn push_unknown(
    alloc: Global,
    out: &mut String,
    input: usize,
    unknown: u64,
) -> Result<(), AllocError>
    ensures { OnOk result (string_bytes out.new ≡ string_bytes out.old
        ++ unknown_line input unknown) }
{
    if unknown == 0 {
        return Ok(());
    }
    let mut text = String::new(alloc);
    write!(
        text,
        "{unknown} give-backs of blocks that were not live: \
        tracing began late, or lines are missing"
    )?;
    push_warning(out, input, text.as_str())
}

fn push_displaced(
    alloc: Global,
    out: &mut String,
    input: usize,
    displaced: u64,
) -> Result<(), AllocError>
    ensures { OnOk result (string_bytes out.new ≡ string_bytes out.old
        ++ displaced_line input displaced) }
{
    if displaced == 0 {
        return Ok(());
    }
    let mut text = String::new(alloc);
    write!(
        text,
        "{displaced} allocations over a live block: \
        lines are missing or out of order"
    )?;
    push_warning(out, input, text.as_str())
}

fn push_misfits(
    alloc: Global,
    out: &mut String,
    input: usize,
    misfits: u64,
    live: u64,
) -> Result<(), AllocError>
    ensures { OnOk result (string_bytes out.new ≡ string_bytes out.old
        ++ misfits_line input misfits live) }
{
    if misfits == 0 {
        return Ok(());
    }
    let mut text = String::new(alloc);
    write!(
        text,
        "{misfits} of {live} live blocks have no chunk of their size in use \
        in the core: the log is of another moment, or of another process"
    )?;
    push_warning(out, input, text.as_str())
}
