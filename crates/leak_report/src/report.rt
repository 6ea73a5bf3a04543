//! The whole report.
ghost use Rattle.std.specs.Prelude.{◌≡◌, ◌++◌, ◌-◌, ◌≤◌, length, flat_map, codes, string_bytes, IfOk, IfSome, OnOk, option_copied};
ghost use Rattle.std.specs.List.{AllByRecursion};
ghost use Rattle.leak_report.specs.Totals.{HaveCallersIn, IsIn, bytes_of, leaks_in};
ghost use Rattle.leak_report.specs.Lines.{sizes_line, undumped_line, log_line, freed_lines, dead_lines, two_lines, heads_line, caller_line, leak_line};
ghost use Rattle.leak_report.specs.Report.{text_of};
ghost use Rattle.leak_report.specs.Sites.{HaveSites, bytes_at, sited};

use crate::caller_texts::CallerTexts;
use crate::head::Head;
use crate::leaked::Leak;
use crate::lines::{
    push_caller, push_dead, push_freed, push_head, push_heads, push_leak, push_sizes, push_two,
};
use crate::misfits::{push_misfits, push_number};
use crate::totals::{CallerRow, Totals};
use leak_blocks::{Block, Live};
use std::alloc::{AllocError, Global};

/// Makes the report of the live blocks: its lines in ASCII, each with its line feed, as docs/FORMAT.md has them.
///
/// `set` and `heads` have one entry for each block. A block is marked if `set` says so; of the others the heads are those
/// with that entry in `heads`, whose entries of marked blocks say nothing. `fits`, if it is given, has one entry for each
/// block too, whether it fits its core; the report then tells the misfits. `callers` says where the texts of the blocks'
/// callers stand. It fails only if memory is refused.
pub fn text(
    alloc: Global,
    head: &Head,
    live: &Live,
    set: &[bool],
    heads: &[bool],
    fits: Option<&[bool]>,
    callers: CallerTexts<'_>,
) -> Result<Vec<u8>, AllocError>
    requires one_each { length set.now ≡ length live.now.blocks }
    requires an_entry_each { length heads.now ≡ length live.now.blocks }
    requires a_fit_each { IfSome fits (λ f. length f.now ≡ length live.now.blocks) }
    requires sites { HaveSites callers (length live.now.blocks) }
    requires in_bytes { HaveCallersIn (bytes_at callers) (sited callers live.now.blocks) }
    ensures { IfOk result (λ out. out.items ≡ text_of head.now (sited callers.entry live.now.blocks)
        set.now heads.now (option_copied fits.entry) (bytes_at callers.entry)) }
{
    let blocks = live.blocks();
    let totals = Totals::of_sites(alloc, live, set, heads, callers)?;
    let mut first = sums(alloc, head, live, &totals)?;
    push_number(&mut first, blocks, fits)?;
    let mut out = first.into_bytes();
    push_callers(alloc, &mut out, totals.rows.as_slice(), callers.bytes())?;
    push_leaks(alloc, &mut out, blocks, set, heads, callers)?;
    push_misfits(alloc, &mut out, blocks, fits, callers)?;
    Ok(out)
}

/// The lines before those of callers and leaked blocks.
fn sums(alloc: Global, head: &Head, live: &Live, totals: &Totals) -> Result<String, AllocError>
    requires few { totals.now.blocks ≤ length live.now.blocks }
    requires small { totals.now.bytes ≤ bytes_of live.now.blocks }
    ensures { IfOk result (λ out. string_bytes out ≡
        sizes_line (codes "blocks") (length live.now.blocks) (bytes_of live.now.blocks)
        ++ undumped_line head.now ++ log_line head.now ++ freed_lines head.now.freed
        ++ dead_lines head.now.dead ++ two_lines head.now.two
        ++ sizes_line (codes "marked") (length live.now.blocks - totals.now.blocks)
        (bytes_of live.now.blocks - totals.now.bytes)
        ++ sizes_line (codes "leaked") totals.now.blocks totals.now.bytes
        ++ heads_line totals.now.heads) }
{
    let (blocks, bytes) = (live.blocks().len() as u64, live.bytes());
    let mut out = String::new(alloc);
    push_sizes(&mut out, "blocks", blocks, bytes)?;
    push_head(&mut out, head)?;
    push_freed(&mut out, head.freed)?;
    push_dead(&mut out, head.dead)?;
    push_two(&mut out, head.two)?;
    push_sizes(
        &mut out,
        "marked",
        blocks - totals.blocks,
        bytes - totals.bytes,
    )?;
    push_sizes(&mut out, "leaked", totals.blocks, totals.bytes)?;
    push_heads(&mut out, totals.heads)?;
    Ok(out)
}

/// Appends the callers' lines.
fn push_callers(
    alloc: Global,
    out: &mut Vec<u8>,
    rows: &[CallerRow],
    log: &[u8],
) -> Result<(), AllocError>
    requires { AllByRecursion (λ row. IsIn log.now row.caller) rows.now }
    ensures { OnOk result (out.new.items ≡ out.old.items
        ++ flat_map (caller_line log.now) rows.now) }
{
    let mut buffer = String::new(alloc);
    for row in rows {
        push_caller(out, &mut buffer, row, log)?;
    }
    Ok(())
}

/// Appends the lines of the blocks that the set leaves out.
fn push_leaks(
    alloc: Global,
    out: &mut Vec<u8>,
    blocks: &[Block],
    set: &[bool],
    heads: &[bool],
    callers: CallerTexts<'_>,
) -> Result<(), AllocError>
    requires one_each { length set.now ≡ length blocks.now }
    requires an_entry_each { length heads.now ≡ length blocks.now }
    requires sites { HaveSites callers (length blocks.now) }
    requires in_bytes { HaveCallersIn (bytes_at callers) (sited callers blocks.now) }
    ensures { OnOk result (out.new.items ≡ out.old.items ++ flat_map (leak_line (bytes_at callers.entry))
        (leaks_in set.now heads.now (sited callers.entry blocks.now))) }
{
    let bytes = callers.bytes();
    let mut buffer = String::new(alloc);
    for (i, marked) in set.iter().enumerate() {
        if !*marked {
            let block = callers.site(blocks, i);
            let head = heads[i];
            push_leak(out, &mut buffer, &Leak { block, head }, bytes)?;
        }
    }
    Ok(())
}
