//! The report, told.
ghost use Rattle.std.specs.Prelude.{◌≡◌, ◌++◌, length, flat_map, option_map, string_bytes, IfOk, IfSome, OnOk};
ghost use Rattle.leak_report.specs.Numbered.{bytes_each};
ghost use Rattle.leak_holder_search.specs.Analyses.{IsAnalysis, blocks_in, texts_in};
ghost use Rattle.leak_holder_search.specs.Since.{earlier, news_of};
ghost use Rattle.leak_holder_search.specs.Text.{AreRowsOf, holder_front, holder_line, holders_text, line_of, new_lines, sums_of};

use crate::analysis::Analysis;
use crate::since::new;
use leak_blocks::{Block, Live};
use leak_holders::Holder;
use leak_report::{Head, marked_sizes, push_dead, push_freed, push_head, push_line, push_sizes};
use std::alloc::{AllocError, Global};

/// Makes the report: its lines, each with its line feed. The rows name blocks and texts by their places.
pub(crate) fn text(
    alloc: Global,
    analysis: &Analysis,
    rows: &[Holder],
) -> Result<Vec<u8>, AllocError>
    requires known { IsAnalysis analysis.now }
    requires inside { AreRowsOf (length (blocks_in analysis.now)) (length (texts_in analysis.now))
        rows.now }
    ensures { let a = analysis.now in
        IfOk result (λ out. out.items ≡ holders_text a.listed.head (blocks_in a)
        (news_of (earlier a.logs.since) (blocks_in a)) a.set.items (texts_in a)
        rows.now) }
{
    let (live, texts) = (analysis.live, analysis.texts.texts.as_slice());
    let new = new(analysis.logs.since, analysis.counted.as_slice());
    let head = &analysis.listed.head;
    let first = sums(alloc, head, live, new, analysis.set.as_slice())?;
    let mut out = first.into_bytes();
    push_holders(alloc, &mut out, live.blocks(), texts, rows)?;
    Ok(out)
}

/// The lines before those of the holders. `new` says which blocks are new, if these alone are counted, and `set` which are marked.
fn sums(
    alloc: Global,
    head: &Head,
    live: &Live,
    new: Option<&[bool]>,
    set: &[bool],
) -> Result<String, AllocError>
    requires new { IfSome new (λ s. length s.now ≡ length live.now.blocks) }
    requires one_each { length set.now ≡ length live.now.blocks }
    ensures { IfOk result (λ out. string_bytes out ≡ sums_of head.now live.now.blocks
        (option_map (λ s. s.now) new.entry) set.now) }
{
    let (blocks, bytes) = (live.blocks().len() as u64, live.bytes());
    let (marked, marked_bytes) = marked_sizes(live.blocks(), set);
    let mut out = String::new(alloc);
    push_sizes(&mut out, "blocks", blocks, bytes)?;
    push_head(&mut out, head)?;
    push_freed(&mut out, head.freed)?;
    push_dead(&mut out, head.dead)?;
    push_new(&mut out, live, new)?;
    push_sizes(&mut out, "marked", marked, marked_bytes)?;
    push_sizes(&mut out, "leaked", blocks - marked, bytes - marked_bytes)?;
    Ok(out)
}

/// Appends the line of the new blocks, if these alone are counted.
fn push_new(out: &mut String, live: &Live, new: Option<&[bool]>) -> Result<(), AllocError>
    requires { IfSome new (λ s. length s.now ≡ length live.now.blocks) }
    ensures { OnOk result (string_bytes out.new ≡ string_bytes out.old
        ++ new_lines (option_map (λ s. s.now) new.entry) live.now.blocks) }
{
    let Some(set) = new else {
        return Ok(());
    };
    let (count, bytes) = marked_sizes(live.blocks(), set);
    push_sizes(out, "new", count, bytes)
}

/// Appends the lines of the holders.
fn push_holders(
    alloc: Global,
    out: &mut Vec<u8>,
    blocks: &[Block],
    texts: &[&[u8]],
    rows: &[Holder],
) -> Result<(), AllocError>
    requires { AreRowsOf (length blocks.now) (length texts.now) rows.now }
    ensures { OnOk result (out.new.items ≡ out.old.items
        ++ flat_map (line_of blocks.now (bytes_each texts.now)) rows.now) }
{
    let mut buffer = String::new(alloc);
    for row in rows {
        let start = blocks[row.block as usize].start;
        let text = texts[row.text as usize];
        push_holder(out, &mut buffer, row, start, text)?;
    }
    Ok(())
}

/// Appends a holder's line. Its front is made in the buffer.
fn push_holder(
    out: &mut Vec<u8>,
    buffer: &mut String,
    row: &Holder,
    start: u64,
    text: &[u8],
) -> Result<(), AllocError>
    ensures { OnOk result (out.new.items
        ≡ out.old.items ++ holder_line row.now start text.now) }
{
    buffer.clear();
    push_front(buffer, row, start)?;
    push_line(out, buffer.as_str(), text)
}

/// Appends a holder's line up to its text.
fn push_front(out: &mut String, row: &Holder, start: u64) -> Result<(), AllocError>
    ensures { OnOk result (string_bytes out.new
        ≡ string_bytes out.old ++ holder_front row.now start) }
{
    let Holder {
        blocks,
        bytes,
        own,
        own_bytes,
        within,
        ..
    } = *row;
    write!(
        out,
        "holder {blocks} {bytes} {own} {own_bytes} {within} 0x{start:x} "
    )
}
