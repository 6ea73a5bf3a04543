//! The answer about chosen blocks, told.

ghost use Rattle.std.specs.Prelude.{◌≡◌, ◌++◌, codes, length, flat_map, string_bytes, IfOk, OnOk};
ghost use Rattle.std.specs.List.{list_any};
ghost use Rattle.leak_report.specs.Lines.{blocks_line, newline};
ghost use Rattle.leak_report.specs.Totals.{marked_in};
ghost use Rattle.leak_report.specs.Numbered.{bytes_each, text_with};
ghost use Rattle.leak_holder_search.specs.Analyses.{IsAnalysis, blocks_in, texts_in};
ghost use Rattle.leak_holder_search.specs.Held.{held_lines, held_text, part_front, part_line, side_word};

use crate::analysis::Analysis;
use crate::choosing::Choice;
use crate::held::Held;
use leak_blocks::Live;
use leak_holders::{CallerShare, Side};
use leak_report::{marked_sizes, push_line, push_sizes};
use leak_why::push_numbered;
use std::alloc::{AllocError, Global};

/// Makes the answer: its lines, each with its line feed.
pub(crate) fn held_text_of(
    alloc: Global,
    analysis: &Analysis,
    choice: &Choice,
    held: &Held,
) -> Result<Vec<u8>, AllocError>
    requires known { IsAnalysis analysis.now }
    requires told { length held.now.told.items ≡ length (blocks_in analysis.now) }
    ensures { IfOk result (λ out. out.items ≡ held_text analysis.now.logs.log.now
        (blocks_in analysis.now) choice.now.block choice.now.question.side choice.now.own.items
        held.now.told.items (texts_in analysis.now) held.now.parts.items) }
{
    let (live, log) = (analysis.live, analysis.logs.log);
    let mut out = Vec::new(alloc);
    let mut buffer = String::new(alloc);
    push_numbered(
        &mut out,
        &mut buffer,
        "asked",
        live.blocks(),
        choice.block,
        log,
    )?;
    push_answer(&mut out, &mut buffer, analysis, choice, held)?;
    Ok(out)
}

/// Appends what is told of the chosen blocks, or that they leaked.
fn push_answer(
    out: &mut Vec<u8>,
    buffer: &mut String,
    analysis: &Analysis,
    choice: &Choice,
    held: &Held,
) -> Result<(), AllocError>
    requires { length held.now.told.items ≡ length (blocks_in analysis.now) }
    ensures { OnOk result (out.new.items ≡ out.old.items ++ held_lines choice.now.question.side
        (blocks_in analysis.now) choice.now.own.items held.now.told.items
        (texts_in analysis.now) held.now.parts.items) }
{
    if !is_any(choice.own.as_slice()) {
        out.extend_from_slice(b"leaked\n")?;
        return Ok(());
    }
    push_held(out, buffer, analysis.live, held.told.as_slice())?;
    let (side, texts) = (choice.question.side, analysis.texts.texts.as_slice());
    push_parts(out, buffer, side, texts, held.parts.as_slice())
}

/// Whether there is a block in the set.
fn is_any(set: &[bool]) -> bool
    ensures { result ≡ list_any (λ x. x) set.now }
{
    set.iter().any(|b| *b)
}

/// Appends how many blocks are told, and their bytes.
fn push_held(
    out: &mut Vec<u8>,
    buffer: &mut String,
    live: &Live,
    told: &[bool],
) -> Result<(), AllocError>
    requires { length told.now ≡ length live.now.blocks }
    ensures { OnOk result (out.new.items ≡ out.old.items
        ++ blocks_line (codes "held") (marked_in told.now live.now.blocks)) }
{
    let (blocks, bytes) = marked_sizes(live.blocks(), told);
    buffer.clear();
    push_sizes(buffer, "held", blocks, bytes)?;
    out.extend_from_slice(buffer.as_bytes())?;
    Ok(())
}

/// Appends the lines of the rows.
fn push_parts(
    out: &mut Vec<u8>,
    buffer: &mut String,
    side: Side,
    texts: &[&[u8]],
    parts: &[CallerShare],
) -> Result<(), AllocError>
    ensures { OnOk result (out.new.items ≡ out.old.items
        ++ flat_map (part_line side (bytes_each texts.now)) parts.now) }
{
    for part in parts {
        push_part(out, buffer, side, part, text_at(texts, part.text))?;
    }
    Ok(())
}

/// The text with the number, or no byte if there is none.
fn text_at<'a>(texts: &[&'a [u8]], number: u32) -> &'a [u8]
    ensures { result.now ≡ text_with (bytes_each texts.now) number }
{
    match texts.get(number as usize) {
        Some(text) => *text,
        None => &[],
    }
}

/// Appends a row's line. Its front is made in the buffer.
fn push_part(
    out: &mut Vec<u8>,
    buffer: &mut String,
    side: Side,
    part: &CallerShare,
    text: &[u8],
) -> Result<(), AllocError>
    ensures { OnOk result (out.new.items
        ≡ out.old.items ++ (part_front side part.now ++ text.now ++ newline)) }
{
    buffer.clear();
    push_front(buffer, side, part)?;
    push_line(out, buffer.as_str(), text)
}

/// Appends a row's line up to its text.
fn push_front(out: &mut String, side: Side, part: &CallerShare) -> Result<(), AllocError>
    ensures { OnOk result (string_bytes out.new ≡ string_bytes out.old ++ part_front side part.now) }
{
    let (word, CallerShare { blocks, bytes, .. }) = (word_of_side(side), *part);
    write!(out, "{word} {blocks} {bytes} ")
}

/// The first word of a row.
fn word_of_side(side: Side) -> &'static str
    ensures { result.now ≡ side_word side }
{
    match side {
        Side::In => "in",
        Side::Of => "by",
    }
}
