//! Texts in the order in which they are met.
ghost use Rattle.std.specs.Prelude.{◌≡◌, ◌+◌, ◌^◌, ◌<◌, length, IfOk, IsTrue, OnOk};
ghost use Rattle.leak_report.specs.Totals.{HaveCallersIn};
ghost use Rattle.leak_report.specs.Numbered.{bytes_each, text_with, texts_of};
ghost use Rattle.leak_report.specs.Meeting.{AreMet, IsMet, AreNumberedAsMet};

use crate::lines::caller_text;
use crate::tail::tail;
use crate::texts::Texts;
use leak_blocks::Block;
use std::alloc::{AllocError, Global};
use std::collections::BTreeMap;

/// The tail of a text, and the text: few texts are compared.
type Key<'a> = (u64, &'a [u8]);

/// How many numbers are kept of texts that were met lately. Own rule: few programs allocate from more places by turns.
const RECENT: usize = 256;

/// The number of a text, which is the next one if the text is new.
fn meet<'a>(
    numbers: &mut BTreeMap<Key<'a>, u32>,
    texts: &mut Vec<&'a [u8]>,
    text: &'a [u8],
) -> Result<u32, AllocError>
    requires so_far { AreMet numbers.old (bytes_each texts.old.items) }
    requires few { length texts.old.items + 1 < 2 ^ 32 }
    ensures more { OnOk result (AreMet numbers.new (bytes_each texts.new.items)) }
    ensures number { IfOk result
        (IsMet (bytes_each texts.old.items) (bytes_each texts.new.items) text.now) }
{
    let key = (tail(text), text);
    if let Some(number) = numbers.get(&key) {
        return Ok(*number);
    }
    let number = texts.len() as u32;
    texts.push(text)?;
    numbers.insert(key, number)?;
    Ok(number)
}

/// By which of the kept numbers a text is looked for: by the highest bits of its tail times the golden ratio, since the
/// tails of addresses differ in any of their bits (Knuth, The Art of Computer Programming, volume 3, 6.4).
fn slot_of(text: &[u8]) -> usize
    ensures { result < 256 }
{
    (tail(text).wrapping_mul(0x9e37_79b9_7f4a_7c15) >> 56) as usize
}

/// Whether the number is that of the text.
fn has_number(texts: &[&[u8]], number: u32, text: &[u8]) -> bool
    ensures below { IsTrue result → number < length texts.now }
    ensures is { IsTrue result → text_with (bytes_each texts.now) number ≡ text.now }
{
    match texts.get(number as usize) {
        Some(met) => *met == text,
        None => false,
    }
}

/// The number of a text as [`meet`] gives it. It is looked for first among those that were met lately.
fn meet_again<'a>(
    recent: &mut [u32; RECENT],
    numbers: &mut BTreeMap<Key<'a>, u32>,
    texts: &mut Vec<&'a [u8]>,
    text: &'a [u8],
) -> Result<u32, AllocError>
    requires so_far { AreMet numbers.old (bytes_each texts.old.items) }
    requires few { length texts.old.items + 1 < 2 ^ 32 }
    ensures more { OnOk result (AreMet numbers.new (bytes_each texts.new.items)) }
    ensures number { IfOk result
        (IsMet (bytes_each texts.old.items) (bytes_each texts.new.items) text.now) }
{
    let slot = slot_of(text);
    if has_number(texts.as_slice(), recent[slot], text) {
        return Ok(recent[slot]);
    }
    let number = meet(numbers, texts, text)?;
    recent[slot] = number;
    Ok(number)
}

/// Numbers texts in the order in which they are first met.
pub(crate) fn meet_each<'a>(alloc: Global, given: &[&'a [u8]]) -> Result<Texts<'a>, AllocError>
    requires { length given.now < 2 ^ 32 }
    ensures { IfOk result (λ met. AreNumberedAsMet (bytes_each given.now)
        (bytes_each met.texts.items) met.numbers.items) }
{
    let mut found = BTreeMap::new(alloc);
    let mut texts = Vec::new(alloc);
    let mut numbers = Vec::with_capacity(alloc, given.len())?;
    for text in given {
        numbers.push(meet(&mut found, &mut texts, text)?)?;
    }
    Ok(Texts { texts, numbers })
}

/// Numbers the texts of the callers of blocks in the order in which they are first met. The callers' ranges are of the log.
pub(crate) fn meet_callers<'a>(
    alloc: Global,
    blocks: &[Block],
    log: &'a [u8],
) -> Result<Texts<'a>, AllocError>
    requires in_log { HaveCallersIn log.now blocks.now }
    requires few { length blocks.now < 2 ^ 32 }
    ensures { IfOk result (λ met. AreNumberedAsMet (texts_of log.now blocks.now)
        (bytes_each met.texts.items) met.numbers.items) }
{
    let mut found = BTreeMap::new(alloc);
    let mut texts = Vec::new(alloc);
    let mut numbers = Vec::with_capacity(alloc, blocks.len())?;
    let mut recent = [0; RECENT];
    for block in blocks {
        let text = caller_text(log, block.caller);
        let number = meet_again(&mut recent, &mut found, &mut texts, text)?;
        numbers.push(number)?;
    }
    Ok(Texts { texts, numbers })
}
