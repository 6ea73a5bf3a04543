//! The text of why a block is held.
ghost use Rattle.std.specs.Prelude.{◌≡◌, ◌++◌, ◌<◌, codes, string_bytes, IfOk, OnOk};
ghost use Rattle.leak_report.specs.Totals.{IsIn, HaveCallersIn};
ghost use Rattle.leak_why.specs.Text.{block_line, half_name, links_text, numbered_line, place_text, register_text, root_line, status_name, text_of, vector_kind, vector_number, word_line};

use crate::chain::{Chain, Link, RootPlace, RootWord};
use leak_blocks::{Block, Live};
use leak_notes::RegisterSet;
use leak_report::caller_text;
use std::alloc::{AllocError, Global};

/// How many registers a thread status has.
const STATUS_REGISTERS: usize = 27;

/// How many halves of registers a vector entry has.
const VECTOR_HALVES: usize = 48;

/// How many of them, the first, are of the eight x87 or MMX registers.
const X87_HALVES: usize = 16;

/// Where the first word of a state entry is in its descriptor, in bytes.
const STATE_AT: usize = 576;

/// The size in bytes of a word.
const WORD_SIZE: usize = 8;

/// Tells the block with the number, and then that it leaked if there is no chain, and otherwise the chain from its
/// root on: a line for the root word, then by turns one for a block and one for its word that leads on, the block itself
/// the last. The sets are those of the core's register words, and the log's bytes are those that the callers are ranges of.
pub fn text(
    alloc: Global,
    live: &Live,
    block: usize,
    chain: &Option<Chain>,
    sets: &[RegisterSet],
    log: &[u8],
) -> Result<Vec<u8>, AllocError>
    requires in_log { HaveCallersIn log.now live.now.blocks }
    ensures { IfOk result (λ out. out.items
        ≡ text_of log.now live.now.blocks sets.now block chain.now) }
{
    let blocks = live.blocks();
    let mut out = Vec::new(alloc);
    let mut buffer = String::new(alloc);
    push_numbered(&mut out, &mut buffer, "asked", blocks, block, log)?;
    match chain {
        None => out.extend_from_slice(b"leaked\n")?,
        Some(chain) => {
            push_root(&mut out, &mut buffer, sets, &chain.root)?;
            push_links(&mut out, &mut buffer, blocks, chain.links.as_slice(), log)?;
            push_numbered(&mut out, &mut buffer, "block", blocks, block, log)?;
        }
    }
    Ok(out)
}

/// Appends the line of a root word, made in the buffer.
fn push_root(
    out: &mut Vec<u8>,
    buffer: &mut String,
    sets: &[RegisterSet],
    root: &RootWord,
) -> Result<(), AllocError>
    ensures { OnOk result (out.new.items ≡ out.old.items ++ root_line sets.now root.now) }
{
    let RootWord { place, word } = *root;
    buffer.clear();
    write!(buffer, "root ")?;
    push_place(buffer, sets, place)?;
    writeln!(buffer, " holds 0x{word:x}")?;
    out.extend_from_slice(buffer.as_bytes())?;
    Ok(())
}

/// Appends where a root word is.
fn push_place(buffer: &mut String, sets: &[RegisterSet], place: RootPlace) -> Result<(), AllocError>
    ensures { OnOk result (string_bytes buffer.new ≡ string_bytes buffer.old
        ++ place_text sets.now place) }
{
    match place {
        RootPlace::Register(number) => push_register(buffer, sets, number),
        RootPlace::Address(address) => write!(buffer, "0x{address:x}"),
    }
}

/// Appends the name of the register word with the number, and its thread.
fn push_register(buffer: &mut String, sets: &[RegisterSet], number: usize) -> Result<(), AllocError>
    ensures { OnOk result (string_bytes buffer.new ≡ string_bytes buffer.old
        ++ register_text 0 sets.now number) }
{
    let mut left = number;
    let mut threads: usize = 0;
    for set in sets {
        match set {
            RegisterSet::Status => {
                threads += 1;
                if left < STATUS_REGISTERS {
                    let name = status_name(left);
                    return write!(buffer, "{name} of thread {threads}");
                }
                left -= STATUS_REGISTERS;
            }
            RegisterSet::Vector => {
                if left < VECTOR_HALVES {
                    let kind = vector_kind(left);
                    let register = vector_number(left);
                    let half = half_name(left);
                    return write!(buffer, "{kind}{register} {half} of thread {threads}");
                }
                left -= VECTOR_HALVES;
            }
            RegisterSet::State(words) => {
                let words = *words as usize;
                if left < words {
                    let at = STATE_AT + WORD_SIZE * left;
                    return write!(buffer, "state {at} of thread {threads}");
                }
                left -= words;
            }
        }
    }
    write!(buffer, "? of thread {threads}")
}

/// The kind of the register of a vector entry that the half is of.
fn vector_kind(half: usize) -> &'static str
    ensures { result.now ≡ vector_kind half }
{
    if half < X87_HALVES { "st" } else { "xmm" }
}

/// The number of the register of a vector entry that the half is of, among those of its kind.
fn vector_number(half: usize) -> usize
    ensures { result ≡ vector_number half }
{
    if half < X87_HALVES {
        half / 2
    } else {
        (half - X87_HALVES) / 2
    }
}

/// The name of the half of a register of a vector entry.
fn half_name(half: usize) -> &'static str
    ensures { result.now ≡ half_name half }
{
    if half % 2 == 0 { "low" } else { "high" }
}

/// The name of the register of a thread status with the number.
fn status_name(number: usize) -> &'static str
    ensures { result.now ≡ status_name number }
{
    match number {
        0 => "r15",
        1 => "r14",
        2 => "r13",
        3 => "r12",
        4 => "rbp",
        5 => "rbx",
        6 => "r11",
        7 => "r10",
        8 => "r9",
        9 => "r8",
        10 => "rax",
        11 => "rcx",
        12 => "rdx",
        13 => "rsi",
        14 => "rdi",
        15 => "orig_rax",
        16 => "rip",
        17 => "cs",
        18 => "eflags",
        19 => "rsp",
        20 => "ss",
        21 => "fs_base",
        22 => "gs_base",
        23 => "ds",
        24 => "es",
        25 => "fs",
        26 => "gs",
        _ => "?",
    }
}

/// Appends the holders of the links and their words, the last link's first.
fn push_links(
    out: &mut Vec<u8>,
    buffer: &mut String,
    blocks: &[Block],
    links: &[Link],
    log: &[u8],
) -> Result<(), AllocError>
    requires { HaveCallersIn log.now blocks.now }
    ensures { OnOk result (out.new.items ≡ out.old.items
        ++ links_text log.now blocks.now links.now) }
{
    let mut left = links.len();
    while left > 0 {
        left -= 1;
        let link = &links[left];
        push_numbered(out, buffer, "block", blocks, link.holder, log)?;
        push_word(out, buffer, link)?;
    }
    Ok(())
}

/// Appends the line of a link's word, made in the buffer.
fn push_word(out: &mut Vec<u8>, buffer: &mut String, link: &Link) -> Result<(), AllocError>
    ensures { OnOk result (out.new.items ≡ out.old.items ++ word_line link.now) }
{
    let Link { address, word, .. } = *link;
    buffer.clear();
    writeln!(buffer, "word 0x{address:x} holds 0x{word:x}")?;
    out.extend_from_slice(buffer.as_bytes())?;
    Ok(())
}

/// Appends the line of the block with the number, if there is one: the name, the block's address, size in bytes and line, and the text
/// of its caller. Its front is made in the buffer. The log's bytes are those that the callers are ranges of.
pub fn push_numbered(
    out: &mut Vec<u8>,
    buffer: &mut String,
    name: &str,
    blocks: &[Block],
    number: usize,
    log: &[u8],
) -> Result<(), AllocError>
    requires { HaveCallersIn log.now blocks.now }
    ensures { OnOk result (out.new.items ≡ out.old.items
        ++ numbered_line name.now log.now blocks.now number) }
{
    match blocks.get(number) {
        None => Ok(()),
        Some(block) => push_block(out, buffer, name, block, log),
    }
}

/// Appends a block's line. Its front is made in the buffer.
fn push_block(
    out: &mut Vec<u8>,
    buffer: &mut String,
    name: &str,
    block: &Block,
    log: &[u8],
) -> Result<(), AllocError>
    requires { IsIn log.now block.now.caller }
    ensures { OnOk result (out.new.items ≡ out.old.items ++ block_line name.now log.now block.now) }
{
    let Block {
        start,
        size,
        line,
        caller,
    } = *block;
    buffer.clear();
    write!(buffer, "{name} 0x{start:x} {size} {line} ")?;
    out.extend_from_slice(buffer.as_bytes())?;
    out.extend_from_slice(caller_text(log, caller))?;
    out.push(b'\n')?;
    Ok(())
}
