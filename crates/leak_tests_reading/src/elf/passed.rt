//! A core of which the head alone is held.

ghost use Rattle.std.specs.Prelude.{◌≤◌, length};
ghost use Rattle.leak_elf.specs.Head.{IsHead};

use crate::comparisons::{same, same_in};
use crate::elf::facts::{PART, SEGMENT};
use crate::samples::lives;
use crate::scan::{block, listed};
use byteorder::{ByteOrder, LittleEndian};
use leak_elf::{Head, Image, Rest, Words, core_k, head_of};
use leak_index::{Reading, Sorted};
use leak_scan::Targets;
use std::process::Abort;
use std::test::Fail;

/// The bytes behind a head.
#[derive(Drop)]
struct Behind<'a> {
    bytes: &'a [u8],
}

impl<'a> Rest for Behind<'a> {
    ghost bytes = { λ rest. rest.bytes.now };

    fn len(&self) -> u64 {
        self.bytes.len() as u64
    }

    #[tactic(auto, unfolding(leak_elf::specs::Head::aligned_number_at, leak_elf::specs::Fields::number_at))]
    fn word(&self, at: usize) -> Option<u64> {
        if at % 8 != 0 || self.bytes.len() < 8 || at > self.bytes.len() - 8 {
            return None;
        }
        Some(LittleEndian::read_u64(&self.bytes[at..at + 8]))
    }

    fn skip_zeros(&self, at: usize) -> usize {
        if at >= self.bytes.len() {
            return at;
        }
        match self.word(at) {
            Some(0) => at + 8,
            _ => at,
        }
    }
}

/// The head of the core. Ends the test if there is none.
pub(crate) fn head<'a>(rt: &impl Abort, core: &'a [u8]) -> &'a [u8]
    ensures head { IsHead result.now }
    ensures size { length result.now ≤ length core.now }
{
    match head_of(core) {
        Head::Length(len) if len <= core.len() as u64 => &core[..len as usize],
        _ => panic!(rt; "no head"),
    }
}

/// Words of the sample core with the word 7 at 0x10008. It has none at 0x11000.
static WORDS: [(u64, Option<u64>); 4] = [
    (0x10000, Some(0)),
    (0x10008, Some(7)),
    (0x10ff8, Some(0)),
    (0x11000, None),
];

/// Where it has words past zeros, if its rest passes over one word at a time.
static PAST_ZEROS: [(u64, Option<u64>); 7] = [
    (0, Some(0x10000)),
    (0x10000, Some(0x10008)),
    (0x10001, Some(0x10008)),
    (0x10008, Some(0x10008)),
    (0x10010, Some(0x10018)),
    (0x10ff8, None),
    (0x11000, None),
];

/// Blocks of a core whose words at 0x10108 and 0x10200 lead to a block: start, size, how many of the two are theirs.
const SCANS: [(u64, u64, usize); 6] = [
    (0x10100, 0x8, 0),
    (0x10100, 0x10, 1),
    (0x10104, 0x10, 1),
    (0x10110, 0xf0, 0),
    (0x10000, 0x1000, 2),
    (0x10000, 0x1000_0000, 2),
];

#[test]
fn words_behind_the_head(rt: HostRuntime) -> Result<(), Fail> {
    let core = core_k(rt.alloc(), &[(0x10008, 7)])?;
    let held = head(&rt, &core);
    let rest = Behind {
        bytes: &core[held.len()..],
    };
    let image = Image::passed(rt.alloc(), held, rest)?;
    same(&rt, image.segments(), &[SEGMENT]);
    same(&rt, image.note_parts(), &[PART]);
    for (addr, word) in &WORDS {
        same_in(&rt, addr, image.word(*addr), *word);
    }
    for (addr, later) in &PAST_ZEROS {
        same_in(&rt, addr, image.skip_zeros(*addr), *later);
    }
    Ok(())
}

#[test]
fn scans_behind_the_head(rt: HostRuntime) -> Result<(), Fail> {
    let alloc = rt.alloc();
    let core = core_k(alloc, &[(0x10108, 0x20000), (0x10200, 0x20008)])?;
    let held = head(&rt, &core);
    let rest = Behind {
        bytes: &core[held.len()..],
    };
    let image = Image::passed(alloc, held, rest)?;
    let live = lives(alloc, "+ 0x20000 0x20\n")?;
    let lookup = Sorted::new(&live, Reading::interior());
    for (start, size, wanted) in SCANS {
        let targets = Targets::of_block(&image, &lookup, &block(start, size));
        same_in(&rt, &(start, size), listed(alloc, targets)?.len(), wanted);
    }
    Ok(())
}

/// What the first bytes of the sample core say, of which the program headers end at 176 and the notes at 532.
static HEADS: [(usize, Head); 4] = [
    (0, Head::Needs(64)),
    (64, Head::Needs(176)),
    (176, Head::Length(536)),
    (8192, Head::Length(536)),
];

#[test]
fn the_head_by_first_bytes(rt: HostRuntime) -> Result<(), Fail> {
    let core = core_k(rt.alloc(), &[])?;
    for (len, wanted) in &HEADS {
        let len = core.len().min(*len);
        same_in(&rt, &len, head_of(&core[..len]), *wanted);
    }
    Ok(())
}
