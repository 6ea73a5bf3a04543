//! Cores of many segments: time must not grow with the square of their number.

use crate::comparisons::{same, same_in};
use crate::cores::{LOAD, begun, made, push_header, refusal};
use leak_elf::{ElfError, Image, Words};
use std::alloc::Global;
use std::process::Abort;
use std::test::Fail;

/// How the addresses of segments go on.
#[derive(Clone, Copy)]
enum Order {
    Ascending,
    Descending,
}

static ORDERS: [Order; 2] = [Order::Ascending, Order::Descending];

/// A core of 140,000 segments of a page each, in the order: more than `e_phnum` can give. Section
/// header 0 gives the number of program headers, of which a caller may append more.
fn many_segments(alloc: Global, headers: u64, order: Order) -> Result<Vec<u8>, Fail> {
    let words = [(32, 128), (40, 64), (56, 0xffff), (108, headers)];
    let mut core = made(alloc, 64, 128, &words, &[])?;
    for i in 0..140_000_u64 {
        let page = match order {
            Order::Ascending => i,
            Order::Descending => 139_999 - i,
        };
        push_header(&mut core, LOAD, 0, 4096 * page, 0, 4096)?;
    }
    Ok(core)
}

/// How many segments a core of many segments has, and how many of their bytes are not dumped.
fn sizes(alloc: Global, order: Order) -> Result<(usize, u64), Fail> {
    let core = many_segments(alloc, 140_000, order)?;
    let image = Image::read(alloc, core.as_slice())?;
    Ok((image.segments().len(), image.undumped()))
}

#[test]
fn many_segments_are_read_in_any_order(rt: HostRuntime) -> Result<(), Fail> {
    for &order in &ORDERS {
        let found = sizes(rt.alloc(), order)?;
        same(&rt, found, (140_000, 4096 * 140_000));
    }
    Ok(())
}

/// Why a core of many segments is refused if one more overlaps one in the middle.
fn refusal_of_one_more(alloc: Global, order: Order) -> Result<Option<ElfError>, Fail> {
    let mut core = many_segments(alloc, 140_001, order)?;
    push_header(&mut core, LOAD, 0, 4096 * 70_000, 0, 4096)?;
    Ok(refusal(alloc, core.as_slice()))
}

#[test]
fn the_last_of_many_segments_may_overlap(rt: HostRuntime) -> Result<(), Fail> {
    for &order in &ORDERS {
        let refused = refusal_of_one_more(rt.alloc(), order)?;
        same(&rt, refused, Some(ElfError::Overlap(140_000)));
    }
    Ok(())
}

/// The address of the last of a row of segments.
const LAST: u64 = 4096 * 0xfffd;

/// A core of a row of segments of a page each, of which the last alone has a dumped word: the first of the file.
fn row(alloc: Global) -> Result<Vec<u8>, Fail> {
    let mut core = begun(alloc, 0xfffe)?;
    for i in 0..0xfffd_u64 {
        push_header(&mut core, LOAD, 0, 4096 * i, 0, 4096)?;
    }
    push_header(&mut core, LOAD, 0, LAST, 8, 4096)?;
    Ok(core)
}

/// How often the test of a row of segments asks for each. If `next` went over the row each time, the
/// test would run past the minute that it has.
const ROUNDS: usize = 32;

/// Ends the test if the next word from some segment of the row on is another than the last segment's.
fn skips_the_row(rt: &impl Abort, image: &Image) {
    for _ in 0..ROUNDS {
        for i in 0..0xfffe_u64 {
            same_in(rt, &i, image.next(4096 * i), Some(LAST));
        }
    }
    let found = (image.word(LAST), image.next(LAST + 1));
    same(rt, found, (Some(0x0001_0102_464c_457f), None));
}

#[test]
fn next_skips_a_row_of_undumped_segments(rt: HostRuntime) -> Result<(), Fail> {
    let core = row(rt.alloc())?;
    let image = Image::read(rt.alloc(), core.as_slice())?;
    skips_the_row(&rt, &image);
    Ok(())
}
