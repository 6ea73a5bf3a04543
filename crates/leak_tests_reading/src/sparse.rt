//! Lists of words of which most are 0.
use crate::comparisons::{same, same_in};
use leak_sparse::SparseWords;
use std::alloc::{AllocError, Global};
use std::process::Abort;
use std::test::*;

/// Appends each of the words.
fn push_all(words: &mut SparseWords, all: &[u64]) -> Result<(), AllocError> {
    for word in all {
        words.push(*word)?;
    }
    Ok(())
}

/// Words in which one of five is not 0, from a place of a longer list to another.
fn fifths(alloc: Global, from: u64, to: u64) -> Result<Vec<u64>, AllocError> {
    let mut all = Vec::new(alloc);
    for place in from..to {
        all.push(if place % 5 == 3 { place } else { 0 })?;
    }
    Ok(all)
}

/// The same words as a list.
fn listed(alloc: Global, from: u64, to: u64) -> Result<SparseWords, AllocError> {
    let all = fifths(alloc, from, to)?;
    let mut words = SparseWords::new(alloc);
    push_all(&mut words, all.as_slice())?;
    Ok(words)
}

/// Ends the test if the list has other words.
fn has_words(rt: &impl Abort, words: &SparseWords, all: &[u64]) {
    same(rt, words.len(), all.len());
    for (place, word) in all.iter().enumerate() {
        same_in(rt, &place, words.get(place), Some(*word));
    }
    same(rt, words.get(all.len()), None);
}

#[test]
fn each_word_stands_where_it_was_put(rt: HostRuntime) -> Result<(), Fail> {
    let all = fifths(rt.alloc(), 0, 203)?;
    let words = listed(rt.alloc(), 0, 203)?;
    has_words(&rt, &words, all.as_slice());
    same(&rt, words.len(), 203);
    same(&rt, words.kept(), 40);
    same(&rt, words.get(usize::MAX), None);
    Ok(())
}

/// 64 words at once, of which four bits are set, one of them of a word that is 0; and a word behind them.
#[test]
fn sixty_four_words_at_once(rt: HostRuntime) -> Result<(), Fail> {
    let mut group = [[0; 8]; 64];
    group[0] = 7_u64.to_le_bytes();
    group[5] = 8_u64.to_le_bytes();
    group[32] = u64::MAX.to_le_bytes();
    group[63] = 0x0102_0304_0506_0708_u64.to_le_bytes();
    let mut words = SparseWords::new(rt.alloc());
    words.push_group(1 | 1 << 9 | 1 << 32 | 1 << 63, &group)?;
    same(&rt, words.len(), 64);
    same(&rt, words.kept(), 3);
    words.push(4)?;
    for (place, word) in [
        (0, 7),
        (5, 0),
        (9, 0),
        (32, u64::MAX),
        (63, 0x0102_0304_0506_0708),
        (64, 4),
    ] {
        same_in(&rt, &place, words.get(place), Some(word));
    }
    same(&rt, words.next_kept(1), Some(32));
    Ok(())
}

/// Words that aren't 0, each behind so many that are, as `push_after` appends them and one by one.
#[test]
fn words_behind_zeros(rt: HostRuntime) -> Result<(), Fail> {
    let mut words = SparseWords::new(rt.alloc());
    let mut all = Vec::new(rt.alloc());
    for zeros in [0, 0, 1, 60, 1, 63, 64, 65, 200, 0, 127, 0] {
        words.push_after(zeros, zeros as u64 + 1)?;
        all.resize(all.len() + zeros, 0)?;
        all.push(zeros as u64 + 1)?;
        has_words(&rt, &words, all.as_slice());
    }
    same(&rt, words.kept(), 12);
    assert!(rt; words.push_after(usize::MAX, 1).is_err());
    assert!(rt; words.push_after(usize::MAX - all.len(), 1).is_err());
    has_words(&rt, &words, all.as_slice());
    Ok(())
}

#[test]
fn the_next_word_that_is_not_0(rt: HostRuntime) -> Result<(), Fail> {
    let mut words = SparseWords::new(rt.alloc());
    push_all(&mut words, [0, 7, 0].as_slice())?;
    words.push_zeros(1_000_000)?;
    push_all(&mut words, [8, 0, u64::MAX].as_slice())?;
    let rows = [
        (0, Some(1)),
        (1, Some(1)),
        (2, Some(1_000_003)),
        (999_999, Some(1_000_003)),
        (1_000_003, Some(1_000_003)),
        (1_000_004, Some(1_000_005)),
        (1_000_006, None),
        (usize::MAX, None),
    ];
    for (from, wanted) in &rows {
        same_in(&rt, from, words.next_kept(*from), *wanted);
    }
    same(&rt, words.len(), 1_000_006);
    same(&rt, words.kept(), 3);
    same(&rt, words.get(1_000_005), Some(u64::MAX));
    Ok(())
}

/// Ranges of 203 words: none, within a group, up to the end of one, over several, and up to the last word.
const RANGES: [(usize, usize); 11] = [
    (0, 203),
    (0, 0),
    (203, 203),
    (3, 4),
    (4, 8),
    (63, 65),
    (64, 128),
    (0, 192),
    (128, 192),
    (130, 203),
    (199, 203),
];

/// The words of a range that aren't 0. Ends the test if the list is shorter.
fn kept_between<'a>(rt: &impl Abort, words: &'a SparseWords, from: usize, to: usize) -> &'a [u64] {
    assert!(rt; from <= to && to <= words.len(), "{from} {to}");
    words.kept_between(from, to)
}

#[test]
fn words_of_a_range_that_are_not_0(rt: HostRuntime) -> Result<(), Fail> {
    let words = listed(rt.alloc(), 0, 203)?;
    for (from, to) in RANGES {
        let mut wanted = Vec::new(rt.alloc());
        for word in &fifths(rt.alloc(), from as u64, to as u64)? {
            if *word != 0 {
                wanted.push(*word)?;
            }
        }
        let kept = kept_between(&rt, &words, from, to);
        same_in(&rt, &(from, to), kept, wanted.as_slice());
    }
    let full = listed(rt.alloc(), 0, 192)?;
    same(&rt, kept_between(&rt, &full, 190, 192).len(), 0);
    same(&rt, kept_between(&rt, &full, 188, 192), [188].as_slice());
    Ok(())
}

#[test]
fn zeros_of_one_group_are_skipped(rt: HostRuntime) -> Result<(), Fail> {
    let mut words = SparseWords::new(rt.alloc());
    push_all(&mut words, [0, 7, 0].as_slice())?;
    words.push_zeros(1_000_000)?;
    push_all(&mut words, [8, 0, u64::MAX, 0, 0].as_slice())?;
    let rows = [
        (0, 1),
        (1, 1),
        (2, 64),
        (63, 64),
        (64, 128),
        (999_999, 1_000_000),
        (1_000_000, 1_000_003),
        (1_000_004, 1_000_005),
        (1_000_006, 1_000_008),
        (1_000_007, 1_000_008),
    ];
    for (from, wanted) in &rows {
        if *from >= words.len() {
            return Ok(assert!(rt; false, "{from} is a place"));
        }
        same_in(&rt, from, words.skip_zeros(*from), *wanted);
    }
    Ok(())
}

#[test]
fn zeros_end_at_the_bounds_of_groups(rt: HostRuntime) -> Result<(), Fail> {
    for count in [0usize, 1, 63, 64, 65, 127, 128, 129] {
        let mut words = SparseWords::new(rt.alloc());
        words.push_zeros(count)?;
        words.push(5)?;
        words.push_zeros(64)?;
        words.push(6)?;
        same_in(&rt, &count, words.next_kept(0), Some(count));
        same_in(&rt, &count, words.next_kept(count + 1), Some(count + 65));
        same_in(&rt, &count, words.get(count + 65), Some(6));
        same_in(&rt, &count, words.len(), count + 66);
    }
    Ok(())
}

#[test]
fn a_list_follows_whole_groups(rt: HostRuntime) -> Result<(), Fail> {
    for before in [0u64, 64, 128] {
        for count in [0u64, 1, 63, 64, 200] {
            let mut words = listed(rt.alloc(), 0, before)?;
            let more = listed(rt.alloc(), before, before + count)?;
            if words.len() % 64 != 0 {
                return Ok(assert!(rt; false, "{before} words fill groups"));
            }
            words.append(&more)?;
            let mut all = fifths(rt.alloc(), 0, before + count)?;
            has_words(&rt, &words, all.as_slice());
            same_in(
                &rt,
                &(before, count),
                words.kept(),
                (before + count + 1) as usize / 5,
            );
            words.push(7)?;
            all.push(7)?;
            has_words(&rt, &words, all.as_slice());
        }
    }
    Ok(())
}

/// The words between two bounds, and 0 in place of each other one.
fn between(alloc: Global, all: &[u64], low: u64, high: u64) -> Result<Vec<u64>, AllocError> {
    let mut words = Vec::new(alloc);
    for word in all {
        let stays = low <= *word && *word <= high;
        words.push(if stays { *word } else { 0 })?;
    }
    Ok(words)
}

/// Bounds of words: all are between, one is, those at the bounds are or aren't, those of a group are, and none is.
const BOUNDS: [(u64, u64); 8] = [
    (0, u64::MAX),
    (8, 8),
    (8, 198),
    (9, 197),
    (64, 127),
    (199, u64::MAX),
    (0, 2),
    (198, 8),
];

#[test]
fn words_between_bounds_are_retained(rt: HostRuntime) -> Result<(), Fail> {
    for (low, high) in BOUNDS {
        for count in [0u64, 1, 64, 128, 203] {
            let all = fifths(rt.alloc(), 0, count)?;
            let wanted = between(rt.alloc(), all.as_slice(), low, high)?;
            let words = listed(rt.alloc(), 0, count)?.retain_between(low, high);
            has_words(&rt, &words, wanted.as_slice());
            let mut stay = Vec::new(rt.alloc());
            for word in &wanted {
                if *word != 0 {
                    stay.push(*word)?;
                }
            }
            same_in(&rt, &(low, high), words.kept(), stay.len());
            let kept = kept_between(&rt, &words, 0, words.len());
            same_in(&rt, &(low, high), kept, stay.as_slice());
        }
    }
    Ok(())
}

#[test]
fn a_list_grows_after_words_are_gone(rt: HostRuntime) -> Result<(), Fail> {
    for (low, high) in BOUNDS {
        let old = fifths(rt.alloc(), 0, 191)?;
        let mut all = between(rt.alloc(), old.as_slice(), low, high)?;
        let more = listed(rt.alloc(), 192, 300)?;
        let mut words = listed(rt.alloc(), 0, 191)?.retain_between(low, high);
        words.push(7)?;
        all.push(7)?;
        has_words(&rt, &words, all.as_slice());
        if words.len() % 64 != 0 {
            return Ok(assert!(rt; false, "192 words fill groups"));
        }
        words.append(&more)?;
        all.extend_from_slice(fifths(rt.alloc(), 192, 300)?.as_slice())?;
        words.push_zeros(100)?;
        words.push(9)?;
        all.resize(400, 0)?;
        all.push(9)?;
        has_words(&rt, &words, all.as_slice());
    }
    Ok(())
}

#[test]
fn words_are_gone_twice(rt: HostRuntime) -> Result<(), Fail> {
    let all = fifths(rt.alloc(), 0, 203)?;
    let wanted = between(rt.alloc(), all.as_slice(), 50, 150)?;
    let words = listed(rt.alloc(), 0, 203)?
        .retain_between(0, 150)
        .retain_between(50, u64::MAX);
    has_words(&rt, &words, wanted.as_slice());
    same(&rt, words.kept(), 20);
    same(&rt, words.next_kept(0), Some(53));
    same(&rt, words.next_kept(149), None);
    let none = words.retain_between(151, u64::MAX);
    same(&rt, none.kept(), 0);
    same(&rt, none.len(), 203);
    same(&rt, none.next_kept(0), None);
    Ok(())
}

#[test]
fn more_places_than_numbers_are_refused(rt: HostRuntime) -> Result<(), Fail> {
    let mut words = SparseWords::new(rt.alloc());
    words.push(5)?;
    assert!(rt; words.push_zeros(usize::MAX).is_err());
    same(&rt, words.len(), 1);
    same(&rt, words.get(0), Some(5));
    Ok(())
}
