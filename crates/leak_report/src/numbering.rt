//! Texts in the order of their bytes.
ghost use Rattle.std.specs.Prelude.{◌≡◌, ◌^◌, ◌<◌, length, map, slice_index, All, Contains, IfOk};
ghost use Rattle.std.specs.List.Sorted.{IsSorted};
ghost use Rattle.std.specs.Cmp.Lexicographic.{slice_cmp};
ghost use Rattle.std.specs.Ordering.{nat_cmp};
ghost use Rattle.leak_report.specs.Numbered.{AreNumbered, bytes_each, text_with};
ghost use Rattle.leak_report.specs.Meeting.{AreNumberedAsMet, IsSortOf};

use crate::meeting::meet_each;
use crate::texts::Texts;
use std::alloc::{AllocError, Global};

/// The texts in the order of their bytes.
fn sorted<'a>(alloc: Global, texts: &[&'a [u8]]) -> Result<Vec<&'a [u8]>, AllocError>
    ensures { IfOk result (λ sorted. IsSortOf texts.now sorted.items) }
{
    let mut sorted = Vec::from_slice(alloc, texts)?;
    sorted.sort()?;
    Ok(sorted)
}

/// The place of a text among those that are sorted, of which it is one.
fn place(sorted: &[&[u8]], text: &[u8]) -> u32
    requires few { length sorted.now < 2 ^ 32 }
    requires ordered { IsSorted (λ x y. slice_cmp nat_cmp x.now y.now) sorted.now }
    requires one { Contains (bytes_each sorted.now) text.now }
    ensures below { result < length sorted.now }
    ensures is { text_with (bytes_each sorted.now) result ≡ text.now }
{
    match sorted.binary_search(&text) {
        Ok(place) => place as u32,
        Err(_) => unreachable!(),
    }
}

/// For each text its place among those that are sorted.
fn places(alloc: Global, texts: &[&[u8]], sorted: &[&[u8]]) -> Result<Vec<u32>, AllocError>
    requires few { length sorted.now < 2 ^ 32 }
    requires sort { IsSortOf texts.now sorted.now }
    ensures each { IfOk result (λ places.
        map (text_with (bytes_each sorted.now)) places.items ≡ bytes_each texts.now) }
    ensures below { IfOk result (λ places. All (λ n. n < length sorted.now) places.items) }
{
    let mut places = Vec::with_capacity(alloc, texts.len())?;
    for text in texts {
        places.push(place(sorted, text))?;
    }
    Ok(places)
}

/// Replaces each number by its place.
fn renumber(numbers: &mut [u32], places: &[u32])
    requires { All (λ n. n < length places.now) numbers.old }
    ensures { numbers.new ≡ map (slice_index places.now) numbers.old }
{
    for number in numbers.iter_mut() {
        *number = places[*number as usize];
    }
}

/// Numbers texts that are numbered as they were met in the order of their bytes. It takes no memory for each number.
pub(crate) fn in_order<'a>(alloc: Global, met: Texts<'a>) -> Result<Texts<'a>, AllocError>
    requires few { length met.texts.items < 2 ^ 32 }
    requires as_met { AreNumberedAsMet
        (map (text_with (bytes_each met.texts.items)) met.numbers.items)
        (bytes_each met.texts.items) met.numbers.items }
    ensures { IfOk result (λ numbered. AreNumbered
        (map (text_with (bytes_each met.entry.texts.items)) met.entry.numbers.items)
        (bytes_each numbered.texts.items) numbered.numbers.items) }
{
    let texts = sorted(alloc, met.texts.as_slice())?;
    let places = places(alloc, met.texts.as_slice(), texts.as_slice())?;
    let mut numbers = met.numbers;
    renumber(numbers.as_mut_slice(), places.as_slice());
    Ok(Texts { texts, numbers })
}

/// Numbers texts in the order of their bytes.
///
/// While it runs it takes four bytes for each given text, and about 80 for each text, counted once.
pub fn number<'a>(alloc: Global, given: &[&'a [u8]]) -> Result<Texts<'a>, AllocError>
    requires { length given.now < 2 ^ 32 }
    ensures { IfOk result (λ numbered. AreNumbered (bytes_each given.now)
        (bytes_each numbered.texts.items) numbered.numbers.items) }
{
    in_order(alloc, meet_each(alloc, given)?)
}
