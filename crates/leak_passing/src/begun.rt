//! The beginning of a core is read: its head, or all of it.

ghost use Rattle.std.specs.Prelude.{◌≡◌, ◌<◌, ℕ, List, false, length, take, IsTrue, IfOk, IfErr, IfSome};
ghost use Rattle.leak_roots.specs.declared.skip.Skip.{Skip};
ghost use Rattle.leak_streams.specs.Pieces.{HasComeTo};
ghost use Rattle.leak_streams.specs.Reads.{IsGivenUp};
ghost use Rattle.leak_passing.specs.Underway.{HasBegun, GoesOn, EndsWith, GivesUpFrom, place};
ghost use Rattle.leak_passing.specs.Begun.{AreOrderlySegments, BeginsWithHead, FindsHead, IsBegun, Says};

use leak_elf::{ElfError, Head, Segment, head_of, segments_in};
use leak_roots::Skip;
use leak_sift::are_orderly;
use leak_streams::{ReadCalls, ReadFault, Reading, read_sized};
use std::alloc::{AllocError, Global};

/// How many bytes of a core are read at most while its head is looked for, but for the rest of a piece: 64 MiB.
const MOST_HELD: u64 = 67_108_864;

/// A core, read up to its head.
#[derive(Drop)]
pub(crate) struct Front {
    pub(crate) reading: Reading,
    /// The bytes so far: the head, and those that were read with its last ones.
    pub(crate) held: Vec<u8>,
    /// How many bytes the head has.
    pub(crate) head: usize,
    /// The core's segments, which are orderly.
    pub(crate) segments: Vec<Segment>,
}

/// A core that was begun.
#[derive(Drop)]
pub(crate) enum Begun {
    /// It was read to its end. These are its bytes.
    Whole(Vec<u8>),
    /// It was read up to its head, and is sifted from there on.
    Head(Front),
}

/// What the first bytes of a core say of its head.
#[derive(Clone, Copy)]
enum Answer {
    /// So many bytes are needed to say more.
    More(u64),
    /// The head has so many bytes, and they are there.
    Head(usize),
    /// There is no head behind which the core could be sifted, or it is too long.
    Absent,
}

/// How the search for a core's head ended.
#[derive(Clone, Copy)]
enum Search {
    /// The core has ended.
    End,
    /// The head has so many bytes, and they are there.
    Head(usize),
    /// There is no head behind which the core could be sifted, or it is too long. The core may go on.
    Absent,
}

/// What is said if the head has at least so many bytes, which is more than there are.
fn more_of(least: u64) -> Answer
    ensures { (bytes : List ℕ) → Says bytes result }
{
    if least > MOST_HELD {
        Answer::Absent
    } else {
        Answer::More(least)
    }
}

/// What the first bytes of a core say of its head, if nothing can be said of fewer bytes than are needed.
fn ask(held: &[u8], needed: u64) -> Answer
    ensures { Says held.now result }
{
    let count = held.len() as u64;
    if count < needed {
        return Answer::More(needed);
    }
    match head_of(held) {
        Head::Needs(least) => more_of(least),
        Head::Length(head) => {
            if head <= count.min(MOST_HELD) {
                return Answer::Head(head as usize);
            }
            more_of(head)
        }
        Head::Absent => Answer::Absent,
    }
}

/// Reads the next piece of the core behind the bytes that are held. Tells whether there is one: if not, the core has
/// ended.
fn read_piece<R: ReadCalls>(
    reading: &mut Reading,
    reader: &mut R,
    limit: u64,
    held: &mut Vec<u8>,
) -> Result<bool, ReadFault>
    ensures more { IfOk result (λ more. IsTrue more → GoesOn R.calls limit
        (place reader.old reading.old held.old.items)
        (place reader.new reading.new held.new.items)) }
    ensures end { IfOk result (λ more. more ≡ false → EndsWith R.calls limit
        (place reader.old reading.old held.old.items) reader.new held.new.items) }
    ensures longer { IfOk result (λ more. IsTrue more
        → length held.old.items < length held.new.items) }
    ensures refused { IfErr result (GivesUpFrom R.calls limit
        (place reader.old reading.old held.old.items) reader.new) }
{
    let more = reading.next_piece(reader, limit)?;
    if !more {
        return Ok(false);
    }
    held.extend_from_slice(reading.piece())?;
    Ok(true)
}

/// Reads pieces of the core until its head is held, or it is known that there is none.
fn find_head<R: ReadCalls>(
    reading: &mut Reading,
    reader: &mut R,
    limit: u64,
    held: &mut Vec<u8>,
) -> Result<Search, ReadFault>
    requires { HasBegun R.calls limit (place reader.old reading.old held.old.items) }
    ensures found { IfOk result (FindsHead R.calls limit
        (place reader.old reading.old held.old.items)
        (place reader.new reading.new held.new.items)) }
    ensures refused { IfErr result (GivesUpFrom R.calls limit
        (place reader.old reading.old held.old.items) reader.new) }
{
    let mut needed = 0;
    'pieces: while read_piece(reading, reader, limit, held)? {
        match ask(held.as_slice(), needed) {
            Answer::More(least) => needed = least,
            Answer::Head(head) => return Ok(Search::Head(head)),
            Answer::Absent => return Ok(Search::Absent),
        }
    }
    Ok(Search::End)
}

/// Reads the core to its end, behind the bytes that are held.
fn read_to_end<R: ReadCalls>(
    mut reading: Reading,
    reader: &mut R,
    limit: u64,
    mut held: Vec<u8>,
) -> Result<Vec<u8>, ReadFault>
    requires { HasBegun R.calls limit (place reader.old reading held.items) }
    ensures ok { IfOk result (λ v. EndsWith R.calls limit
        (place reader.old reading held.items) reader.new v.items) }
    ensures refused { IfErr result (GivesUpFrom R.calls limit
        (place reader.old reading held.items) reader.new) }
{
    'pieces: while read_piece(&mut reading, reader, limit, &mut held)? {}
    Ok(held)
}

/// The segments of each core that begins with the bytes, of which the head has so many, if these are orderly and no
/// header is at fault.
fn orderly_segments(
    alloc: Global,
    held: &[u8],
    head: usize,
) -> Result<Option<Vec<Segment>>, AllocError>
    requires { BeginsWithHead held.now head }
    ensures { IfOk result (λ found. IfSome found (λ v.
        AreOrderlySegments (take head held.now) v.items)) }
{
    let segments = match segments_in(alloc, &held[..head], u64::MAX) {
        Ok(segments) => segments,
        Err(ElfError::NoMemory) => return Err(AllocError),
        Err(_) => return Ok(None),
    };
    if !are_orderly(segments.as_slice()) {
        return Ok(None);
    }
    Ok(Some(segments))
}

/// Begins a core whose head is held: if its segments are not orderly, it is read whole.
fn begin_at<R: ReadCalls>(
    alloc: Global,
    reading: Reading,
    reader: &mut R,
    limit: u64,
    held: Vec<u8>,
    head: usize,
) -> Result<Begun, ReadFault>
    requires begun { HasBegun R.calls limit (place reader.old reading held.items) }
    requires head { BeginsWithHead held.items head }
    ensures ok { IfOk result (λ begun. (first : R) (skip : Skip) → skip.dead ≡ false
        → HasComeTo R.calls limit first reader.old reading held.items
        → IsBegun R.calls limit first reader.new skip begun) }
    ensures refused { IfErr result (GivesUpFrom R.calls limit
        (place reader.old reading held.items) reader.new) }
{
    let found = orderly_segments(alloc, held.as_slice(), head)?;
    match found {
        Some(segments) => Ok(Begun::Head(Front {
            reading,
            held,
            head,
            segments,
        })),
        None => {
            let whole = read_to_end(reading, reader, limit, held)?;
            Ok(Begun::Whole(whole))
        }
    }
}

/// Begins to read a core, which is said to have so many bytes: up to its head, in pieces of at most `piece` bytes, or
/// whole if it can't be sifted.
pub(crate) fn begin_core<R: ReadCalls>(
    alloc: Global,
    reader: &mut R,
    limit: u64,
    size: u64,
    piece: usize,
    skip: Skip,
) -> Result<Begun, ReadFault>
    ensures ok { IfOk result (IsBegun R.calls limit reader.old reader.new skip) }
    ensures refused { IfErr result (IsGivenUp R.calls limit reader.old reader.new) }
{
    if skip.dead {
        let whole = read_sized(alloc, reader, limit, size)?;
        return Ok(Begun::Whole(whole));
    }
    let mut reading = Reading::begin::<R>(alloc, piece)?;
    let mut held = Vec::new(alloc);
    let search = find_head(&mut reading, reader, limit, &mut held)?;
    match search {
        Search::End => Ok(Begun::Whole(held)),
        Search::Head(head) => begin_at(alloc, reading, reader, limit, held, head),
        Search::Absent => {
            let bytes = read_to_end(reading, reader, limit, held)?;
            Ok(Begun::Whole(bytes))
        }
    }
}
