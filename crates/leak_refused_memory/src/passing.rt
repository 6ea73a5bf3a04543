//! The calls that replay a log while it is read, and that make room for the words of a core.

use crate::answer::Answer;
use crate::reading::GIVEN_BACK;
use crate::samples::FOUR_CALLERS;
use leak_find::ReadFault;
use leak_mtrace::LogError;
use leak_replaying::{LogByTexts, replay_reading};
use leak_sparse::SparseWords;
use leak_team::Team;
use leak_texts::{TextTable, gather};
use std::alloc::Global;
use std::io::Cursor;
use std::thread::Threads;

/// `TextTable::number` of three texts, of which the first is met again. After want of memory the table has the texts
/// that it had.
pub(crate) fn numbers(alloc: Global) -> Option<Answer> {
    let given: [(&[u8], u32); 4] = [
        (b"a:[0x1]", 0),
        (b"c:[0x3]", 1),
        (b"a:[0x1]", 0),
        (b"b:[0x2]", 2),
    ];
    let mut table = TextTable::new(alloc);
    let mut are_wanted = true;
    for (text, wanted) in given {
        match table.number(text) {
            Ok(number) => are_wanted = are_wanted && number == wanted,
            Err(_) => return Some(Answer::of_refusal(table.len() == wanted as usize)),
        }
    }
    Some(Answer::of(are_wanted && table.len() == 3))
}

/// `gather` of three numbers, two of them at one place.
pub(crate) fn gathered(alloc: Global) -> Option<Answer> {
    match gather(alloc, &[5, 6, 7], &[2, 0, 2]) {
        Ok(numbers) => Some(Answer::of(numbers.as_slice() == [7, 5, 7].as_slice())),
        Err(_) => Some(Answer::Wanting),
    }
}

/// `SparseWords::reserve` for a thousand words after one. A list with room or without has its word.
pub(crate) fn room(alloc: Global) -> Option<Answer> {
    let mut words = SparseWords::new(alloc);
    words.push(7).ok()?;
    let made = words.reserve(1000, 50).is_ok();
    let is_kept = words.len() == 1 && words.get(0) == Some(7);
    Some(if made {
        Answer::of(is_kept)
    } else {
        Answer::of_refusal(is_kept)
    })
}

/// Whether a log comes to so many live blocks and ranges of small allocations, and so many texts are kept.
fn answer_of(by_texts: &LogByTexts, blocks: usize, ranges: usize, texts: usize) -> Answer {
    match &by_texts.read {
        Ok((replayed, spans)) => Answer::of(
            replayed.live.blocks().len() == blocks
                && replayed.torn == 0
                && spans.ranges().len() == ranges
                && by_texts.texts.places.len() == texts,
        ),
        Err(error) => Answer::of_refusal(*error == LogError::NoMemory),
    }
}

/// `replay_reading` of four blocks of three callers.
pub(crate) fn replayed<R: Threads + Sync>(team: &Team<'_, R>) -> Option<Answer> {
    let alloc = team.alloc;
    let mut reader = Cursor::new(FOUR_CALLERS.as_bytes().to_vec(alloc).ok()?);
    let size = FOUR_CALLERS.len() as u64;
    match replay_reading(team, &mut reader, 1000, size, false) {
        Ok(by_texts) => Some(answer_of(&by_texts, 4, 0, 3)),
        Err(fault) => Some(Answer::of_refusal(fault == ReadFault::NoMemory)),
    }
}

/// `replay_reading` of a log of which one block is live, with spans, and without the log's size.
pub(crate) fn replayed_spans<R: Threads + Sync>(team: &Team<'_, R>) -> Option<Answer> {
    let alloc = team.alloc;
    let mut reader = Cursor::new(GIVEN_BACK.as_bytes().to_vec(alloc).ok()?);
    match replay_reading(team, &mut reader, 1000, 0, true) {
        Ok(by_texts) => Some(answer_of(&by_texts, 1, 1, 1)),
        Err(fault) => Some(Answer::of_refusal(fault == ReadFault::NoMemory)),
    }
}

/// `replay_reading` of a log that is said to be small, of whose 400 allocations all but the last few are let go.
pub(crate) fn replayed_turns<R: Threads + Sync>(team: &Team<'_, R>) -> Option<Answer> {
    let alloc = team.alloc;
    let mut log = Vec::new(alloc);
    for _ in 0..400 {
        log.extend_from_slice(b"- 0x10100\n@ ./a.out:[0x401136] + 0x10100 0x20\n")
            .ok()?;
    }
    let mut reader = Cursor::new(log);
    match replay_reading(team, &mut reader, 20_000, 1, false) {
        Ok(by_texts) => Some(answer_of(&by_texts, 1, 0, 1)),
        Err(fault) => Some(Answer::of_refusal(fault == ReadFault::NoMemory)),
    }
}
