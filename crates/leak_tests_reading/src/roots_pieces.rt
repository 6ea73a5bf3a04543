//! Pieces of the root words.

use crate::comparisons::{same, same_in};
use crate::roots::roots_of;
use leak_roots::{CutError, Piece};
use std::test::Fail;

#[test]
fn pieces_have_the_words_that_are_asked(rt: HostRuntime) -> Result<(), Fail> {
    let without = roots_of(rt.alloc(), b"+ 0x10100 0x20\n")?;
    same(&rt, without.cut(rt.alloc(), 0).err(), Some(CutError::Zero));
    let hundreds = without.cut(rt.alloc(), 100)?;
    let expected = [
        Piece::Registers(0, 27),
        Piece::Memory(0x10000, 0x10100),
        Piece::Memory(0x10120, 0x10440),
        Piece::Memory(0x10440, 0x10760),
        Piece::Memory(0x10760, 0x10a80),
        Piece::Memory(0x10a80, 0x10da0),
        Piece::Memory(0x10da0, 0x11000),
    ];
    same(&rt, hundreds.as_slice(), expected.as_slice());
    same(&rt, without.cut(rt.alloc(), 1)?.len(), 535);
    let most = without.cut(rt.alloc(), usize::MAX)?;
    same(&rt, most.len(), 3);
    Ok(())
}

#[test]
fn pieces_are_told_by_their_numbers(rt: HostRuntime) -> Result<(), Fail> {
    let log = b"+ 0x10010 0x10\n+ 0x10060 0x10\n+ 0x10080 0xf80\n";
    let all = roots_of(rt.alloc(), log)?;
    same(&rt, all.pieces(rt.alloc(), 0).err(), Some(CutError::Zero));
    let pieces = all.pieces(rt.alloc(), 5)?;
    let last = [
        Piece::Registers(25, 27),
        Piece::Memory(0x10000, 0x10010),
        Piece::Memory(0x10020, 0x10048),
        Piece::Memory(0x10048, 0x10060),
        Piece::Memory(0x10070, 0x10080),
    ];
    same(&rt, pieces.len(), 10);
    for place in 5..pieces.len() {
        same(&rt, last.get(place - 5).copied(), Some(pieces.at(place)));
    }
    Ok(())
}

#[test]
fn pieces_by_number_are_those_of_the_list(rt: HostRuntime) -> Result<(), Fail> {
    let logs = [
        // no range, one of 512 words, and short ranges alone
        "+ 0x8000 0x10000\n",
        "",
        "+ 0x10010 0x10\n+ 0x10030 0x10\n+ 0x10050 0xfb0\n",
        // a range of 8 words before short ones, between them, and after them
        "+ 0x10040 0x10\n+ 0x10060 0x10\n+ 0x10080 0xf80\n",
        "+ 0x10010 0x10\n+ 0x10060 0x10\n+ 0x10080 0xf80\n",
        "+ 0x10010 0x10\n+ 0x10030 0x10\n+ 0x10080 0xf80\n",
        // two such ranges side by side, and with short ranges between them
        "+ 0x10040 0x10\n+ 0x10090 0xf70\n",
        "+ 0x10040 0x10\n+ 0x10060 0x10\n+ 0x10080 0x10\n+ 0x100d0 0x10\n+ 0x100f0 0xf10\n",
    ];
    for log in logs {
        let all = roots_of(rt.alloc(), log.as_bytes())?;
        for words in [1, 2, 3, 5, 7, 8, 26, 27, 100, usize::MAX] {
            let list = all.cut(rt.alloc(), words)?;
            let pieces = all.pieces(rt.alloc(), words)?;
            same_in(&rt, &(log, words), pieces.len(), list.len());
            for place in 0..pieces.len() {
                let piece = list.get(place).copied();
                same_in(&rt, &(log, words, place), piece, Some(pieces.at(place)));
            }
        }
    }
    Ok(())
}

#[test]
fn each_reason_has_its_text(rt: HostRuntime) -> Result<(), Fail> {
    let texts = [
        (CutError::Zero, "a piece needs a word"),
        (CutError::NoMemory, "out of memory"),
    ];
    for (error, text) in texts {
        same(&rt, format!(in rt.alloc(); "{error}")?.as_str(), text);
    }
    Ok(())
}
