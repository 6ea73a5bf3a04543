//! Texts of faults, and what their own Display writes.

use crate::tests::comparisons::same_in;
use leak_elf::ElfError;
use leak_find::{DisplaceFault, FindError, ReadFault, ReadingError, UsageFault, WriteFault};
use leak_mtrace::LogError;
use leak_notes::NoteError;
use leak_program::{push_displace, push_find, push_read, push_usage, push_write};
use leak_request::AddressArgument;
use std::test::*;

/// Each reason to refuse a core, with numbers that are short and long.
const CORES: [ElfError; 17] = [
    ElfError::Short,
    ElfError::Magic,
    ElfError::Class,
    ElfError::Data,
    ElfError::Version,
    ElfError::Kind,
    ElfError::Machine,
    ElfError::EntrySize,
    ElfError::Extended,
    ElfError::TableCut,
    ElfError::Truncated(0),
    ElfError::Truncated(usize::MAX),
    ElfError::SizeOrder(10),
    ElfError::Wrap(99),
    ElfError::Overlap(100),
    ElfError::Overlap(65536),
    ElfError::NoMemory,
];

/// Each reason to refuse notes.
const NOTES: [NoteError; 6] = [
    NoteError::Cut(0),
    NoteError::Cut(u64::MAX),
    NoteError::StatusSize(176),
    NoteError::VectorSize(532),
    NoteError::NoThread,
    NoteError::NoMemory,
];

/// Each reason to refuse a log.
const LOGS: [LogError; 4] = [
    LogError::BadLine(1),
    LogError::BadLine(usize::MAX),
    LogError::Extent(1000),
    LogError::NoMemory,
];

#[test]
fn texts_of_inputs_are_those_of_display(rt: HostRuntime) -> Result<(), Fail> {
    let alloc = rt.alloc();
    let mut errors = vec![in alloc;
        FindError::NotPrefix,
        FindError::TooMany,
        FindError::NoMemory,
    ]?;
    for error in CORES {
        errors.push(FindError::Core(1, error))?;
    }
    for error in NOTES {
        errors.push(FindError::Notes(2, error))?;
    }
    for error in LOGS {
        errors.push(FindError::Log(255, error))?;
    }
    for error in errors.as_slice() {
        let mut text = String::new(alloc);
        push_find(&mut text, *error)?;
        let wanted = error.to_string(alloc)?;
        same_in(&rt, error, text.as_str(), wanted.as_str());
    }
    Ok(())
}

#[test]
fn texts_of_streams_are_those_of_display(rt: HostRuntime) -> Result<(), Fail> {
    let alloc = rt.alloc();
    let reads = [
        ReadFault::TooLong,
        ReadFault::Device,
        ReadFault::TooManyTurns,
        ReadFault::NoMemory,
    ];
    for fault in reads {
        let mut text = String::new(alloc);
        push_read(&mut text, fault)?;
        let wanted = fault.to_string(alloc)?;
        same_in(&rt, &fault, text.as_str(), wanted.as_str());
    }
    for written in [0, 1, 4096, u64::MAX] {
        let fault = WriteFault { written };
        let mut text = String::new(alloc);
        push_write(&mut text, fault)?;
        let wanted = fault.to_string(alloc)?;
        same_in(&rt, &fault, text.as_str(), wanted.as_str());
    }
    Ok(())
}

#[test]
fn texts_of_words_are_those_of_display(rt: HostRuntime) -> Result<(), Fail> {
    let alloc = rt.alloc();
    let lists = [
        DisplaceFault::Number(0),
        DisplaceFault::Number(usize::MAX),
        DisplaceFault::Reading(ReadingError::TooMany),
        DisplaceFault::Reading(ReadingError::TooLarge(15)),
    ];
    for fault in lists {
        let mut text = String::new(alloc);
        push_displace(&mut text, fault)?;
        let wanted = fault.to_string(alloc)?;
        same_in(&rt, &fault, text.as_str(), wanted.as_str());
    }
    let words = "error: no\n".to_string(alloc)?;
    let faults = [
        UsageFault::Words(words),
        UsageFault::Displace(DisplaceFault::Number(3)),
        UsageFault::Check,
        UsageFault::Sides,
        UsageFault::Block,
        UsageFault::Address(AddressArgument::Operand),
        UsageFault::Address(AddressArgument::In),
        UsageFault::Address(AddressArgument::Of),
        UsageFault::NoMemory,
    ];
    for fault in &faults {
        let mut text = String::new(alloc);
        push_usage(&mut text, fault)?;
        let wanted = fault.to_string(alloc)?;
        same_in(&rt, fault, text.as_str(), wanted.as_str());
    }
    Ok(())
}
