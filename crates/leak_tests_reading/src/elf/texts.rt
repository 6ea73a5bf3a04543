//! What a refusal prints.

use crate::comparisons::print;
use leak_elf::ElfError;
use std::test::Fail;

static TEXTS: [(ElfError, &str); 15] = [
    (ElfError::Short, "shorter than an ELF header"),
    (ElfError::Magic, "not an ELF file"),
    (ElfError::Class, "not a 64-bit file"),
    (ElfError::Data, "not little-endian"),
    (ElfError::Version, "unknown ELF version"),
    (ElfError::Kind, "not a core file"),
    (ElfError::Machine, "not an x86-64 core"),
    (ElfError::EntrySize, "program header size is not 56"),
    (ElfError::Extended, "section header 0 is missing or cut off"),
    (ElfError::TableCut, "program headers are cut off"),
    (ElfError::Truncated(1), "header 1: contents are cut off"),
    (
        ElfError::SizeOrder(20),
        "header 20: file size is larger than memory size",
    ),
    (ElfError::Wrap(3), "header 3: addresses wrap"),
    (
        ElfError::Overlap(65533),
        "header 65533: overlaps an earlier segment",
    ),
    (ElfError::NoMemory, "out of memory"),
];

#[test]
fn texts_of_errors(rt: HostRuntime) -> Result<(), Fail> {
    print(&rt, rt.alloc(), &TEXTS)
}
