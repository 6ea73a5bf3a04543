//! Refusals of the file header.

use crate::cores::{Refusal, SAMPLE, are_refused};
use leak_elf::ElfError;
use std::test::Fail;

/// The sample, the sample cut off, and with bytes replaced.
static FAULTS: [Refusal; 12] = [
    (SAMPLE, SAMPLE, &[], &[(0, &[])], None),
    (63, 63, &[], &[(0, &[])], Some(ElfError::Short)),
    (SAMPLE, SAMPLE, &[], &[(0, &[0])], Some(ElfError::Magic)),
    (SAMPLE, SAMPLE, &[], &[(4, &[1])], Some(ElfError::Class)),
    (SAMPLE, SAMPLE, &[], &[(5, &[2])], Some(ElfError::Data)),
    (SAMPLE, SAMPLE, &[], &[(6, &[0])], Some(ElfError::Version)),
    (SAMPLE, SAMPLE, &[], &[(16, &[2, 0])], Some(ElfError::Kind)),
    (
        SAMPLE,
        SAMPLE,
        &[],
        &[(18, &[3, 0])],
        Some(ElfError::Machine),
    ),
    (
        SAMPLE,
        SAMPLE,
        &[],
        &[(54, &[32, 0])],
        Some(ElfError::EntrySize),
    ),
    (
        SAMPLE,
        SAMPLE,
        &[],
        &[(56, &[0xff, 0xff])],
        Some(ElfError::Extended),
    ),
    (
        SAMPLE,
        SAMPLE,
        &[],
        &[(56, &[200, 0])],
        Some(ElfError::TableCut),
    ),
    // Of two faults the first by the order is answered.
    (SAMPLE, SAMPLE, &[], &[(4, &[1, 2])], Some(ElfError::Class)),
];

#[test]
fn each_fault_of_the_file_header_is_refused(rt: HostRuntime) -> Result<(), Fail> {
    are_refused(&rt, rt.alloc(), &FAULTS)
}
