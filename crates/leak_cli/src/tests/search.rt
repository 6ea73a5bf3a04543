//! Searches of cores in memory.

use crate::tests::comparisons::same;
use leak_elf::core_k;
use leak_search::{Rules, find_alone};
use std::test::*;

#[test]
fn the_example_of_the_front_page(rt: HostRuntime) -> Result<(), Fail> {
    let alloc = rt.alloc();
    let core = core_k(alloc, &[])?;
    let log = b"@ ./a.out:[0x401136] + 0x10100 0x20\n";
    let found = find_alone(alloc, &core, log, Rules::usual(), false)?;
    same(&rt, found.leaked, 1);
    Ok(())
}
