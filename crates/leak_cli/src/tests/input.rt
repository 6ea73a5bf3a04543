//! An input that is read.

use crate::tests::comparisons::same;
use leak_elf::core_k;
use leak_roots::Skip;
use leak_search::{find_roots, head_of, read_input};
use std::test::Fail;

#[test]
fn the_example_of_the_front_page(rt: HostRuntime) -> Result<(), Fail> {
    let alloc = rt.alloc();
    let core = core_k(alloc, &[])?;
    let input = read_input(alloc, 1, Skip::usual(), &core, b"+ 0x10100 0x20\n")?;
    let roots = find_roots(alloc, &input)?;
    same(&rt, head_of(&input, &roots, None).undumped, 0);
    Ok(())
}
