//! The totals of leaked blocks.

ghost use Rattle.std.specs.Prelude.{length};

use crate::tests::comparisons::same;
use crate::tests::report::samples::have_callers_in;
use leak_blocks::replay;
use leak_mtrace::Log;
use leak_report::{Totals, count_clear};
use std::test::Fail;

#[test]
fn totals_of_leaked_blocks(rt: HostRuntime) -> Result<(), Fail> {
    let log = "@ b + 0x100 0x8\n@ a + 0x200 0x8\n@ b + 0x300 0\n@ a + 0x400 0xffff\n";
    let live = replay(rt.alloc(), &Log::read(rt.alloc(), log.as_bytes())?)?;
    let set = [false, false, false, true];
    // the entry of the marked block says nothing
    let heads = [true, false, false, true];
    assert!(rt; live.blocks().len() == set.len());
    assert!(rt; live.blocks().len() == heads.len());
    assert!(rt; have_callers_in(live.blocks(), log.as_bytes()));
    let totals = Totals::of(rt.alloc(), &live, &set, &heads, log.as_bytes())?;
    same(&rt, (totals.blocks, totals.bytes, totals.heads), (3, 16, 1));
    let rows = [(1, 8, 0, (18, 19)), (2, 8, 1, (2, 3))];
    same(&rt, totals.rows.len(), rows.len());
    for (row, (blocks, bytes, heads, caller)) in totals.rows.iter().zip(rows) {
        same(
            &rt,
            (row.blocks, row.bytes, row.heads, row.caller),
            (blocks, bytes, heads, caller),
        );
    }
    Ok(())
}

#[test]
fn marks_that_are_not_set_are_counted(rt: HostRuntime) -> Result<(), Fail> {
    same(&rt, count_clear(&[true, false, false]), 2);
    same(&rt, count_clear(&[]), 0);
    Ok(())
}
