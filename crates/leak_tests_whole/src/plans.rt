//! Plans by which the same reports are asked for.

use leak_pool::Plan;
use std::alloc::Global;
use std::test::Fail;

/// Plans of few and of many workers, short and long pieces, small and large stacks.
pub fn plans(alloc: Global) -> Result<Vec<Plan>, Fail> {
    let mut plans = Vec::new(alloc);
    for workers in [1, 2, 3, 64] {
        for piece in [1, 65_536] {
            for stack in [0, 1, 65_536] {
                plans.push(Plan::new(workers, piece, stack)?)?;
            }
        }
    }
    Ok(plans)
}

/// The same numbers of workers, with short pieces and no stack, and with long pieces and a large stack.
pub fn few_plans(alloc: Global) -> Result<Vec<Plan>, Fail> {
    let mut plans = Vec::new(alloc);
    for workers in [1, 2, 3, 64] {
        plans.push(Plan::new(workers, 1, 0)?)?;
        plans.push(Plan::new(workers, 65_536, 65_536)?)?;
    }
    Ok(plans)
}
