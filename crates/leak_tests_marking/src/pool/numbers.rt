//! Numbers of a plan, and what errors print.

use leak_pool::{Plan, PlanError, PoolError};
use std::fmt::Write;
use std::test::Fail;

#[test]
fn plans_within_their_bounds(rt: HostRuntime) -> Result<(), Fail> {
    let plan = Plan::new(64, 65_536, 65_536)?;
    assert_eq!(rt; plan.workers(), 64);
    assert_eq!(rt; plan.piece(), 65_536);
    assert_eq!(rt; plan.stack(), 65_536);
    let refused = [
        (0, 0, 65_537, PlanError::Workers),
        (65, 1, 0, PlanError::Workers),
        (1, 0, 0, PlanError::Piece),
        (1, 65_537, 0, PlanError::Piece),
        (1, 1, 65_537, PlanError::Stack),
    ];
    for (workers, piece, stack, error) in refused {
        assert!(rt; Plan::new(workers, piece, stack) == Err(error));
    }
    Ok(())
}

#[test]
fn texts_of_errors(rt: HostRuntime) -> Result<(), Fail> {
    let plans = [
        (PlanError::Workers, "workers must be 1 to 64"),
        (PlanError::Piece, "piece must be 1 to 65536"),
        (PlanError::Stack, "stack must be 0 to 65536"),
    ];
    for (error, text) in plans {
        let mut written = String::new(rt.alloc());
        write!(written, "{error}")?;
        assert_eq!(rt; written.as_str(), text);
    }
    let pools = [
        (PoolError::TooMany, "too many blocks"),
        (PoolError::NoMemory, "out of memory"),
    ];
    for (error, text) in pools {
        let mut written = String::new(rt.alloc());
        write!(written, "{error}")?;
        assert_eq!(rt; written.as_str(), text);
    }
    Ok(())
}
