//! What a refusal prints, if no case of gate/ can have it.

use crate::comparisons::same;
use leak_find::{FindError, ReadFault, RunFault};
use leak_streams::WriteFault;
use std::test::Fail;

#[test]
fn texts_of_searches(rt: HostRuntime) -> Result<(), Fail> {
    let rows = [
        (FindError::TooMany, "too many blocks"),
        (FindError::NoMemory, "out of memory"),
    ];
    for (error, text) in rows {
        same(&rt, error.to_string(rt.alloc())?.as_str(), text);
        let fault = RunFault::Find(error);
        same(&rt, fault.to_string(rt.alloc())?.as_str(), text);
    }
    Ok(())
}

#[test]
fn texts_of_devices(rt: HostRuntime) -> Result<(), Fail> {
    let rows = [
        (ReadFault::TooLong, "too long", "reader 1: too long"),
        (ReadFault::Device, "read failed", "reader 1: read failed"),
        (
            ReadFault::TooManyTurns,
            "too many interrupted reads",
            "reader 1: too many interrupted reads",
        ),
        (
            ReadFault::NoMemory,
            "out of memory",
            "reader 1: out of memory",
        ),
    ];
    for (fault, alone, in_a_run) in rows {
        same(&rt, fault.to_string(rt.alloc())?.as_str(), alone);
        let fault = RunFault::Read(1, fault);
        same(&rt, fault.to_string(rt.alloc())?.as_str(), in_a_run);
    }
    let fault = RunFault::Write(WriteFault { written: 10 });
    let text = fault.to_string(rt.alloc())?;
    same(&rt, text.as_str(), "write failed after 10 bytes");
    Ok(())
}
