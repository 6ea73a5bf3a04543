//! What the program says of a failure.

use crate::tests::comparisons::same_in;
use leak_find::{FindError, ReadFault, RunFault, UsageFault, WriteFault};
use leak_program::{Failure, Reason, message};
use std::process::Abort;
use std::test::*;

/// Checks what is said of the failure.
fn says<R: Abort + AllocGlobal>(rt: &R, failure: &Failure, text: &str) -> Result<(), Fail> {
    let message = message(rt.alloc(), failure)?;
    same_in(rt, failure, message.as_slice(), text.as_bytes());
    Ok(())
}

#[test]
fn messages_of_failures(rt: HostRuntime) -> Result<(), Fail> {
    let alloc = rt.alloc();
    says(
        &rt,
        &Failure::BadArgument,
        "leak_find: a word is not UTF-8\n",
    )?;
    says(&rt, &Failure::NoMemory, "leak_find: out of memory\n")?;
    let words = "error: no\n".to_string(alloc)?;
    says(
        &rt,
        &Failure::Usage(UsageFault::Words(words)),
        "error: no\n",
    )?;
    says(
        &rt,
        &Failure::Usage(UsageFault::Check),
        "leak_find: --check: not with --other-heap\n",
    )?;
    Ok(())
}

#[test]
fn messages_of_files(rt: HostRuntime) -> Result<(), Fail> {
    let alloc = rt.alloc();
    let path = "a\n\u{e9}\\".to_string(alloc)?;
    says(
        &rt,
        &Failure::Read(2, path.clone()?, ReadFault::TooLong),
        "leak_find: reader 2: too long: a\\n\u{e9}\\\\\n",
    )?;
    says(
        &rt,
        &Failure::Open(path, Reason::Folder),
        "leak_find: cannot open a\\n\u{e9}\\\\: is a folder\n",
    )?;
    let unnamed = Failure::Open("a".to_string(alloc)?, Reason::Other);
    says(&rt, &unnamed, "leak_find: cannot open a\n")?;
    let links = Failure::Open("a".to_string(alloc)?, Reason::Links);
    says(
        &rt,
        &links,
        "leak_find: cannot open a: too many symbolic links\n",
    )?;
    Ok(())
}

#[test]
fn messages_of_runs_are_those_of_their_faults(rt: HostRuntime) -> Result<(), Fail> {
    let faults = [
        RunFault::Read(1, ReadFault::Device),
        RunFault::Read(255, ReadFault::TooManyTurns),
        RunFault::Find(FindError::NotPrefix),
        RunFault::NoBlock(0),
        RunFault::NoBlock(0x1012F),
        RunFault::NoBlock(u64::MAX),
        RunFault::Write(WriteFault { written: 0 }),
        RunFault::Write(WriteFault { written: u64::MAX }),
    ];
    for fault in faults {
        let text = format!(in rt.alloc(); "leak_find: {fault}\n")?;
        says(&rt, &Failure::Run(fault), text.as_str())?;
    }
    Ok(())
}
