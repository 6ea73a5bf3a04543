//! `leak_find`: finds the blocks of a process to which no chain of words leads, from a core and a log of its allocations.
//!
//! `leak_find one CORE LOG` searches a core, and `leak_find two CORE1 LOG1 CORE2 LOG2` a later core of the same process
//! by what an earlier one says. `leak_find why CORE LOG ADDRESS` tells what holds a block, `leak_find holders CORE LOG`
//! who holds the memory, and `leak_find grow LOG1 LOG2` what grew. Without a word it searches a sample, from memory.
//!
//! The status is 0 if nothing leaked, 1 if something did, 2 if there is no report, and 3 if there is a warning and
//! `--strict` was given. `why` gives 0 if the block is held, and 1 if it leaked; `holders` and `grow` never give 1.
#![tactic(auto)]

#[cfg(test)]
mod tests;

use leak_program::{Screen, start};
use std::io::IsTerminal;
use std::process::ExitCode;

fn main(rt: HostRuntime) -> ExitCode {
    let mut warner = rt.stderr();
    let screen = Screen::new(&rt, warner.is_terminal());
    start(&rt, &mut &rt, &screen, &mut rt.stdout(), &mut warner)
}
