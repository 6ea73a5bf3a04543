//! The inputs of a run are read, one after the other.

ghost use Rattle.std.specs.Prelude.{◌≡◌, ◌<◌, ◌≤◌, IfOk, IfErr, length};
ghost use Rattle.leak_find.specs.Streams.{by_reads};
ghost use Rattle.leak_find.specs.Tasks.{limit_at};
ghost use Rattle.leak_find.specs.Inputs.{AreAllRead, IsReadAt, IsReadRefusal, IsReaderFault, bytes_of, input_at};

use crate::fault::RunFault;
use crate::task::{Task, limit_at};
use arrayvec::ArrayVec;
use leak_streams::{ReadCalls, read_sized};
use std::alloc::Global;

/// Reads the reader with the number, from 0, to its end. The sizes are those that the readers are said to have; one that
/// is missing counts as 0.
pub(crate) fn read_reader<R: ReadCalls>(
    alloc: Global,
    readers: &mut [R],
    sizes: &[u64],
    number: u8,
    limit: u64,
) -> Result<Vec<u8>, RunFault>
    requires there { number < length readers.old }
    requires few { number < 255 }
    ensures ok { IfOk result (λ v.
        IsReadAt (by_reads R.calls) number limit readers.old readers.new v.items) }
    ensures refused { IfErr result
        (IsReaderFault (by_reads R.calls) number limit readers.old readers.new) }
    ensures count { length readers.new ≡ length readers.old }
{
    let size = sizes.get(number as usize).copied().unwrap_or(0);
    match read_sized(alloc, &mut readers[number as usize], limit, size) {
        Ok(bytes) => Ok(bytes),
        Err(fault) => Err(RunFault::Read(number + 1, fault)),
    }
}

/// Reads all readers in order, each to its end.
pub(crate) fn read_inputs<R: ReadCalls>(
    alloc: Global,
    readers: &mut [R],
    sizes: &[u64],
    task: &Task,
) -> Result<ArrayVec<Vec<u8>, 4, Global>, RunFault>
    requires few { length readers.old ≤ 4 }
    ensures ok { IfOk result (λ inputs. AreAllRead (by_reads R.calls) (limit_at task.now)
        readers.old readers.new (bytes_of inputs.items)) }
    ensures refused { IfErr result
        (IsReadRefusal (by_reads R.calls) (limit_at task.now) readers.old readers.new) }
{
    let mut inputs = ArrayVec::new_in(alloc);
    for number in 0..readers.len() as u8 {
        let limit = limit_at(task, number as usize);
        let input = read_reader(alloc, readers, sizes, number, limit)?;
        inputs.push(input);
    }
    Ok(inputs)
}

/// The bytes of the input with the number, from 0: none if it is missing.
pub(crate) fn input(inputs: &[Vec<u8>], number: usize) -> &[u8]
    ensures { result.now ≡ input_at (bytes_of inputs.now) number }
{
    match inputs.get(number) {
        Some(input) => input.as_slice(),
        None => &[],
    }
}
