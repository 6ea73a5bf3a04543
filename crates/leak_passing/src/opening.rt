//! The input that a search asks, of a core and a log that were read in one pass.

ghost use Rattle.std.specs.Prelude.{◌≡◌, ◌≢◌, ◌↔◌, ◌⊎◌, ℕ, List, [], ◌++◌, Err, IfOk, IfErr, IsTrue};
ghost use Rattle.leak_elf.specs.Head.{IsHead};
ghost use Rattle.leak_mtrace.specs.declared.error.LogError.TheVariants.{NoMemory as NoMemoryForLog};
ghost use Rattle.leak_search.specs.Inputs.{IsInputFault, IsRead, IsReadAs};
ghost use Rattle.leak_sift.specs.Behind.{HasWords, bytes_behind};

use leak_blocks::{Replayed, SmallSpans};
use leak_elf::Image;
use leak_mtrace::LogError;
use leak_roots::Skip;
use leak_search::{FindError, Input, at_core, input_of};
use leak_sift::Behind;
use leak_sparse::SparseWords;
use std::alloc::Global;

/// Whether the log was not read for want of memory.
fn is_short(read: &Result<(Replayed, SmallSpans), LogError>) -> bool
    ensures { IsTrue result ↔ read.now ≡ Err NoMemoryForLog }
{
    matches!(read, Err(LogError::NoMemory))
}

/// Makes the input of what was read of a log and of a core of which the first bytes are held, and of the bytes behind
/// them these words, with 0 in place of the others, as many bytes as the number says.
pub(crate) fn input_of_passed<'a>(
    alloc: Global,
    skip: Skip,
    held: &'a [u8],
    behind: (&'a SparseWords, u64),
    read: Result<(Replayed, SmallSpans), LogError>,
) -> Result<Input<'a>, FindError>
    requires words { HasWords behind.0.now behind.1 }
    requires head { (bytes_behind behind.0.now behind.1 ≡ []) ⊎ IsHead held.now }
    requires read { (log : List ℕ) × IsReadAs skip log read }
    ensures ok { IfOk result (λ input. (log : List ℕ) → IsReadAs skip log read
        → IsRead (held.now ++ bytes_behind behind.entry.0.now behind.entry.1) log input) }
    ensures skip { IfOk result (λ input. input.skip ≡ skip) }
    ensures full { IfOk result (λ _. read ≢ Err NoMemoryForLog) }
    ensures refused { IfErr result (λ e. e ≢ FindError.NoMemory → (log : List ℕ)
        → IsReadAs skip log read
        → IsInputFault 1 (held.now ++ bytes_behind behind.entry.0.now behind.entry.1) log e) }
{
    if is_short(&read) {
        return Err(FindError::NoMemory);
    }
    let rest = Behind::new(behind.0, behind.1)?;
    let image = match Image::passed(alloc, held, rest) {
        Ok(image) => image,
        Err(error) => return Err(at_core(1, error)),
    };
    input_of(alloc, 1, skip, image, read)
}
