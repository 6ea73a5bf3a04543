//! An input: a core, and the log of its allocations.

ghost use Rattle.std.specs.Prelude.{◌≡◌, ◌≢◌, ℕ, List, [], None, IfOk, IfErr};
ghost use Rattle.leak_elf.specs.Refusals.{fault_of};
ghost use Rattle.leak_mtrace.specs.declared.line.Line.{Line};
ghost use Rattle.leak_mtrace.specs.Log.{IsFirstFault};
ghost use Rattle.leak_pool.specs.Room.{room_of};
ghost use Rattle.leak_roots.specs.LeftOut.{LeftOut};
ghost use Rattle.leak_roots.specs.Roots.{AreRootsOf};
ghost use Rattle.leak_search.specs.Inputs.{AreRootsFor, IsInput, IsInputFault, IsRead, IsReadAs, IsReadLog};
ghost use Rattle.leak_search.specs.LeftOut.{dead_in, slack_in};

use crate::error::{FindError, at_core, at_log, at_notes};
use leak_blocks::{Live, Replayed, SmallSpans, replay_bytes, replay_with_spans};
use leak_chunks::slack_spans;
use leak_elf::Image;
use leak_mtrace::LogError;
use leak_notes::Threads;
use leak_pool::EdgeRoom;
use leak_roots::{Roots, Skip};
use leak_sift::Behind;
use leak_stacks::dead_spans;
use std::alloc::{AllocError, Global};

/// A core and its log, read: nothing is marked yet. Of the log's lines only the live blocks are listed. Their callers are ranges
/// of the log's bytes, which the input doesn't hold.
#[derive(Drop)]
pub struct Input<'a> {
    pub image: Image<'a, Behind<'a>>,
    /// The room that the core gives to edges.
    pub edges: EdgeRoom,
    pub threads: Threads,
    pub live: Live,
    /// What a search leaves out of the root words.
    pub skip: Skip,
    /// The spans of the log whose freed places are left out, as far as they are outside the live blocks.
    pub heap_spans: SmallSpans,
    /// How many of the log's lines are torn.
    pub torn: u64,
}

/// Reads a log and finds its live blocks, and the spans whose freed places are left out.
pub fn read_log(alloc: Global, skip: Skip, log: &[u8]) -> Result<(Replayed, SmallSpans), LogError>
    ensures ok { IfOk result (IsReadLog skip log.now) }
    ensures refused { IfErr result (λ e. e ≢ LogError.NoMemory → IsFirstFault log.now e) }
{
    if skip.freed {
        replay_with_spans(alloc, log)
    } else {
        Ok((replay_bytes(alloc, log)?, SmallSpans::none(alloc)))
    }
}

/// Reads the input with the number, from 1, or gives its first fault: the core's, then its notes', then the log's.
///
/// # Errors
///
/// `Core`, `Notes`, `Log`, in this order, with the number. `NoMemory` can come at any time.
pub fn read_input<'a>(
    alloc: Global,
    number: u8,
    skip: Skip,
    core: &'a [u8],
    log: &'a [u8],
) -> Result<Input<'a>, FindError>
    ensures ok { IfOk result (IsRead core.now log.now) }
    ensures skip { IfOk result (λ input. input.skip ≡ skip) }
    ensures edges { IfOk result (λ input. input.edges ≡ room_of core.now) }
    ensures refused { IfErr result (λ e. e ≢ FindError.NoMemory
        → IsInputFault number core.now log.now e) }
{
    let image = match Image::passed(alloc, core, Behind::none()) {
        Ok(image) => image,
        Err(error) => return Err(at_core(number, error)),
    };
    input_of(alloc, number, skip, image, read_log(alloc, skip, log))
}

/// Makes the input with the number, from 1, of a core and of what was read of a log, or gives its first fault: that of the
/// core's notes, then that of the log. It needs none of the log's bytes.
///
/// # Errors
///
/// `Notes`, `Log`, in this order, with the number. `NoMemory` can come at any time.
pub fn input_of<'a>(
    alloc: Global,
    number: u8,
    skip: Skip,
    image: Image<'a, Behind<'a>>,
    read: Result<(Replayed, SmallSpans), LogError>,
) -> Result<Input<'a>, FindError>
    requires accepted { fault_of image ≡ None }
    requires read { (log : List ℕ) × IsReadAs skip log read }
    ensures ok { IfOk result (λ input. (log : List ℕ) → IsReadAs skip log read
        → IsRead image.entry log input) }
    ensures skip { IfOk result (λ input. input.skip ≡ skip) }
    ensures edges { IfOk result (λ input. input.edges ≡ room_of image.entry) }
    ensures refused { IfErr result (λ e. e ≢ FindError.NoMemory → (log : List ℕ)
        → IsReadAs skip log read → IsInputFault number image.entry log e) }
{
    let threads = match Threads::read(alloc, &image) {
        Ok(threads) => threads,
        Err(error) => return Err(at_notes(number, error)),
    };
    let (replayed, heap_spans) = match read {
        Ok(read) => read,
        Err(error) => return Err(at_log(number, error)),
    };
    Ok(Input {
        edges: EdgeRoom::of_size(image.len()),
        image,
        threads,
        live: replayed.live,
        skip,
        heap_spans,
        torn: replayed.torn,
    })
}

/// The root words of an input without those in slack, if its search leaves these out.
fn without_slack(alloc: Global, input: &Input, roots: Roots) -> Result<Roots, AllocError>
    ensures { (left : LeftOut) → let input = input.now in
        let slack = slack_in input.skip input.image input.live.blocks in
        AreRootsOf (record left { slack = []; dead = [] }) input.image input.live.blocks roots
        → IfOk result (AreRootsOf (record left { slack = slack; dead = [] }) input.image
        input.live.blocks) }
{
    if !input.skip.slack {
        return Ok(roots);
    }
    let slack = slack_spans(alloc, &input.image, &input.live)?;
    roots.skip_slack(alloc, slack.ranges())
}

/// The root words of an input without those in dead stack, if its search leaves these out.
fn without_dead(alloc: Global, input: &Input, roots: Roots) -> Result<Roots, AllocError>
    ensures { (left : LeftOut) → let input = input.now in
        let dead = dead_in input.skip input.image in
        AreRootsOf (record left { dead = [] }) input.image input.live.blocks roots
        → IfOk result (AreRootsOf (record left { dead = dead }) input.image input.live.blocks) }
{
    if !input.skip.dead {
        return Ok(roots);
    }
    let dead = dead_spans(alloc, &input.image)?;
    roots.skip_dead(alloc, dead.ranges())
}

/// The root words of an input, without what its search leaves out.
pub fn find_roots(alloc: Global, input: &Input) -> Result<Roots, AllocError>
    ensures { (lines : List Line) → IsInput lines input.now
        → IfOk result (AreRootsFor lines input.now) }
{
    let roots = Roots::find(
        alloc,
        &input.image,
        &input.threads,
        &input.live,
        &input.heap_spans,
        input.skip.unwritable,
    )?;
    let roots = without_slack(alloc, input, roots)?;
    let kept = without_dead(alloc, input, roots)?;
    Ok(kept.skip_links(input.skip.links))
}
