//! What marking begins with.

ghost use Rattle.std.specs.Prelude.{◌≡◌, None, IfOk, IsTrue, List};
ghost use Rattle.leak_mtrace.specs.declared.line.Line.{Line};
ghost use Rattle.leak_index.specs.Readings.{distances_of};
ghost use Rattle.leak_search.specs.Inputs.{AreRootsFor, IsInput};
ghost use Rattle.leak_search.specs.LeftOut.{LeavesOutFreedAlone, leaves_out_freed_alone};
ghost use Rattle.leak_search.specs.Listed.{AreLeadingFor, has_many_blocks};
ghost use Rattle.leak_search.specs.Report.{head_with};

use crate::inputs::{Input, find_roots};
use crate::marking::{RootsAndIndex, find_roots_and_index};
use crate::reporting::head_of;
use leak_index::{Paged, Reading};
use leak_pool::{find_leading_roots, leading_roots};
use leak_report::Head;
use leak_roots::{Exclusions, Roots, Skip};
use leak_team::Team;
use std::alloc::{AllocError, Global};
use std::thread::{Threads, join};

/// How many live blocks an input has at least, if a thread is started for its root words. Own rule: to find the root
/// words between so many blocks takes several times as long as the start of a thread.
const MANY: usize = 16_384;

/// Finds the root words of an input, and makes the lookup among its blocks: side by side if there are several workers and
/// many blocks.
fn prepare<'a, R: Threads + Sync>(
    team: &Team<'_, R>,
    input: &'a Input<'_>,
    reading: Reading,
) -> Result<RootsAndIndex<'a>, AllocError>
    ensures roots { (lines : List Line) → IsInput lines input.now
        → IfOk result (λ indexed. AreRootsFor lines input.now indexed.roots) }
    ensures lookup { IfOk result (λ indexed. indexed.lookup
        ≡ record { blocks = input.now.live.blocks; reading = distances_of reading }) }
{
    let alloc = team.alloc;
    if team.workers < 2 || !has_many_blocks(input) {
        return find_roots_and_index(alloc, input, reading);
    }
    let find = move || -> Result<Roots, AllocError>
        ensures { (lines : List Line) → IsInput lines input.entry.now
            → IfOk result (AreRootsFor lines input.entry.now) }
    { find_roots(alloc, input) };
    let index = move || -> Result<Paged<'_>, AllocError>
        ensures { IfOk result (λ lookup. lookup
            ≡ record { blocks = input.entry.now.live.blocks; reading = distances_of reading }) }
    { Paged::new(alloc, &input.live, reading) };
    let (roots, lookup) = join(team.rt, find, index);
    Ok(RootsAndIndex {
        roots: roots?,
        lookup: lookup?,
    })
}

/// Whether an input has so many blocks that a thread is started for its root words.
pub(crate) fn has_many_blocks(input: &Input) -> bool
    ensures { result ≡ has_many_blocks input.now.live.blocks }
{
    input.live.blocks().len() >= MANY
}

/// Whether nothing but freed memory and memory that can't be written is left out of the root words.
pub(crate) fn leaves_out_freed_alone(skip: Skip) -> bool
    ensures value { result ≡ leaves_out_freed_alone skip }
    ensures alone { IsTrue result → LeavesOutFreedAlone skip }
{
    !skip.slack && !skip.dead && !skip.links
}

/// Finds the root words of an input that lead to a block: each range is tested as it is found, since there are about as many as
/// blocks.
pub(crate) fn find_leading(
    alloc: Global,
    input: &Input,
    lookup: &Paged,
) -> Result<Roots, AllocError>
    requires { LeavesOutFreedAlone input.now.skip }
    ensures { (lines : List Line) → IsInput lines input.now → IfOk result (λ roots.
        AreLeadingFor lines input.now lookup.now (head_with input.now roots None) roots) }
{
    let excluded = Exclusions {
        small: &input.heap_spans,
        unwritable: input.skip.unwritable,
    };
    let (image, threads, live) = (&input.image, &input.threads, &input.live);
    find_leading_roots(alloc, image, threads, live, &excluded, lookup)
}

/// What marking one core begins with, of the root words those that lead to a block; and the numbers of the report's first lines,
/// which are told of all root words.
pub(crate) fn prepare_to_mark<'a, R: Threads + Sync>(
    team: &Team<'_, R>,
    input: &'a Input<'_>,
    reading: Reading,
) -> Result<(Head, RootsAndIndex<'a>), AllocError>
    ensures leading { (lines : List Line) → IsInput lines input.now → IfOk result (λ begun.
        AreLeadingFor lines input.now begun.1.lookup begun.0 begun.1.roots) }
    ensures lookup { IfOk result (λ begun. begun.1.lookup
        ≡ record { blocks = input.now.live.blocks; reading = distances_of reading }) }
{
    if leaves_out_freed_alone(input.skip) {
        let lookup = Paged::new(team.alloc, &input.live, reading)?;
        let roots = find_leading(team.alloc, input, &lookup)?;
        let head = head_of(input, &roots, None);
        return Ok((head, RootsAndIndex { roots, lookup }));
    }
    let RootsAndIndex { roots, lookup } = prepare(team, input, reading)?;
    let head = head_of(input, &roots, None);
    let roots = leading_roots(team, &input.image, &lookup, roots, &input.live)?;
    Ok((head, RootsAndIndex { roots, lookup }))
}
