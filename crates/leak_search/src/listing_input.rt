//! What the words of an input lead to, listed: its root words first, or by a worker beside those who list its blocks.

ghost use Rattle.std.specs.Prelude.{◌≡◌, ◌-◌, ◌<◌, IsTrue};
ghost use Rattle.leak_index.specs.Readings.{distances_of};
ghost use Rattle.leak_search.specs.LeftOut.{LeavesOutFreedAlone};
ghost use Rattle.leak_search.specs.Listed.{AreBlocksListed, IsFirstListed, IsListedBySome, listers, lists_beside, share_in};

use crate::inputs::Input;
use crate::listed::ListedInput;
use crate::preparing::{find_leading, has_many_blocks, leaves_out_freed_alone, prepare_to_mark};
use crate::reporting::head_of;
use leak_index::{Paged, Reading};
use leak_pool::{BlockLists, EdgeRoom, PoolError, first_blocks, list_blocks, list_core, share_of};
use leak_report::Head;
use leak_team::Team;
use std::alloc::Global;
use std::thread::{Threads, join};

/// The numbers of the first lines, and the blocks that the root words of an input lead to.
fn first_of(alloc: Global, input: &Input, lookup: &Paged) -> Result<(Head, Vec<u32>), PoolError>
    requires alone { LeavesOutFreedAlone input.now.skip }
    requires same_blocks { lookup.now.blocks ≡ input.now.live.blocks }
    ensures { IsFirstListed input.now lookup.now result }
{
    let roots = find_leading(alloc, input, lookup)?;
    let first = first_blocks(alloc, &input.image, lookup, &roots, &input.live)?;
    Ok((head_of(input, &roots, None), first))
}

/// What the blocks of an input lead to, by the team.
fn blocks_of<R: Threads + Sync>(
    team: &Team<'_, R>,
    input: &Input,
    lookup: &Paged,
    share: u32,
) -> Result<Option<BlockLists>, PoolError>
    requires some { 0 < team.now.workers }
    requires same_blocks { lookup.now.blocks ≡ input.now.live.blocks }
    ensures { AreBlocksListed input.now lookup.now team.now.workers share result }
{
    list_blocks(team, &input.image, lookup, &input.live, share)
}

/// Lists what the words of an input lead to: a thread does so with its root words, while the team does so with its blocks.
fn list_beside<R: Threads + Sync>(
    team: &Team<'_, R>,
    input: &Input,
    reading: Reading,
    share: u32,
) -> Result<Option<ListedInput>, PoolError>
    requires some { 0 < team.now.workers }
    requires alone { LeavesOutFreedAlone input.now.skip }
    ensures { IsListedBySome input.now (distances_of reading) team.now.workers share result }
{
    let alloc = team.alloc;
    let lookup = Paged::new(alloc, &input.live, reading)?;
    let lookup = &lookup;
    let find = move || -> Result<(Head, Vec<u32>), PoolError>
        requires { LeavesOutFreedAlone input.now.skip
            × (lookup.now.blocks ≡ input.now.live.blocks) }
        ensures { IsFirstListed input.entry.now lookup.entry.now result }
    { first_of(alloc, input, lookup) };
    let list = move || -> Result<Option<BlockLists>, PoolError>
        requires { (0 < team.now.workers) × (lookup.now.blocks ≡ input.now.live.blocks) }
        ensures { AreBlocksListed input.entry.now lookup.entry.now team.entry.now.workers share
            result }
    { blocks_of(team, input, lookup, share) };
    let (first, lists) = join(team.rt, find, list);
    let (head, first) = first?;
    let Some(lists) = lists? else {
        return Ok(None);
    };
    let listing = lists.with_first(first);
    Ok(Some(ListedInput { head, listing }))
}

/// Lists the same, its root words first.
fn list_in_turn<R: Threads + Sync>(
    team: &Team<'_, R>,
    input: &Input,
    reading: Reading,
    share: u32,
) -> Result<Option<ListedInput>, PoolError>
    requires { 0 < team.now.workers }
    ensures { IsListedBySome input.now (distances_of reading) team.now.workers share result }
{
    let (head, indexed) = prepare_to_mark(team, input, reading)?;
    let (lookup, roots) = (&indexed.lookup, &indexed.roots);
    match list_core(team, &input.image, lookup, roots, &input.live, share)? {
        Some(listing) => Ok(Some(ListedInput { head, listing })),
        None => Ok(None),
    }
}

/// How many targets each of so many workers has room for: in the room, or in whatever room that takes.
fn share_in(room: Option<EdgeRoom>, workers: u32) -> u32
    requires { 0 < workers }
    ensures { result ≡ share_in room workers }
{
    match room {
        Some(room) => share_of(room, workers),
        None => u32::MAX,
    }
}

/// Whether one of so many workers finds the root words of an input while the others list what its blocks lead to. Two are faster one
/// after the other: the root words take less than half as long as the blocks.
fn lists_beside(input: &Input, workers: u32) -> bool
    ensures value { result ≡ lists_beside input.now workers }
    ensures alone { IsTrue result → LeavesOutFreedAlone input.now.skip }
{
    workers > 2 && has_many_blocks(input) && leaves_out_freed_alone(input.skip)
}

/// Lists what the live blocks of an input lead to, and its root words, by the team. None if the lists are over the room.
pub(crate) fn list_within<R: Threads + Sync>(
    team: &Team<'_, R>,
    input: &Input,
    reading: Reading,
    room: Option<EdgeRoom>,
) -> Result<Option<ListedInput>, PoolError>
    requires { 0 < team.now.workers }
    ensures { let number = listers input.now team.now.workers in
        IsListedBySome input.now (distances_of reading) number (share_in room number) result }
{
    if lists_beside(input, team.workers) {
        let listers = team.of(team.workers - 1);
        let share = share_in(room, listers.workers);
        return list_beside(&listers, input, reading, share);
    }
    list_in_turn(team, input, reading, share_in(room, team.workers))
}
