//! What each block leads to, listed once before marking, so that marking reads no words of blocks.
ghost use Rattle.std.specs.Prelude.{◌≡◌, ◌<◌, ◌≤◌, ℕ, List, length, map, IfOk, IfSome, IfNone};
ghost use Rattle.std.specs.List.{All};
ghost use Rattle.leak_marks.specs.Lists.{Has};
ghost use Rattle.leak_marks.specs.Seats.{IsSound};
ghost use Rattle.leak_pool.specs.Items.{targets_of_block};
ghost use Rattle.leak_pool.specs.Edges.{AreEdges, IsOver, kept_count, row_size, share_of};
ghost use Rattle.leak_pool.specs.EdgesLaw.{edges_prop};
ghost use Rattle.leak_pool.specs.Promises.{IsScanned};
ghost use Rattle.leak_pool.specs.Scopes.{all_targets};

use crate::claiming::{claim_listed, claim_lists};
use crate::room::EdgeRoom;
use crate::rows::{Rows, list_rows};
use crate::scope::Scope;
use crate::target_list::TargetList;
use crate::target_source::{Item, TargetSource};
use leak_elf::Words;
use leak_index::Lookup;
use leak_marks::{MarkSeat, Marks};
use std::alloc::{AllocError, Global};
use std::thread::Threads;

/// A source whose blocks' targets are listed. Its roots are scanned as before, since that is done once.
#[derive(Drop)]
pub(crate) struct Edges<'a, S: TargetSource> {
    pub(crate) source: &'a S,
    /// How many blocks each row has, except the last.
    pub(crate) size: usize,
    pub(crate) rows: Vec<Rows>,
    ghost listed: { AreEdges (S.targets source.now) size rows.items } by { edges_prop _ _ _ },
}

/// How many blocks each row has if `workers` workers list the edges of `blocks` blocks.
pub(crate) fn row_size(blocks: usize, workers: u32) -> usize
    requires { 0 < workers }
    ensures { result ≡ row_size blocks workers }
{
    blocks.div_ceil(workers as usize).max(1)
}

/// How many targets each of so many workers has room for. They are counted in 32 bits.
pub fn share_of(room: EdgeRoom, workers: u32) -> u32
    requires { 0 < workers }
    ensures { result ≡ share_of room workers }
{
    (room.targets() / workers as usize).min(u32::MAX as usize) as u32
}

/// The edges of a scope, made by `workers` workers, each of a share of the blocks. None if one has more than its
/// share of the room.
pub(crate) fn edges_of<'a, 'b, R: Threads + Sync, W: Words + Sync, L: Lookup + Sync>(
    rt: &R,
    alloc: Global,
    scope: &'a Scope<'b, W, L>,
    workers: u32,
    room: EdgeRoom,
) -> Result<Option<Edges<'a, Scope<'b, W, L>>>, AllocError>
    requires { 0 < workers }
    ensures source { IfOk result (λ edges. IfSome edges (λ l. l.source.now ≡ scope.now)) }
    ensures share { IfOk result (λ edges. IfSome edges (λ l.
        All (λ row. length row.targets.items ≤ share_of room workers) l.rows.items)) }
    ensures room { IfOk result (λ edges. IfSome edges (λ l. kept_count l.rows.items ≤ room)) }
    ensures over { let s = scope.now in
        let targets = all_targets (W.word_at s.words.now) (L.index s.lookup.now) in
        let size = row_size (length s.blocks.now) workers in
        IfOk result (λ edges. IfNone edges (IsOver targets size (share_of room workers))) }
{
    let size = row_size(scope.blocks.len(), workers);
    let share = share_of(room, workers);
    let (words, lookup) = (scope.words, scope.lookup);
    let Some(rows) = list_rows(rt, alloc, words, lookup, scope.blocks, size, share)? else {
        return Ok(None);
    };
    Ok(Some(Edges {
        source: scope,
        size,
        rows,
    }))
}

/// What a block leads to, by the rows of `size` blocks each.
#[inline(always)]
fn target_list(rows: &[Rows], size: usize, block: u32) -> TargetList<'_>
    requires { (targets : List (List ℕ)) × AreEdges targets size rows.now × (block < length targets) }
    ensures { (targets : List (List ℕ)) → AreEdges targets size rows.now → block < length targets
        → result.targets.now ≡ targets_of_block targets block }
{
    let block = block as usize;
    let row = &rows[block / size];
    let place = block % size;
    let start = row.starts[place] as usize;
    let end = row.starts[place + 1] as usize;
    TargetList {
        targets: &row.targets[start..end],
        ahead: None,
    }
}

/// The targets alone.
pub(crate) fn listed_targets(rows: &[Rows], size: usize, block: u32) -> &[u32]
    requires { (targets : List (List ℕ)) × AreEdges targets size rows.now × (block < length targets) }
    ensures { (targets : List (List ℕ)) → AreEdges targets size rows.now → block < length targets
        → result.now ≡ targets_of_block targets block }
{
    target_list(rows, size, block).targets
}

/// Reads the first target of each list. It stands by itself so that little is done between one list and the next: a processor
/// reads ahead so far only.
#[inline(always)]
fn read_ahead(lists: &mut [TargetList<'_>])
    ensures { map (λ l. l.targets.now) lists.new ≡ map (λ l. l.targets.now) lists.old }
{
    for list in lists.iter_mut() {
        list.ahead = list.targets.first().copied();
    }
}

/// What some blocks lead to, block by block. Where the lists lie is asked for before the first target of any, and these before
/// any list is read, so that each time a processor waits for all of them at once.
pub(crate) fn lists_of<'a>(
    alloc: Global,
    rows: &'a [Rows],
    size: usize,
    blocks: &[u32],
) -> Result<Vec<TargetList<'a>>, AllocError>
    requires { (targets : List (List ℕ)) × AreEdges targets size rows.now
        × ((b : ℕ) → Has blocks.now b → b < length targets) }
    ensures { (targets : List (List ℕ)) → AreEdges targets size rows.now
        → ((b : ℕ) → Has blocks.now b → b < length targets)
        → IfOk result (λ lists.
        map (λ l. l.targets.now) lists.items ≡ map (targets_of_block targets) blocks.now) }
{
    let mut lists = Vec::with_capacity(alloc, blocks.len())?;
    for block in blocks {
        lists.push(target_list(rows, size, *block))?;
    }
    read_ahead(lists.as_mut_slice());
    Ok(lists)
}

impl<'a, S: TargetSource> TargetSource for Edges<'a, S> {
    ghost roots = { λ l. S.roots l.source.now };

    ghost targets = { λ l. S.targets l.source.now };

    ghost inside = { λ l. S.inside l.source.now };

    fn blocks(&self) -> u32 {
        self.source.blocks()
    }

    fn roots(&self) -> usize {
        self.source.roots()
    }

    fn scan(
        &self,
        marks: &Marks,
        seat: &mut MarkSeat,
        list: &mut Vec<u32>,
        item: Item,
    ) -> Result<(), AllocError> {
        match item {
            Item::Root(_) => self.source.scan(marks, seat, list, item),
            Item::Block(block) => {
                claim_listed(
                    listed_targets(&self.rows, self.size, block),
                    marks,
                    seat,
                    list,
                )
            }
        }
    }

    fn scan_blocks(
        &self,
        alloc: Global,
        marks: &Marks,
        seat: &mut MarkSeat,
        list: &mut Vec<u32>,
        blocks: &[u32],
    ) -> Result<(), AllocError> {
        let lists = lists_of(alloc, &self.rows, self.size, blocks)?;
        claim_lists(&lists, marks, seat, list)
    }
}
