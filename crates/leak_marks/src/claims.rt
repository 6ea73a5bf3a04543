//! The claims of several workers, on one thread.
ghost use Rattle.std.specs.Prelude.{◌≡◌, ◌<◌, ◌↔◌, [], length, replicate, slice_index_or, IfOk, IsTrue};
ghost use Rattle.leak_marks.specs.Claims.{IsClaimed, attempted};

use std::alloc::{AllocError, Global};
use std::marker::Model;

/// One list of claimed blocks for each worker. A block is on one list at most, once. It is for libraries and tests: the
/// program claims by [`Marks`](crate::Marks).
#[derive(Drop)]
pub struct Claims {
    lists: Vec<Vec<u32>>,
    marked: Vec<bool>,
}

impl Model for Claims {
    ghost use Rattle.std.specs.Prelude.{◌≡◌, ℕ, ◌<◌, ◌≤◌, map, length, All, false, slice_index_or, vec_len, vec_capacity, count_by};
    ghost use Rattle.std.specs.List.{concat};
    ghost use Rattle.leak_marks.specs.Lists.{has};
    ghost use Rattle.leak_marks.specs.Claims.{ClaimState};

    ghost Value = { ClaimState };

    ghost view = { λ c.
        record { blocks = length c.marked.items; lists = map (λ v. v.items) c.lists.items } };

    ghost invariant = { λ c.
        All (λ v. (vec_len v ≤ count_by (λ m. m) c.marked.items)
        × (length c.marked.items ≤ vec_capacity v)) c.lists.items
        × ((b : ℕ) → b < length c.marked.items → slice_index_or c.marked.items b false
        ≡ has (concat (map (λ v. v.items) c.lists.items)) b) };
}

impl Claims {
    /// Makes an empty list for each worker, with room for all blocks.
    pub fn new(alloc: Global, blocks: u32, workers: u32) -> Result<Claims, AllocError>
        ensures { IfOk result (λ c. (c.blocks ≡ blocks) × (c.lists ≡ replicate workers [])) }
    {
        // The lists come first: a request that cannot be met is refused before any memory is written.
        let mut lists = Vec::with_capacity(alloc, workers as usize)?;
        for _worker in 0..workers {
            lists.push(Vec::with_capacity(alloc, blocks as usize)?)?;
        }
        let marked = vec![in alloc; false; blocks as usize]?;
        Ok(Claims { lists, marked })
    }

    /// Claims the block for the worker. True if no attempt at it came before.
    pub fn attempt(&mut self, worker: u32, block: u32) -> bool
        requires worker { worker < length self.old.lists }
        requires block { block < self.old.blocks }
        ensures won { IsTrue result ↔ ¬ IsClaimed self.old.lists block }
        ensures lists { self.new.lists ≡ attempted self.old.lists worker block }
        ensures blocks { self.new.blocks ≡ self.old.blocks }
        ensures workers { length self.new.lists ≡ length self.old.lists }
    {
        let place = block as usize;
        if self.marked[place] {
            return false;
        }
        self.marked[place] = true;
        let list = &mut self.lists[worker as usize];
        list.push_reserved(block);
        true
    }

    /// The blocks that the worker claimed, in order.
    pub fn claims(&self, worker: u32) -> &[u32]
        requires { worker < length self.now.lists }
        ensures { result.now ≡ slice_index_or self.now.lists worker [] }
    {
        self.lists[worker as usize].as_slice()
    }

    /// Whether some worker claimed the block.
    pub fn is_marked(&self, block: u32) -> bool
        requires { block < self.now.blocks }
        ensures { IsTrue result ↔ IsClaimed self.now.lists block }
    {
        self.marked[block as usize]
    }
}
