//! The list of words.
ghost use Rattle.std.specs.Prelude.{◌≡◌, ◌≢◌, ◌<◌, ◌≤◌, ◌-◌, ◌%◌, ◌∷◌, [], ◌++◌, length, map, replicate, slice_get, take};
ghost use Rattle.std.specs.Prelude.{MatchOption, OnOk, OnErr, IsOk};
ghost use Rattle.leak_sparse.specs.Pushed.{group_of};
ghost use Rattle.leak_sparse.specs.Words.{AreZerosTo, HasRoom, IsNextKept, NoneKeptFrom, between, kept_from, kept_of};

use crate::group::{Group, add_groups, cover, has, lowest_from, ones_below};
use crate::pushing::{nonzero_bits, push_set};
use crate::retaining::keep_between;
use std::alloc::{AllocError, Global};
use std::marker::Model;

/// A growing list of words. Contracts see the plain list.
#[derive(Drop)]
pub struct SparseWords {
    /// The places, 64 to a group. The last group may have none yet, after an error.
    groups: Vec<Group>,
    /// The words that aren't 0, in order.
    kept: Vec<u64>,
    /// How many words the list has, with those that are 0.
    len: usize,
}

impl Model for SparseWords {
    ghost use Rattle.std.specs.Prelude.{ℕ, List};
    ghost use Rattle.leak_sparse.specs.Groups.{AreGroups, words_of};

    ghost Value = { List ℕ };

    ghost view = { λ s. words_of s.groups.items s.kept.items s.len };

    ghost invariant = { λ s. AreGroups s.groups.items s.kept.items s.len };
}

impl SparseWords {
    /// The empty list. It takes no memory.
    pub fn new(alloc: Global) -> SparseWords
        ensures { result ≡ [] }
    {
        SparseWords {
            groups: Vec::new(alloc),
            kept: Vec::new(alloc),
            len: 0,
        }
    }

    /// Makes room for so many words more, of which so many are kept. That changes only memory and time: a list that has
    /// its room from the beginning is never copied to grow.
    pub fn reserve(&mut self, count: usize, kept: usize) -> Result<(), AllocError>
        ensures { self.new ≡ self.old }
    {
        self.groups.reserve(count.div_ceil(64))?;
        self.kept.reserve(kept)
    }

    /// How many words the list has.
    pub fn len(&self) -> usize
        ensures { result ≡ length self.now }
    {
        self.len
    }

    /// How many of the words aren't 0.
    pub fn kept(&self) -> usize
        ensures { result ≡ kept_of self.now }
    {
        self.kept.len()
    }

    /// Appends a word. Only an allocation that fails is an error, or a list of 2^64 words.
    pub fn push(&mut self, word: u64) -> Result<(), AllocError>
        ensures ok { OnOk result (self.new ≡ self.old ++ word ∷ []) }
        ensures err { OnErr result (self.new ≡ self.old) }
        ensures room { word ≡ 0 → HasRoom self.old 1 → IsOk result }
    {
        if word == 0 {
            return self.push_zeros(1);
        }
        self.push_after(0, word)
    }

    /// Appends this many words that are 0, and then one that isn't. Its errors are those of [`SparseWords::push`].
    pub fn push_after(&mut self, zeros: usize, word: u64) -> Result<(), AllocError>
        requires { word ≢ 0 }
        ensures ok { OnOk result (self.new ≡ self.old ++ replicate zeros 0 ++ word ∷ []) }
        ensures err { OnErr result (self.new ≡ self.old) }
    {
        let Some(place) = self.len.checked_add(zeros) else {
            return Err(AllocError);
        };
        let Some(len) = place.checked_add(1) else {
            return Err(AllocError);
        };
        // Room first, so that a list without memory stays as it was.
        self.kept.reserve(1)?;
        cover(&mut self.groups, len, self.kept.len())?;
        self.kept.push_reserved(word);
        let last = place / 64;
        let group = self.groups[last];
        self.groups[last] = Group {
            bits: group.bits + (1 << (place % 64)),
            before: group.before,
        };
        self.len = len;
        Ok(())
    }

    /// Appends this many words that are 0, a group of 64 at a time. Its errors are those of [`SparseWords::push`].
    pub fn push_zeros(&mut self, count: usize) -> Result<(), AllocError>
        ensures ok { OnOk result (self.new ≡ self.old ++ replicate count 0) }
        ensures err { OnErr result (self.new ≡ self.old) }
        ensures room { HasRoom self.old count → IsOk result }
    {
        let Some(len) = self.len.checked_add(count) else {
            return Err(AllocError);
        };
        cover(&mut self.groups, len, self.kept.len())?;
        self.len = len;
        Ok(())
    }

    /// Appends 64 words at once: each whose bit is set, and 0 for each other. The words so far fill whole groups of 64
    /// places. Its errors are those of [`SparseWords::push`].
    pub fn push_group(&mut self, bits: u64, words: &[[u8; 8]]) -> Result<(), AllocError>
        requires whole { length self.old % 64 ≡ 0 }
        requires words { length words.now ≡ 64 }
        ensures ok { OnOk result (self.new ≡ self.old ++ group_of bits words.now) }
        ensures err { OnErr result (self.new ≡ self.old) }
    {
        let Some(len) = self.len.checked_add(64) else {
            return Err(AllocError);
        };
        let before = self.kept.len();
        let bits = nonzero_bits(bits, words);
        self.groups.reserve(1)?;
        self.kept.reserve(bits.count_ones() as usize)?;
        // An error can have left a spare group at the end.
        let full = self.len / 64;
        self.groups.truncate(full);
        push_set(&mut self.kept, bits, words);
        self.groups.push_reserved(Group { bits, before });
        self.len = len;
        Ok(())
    }

    /// Appends the words of another list. Those so far fill whole groups of 64 places. Its errors are those of
    /// [`SparseWords::push`].
    pub fn append(&mut self, other: &SparseWords) -> Result<(), AllocError>
        requires { length self.old % 64 ≡ 0 }
        ensures ok { OnOk result (self.new ≡ self.old ++ other.now) }
        ensures err { OnErr result (self.new ≡ self.old) }
    {
        let Some(len) = self.len.checked_add(other.len) else {
            return Err(AllocError);
        };
        let before = self.kept.len();
        self.groups.reserve(other.groups.len())?;
        self.kept.extend_from_slice(other.kept.as_slice())?;
        // An error can have left a spare group at the end.
        self.groups.truncate(self.len / 64);
        add_groups(&mut self.groups, other.groups.as_slice(), before);
        self.len = len;
        Ok(())
    }

    /// The same list with 0 in place of each word below `low` or above `high`. It needs no further memory, and gives
    /// back what it no longer needs.
    pub fn retain_between(self, low: u64, high: u64) -> SparseWords
        ensures { result ≡ map (between low high) self }
    {
        let SparseWords {
            mut groups,
            mut kept,
            len,
        } = self;
        let left = keep_between(groups.as_mut_slice(), kept.as_mut_slice(), low, high);
        kept.truncate(left);
        kept.shrink_to_fit();
        SparseWords { groups, kept, len }
    }

    /// The word at a place.
    #[inline(always)]
    pub fn get(&self, place: usize) -> Option<u64>
        ensures { result ≡ slice_get self.now place }
    {
        if place >= self.len {
            return None;
        }
        let group = self.groups[place / 64];
        let bit = place % 64;
        if !has(group.bits, bit) {
            return Some(0);
        }
        Some(self.kept[group.before + ones_below(group.bits, bit)])
    }

    /// Of the words from a place on and before another, those that aren't 0. They are kept one behind another, so it
    /// takes constant time.
    pub fn kept_between(&self, from: usize, to: usize) -> &[u64]
        requires order { from ≤ to }
        requires within { to ≤ length self.now }
        ensures { result.now ≡ kept_from self.now from (to - from) }
    {
        let before = self.rank(from);
        let (_, rest) = self.kept.as_slice().split_at(before);
        let (words, _) = rest.split_at(self.rank(to) - before);
        words
    }

    /// How many of the words before a place aren't 0.
    fn rank(&self, place: usize) -> usize
        requires { place ≤ length self.now }
        ensures { result ≡ kept_of (take place self.now) }
    {
        match self.groups.get(place / 64) {
            Some(group) => group.before + ones_below(group.bits, place % 64),
            None => self.kept.len(),
        }
    }

    /// The first place at or after `from` whose word isn't 0.
    pub fn next_kept(&self, from: usize) -> Option<usize>
        ensures { MatchOption result (NoneKeptFrom self.now from) (IsNextKept self.now from) }
    {
        let mut bit = from % 64;
        for number in from / 64..self.len.div_ceil(64) {
            if let Some(found) = lowest_from(self.groups[number].bits, bit) {
                return Some(64 * number + found);
            }
            bit = 0;
        }
        None
    }

    /// The first place at or after `from` that doesn't have a zero, if that is in its group of 64 places. Else the end
    /// of the group, or of the list. It takes constant time.
    pub fn skip_zeros(&self, from: usize) -> usize
        requires { from < length self.now }
        ensures { AreZerosTo self.now from result }
    {
        let number = from / 64;
        match lowest_from(self.groups[number].bits, from % 64) {
            Some(found) => 64 * number + found,
            None => self.len.min((number + 1).saturating_mul(64)),
        }
    }
}
