//! Groups of 64 places of a list.
ghost use Rattle.std.specs.Prelude.{◌≡◌, ◌+◌, ◌%◌, ◌^◌, ◌<◌, ◌≤◌, ◌↔◌, if◌then◌else◌, length, ◌++◌, map, count_ones};
ghost use Rattle.std.specs.Prelude.{All, MatchOption, is_ok, IsOk, IsTrue, vec_len, vec_capacity};
ghost use Rattle.std.specs.Int.{bit_at};
ghost use Rattle.leak_sparse.specs.Bits.{IsLowestFrom, NoneFrom};
ghost use Rattle.leak_sparse.specs.Groups.{covered, group_count, moved, padded};

use std::alloc::AllocError;

/// 64 places of a list: which of their words are kept, and how many are kept before them.
#[derive(Clone, Copy)]
pub(crate) struct Group {
    /// Bit `k` is set if the word at the group's place `k` is kept.
    pub(crate) bits: u64,
    /// How many words are kept before the group.
    pub(crate) before: usize,
}

/// Whether the bit is set.
#[inline(always)]
pub(crate) fn has(bits: u64, bit: usize) -> bool
    requires { bit < 64 }
    ensures { IsTrue result ↔ bit_at bits bit ≡ 1 }
{
    (bits >> bit) & 1 == 1
}

/// How many bits below this one are set.
#[inline(always)]
pub(crate) fn ones_below(bits: u64, bit: usize) -> usize
    requires { bit < 64 }
    ensures { result ≡ count_ones (bits % 2 ^ bit) }
{
    (bits & ((1 << bit) - 1)).count_ones() as usize
}

/// The lowest bit that is set, from this one on.
#[inline(always)]
pub(crate) fn lowest_from(bits: u64, from: usize) -> Option<usize>
    requires { from < 64 }
    ensures { MatchOption result (NoneFrom bits from) (IsLowestFrom bits from) }
{
    let rest = bits >> from;
    if rest == 0 {
        return None;
    }
    Some(from + rest.trailing_zeros() as usize)
}

/// Adds groups of which no word is kept, until there are enough for this many places.
#[inline(always)]
pub(crate) fn cover(groups: &mut Vec<Group>, places: usize, before: usize) -> Result<(), AllocError>
    ensures items { groups.new.items ≡
        (if is_ok result then covered groups.old.items places before else groups.old.items) }
    ensures room { group_count places ≤ length groups.old.items → IsOk result }
{
    let needed = places.div_ceil(64);
    // (mostly there are)
    if groups.len() < needed {
        return grow(groups, needed, before);
    }
    Ok(())
}

/// Adds groups of which no word is kept, until there are so many.
#[cold]
#[inline(never)]
fn grow(groups: &mut Vec<Group>, needed: usize, before: usize) -> Result<(), AllocError>
    requires { length groups.old.items < needed }
    ensures { groups.new.items ≡
        (if is_ok result then padded groups.old.items needed before else groups.old.items) }
{
    groups.resize(needed, Group { bits: 0, before })
}

/// Appends the groups of another list, before which this many words more are kept.
pub(crate) fn add_groups(groups: &mut Vec<Group>, more: &[Group], before: usize)
    requires room { vec_len groups.old + length more.now ≤ vec_capacity groups.old }
    requires fits { All (λ group. before + group.before < 2 ^ 64) more.now }
    ensures { groups.new.items ≡ groups.old.items ++ map (moved before) more.now }
{
    for group in more {
        groups.push_reserved(Group {
            bits: group.bits,
            before: before + group.before,
        });
    }
}
