//! The groups of a list of which only some words stay.
ghost use Rattle.std.specs.Prelude.{◌≡◌, ℕ, List, ◌+◌, ◌^◌, ◌<◌, ◌≤◌, length, filter, take, count_ones};
ghost use Rattle.leak_sparse.specs.Groups.{AreBitsBetween, AreGroups, AreGroupsBetween, AreMoved};
ghost use Rattle.leak_sparse.specs.Words.{is_between};

use crate::group::Group;

/// Whether the word is neither below `low` nor above `high`.
#[inline(always)]
pub(crate) fn is_between(low: u64, high: u64, word: u64) -> bool
    ensures { result ≡ is_between low high word }
{
    low <= word && word <= high
}

/// Moves the group's words that are neither below `low` nor above `high` to the front, behind those that stay of the
/// groups before. Returns their bits, and how many words are in front then.
#[inline(always)]
fn keep_group(group: Group, kept: &mut [u64], front: usize, low: u64, high: u64) -> (u64, usize)
    requires narrow { group.bits < 2 ^ 64 }
    requires held { group.before + count_ones group.bits ≤ length kept.old }
    requires order { front ≤ group.before }
    ensures bits { (all : List ℕ) → AreMoved low high all kept.old front group.before → AreBitsBetween low high all group result.0 }
    ensures moved { (all : List ℕ) → AreMoved low high all kept.old front group.before →
        AreMoved low high all kept.new result.1 (group.before + count_ones group.bits) }
    ensures count { result.1 ≡ front + count_ones result.0 }
{
    let mut bits = 0;
    let mut left = front;
    let mut rank = group.before;
    let mut rest = group.bits;
    while rest != 0 {
        let word = kept[rank];
        // No branch: which words stay is hard to foresee. One that goes is written over.
        kept[left] = word;
        let stays = is_between(low, high, word);
        bits += u64::from(stays) << rest.trailing_zeros();
        left += usize::from(stays);
        rank += 1;
        rest &= rest - 1;
    }
    (bits, left)
}

/// Moves the words that are neither below `low` nor above `high` to the front, in their order, and returns how many they
/// are. Leaves in the groups only their bits, and counts anew how many words are before each.
pub(crate) fn keep_between(groups: &mut [Group], kept: &mut [u64], low: u64, high: u64) -> usize
    requires held { (len : ℕ) × AreGroups groups.old kept.old len }
    ensures groups { AreGroupsBetween low high kept.old groups.old groups.new }
    ensures front { take result kept.new ≡ filter (is_between low high) kept.old }
    ensures len { length kept.new ≡ length kept.old }
{
    let mut front = 0;
    for number in 0..groups.len() {
        let (bits, left) = keep_group(groups[number], kept, front, low, high);
        groups[number] = Group {
            bits,
            before: front,
        };
        front = left;
    }
    front
}
