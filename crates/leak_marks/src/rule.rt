//! The rule of the table of marks, and what its steps tell.
use crate::view::View;
use atomic_table::{Join, Play, Split, TableRule};
use std::marker::{Brand, PhantomData};

/// The rule: the marks are the claims of all views together, each once. The key is the number of blocks.
pub struct MarkRule;

impl TableRule<(), View, u32> for MarkRule {
    ghost use Rattle.leak_marks.specs.Marks.{Kept, whole};

    ghost holds = { Kept };

    ghost first = { λ _. whole };
}

// A `fetch_or` of a block's bit.
pub(crate) struct Claim;

impl Play<(), View> for Claim {
    ghost use Rattle.leak_marks.specs.Marks.{claimed};

    ghost then = { claimed };
}

/// Names the block that a look is for: a load has no operand that would.
pub trait Target {
    ghost use Rattle.std.specs.Prelude.{ℕ};

    ghost block: { ℕ };
}

impl Target for Brand {
    ghost block = { 0 };
}

// A load of a block's word.
pub(crate) struct Look<B> {
    target: PhantomData<B>,
}

impl<B: Target> Play<(), View> for Look<B> {
    ghost use Rattle.leak_marks.specs.Marks.{looked};

    ghost then = { looked B.block };
}

// A load that changes nothing, and tells what holds of any one seat.
pub(crate) struct Check;

impl Play<(), View> for Check {
    ghost use Rattle.leak_marks.specs.Marks.{checked};

    ghost then = { checked };
}

// A share of 1 is split off; the claims stay, and both have seen the same.
pub(crate) struct SplitOff;

impl Split<View> for SplitOff {
    ghost use Rattle.leak_marks.specs.Marks.{left_of, right_of};

    ghost left = { left_of };

    ghost right = { right_of };
}

// Claims, what was seen and shares are put together; the other view is spent.
pub(crate) struct Both;

impl Join<View> for Both {
    ghost use Rattle.leak_marks.specs.Marks.{joined, spent};

    ghost both = { joined };

    ghost spent = { spent };
}
