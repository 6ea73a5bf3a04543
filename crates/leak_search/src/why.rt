//! Why a block is held, from the bytes of a core and of a log.

ghost use Rattle.std.specs.Prelude.{◌≡◌, ◌≢◌, [], ◌∷◌, IfOk, IfErr};
ghost use Rattle.leak_index.specs.Readings.{distances_of};
ghost use Rattle.leak_search.specs.Signs.{AreSigns};
ghost use Rattle.leak_search.specs.declared.error.FindError.TheVariants.{NoMemory};
ghost use Rattle.leak_search.specs.declared.why.WhyError.TheVariants.{Find};
ghost use Rattle.leak_search.specs.Why.{IsWhyFault, TellsWhy};

use crate::{FindError, Rules, consistency_of_one, find_roots, read_input};
use leak_index::Sorted;
use leak_notes::register_sets;
use leak_report::Signs;
use leak_why::{block_at, text, why};
use std::alloc::{AllocError, Global};
use thiserror::Error;

/// Why a block is held, or that it is not.
#[derive(Drop)]
pub struct Why {
    /// The lines that tell it, each with its line feed.
    pub text: Vec<u8>,
    /// Whether a chain of words leads to the block.
    pub held: bool,
    /// The signs that the core and the log don't belong together.
    pub signs: Vec<Signs>,
}

/// Why it is not told what holds a block, in the order in which the reasons are tried.
#[derive(Clone, Copy, Debug, PartialEq, Eq, Error)]
pub enum WhyError {
    /// The core or the log is refused, as by a search.
    #[error("{0}")]
    Find(FindError),
    /// No live block has a byte at the address, or begins there.
    #[error("no live block holds 0x{0:x}")]
    NoBlock(u64),
}

impl From<FindError> for WhyError {
    ghost from_gives = { λ error e. e ≡ Find error };

    fn from(error: FindError) -> WhyError {
        WhyError::Find(error)
    }
}

impl From<AllocError> for WhyError {
    ghost from_gives = { λ _ e. e ≡ Find NoMemory };

    fn from(_error: AllocError) -> WhyError {
        WhyError::Find(FindError::NoMemory)
    }
}

/// Tells the shortest chain of words that holds the live block of the address, or that it leaked, by the rules, on the
/// caller's thread.
pub fn find_why<'a>(
    alloc: Global,
    core: &'a [u8],
    log: &'a [u8],
    rules: Rules,
    address: u64,
) -> Result<Why, WhyError>
    ensures ok { IfOk result
        (TellsWhy core.now log.now (distances_of rules.reading) rules.skip address) }
    ensures signs { IfOk result (λ why.
        AreSigns rules.other_heap (core.now ∷ log.now ∷ []) why.signs.items) }
    ensures refused { IfErr result
        (λ e. e ≢ Find NoMemory → IsWhyFault core.now log.now address e) }
{
    let input = read_input(alloc, 1, rules.skip, core, log)?;
    let Some(block) = block_at(&input.live, address) else {
        return Err(WhyError::NoBlock(address));
    };
    let consistency = consistency_of_one(alloc, &input, false, rules.other_heap)?;
    let roots = find_roots(alloc, &input)?;
    let lookup = Sorted::new(&input.live, rules.reading);
    let chain = why(alloc, &input.image, &lookup, &roots, &input.live, block)?;
    let sets = register_sets(alloc, &input.image)?;
    let text = text(alloc, &input.live, block, &chain, sets.as_slice(), log)?;
    Ok(Why {
        text,
        held: chain.is_some(),
        signs: consistency.signs,
    })
}
