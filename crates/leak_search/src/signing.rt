//! What is odd about inputs, and which of their blocks fit.

ghost use Rattle.std.specs.Prelude.{◌≡◌, ◌++◌, [], ◌∷◌, IfOk, length, option_map};
ghost use Rattle.leak_elf.specs.Words.{word_of};
ghost use Rattle.leak_chunks.specs.Fit.{fits_of};
ghost use Rattle.leak_search.specs.Signs.{signs_with, fits_with, misfits_counted};

use crate::inputs::Input;
use leak_chunks::{count_misfits, count_misfits_by, fits};
use leak_report::{Signs, count_clear};
use leak_team::Team;
use std::alloc::{AllocError, Global};
use std::thread::Threads;

/// What is odd about the inputs of a search.
#[derive(Drop)]
pub struct Consistency {
    /// The signs of each input, in order.
    pub signs: Vec<Signs>,
    /// For each live block of the last input, whether it fits its core, if the report is to tell that.
    pub fits: Option<Vec<bool>>,
}

/// What was asked of the input's live blocks.
#[derive(Drop)]
struct Asked {
    /// How many of them are counted as misfits.
    misfits: u64,
    /// Which of them fit, if that is kept.
    fits: Option<Vec<bool>>,
}

/// Asks which of the input's live blocks fit, or how many do not if it is not kept which. In another heap than glibc's no
/// block counts as a misfit.
fn ask(alloc: Global, input: &Input, check: bool, other_heap: bool) -> Result<Asked, AllocError>
    ensures misfits { IfOk result (λ asked. asked.misfits ≡ misfits_counted other_heap
        (fits_of (word_of input.now.image) input.now.live.blocks)) }
    ensures fits { IfOk result (λ asked.
        option_map (λ v. v.items) asked.fits ≡ fits_with check input.now) }
{
    if !check {
        let misfits = if other_heap {
            0
        } else {
            count_misfits(&input.image, &input.live)
        };
        return Ok(Asked {
            misfits,
            fits: None,
        });
    }
    let fits = fits(alloc, &input.image, &input.live)?;
    let misfits = if other_heap {
        0
    } else {
        count_clear(fits.as_slice())
    };
    Ok(Asked {
        misfits,
        fits: Some(fits),
    })
}

/// The signs that the input's core and log don't belong together, with so many misfits.
fn signs_of(input: &Input, misfits: u64) -> Signs
    ensures { result ≡ record {
      live = length input.now.live.blocks;
      torn = input.now.torn;
      unknown = input.now.live.unknown;
      displaced = input.now.live.displaced;
      misfits = misfits;
    } }
{
    Signs {
        live: input.live.blocks().len() as u64,
        torn: input.torn,
        unknown: input.live.unknown(),
        displaced: input.live.displaced(),
        misfits,
    }
}

/// Adds the signs that the input's core and log don't belong together. Returns which of its live blocks fit, if that is to be kept.
fn add_signs(
    alloc: Global,
    signs: &mut Vec<Signs>,
    input: &Input,
    check: bool,
    other_heap: bool,
) -> Result<Option<Vec<bool>>, AllocError>
    ensures signs { IfOk result (λ _.
        signs.new.items ≡ signs.old.items ++ signs_with other_heap input.now ∷ []) }
    ensures fits { IfOk result (λ fits.
        option_map (λ v. v.items) fits ≡ fits_with check input.now) }
{
    let Asked { misfits, fits } = ask(alloc, input, check, other_heap)?;
    signs.push(signs_of(input, misfits))?;
    Ok(fits)
}

/// What is odd about one input. Which of its blocks fit is kept if `check` is set. `other_heap` says that the heap is another
/// than glibc's, so no block counts as a misfit.
pub fn consistency_of_one(
    alloc: Global,
    input: &Input,
    check: bool,
    other_heap: bool,
) -> Result<Consistency, AllocError>
    ensures signs { IfOk result (λ odd. odd.signs.items ≡ signs_with other_heap input.now ∷ []) }
    ensures fits { IfOk result (λ odd.
        option_map (λ v. v.items) odd.fits ≡ fits_with check input.now) }
{
    let mut signs = Vec::with_capacity(alloc, 1)?;
    let fits = add_signs(alloc, &mut signs, input, check, other_heap)?;
    Ok(Consistency { signs, fits })
}

/// What is odd about one input, as [`consistency_of_one`] tells it. The workers of the team count the misfits. If it is kept
/// which blocks fit, the caller asks that alone.
pub fn consistency_of_one_by<R: Threads + Sync>(
    team: &Team<'_, R>,
    input: &Input,
    check: bool,
    other_heap: bool,
) -> Result<Consistency, AllocError>
    ensures signs { IfOk result (λ odd. odd.signs.items ≡ signs_with other_heap input.now ∷ []) }
    ensures fits { IfOk result (λ odd.
        option_map (λ v. v.items) odd.fits ≡ fits_with check input.now) }
{
    if check || other_heap {
        return consistency_of_one(team.alloc, input, check, other_heap);
    }
    let mut signs = Vec::with_capacity(team.alloc, 1)?;
    let misfits = count_misfits_by(team, &input.image, &input.live);
    signs.push(signs_of(input, misfits))?;
    Ok(Consistency { signs, fits: None })
}

/// What is odd about two inputs, as [`consistency_of_one`] tells it. Which blocks fit is kept of the second alone.
pub fn consistency_of_two(
    alloc: Global,
    first: &Input,
    second: &Input,
    check: bool,
    other_heap: bool,
) -> Result<Consistency, AllocError>
    ensures signs { IfOk result (λ odd. odd.signs.items
        ≡ signs_with other_heap first.now ∷ signs_with other_heap second.now ∷ []) }
    ensures fits { IfOk result (λ odd.
        option_map (λ v. v.items) odd.fits ≡ fits_with check second.now) }
{
    let mut signs = Vec::with_capacity(alloc, 2)?;
    let _unkept = add_signs(alloc, &mut signs, first, false, other_heap)?;
    let fits = add_signs(alloc, &mut signs, second, check, other_heap)?;
    Ok(Consistency { signs, fits })
}
