//! From a marked set to the report.

ghost use Rattle.std.specs.Prelude.{◌≡◌, IfOk, IfErr, IfSome, length, option_map};
ghost use Rattle.leak_elf.specs.Words.{word_of};
ghost use Rattle.leak_scan.specs.Heads.{heads_of};
ghost use Rattle.leak_report.specs.Report.{text_of};
ghost use Rattle.leak_report.specs.Sites.{HaveSites, bytes_at, sited};
ghost use Rattle.leak_report.specs.Totals.{HaveCallersIn, leaked_in};
ghost use Rattle.leak_search.specs.Report.{head_with};

use crate::error::FindError;
use crate::found::{Found, Searched};
use crate::inputs::Input;
use crate::signing::Consistency;
use leak_blocks::Live;
use leak_index::Lookup;
use leak_pool::Marked;
use leak_report::{CallerTexts, Head, Two, count_clear, text};
use leak_roots::Roots;
use leak_scan::heads;
use std::alloc::{AllocError, Global};

/// The numbers of the report's first lines, of an input and its root words.
pub fn head_of(input: &Input, roots: &Roots, two: Option<Two>) -> Head
    ensures { result ≡ head_with input.now roots.now two }
{
    Head {
        undumped: input.image.undumped(),
        unknown: input.live.unknown(),
        displaced: input.live.displaced(),
        torn: input.torn,
        freed: if input.skip.freed {
            Some(roots.freed())
        } else {
            None
        },
        dead: if input.skip.dead {
            Some(roots.dead())
        } else {
            None
        },
        two,
    }
}

/// What a search comes to, by what is marked and which blocks are heads.
pub(crate) fn searched_by(
    marked: Marked,
    heads: Vec<bool>,
    head: Head,
    consistency: Consistency,
) -> Searched
    ensures { result ≡ record {
      head = head;
      set = marked.set;
      heads = heads;
      fits = consistency.fits;
      claims = marked.claims;
      signs = consistency.signs;
    } }
{
    Searched {
        head,
        set: marked.set,
        heads,
        fits: consistency.fits,
        claims: marked.claims,
        signs: consistency.signs,
    }
}

/// What a search comes to whose blocks are marked: the words of the input's core tell which of the others are heads.
pub fn searched_of<L: Lookup>(
    alloc: Global,
    input: &Input,
    lookup: &L,
    marked: Marked,
    head: Head,
    consistency: Consistency,
) -> Result<Searched, AllocError>
    requires one_each { length marked.set.items ≡ length input.now.live.blocks }
    requires same_blocks { (L.index lookup.now).blocks ≡ input.now.live.blocks }
    ensures head { IfOk result (λ searched. searched.head ≡ head) }
    ensures set { IfOk result (λ searched. searched.set ≡ marked.set) }
    ensures heads { IfOk result (λ searched. searched.heads.items
        ≡ heads_of (word_of input.now.image) (L.index lookup.now) marked.set.items) }
    ensures fits { IfOk result (λ searched. searched.fits ≡ consistency.fits) }
    ensures claims { IfOk result (λ searched. searched.claims ≡ marked.claims) }
    ensures signs { IfOk result (λ searched. searched.signs ≡ consistency.signs) }
{
    let set = marked.set.as_slice();
    let heads = heads(alloc, &input.image, lookup, &input.live, set)?;
    Ok(searched_by(marked, heads, head, consistency))
}

/// The report of the live blocks that were searched. `callers` says where the texts of their callers stand. If it is known
/// which blocks fit, it tells the misfits.
pub fn found_of(
    alloc: Global,
    live: &Live,
    searched: Searched,
    callers: CallerTexts<'_>,
) -> Result<Found, FindError>
    requires one_each { length searched.set.items ≡ length live.now.blocks }
    requires an_entry_each { length searched.heads.items ≡ length live.now.blocks }
    requires a_fit_each { IfSome searched.fits (λ v. length v.items ≡ length live.now.blocks) }
    requires sites { HaveSites callers (length live.now.blocks) }
    requires in_bytes { HaveCallersIn (bytes_at callers) (sited callers live.now.blocks) }
    ensures report { IfOk result (λ found. found.report.items ≡
        text_of searched.head (sited callers.entry live.now.blocks) searched.set.items
        searched.heads.items (option_map (λ v. v.items) searched.fits) (bytes_at callers.entry)) }
    ensures leaked { IfOk result (λ found.
        found.leaked ≡ length (leaked_in searched.set.items live.now.blocks)) }
    ensures claims { IfOk result (λ found. found.claims ≡ searched.claims) }
    ensures signs { IfOk result (λ found. found.signs.items ≡ searched.signs.items) }
    ensures memory { IfErr result (λ e. e ≡ FindError.NoMemory) }
{
    let set = searched.set.as_slice();
    let fits = searched.fits.as_deref();
    let heads = searched.heads.as_slice();
    let report = text(alloc, &searched.head, live, set, heads, fits, callers)?;
    Ok(Found {
        report,
        leaked: count_clear(set),
        claims: searched.claims,
        signs: searched.signs,
    })
}
