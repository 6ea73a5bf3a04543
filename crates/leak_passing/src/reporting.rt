//! The report of blocks of whose log the texts of callers were kept.

ghost use Rattle.std.specs.Prelude.{◌≡◌, ℕ, List, length, option_map, IfOk, IfErr, IfSome};
ghost use Rattle.leak_report.specs.Report.{text_of};
ghost use Rattle.leak_report.specs.Totals.{leaked_in};
ghost use Rattle.leak_replaying.specs.Texts.{AreKeptOf};

use leak_blocks::Live;
use leak_replaying::KeptTexts;
use leak_report::reports_go_by_texts;
use leak_search::{FindError, Found, Searched, found_of};
use std::alloc::Global;

/// The report of live blocks that were searched, by the texts that were kept of their log: it is that of the log.
pub(crate) fn found_by_texts(
    alloc: Global,
    live: Live,
    searched: Searched,
    kept: KeptTexts,
) -> Result<Found, FindError>
    requires texts { (log : List ℕ) × AreKeptOf log live.blocks kept }
    requires one_each { length searched.set.items ≡ length live.blocks }
    requires an_entry_each { length searched.heads.items ≡ length live.blocks }
    requires a_fit_each { IfSome searched.fits (λ v. length v.items ≡ length live.blocks) }
    ensures report { IfOk result (λ found. (log : List ℕ)
        → AreKeptOf log live.blocks kept → found.report.items ≡
        text_of searched.head live.blocks searched.set.items searched.heads.items
        (option_map (λ v. v.items) searched.fits) log) }
    ensures leaked { IfOk result (λ found.
        found.leaked ≡ length (leaked_in searched.set.items live.blocks)) }
    ensures claims { IfOk result (λ found. found.claims ≡ searched.claims) }
    ensures signs { IfOk result (λ found. found.signs.items ≡ searched.signs.items) }
    ensures memory { IfErr result (λ e. e ≡ FindError.NoMemory) }
{
    // (a law, for the proof: a report goes by the texts of callers)
    reports_go_by_texts();
    found_of(alloc, &live, searched, kept.callers())
}
