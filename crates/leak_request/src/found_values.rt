//! What clap found for a subcommand, value by value.

ghost use Rattle.std.specs.Prelude.{◌≡◌, ◌↔◌, IfOk, IsTrue, IsFalse, IfErr, IfNone, IfSome};
ghost use Rattle.std.specs.Prelude.{codes, map, option_map, string_bytes};
ghost use Rattle.clap.specs.Words.{first_of};
ghost use Rattle.leak_index.specs.Readings.{distances_of, listed_by};
ghost use Rattle.leak_request.specs.FoundRows.{IsGiven, found_rows};
ghost use Rattle.leak_request.specs.Requests.{AreAt, AreNumbersAt, IsBadBy, IsListFaultAt, IsListedBy};
ghost use Rattle.leak_request.specs.Requests.{IsNumberAt, LacksNumber, LacksNumberAt, LacksOneOf, list_in};

use crate::displacements::read_displace;
use crate::fault::{DisplaceFault, UsageFault};
use clap::ArgMatches;
use leak_index::Reading;
use leak_pool::Plan;
use leak_roots::Skip;
use std::alloc::{AllocError, Global};

/// The values of the arguments with the ids, in order.
pub(crate) fn paths(
    alloc: Global,
    found: &ArgMatches,
    ids: &[&str],
) -> Result<Vec<String>, UsageFault>
    ensures ok { IfOk result (λ paths.
        AreAt (found_rows found.now) (map (λ id. id.now) ids.now) paths.items) }
    ensures refused { IfErr result (IsBadBy (LacksOneOf (found_rows found.now) (map (λ id. id.now) ids.now))) }
{
    let mut paths = Vec::new(alloc);
    for id in ids {
        let Some(path) = value(found, id) else {
            return Err(bad_arguments(alloc));
        };
        paths.push(path.to_string(alloc)?)?;
    }
    Ok(paths)
}

/// The value of the argument, as text that lives on.
pub(crate) fn optional(
    alloc: Global,
    found: &ArgMatches,
    id: &str,
) -> Result<Option<String>, AllocError>
    ensures { IfOk result (λ text. option_map string_bytes text ≡ first_of id.now (found_rows found.now)) }
{
    match value(found, id) {
        Some(text) => Ok(Some(text.to_string(alloc)?)),
        None => Ok(None),
    }
}

/// The value of the argument, as text.
pub(crate) fn value<'a>(found: &ArgMatches<'a>, id: &str) -> Option<&'a str>
    ensures { option_map (λ text. text.now) result ≡ first_of id.now (found_rows found.now) }
{
    found.get_str(id)
}

/// Whether the flag was given.
pub(crate) fn is_given(found: &ArgMatches, id: &str) -> bool
    ensures { IsTrue result ↔ IsGiven (found_rows found.now) id.now }
{
    matches!(value(found, id), Some("true"))
}

/// What is left out of the root words.
pub(crate) fn skip(found: &ArgMatches) -> Skip
    ensures freed { IsTrue result.freed ↔ IsGiven (found_rows found.now) (codes "skip-freed") }
    ensures links { IsTrue result.links ↔ IsGiven (found_rows found.now) (codes "skip-links") }
    ensures slack { IsTrue result.slack ↔ IsGiven (found_rows found.now) (codes "skip-slack") }
    ensures dead { IsTrue result.dead ↔ IsGiven (found_rows found.now) (codes "skip-dead-stack") }
    ensures unwritable { IsFalse result.unwritable
        ↔ IsGiven (found_rows found.now) (codes "all-memory") }
{
    Skip {
        freed: is_given(found, "skip-freed"),
        links: is_given(found, "skip-links"),
        slack: is_given(found, "skip-slack"),
        dead: is_given(found, "skip-dead-stack"),
        unwritable: !is_given(found, "all-memory"),
    }
}

pub(crate) fn plan(alloc: Global, found: &ArgMatches) -> Result<Plan, UsageFault>
    ensures ok { IfOk result (λ p. AreNumbersAt (found_rows found.now) p.workers p.piece p.stack) }
    ensures refused { IfErr result (IsBadBy (LacksNumber (found_rows found.now))) }
{
    let Some(workers) = number(found, "workers") else {
        return Err(bad_arguments(alloc));
    };
    let Some(piece) = number(found, "piece") else {
        return Err(bad_arguments(alloc));
    };
    let Some(stack) = number(found, "stack") else {
        return Err(bad_arguments(alloc));
    };
    match Plan::new(workers, piece, stack) {
        Ok(plan) => Ok(plan),
        Err(_) => Err(bad_arguments(alloc)),
    }
}

/// The value of the option, as a number.
fn number(found: &ArgMatches, id: &str) -> Option<u32>
    ensures some { IfSome result (IsNumberAt (found_rows found.now) id.now) }
    ensures none { IfNone result (LacksNumberAt (found_rows found.now) id.now) }
{
    found.get_one(id)
}

/// The distances from a block's start at which a word keeps the block.
pub(crate) fn reading(found: &ArgMatches) -> Result<Reading, DisplaceFault>
    ensures ok { IfOk result (λ reading.
        IsListedBy (list_in (found_rows found.now)) (listed_by reading)) }
    ensures ends { IfOk result (λ reading. IsTrue (distances_of reading).skips_ends
        ↔ IsGiven (found_rows found.now) (codes "skip-ends")) }
    ensures refused { IfErr result (IsListFaultAt (found_rows found.now)) }
{
    match listed(found) {
        Ok(listed) => Ok(listed.skip_ends(is_given(found, "skip-ends"))),
        Err(fault) => Err(fault),
    }
}

/// The distances of the list, or all.
fn listed(found: &ArgMatches) -> Result<Reading, DisplaceFault>
    ensures ok { IfOk result (λ reading.
        IsListedBy (list_in (found_rows found.now)) (listed_by reading)) }
    ensures refused { IfErr result (IsListFaultAt (found_rows found.now)) }
{
    match value(found, "displace") {
        Some(list) => read_displace(list.as_bytes()),
        None => Ok(Reading::interior()),
    }
}

/// The refusal if clap accepts the words, and a subcommand, a path or a number is missing.
pub(crate) fn bad_arguments(alloc: Global) -> UsageFault
    ensures { IsBadBy (Unit {0}) result }
{
    match "bad arguments".to_string(alloc) {
        Ok(text) => UsageFault::Words(text),
        Err(_) => UsageFault::NoMemory,
    }
}
