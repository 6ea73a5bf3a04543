//! From a command line to what it asks for.

ghost use Rattle.std.specs.Prelude.{◌≡◌, ◌<◌, IfOk, IfErr, IfNone, IfSome, Bool, false};
ghost use Rattle.std.specs.Prelude.{length, map, string_bytes};
ghost use Rattle.leak_request.specs.CommandLine.{name_of, path_ids};
ghost use Rattle.leak_request.specs.FoundRows.{found_rows};
ghost use Rattle.leak_request.specs.Requests.{IsGrowRefusal, IsHoldersRefusal, IsRefusedAt, IsSearchRefusal, IsWhyRefusal};
ghost use Rattle.leak_request.specs.Requests.{AreAt, HasFiles, IsGrowRequest, IsHoldersRequest, IsRequest, IsRequestOf, IsSearchRequest};
ghost use Rattle.leak_request.specs.Requests.{IsUsageFaultOf, IsWhyRequest, holders_path_ids};

use crate::address::address;
use crate::command_line::command;
use crate::fault::{AddressArgument, UsageFault};
use crate::found_values::{bad_arguments, is_given, optional, paths, plan, reading, skip, value};
use crate::options::{
    CORE_LIMIT, GrowOptions, GrowRequest, HoldersRequest, LOG_LIMIT, Options, Request,
    SearchRequest, WhyRequest,
};
use crate::question::question;
use crate::unmatched::unmatched;
use clap::ArgMatches;
use leak_pool::Plan;
use std::alloc::{AllocError, Global};

/// The ids of the paths of a search of one core.
static ONE: [&str; 2] = ["core", "log"];

/// The ids of the paths of a search of two cores.
static TWO: [&str; 4] = ["core1", "log1", "core2", "log2"];

/// The ids of the paths of a question what grew.
static GROW: [&str; 2] = ["log1", "log2"];

/// Reads the words of a command line, which begin with the program's name.
///
/// The text of a refusal, of help or of the version is clap's. A list of displacements is refused only if nothing else is
/// missing, and `--check` with `--other-heap`, `--in` with `--of`, `--block` without both, or an address, only if the list is
/// not.
pub fn request(alloc: Global, words: &[String]) -> Result<Request, UsageFault>
    requires { 0 < length words.now }
    ensures ok { IfOk result (IsRequestOf (map string_bytes words.now)) }
    ensures files { IfOk result HasFiles }
    ensures refused { IfErr result (IsUsageFaultOf (map string_bytes words.now)) }
{
    let command = command(alloc)?;
    let matches = match command.try_get_matches_from(words) {
        Ok(matches) => matches,
        Err(error) => return unmatched(alloc, words, &error),
    };
    match matches.subcommand() {
        Some((name, found)) => request_of(alloc, name, found),
        None => Err(bad_arguments(alloc)),
    }
}

/// The request of the subcommand with the name, from what clap found for it.
fn request_of(alloc: Global, name: &str, found: &ArgMatches) -> Result<Request, UsageFault>
    ensures ok { IfOk result (IsRequest name.now (found_rows found.now)) }
    ensures refused { IfErr result (IsRefusedAt name.now (found_rows found.now)) }
{
    match name {
        "why" => Ok(Request::Why(why_request(alloc, found)?)),
        "holders" => Ok(Request::Holders(holders_request(alloc, found)?)),
        "grow" => Ok(Request::Grow(grow_request(alloc, found)?)),
        _ => Ok(Request::Search(search_request(alloc, name, found)?)),
    }
}

/// The request of a search, from what clap found for the subcommand with the name.
fn search_request(
    alloc: Global,
    name: &str,
    found: &ArgMatches,
) -> Result<SearchRequest, UsageFault>
    ensures ok { IfOk result (IsSearchRequest name.now (found_rows found.now)) }
    ensures refused { IfErr result (IsSearchRefusal name.now (found_rows found.now)) }
{
    let Some(two) = is_two(name) else {
        return Err(bad_arguments(alloc));
    };
    let paths = paths(alloc, found, ids_of(two))?;
    let plan = plan(alloc, found)?;
    let reading = match reading(found) {
        Ok(reading) => reading,
        Err(fault) => return Err(UsageFault::Displace(fault)),
    };
    let other_heap = is_given(found, "other-heap");
    let check = is_given(found, "check");
    if check && other_heap {
        return Err(UsageFault::Check);
    }
    Ok(SearchRequest {
        paths,
        options: Options {
            two,
            reading,
            skip: skip(found),
            plan,
            other_heap,
            check,
            strict: is_given(found, "strict"),
            core_limit: CORE_LIMIT,
            log_limit: LOG_LIMIT,
        },
    })
}

/// The request for what holds a block, from what clap found for it.
fn why_request(alloc: Global, found: &ArgMatches) -> Result<WhyRequest, UsageFault>
    ensures ok { IfOk result (IsWhyRequest (found_rows found.now)) }
    ensures refused { IfErr result (IsWhyRefusal (found_rows found.now)) }
{
    let paths = paths(alloc, found, ids_of(false))?;
    let Some(word) = value(found, "address") else {
        return Err(bad_arguments(alloc));
    };
    let reading = match reading(found) {
        Ok(reading) => reading,
        Err(fault) => return Err(UsageFault::Displace(fault)),
    };
    let Some(address) = address(word.as_bytes()) else {
        return Err(UsageFault::Address(AddressArgument::Operand));
    };
    let strict = is_given(found, "strict");
    Ok(WhyRequest {
        paths,
        options: Options {
            two: false,
            reading,
            skip: skip(found),
            plan: Plan::new(1, 1, 0).unwrap(),
            other_heap: is_given(found, "other-heap"),
            check: false,
            strict,
            core_limit: CORE_LIMIT,
            log_limit: LOG_LIMIT,
        },
        address,
    })
}

/// The request for who holds the memory, from what clap found for it.
fn holders_request(alloc: Global, found: &ArgMatches) -> Result<HoldersRequest, UsageFault>
    ensures ok { IfOk result (IsHoldersRequest (found_rows found.now)) }
    ensures refused { IfErr result (IsHoldersRefusal (found_rows found.now)) }
{
    let paths = paths(alloc, found, ids_of(false))?;
    let plan = plan(alloc, found)?;
    let reading = match reading(found) {
        Ok(reading) => reading,
        Err(fault) => return Err(UsageFault::Displace(fault)),
    };
    let paths = with_earlier(alloc, found, paths)?;
    let question = question(found)?;
    Ok(HoldersRequest {
        paths,
        options: Options {
            two: false,
            reading,
            skip: skip(found),
            plan,
            other_heap: is_given(found, "other-heap"),
            check: false,
            strict: is_given(found, "strict"),
            core_limit: CORE_LIMIT,
            log_limit: LOG_LIMIT,
        },
        question,
    })
}

/// The paths, and after them that of an earlier log, if there is one.
fn with_earlier(
    alloc: Global,
    found: &ArgMatches,
    paths: Vec<String>,
) -> Result<Vec<String>, UsageFault>
    ensures ok { IfOk result (λ all. AreAt (found_rows found.now) (path_ids false) paths.items
        → AreAt (found_rows found.now) (holders_path_ids (found_rows found.now)) all.items) }
    ensures memory { IfErr result (λ f. f ≡ UsageFault.NoMemory) }
{
    let mut paths = paths;
    if let Some(path) = optional(alloc, found, "since")? {
        paths.push(path)?;
    }
    Ok(paths)
}

/// The request for what grew between two logs, from what clap found for it.
fn grow_request(alloc: Global, found: &ArgMatches) -> Result<GrowRequest, UsageFault>
    ensures ok { IfOk result (IsGrowRequest (found_rows found.now)) }
    ensures refused { IfErr result (IsGrowRefusal (found_rows found.now)) }
{
    Ok(GrowRequest {
        paths: paths(alloc, found, GROW.as_slice())?,
        options: GrowOptions {
            strict: is_given(found, "strict"),
            log_limit: LOG_LIMIT,
        },
    })
}

/// Whether the subcommand with the name searches two cores.
fn is_two(name: &str) -> Option<bool>
    ensures name { IfSome result (λ two. name.now ≡ name_of two) }
    ensures none { IfNone result ((two : Bool) → name.now ≡ name_of two → ⊥) }
{
    match name {
        "one" => Some(false),
        "two" => Some(true),
        _ => None,
    }
}

/// The ids of the paths, in the order of the files.
fn ids_of(two: bool) -> &'static [&'static str]
    ensures { map (λ id. id.now) result.now ≡ path_ids two }
{
    if two { TWO.as_slice() } else { ONE.as_slice() }
}
