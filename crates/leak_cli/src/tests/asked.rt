//! What words ask for, in words.

use crate::tests::comparisons::same_in;
use leak_index::Reading;
use leak_pool::Plan;
use leak_request::{Options, Request, UsageFault, request};
use leak_roots::Skip;
use std::alloc::AllocError;
use std::process::Abort;
use std::test::*;

/// The answer to the words, which are separated by spaces and follow the program's name.
pub fn asked<R: Abort + AllocGlobal>(
    rt: &R,
    line: &str,
) -> Result<Result<Request, UsageFault>, AllocError> {
    let mut words = vec![in rt.alloc(); "leak_find".to_string(rt.alloc())?]?;
    for word in line.split(' ') {
        words.push(word.to_string(rt.alloc())?)?;
    }
    assert!(rt; !words.is_empty());
    Ok(request(rt.alloc(), words.as_slice()))
}

/// The words with each of the paths after them.
fn with_paths(mut text: String, paths: &[String]) -> Result<String, AllocError> {
    for path in paths {
        text.push(' ')?;
        text.push_str(path.as_str())?;
    }
    Ok(text)
}

/// A request in words: its kind, its options, the address of the block that is asked for, and then its paths.
pub fn shown<R: AllocGlobal>(rt: &R, request: &Request) -> Result<String, AllocError> {
    let alloc = rt.alloc();
    match request {
        Request::Search(r) => with_paths(
            format!(in alloc; "search {:?}", r.options)?,
            r.paths.as_slice(),
        ),
        Request::Why(r) => with_paths(
            format!(in alloc; "why {:?} {}", r.options, r.address)?,
            r.paths.as_slice(),
        ),
        Request::Holders(r) => with_paths(
            format!(in alloc; "holders {:?}", r.options)?,
            r.paths.as_slice(),
        ),
        Request::Grow(r) => with_paths(
            format!(in alloc; "grow {:?}", r.options)?,
            r.paths.as_slice(),
        ),
        Request::Text(text) => text.clone(),
    }
}

/// The options of a search within the program's limits.
pub fn options(two: bool, reading: Reading, plan: Plan) -> Options {
    Options {
        two,
        reading,
        skip: Skip::usual(),
        plan,
        other_heap: false,
        check: false,
        strict: false,
        core_limit: 68_719_476_736,
        log_limit: 4_294_967_296,
    }
}

/// The options with freed memory or links to free chunks left out.
pub fn skipping(options: Options, freed: bool, links: bool) -> Options {
    Options {
        skip: Skip {
            freed,
            links,
            ..options.skip
        },
        ..options
    }
}

/// The options with slack left out.
pub fn without_slack(options: Options) -> Options {
    Options {
        skip: Skip {
            slack: true,
            ..options.skip
        },
        ..options
    }
}

/// The options with all memory taken.
pub fn with_all_memory(options: Options) -> Options {
    Options {
        skip: Skip {
            unwritable: false,
            ..options.skip
        },
        ..options
    }
}

/// Checks that the words are taken as a request with these options and paths.
pub fn takes<R: Abort + AllocGlobal>(
    rt: &R,
    line: &str,
    options: Options,
    paths: &str,
) -> Result<(), Fail> {
    let request = asked(rt, line)??;
    let want = format!(in rt.alloc(); "search {options:?} {paths}")?;
    same_in(rt, &line, shown(rt, &request)?.as_str(), want.as_str());
    Ok(())
}

/// Checks that the words ask for the block of this address, with these options and paths.
pub fn asks<R: Abort + AllocGlobal>(
    rt: &R,
    line: &str,
    options: Options,
    address: u64,
    paths: &str,
) -> Result<(), Fail> {
    let request = asked(rt, line)??;
    let want = format!(in rt.alloc(); "why {options:?} {address} {paths}")?;
    same_in(rt, &line, shown(rt, &request)?.as_str(), want.as_str());
    Ok(())
}
