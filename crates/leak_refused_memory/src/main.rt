//! `leak_refused_memory`: makes each call that takes memory, and says what it answered.
//!
//! It is run with each of its allocations refused in turn (examples/refuse_memory.sh). A call is named by the only word;
//! without a word each call is made once, and each has to answer as it does with ample memory. The status is 0 if
//! each answer was that, 3 if a call answered want of memory, 4 if it answered anything else, and 5 if memory for
//! the inputs was refused.
#![tactic(auto)]

mod alone;
mod answer;
mod listing;
mod marking;
mod passing;
mod reading;
mod reporting;
mod running;
mod samples;
mod searching;
mod whole;
mod why;

use answer::Answer;
use leak_team::Team;
use std::alloc::AllocError;
use std::env;
use std::process::ExitCode;
use std::rt::Env;
use std::thread::Threads;

/// The calls, by name.
static CALLS: [&str; 67] = [
    "core_k",
    "Image::read",
    "Threads::read",
    "Threads::read_vectors",
    "Log::read",
    "replay",
    "replay_bytes",
    "replay_with_spans",
    "small_spans",
    "TextTable::number",
    "gather",
    "SparseWords::reserve",
    "replay_reading",
    "replay_reading_spans",
    "replay_reading_turns",
    "Paged::new",
    "Roots::find",
    "Roots::find_unfreed",
    "Roots::skip_slack",
    "dead_spans",
    "Roots::skip_dead",
    "cut",
    "pieces",
    "leading_roots",
    "find_leading_roots",
    "Claims::new",
    "Marks::new",
    "split",
    "close",
    "mark_alone",
    "mark",
    "mark_from",
    "mark_by_edges",
    "list_core",
    "mark_by_listing",
    "differing",
    "carry",
    "retrace",
    "heads",
    "heads_by_edges",
    "Totals::of",
    "text",
    "find_alone",
    "find_alone_vectors",
    "find_alone_unfreed",
    "find_alone_checked",
    "find_alone_unlinked",
    "find_alone_unslacked",
    "find_alone_undead",
    "find_one",
    "find_two",
    "find_why",
    "find_holders",
    "find_holders_since",
    "find_held_in",
    "find_held_of",
    "find_growth",
    "read_all",
    "run",
    "run_sized",
    "run_two",
    "run_why",
    "run_why_sized",
    "run_holders",
    "run_held",
    "run_grow",
    "request",
];

fn main(rt: HostRuntime) -> ExitCode {
    match answers(&rt) {
        Ok(answer) => ExitCode::from(answer.status()),
        Err(_) => ExitCode::from(Answer::NoInput.status()),
    }
}

/// Makes the call that the only word names, or else each call, and prints each answer.
fn answers<R: Env + Print + AllocGlobal + Threads + Sync>(rt: &R) -> Result<Answer, AllocError> {
    let words: Vec<String> = match env::args(rt) {
        Ok(words) => match words.collect(rt.alloc()) {
            Ok(words) => words,
            Err(_) => return Err(AllocError),
        },
        Err(_) => return Err(AllocError),
    };
    match words.get(1) {
        Some(name) => Ok(told(rt, name.as_str())),
        None => {
            let mut worst = Answer::Same;
            for name in CALLS.as_slice() {
                worst = worst.worse(told(rt, name));
            }
            Ok(worst)
        }
    }
}

/// Makes the call with the name and prints its answer.
fn told<R: Print + AllocGlobal + Threads + Sync>(rt: &R, name: &str) -> Answer {
    let answer = match answer_of(rt, name) {
        Some(answer) => answer,
        None => Answer::NoInput,
    };
    // The status tells it too.
    let _printed = println!(rt; "{name}: {answer}");
    answer
}

/// What the call with the name answers, or `None` if memory for its inputs was refused. The calls are in groups, since a
/// name costs more to prove the more names it is not.
fn answer_of<R: AllocGlobal + Threads + Sync>(rt: &R, name: &str) -> Option<Answer> {
    let alloc = rt.alloc();
    match name {
        "core_k" => reading::sample(alloc),
        "Image::read" => reading::image(alloc),
        "Threads::read" => reading::threads(alloc),
        "Threads::read_vectors" => reading::vectors(alloc),
        "Log::read" => reading::log(alloc),
        "replay" => reading::replayed(alloc),
        "replay_bytes" => reading::replayed_bytes(alloc),
        "replay_with_spans" => reading::spanned(alloc),
        "small_spans" => reading::small(alloc),
        _ => answer_of_passing(rt, name),
    }
}

/// The same of what replays a log that is not held, and of the room for words.
fn answer_of_passing<R: AllocGlobal + Threads + Sync>(rt: &R, name: &str) -> Option<Answer> {
    let alloc = rt.alloc();
    let team = Team {
        rt,
        alloc,
        workers: 1,
    };
    match name {
        "TextTable::number" => passing::numbers(alloc),
        "gather" => passing::gathered(alloc),
        "SparseWords::reserve" => passing::room(alloc),
        "replay_reading" => passing::replayed(&team),
        "replay_reading_spans" => passing::replayed_spans(&team),
        "replay_reading_turns" => passing::replayed_turns(&team),
        _ => answer_of_roots(rt, name),
    }
}

/// The same of what makes a lookup and roots.
fn answer_of_roots<R: AllocGlobal + Threads + Sync>(rt: &R, name: &str) -> Option<Answer> {
    let alloc = rt.alloc();
    match name {
        "Paged::new" => searching::paged(alloc),
        "Roots::find" => searching::roots(alloc),
        "Roots::find_unfreed" => searching::unfreed_roots(alloc),
        "Roots::skip_slack" => searching::unslacked_roots(alloc),
        "dead_spans" => searching::dead_stack(alloc),
        "Roots::skip_dead" => searching::undead_roots(alloc),
        "cut" => searching::cut(alloc),
        "pieces" => searching::pieces(alloc),
        "leading_roots" => searching::leading(rt),
        "find_leading_roots" => listing::leading(alloc),
        _ => answer_of_marking(rt, name),
    }
}

/// The same of what marks, and of what makes the report.
fn answer_of_marking<R: AllocGlobal + Threads + Sync>(rt: &R, name: &str) -> Option<Answer> {
    let alloc = rt.alloc();
    match name {
        "Claims::new" => marking::claims(alloc),
        "Marks::new" => marking::table(alloc),
        "split" => marking::split(alloc),
        "close" => marking::close(alloc),
        "mark_alone" => marking::alone(alloc),
        "mark" => marking::by_workers(rt),
        "mark_from" => marking::from_a_start(rt),
        "mark_by_edges" => marking::by_edges(rt),
        "list_core" => listing::listed(rt),
        "mark_by_listing" => listing::marked(rt),
        "differing" => marking::pages(rt),
        "carry" => marking::carried(alloc),
        "retrace" => marking::retraced(rt),
        "heads" => marking::headed(alloc),
        "heads_by_edges" => listing::headed(rt),
        "Totals::of" => reporting::totals(alloc),
        "text" => reporting::report(alloc),
        _ => answer_of_search(rt, name),
    }
}

/// The same of whole searches.
fn answer_of_search<R: AllocGlobal + Threads + Sync>(rt: &R, name: &str) -> Option<Answer> {
    let alloc = rt.alloc();
    match name {
        "find_alone" => alone::alone(alloc),
        "find_alone_vectors" => alone::vectors(alloc),
        "find_alone_unfreed" => alone::unfreed(alloc),
        "find_alone_checked" => alone::checked(alloc),
        "find_alone_unlinked" => alone::unlinked(alloc),
        "find_alone_unslacked" => alone::unslacked(alloc),
        "find_alone_undead" => alone::undead(alloc),
        "find_one" => whole::by_workers(rt),
        "find_two" => whole::two_cores(rt),
        "find_why" => whole::held_by(alloc),
        "find_holders" => why::holders(rt),
        "find_holders_since" => why::holders_since(rt),
        "find_held_in" => why::held_in(rt),
        "find_held_of" => why::held_of(rt),
        "find_growth" => why::growth(alloc),
        _ => answer_of_run(rt, name),
    }
}

/// The same of whole runs, and of what they begin with. There is no other call.
fn answer_of_run<R: AllocGlobal + Threads + Sync>(rt: &R, name: &str) -> Option<Answer> {
    let alloc = rt.alloc();
    match name {
        "read_all" => whole::input(alloc),
        "run" => running::runs(rt),
        "run_sized" => running::runs_sized(rt),
        "run_two" => running::runs_two(rt),
        "run_why" => running::runs_why(rt),
        "run_why_sized" => running::runs_why_sized(rt),
        "run_holders" => why::runs_holders(rt),
        "run_held" => why::runs_held(rt),
        "run_grow" => why::runs_grow(rt),
        "request" => whole::command_line(alloc),
        _ => None,
    }
}
