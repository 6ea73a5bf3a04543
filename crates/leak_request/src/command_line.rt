//! The command line, as clap reads it.

ghost use Rattle.std.specs.Prelude.{◌≡◌, IfOk, false, true, codes};
ghost use Rattle.clap.specs.Words.{app_of, rule_of};
ghost use Rattle.leak_request.specs.CommandLine.{command_line, flag_rule, grow_line, has_globals, holders_line, number_rule, operand_rule};
ghost use Rattle.leak_request.specs.CommandLine.{plan_rules, question_rules, reading_rules, search_line, sign_rules, text_rule};
ghost use Rattle.leak_request.specs.CommandLine.{warning_rules, why_line, with_options, with_rules};

use clap::{Arg, ArgAction, Command};
use std::alloc::{AllocError, Global};

/// The version, as `--version` tells it.
const VERSION: &str = "0.1.0";

/// What help says of a core.
const CORE: &str = "An x86-64 ELF core, as the kernel or gcore writes it";

/// What help says of a log.
const LOG: &str = "The allocation log of the process, as glibc's mtrace writes it";

/// What help says of the first core of two.
const FIRST_CORE: &str = "An x86-64 ELF core of the process, as the kernel or gcore writes it";

/// What help says of the first log of two.
const FIRST_LOG: &str = "Its allocation log when that core was taken, as glibc's mtrace writes it";

/// What help says of the second core.
const SECOND_CORE: &str = "A later core of the same process";

/// What help says of the second log.
const SECOND_LOG: &str = "Its log when that core was taken; it begins with LOG1";

/// What help says of the first log, if there is no core.
const EARLIER_LOG: &str = "An allocation log of the process, as glibc's mtrace writes it";

/// What help says of the second log, if there is no core.
const LATER_LOG: &str = "A later log of the same process; it begins with LOG1";

/// What help says of an address.
const ADDRESS: &str = "An address in the block, or its start: 0x and 1 to 16 hexadecimal digits";

/// What help says of `--in`.
const IN: &str = "Tell what is held by the live block of this address and all others of its caller";

/// What help says of `--of`.
const OF: &str = "Tell who holds the live block of this address and all others of its caller";

/// What help says of `--block`.
const BLOCK: &str = "With --in or --of: mean that block alone";

/// What help says of `--since`.
const SINCE: &str = "Count only blocks allocated after LOG1, an earlier log with which LOG begins";

/// What help says of `--displace`.
const DISPLACE: &str =
    "Byte offsets at which a pointer keeps a block, besides 0, as 8,16 [default: any]";

/// What help says of `--skip-ends`.
const SKIP_ENDS: &str = "Leave out pointers one past the end of a block";

/// What help says of `--all-memory`.
const ALL_MEMORY: &str = "Take pointers in memory that can't be written too";

/// What help says of `--skip-freed`.
const SKIP_FREED: &str = "Leave out pointers in freed memory of blocks below 131072 bytes";

/// What help says of `--skip-links`.
const SKIP_LINKS: &str = "Leave out the links of glibc's malloc to free chunks of its heap";

/// What help says of `--skip-slack`.
const SKIP_SLACK: &str =
    "Leave out pointers in what glibc's malloc gave a block past its size; assumes that the program doesn't use it";

/// What help says of `--skip-dead-stack`.
const SKIP_DEAD_STACK: &str =
    "Leave out pointers below the stack pointer of each thread, on its own stack";

/// What help says of `--check`.
const CHECK: &str = "List the live blocks that have no chunk of their size in use in glibc's heap";

/// What help says of `--other-heap`.
const OTHER_HEAP: &str = "The allocator is not glibc's: don't compare its heap with the log";

/// What help says of `--strict`.
const STRICT: &str = "Exit with status 3 if there is a warning";

/// `leak_find`, with a subcommand for the search of one core, one for that of two, one that asks for a block, one
/// that asks who holds the memory, and one that asks what grew.
pub(crate) fn command<'a>(alloc: Global) -> Result<Command<'a>, AllocError>
    ensures { IfOk result (λ c. app_of c ≡ command_line) }
{
    let command = Command::new(alloc, "leak_find")
        .about("Reports the allocated blocks of a dead process that no chain of pointers reaches")
        .version(VERSION)
        .subcommand_required(true);
    command
        .subcommand(one(alloc)?)?
        .subcommand(two(alloc)?)?
        .subcommand(why(alloc)?)?
        .subcommand(holders(alloc)?)?
        .subcommand(grow(alloc)?)
}

fn one<'a>(alloc: Global) -> Result<Command<'a>, AllocError>
    ensures line { IfOk result (λ c. app_of c ≡ search_line false) }
    ensures local { IfOk result (λ c. has_globals c ≡ false) }
{
    let command = Command::new(alloc, "one")
        .about("Searches a core and its log")
        .arg(operand(alloc, "core", "CORE", CORE))?
        .arg(operand(alloc, "log", "LOG", LOG))?;
    with_options(alloc, command)
}

fn two<'a>(alloc: Global) -> Result<Command<'a>, AllocError>
    ensures line { IfOk result (λ c. app_of c ≡ search_line true) }
    ensures local { IfOk result (λ c. has_globals c ≡ false) }
{
    let command = Command::new(alloc, "two")
        .about(
            "Searches a later core and its log, given an earlier core and log of the same process",
        )
        .arg(operand(alloc, "core1", "CORE1", FIRST_CORE))?
        .arg(operand(alloc, "log1", "LOG1", FIRST_LOG))?
        .arg(operand(alloc, "core2", "CORE2", SECOND_CORE))?
        .arg(operand(alloc, "log2", "LOG2", SECOND_LOG))?;
    with_options(alloc, command)
}

fn with_options<'a>(alloc: Global, command: Command<'a>) -> Result<Command<'a>, AllocError>
    ensures line { IfOk result (λ c. app_of c ≡ with_options (app_of command.entry)) }
    ensures local { IfOk result (λ c. has_globals c ≡ has_globals command.entry) }
{
    let command = with_plan(alloc, command)?;
    let command = with_reading(alloc, command)?;
    with_signs(alloc, command)
}

fn why<'a>(alloc: Global) -> Result<Command<'a>, AllocError>
    ensures line { IfOk result (λ c. app_of c ≡ why_line) }
    ensures local { IfOk result (λ c. has_globals c ≡ false) }
{
    let command = Command::new(alloc, "why")
        .about("Tells what holds the live block of an address")
        .arg(operand(alloc, "core", "CORE", CORE))?
        .arg(operand(alloc, "log", "LOG", LOG))?
        .arg(operand(alloc, "address", "ADDRESS", ADDRESS))?;
    let command = with_reading(alloc, command)?;
    with_warnings(alloc, command)
}

fn holders<'a>(alloc: Global) -> Result<Command<'a>, AllocError>
    ensures line { IfOk result (λ c. app_of c ≡ holders_line) }
    ensures local { IfOk result (λ c. has_globals c ≡ false) }
{
    let command = Command::new(alloc, "holders")
        .about("Tells which callers' blocks hold the memory that pointers reach")
        .arg(operand(alloc, "core", "CORE", CORE))?
        .arg(operand(alloc, "log", "LOG", LOG))?;
    let command = with_question(alloc, command)?;
    let command = with_plan(alloc, command)?;
    let command = with_reading(alloc, command)?;
    with_warnings(alloc, command)
}

fn grow<'a>(alloc: Global) -> Result<Command<'a>, AllocError>
    ensures line { IfOk result (λ c. app_of c ≡ grow_line) }
    ensures local { IfOk result (λ c. has_globals c ≡ false) }
{
    Command::new(alloc, "grow")
        .about("Tells which callers' blocks grew between two logs of one process")
        .arg(operand(alloc, "log1", "LOG1", EARLIER_LOG))?
        .arg(operand(alloc, "log2", "LOG2", LATER_LOG))?
        .arg(flag(alloc, "strict", STRICT))
}

/// The command with the options that ask about some blocks, and that say which blocks count.
fn with_question<'a>(alloc: Global, command: Command<'a>) -> Result<Command<'a>, AllocError>
    ensures line { IfOk result (λ c. app_of c ≡ with_rules (app_of command.entry) question_rules) }
    ensures local { IfOk result (λ c. has_globals c ≡ has_globals command.entry) }
{
    command
        .arg(text(alloc, "in", "ADDRESS", IN))?
        .arg(text(alloc, "of", "ADDRESS", OF))?
        .arg(flag(alloc, "block", BLOCK))?
        .arg(text(alloc, "since", "LOG1", SINCE))
}

/// The command with the options that share out the work.
fn with_plan<'a>(alloc: Global, command: Command<'a>) -> Result<Command<'a>, AllocError>
    ensures line { IfOk result (λ c. app_of c ≡ with_rules (app_of command.entry) plan_rules) }
    ensures local { IfOk result (λ c. has_globals c ≡ has_globals command.entry) }
{
    command
        .arg(workers(alloc))?
        .arg(piece(alloc))?
        .arg(stack(alloc))
}

/// The command with the options that say which words keep a block.
fn with_reading<'a>(alloc: Global, command: Command<'a>) -> Result<Command<'a>, AllocError>
    ensures line { IfOk result (λ c. app_of c ≡ with_rules (app_of command.entry) reading_rules) }
    ensures local { IfOk result (λ c. has_globals c ≡ has_globals command.entry) }
{
    command
        .arg(text(alloc, "displace", "LIST", DISPLACE))?
        .arg(flag(alloc, "skip-ends", SKIP_ENDS))?
        .arg(flag(alloc, "all-memory", ALL_MEMORY))?
        .arg(flag(alloc, "skip-freed", SKIP_FREED))?
        .arg(flag(alloc, "skip-links", SKIP_LINKS))?
        .arg(flag(alloc, "skip-slack", SKIP_SLACK))?
        .arg(flag(alloc, "skip-dead-stack", SKIP_DEAD_STACK))
}

/// The command with the options about the signs that a core and its log do not belong together.
fn with_signs<'a>(alloc: Global, command: Command<'a>) -> Result<Command<'a>, AllocError>
    ensures line { IfOk result (λ c. app_of c ≡ with_rules (app_of command.entry) sign_rules) }
    ensures local { IfOk result (λ c. has_globals c ≡ has_globals command.entry) }
{
    let command = command.arg(flag(alloc, "check", CHECK))?;
    with_warnings(alloc, command)
}

/// The command with the options about warnings.
fn with_warnings<'a>(alloc: Global, command: Command<'a>) -> Result<Command<'a>, AllocError>
    ensures line { IfOk result (λ c. app_of c ≡ with_rules (app_of command.entry) warning_rules) }
    ensures local { IfOk result (λ c. has_globals c ≡ has_globals command.entry) }
{
    command
        .arg(flag(alloc, "other-heap", OTHER_HEAP))?
        .arg(flag(alloc, "strict", STRICT))
}

fn operand<'a>(alloc: Global, id: &'a str, name: &'a str, what: &'a str) -> Arg<'a>
    ensures rule { rule_of result ≡ operand_rule id.entry.now }
    ensures local { result.global ≡ false }
{
    Arg::new(alloc, id)
        .required(true)
        .value_name(name)
        .help(what)
}

fn workers<'a>(alloc: Global) -> Arg<'a>
    ensures rule { rule_of result ≡ number_rule (codes "workers") (codes "4") 1 64 }
    ensures local { result.global ≡ false }
{
    Arg::new(alloc, "workers")
        .long("workers")
        .value_name("N")
        .default_value("4")
        .value_parser(clap::value_parser!(u32).range(1..=64))
        .help("Number of worker threads, 1 to 64")
}

fn piece<'a>(alloc: Global) -> Arg<'a>
    ensures rule { rule_of result ≡ number_rule (codes "piece") (codes "512") 1 65536 }
    ensures local { result.global ≡ false }
{
    Arg::new(alloc, "piece")
        .long("piece")
        .value_name("N")
        .default_value("512")
        .value_parser(clap::value_parser!(u32).range(1..=65536))
        .help("Number of root words that a worker takes at a time, 1 to 65536")
}

fn stack<'a>(alloc: Global) -> Arg<'a>
    ensures rule { rule_of result ≡ number_rule (codes "stack") (codes "1024") 0 65536 }
    ensures local { result.global ≡ false }
{
    Arg::new(alloc, "stack")
        .long("stack")
        .value_name("N")
        .default_value("1024")
        .value_parser(clap::value_parser!(u32).range(0..=65536))
        .help("Number of blocks that a worker's stack holds, 0 to 65536")
}

fn text<'a>(alloc: Global, id: &'a str, value: &'a str, what: &'a str) -> Arg<'a>
    ensures rule { rule_of result ≡ text_rule id.entry.now }
    ensures local { result.global ≡ false }
{
    Arg::new(alloc, id).long(id).value_name(value).help(what)
}

fn flag<'a>(alloc: Global, name: &'a str, what: &'a str) -> Arg<'a>
    ensures rule { rule_of result ≡ flag_rule name.entry.now }
    ensures local { result.global ≡ false }
{
    Arg::new(alloc, name)
        .long(name)
        .action(ArgAction::SetTrue)
        .help(what)
}
