//! What the program says of a failure.

ghost use Rattle.std.specs.Prelude.{◌≡◌, ◌++◌, IfOk, OnOk, string_bytes};
ghost use Rattle.leak_request.specs.Escaped.{escaped};
ghost use Rattle.leak_program.specs.WordTexts.{usage_text};
ghost use Rattle.leak_program.specs.Messages.{MessagesAreLines, failure_text, message_of, reader_text, run_text, unopened_text};
ghost use Rattle.leak_program.specs.Messages.{unread_text};

use crate::failure::Failure;
use crate::open_fault::Reason;
use crate::texts::{push_find, push_read, push_reason, push_usage, push_write};
use leak_find::{ReadFault, RunFault, UsageFault};
use leak_request::push_escaped;
use std::alloc::{AllocError, Global};

/// What the program says of the failure on standard error: a line that begins with its name, or clap's text alone.
pub fn message(alloc: Global, failure: &Failure) -> Result<Vec<u8>, AllocError>
    ensures { IfOk result (λ out. out.items ≡ message_of failure.now) }
{
    let mut out = Vec::new(alloc);
    if let Failure::Usage(UsageFault::Words(text)) = failure {
        out.extend_from_slice(text.as_bytes())?;
        return Ok(out);
    }
    out.extend_from_slice(b"leak_find: ")?;
    push_failure(alloc, &mut out, failure)?;
    out.push(b'\n')?;
    Ok(out)
}

/// Appends the text of a failure. Paths are escaped.
fn push_failure(alloc: Global, out: &mut Vec<u8>, failure: &Failure) -> Result<(), AllocError>
    ensures { OnOk result (out.new.items ≡ out.old.items ++ failure_text failure.now) }
{
    match failure {
        Failure::BadArgument => push_text(out, "a word is not UTF-8"),
        Failure::Usage(fault) => push_usage_text(alloc, out, fault),
        Failure::Open(path, reason) => push_unopened(alloc, out, path.as_str(), *reason),
        Failure::Read(number, path, fault) => {
            push_unread(alloc, out, *number, path.as_str(), *fault)
        }
        Failure::Run(fault) => push_run_text(alloc, out, *fault),
        Failure::NoMemory => push_text(out, "out of memory"),
    }
}

/// Appends the text.
fn push_text(out: &mut Vec<u8>, text: &str) -> Result<(), AllocError>
    ensures { OnOk result (out.new.items ≡ out.old.items ++ text.now) }
{
    out.extend_from_slice(text.as_bytes())
}

/// Appends the text of what refuses the words.
fn push_usage_text(alloc: Global, out: &mut Vec<u8>, fault: &UsageFault) -> Result<(), AllocError>
    ensures { OnOk result (out.new.items ≡ out.old.items ++ usage_text fault.now) }
{
    let mut text = String::new(alloc);
    push_usage(&mut text, fault)?;
    push_text(out, text.as_str())
}

/// Appends the text of a run that has no status.
fn push_run_text(alloc: Global, out: &mut Vec<u8>, fault: RunFault) -> Result<(), AllocError>
    ensures { OnOk result (out.new.items ≡ out.old.items ++ run_text fault) }
{
    let mut text = String::new(alloc);
    push_run(&mut text, fault)?;
    push_text(out, text.as_str())
}

/// Appends the text of a file that can't be opened.
fn push_unopened(
    alloc: Global,
    out: &mut Vec<u8>,
    path: &str,
    reason: Reason,
) -> Result<(), AllocError>
    ensures { OnOk result (out.new.items ≡ out.old.items ++ unopened_text path.now reason) }
{
    let mut text = String::new(alloc);
    push_reason(&mut text, reason)?;
    push_path(out, "cannot open ", path)?;
    push_text(out, text.as_str())
}

/// Appends the text of a reader that was not read to its end.
fn push_unread(
    alloc: Global,
    out: &mut Vec<u8>,
    number: u8,
    path: &str,
    fault: ReadFault,
) -> Result<(), AllocError>
    ensures { OnOk result (out.new.items ≡ out.old.items ++ unread_text number path.now fault) }
{
    let mut text = String::new(alloc);
    push_reader(&mut text, number, fault)?;
    text.push_str(": ")?;
    push_path(out, text.as_str(), path)
}

/// Appends a path, escaped, after the text.
fn push_path(out: &mut Vec<u8>, text: &str, path: &str) -> Result<(), AllocError>
    ensures { OnOk result (out.new.items ≡ out.old.items ++ (text.now ++ escaped path.now)) }
{
    push_text(out, text)?;
    push_escaped(out, path.as_bytes())
}

/// Appends the text of a run that has no status.
fn push_run(out: &mut String, fault: RunFault) -> Result<(), AllocError>
    ensures { OnOk result (string_bytes out.new ≡ string_bytes out.old ++ run_text fault) }
{
    match fault {
        RunFault::Read(number, fault) => push_reader(out, number, fault),
        RunFault::Find(error) => push_find(out, error),
        RunFault::NoBlock(address) => write!(out, "no live block holds 0x{address:x}"),
        RunFault::Write(fault) => push_write(out, fault),
    }
}

/// Appends the number of a reader, and what stopped it.
fn push_reader(out: &mut String, number: u8, fault: ReadFault) -> Result<(), AllocError>
    ensures { OnOk result (string_bytes out.new ≡ string_bytes out.old ++ reader_text number fault) }
{
    write!(out, "reader {number}: ")?;
    push_read(out, fault)
}

/// No message forges a line: each is one, except clap's texts.
pub fn messages_are_lines()
    ensures { MessagesAreLines }
{}
