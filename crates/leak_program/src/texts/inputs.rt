//! The texts of what refuses an input.

ghost use Rattle.std.specs.Prelude.{◌≡◌, ◌++◌, OnOk, string_bytes};
ghost use Rattle.leak_program.specs.InputTexts.{core_text, find_text, header_text, input_text, log_text, notes_text};

use leak_elf::ElfError;
use leak_mtrace::LogError;
use leak_notes::NoteError;
use leak_search::FindError;
use std::alloc::AllocError;

/// Appends the text of what refuses an input.
pub fn push_find(out: &mut String, error: FindError) -> Result<(), AllocError>
    ensures { OnOk result (string_bytes out.new ≡ string_bytes out.old ++ find_text error) }
{
    match error {
        FindError::Core(input, error) => {
            write!(out, "input {input}: core: ")?;
            push_core(out, error)
        }
        FindError::Notes(input, error) => {
            write!(out, "input {input}: notes: ")?;
            push_notes(out, error)
        }
        FindError::Log(input, error) => {
            write!(out, "input {input}: log: ")?;
            push_log(out, error)
        }
        FindError::NotPrefix => out.push_str("log 1 is not a prefix of log 2"),
        FindError::TooMany => out.push_str("too many blocks"),
        FindError::NoMemory => out.push_str("out of memory"),
    }
}

/// Appends the text of what refuses a core.
pub fn push_core(out: &mut String, error: ElfError) -> Result<(), AllocError>
    ensures { OnOk result (string_bytes out.new ≡ string_bytes out.old ++ core_text error) }
{
    match error {
        ElfError::Short => out.push_str("shorter than an ELF header"),
        ElfError::Magic => out.push_str("not an ELF file"),
        ElfError::Class => out.push_str("not a 64-bit file"),
        ElfError::Data => out.push_str("not little-endian"),
        ElfError::Version => out.push_str("unknown ELF version"),
        ElfError::Kind => out.push_str("not a core file"),
        ElfError::Machine => out.push_str("not an x86-64 core"),
        ElfError::EntrySize => out.push_str("program header size is not 56"),
        ElfError::Extended => out.push_str("section header 0 is missing or cut off"),
        ElfError::TableCut => out.push_str("program headers are cut off"),
        ElfError::Truncated(header) => push_header(out, header, "contents are cut off"),
        ElfError::SizeOrder(header) => {
            push_header(out, header, "file size is larger than memory size")
        }
        ElfError::Wrap(header) => push_header(out, header, "addresses wrap"),
        ElfError::Overlap(header) => push_header(out, header, "overlaps an earlier segment"),
        ElfError::NoMemory => out.push_str("out of memory"),
    }
}

/// Appends the number of a program header, and what is wrong with it.
fn push_header(out: &mut String, header: usize, text: &str) -> Result<(), AllocError>
    ensures { OnOk result (string_bytes out.new ≡ string_bytes out.old ++ header_text header text.now) }
{
    write!(out, "header {header}: {text}")
}

/// Appends the text of what refuses the notes of a core.
pub fn push_notes(out: &mut String, error: NoteError) -> Result<(), AllocError>
    ensures { OnOk result (string_bytes out.new ≡ string_bytes out.old ++ notes_text error) }
{
    match error {
        NoteError::Cut(at) => write!(out, "note at {at} is cut off"),
        NoteError::StatusSize(at) => write!(out, "thread status at {at} has a wrong size"),
        NoteError::VectorSize(at) => write!(out, "vector registers at {at} have a wrong size"),
        NoteError::NoThread => out.push_str("no thread status"),
        NoteError::NoMemory => out.push_str("out of memory"),
    }
}

/// Appends the text of what refuses a log.
pub fn push_log(out: &mut String, error: LogError) -> Result<(), AllocError>
    ensures { OnOk result (string_bytes out.new ≡ string_bytes out.old ++ log_text error) }
{
    match error {
        LogError::BadLine(line) => write!(out, "line {line} is not an mtrace line"),
        LogError::Extent(line) => write!(out, "line {line}: block ends past the address space"),
        LogError::NoMemory => out.push_str("out of memory"),
    }
}
