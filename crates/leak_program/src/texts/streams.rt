//! The texts of readers and writers that fail.

ghost use Rattle.std.specs.Prelude.{◌≡◌, ◌++◌, OnOk, string_bytes};
ghost use Rattle.leak_program.specs.InputTexts.{read_text, write_text};

use leak_streams::{ReadFault, WriteFault};
use std::alloc::AllocError;

/// Appends the text of what stopped a reading.
pub fn push_read(out: &mut String, fault: ReadFault) -> Result<(), AllocError>
    ensures { OnOk result (string_bytes out.new ≡ string_bytes out.old ++ read_text fault) }
{
    match fault {
        ReadFault::TooLong => out.push_str("too long"),
        ReadFault::Device => out.push_str("read failed"),
        ReadFault::TooManyTurns => out.push_str("too many interrupted reads"),
        ReadFault::NoMemory => out.push_str("out of memory"),
    }
}

/// Appends the text of what stopped a writing.
pub fn push_write(out: &mut String, fault: WriteFault) -> Result<(), AllocError>
    ensures { OnOk result (string_bytes out.new ≡ string_bytes out.old ++ write_text fault) }
{
    let written = fault.written;
    write!(out, "write failed after {written} bytes")
}
