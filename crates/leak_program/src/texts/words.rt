//! The texts of what refuses a command line.

ghost use Rattle.std.specs.Prelude.{◌≡◌, ◌++◌, OnOk, string_bytes};
ghost use Rattle.leak_program.specs.WordTexts.{address_text, displace_text, reading_text, usage_text};

use leak_index::ReadingError;
use leak_request::{AddressArgument, DisplaceFault, UsageFault};
use std::alloc::AllocError;

/// Appends the text of what refuses the words. Clap's is its own.
pub fn push_usage(out: &mut String, fault: &UsageFault) -> Result<(), AllocError>
    ensures { OnOk result (string_bytes out.new ≡ string_bytes out.old ++ usage_text fault.now) }
{
    match fault {
        UsageFault::Words(text) => out.push_str(text.as_str()),
        UsageFault::Displace(fault) => push_displace(out, *fault),
        UsageFault::Check => out.push_str("--check: not with --other-heap"),
        UsageFault::Sides => out.push_str("--in: not with --of"),
        UsageFault::Block => out.push_str("--block: only with --in or --of"),
        UsageFault::Address(argument) => push_address(out, *argument),
        UsageFault::NoMemory => out.push_str("out of memory"),
    }
}

/// Appends the text of what refuses a list of displacements.
pub fn push_displace(out: &mut String, fault: DisplaceFault) -> Result<(), AllocError>
    ensures { OnOk result (string_bytes out.new ≡ string_bytes out.old ++ displace_text fault) }
{
    match fault {
        DisplaceFault::Number(item) => write!(out, "--displace: item {item} is not a number"),
        DisplaceFault::Reading(error) => {
            out.push_str("--displace: ")?;
            push_reading(out, error)
        }
    }
}

/// Appends the text of an address that is none.
fn push_address(out: &mut String, argument: AddressArgument) -> Result<(), AllocError>
    ensures { OnOk result (string_bytes out.new ≡ string_bytes out.old ++ address_text argument) }
{
    match argument {
        AddressArgument::Operand => out.push_str("ADDRESS")?,
        AddressArgument::In => out.push_str("--in")?,
        AddressArgument::Of => out.push_str("--of")?,
    }
    out.push_str(": not 0x and 1 to 16 hexadecimal digits")
}

/// Appends the text of why displacements are no reading.
fn push_reading(out: &mut String, error: ReadingError) -> Result<(), AllocError>
    ensures { OnOk result (string_bytes out.new ≡ string_bytes out.old ++ reading_text error) }
{
    match error {
        ReadingError::TooMany => out.push_str("more than 16 values"),
        ReadingError::TooLarge(item) => write!(out, "item {item} is over 65535"),
    }
}
