//! The text of a file that can't be opened.

ghost use Rattle.std.specs.Prelude.{◌≡◌, ◌++◌, OnOk, string_bytes};
ghost use Rattle.leak_program.specs.InputTexts.{reason_text};

use crate::open_fault::Reason;
use std::alloc::AllocError;

/// Appends what follows the path of a file that can't be opened: the reason, if it has a name.
pub fn push_reason(out: &mut String, reason: Reason) -> Result<(), AllocError>
    ensures { OnOk result (string_bytes out.new ≡ string_bytes out.old ++ reason_text reason) }
{
    match reason {
        Reason::Missing => out.push_str(": no such file"),
        Reason::Denied => out.push_str(": permission denied"),
        Reason::Folder => out.push_str(": is a folder"),
        Reason::NotFolder => out.push_str(": a part of the path is not a folder"),
        Reason::Name => out.push_str(": the name is too long"),
        Reason::Links => out.push_str(": too many symbolic links"),
        Reason::Other => Ok(()),
    }
}
