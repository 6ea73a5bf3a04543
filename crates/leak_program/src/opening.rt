//! The opening of some paths.

ghost use Rattle.std.specs.Prelude.{◌≡◌, IfOk, IfErr, length, map, string_bytes};
ghost use Rattle.leak_program.specs.Opening.{AreOpened, AreSizes, IsOpenFault, IsSizeAt};

use crate::open_fault::{OpenFault, reason_of};
use crate::opener::Opener;
use std::alloc::Global;

/// Opens each of the paths once, in order, up to the first that is refused.
pub fn open_all<O: Opener>(
    alloc: Global,
    opener: &mut O,
    paths: &[String],
) -> Result<Vec<O::File>, OpenFault>
    ensures ok { IfOk result (λ files. AreOpened O.opens (map string_bytes paths.now) opener.old files.items opener.new) }
    ensures count { IfOk result (λ files. length files.items ≡ length paths.now) }
    ensures refused { IfErr result (IsOpenFault O.opens (map string_bytes paths.now) opener.old opener.new) }
{
    let mut files = Vec::with_capacity(alloc, paths.len())?;
    for path in paths {
        match opener.open_file(path) {
            Ok(file) => files.push(file)?,
            Err(error) => {
                let path = path.as_str().to_string(alloc)?;
                return Err(OpenFault::Refused(path, reason_of(error.kind())));
            }
        }
    }
    Ok(files)
}

/// The size that the file with the number, from 0, is said to have, and 0 if there is none.
fn size_at<O: Opener>(files: &[O::File], number: usize) -> u64
    ensures { IsSizeAt O.tells_size files.now number result }
{
    match files.get(number) {
        Some(file) => O::size_of(file),
        None => 0,
    }
}

/// The sizes that the first four files are said to have, in order, and 0 for each that is missing. A request has no more.
pub fn sizes_of<O: Opener>(files: &[O::File]) -> [u64; 4]
    ensures { AreSizes O.tells_size files.now result }
{
    [
        size_at::<O>(files, 0),
        size_at::<O>(files, 1),
        size_at::<O>(files, 2),
        size_at::<O>(files, 3),
    ]
}
