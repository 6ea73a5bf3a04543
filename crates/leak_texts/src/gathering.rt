//! Some of a list's numbers.
ghost use Rattle.std.specs.Prelude.{◌≡◌, ◌<◌, length, map, slice_index_or, All, IfOk};

use std::alloc::{AllocError, Global};

/// For each of the chosen places the number there.
pub fn gather(alloc: Global, numbers: &[u32], chosen: &[usize]) -> Result<Vec<u32>, AllocError>
    requires { All (λ k. k < length numbers.now) chosen.now }
    ensures { IfOk result (λ v. v.items ≡ map (λ k. slice_index_or numbers.now k 0) chosen.now) }
{
    let mut gathered = Vec::with_capacity(alloc, chosen.len())?;
    for k in chosen {
        gathered.push(numbers[*k])?;
    }
    Ok(gathered)
}

#[cfg(test)]
mod tests {
    use super::gather;
    use std::test::*;

    #[test]
    fn each_choice_gives_its_number(rt: HostRuntime) -> Result<(), Fail> {
        let gathered = gather(rt.alloc(), &[5, 6, 7], &[2, 0, 2])?;
        assert_eq!(rt; gathered.as_slice(), [7, 5, 7].as_slice());
        Ok(())
    }
}
