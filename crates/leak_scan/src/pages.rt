//! Lists of pages.
ghost use Rattle.std.specs.Prelude.{◌≡◌, ◌↔◌, ◌≤◌, ◌<◌, List, ℕ, IfSome, IsSome};
ghost use Rattle.std.specs.List.Sorted.{IsStrictlyIncreasing};
ghost use Rattle.leak_scan.specs.Targets.{is_listed};
ghost use Rattle.leak_scan.specs.Windows.{IsWindow, IsCountBelow};

use std::marker::Model;

/// Numbers of pages, ascending. The page with the number `n` is the 4096 addresses from `4096 * n` on.
#[derive(Drop)]
pub struct Pages {
    numbers: Vec<u64>,
}

impl Model for Pages {
    ghost Value = { List ℕ };

    ghost view = { λ pages. pages.numbers.items };

    ghost invariant = { λ pages. IsStrictlyIncreasing pages.numbers.items };
}

impl Pages {
    /// The pages with the numbers, if they ascend and none occurs twice.
    pub fn new(numbers: Vec<u64>) -> Option<Pages>
        ensures value { IfSome result (λ pages. pages ≡ numbers.items) }
        ensures some { IsSome result ↔ IsStrictlyIncreasing numbers.items }
    {
        if numbers.windows(2).all(|pair| pair[0] < pair[1]) {
            return Some(Pages { numbers });
        }
        None
    }

    /// The numbers, ascending. It is for libraries and tests.
    pub fn numbers(&self) -> &[u64]
        ensures { result.now ≡ self.now }
    {
        self.numbers.as_slice()
    }

    /// Whether the page with the number is listed. It is for libraries and tests.
    pub fn has(&self, page: u64) -> bool
        ensures { result ≡ is_listed self.now page }
    {
        let at = count_below(self.numbers.as_slice(), page);
        at < self.numbers.len() && self.numbers[at] == page
    }

    /// The least address from `from` on that is on a listed page, and how many addresses from there on are on that
    /// page. The last address of all stands for a page after it.
    pub fn window(&self, from: u64) -> Option<(u64, u64)>
        ensures { IsWindow self.now from result }
    {
        let at = count_below(self.numbers.as_slice(), from / 4096);
        if at == self.numbers.len() {
            return None;
        }
        let start = from.max(self.numbers[at].saturating_mul(4096));
        Some((start, 4096 - start % 4096))
    }
}

/// How many of the numbers are below the page.
fn count_below(numbers: &[u64], page: u64) -> usize
    requires { IsStrictlyIncreasing numbers.now }
    ensures { IsCountBelow numbers.now page result }
{
    numbers.partition_point(|number| *number < page)
}
