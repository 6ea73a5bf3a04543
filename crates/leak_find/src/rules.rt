//! The rules of a search, by the options of a run.

ghost use Rattle.std.specs.Prelude.{◌≡◌};
ghost use Rattle.leak_find.specs.Rules.{rules_in};

use leak_request::Options;
use leak_search::Rules;

/// The rules of the search that the options ask for.
pub(crate) fn rules_of(options: &Options) -> Rules
    ensures { result ≡ rules_in options.now }
{
    Rules {
        reading: options.reading,
        skip: options.skip,
        other_heap: options.other_heap,
    }
}
