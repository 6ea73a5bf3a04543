//! An input whose words are needed no more.

use leak_pool::Listing;
use leak_report::Head;

/// What a search of one core needs of an input, once it is listed what the words of its core lead to.
#[derive(Drop)]
pub struct ListedInput {
    /// The numbers of the report's first lines.
    pub head: Head,
    /// What each live block leads to, and the blocks that root words lead to.
    pub listing: Listing,
}
