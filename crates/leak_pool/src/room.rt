//! How many edges are listed.
ghost use Rattle.std.specs.Prelude.{◌≡◌, ◌/◌};
ghost use Rattle.leak_pool.specs.Room.{room_of};

use std::marker::Model;

/// Edges take an eighth of the core at most, at four bytes a target.
const EDGE_SHARE: u64 = 32;

/// Room for edges: how many targets of blocks are listed at most. It is made of the bytes of a core alone, so a search
/// can't ask for more than its core gives.
#[derive(Clone, Copy, Debug)]
pub struct EdgeRoom {
    targets: usize,
}

impl Model for EdgeRoom {
    ghost use Rattle.std.specs.Prelude.{ℕ};

    ghost Value = { ℕ };

    ghost view = { λ room. room.targets };

    ghost inverse = { λ n. record { targets = n } };
}

impl EdgeRoom {
    /// The room that a core gives.
    pub fn of_core(core: &[u8]) -> EdgeRoom
        ensures { result ≡ room_of core.now }
    {
        EdgeRoom::of_size(core.len() as u64)
    }

    /// The room that a core of so many bytes gives.
    pub fn of_size(bytes: u64) -> EdgeRoom
        ensures { result ≡ bytes / 32 }
    {
        EdgeRoom {
            targets: (bytes / EDGE_SHARE) as usize,
        }
    }

    /// How many targets it is for.
    pub(crate) fn targets(self) -> usize
        ensures { result ≡ self }
    {
        self.targets
    }
}
