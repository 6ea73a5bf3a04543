//! What the rounds of a search share, and what the workers of a round share.
ghost use Rattle.leak_pool.specs.Items.{items_in};
ghost use Rattle.leak_pool.specs.SearchModel.{SearchModel, IsSearch, Work, IsRound};

use crate::gate::Gate;
use crate::items::Items;
use crate::target_source::TargetSource;
use leak_marks::Marks;
use std::marker::Model;

/// What is searched from which blocks on, and by how many workers.
#[derive(Drop)]
pub(crate) struct Search<'a, S: TargetSource> {
    pub(crate) source: &'a S,
    pub(crate) marks: &'a Marks,
    /// The blocks that are marked before the search.
    pub(crate) given: &'a [u32],
    pub(crate) workers: u32,
    /// How many blocks a worker's stack holds at most.
    pub(crate) stack: u32,
}

impl<'a, S: TargetSource> Model for Search<'a, S> {
    ghost Value = { SearchModel };

    ghost view = { λ s. record {
      table = s.marks.now.table;
      roots = S.roots s.source.now;
      targets = S.targets s.source.now;
      given = s.given.now;
      workers = s.workers;
      stack = s.stack;
    } };

    ghost invariant = { λ s.
        IsSearch s.marks.now.blocks (S.targets s.source.now) s.given.now s.workers };
}

/// The items of a round, and how many items each worker has scanned before it.
#[derive(Drop)]
pub(crate) struct Round<'a, 'b, S: TargetSource> {
    pub(crate) search: &'a Search<'b, S>,
    pub(crate) items: Items<'a>,
    pub(crate) steps: &'a [u64],
}

impl<'a, 'b, S: TargetSource> Model for Round<'a, 'b, S> {
    ghost Value = { Work };

    ghost view = { λ r. record {
      model = r.search.now;
      items = items_in r.items;
      steps = r.steps.now;
    } };

    ghost invariant = { λ r. IsRound r.search.now (items_in r.items) r.steps.now };
}

/// A round, and the gate that its workers pass.
#[derive(Drop)]
pub(crate) struct Gated<'a, 'b, 'c, S: TargetSource, G: Gate> {
    pub(crate) round: Round<'a, 'b, S>,
    pub(crate) gate: &'c G,
}
