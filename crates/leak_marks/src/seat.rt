//! A thread's permission to claim marks.
use crate::view::View;
use atomic_table::Seat;
use std::marker::Model;

/// A seat of a table of marks. Contracts see the blocks that it claimed, in order, those that it has seen
/// marked, and its share of the whole, 2^32, which the first seat has.
///
/// It takes no memory. One that is dropped keeps its claims and its share.
#[derive(Drop)]
pub struct MarkSeat {
    pub(crate) seat: Seat<(), View>,
    pub(crate) share: u64,
}

impl Model for MarkSeat {
    ghost use Rattle.leak_marks.specs.Marks.{IsSeated};
    ghost use Rattle.leak_marks.specs.Seats.{Held, held};

    ghost Value = { Held };

    ghost view = { λ s.
        held s.seat.table_id s.seat.me.0.claims s.seat.me.0.seen s.seat.me.0.share };

    ghost invariant = { λ s. IsSeated s.share s.seat.me };
}
