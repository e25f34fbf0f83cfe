//! The token of one who takes part in a move.
use crate::book::Book;
use atomic_table::Seat;
use counted_slot::Fits;
use std::marker::Model;
use std::snapshot::Snapshot;

/// The right to claim ranges of one move. A move has 64 of them, and none can be copied.
#[derive(Drop)]
pub struct Mover {
    pub(crate) got_none: bool,
    pub(crate) seat: Seat<(), Book>,
}

impl Model for Mover {
    ghost use Rattle.std.specs.Prelude.{◌≡◌, []};
    ghost use Rattle.transfer.specs.Views.{MoverView, mover_of};

    ghost Value = { MoverView };

    ghost view = { λ m. mover_of m.seat.table_id m.seat.me.0 };

    ghost invariant = { λ m. (m.got_none ≡ m.seat.me.0.got_none) × (m.seat.me.0.spare ≡ []) };
}

/// A spare mover in its place is as it was when it was put there.
impl Fits for Mover {
    ghost use Rattle.std.specs.Prelude.{◌≡◌};

    type Tag = Snapshot<Mover>;

    ghost fits = { λ tag m. m ≡ tag.value };
}
