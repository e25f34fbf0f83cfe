//! What a worker takes up.
ghost use Rattle.std.specs.Prelude.{◌≡◌, ◌^◌, ◌<◌, ◌≤◌, ℕ};

use completers::{Supply, Ticket};
use std::marker::{Brand, PhantomData};

/// Which tree the tasks of a run are of, and where its range ends. A call at `Brand` picks it.
pub trait Work {
    ghost use Rattle.std.specs.Prelude.{ℕ};
    ghost use Rattle.atomic_table.specs.Seated.{TableId};

    ghost tree: { TableId };

    ghost bins: { ℕ };
}

impl Work for Brand {
    ghost use Rattle.std.specs.Prelude.{[]};

    ghost tree = { record {
      words = 0;
      slots = 0;
      views_name = 0;
      atom = 0;
      block = 0;
      offset =
          0;
      slot_names = [];
    } };

    ghost bins = { 0 };
}

/// A ticket, whose range somebody is to work on, with the nodes and the batch for it.
#[derive(Drop)]
pub struct Task<P: Drop, W: Work> {
    pub(crate) ticket: Ticket<P>,
    pub(crate) supply: Supply<P>,
    pub(crate) batch: usize,
    pub(crate) work: PhantomData<W>,
    ghost tree: { (ticket.tree ≡ W.tree) × (supply.tree ≡ W.tree) },
    ghost range: { ticket.hi ≤ W.bins },
    ghost room: { (batch < 2 ^ supply.level) × (supply.level ≤ 7) },
}
