//! Moments.
use crate::books::View;
use atomic_table::Badge;
use std::marker::Model;

/// A front of the one order of all calls that was seen. It has no bytes, and can go to another
/// thread: a pass that has learned it makes its calls behind that front.
#[derive(Drop)]
pub struct Moment<K, V, F> {
    pub(crate) badge: Badge<View<K, V, F>>,
}

impl<K, V, F> Model for Moment<K, V, F> {
    ghost use Rattle.count_ledger.specs.Views.{MomentView};
    ghost use Rattle.count_ledger.specs.Tokens.{IsMoment, seen_of_moment};

    ghost Value = { MomentView K V F };

    ghost view = { λ m. record {
      ledger = m.badge.table_id;
      seen = seen_of_moment m.badge.views;
    } };

    ghost invariant = { λ m. IsMoment m.badge.views };
}
