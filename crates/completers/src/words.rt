//! The steps whose telling depends on numbers that only their caller knows.
ghost use Rattle.std.specs.Prelude.{◌≡◌, ℕ, ◌+◌, ◌-◌, ◌*◌, ◌%◌, ◌^◌, ◌<◌, ◌≤◌};
ghost use Rattle.atomic_table.specs.Table.{Allows};
ghost use Rattle.completers.specs.Limits.{most_words};
ghost use Rattle.completers.specs.Rule.{Holds};
ghost use Rattle.completers.specs.Steps.{Opens, Forks, Arrives};

use crate::relation::Relation;
use crate::rule::{TokenSeat, Words};
use crate::steps::{ArriveStep, Cut, ForkStep, OfTree, OpenStep};

/// Writes the code of the ticket above a node that is opened.
pub(crate) fn write_code<B: Relation, W: OfTree<B::Part>>(
    words: &Words<B>,
    seat: &mut TokenSeat<B::Part>,
    node: usize,
    code: u64,
)
    requires table { seat.old.table_id ≡ words.now.table_id }
    requires word { 2 * node + 1 < words.now.table_id.words }
    requires few { words.now.table_id.words ≤ most_words }
    requires rule { Allows (Holds (B.relates words.now.key.relation.value) words.now.key.bins)
        words.now.table_id.slots seat.old.id seat.old.me (2 * node + 1)
        (λ _. code) (λ _. Opens W.bins seat.old.me) }
    ensures table { seat.new.table_id ≡ seat.old.table_id }
    ensures told { Opens W.bins seat.old.me seat.new.me }
{
    words.store::<OpenStep<W>>(seat, 2 * node + 1, code);
}

/// Adds a ticket for the range from `mid` up to a node's number.
pub(crate) fn count_up<B: Relation, W: Cut>(
    words: &Words<B>,
    seat: &mut TokenSeat<B::Part>,
    node: usize,
    mid: usize,
)
    requires table { seat.old.table_id ≡ words.now.table_id }
    requires word { 2 * node < words.now.table_id.words }
    requires few { words.now.table_id.words ≤ most_words }
    requires rule { Allows (Holds (B.relates words.now.key.relation.value) words.now.key.bins)
        words.now.table_id.slots seat.old.id seat.old.me (2 * node)
        (λ n. (n + 1) % 2 ^ 64) (Forks W.mid seat.old.me) }
    ensures table { seat.new.table_id ≡ seat.old.table_id }
    ensures told { (found : ℕ) × Forks W.mid seat.old.me found seat.new.me }
{
    words.fetch_add::<ForkStep<W>>(seat, 2 * node, 1);
}

/// Takes an arrived ticket from a node's number, and says how many there were before.
pub(crate) fn count_down<B: Relation, W: OfTree<B::Part>>(
    words: &Words<B>,
    seat: &mut TokenSeat<B::Part>,
    node: usize,
) -> u64
    requires table { seat.old.table_id ≡ words.now.table_id }
    requires word { 2 * node < words.now.table_id.words }
    requires few { words.now.table_id.words ≤ most_words }
    requires rule { Allows (Holds (B.relates words.now.key.relation.value) words.now.key.bins)
        words.now.table_id.slots seat.old.id seat.old.me (2 * node)
        (λ n. (n + (2 ^ 64 - 1)) % 2 ^ 64)
        (Arrives W.fits W.bins words.now.table_id.slots seat.old.me) }
    ensures table { seat.new.table_id ≡ seat.old.table_id }
    ensures told { Arrives W.fits W.bins words.now.table_id.slots seat.old.me result seat.new.me }
{
    words.fetch_sub::<ArriveStep<W>>(seat, 2 * node, 1)
}
