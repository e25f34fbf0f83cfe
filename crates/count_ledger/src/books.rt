//! What the seats of a ledger's table know, and the rule over all of it.
use atomic_table::{Shared, TableRule};
use bin_history::{Form, Record, Remap};
use hashkeys::{Class, HashKey, Salt};
use std::alloc::Allocator;
use std::collections::LinkedList;
use std::marker::Model;
use std::snapshot::Snapshot;

/// What one token knows. No value of it is made.
pub(crate) enum Book<K, V, F> {
    Pass {
        client: u32,
        made: LinkedList<Record<K, V, F>>,
        seen: LinkedList<Record<K, V, F>>,
    },
    Role {
        salt: Salt,
        class: Class,
        opening: LinkedList<(K, V)>,
        kept: LinkedList<Record<K, V, F>>,
    },
    Moment {
        seen: LinkedList<Record<K, V, F>>,
    },
}

/// What a seat knows: one book, or those that were joined.
pub(crate) type View<K, V, F> = LinkedList<Book<K, V, F>>;

/// What a ledger is told once, when it is made. Contracts see it as a `TermsView`.
#[derive(Drop)]
pub(crate) struct Terms<K, V, A: Allocator> {
    pub(crate) form: Form,
    pub(crate) salt: Salt,
    pub(crate) clients: u32,
    pub(crate) bases: Snapshot<Vec<Vec<(K, V), A>, A>>,
}

impl<K, V, A: Allocator> Model for Terms<K, V, A> {
    ghost use Rattle.count_ledger.specs.Opening.{lists_of};
    ghost use Rattle.count_ledger.specs.Terms.{TermsView};

    ghost Value = { TermsView K V };

    ghost view = { λ t. record {
      form = t.form;
      salt = t.salt;
      clients = t.clients;
      bases =
          lists_of t.bases.value;
    } };
}

/// All calls stand in one list, in the order of their posts, and are legal for a map of one thread;
/// each pass made those by its client, each role kept those on keys of its class, each pass and
/// moment has seen a front; and each lane's word is the sum of the deltas of its clients' calls.
pub(crate) struct LedgerRule;

impl<K: HashKey, V: Eq, F: Remap<K, V>, A: Allocator> TableRule<(), View<K, V, F>, Terms<K, V, A>>
    for LedgerRule {
    ghost use Rattle.bin_history.specs.Calls.{after};
    ghost use Rattle.count_ledger.specs.Rule.{Holds, first_books};

    ghost holds = { Holds K.code K.eq (after V.eq F.remapped F.merged) };

    ghost first = { first_books };
}

/// The table, as its users share it. Word 0 is only read; client c counts in lane c % 32, which has
/// word 8(lane + 1).
pub(crate) type Books<K, V, F, A> = Shared<(), View<K, V, F>, Terms<K, V, A>, LedgerRule>;
