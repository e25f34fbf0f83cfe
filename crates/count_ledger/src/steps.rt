//! What the steps of a ledger do to a seat's books.
use crate::books::{Book, View};
use atomic_table::{Join, Play, Split};
use bin_history::Remap;
use hashkeys::HashKey;
use std::marker::{Brand, PhantomData};

/// What a step is told in contracts alone, since a `Play` reads neither the terms of the table nor
/// the record of a call: the terms, and how the seat's books change by the calls so far. A call at
/// `Brand` picks them.
pub(crate) trait StepTerms<K, V, F> {
    ghost use Rattle.std.specs.Prelude.{Option, List};
    ghost use Rattle.bin_history.specs.Records.{RecordView};
    ghost use Rattle.count_ledger.specs.declared.books.Book.{Book};
    ghost use Rattle.count_ledger.specs.Terms.{TermsView};

    ghost terms: { Option (TermsView K V) };

    ghost change: { List (RecordView K V F) → List (Book K V F) → List (Book K V F) };
}

impl<K, V, F> StepTerms<K, V, F> for Brand {
    ghost use Rattle.std.specs.Prelude.{None};

    ghost terms = { None };

    ghost change = { λ calls books. books };
}

/// The seat's books change, and the step tells what the rule said of them before.
pub(crate) struct Tells<T> {
    marker: PhantomData<T>,
}

impl<K: HashKey, V: Eq, F: Remap<K, V>, T: StepTerms<K, V, F>> Play<(), View<K, V, F>>
    for Tells<T> {
    ghost use Rattle.bin_history.specs.Calls.{after};
    ghost use Rattle.count_ledger.specs.Steps.{Tells};

    ghost then = { Tells K.code K.eq (after V.eq F.remapped F.merged) T.terms T.change };
}

/// One seat has the books of both, and the other none.
pub(crate) struct Together;

impl<K, V, F> Join<View<K, V, F>> for Together {
    ghost use Rattle.std.specs.Prelude.{◌++◌, []};

    ghost both = { λ v w. v ++ w };

    ghost spent = { [] };
}

/// The first book stays, and the others go.
pub(crate) struct KeepFirst;

impl<K, V, F> Split<View<K, V, F>> for KeepFirst {
    ghost use Rattle.count_ledger.specs.Steps.{first_of, rest_of};

    ghost left = { first_of };

    ghost right = { rest_of };
}

/// The seat keeps its books, and the other gets what the first of them has seen.
pub(crate) struct KeepSeen;

impl<K, V, F> Split<View<K, V, F>> for KeepSeen {
    ghost use Rattle.count_ledger.specs.Steps.{seen_by};

    ghost left = { λ books. books };

    ghost right = { seen_by };
}
