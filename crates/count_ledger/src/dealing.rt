//! How a ledger is made: all books begin in one seat, and each pass and role gets its own.
ghost use Rattle.std.specs.Prelude.{◌≡◌, ◌+◌, ◌*◌, ◌<◌, ◌≤◌, [], ◌∷◌, ◌++◌, length, map, flat_map};
ghost use Rattle.std.specs.Prelude.{IfOk, vec_capacity};
ghost use Rattle.std.specs.List.{range_with_len};
ghost use Rattle.hashkeys.specs.Classes.{IsTableSize};
ghost use Rattle.count_ledger.specs.Limits.{all_words, most_clients};
ghost use Rattle.count_ledger.specs.Opening.{AreOfTheirClasses, lists_of, new_passes, new_roles};
ghost use Rattle.count_ledger.specs.Rule.{first_books, new_pass_book, new_role_book};
ghost use Rattle.count_ledger.specs.Steps.{first_of, rest_of, only_view};

use crate::books::{Books, LedgerRule, Terms, View};
use crate::ledger::{Ledger, WORDS};
use crate::roster::Roster;
use crate::seats::part;
use crate::tokens::{BinRole, Pass};
use atomic_table::{Badge, Seat, Table};
use bin_history::{Form, Remap};
use hashkeys::{Class, HashKey, Salt};
use std::alloc::{AllocError, Allocator};
use std::mem;
use std::snapshot::Snapshot;

type LedgerTable<K, V, F, A> = Table<(), View<K, V, F>, Terms<K, V, A>, LedgerRule, A>;

/// A table whose words are 0, with all books in one seat.
fn open_table<K: HashKey, V: Eq, F: Remap<K, V>, A: Allocator>(
    alloc: A,
    terms: &Terms<K, V, A>,
) -> Result<(LedgerTable<K, V, F, A>, Seat<(), View<K, V, F>>), AllocError>
    requires size { IsTableSize (length terms.now.bases) }
    requires keys { AreOfTheirClasses K.code terms.now.salt terms.now.bases }
    ensures words { IfOk result (λ r. r.0.shared.table_id.words ≡ all_words) }
    ensures terms { IfOk result (λ r. r.0.shared.key ≡ terms.now) }
    ensures table { IfOk result (λ r. r.1.table_id ≡ r.0.shared.table_id) }
    ensures books { IfOk result (λ r. r.1.me ≡ (first_books terms.now, [])) }
{
    let words = [0; WORDS];
    Table::of_words(alloc, &words, terms)
}

/// Takes the first book out of the badge, and returns it in a seat. The others stay.
pub(crate) fn take_first<K: HashKey, V: Eq, F: Remap<K, V>, A: Allocator>(
    shared: &Books<K, V, F, A>,
    all: &mut Badge<View<K, V, F>>,
) -> Seat<(), View<K, V, F>>
    requires table { all.old.table_id ≡ shared.now.table_id }
    requires words { 0 < shared.now.table_id.words }
    requires view { all.old.views ≡ only_view all.old.views ∷ [] }
    ensures seat { result.table_id ≡ all.old.table_id }
    ensures first { result.me ≡ (first_of (only_view all.old.views), []) }
    ensures all { all.new.table_id ≡ all.old.table_id }
    ensures others { all.new.views ≡ rest_of (only_view all.old.views) ∷ [] }
{
    let mut seat = mem::replace(all, Badge::blank()).into_seat();
    part(shared, &mut seat, all);
    seat
}

fn deal_roles<K: HashKey, V: Eq, F: Remap<K, V>, A: Allocator>(
    shared: &Books<K, V, F, A>,
    all: &mut Badge<View<K, V, F>>,
    roles: &mut Vec<BinRole<K, V, F>, A>,
    n: u32,
)
    requires table { all.old.table_id ≡ shared.now.table_id }
    requires words { 0 < shared.now.table_id.words }
    requires size { IsTableSize n }
    requires bases { n ≡ length shared.now.key.bases }
    requires empty { roles.old.items ≡ [] }
    requires room { n ≤ vec_capacity roles.old }
    requires view { all.old.views ≡ (map (new_role_book shared.now.key) (range_with_len 0 n)
        ++ map new_pass_book (range_with_len 0 shared.now.key.clients)) ∷ [] }
    ensures roles { roles.new.items ≡ new_roles all.old.table_id shared.now.key.salt
        shared.now.key.bases }
    ensures all { all.new.table_id ≡ all.old.table_id }
    ensures others { all.new.views ≡ map new_pass_book (range_with_len 0 shared.now.key.clients)
        ∷ [] }
{
    for index in 0..n {
        let seat = take_first(shared, all);
        roles.push_reserved(BinRole {
            class: Class::new(n, index),
            badge: seat.into_badge(),
        });
    }
}

impl<K: HashKey, V: Eq, F: Remap<K, V>, A: Allocator + Clone> Ledger<K, V, F, A> {
    /// Makes a ledger of bins of the form over the pairs of the bases, with a roster of the passes of
    /// so many clients, and a role for each class of as many as there are bases. The roster has no
    /// memory, however many clients there are.
    ///
    /// # Errors
    ///
    /// Out of memory.
    pub fn with_roster(
        alloc: A,
        form: Form,
        salt: Salt,
        clients: u32,
        bases: &Vec<Vec<(K, V), A>, A>,
    ) -> Result<
        (
            Ledger<K, V, F, A>,
            Roster<K, V, F>,
            Vec<BinRole<K, V, F>, A>,
        ),
        AllocError,
    >
        requires some { 0 < clients }
        requires at_most { clients ≤ most_clients form }
        requires size { IsTableSize (length bases.now.items) }
        requires keys { AreOfTheirClasses K.code salt (lists_of bases.now) }
        ensures form { IfOk result (λ r. r.0.form ≡ form) }
        ensures salt { IfOk result (λ r. r.0.salt ≡ salt) }
        ensures clients { IfOk result (λ r. r.0.clients ≡ clients) }
        ensures opening { IfOk result
            (λ r. r.0.opening ≡ flat_map (λ base. base) (lists_of bases.now)) }
        ensures roster { IfOk result
            (λ r. r.1 ≡ record { ledger = r.0.id; next = 0; clients = clients }) }
        ensures roles { IfOk result (λ r. r.2.items ≡ new_roles r.0.id salt (lists_of bases.now)) }
    {
        let n = bases.len() as u32;
        let most = form.most_calls(clients);
        let terms = Terms {
            form,
            salt,
            clients,
            bases: Snapshot::of(bases),
        };
        let (table, seat) = open_table(alloc.clone()?, &terms)?;
        let mut roles = Vec::with_capacity(alloc, n as usize)?;
        let mut all = seat.into_badge();
        deal_roles(&table.shared, &mut all, &mut roles, n);
        let ledger = Ledger {
            table,
            form,
            clients,
            most,
        };
        let roster = Roster {
            next: 0,
            clients,
            all,
        };
        Ok((ledger, roster, roles))
    }

    /// Makes a ledger as `with_roster` does, and takes all passes: those of client 0, 1 and so on, in
    /// this order.
    ///
    /// # Errors
    ///
    /// Out of memory.
    pub fn new(
        alloc: A,
        form: Form,
        salt: Salt,
        clients: u32,
        bases: &Vec<Vec<(K, V), A>, A>,
    ) -> Result<
        (
            Ledger<K, V, F, A>,
            Vec<Pass<K, V, F>, A>,
            Vec<BinRole<K, V, F>, A>,
        ),
        AllocError,
    >
        requires some { 0 < clients }
        requires at_most { clients ≤ most_clients form }
        requires size { IsTableSize (length bases.now.items) }
        requires keys { AreOfTheirClasses K.code salt (lists_of bases.now) }
        ensures form { IfOk result (λ r. r.0.form ≡ form) }
        ensures salt { IfOk result (λ r. r.0.salt ≡ salt) }
        ensures clients { IfOk result (λ r. r.0.clients ≡ clients) }
        ensures opening { IfOk result
            (λ r. r.0.opening ≡ flat_map (λ base. base) (lists_of bases.now)) }
        ensures passes { IfOk result (λ r. r.1.items ≡ new_passes r.0.id clients) }
        ensures roles { IfOk result (λ r. r.2.items ≡ new_roles r.0.id salt (lists_of bases.now)) }
    {
        let for_passes = alloc.clone()?;
        let (ledger, mut roster, roles) = Ledger::with_roster(alloc, form, salt, clients, bases)?;
        let mut passes = Vec::with_capacity(for_passes, clients as usize)?;
        ledger.join_all(&mut roster, &mut passes);
        Ok((ledger, passes, roles))
    }
}
