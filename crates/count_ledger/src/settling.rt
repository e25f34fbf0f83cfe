//! The end of a ledger: all its books come together.
ghost use Rattle.std.specs.Prelude.{◌≡◌, ◌*◌, ◌++◌, ◌∷◌, ◌<◌, ◌≤◌, ◌⊎◌, [], length, map, All, IfOk};
ghost use Rattle.std.specs.Prelude.{IfErr, IfSome, MatchBool};
ghost use Rattle.hashkeys.specs.Classes.{CoverAll};
ghost use Rattle.count_ledger.specs.Books.{classes_of_roles};
ghost use Rattle.count_ledger.specs.Opening.{left_in};
ghost use Rattle.count_ledger.specs.Rule.{ledger_of};
ghost use Rattle.count_ledger.specs.Settled.{AreReconciled, HasOrderFrom, seen_at};
ghost use Rattle.count_ledger.specs.Steps.{only_view};
ghost use Rattle.count_ledger.specs.Tokens.{moment_books, pass_book, role_book, AreWide};
ghost use Rattle.count_ledger.specs.Words.{word_of, total_made};

use crate::books::{Books, View};
use crate::ledger::Ledger;
use crate::moment::Moment;
use crate::roster::Roster;
use crate::seats::{join, look};
use crate::tokens::{BinRole, Pass};
use atomic_table::{Badge, Seat};
use bin_history::Remap;
use hashkeys::{HashKey, MOST_BINS};
use std::alloc::Allocator;
use std::marker::Brand;

/// Whether disjoint classes of these sizes cover every hash: of `MOST_BINS` hashes side by side
/// they have as many together.
fn are_wide<K, V, F>(roles: &[BinRole<K, V, F>]) -> bool
    ensures { MatchBool result (AreWide (classes_of_roles roles.now))
        (CoverAll (classes_of_roles roles.now) → ⊥) }
{
    let mut left = MOST_BINS;
    for role in roles {
        left = left.saturating_sub(MOST_BINS / role.class().n());
    }
    left == 0
}

/// Puts the seat's books before the others.
fn gather<K: HashKey, V: Eq, F: Remap<K, V>, A: Allocator>(
    shared: &Books<K, V, F, A>,
    all: &mut Badge<View<K, V, F>>,
    mut seat: Seat<(), View<K, V, F>>,
)
    requires table { all.old.table_id ≡ shared.now.table_id }
    requires seat { seat.table_id ≡ shared.now.table_id }
    requires words { 0 < shared.now.table_id.words }
    requires view { all.old.views ≡ only_view all.old.views ∷ [] }
    requires slots { seat.me.1 ≡ [] }
    ensures table { all.new.table_id ≡ shared.now.table_id }
    ensures view { all.new.views ≡ (seat.me.0 ++ only_view all.old.views) ∷ [] }
{
    join(shared, &mut seat, all);
    *all = seat.into_badge();
}

fn gather_passes<K: HashKey, V: Eq, F: Remap<K, V>, A: Allocator>(
    shared: &Books<K, V, F, A>,
    all: &mut Badge<View<K, V, F>>,
    mut passes: Vec<Pass<K, V, F>, A>,
)
    requires table { all.old.table_id ≡ shared.now.table_id }
    requires own { All (λ p. p.ledger ≡ shared.now.table_id) passes.items }
    requires words { 0 < shared.now.table_id.words }
    requires view { all.old.views ≡ only_view all.old.views ∷ [] }
    ensures table { all.new.table_id ≡ shared.now.table_id }
    ensures view { all.new.views ≡ (map pass_book passes.items ++ only_view all.old.views) ∷ [] }
{
    while let Some(pass) = passes.pop() {
        gather(shared, all, pass.into_seat());
    }
    passes.destroy_empty();
}

fn gather_roles<K: HashKey, V: Eq, F: Remap<K, V>, A: Allocator>(
    shared: &Books<K, V, F, A>,
    all: &mut Badge<View<K, V, F>>,
    mut roles: Vec<BinRole<K, V, F>, A>,
)
    requires table { all.old.table_id ≡ shared.now.table_id }
    requires own { All (λ r. r.ledger ≡ shared.now.table_id) roles.items }
    requires words { 0 < shared.now.table_id.words }
    requires view { all.old.views ≡ only_view all.old.views ∷ [] }
    ensures table { all.new.table_id ≡ shared.now.table_id }
    ensures view { all.new.views ≡ (map role_book roles.items ++ only_view all.old.views) ∷ [] }
{
    while let Some(role) = roles.pop() {
        gather(shared, all, role.into_seat());
    }
    roles.destroy_empty();
}

/// Puts the book of a moment, if there is one, before the others.
fn gather_moment<K: HashKey, V: Eq, F: Remap<K, V>, A: Allocator>(
    shared: &Books<K, V, F, A>,
    all: &mut Badge<View<K, V, F>>,
    moment: Option<Moment<K, V, F>>,
)
    requires table { all.old.table_id ≡ shared.now.table_id }
    requires own { IfSome moment (λ m. m.ledger ≡ shared.now.table_id) }
    requires words { 0 < shared.now.table_id.words }
    requires view { all.old.views ≡ only_view all.old.views ∷ [] }
    ensures table { all.new.table_id ≡ shared.now.table_id }
    ensures view { all.new.views ≡ (moment_books moment ++ only_view all.old.views) ∷ [] }
{
    if let Some(moment) = moment {
        gather(shared, all, moment.badge.into_seat());
    }
}

/// Puts all books into one seat, and learns there that they agree.
fn gather_all<K: HashKey, V: Eq, F: Remap<K, V>, A: Allocator>(
    shared: &Books<K, V, F, A>,
    mut passes: Vec<Pass<K, V, F>, A>,
    roles: Vec<BinRole<K, V, F>, A>,
)
    requires words { 0 < shared.now.table_id.words }
    requires some { 0 < length passes.items }
    requires enough { shared.now.key.clients ≤ length passes.items }
    requires passes { All (λ p. p.ledger ≡ shared.now.table_id) passes.items }
    requires roles { All (λ r. r.ledger ≡ shared.now.table_id) roles.items }
    requires wide { AreWide (classes_of_roles roles.items) }
    ensures { AreReconciled K.code (ledger_of shared.now.table_id shared.now.key)
        passes.items roles.items }
{
    let Some(last) = passes.pop() else {
        unreachable!()
    };
    let mut all = last.into_seat().into_badge();
    gather_passes(shared, &mut all, passes);
    gather_roles(shared, &mut all, roles);
    let mut seat = all.into_seat();
    look::<K, V, F, A, Brand>(shared, &mut seat, 0);
    drop(seat);
}

/// Whether all passes are there that were taken, and roles for all hashes.
fn are_all<K, V, F>(
    roster: &Roster<K, V, F>,
    passes: &[Pass<K, V, F>],
    roles: &[BinRole<K, V, F>],
) -> bool
    ensures { MatchBool result
        ((roster.now.next ≤ length passes.now) × AreWide (classes_of_roles roles.now))
        ((length passes.now < roster.now.next) ⊎ (CoverAll (classes_of_roles roles.now) → ⊥)) }
{
    if passes.len() < roster.next as usize {
        false
    } else {
        are_wide(roles)
    }
}

/// Puts all books into one seat, those of the passes that nobody took and that of a moment too, and
/// learns there that they agree.
fn gather_with<K: HashKey, V: Eq, F: Remap<K, V>, A: Allocator>(
    shared: &Books<K, V, F, A>,
    roster: Roster<K, V, F>,
    known: Option<Moment<K, V, F>>,
    passes: Vec<Pass<K, V, F>, A>,
    roles: Vec<BinRole<K, V, F>, A>,
)
    requires words { 0 < shared.now.table_id.words }
    requires roster { roster.ledger ≡ shared.now.table_id }
    requires known { IfSome known (λ m. m.ledger ≡ shared.now.table_id) }
    requires enough { shared.now.key.clients ≤ length (passes.items ++ left_in roster) }
    requires passes { All (λ p. p.ledger ≡ shared.now.table_id) passes.items }
    requires roles { All (λ r. r.ledger ≡ shared.now.table_id) roles.items }
    requires wide { AreWide (classes_of_roles roles.items) }
    ensures agree { AreReconciled K.code (ledger_of shared.now.table_id shared.now.key)
        (passes.items ++ left_in roster) roles.items }
    ensures known { HasOrderFrom K.code (ledger_of shared.now.table_id shared.now.key)
        (seen_at known) (passes.items ++ left_in roster) roles.items }
{
    let Roster {
        next: _,
        clients: _,
        all,
    } = roster;
    let mut all = all;
    gather_passes(shared, &mut all, passes);
    gather_roles(shared, &mut all, roles);
    gather_moment(shared, &mut all, known);
    let mut seat = all.into_seat();
    look::<K, V, F, A, Brand>(shared, &mut seat, 0);
    drop(seat);
}

/// The ledger with the passes and roles that it could not be settled with, as they were handed in.
pub struct Unsettled<K: HashKey, V: Eq, F: Remap<K, V>, A: Allocator> {
    pub ledger: Ledger<K, V, F, A>,
    pub passes: Vec<Pass<K, V, F>, A>,
    pub roles: Vec<BinRole<K, V, F>, A>,
}

/// The same with the roster and the moment, if there was one.
pub struct UnsettledWith<K: HashKey, V: Eq, F: Remap<K, V>, A: Allocator> {
    pub rest: Unsettled<K, V, F, A>,
    pub roster: Roster<K, V, F>,
    pub known: Option<Moment<K, V, F>>,
}

impl<K: HashKey, V: Eq, F: Remap<K, V>, A: Allocator> Ledger<K, V, F, A> {
    /// Ends the ledger, and returns the sum of all deltas as a 64-bit two's complement number.
    ///
    /// # Errors
    ///
    /// Returns all that was handed in, where there are fewer passes than clients, or the classes of
    /// the roles leave a hash out.
    pub fn settle(
        self,
        mut passes: Vec<Pass<K, V, F>, A>,
        roles: Vec<BinRole<K, V, F>, A>,
    ) -> Result<u64, Unsettled<K, V, F, A>>
        requires passes { All (λ p. p.ledger ≡ self.id) passes.items }
        requires roles { All (λ r. r.ledger ≡ self.id) roles.items }
        ensures sum { IfOk result (λ n. n ≡ word_of (total_made passes.items)) }
        ensures agree { IfOk result (λ _. AreReconciled K.code self passes.items roles.items) }
        ensures enough { IfOk result (λ _. self.clients ≤ length passes.items) }
        ensures cover { IfOk result (λ _. CoverAll (classes_of_roles roles.items)) }
        ensures refused { IfErr result (λ _. (length passes.items < self.clients)
            ⊎ (CoverAll (classes_of_roles roles.items) → ⊥)) }
        ensures ledger { IfErr result (λ u. u.ledger ≡ self) }
        ensures passes { IfErr result (λ u. u.passes ≡ passes) }
        ensures roles { IfErr result (λ u. u.roles ≡ roles) }
    {
        if !self.has_all(passes.as_slice(), roles.as_slice()) {
            return Err(Unsettled {
                ledger: self,
                passes,
                roles,
            });
        }
        let total = self.add_shares(passes.as_mut_slice());
        let Ledger {
            table,
            form: _,
            clients: _,
            most: _,
        } = self;
        gather_all(&table.shared, passes, roles);
        drop(table);
        Ok(total)
    }

    /// Ends the ledger as `settle` does, where the roster has the passes that nobody took, and tells
    /// that the one order of all calls begins with those that a moment shows.
    ///
    /// # Errors
    ///
    /// Returns all that was handed in, where there are fewer passes than were taken, or the classes
    /// of the roles leave a hash out.
    pub fn settle_with(
        self,
        roster: Roster<K, V, F>,
        known: Option<Moment<K, V, F>>,
        mut passes: Vec<Pass<K, V, F>, A>,
        roles: Vec<BinRole<K, V, F>, A>,
    ) -> Result<u64, UnsettledWith<K, V, F, A>>
        requires roster { roster.ledger ≡ self.id }
        requires clients { roster.clients ≡ self.clients }
        requires known { IfSome known (λ m. m.ledger ≡ self.id) }
        requires passes { All (λ p. p.ledger ≡ self.id) passes.items }
        requires roles { All (λ r. r.ledger ≡ self.id) roles.items }
        ensures sum { IfOk result (λ n. n ≡ word_of (total_made passes.items)) }
        ensures agree { IfOk result (λ _. AreReconciled K.code self (passes.items ++ left_in roster)
            roles.items) }
        ensures known { IfOk result (λ _. HasOrderFrom K.code self (seen_at known)
            (passes.items ++ left_in roster) roles.items) }
        ensures refused { IfErr result (λ _. (length passes.items < roster.next)
            ⊎ (CoverAll (classes_of_roles roles.items) → ⊥)) }
        ensures ledger { IfErr result (λ u. u.rest.ledger ≡ self) }
        ensures passes { IfErr result (λ u. u.rest.passes ≡ passes) }
        ensures roles { IfErr result (λ u. u.rest.roles ≡ roles) }
        ensures roster { IfErr result (λ u. u.roster ≡ roster) }
        ensures same_known { IfErr result (λ u. u.known ≡ known) }
    {
        if !are_all(&roster, passes.as_slice(), roles.as_slice()) {
            return Err(UnsettledWith {
                rest: Unsettled {
                    ledger: self,
                    passes,
                    roles,
                },
                roster,
                known,
            });
        }
        let total = self.add_shares(passes.as_mut_slice());
        let Ledger {
            table,
            form: _,
            clients: _,
            most: _,
        } = self;
        gather_with(&table.shared, roster, known, passes, roles);
        drop(table);
        Ok(total)
    }

    /// Whether there are as many passes as clients, and roles for all hashes.
    fn has_all(&self, passes: &[Pass<K, V, F>], roles: &[BinRole<K, V, F>]) -> bool
        ensures { MatchBool result
            ((self.now.clients ≤ length passes.now) × AreWide (classes_of_roles roles.now))
            ((length passes.now < self.now.clients) ⊎ (CoverAll (classes_of_roles roles.now) → ⊥)) }
    {
        if passes.len() < self.clients as usize {
            false
        } else {
            are_wide(roles)
        }
    }
}
