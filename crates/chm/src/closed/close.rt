//! The end of a map: its bins and its books come together.
ghost use Rattle.std.specs.Prelude.{◌≡◌, ◌≤◌, ◌++◌, length, All, IfOk, IfErr, IfSome};
ghost use Rattle.hashkeys.specs.Classes.{CoverAll};
ghost use Rattle.bin_history.specs.Calls.{after};
ghost use Rattle.bin_history.specs.Entries.{replay};
ghost use Rattle.count_ledger.specs.Books.{classes_of_roles};
ghost use Rattle.count_ledger.specs.Opening.{left_in};
ghost use Rattle.count_ledger.specs.Settled.{AreReconciled, HasOrderFrom, seen_at};
ghost use Rattle.count_ledger.specs.Words.{total_made, word_of};
ghost use Rattle.chm.specs.Closing.{IsKnown, IsNotClosed, IsNotClosedWith, IsRestOf};
ghost use Rattle.chm.specs.Closing.{passes_with, seen_with, taken_with};

use crate::closed::quiet::Quiet;
use crate::fault::Fault;
use crate::map::Map;
use bin_history::{Bin, Remap, Value};
use count_ledger::{BinRole, Ledger, Moment, Pass, Roster, retire_all};
use hashkeys::HashKey;
use std::alloc::Allocator;
use std::marker::Model;

/// Why a map could not be closed, with the passes as they were handed in. The map comes back too,
/// as it was, but where bins were missing.
pub struct NotClosed<K: HashKey, V: Value, F: Remap<K, V>, A: Allocator> {
    pub fault: Fault,
    pub map: Option<Map<K, V, F, A>>,
    pub passes: Vec<Pass<K, V, F>, A>,
}

impl<K: HashKey, V: Value, F: Remap<K, V>, A: Allocator> Model for NotClosed<K, V, F, A> {
    ghost use Rattle.chm.specs.Closing.{NotClosedView};

    ghost Value = { NotClosedView K V F };

    ghost view = { λ e. record { fault = e.fault; map = e.map; passes = e.passes.items } };
}

impl<K: HashKey, V: Value, F: Remap<K, V>, A: Allocator + Clone> NotClosed<K, V, F, A> {
    /// Returns why the map was not closed, for who gives it up: its passes end, and it goes.
    ///
    ///     map.close(passes).map_err(|refused| refused.give_up())
    pub fn give_up(self) -> Fault
        ensures { result ≡ self.fault }
    {
        let NotClosed {
            fault,
            map: _,
            passes,
        } = self;
        retire_all(passes);
        fault
    }
}

/// Why a map could not be closed with its roster, which is handed back as it was, as is all that
/// `NotClosed` has.
pub struct NotClosedWith<K: HashKey, V: Value, F: Remap<K, V>, A: Allocator> {
    pub fault: Fault,
    pub map: Option<Map<K, V, F, A>>,
    pub roster: Roster<K, V, F>,
    pub known: Option<Moment<K, V, F>>,
    pub passes: Vec<Pass<K, V, F>, A>,
}

impl<K: HashKey, V: Value, F: Remap<K, V>, A: Allocator> Model for NotClosedWith<K, V, F, A> {
    ghost use Rattle.chm.specs.Closing.{NotClosedWithView};

    ghost Value = { NotClosedWithView K V F };

    ghost view = { λ e. record {
      fault = e.fault;
      map = e.map;
      roster = e.roster;
      known = e.known;
      passes = e.passes.items;
    } };
}

impl<K: HashKey, V: Value, F: Remap<K, V>, A: Allocator + Clone> NotClosedWith<K, V, F, A> {
    /// Returns why the map was not closed, for who gives it up: its passes end, and it goes.
    ///
    ///     map.close_with(roster, passes).map_err(|refused| refused.give_up())
    pub fn give_up(self) -> Fault
        ensures { result ≡ self.fault }
    {
        let NotClosedWith {
            fault,
            map: _,
            roster: _,
            known: _,
            passes,
        } = self;
        retire_all(passes);
        fault
    }
}

/// What a map is closed with beside the passes that were taken: the roster, and a moment.
#[derive(Drop)]
pub(crate) struct Rest<K, V, F> {
    pub(crate) roster: Roster<K, V, F>,
    pub(crate) known: Option<Moment<K, V, F>>,
}

/// A map that was not closed, and all that was handed in.
pub(crate) struct Refused<K: HashKey, V: Value, F: Remap<K, V>, A: Allocator> {
    pub(crate) fault: Fault,
    pub(crate) map: Option<Map<K, V, F, A>>,
    pub(crate) rest: Option<Rest<K, V, F>>,
    pub(crate) passes: Vec<Pass<K, V, F>, A>,
}

/// How many passes were taken: all, but for those that a roster has.
pub(crate) fn taken<K, V, F>(clients: u32, rest: &Option<Rest<K, V, F>>) -> u32
    ensures { result ≡ taken_with clients rest.now }
{
    match rest {
        None => clients,
        Some(rest) => rest.roster.taken(),
    }
}

/// The entries of each of these bins are the replay of its records over its base. It changes
/// nothing.
pub(crate) fn replayed<K: HashKey, V: Value, F: Remap<K, V>, A: Allocator + Clone>(
    bins: &[Bin<K, V, F, A>],
)
    ensures { All (λ b. b.entries ≡ replay K.eq b.base b.records) bins.now }
{
    for bin in bins {
        bin.lawful();
    }
}

/// Ends a ledger of which all is back, and returns the sum of all deltas.
pub(crate) fn settle_all<K: HashKey, V: Value, F: Remap<K, V>, A: Allocator + Clone>(
    ledger: Ledger<K, V, F, A>,
    rest: Option<Rest<K, V, F>>,
    passes: Vec<Pass<K, V, F>, A>,
    roles: Vec<BinRole<K, V, F>, A>,
) -> u64
    requires passes { All (λ p. p.ledger ≡ ledger.id) passes.items }
    requires roles { All (λ r. r.ledger ≡ ledger.id) roles.items }
    requires rest { IfSome rest (IsRestOf ledger) }
    requires taken { taken_with ledger.clients rest ≤ length passes.items }
    requires cover { CoverAll (classes_of_roles roles.items) }
    ensures sum { result ≡ word_of (total_made passes.items) }
    ensures agree { AreReconciled K.code ledger (passes_with rest passes.items) roles.items }
    ensures known { HasOrderFrom K.code ledger (seen_with rest) (passes_with rest passes.items)
        roles.items }
{
    match rest {
        None => match ledger.settle(passes, roles) {
            Ok(total) => total,
            Err(_) => unreachable!(),
        },
        Some(rest) => match ledger.settle_with(rest.roster, rest.known, passes, roles) {
            Ok(total) => total,
            Err(_) => unreachable!(),
        },
    }
}

impl<K: HashKey, V: Value, F: Remap<K, V>, A: Allocator + Clone> Map<K, V, F, A> {
    /// Closes the map, with the passes of all clients. The closed map knows that the role of each
    /// bin kept just the calls that the clients made on its keys, each once and in its client's
    /// order. It waits for nobody: whoever has all passes has no call to wait for.
    ///
    ///     match map.close(passes) {
    ///         Ok(quiet) => Ok(quiet),
    ///         Err(refused) => Err(refused.give_up()),
    ///     }
    ///
    /// # Errors
    ///
    /// `PassMissing` where there are fewer passes than clients; `NoMemory` out of memory, which is
    /// asked for before any bin is taken out. Then map and passes come back. `BinMissing` where a bin
    /// was not found, which no run is known to meet: the map is lost, and the passes come back.
    pub fn close(
        self,
        passes: Vec<Pass<K, V, F>, A>,
    ) -> Result<Quiet<K, V, F, A>, NotClosed<K, V, F, A>>
        requires { All (λ p. p.ledger ≡ self.ledger.id) passes.items }
        ensures ledger { IfOk result (λ q. q.ledger ≡ self.ledger) }
        ensures n { IfOk result (λ q. q.n ≡ self.n) }
        ensures passes { IfOk result (λ q. q.passes ≡ passes.items) }
        ensures refused { IfErr result (IsNotClosed self passes.items) }
    {
        match self.close_all(None, passes) {
            Ok(quiet) => Ok(quiet),
            Err(
                Refused {
                    fault,
                    map,
                    rest: _,
                    passes,
                },
            ) => Err(NotClosed { fault, map, passes }),
        }
    }

    /// Closes the map as `close` does, with its roster and the passes that were taken. The closed
    /// map has the passes of all clients: those that nobody took made nothing.
    ///
    ///     map.close_with(roster, passes).map_err(|refused| refused.give_up())
    ///
    /// # Errors
    ///
    /// As `close`: `PassMissing` where there are fewer passes than were taken. The roster comes back
    /// with each of them.
    pub fn close_with(
        self,
        roster: Roster<K, V, F>,
        passes: Vec<Pass<K, V, F>, A>,
    ) -> Result<Quiet<K, V, F, A>, NotClosedWith<K, V, F, A>>
        requires roster { roster.ledger ≡ self.ledger.id }
        requires clients { roster.clients ≡ self.ledger.clients }
        requires own { All (λ p. p.ledger ≡ self.ledger.id) passes.items }
        ensures ledger { IfOk result (λ q. q.ledger ≡ self.ledger) }
        ensures n { IfOk result (λ q. q.n ≡ self.n) }
        ensures passes { IfOk result (λ q. q.passes ≡ passes.items ++ left_in roster) }
        ensures refused { IfErr result (IsNotClosedWith self roster None passes.items) }
    {
        self.close_rest(roster, None, passes)
    }

    /// Closes the map as `close_with` does. Its one order of all calls begins with those that a
    /// moment shows, so what a client did before the moment was taken is in the closed map.
    ///
    ///     map.put(rt, &mut pass, 1, 5)?;
    ///     let moment = map.moment(&mut pass);
    ///     map.close_knowing(roster, moment, passes).map_err(|refused| refused.give_up())
    ///
    /// # Errors
    ///
    /// As `close_with`. The moment comes back with each of them.
    pub fn close_knowing(
        self,
        roster: Roster<K, V, F>,
        moment: Moment<K, V, F>,
        passes: Vec<Pass<K, V, F>, A>,
    ) -> Result<Quiet<K, V, F, A>, NotClosedWith<K, V, F, A>>
        requires roster { roster.ledger ≡ self.ledger.id }
        requires clients { roster.clients ≡ self.ledger.clients }
        requires moment { moment.ledger ≡ self.ledger.id }
        requires own { All (λ p. p.ledger ≡ self.ledger.id) passes.items }
        ensures ledger { IfOk result (λ q. q.ledger ≡ self.ledger) }
        ensures n { IfOk result (λ q. q.n ≡ self.n) }
        ensures known { IfOk result
            (IsKnown K.eq K.code (after V.eq F.remapped F.merged) moment.seen) }
        ensures passes { IfOk result (λ q. q.passes ≡ passes.items ++ left_in roster) }
        ensures refused { IfErr result (IsNotClosedWith self roster (Some moment) passes.items) }
    {
        self.close_rest(roster, Some(moment), passes)
    }

    fn close_rest(
        self,
        roster: Roster<K, V, F>,
        known: Option<Moment<K, V, F>>,
        passes: Vec<Pass<K, V, F>, A>,
    ) -> Result<Quiet<K, V, F, A>, NotClosedWith<K, V, F, A>>
        requires roster { roster.ledger ≡ self.ledger.id }
        requires clients { roster.clients ≡ self.ledger.clients }
        requires known { IfSome known (λ m. m.ledger ≡ self.ledger.id) }
        requires own { All (λ p. p.ledger ≡ self.ledger.id) passes.items }
        ensures ledger { IfOk result (λ q. q.ledger ≡ self.ledger) }
        ensures n { IfOk result (λ q. q.n ≡ self.n) }
        ensures known { IfOk result
            (IsKnown K.eq K.code (after V.eq F.remapped F.merged) (seen_at known)) }
        ensures passes { IfOk result (λ q. q.passes ≡ passes.items ++ left_in roster) }
        ensures refused { IfErr result (IsNotClosedWith self roster known passes.items) }
    {
        match self.close_all(Some(Rest { roster, known }), passes) {
            Ok(quiet) => Ok(quiet),
            Err(
                Refused {
                    fault,
                    map,
                    rest,
                    passes,
                },
            ) => {
                let Some(Rest { roster, known }) = rest else {
                    unreachable!()
                };
                Err(NotClosedWith {
                    fault,
                    map,
                    roster,
                    known,
                    passes,
                })
            }
        }
    }
}
