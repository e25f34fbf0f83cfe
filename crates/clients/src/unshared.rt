//! A map that nobody shares any more.
ghost use Rattle.std.specs.Prelude.{◌≡◌, ◌⊎◌, ◌++◌, None, All, IfOk, IfErr, IfSome, IsSomeAnd, length};
ghost use Rattle.bin_history.specs.Calls.{after};
ghost use Rattle.chm.specs.Closing.{IsKnown};
ghost use Rattle.count_ledger.specs.Opening.{left_in};
ghost use Rattle.clients.specs.PassPools.{AreOfAll};
ghost use Rattle.clients.specs.Teams.{AreInOrder};

use crate::shared::SharedMap;
use bin_history::{Remap, Value};
use chm::{Fault, Map, Moment, NotClosedWith, Pass, Quiet, Roster, retire_all};
use hashkeys::HashKey;
use std::alloc::Allocator;
use std::marker::Model;

/// A map that was shared and whose clients are all back: the passes that were taken, in order, and
/// the roster of the others. Dropped, it ends the passes with the map.
pub struct Unshared<K: HashKey, V: Value, F: Remap<K, V>, A: Allocator> {
    map: Map<K, V, F, A>,
    passes: Vec<Pass<K, V, F>, A>,
    roster: Roster<K, V, F>,
}

impl<K: HashKey, V: Value, F: Remap<K, V>, A: Allocator> Model for Unshared<K, V, F, A> {
    ghost use Rattle.clients.specs.PassPools.{IsUnshared, UnsharedView};

    ghost Value = { UnsharedView K V F };

    ghost view = { λ u. record { map = u.map; passes = u.passes.items; roster = u.roster } };

    ghost invariant = { λ u. IsUnshared u.map u.passes.items u.roster };
}

impl<K: HashKey, V: Value, F: Remap<K, V>, A: Allocator> Drop for Unshared<K, V, F, A> {
    fn drop(self) {
        let Unshared {
            map: _,
            passes,
            roster: _,
        } = self;
        retire_all(passes);
    }
}

/// Why a shared map was not closed, and the map, which is as it was: shared still, or no more. There
/// is none where bins of it were missing. `?` makes a `Fault` or a program's error of it, and drops
/// the map.
#[derive(Drop)]
pub struct SharedNotClosed<K: HashKey, V: Value, F: Remap<K, V>, A: Allocator> {
    pub fault: Fault,
    pub shared: Option<SharedMap<K, V, F, A>>,
    pub unshared: Option<Unshared<K, V, F, A>>,
}

impl<K: HashKey, V: Value, F: Remap<K, V>, A: Allocator> SharedNotClosed<K, V, F, A> {
    /// Returns why the map was not closed, and drops the map, which ends with the last client or
    /// handle that is of it. `?` does the same.
    ///
    ///     let closed = map.close().map_err(|refused| refused.give_up())?;
    pub fn give_up(self) -> Fault
        ensures { result ≡ self.fault }
    {
        self.fault
    }
}

impl<K: HashKey, V: Value, F: Remap<K, V>, A: Allocator> Unshared<K, V, F, A> {
    /// A map with its roster and all passes that were taken from it.
    pub(crate) fn of(
        map: Map<K, V, F, A>,
        passes: Vec<Pass<K, V, F>, A>,
        roster: Roster<K, V, F>,
    ) -> Unshared<K, V, F, A>
        requires own { All (λ p. p.ledger ≡ map.ledger.id) passes.items }
        requires in_order { AreInOrder passes.items }
        requires taken { length passes.items ≡ roster.next }
        requires ledger { roster.ledger ≡ map.ledger.id }
        requires clients { roster.clients ≡ map.ledger.clients }
        ensures map { result.map ≡ map }
        ensures passes { result.passes ≡ passes.items }
        ensures roster { result.roster ≡ roster }
    {
        Unshared {
            map,
            passes,
            roster,
        }
    }

    /// Returns the map, which shows what needs no pass.
    pub fn map(&self) -> &Map<K, V, F, A>
        ensures { result.now ≡ self.now.map }
    {
        &self.map
    }

    /// Returns the passes that were taken, client 0's first.
    pub fn passes(&self) -> &[Pass<K, V, F>]
        ensures passes { result.now ≡ self.now.passes }
        ensures in_order { AreInOrder result.now }
    {
        &self.passes
    }
}

/// The map that was not closed, with its passes and its roster, in one again.
fn refused<K: HashKey, V: Value, F: Remap<K, V>, A: Allocator>(
    not_closed: NotClosedWith<K, V, F, A>,
) -> SharedNotClosed<K, V, F, A>
    requires map { IfSome not_closed.map (λ m. All (λ p. p.ledger ≡ m.ledger.id) not_closed.passes
        × (not_closed.roster.ledger ≡ m.ledger.id)
        × (not_closed.roster.clients ≡ m.ledger.clients)) }
    requires in_order { AreInOrder not_closed.passes }
    requires taken { length not_closed.passes ≡ not_closed.roster.next }
    ensures fault { result.fault ≡ not_closed.fault }
    ensures shared { result.shared ≡ None }
    ensures some { IfSome not_closed.map (λ m. IsSomeAnd result.unshared
        (λ u. (u.map ≡ m) × (u.passes ≡ not_closed.passes) × (u.roster ≡ not_closed.roster))) }
    ensures none { not_closed.map ≡ None → result.unshared ≡ None }
{
    let NotClosedWith {
        fault,
        map,
        roster,
        known: _,
        passes,
    } = not_closed;
    let unshared = match map {
        Some(map) => Some(Unshared {
            map,
            passes,
            roster,
        }),
        None => {
            retire_all(passes);
            None
        }
    };
    SharedNotClosed {
        fault,
        shared: None,
        unshared,
    }
}

impl<K: HashKey, V: Value, F: Remap<K, V>, A: Allocator + Clone> Unshared<K, V, F, A> {
    /// Closes the map, as `Map::close_with` does: the closed map has the pass of each client, with the
    /// calls that the client made. It allocates the lists of the closed map, takes time linear in the
    /// buckets and the passes, and waits for nobody.
    ///
    ///     let unshared = map.unshare()?;
    ///     let closed = unshared.close()?;
    ///
    /// # Errors
    ///
    /// `NoMemory`: the map comes back as it was. `BinMissing`: there is no map then.
    pub fn close(self) -> Result<Quiet<K, V, F, A>, SharedNotClosed<K, V, F, A>>
        ensures ledger { IfOk result (λ q. q.ledger ≡ self.map.ledger) }
        ensures n { IfOk result (λ q. q.n ≡ self.map.n) }
        ensures passes { IfOk result (λ q. q.passes ≡ self.passes ++ left_in self.roster) }
        ensures all { IfOk result (λ q. AreOfAll self.map.ledger.clients q.passes) }
        ensures kept { IfErr result
            (λ e. ((e.fault ≡ Fault.BinMissing) × (e.unshared ≡ None))
            ⊎ ((e.fault ≡ Fault.NoMemory) × IsSomeAnd e.unshared (λ u. u ≡ self))) }
        ensures shared { IfErr result (λ e. e.shared ≡ None) }
    {
        let Unshared {
            map,
            passes,
            roster,
        } = self;
        let _taken = roster.taken();
        match map.close_with(roster, passes) {
            Ok(quiet) => Ok(quiet),
            Err(not_closed) => Err(refused(not_closed)),
        }
    }

    /// Closes the map, as `close` does, and says that the calls that the moment knows are in it: they
    /// are the first of all calls, in one order.
    ///
    /// # Errors
    ///
    /// Those of `close`. The moment is dropped then.
    pub fn close_knowing(
        self,
        moment: Moment<K, V, F>,
    ) -> Result<Quiet<K, V, F, A>, SharedNotClosed<K, V, F, A>>
        requires { moment.ledger ≡ self.map.ledger.id }
        ensures ledger { IfOk result (λ q. q.ledger ≡ self.map.ledger) }
        ensures n { IfOk result (λ q. q.n ≡ self.map.n) }
        ensures passes { IfOk result (λ q. q.passes ≡ self.passes ++ left_in self.roster) }
        ensures all { IfOk result (λ q. AreOfAll self.map.ledger.clients q.passes) }
        ensures known { IfOk result (IsKnown K.eq K.code (after V.eq F.remapped F.merged) moment.seen) }
        ensures kept { IfErr result
            (λ e. ((e.fault ≡ Fault.BinMissing) × (e.unshared ≡ None))
            ⊎ ((e.fault ≡ Fault.NoMemory) × IsSomeAnd e.unshared (λ u. u ≡ self))) }
        ensures shared { IfErr result (λ e. e.shared ≡ None) }
    {
        let Unshared {
            map,
            passes,
            roster,
        } = self;
        let _taken = roster.taken();
        match map.close_knowing(roster, moment, passes) {
            Ok(quiet) => Ok(quiet),
            Err(not_closed) => Err(refused(not_closed)),
        }
    }
}
