//! Maps, from their opening to their close.
ghost use Rattle.std.specs.Prelude.{◌≡◌, ◌≤◌, IfOk, length};
ghost use Rattle.bin_history.specs.Calls.{after};
ghost use Rattle.bin_history.specs.Limits.{most_clients};
ghost use Rattle.bin_history.specs.declared.form.Form.TheVariants.{Lean};
ghost use Rattle.chm.specs.Headline.{entries_of};
ghost use Rattle.chm.specs.Limits.{most_pairs};
ghost use Rattle.chm.specs.Opened.{IsLimited};
ghost use Rattle.chm.specs.Refusals.{IsCapacityOf};
ghost use Rattle.facing_maps.specs.Answers.{answered};
ghost use Rattle.facing_maps.specs.Stages.{IsOpened, IsReopenedFrom, IsClientOf, IsMadeOr, status_in};
ghost use Rattle.facing_maps.specs.Stages.{IsReopeningStatus, IsClientStatus, IsCloseOf, IsClosedAs};
ghost use Rattle.facing_maps.specs.Stages.{IsCounted, IsAgainStatus};

use crate::closed::ClosedMap;
use crate::status::{NO_MEMORY, code_of};
use bin_history::{Remap, Value};
use chm::{Fault, Quiet};
use clients::{OwnedClient, SharedMap, SharedNotClosed, Unshared};
use hashkeys::{HashKey, Salt};
use std::alloc::Global;
use std::mem;

/// A map, or a client of one.
#[derive(Drop)]
pub enum Stage<K: HashKey, V: Value, F: Remap<K, V>> {
    /// An open map. Its clients come and go.
    Map(SharedMap<K, V, F, Global>),
    /// A client of a map, which goes back to its own map when it is dropped.
    Client(OwnedClient<K, V, F, Global>),
    /// A map that could not be closed for lack of memory, whose clients are all back.
    CloseFailed(Unshared<K, V, F, Global>),
    /// A closed map.
    Closed(ClosedMap<K, V, F>),
    /// A map that ended when it was to be closed.
    Gone,
}

impl<K: HashKey, V: Value, F: Remap<K, V>> Stage<K, V, F> {
    /// A map without entries, whose clients are all in.
    pub fn open(
        alloc: Global,
        capacity: usize,
        clients: u32,
        salt: u32,
    ) -> Result<Stage<K, V, F>, Fault>
        ensures new { IfOk result (IsOpened (record { 0 = salt }) capacity clients) }
        ensures limits { IsLimited (IsCapacityOf Lean capacity) (most_clients Lean) clients result }
    {
        Ok(Stage::Map(SharedMap::with_salt(alloc, capacity, clients, Salt(salt))?))
    }

    /// A map that begins with copies of these pairs, whose clients are all in.
    fn reopened(quiet: &Quiet<K, V, F, Global>, clients: u32) -> Result<Stage<K, V, F>, Fault>
        ensures new { IfOk result (IsReopenedFrom K.eq K.code (Stage.Closed quiet.now) clients) }
        ensures limits { IsLimited (length (entries_of quiet.now.bins) ≤ most_pairs)
            (most_clients quiet.now.ledger.form) clients result }
    {
        Ok(Stage::Map(SharedMap::reopen(quiet, clients)?))
    }

    /// A map that begins with copies of the pairs of the closed map that this is, which stays as it
    /// is; none, where this is no closed map.
    pub fn reopen(&self, clients: u32) -> Option<Result<Stage<K, V, F>, u32>>
        ensures made { IsMadeOr (IsReopenedFrom K.eq K.code self.now clients) (answered result) }
        ensures status { IsReopeningStatus self.now clients (status_in (answered result)) }
    {
        match self {
            Stage::Closed(closed) => match Stage::reopened(closed.quiet(), clients) {
                Ok(stage) => Some(Ok(stage)),
                Err(fault) => Some(Err(code_of(fault))),
            },
            _ => None,
        }
    }

    /// A client of the open map that this is, which was in; none, where this is no open map.
    pub fn client(&self) -> Option<Result<Stage<K, V, F>, u32>>
        ensures made { IsMadeOr (IsClientOf self.now) (answered result) }
        ensures status { IsClientStatus self.now (status_in (answered result)) }
    {
        match self {
            Stage::Map(shared) => match shared.client() {
                Ok(client) => Some(Ok(Stage::Client(client))),
                Err(fault) => Some(Err(code_of(fault))),
            },
            _ => None,
        }
    }

    /// The number of keys: just so of a closed map, of another as far as a look tells, and none where
    /// the map ended.
    pub fn count(&self) -> Option<Result<u64, u32>>
        ensures { IsCounted self.now (answered result) }
    {
        match self {
            Stage::Map(shared) => Some(Ok(shared.map().mapping_count())),
            Stage::Client(client) => Some(Ok(client.map().mapping_count())),
            Stage::CloseFailed(unshared) => Some(Ok(unshared.map().mapping_count())),
            Stage::Closed(closed) => Some(Ok(closed.quiet().mapping_count())),
            Stage::Gone => None,
        }
    }

    /// Closes a map that nobody shares any more.
    fn close_unshared(unshared: Unshared<K, V, F, Global>) -> (Stage<K, V, F>, Result<(), u32>)
        ensures { IsCloseOf K.eq K.code (after V.eq F.remapped F.merged) unshared.map result.0 (status_in result.1) }
    {
        match unshared.close() {
            Ok(quiet) => {
                quiet.one_order();
                (Stage::Closed(ClosedMap::new(quiet)), Ok(()))
            }
            Err(refused) => {
                let SharedNotClosed {
                    fault,
                    shared: _,
                    unshared,
                } = refused;
                match unshared {
                    Some(unshared) => (Stage::CloseFailed(unshared), Err(code_of(fault))),
                    None => (Stage::Gone, Err(code_of(fault))),
                }
            }
        }
    }

    /// Closes a shared map.
    fn close_shared(shared: SharedMap<K, V, F, Global>) -> (Stage<K, V, F>, Result<(), u32>)
        ensures { IsCloseOf K.eq K.code (after V.eq F.remapped F.merged) shared result.0 (status_in result.1) }
    {
        match shared.unshare() {
            Ok(unshared) => Stage::close_unshared(unshared),
            Err(refused) => {
                let SharedNotClosed {
                    fault,
                    shared,
                    unshared: _,
                } = refused;
                match shared {
                    Some(shared) => (Stage::Map(shared), Err(code_of(fault))),
                    None => unreachable!(),
                }
            }
        }
    }

    /// What this is once its map was to be closed, and whether it was; none, where this is no map that
    /// can be closed.
    fn closed(self) -> (Stage<K, V, F>, Option<Result<(), u32>>)
        ensures { IsClosedAs K.eq K.code (after V.eq F.remapped F.merged) self
            result.0 (status_in (answered result.1)) }
    {
        match self {
            Stage::Map(shared) => {
                let (then, done) = Stage::close_shared(shared);
                (then, Some(done))
            }
            Stage::CloseFailed(unshared) => {
                let (then, done) = Stage::close_unshared(unshared);
                (then, Some(done))
            }
            other => (other, None),
        }
    }

    /// Closes the map that this is, in its place. It waits for nobody. It answers whether it was closed;
    /// none, where this is no map that can be closed.
    pub fn close(&mut self) -> Option<Result<(), u32>>
        ensures { IsClosedAs K.eq K.code (after V.eq F.remapped F.merged) self.old
            self.new (status_in (answered result)) }
    {
        let (then, done) = mem::replace(self, Stage::Gone).closed();
        *self = then;
        done
    }

    /// This, and one more owner of the closed map that it is; none, where it is no closed map.
    fn into_two(self) -> (Stage<K, V, F>, Option<Result<Stage<K, V, F>, u32>>)
        ensures same { result.0 ≡ self }
        ensures again { IsMadeOr (λ again. again ≡ self) (answered result.1) }
        ensures status { IsAgainStatus self (status_in (answered result.1)) }
    {
        match self {
            Stage::Closed(closed) => {
                let (own, more) = closed.into_two();
                match more {
                    Some(more) => (Stage::Closed(own), Some(Ok(Stage::Closed(more)))),
                    None => (Stage::Closed(own), Some(Err(NO_MEMORY))),
                }
            }
            other => (other, None),
        }
    }

    /// One more owner of the closed map that this is; none, where it is no closed map. The first one takes
    /// memory.
    pub fn again(&mut self) -> Option<Result<Stage<K, V, F>, u32>>
        ensures same { self.new ≡ self.old }
        ensures again { IsMadeOr (λ again. again ≡ self.old) (answered result) }
        ensures status { IsAgainStatus self.old (status_in (answered result)) }
    {
        let (then, more) = mem::replace(self, Stage::Gone).into_two();
        *self = then;
        more
    }
}
