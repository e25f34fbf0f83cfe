//! A map that clients come to and leave when they like.
ghost use Rattle.std.specs.Prelude.{◌≡◌, ◌⊎◌, ◌≤◌, None, List, length, IfOk, IfErr, IsSomeAnd};
ghost use Rattle.bin_history.specs.Calls.{after};
ghost use Rattle.bin_history.specs.declared.form.Form.TheVariants.{Lean};
ghost use Rattle.count_ledger.specs.Views.{PassView};
ghost use Rattle.chm.specs.Headline.{entries_of};
ghost use Rattle.chm.specs.Closing.{IsKnown};
ghost use Rattle.chm.specs.Limits.{most_pairs};
ghost use Rattle.chm.specs.Opened.{IsLimited, IsNew};
ghost use Rattle.bin_history.specs.Limits.{most_clients, most_lean_clients};
ghost use Rattle.chm.specs.Refusals.{IsCapacityOf};
ghost use Rattle.chm.specs.Reopened.{IsReopened};
ghost use Rattle.clients.specs.PassPools.{AreOfAll, IsKept};

mod lending;

use crate::client_fault::ClientFault;
use crate::owned::OwnedClient;
use crate::pass_pool::PassPool;
use crate::unshared::{SharedNotClosed, Unshared};
use bin_history::{Remap, Value};
use chm::{Fault, MOST_LEAN_CLIENTS, Map, Quiet, Roster};
use count_ledger::Moment;
use crossbeam_utils::Backoff;
use hashkeys::{HashKey, Salt};
use std::alloc::{AllocError, Allocator};
use std::marker::Model;
use std::sync::{Arc, Wait};

/// A map with clients that come and go: whoever has it takes clients out, moves them into
/// threads that start when they like, and closes the map once all are back. A client is made when
/// it is first taken, and takes no memory before. More handles of the same map are made by `again`.
/// Contracts see the map.
pub struct SharedMap<K: HashKey, V: Value, F: Remap<K, V>, A: Allocator> {
    pass_pool: Arc<PassPool<K, V, F, A>, A>,
}

impl<K: HashKey, V: Value, F: Remap<K, V>, A: Allocator> Model for SharedMap<K, V, F, A> {
    ghost use Rattle.std.specs.Arc.{arc_value};
    ghost use Rattle.chm.specs.Views.{MapView};

    ghost Value = { MapView K V };

    ghost view = { λ s. arc_value s.pass_pool };
}

// Written out, so that a crate above calls it: of a derived one it would prove each part anew.
impl<K: HashKey, V: Value, F: Remap<K, V>, A: Allocator> Drop for SharedMap<K, V, F, A> {
    fn drop(self) {
        let SharedMap { pass_pool: _ } = self;
    }
}

impl<K: HashKey, V: Value, F: Remap<K, V>, A: Allocator> SharedMap<K, V, F, A> {
    /// Returns the map, which shows what needs no pass.
    pub fn map(&self) -> &Map<K, V, F, A>
        ensures { result.now ≡ self.now }
    {
        self.pass_pool.map()
    }
}

impl<K: HashKey, V: Value, F: Remap<K, V>, A: Allocator + Clone> SharedMap<K, V, F, A> {
    /// Opens a lean map without entries, for up to 65,536 clients. Its table begins with the least
    /// power of two of buckets that is at least the capacity, which is 1 to 2^26. The salt of its
    /// hashes is 0, and a client makes 2^46 calls. It allocates the table and no client, and waits
    /// for nobody.
    ///
    ///     let map = SharedMap::new(alloc, 16)?;
    ///
    /// # Errors
    ///
    /// `BadCapacity` where the capacity is not 1 to 2^26; and `NoMemory`.
    pub fn new(alloc: A, capacity: usize) -> Result<SharedMap<K, V, F, A>, Fault>
        ensures new { IfOk result (λ s. (all : List (PassView K V F))
            × IsNew Lean (record { 0 = 0 }) capacity most_lean_clients s all) }
        ensures limits { IsLimited (IsCapacityOf Lean capacity) (most_clients Lean)
            most_lean_clients result }
    {
        SharedMap::with_salt(alloc, capacity, MOST_LEAN_CLIENTS, Salt(0))
    }

    /// Opens a lean map without entries, as `new` does, but for up to this many clients, which is 1
    /// to 65,536, and with this salt, with which the codes of keys are mixed. A client makes 2^62
    /// calls divided by the number of clients. It allocates the table and no client, and waits for
    /// nobody.
    ///
    ///     let map = SharedMap::with_salt(rt.alloc(), 16, 4, Salt(7))?;
    ///
    /// # Errors
    ///
    /// `BadCapacity` where the capacity is not 1 to 2^26, else `BadClients` where there are not 1 to
    /// 65,536 clients; and `NoMemory`.
    pub fn with_salt(
        alloc: A,
        capacity: usize,
        clients: u32,
        salt: Salt,
    ) -> Result<SharedMap<K, V, F, A>, Fault>
        ensures new { IfOk result (λ s. (all : List (PassView K V F))
            × IsNew Lean salt capacity clients s all) }
        ensures limits { IsLimited (IsCapacityOf Lean capacity) (most_clients Lean) clients result }
    {
        let own: Result<A, AllocError> = alloc.clone();
        let (map, roster) = Map::lean_with(alloc, capacity, clients, salt)?;
        SharedMap::of(map, roster, own?)
    }

    /// Opens a shared map with a closed map's pairs, for up to this many clients, as
    /// `Quiet::restart` does, with the closed map's salt and form. The closed map stays as it is.
    /// It allocates the table and copies of the pairs, and waits for nobody.
    ///
    ///     let map = SharedMap::reopen(&closed, 65_536)?;
    ///
    /// # Errors
    ///
    /// `BadCapacity` where the closed map has more than 2^32 - 1 pairs, else `BadClients` where there
    /// are not 1 to 65,536 clients, or in a recorded map 1 to 32; and `NoMemory`.
    pub fn reopen(closed: &Quiet<K, V, F, A>, clients: u32) -> Result<SharedMap<K, V, F, A>, Fault>
        ensures new { IfOk result (λ s. (all : List (PassView K V F))
            × IsReopened K.eq K.code closed.now closed.now.ledger.salt clients s all) }
        ensures limits { IsLimited (length (entries_of closed.now.bins) ≤ most_pairs)
            (most_clients closed.now.ledger.form) clients result }
    {
        let (map, roster) = closed.restart(clients, closed.salt())?;
        SharedMap::of(map, roster, closed.allocator().clone()?)
    }

    /// A map with its roster, which nobody has taken a pass from.
    fn of(
        map: Map<K, V, F, A>,
        roster: Roster<K, V, F>,
        alloc: A,
    ) -> Result<SharedMap<K, V, F, A>, Fault>
        requires ledger { roster.ledger ≡ map.ledger.id }
        requires clients { roster.clients ≡ map.ledger.clients }
        ensures map { IfOk result (λ s. s ≡ map) }
        ensures faults { IfErr result (λ fault. fault ≡ Fault.NoMemory) }
    {
        let own = alloc.clone()?;
        let pass_pool = PassPool::new(map, roster, alloc)?;
        Ok(SharedMap {
            pass_pool: Arc::new(own, pass_pool)?,
        })
    }

    /// Returns one more handle of the same map. It takes constant time, allocates nothing, and
    /// waits for nobody.
    ///
    ///     let other = map.again()?;
    ///     assert_eq!(other.map().clients(), 65_536);
    ///
    /// # Errors
    ///
    /// `AllocError` if 2^63 clients and handles of the map exist.
    pub fn again(&self) -> Result<SharedMap<K, V, F, A>, AllocError>
        ensures { IfOk result (λ s. s ≡ self.now) }
    {
        Ok(SharedMap {
            pass_pool: Arc::try_clone(&self.pass_pool)?,
        })
    }

    /// Returns a client, which may go to another thread, and gives its pass back when it is
    /// dropped: the one that came back last and may still call, or else a new one. It takes
    /// constant time, allocates where the client is new and the pass slots for others like it are
    /// not there yet, and waits for nobody.
    ///
    ///     let mut client = map.client()?;
    ///
    /// # Errors
    ///
    /// `NoClient` where all clients are out, or came back full; and where other threads were taking or
    /// bringing clients all the time that it tried, for which `client_when_in` waits. `NoMemory`.
    pub fn client(&self) -> Result<OwnedClient<K, V, F, A>, Fault>
        ensures map { IfOk result (λ c. c.map ≡ self.now) }
        ensures faults { IfErr result
            (λ fault. (fault ≡ Fault.NoMemory) ⊎ (fault ≡ Fault.NoClient)) }
    {
        let pass_pool = Arc::try_clone(&self.pass_pool)?;
        match pass_pool.take() {
            Ok(pass) => Ok(OwnedClient::of_pool(pass_pool, pass)),
            Err(fault) => Err(fault),
        }
    }

    /// Returns a client, as `client` does; where no client is free it backs off, and tries again
    /// until one is. It allocates as `client` does.
    ///
    ///     let mut client = map.client_when_in(rt)?;
    ///
    /// # Errors
    ///
    /// `ClientsFull` where all clients that the map may have came back full, so that none is ever
    /// free again; and `NoMemory`.
    pub fn client_when_in<R: Wait>(&self, rt: &R) -> Result<OwnedClient<K, V, F, A>, ClientFault>
        ensures map { IfOk result (λ c. c.map ≡ self.now) }
    {
        let backoff = Backoff::new();
        for _ in rt.forever() {
            match self.client() {
                Ok(client) => return Ok(client),
                Err(Fault::NoClient) => {
                    if self.pass_pool.are_all_full() {
                        return Err(ClientFault::ClientsFull);
                    }
                    backoff.snooze();
                }
                Err(_) => return Err(ClientFault::NoMemory),
            }
        }
        unreachable!()
    }

    /// Returns the map, shared no more, where all clients are in and no other handle is of it. It
    /// allocates a list of the passes that were taken, takes time linear in their number, and waits
    /// for nobody.
    ///
    ///     let unshared = map.unshare()?;
    ///     assert!(unshared.passes().len() == 1);
    ///
    /// # Errors
    ///
    /// `PassMissing` where a client is out, its thread ended without it being dropped, or another
    /// handle is of the map; and `NoMemory`. The shared map comes back.
    pub fn unshare(self) -> Result<Unshared<K, V, F, A>, SharedNotClosed<K, V, F, A>>
        ensures map { IfOk result (λ u. u.map ≡ self) }
        ensures shared { IfErr result (λ e. IsSomeAnd e.shared (λ s. s ≡ self)) }
        ensures unshared { IfErr result (λ e. e.unshared ≡ None) }
        ensures faults { IfErr result
            (λ e. (e.fault ≡ Fault.NoMemory) ⊎ (e.fault ≡ Fault.PassMissing)) }
    {
        let SharedMap { pass_pool } = self;
        let (roster, passes) = match pass_pool.take_all() {
            Ok(gathered) => gathered,
            Err(fault) => return Err(SharedMap { pass_pool }.not_closed(fault)),
        };
        match Arc::try_unwrap(pass_pool) {
            Ok(pass_pool) => Ok(Unshared::of(pass_pool.into_map(), passes, roster)),
            Err(pass_pool) => {
                pass_pool.bring_all(roster, passes);
                Err(SharedMap { pass_pool }.not_closed(Fault::PassMissing))
            }
        }
    }

    /// The map as it was, and why it was not closed.
    fn not_closed(self, fault: Fault) -> SharedNotClosed<K, V, F, A>
        ensures fault { result.fault ≡ fault }
        ensures shared { IsSomeAnd result.shared (λ s. s ≡ self) }
        ensures unshared { result.unshared ≡ None }
    {
        SharedNotClosed {
            fault,
            shared: Some(self),
            unshared: None,
        }
    }

    /// Closes the map, as `Map::close` does, where all clients are in and no other handle is of it. The
    /// closed map has the pass of each client that was ever taken, with all calls that the client made.
    /// It allocates the lists of the closed map, takes time linear in the buckets and the passes, and
    /// waits for nobody.
    ///
    ///     let closed = map.close()?;
    ///     assert_eq!(closed.mapping_count(), 1);
    ///
    /// # Errors
    ///
    /// `PassMissing` where a client is out, its thread ended without it being dropped, or another
    /// handle is of the map: the shared map comes back. `NoMemory`: the map comes back, shared or
    /// unshared. `BinMissing`: there is no map then.
    pub fn close(self) -> Result<Quiet<K, V, F, A>, SharedNotClosed<K, V, F, A>>
        ensures ledger { IfOk result (λ q. q.ledger ≡ self.ledger) }
        ensures n { IfOk result (λ q. q.n ≡ self.n) }
        ensures all { IfOk result (λ q. AreOfAll self.ledger.clients q.passes) }
        ensures kept { IfErr result (λ e. IsKept self e.fault e.shared e.unshared) }
    {
        self.unshare()?.close()
    }

    /// Closes the map, as `close` does, and says that the calls that the moment knows are in it: they
    /// are the first of all calls, in one order. So whoever has learned what a client did, by a
    /// moment of it, finds it in the closed map.
    ///
    ///     let moment = client.moment();
    ///     drop(client);
    ///     let closed = map.close_knowing(moment)?;
    ///
    /// # Errors
    ///
    /// Those of `close`. The moment is dropped then.
    pub fn close_knowing(
        self,
        moment: Moment<K, V, F>,
    ) -> Result<Quiet<K, V, F, A>, SharedNotClosed<K, V, F, A>>
        requires { moment.ledger ≡ self.ledger.id }
        ensures ledger { IfOk result (λ q. q.ledger ≡ self.ledger) }
        ensures n { IfOk result (λ q. q.n ≡ self.n) }
        ensures all { IfOk result (λ q. AreOfAll self.ledger.clients q.passes) }
        ensures known { IfOk result (IsKnown K.eq K.code (after V.eq F.remapped F.merged) moment.seen) }
        ensures kept { IfErr result (λ e. IsKept self e.fault e.shared e.unshared) }
    {
        self.unshare()?.close_knowing(moment)
    }
}
