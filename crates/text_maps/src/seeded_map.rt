//! A shared map with a seed.
ghost use Rattle.std.specs.Prelude.{◌≡◌, ◌↔◌, ◌⊎◌, ◌≤◌, IfErr, IfOk, IfSome, IsErrOf, List, length, option_map};
ghost use Rattle.bin_history.specs.Calls.{after};
ghost use Rattle.bin_history.specs.declared.form.Form.TheVariants.{Lean};
ghost use Rattle.bin_history.specs.Limits.{most_clients, most_lean_clients};
ghost use Rattle.chm.specs.Closing.{IsKnown};
ghost use Rattle.chm.specs.Headline.{entries_of};
ghost use Rattle.chm.specs.Limits.{most_pairs};
ghost use Rattle.chm.specs.Opened.{IsLimited, IsNew};
ghost use Rattle.chm.specs.Refusals.{IsCapacityOf};
ghost use Rattle.chm.specs.Reopened.{IsReopened};
ghost use Rattle.chm.specs.declared.fault.Fault.TheVariants.{BadCapacity};
ghost use Rattle.clients.specs.PassPools.{AreOfAll, IsKept};
ghost use Rattle.count_ledger.specs.Views.{PassView};
ghost use Rattle.text_maps.specs.Texts.{IsOpeningFault, key_of};
ghost use Rattle.text_maps.specs.declared.text_fault.TextFault.TheVariants.{OfMap};

use crate::closed_seeded::ClosedSeeded;
use crate::not_closed::TextNotClosed;
use crate::text_fault::TextFault;
use bin_history::{Remap, Value};
use clients::{ClientFault, Fault, Map, Moment, OwnedClient, SharedMap};
use hashkeys::HashKey;
use seeded_keys::{Hashed, Query, Seed};
use std::alloc::{AllocError, Allocator};
use std::random::RandomSource;
use std::sync::Wait;

/// A map for text from outside: a shared map whose keys are texts, under a secret seed of its own.
pub type TextMap<V, F, A> = SeededMap<Hashed<A>, V, F, A>;

/// A client of a map of texts.
pub type TextClient<V, F, A> = OwnedClient<Hashed<A>, V, F, A>;

/// A shared map under a secret seed of its own, which it hashes texts by: whoever does not know the seed
/// cannot choose texts that share a bucket. `of` makes the query for a text, which each `_as` call of a
/// client takes. The keys of a `TextMap` are texts; a key may also have parts, such as a text and a number,
/// and then a pair of a query and a reference to a number stands for it.
#[derive(Drop)]
pub struct SeededMap<K: HashKey, V: Value, F: Remap<K, V>, A: Allocator> {
    map: SharedMap<K, V, F, A>,
    seed: Seed,
    ghost lean: { map.ledger.form ≡ Lean },
}

impl<K: HashKey, V: Value, F: Remap<K, V>, A: Allocator> SeededMap<K, V, F, A> {
    /// The shared map with the seed of its keys.
    pub(crate) fn with(map: SharedMap<K, V, F, A>, seed: Seed) -> SeededMap<K, V, F, A>
        requires { map.ledger.form ≡ Lean }
        ensures map { result.map ≡ map }
        ensures seed { result.seed ≡ seed }
    {
        SeededMap { map, seed }
    }
}

impl<K: HashKey, V: Value, F: Remap<K, V>, A: Allocator + Clone> SeededMap<K, V, F, A> {
    /// Opens a map without entries, as `SharedMap::new` does, and draws its seed from the system's source
    /// of random numbers. It allocates the table, and waits for nobody.
    ///
    ///     let text: TextMap<u64, NoFunction, Global> = TextMap::new(rt, alloc, 16)?;
    ///
    /// # Errors
    ///
    /// `OfMap` with `BadCapacity` where the capacity is not 1 to 2^26, else with `NoMemory`; and `NoSeed`
    /// with what the system answers where it gives no random numbers.
    pub fn new(
        rt: &impl RandomSource,
        alloc: A,
        capacity: usize,
    ) -> Result<SeededMap<K, V, F, A>, TextFault>
        ensures new { IfOk result (λ t. (all : List (PassView K V F))
            × IsNew Lean (record { 0 = 0 }) capacity most_lean_clients t.map all) }
        ensures capacity { IsErrOf result (OfMap BadCapacity) ↔ (¬ IsCapacityOf Lean capacity) }
        ensures faults { IfErr result IsOpeningFault }
    {
        let map = SharedMap::new(alloc, capacity)?;
        let seed = Seed::random(rt)?;
        Ok(SeededMap { map, seed })
    }

    /// Opens a map without entries, as `new` does, but under this seed: for tests, which are to run the
    /// same each time. It allocates the table, and waits for nobody.
    ///
    ///     let text: TextMap<u64, NoFunction, Global> = TextMap::with_seed(alloc, 16, Seed::of(1, 2))?;
    ///
    /// # Errors
    ///
    /// `BadCapacity` where the capacity is not 1 to 2^26; and `NoMemory`.
    pub fn with_seed(alloc: A, capacity: usize, seed: Seed) -> Result<SeededMap<K, V, F, A>, Fault>
        ensures new { IfOk result (λ t. (all : List (PassView K V F))
            × IsNew Lean (record { 0 = 0 }) capacity most_lean_clients t.map all) }
        ensures seed { IfOk result (λ t. t.seed ≡ seed) }
        ensures limits { IsLimited (IsCapacityOf Lean capacity) (most_clients Lean)
            most_lean_clients result }
    {
        match SharedMap::new(alloc, capacity) {
            Ok(map) => Ok(SeededMap { map, seed }),
            Err(fault) => Err(fault),
        }
    }

    /// Opens a map with a closed map's pairs and seed, for up to this many clients, as `SharedMap::reopen`
    /// does. The closed map stays as it is. It allocates the table and copies of the pairs, and waits for
    /// nobody.
    ///
    ///     let text = TextMap::reopen(&closed, 65_536)?;
    ///
    /// # Errors
    ///
    /// `BadCapacity` where the closed map has more than 2^32 - 1 pairs, else `BadClients` where there are
    /// not 1 to 65,536 clients; and `NoMemory`.
    pub fn reopen(
        closed: &ClosedSeeded<K, V, F, A>,
        clients: u32,
    ) -> Result<SeededMap<K, V, F, A>, Fault>
        ensures new { IfOk result (λ t. (all : List (PassView K V F))
            × IsReopened K.eq K.code closed.now.quiet closed.now.quiet.ledger.salt
            clients t.map all) }
        ensures seed { IfOk result (λ t. t.seed ≡ closed.now.seed) }
        ensures limits { IsLimited (length (entries_of closed.now.quiet.bins) ≤ most_pairs)
            (most_clients Lean) clients result }
    {
        match SharedMap::reopen(&closed.quiet, clients) {
            Ok(map) => Ok(SeededMap {
                map,
                seed: closed.seed,
            }),
            Err(fault) => Err(fault),
        }
    }

    /// Returns what stands for the key of this text. It hashes the text in time linear in its length,
    /// allocates nothing, and waits for nobody.
    ///
    ///     assert_eq!(client.put_as(rt, text.of("a"), 5)?, None);
    ///     assert_eq!(client.get_as(rt, text.of("a"))?, Some(5));
    pub fn of<'a>(&self, text: &'a str) -> Query<'a>
        ensures key { record { code = result.code; bytes = result.bytes.now } ≡ key_of self.now.seed text.now }
    {
        self.seed.query(text.as_bytes())
    }

    /// Returns what stands for the key of the text that has these bytes, or, where they are no UTF-8, for
    /// a key of their own. In all else it does what `of` does.
    ///
    ///     assert_eq!(client.get_as(rt, text.of_bytes(b"a"))?, Some(5));
    pub fn of_bytes<'a>(&self, bytes: &'a [u8]) -> Query<'a>
        ensures key { record { code = result.code; bytes = result.bytes.now } ≡ key_of self.now.seed bytes.now }
    {
        self.seed.query(bytes)
    }

    /// Returns the seed. A thread that has a client of the map makes queries by it, as `seed.query(bytes)`.
    ///
    ///     let seed = text.seed();
    ///     assert_eq!(client.get_as(rt, seed.query(b"a"))?, Some(5));
    pub fn seed(&self) -> Seed
        ensures { result ≡ self.now.seed }
    {
        self.seed
    }

    /// Returns the shared map, for calls that take one, as bulk operations beside writers do.
    ///
    ///     assert_eq!(text.shared().map().clients(), 65_536);
    pub fn shared(&self) -> &SharedMap<K, V, F, A>
        ensures { result.now ≡ self.now.map }
    {
        &self.map
    }

    /// Returns the map, which shows what needs no pass.
    ///
    ///     assert_eq!(text.map().mapping_count(), 1);
    pub fn map(&self) -> &Map<K, V, F, A>
        ensures { result.now ≡ self.now.map }
    {
        self.map.map()
    }

    /// Returns one more handle of the same map, with its seed. It takes constant time, allocates nothing,
    /// and waits for nobody.
    ///
    ///     let other = text.again()?;
    ///     assert!(other.seed() == text.seed());
    ///
    /// # Errors
    ///
    /// `AllocError` if 2^63 clients and handles of the map exist.
    pub fn again(&self) -> Result<SeededMap<K, V, F, A>, AllocError>
        ensures map { IfOk result (λ t. t.map ≡ self.now.map) }
        ensures seed { IfOk result (λ t. t.seed ≡ self.now.seed) }
    {
        Ok(SeededMap {
            map: self.map.again()?,
            seed: self.seed,
        })
    }

    /// Returns a client, as `SharedMap::client` does: it may go to another thread, and gives its pass back
    /// when it is dropped. It takes constant time, allocates where the client is new and the pass slots for
    /// others like it are not there yet, and waits for nobody.
    ///
    ///     let mut client = text.client()?;
    ///
    /// # Errors
    ///
    /// `NoClient` where all clients are out, or came back full; and where other threads were taking or
    /// bringing clients all the time that it tried, for which `client_when_in` waits. `NoMemory`.
    pub fn client(&self) -> Result<OwnedClient<K, V, F, A>, Fault>
        ensures map { IfOk result (λ c. c.map ≡ self.now.map) }
        ensures lean { IfOk result (λ c. c.map.ledger.form ≡ Lean) }
        ensures faults { IfErr result
            (λ fault. (fault ≡ Fault.NoMemory) ⊎ (fault ≡ Fault.NoClient)) }
    {
        self.map.client()
    }

    /// Returns a client, as `client` does; where no client is free it backs off, and tries again until one
    /// is. It allocates as `client` does.
    ///
    ///     let mut client = text.client_when_in(rt)?;
    ///
    /// # Errors
    ///
    /// `ClientsFull` where all clients that the map may have came back full, so that none is ever free
    /// again; and `NoMemory`.
    pub fn client_when_in<R: Wait>(&self, rt: &R) -> Result<OwnedClient<K, V, F, A>, ClientFault>
        ensures map { IfOk result (λ c. c.map ≡ self.now.map) }
        ensures lean { IfOk result (λ c. c.map.ledger.form ≡ Lean) }
    {
        self.map.client_when_in(rt)
    }

    /// Closes the map, as `SharedMap::close` does, where all clients are in and no other handle is of it.
    /// The closed map keeps the seed. It allocates the lists of the closed map, takes time linear in the
    /// buckets and the passes, and waits for nobody.
    ///
    ///     let closed = text.close()?;
    ///     assert_eq!(closed.get("a").copied(), Some(5));
    ///
    /// # Errors
    ///
    /// Those of `SharedMap::close`. The map comes back with its seed.
    pub fn close(self) -> Result<ClosedSeeded<K, V, F, A>, TextNotClosed<K, V, F, A>>
        ensures ledger { IfOk result (λ c. c.quiet.ledger ≡ self.map.ledger) }
        ensures n { IfOk result (λ c. c.quiet.n ≡ self.map.n) }
        ensures all { IfOk result (λ c. AreOfAll self.map.ledger.clients c.quiet.passes) }
        ensures seed { IfOk result (λ c. c.seed ≡ self.seed) }
        ensures kept { IfErr result (λ e. IsKept self.map e.fault (option_map (λ t. t.map) e.shared) e.unshared) }
        ensures seed_kept { IfErr result
            (λ e. (e.seed ≡ self.seed) × IfSome e.shared (λ t. t.seed ≡ self.seed)) }
    {
        let SeededMap { map, seed } = self;
        match map.close() {
            Ok(quiet) => Ok(ClosedSeeded { quiet, seed }),
            Err(refused) => Err(TextNotClosed::of(refused, seed)),
        }
    }

    /// Closes the map, as `close` does, and says that the calls that the moment knows are in it: they are
    /// the first of all calls, in one order.
    ///
    ///     let moment = client.moment();
    ///     drop(client);
    ///     let closed = text.close_knowing(moment)?;
    ///
    /// # Errors
    ///
    /// Those of `close`. The moment is dropped then.
    pub fn close_knowing(
        self,
        moment: Moment<K, V, F>,
    ) -> Result<ClosedSeeded<K, V, F, A>, TextNotClosed<K, V, F, A>>
        requires { moment.ledger ≡ self.map.ledger.id }
        ensures ledger { IfOk result (λ c. c.quiet.ledger ≡ self.map.ledger) }
        ensures n { IfOk result (λ c. c.quiet.n ≡ self.map.n) }
        ensures all { IfOk result (λ c. AreOfAll self.map.ledger.clients c.quiet.passes) }
        ensures known { IfOk result (λ c. IsKnown K.eq K.code
            (after V.eq F.remapped F.merged) moment.seen c.quiet) }
        ensures seed { IfOk result (λ c. c.seed ≡ self.seed) }
        ensures kept { IfErr result (λ e. IsKept self.map e.fault (option_map (λ t. t.map) e.shared) e.unshared) }
        ensures seed_kept { IfErr result
            (λ e. (e.seed ≡ self.seed) × IfSome e.shared (λ t. t.seed ≡ self.seed)) }
    {
        let SeededMap { map, seed } = self;
        match map.close_knowing(moment) {
            Ok(quiet) => Ok(ClosedSeeded { quiet, seed }),
            Err(refused) => Err(TextNotClosed::of(refused, seed)),
        }
    }
}
