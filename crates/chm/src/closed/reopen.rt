//! Opening a map again with the pairs of a closed one.
ghost use Rattle.std.specs.Prelude.{◌≡◌, ◌≤◌, length, flat_map, IfOk};
ghost use Rattle.hashkeys.specs.Classes.{IsTableSize};
ghost use Rattle.bin_history.specs.Limits.{most_clients};
ghost use Rattle.count_ledger.specs.Opening.{left_in, lists_of};
ghost use Rattle.chm.specs.Headline.{entries_of};
ghost use Rattle.chm.specs.Limits.{most_pairs};
ghost use Rattle.chm.specs.Opened.{IsLimited};
ghost use Rattle.chm.specs.Reopened.{parts_by_class, IsReopened};

use crate::closed::quiet::{Entries, Quiet};
use crate::fault::Fault;
use crate::map::{Map, Opened, Started, no_bases};
use crate::resize::size::size_from;
use bin_history::{Remap, Value};
use hashkeys::{HashKey, Salt};
use std::alloc::{AllocError, Allocator};

/// A map that is opened again begins with at most so many pairs.
const MOST_PAIRS: u64 = 4_294_967_295;

/// Copies of pairs, each in the list of its class, of as many classes as there are lists.
fn deal<K: HashKey, V: Value, F: Remap<K, V>, A: Allocator + Clone>(
    alloc: A,
    salt: Salt,
    n: u32,
    pairs: Entries<'_, K, V, F, A>,
) -> Result<Vec<Vec<(K, V), A>, A>, AllocError>
    requires size { IsTableSize n }
    ensures dealt { IfOk result
        (λ bases. lists_of bases ≡ parts_by_class K.code salt n pairs.entry) }
    ensures total { IfOk result (λ bases. length (flat_map (λ base. base) (lists_of bases))
        ≡ length pairs.entry) }
{
    let mut bases = no_bases(alloc, n)?;
    for (key, value) in pairs {
        let index = (salt.hash_of(key) % n) as usize;
        let pair = (key.clone()?, value.clone()?);
        bases[index].push(pair)?;
    }
    Ok(bases)
}

impl<K: HashKey, V: Value, F: Remap<K, V>, A: Allocator + Clone> Quiet<K, V, F, A> {
    /// Opens a map with copies of the pairs, which go into their bins in walk order, and with
    /// passes that made nothing, of client 0, 1 and so on. It has this map's form, and its table is
    /// the least from this map's opening one on that has room for them. The closed map stays as it
    /// is.
    ///
    ///     let (map, passes) = quiet.reopen(2)?;
    ///     map.clients() == 2 && map.mapping_count() == 1
    ///
    /// # Errors
    ///
    /// `BadCapacity` where there are more than 2^32 - 1 pairs, else `BadClients` where there are not
    /// 1 to 32 clients, or in a lean map to 65,536; `NoMemory` out of memory.
    pub fn reopen(&self, clients: u32) -> Result<Opened<K, V, F, A>, Fault>
        ensures new { IfOk result
            (λ r. IsReopened K.eq K.code self.now self.now.ledger.salt clients r.0 r.1.items) }
        ensures limits { IsLimited (length (entries_of self.now.bins) ≤ most_pairs)
            (most_clients self.now.ledger.form) clients result }
    {
        self.reopen_with(clients, self.salt)
    }

    /// Opens a map with copies of the pairs, as `reopen` does, with another salt.
    ///
    ///     let (map, passes) = quiet.reopen_with(2, Salt(7))?;
    ///     map.salt() == Salt(7)
    pub fn reopen_with(&self, clients: u32, salt: Salt) -> Result<Opened<K, V, F, A>, Fault>
        ensures new { IfOk result
            (λ r. IsReopened K.eq K.code self.now salt clients r.0 r.1.items) }
        ensures limits { IsLimited (length (entries_of self.now.bins) ≤ most_pairs)
            (most_clients self.now.ledger.form) clients result }
    {
        match self.restart(clients, salt) {
            Ok((map, roster)) => Ok(map.with_all(roster)?),
            Err(fault) => Err(fault),
        }
    }

    /// Opens a map with copies of the pairs, as `reopen_with` does, with a roster in place of the
    /// passes: `Map::join` takes a client's pass from it.
    ///
    ///     let (map, roster) = quiet.restart(2, Salt(7))?;
    ///     map.clients() == 2 && roster.taken() == 0
    pub fn restart(&self, clients: u32, salt: Salt) -> Result<Started<K, V, F, A>, Fault>
        ensures new { IfOk result
            (λ r. IsReopened K.eq K.code self.now salt clients r.0 (left_in r.1)) }
        ensures roster { IfOk result
            (λ r. r.1 ≡ record { ledger = r.0.ledger.id; next = 0; clients = clients }) }
        ensures limits { IsLimited (length (entries_of self.now.bins) ≤ most_pairs)
            (most_clients self.now.ledger.form) clients result }
    {
        let count = self.mapping_count();
        if count > MOST_PAIRS {
            return Err(Fault::BadCapacity);
        }
        let form = self.form();
        if clients < 1 || clients > form.most_clients() {
            return Err(Fault::BadClients);
        }
        self.lawful();
        let alloc = self.bins.allocator();
        let n = size_from(form, self.n, count);
        let bases = deal(alloc.clone()?, salt, n, self.entries())?;
        Ok(Map::open(alloc.clone()?, form, salt, clients, bases, count)?)
    }
}
