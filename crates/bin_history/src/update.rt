//! Values that a function is given, in a lean bin.
ghost use Rattle.std.specs.Prelude.{◌≡◌, None, Option, true, is_some};
ghost use Rattle.hashkeys.specs.Classes.{is_of};
ghost use Rattle.bin_entries.specs.Changes.{IsUpdated};
ghost use Rattle.bin_entries.specs.Rooms.{HasRoom};
ghost use Rattle.bin_history.specs.Entries.{lookup};
ghost use Rattle.bin_history.specs.Hashes.{hash_by};
ghost use Rattle.bin_history.specs.Updates.{HasPlace, IsUpdateMade, IsUpdateSeen};
ghost use Rattle.bin_history.specs.Updates.{prepared_key};

use crate::call::{Remap, Value};
use crate::posting::Posting;
use crate::prepared::Prepared;
use crate::seen::{Seen, value_seen};
use bin_entries::{LeanEntries, Room};
use hashkeys::{AsKey, HashKey};
use std::alloc::Allocator;
use std::snapshot::Snapshot;

/// An update: the values before it and, twice, after it, in contracts alone, and what the function
/// answered.
struct Updated<V, T> {
    before: Option<Snapshot<V>>,
    put: Option<Snapshot<V>>,
    after: Option<Snapshot<V>>,
    answer: T,
}

/// Gives the function a value, or none, and tells what it was and what the function left.
#[inline(always)]
fn see<V, T, G: FnOnce(Option<V>) -> (Option<V>, T)>(
    value: Option<V>,
    f: G,
) -> (Option<V>, Updated<V, T>)
    requires { G.IsAlwaysCallable f }
    ensures { IsUpdateSeen (G.post f) value result }
{
    let before = value_seen(value.as_ref());
    let (left, answer) = f(value);
    let put = value_seen(left.as_ref());
    let after = value_seen(left.as_ref());
    (
        left,
        Updated {
            before,
            put,
            after,
            answer,
        },
    )
}

/// Gives the function the value at the key of this hash that this stands for, which is there, and tells
/// what it was and what the function left.
#[inline(always)]
fn update_there<
    K: HashKey,
    V: Drop,
    A: Allocator,
    T,
    G: FnOnce(Option<V>) -> (Option<V>, T),
    Q: AsKey<K>,
>(entries: &mut LeanEntries<K, V, A>, hash: u32, query: Q, f: G) -> Updated<V, T>
where
    G: Drop,
    requires hash { hash ≡ hash_by K.code entries.old.salt (Q.stands_for query) }
    requires of_class { is_of K.code entries.old.salt entries.old.class (Q.stands_for query) ≡ true }
    requires there { is_some (lookup K.eq entries.old.entries (Q.stands_for query)) ≡ true }
    requires callable { G.IsAlwaysCallable f }
    ensures updated { IsUpdated K.eq (IsUpdateSeen (G.post f)) (Q.stands_for query)
        entries.old.entries entries.new.entries result }
    ensures class { entries.new.class ≡ entries.old.class }
    ensures salt { entries.new.salt ≡ entries.old.salt }
{
    let seeing = move |value: Option<V>| -> (Option<V>, Updated<V, T>)
        requires { G.IsAlwaysCallable f }
        ensures { IsUpdateSeen (G.post f) value result }
    { see(value, f) };
    entries.update(hash, query, seeing)
}

/// Gives the function none, for a key of this hash that has no entry, and adds what it returns. Tells
/// what the function left.
#[inline(always)]
fn update_new<K: HashKey, V: Drop, A: Allocator, T, G: FnOnce(Option<V>) -> (Option<V>, T)>(
    entries: &mut LeanEntries<K, V, A>,
    hash: u32,
    key: K,
    room: Room<K, V, A>,
    f: G,
) -> Updated<V, T>
where
    G: Drop,
    requires hash { hash ≡ hash_by K.code entries.old.salt key }
    requires of_class { is_of K.code entries.old.salt entries.old.class key ≡ true }
    requires absent { lookup K.eq entries.old.entries key ≡ None }
    requires room { HasRoom room entries.old.entries }
    requires callable { G.IsAlwaysCallable f }
    ensures updated { IsUpdated K.eq (IsUpdateSeen (G.post f)) key entries.old.entries
        entries.new.entries result }
    ensures class { entries.new.class ≡ entries.old.class }
    ensures salt { entries.new.salt ≡ entries.old.salt }
{
    let (left, updated) = see(None, f);
    match left {
        Some(value) => {
            entries.add(room, hash, key, value);
            updated
        }
        None => updated,
    }
}

/// Gives the function the value at the key that was prepared, or none, and tells what it was and what
/// the function left.
#[inline(always)]
fn update_seen<
    K: HashKey,
    V: Drop,
    A: Allocator,
    T,
    G: FnOnce(Option<V>) -> (Option<V>, T),
    Q: AsKey<K>,
>(
    entries: &mut LeanEntries<K, V, A>,
    hash: u32,
    prepared: Prepared<K, V, A, Q>,
    f: G,
) -> Updated<V, T>
where
    G: Drop,
    requires prepared { HasPlace K.eq Q.stands_for entries.old.entries prepared }
    requires hash { hash ≡ hash_by K.code entries.old.salt (prepared_key Q.stands_for prepared) }
    requires of_class { is_of K.code entries.old.salt entries.old.class
        (prepared_key Q.stands_for prepared) ≡ true }
    requires callable { G.IsAlwaysCallable f }
    ensures updated { IsUpdated K.eq (IsUpdateSeen (G.post f))
        (prepared_key Q.stands_for prepared) entries.old.entries entries.new.entries result }
    ensures class { entries.new.class ≡ entries.old.class }
    ensures salt { entries.new.salt ≡ entries.old.salt }
{
    match prepared {
        Prepared::Sought(query) => update_there(entries, hash, query, f),
        Prepared::New(key, room) => update_new(entries, hash, key, room, f),
    }
}

/// Gives the function the value at the key of this hash that was prepared, or none, as a call of this
/// client, after so many others of it: a put of what the function returns, or a remove for none.
/// Returns what the function answers and what the books need. It takes no memory.
pub fn update_on<
    K: HashKey,
    V: Value,
    F: Remap<K, V>,
    A: Allocator,
    T,
    G: FnOnce(Option<V>) -> (Option<V>, T),
    Q: AsKey<K>,
>(
    entries: &mut LeanEntries<K, V, A>,
    hash: u32,
    prepared: Prepared<K, V, A, Q>,
    f: G,
    client: u32,
    ordinal: u64,
) -> (T, Posting<K, V, F>)
where
    G: Drop,
    requires prepared { HasPlace K.eq Q.stands_for entries.old.entries prepared }
    requires hash { hash ≡ hash_by K.code entries.old.salt (prepared_key Q.stands_for prepared) }
    requires of_class { is_of K.code entries.old.salt entries.old.class
        (prepared_key Q.stands_for prepared) ≡ true }
    requires callable { G.IsAlwaysCallable f }
    ensures made { IsUpdateMade K.eq V.eq F.remapped F.merged (G.post f) client ordinal
        (prepared_key Q.stands_for prepared) entries.old entries.new result.0 result.1 }
    ensures class { entries.new.class ≡ entries.old.class }
    ensures salt { entries.new.salt ≡ entries.old.salt }
{
    let key = prepared.key();
    let updated = update_seen(entries, hash, prepared, f);
    let Updated {
        before,
        put,
        after,
        answer,
    } = updated;
    let seen = Seen::of_update(key, before, put, after);
    (answer, Posting::seen(client, ordinal, seen))
}
