//! Values that a function changes where they lie, in a lean bin.
ghost use Rattle.std.specs.Prelude.{◌≡◌, true};
ghost use Rattle.std.specs.Fn.{FnOnceReturnsAtMut};
ghost use Rattle.hashkeys.specs.Classes.{is_of};
ghost use Rattle.bin_history.specs.Hashes.{hash_by};
ghost use Rattle.bin_history.specs.InPlace.{IsChangeMade, IsSeenChange};

use crate::call::{Remap, Value};
use crate::posting::Posting;
use crate::seen::Seen;
use bin_entries::LeanEntries;
use hashkeys::{AsKey, HashKey};
use std::alloc::Allocator;
use std::snapshot::Snapshot;

/// A change: the value before it, twice the one after it, in contracts alone, and what the function
/// returned.
struct Changed<V, T> {
    before: Snapshot<V>,
    put: Snapshot<V>,
    after: Snapshot<V>,
    answer: T,
}

/// Lends the function a value, and tells what it was and what it is.
#[inline(always)]
fn see<V, T, G: FnOnce(&mut V) -> T>(value: &mut V, f: G) -> Changed<V, T>
where
    G: Drop,
    requires { G.IsAlwaysCallable f }
    ensures before { result.before.value ≡ value.old }
    ensures put { result.put.value ≡ value.new }
    ensures after { result.after.value ≡ value.new }
    ensures met { FnOnceReturnsAtMut G.FnOnce f value.old result.answer value.new }
{
    let before = Snapshot::of(value);
    let answer = f(value);
    Changed {
        before,
        put: Snapshot::of(value),
        after: Snapshot::of(value),
        answer,
    }
}

/// Lends the function the value at the key of this hash that this stands for, if it is there, and
/// tells what it was and what it is.
#[inline(always)]
fn change_seen<K: HashKey, V: Drop, A: Allocator, T, G: FnOnce(&mut V) -> T, Q: AsKey<K>>(
    entries: &mut LeanEntries<K, V, A>,
    hash: u32,
    query: Q,
    f: G,
) -> Option<Changed<V, T>>
where
    G: Drop,
    requires hash { hash ≡ hash_by K.code entries.old.salt (Q.stands_for query) }
    requires of_class { is_of K.code entries.old.salt entries.old.class (Q.stands_for query) ≡ true }
    requires callable { G.IsAlwaysCallable f }
    ensures changed { IsSeenChange K.eq (FnOnceReturnsAtMut G.FnOnce f) (Q.stands_for query)
        entries.old.entries entries.new.entries result }
    ensures class { entries.new.class ≡ entries.old.class }
    ensures salt { entries.new.salt ≡ entries.old.salt }
{
    let seeing = move |value: &mut V| -> Changed<V, T>
        requires { G.IsAlwaysCallable f }
        ensures before { result.before.value ≡ value.old }
        ensures put { result.put.value ≡ value.new }
        ensures after { result.after.value ≡ value.new }
        ensures met { FnOnceReturnsAtMut G.FnOnce f value.old result.answer value.new }
    { see(value, f) };
    entries.change(hash, query, seeing)
}

/// Lends the function the value at the key of this hash that this stands for, if it is there, where it
/// lies, as a call of this client, after so many others of it. Returns what the function returns and what the books
/// need. It takes no memory.
#[inline(always)]
pub fn change_on<
    K: HashKey,
    V: Value,
    F: Remap<K, V>,
    A: Allocator,
    T,
    G: FnOnce(&mut V) -> T,
    Q: AsKey<K>,
>(
    entries: &mut LeanEntries<K, V, A>,
    hash: u32,
    query: Q,
    f: G,
    client: u32,
    ordinal: u64,
) -> (Option<T>, Posting<K, V, F>)
where
    G: Drop,
    requires hash { hash ≡ hash_by K.code entries.old.salt (Q.stands_for query) }
    requires of_class { is_of K.code entries.old.salt entries.old.class (Q.stands_for query) ≡ true }
    requires callable { G.IsAlwaysCallable f }
    ensures made { IsChangeMade K.eq V.eq F.remapped F.merged (FnOnceReturnsAtMut G.FnOnce f) client
        ordinal (Q.stands_for query) entries.old entries.new result.0 result.1 }
    ensures class { entries.new.class ≡ entries.old.class }
    ensures salt { entries.new.salt ≡ entries.old.salt }
{
    match change_seen(entries, hash, query, f) {
        Some(changed) => {
            let Changed {
                before,
                put,
                after,
                answer,
            } = changed;
            let seen = Seen::of_change(query, before, put, after);
            (Some(answer), Posting::seen(client, ordinal, seen))
        }
        None => {
            let seen = Seen::of_absent(query);
            (None, Posting::seen(client, ordinal, seen))
        }
    }
}
