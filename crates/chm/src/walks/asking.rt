//! What a retain asks of those entries of a locked bucket that are of a class. The class is that of the
//! bucket, or of a part of it.
ghost use Rattle.std.specs.Prelude.{◌≡◌, ◌+◌, ◌∷◌, [], List, All, IfNone, IfSome, drop, true, false};
ghost use Rattle.hashkeys.specs.Classes.{is_of};
ghost use Rattle.bin_history.specs.Part.{part_of_entries};
ghost use Rattle.chm.specs.Retained.{HasKeptAll, IsFoundBehind, SaysAt};

use bin_history::Walk;
use hashkeys::{Class, HashKey, Salt};
use part_walks::is_same;
use std::alloc::Allocator;
use std::sync::Wait;

/// The place behind this one. Behind the last of 2^64 it waits for ever; nobody has walked so far.
fn place_behind<R: Wait>(rt: &R, place: u64) -> u64
    ensures { result ≡ place + 1 }
{
    match place.checked_add(1) {
        Some(behind) => behind,
        None => {
            for _ in rt.forever() {}
            unreachable!()
        }
    }
}

/// What is left of a walk behind so many entries.
fn left_behind<'a, K, V, A: Allocator>(walk: Walk<'a, K, V, A>, past: u64) -> Walk<'a, K, V, A>
    ensures { result ≡ drop past walk.entry }
{
    let mut left = walk;
    for _place in 0..past {
        let Some(_entry) = left.next() else {
            return left;
        };
    }
    left
}

/// Whether the key of an entry, which is of a bucket of its own class, is of another class. It is hashed
/// only if the two differ.
#[inline(always)]
fn is_of_class<K: HashKey>(key: &K, salt: Salt, own: Class, class: Class) -> bool
    requires { is_of K.code salt own key.now ≡ true }
    ensures { result ≡ is_of K.code salt class key.now }
{
    if is_same(class, own) {
        return true;
    }
    class.covers(salt.hash_of(key))
}

/// What the function returns for an entry.
#[inline(always)]
fn said_of<K, V, G: FnMut(&K, &V) -> bool>(entry: &(K, V), keeps: &mut G) -> bool
    requires { G.IsAlwaysCallable keeps.old }
    ensures said { SaysAt G.step keeps.old entry.now result keeps.new }
    ensures callable { G.IsAlwaysCallable keeps.new }
{
    keeps(&entry.0, &entry.1)
}

/// Whether an entry, which is of a bucket of its own class, is of another class and the function returns
/// false for it. It is not called for an entry that is not.
#[inline(always)]
fn is_refused<K: HashKey, V, G: FnMut(&K, &V) -> bool>(
    entry: &(K, V),
    salt: Salt,
    own: Class,
    class: Class,
    keeps: &mut G,
) -> bool
    requires own { is_of K.code salt own entry.now.0 ≡ true }
    requires callable { G.IsAlwaysCallable keeps.old }
    ensures of { result ≡ true → is_of K.code salt class entry.now.0 ≡ true }
    ensures said { result ≡ true → SaysAt G.step keeps.old entry.now false keeps.new }
    ensures kept { result ≡ false → HasKeptAll G.step keeps.old
        (part_of_entries (is_of K.code salt class) (entry.now ∷ [])) keeps.new }
    ensures callable { G.IsAlwaysCallable keeps.new }
{
    if !is_of_class(&entry.0, salt, own, class) {
        return false;
    }
    !said_of(entry, keeps)
}

/// Whether, of these entries, which are of a bucket of its own class, one behind so many is of another
/// class.
pub(crate) fn is_left_behind<K: HashKey, V, A: Allocator>(
    walk: Walk<'_, K, V, A>,
    salt: Salt,
    own: Class,
    class: Class,
    past: u64,
) -> bool
    requires own { All (λ e. is_of K.code salt own e.0 ≡ true) walk }
    ensures some { result ≡ true → (e : K × V) × (rest : List (K × V))
        × (part_of_entries (is_of K.code salt class) (drop past walk.entry) ≡ e ∷ rest) }
    ensures none { result ≡ false →
        part_of_entries (is_of K.code salt class) (drop past walk.entry) ≡ [] }
{
    let mut left = left_behind(walk, past);
    while let Some(entry) = left.next() {
        if is_of_class(&entry.0, salt, own, class) {
            return true;
        }
    }
    false
}

/// Calls the function once for each of those of these entries behind so many that are of a class, in
/// order, until it returns false. Returns the entry for which it did, and its place. The entries are
/// of a bucket of its own class.
pub(crate) fn first_refused<'a, K: HashKey, V, A: Allocator, R: Wait, G: FnMut(&K, &V) -> bool>(
    rt: &R,
    walk: Walk<'a, K, V, A>,
    salt: Salt,
    own: Class,
    class: Class,
    past: u64,
    keeps: &mut G,
) -> Option<(u64, &'a (K, V))>
    requires own { All (λ e. is_of K.code salt own e.0 ≡ true) walk }
    requires callable { G.IsAlwaysCallable keeps.old }
    ensures found { IfSome result (λ r. IsFoundBehind G.step (is_of K.code salt class) keeps.old keeps.new
        past r.0 (drop past walk.entry) r.1.now) }
    ensures none { IfNone result (HasKeptAll G.step keeps.old
        (part_of_entries (is_of K.code salt class) (drop past walk.entry)) keeps.new) }
    ensures callable { G.IsAlwaysCallable keeps.new }
{
    let mut left = left_behind(walk, past);
    let mut place = past;
    while let Some(entry) = left.next() {
        if is_refused(entry, salt, own, class, keeps) {
            return Some((place, entry));
        }
        place = place_behind(rt, place);
    }
    None
}
