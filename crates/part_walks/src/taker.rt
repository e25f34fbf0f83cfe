//! What takes entries one after the other.
ghost use Rattle.std.specs.Prelude.{◌≡◌, ◌++◌, ◌∷◌, [], List, All, true};
ghost use Rattle.hashkeys.specs.Classes.{is_of};
ghost use Rattle.bin_history.specs.Part.{part_of_entries};

use bin_history::Walk;
use hashkeys::{Class, HashKey, Salt};
use std::alloc::Allocator;

/// What takes entries one after the other, and has come to some part after each.
pub trait Taker<K, V> {
    ghost use Rattle.std.specs.Prelude.{List, ◌++◌, ◌∷◌, []};

    /// What it comes to.
    type Part: Drop;

    // Of the entries of a list, in order.
    ghost reached: { Self → List (K × V) → Self.Part → Type 0 };

    /// The part with one entry more.
    fn add(&self, part: Self::Part, key: &K, value: &V) -> Self::Part
        requires { (es : List (K × V)) × reached self.now es part }
        ensures { (es : List (K × V)) → reached self.now es part →
            reached self.now (es ++ (key.now, value.now) ∷ []) result };
}

/// Adds all entries of a bucket.
#[inline(always)]
fn add_all<K, V, A: Allocator, T: Taker<K, V>>(
    taker: &T,
    part: T::Part,
    walk: Walk<'_, K, V, A>,
) -> T::Part
    requires { (es : List (K × V)) × T.reached taker.now es part }
    ensures { (es : List (K × V)) → T.reached taker.now es part →
        T.reached taker.now (es ++ walk.entry) result }
{
    let mut part = part;
    for (key, value) in walk {
        part = taker.add(part, key, value);
    }
    part
}

/// Adds those entries of a bucket whose keys are of a class. Each key is hashed.
#[inline(always)]
fn add_some<K: HashKey, V, A: Allocator, T: Taker<K, V>>(
    taker: &T,
    part: T::Part,
    walk: Walk<'_, K, V, A>,
    salt: Salt,
    class: Class,
) -> T::Part
    requires { (es : List (K × V)) × T.reached taker.now es part }
    ensures { (es : List (K × V)) → T.reached taker.now es part → T.reached taker.now
        (es ++ part_of_entries (is_of K.code salt class) walk.entry) result }
{
    let mut part = part;
    for (key, value) in walk {
        if class.covers(salt.hash_of(key)) {
            part = taker.add(part, key, value);
        }
    }
    part
}

/// Returns whether the two are one class.
pub fn is_same(class: Class, other: Class) -> bool
    ensures of { result ≡ true → class ≡ other }
    ensures told { class ≡ other → result ≡ true }
{
    class.n() == other.n() && class.index() == other.index()
}

/// Adds those entries of a bucket of its own class whose keys are of another one, in order. The keys
/// are hashed only if the two classes differ.
#[inline(always)]
pub fn show_entries<K: HashKey, V, A: Allocator, T: Taker<K, V>>(
    taker: &T,
    part: T::Part,
    walk: Walk<'_, K, V, A>,
    salt: Salt,
    own: Class,
    class: Class,
) -> T::Part
    requires own { All (λ e. is_of K.code salt own e.0 ≡ true) walk }
    requires part { (es : List (K × V)) × T.reached taker.now es part }
    ensures { (es : List (K × V)) → T.reached taker.now es part → T.reached taker.now
        (es ++ part_of_entries (is_of K.code salt class) walk.entry) result }
{
    if is_same(class, own) {
        return add_all(taker, part, walk);
    }
    add_some(taker, part, walk, salt, class)
}
