//! What a walk does with those entries of a locked bucket that are of a class. The class is that of
//! the bucket, or of a part of it.
ghost use Rattle.std.specs.Prelude.{◌≡◌, ◌++◌, List, All, IfOk, true};
ghost use Rattle.std.specs.List.{FoldsTo};
ghost use Rattle.hashkeys.specs.Classes.{is_of};
ghost use Rattle.bin_history.specs.Part.{part_of_entries};
ghost use Rattle.chm.specs.Cursors.{IsUsedAt};

use bin_history::{Bin, LeanEntries, Remap, Value, Walk};
use hashkeys::{Class, HashKey, Salt};
use part_walks::{Taker, is_same, show_entries};
use std::alloc::{AllocError, Allocator};

/// Copies those of these entries whose keys are of a class, in order. Each key is hashed.
fn copies_of_some<K: HashKey, V: Value, A: Allocator + Clone>(
    alloc: &A,
    walk: Walk<'_, K, V, A>,
    salt: Salt,
    class: Class,
) -> Result<Vec<(K, V), A>, AllocError>
    ensures { IfOk result (λ copies. copies.items
        ≡ part_of_entries (is_of K.code salt class) walk.entry) }
{
    let mut copies = Vec::new(alloc.clone()?);
    for (key, value) in walk {
        if class.covers(salt.hash_of(key)) {
            let copied_key = key.clone()?;
            let copied_value = value.clone()?;
            copies.push((copied_key, copied_value))?;
        }
    }
    Ok(copies)
}

/// Copies those entries of a bucket whose keys are of a class, in order.
pub(crate) fn copies_of_class<K: HashKey, V: Value, F: Remap<K, V>, A: Allocator + Clone>(
    alloc: &A,
    bin: &Bin<K, V, F, A>,
    class: Class,
) -> Result<Vec<(K, V), A>, AllocError>
    ensures { IfOk result (λ copies. copies.items
        ≡ part_of_entries (is_of K.code bin.now.salt class) bin.now.entries) }
{
    bin.lawful();
    if is_same(class, bin.class()) {
        return bin.copy_entries(alloc);
    }
    copies_of_some(alloc, bin.walk(), bin.salt(), class)
}

/// Copies those entries of a lean bucket of its own class whose keys are of another one, in order.
/// The keys are hashed only if the two classes differ.
#[inline(always)]
pub(crate) fn copies_of_entries<K: HashKey, V: Value, A: Allocator + Clone>(
    alloc: &A,
    entries: &LeanEntries<K, V, A>,
    salt: Salt,
    own: Class,
    class: Class,
) -> Result<Vec<(K, V), A>, AllocError>
    requires own { All (λ e. is_of K.code salt own e.0 ≡ true) entries.now.entries }
    ensures { IfOk result (λ copies. copies.items
        ≡ part_of_entries (is_of K.code salt class) entries.now.entries) }
{
    if is_same(class, own) {
        return entries.copies(alloc.clone()?);
    }
    copies_of_some(alloc, entries.walk(), salt, class)
}

/// Gives the function each of these entries, in order.
#[inline(always)]
fn use_at_each<K, V, A: Allocator, G: FnMut(&K, &V)>(walk: Walk<'_, K, V, A>, f: &mut G)
    requires { G.IsAlwaysCallable f.old }
    ensures used { FoldsTo (IsUsedAt G.step) f.old walk.entry f.new }
    ensures callable { G.IsAlwaysCallable f.new }
{
    let mut left = walk;
    while let Some(entry) = left.next() {
        f(&entry.0, &entry.1);
    }
}

/// Gives the function those of these entries whose keys are of a class, in order. Each key is hashed.
#[inline(always)]
fn use_at_some<K: HashKey, V, A: Allocator, G: FnMut(&K, &V)>(
    walk: Walk<'_, K, V, A>,
    salt: Salt,
    class: Class,
    f: &mut G,
)
    requires { G.IsAlwaysCallable f.old }
    ensures used { FoldsTo (IsUsedAt G.step) f.old
        (part_of_entries (is_of K.code salt class) walk.entry) f.new }
    ensures callable { G.IsAlwaysCallable f.new }
{
    let mut left = walk;
    while let Some(entry) = left.next() {
        if class.covers(salt.hash_of(&entry.0)) {
            f(&entry.0, &entry.1);
        }
    }
}

/// Gives the function those entries of a bucket of its own class whose keys are of another one, in
/// order. The keys are hashed only if the two classes differ.
#[inline(always)]
pub(crate) fn use_at_class<K: HashKey, V, A: Allocator, G: FnMut(&K, &V)>(
    walk: Walk<'_, K, V, A>,
    salt: Salt,
    own: Class,
    class: Class,
    f: &mut G,
)
    requires own { All (λ e. is_of K.code salt own e.0 ≡ true) walk }
    requires callable { G.IsAlwaysCallable f.old }
    ensures used { FoldsTo (IsUsedAt G.step) f.old
        (part_of_entries (is_of K.code salt class) walk.entry) f.new }
    ensures callable { G.IsAlwaysCallable f.new }
{
    if is_same(class, own) {
        use_at_each(walk, f);
    } else {
        use_at_some(walk, salt, class, f);
    }
}

/// Gives the function those entries of a bucket whose keys are of a class, in order.
pub(crate) fn use_at_bin<
    K: HashKey,
    V: Value,
    F: Remap<K, V>,
    A: Allocator + Clone,
    G: FnMut(&K, &V),
>(bin: &Bin<K, V, F, A>, class: Class, f: &mut G)
    requires { G.IsAlwaysCallable f.old }
    ensures used { FoldsTo (IsUsedAt G.step) f.old
        (part_of_entries (is_of K.code bin.now.salt class) bin.now.entries) f.new }
    ensures callable { G.IsAlwaysCallable f.new }
{
    bin.lawful();
    use_at_class(bin.walk(), bin.salt(), bin.class(), class, f);
}

/// Gives the taker those entries of a bucket whose keys are of a class, in order.
pub(crate) fn add_of_bin<
    K: HashKey,
    V: Value,
    F: Remap<K, V>,
    A: Allocator + Clone,
    T: Taker<K, V>,
>(taker: &T, part: T::Part, bin: &Bin<K, V, F, A>, class: Class) -> T::Part
    requires { (es : List (K × V)) × T.reached taker.now es part }
    ensures { (es : List (K × V)) → T.reached taker.now es part → T.reached taker.now
        (es ++ part_of_entries (is_of K.code bin.now.salt class) bin.now.entries) result }
{
    bin.lawful();
    show_entries(taker, part, bin.walk(), bin.salt(), bin.class(), class)
}
