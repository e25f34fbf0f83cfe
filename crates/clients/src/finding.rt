//! A client looks for a value.
ghost use Rattle.std.specs.Prelude.{◌≡◌, true, false};
ghost use Rattle.std.specs.List.{list_any};
ghost use Rattle.bin_history.specs.Calls.{after};
ghost use Rattle.count_ledger.specs.Fronts.{HasSeenMore};
ghost use Rattle.clients.specs.Folds.{WalksOver};
ghost use Rattle.clients.specs.Found.{ShowsSome};

use crate::client::ClientOf;
use crate::holder::{Holder, Seat};
use bin_history::{Remap, Value};
use chm::{Map, PartWalk, Pass, Taker};
use hashkeys::HashKey;
use std::alloc::Allocator;
use std::sync::Wait;

/// Whether some entry has this value.
#[derive(Drop)]
struct Finding<'a, V> {
    value: &'a V,
}

impl<K, V: Value> Taker<K, V> for Finding<'_, V> {
    ghost use Rattle.std.specs.Prelude.{◌≡◌};
    ghost use Rattle.std.specs.List.{list_any};

    type Part = bool;

    ghost reached = { λ f es found. found ≡ list_any (λ e. V.eq e.1 f.value.now) es };

    fn add(&self, part: bool, _key: &K, value: &V) -> bool {
        part || *value == *self.value
    }
}

/// Walks where the entries lie, and stops behind the first bucket that has the value.
fn find_value<K: HashKey, V: Value, F: Remap<K, V>, A: Allocator + Clone, R: Wait>(
    rt: &R,
    map: &Map<K, V, F, A>,
    pass: &mut Pass<K, V, F>,
    value: &V,
) -> bool
    requires pass { pass.old.ledger ≡ map.now.ledger.id }
    ensures found { result ≡ true → ShowsSome K.eq K.code (after V.eq F.remapped F.merged) map.now
        pass.old pass.new (λ pairs. list_any (λ e. V.eq e.1 value.now) pairs ≡ true) }
    ensures none { result ≡ false → WalksOver K.eq K.code (after V.eq F.remapped F.merged) map.now
        pass.old pass.new (λ pairs. list_any (λ e. V.eq e.1 value.now) pairs ≡ false) }
    ensures seen { HasSeenMore pass.old pass.new }
{
    let n = map.table_size();
    let mut walk = PartWalk::new(n, 0, n);
    let finding = Finding { value };
    for _ in rt.forever() {
        if walk.is_at_end() {
            return false;
        }
        if map.show_part(rt, pass, &mut walk, &finding, false) {
            return true;
        }
    }
    unreachable!()
}

impl<H: Holder<K, V, F, A>, K: HashKey, V: Value, F: Remap<K, V>, A: Allocator + Clone> ClientOf<
    H,
    K,
    V,
    F,
    A,
> {
    /// Returns whether some key has the value. It walks over the buckets, shows each entry where it
    /// lies, as all calls before had left the bucket, and stops behind the first bucket that has the
    /// value. While other threads make calls, false does not say that the value was nowhere at one
    /// moment: a key may get it in a bucket that the walk had left.
    ///
    /// It waits for each bucket in turn, which is locked while its values are compared, and takes time
    /// linear in the buckets and the entries. Nothing is copied, posted or allocated, so nothing can
    /// fail.
    ///
    ///     client.put(rt, 1, 5)?;
    ///     assert!(client.contains_value(rt, &5));
    ///     assert!(!client.contains_value(rt, &6));
    pub fn contains_value<R: Wait>(&mut self, rt: &R, value: &V) -> bool
        ensures found { result ≡ true → ShowsSome K.eq K.code (after V.eq F.remapped F.merged)
            self.old.map self.old.pass self.new.pass
            (λ pairs. list_any (λ e. V.eq e.1 value.now) pairs ≡ true) }
        ensures none { result ≡ false → WalksOver K.eq K.code (after V.eq F.remapped F.merged)
            self.old.map self.old.pass self.new.pass
            (λ pairs. list_any (λ e. V.eq e.1 value.now) pairs ≡ false) }
        ensures seen { HasSeenMore self.old.pass self.new.pass }
        ensures map { self.new.map ≡ self.old.map }
    {
        find_value(rt, self.holder.map(), self.seat.pass_mut(), value)
    }
}
