//! The tests' keys, ledgers and bins, and calls on a bin.
ghost use Rattle.std.specs.Prelude.{◌≡◌, ◌<◌, ◌^◌, true, [], All, IfOk, length};
ghost use Rattle.hashkeys.specs.Classes.{is_of};
ghost use Rattle.bin_history.specs.Calls.{after};
ghost use Rattle.count_ledger.specs.Agreement.{BinAgrees};
ghost use Rattle.count_ledger.specs.Limits.{most_calls};

use bin_history::{Bin, KeyArg, Op, Remap, Value};
use bin_layout::Moved;
use count_ledger::{BinRole, Ledger, Pass};
use hashkeys::{HashKey, Key};
use std::alloc::{AllocError, Allocator};
use std::fmt::Debug;
use std::process::Abort;
use test_helpers::Keep;

/// Asserts that what was found is what is wanted. A call of it is one step of the caller, which
/// goes on as it is.
pub(crate) fn assert_same<T: PartialEq + Debug>(rt: &impl Abort, found: &T, wanted: &T) {
    assert_eq!(rt; found, wanted);
}

/// Asserts that one of two moved a class, and the other found it moved already.
pub(crate) fn assert_moved_once(rt: &impl Abort, one: Moved, other: Moved) {
    let is_once = match (one, other) {
        (Moved::Yes, Moved::Already) | (Moved::Already, Moved::Yes) => true,
        _ => false,
    };
    assert_same(rt, &is_once, &true);
}

/// Asserts that each pass made so many calls.
pub(crate) fn assert_all_made(rt: &impl Abort, passes: &[KeyPass], calls: u64) {
    for pass in passes {
        assert_same(rt, &pass.made(), &calls);
    }
}

pub(crate) type KeyLedger<A> = Ledger<Key, u64, Keep, A>;

pub(crate) type KeyPass = Pass<Key, u64, Keep>;

pub(crate) type KeyRole = BinRole<Key, u64, Keep>;

pub(crate) type KeyBin<A> = Bin<Key, u64, Keep, A>;

/// A key of each class of 8, in the classes' order.
pub(crate) const TEXTS: [&[u8]; 8] = [b"h", b"a", b"b", b"c", b"d", b"e", b"f", b"g"];

/// So many bases without pairs.
pub(crate) fn no_bases<A: Allocator + Clone>(
    alloc: A,
    n: u32,
) -> Result<Vec<Vec<(Key, u64), A>, A>, AllocError>
    ensures count { IfOk result (λ bases. length bases.items ≡ n) }
    ensures empty { IfOk result (λ bases. All (λ base. base.items ≡ []) bases.items) }
{
    let mut bases = Vec::with_capacity(alloc.clone()?, n as usize)?;
    for _index in 0..n {
        bases.push_reserved(Vec::new(alloc.clone()?));
    }
    Ok(bases)
}

/// Makes a call on a key of the bin's class, as the next of the pass's client.
pub(crate) fn make<'a, K: HashKey, V: Value, F: Remap<K, V>, A: Allocator + Clone>(
    alloc: &A,
    ledger: &Ledger<K, V, F, A>,
    pass: &mut Pass<K, V, F>,
    bin: &'a mut Bin<K, V, F, A>,
    role: &mut BinRole<K, V, F>,
    key: K,
    op: Op<V, F>,
) -> Result<(), AllocError>
    requires pass { pass.old.ledger ≡ ledger.now.id }
    requires role { role.old.ledger ≡ ledger.now.id }
    requires room { length pass.old.made < most_calls ledger.now.form ledger.now.clients }
    requires short { length pass.old.made < 2 ^ 48 }
    requires key { is_of K.code bin.old.salt bin.old.class key ≡ true }
    requires agree { BinAgrees K.eq (after V.eq F.remapped F.merged) bin.old role.old }
    ensures pass { pass.new.ledger ≡ ledger.now.id }
    ensures role { role.new.ledger ≡ ledger.now.id }
    ensures agree { BinAgrees K.eq (after V.eq F.remapped F.merged) bin.new role.new }
    ensures form { bin.new.form ≡ bin.old.form }
    ensures class { bin.new.class ≡ bin.old.class }
    ensures salt { bin.new.salt ≡ bin.old.salt }
{
    bin.lawful();
    let hash = bin.salt().hash_of(&key);
    let (client, ordinal) = (pass.client(), pass.made());
    let key: KeyArg<'a, K> = KeyArg::Owned(key);
    let (_, trace) = bin.make_on(alloc, hash, key, op, client, ordinal)?;
    ledger.post_trace(pass, role, &trace);
    Ok(())
}

/// How many entries a bin has, up to 9.
pub(crate) fn count_of<A: Allocator + Clone>(bin: &KeyBin<A>) -> usize {
    let mut walk = bin.walk();
    for count in 0..9 {
        if walk.next().is_none() {
            return count;
        }
    }
    9
}

/// The value that a bin has at a key.
pub(crate) fn value_in<A: Allocator + Clone>(bin: &KeyBin<A>, key: &Key) -> Option<u64> {
    bin.get(bin.salt().hash_of(key), key).copied()
}
