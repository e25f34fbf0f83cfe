//! Maps at the program's keys, and calls on them.
ghost use Rattle.std.specs.Prelude.{◌≡◌, ◌<◌, ◌≤◌, true, [], All, IfOk, length};
ghost use Rattle.hashkeys.specs.Classes.{IsTableSize, covers};
ghost use Rattle.bin_history.specs.Calls.{after};
ghost use Rattle.bin_history.specs.Hashes.{hash_by};
ghost use Rattle.bin_history.specs.Ops.{key_in};
ghost use Rattle.count_ledger.specs.Limits.{most_calls};
ghost use Rattle.lean_bins.specs.BinSlot.{IsInSlot};
ghost use Rattle.bin_layout.specs.Views.{place_of};

use crate::calls::{KeyLedger, KeyPass, make, no_bases};
use bin_history::{Form, KeyArg, Op, Remap, Value, lawful_entries};
use count_ledger::{Ledger, Pass, retire_all};
use hashkeys::{Class, HashKey, Key, Salt};
use lean_bins::{BinSlot, LeanBins};
use std::alloc::{AllocError, Allocator};
use std::process::Abort;
use std::sync::Wait;
use test_helpers::Keep;

pub(crate) type KeyMap<A> = LeanBins<Key, u64, Keep, A>;

/// A map without entries, its ledger, and the passes of its clients.
pub(crate) struct Opened<A: Allocator> {
    pub(crate) map: KeyMap<A>,
    pub(crate) ledger: KeyLedger<A>,
    pub(crate) passes: Vec<KeyPass, A>,
}

/// A map without entries, its ledger, and the pass of its one client.
pub(crate) struct Single<A: Allocator> {
    pub(crate) map: KeyMap<A>,
    pub(crate) ledger: KeyLedger<A>,
    pub(crate) pass: KeyPass,
}

pub(crate) fn open<A: Allocator + Clone>(
    alloc: A,
    salt: Salt,
    n: u32,
    clients: u32,
) -> Result<Opened<A>, AllocError>
    requires size { IsTableSize n }
    requires some { 0 < clients }
    requires at_most { clients ≤ 32 }
    ensures map { IfOk result (λ o. o.map.n ≡ n) }
    ensures ledger { IfOk result (λ o. o.map.ledger ≡ o.ledger.id) }
    ensures passes { IfOk result (λ o. All (λ p. p.ledger ≡ o.ledger.id) o.passes.items) }
{
    let bases = no_bases(alloc.clone()?, n)?;
    let for_map = alloc.clone()?;
    let (ledger, passes, roles) = Ledger::new(alloc, Form::Lean, salt, clients, &bases)?;
    match LeanBins::new(for_map, salt, n, bases, roles) {
        Ok(map) => Ok(Opened {
            map,
            ledger,
            passes,
        }),
        Err(error) => {
            retire_all(passes);
            Err(error)
        }
    }
}

pub(crate) fn open_single<A: Allocator + Clone>(
    rt: &impl Abort,
    alloc: A,
    salt: Salt,
    n: u32,
) -> Result<Single<A>, AllocError>
    requires { IsTableSize n }
    ensures map { IfOk result (λ s. s.map.n ≡ n) }
    ensures ledger { IfOk result (λ s. s.map.ledger ≡ s.ledger.id) }
    ensures pass { IfOk result (λ s. s.pass.ledger ≡ s.ledger.id) }
{
    let Opened {
        map,
        ledger,
        mut passes,
    } = open(alloc, salt, n, 1)?;
    let pass = passes.pop().expect(rt, "a pass");
    retire_all(passes);
    Ok(Single { map, ledger, pass })
}

/// A map without entries that nobody calls, and its ledger.
pub(crate) fn open_quiet<A: Allocator + Clone>(
    alloc: A,
    n: u32,
) -> Result<(KeyMap<A>, KeyLedger<A>), AllocError>
    requires { IsTableSize n }
    ensures map { IfOk result (λ m. m.0.n ≡ n) }
    ensures ledger { IfOk result (λ m. m.0.ledger ≡ m.1.id) }
{
    let Opened {
        map,
        ledger,
        passes,
    } = open(alloc, Salt(0), n, 1)?;
    retire_all(passes);
    Ok((map, ledger))
}

/// A map without entries and its ledger, made with memory.
pub(crate) fn quiet<A: Allocator + Clone>(
    rt: &impl Abort,
    alloc: A,
    n: u32,
) -> (KeyMap<A>, KeyLedger<A>)
    requires { IsTableSize n }
    ensures map { result.0.n ≡ n }
    ensures ledger { result.0.ledger ≡ result.1.id }
{
    open_quiet(alloc, n).expect(rt, "memory")
}

/// The class of the bin of the hash, as it is held.
pub(crate) fn class_at<R: Wait, A: Allocator + Clone>(rt: &R, map: &KeyMap<A>, hash: u32) -> Class {
    let held = map.hold(rt, hash);
    let class = held.bin.class();
    held.release();
    class
}

/// Puts 0 at a key of the map.
pub(crate) fn put<R: Wait + Abort, A: Allocator + Clone>(
    rt: &R,
    alloc: &A,
    map: &KeyMap<A>,
    ledger: &KeyLedger<A>,
    pass: &mut KeyPass,
    text: &[u8],
)
    requires ledger { map.now.ledger ≡ ledger.now.id }
    requires pass { pass.old.ledger ≡ ledger.now.id }
    ensures { pass.new.ledger ≡ ledger.now.id }
{
    let key = Key::read(text).expect(rt, "a key");
    assert!(rt; pass.made() < ledger.most_calls());
    assert!(rt; pass.made() < 1 << 48);
    let mut held = map.hold(rt, map.salt().hash_of(&key));
    let lent = &mut held;
    let bin = &mut lent.bin;
    let result = make(alloc, ledger, pass, bin, &mut lent.role, key, Op::Put(0));
    held.release();
    result.expect(rt, "memory");
}

/// Makes a call on a key of this hash in the bin of the class, which lies there with its role.
fn make_in_place<K: HashKey, V: Value, F: Remap<K, V>, A: Allocator + Clone>(
    alloc: &A,
    map: &LeanBins<K, V, F, A>,
    ledger: &Ledger<K, V, F, A>,
    pass: &mut Pass<K, V, F>,
    bin_slot: &mut BinSlot<K, V, F, A>,
    class: Class,
    hash: u32,
    key: KeyArg<'_, K>,
    op: Op<V, F>,
) -> Result<(), AllocError>
    requires pass { pass.old.ledger ≡ ledger.now.id }
    requires ledger { map.now.ledger ≡ ledger.now.id }
    requires room { length pass.old.made < most_calls ledger.now.form ledger.now.clients }
    requires hash { hash ≡ hash_by K.code map.now.salt (key_in key) }
    requires covers { covers class hash ≡ true }
    requires lies { IsInSlot K.eq (after V.eq F.remapped F.merged) (place_of map.now class) bin_slot.old }
    ensures pass { pass.new.ledger ≡ ledger.now.id }
    ensures lies { IsInSlot K.eq (after V.eq F.remapped F.merged) (place_of map.now class) bin_slot.new }
{
    lawful_entries::<K, V, F, A>(&bin_slot.entries);
    let (_, trace) = op.make_on(
        &mut bin_slot.entries,
        alloc,
        hash,
        key,
        pass.client(),
        pass.made(),
    )?;
    let mut role = bin_slot.take_role(class);
    ledger.post_trace(pass, &mut role, &trace);
    bin_slot.put_role(role);
    Ok(())
}

/// Makes a call in the bin of its key, where that lies.
fn call_in_place<'a, R: Wait, K: HashKey, V: Value, F: Remap<K, V>, A: Allocator + Clone>(
    rt: &R,
    alloc: &A,
    map: &'a LeanBins<K, V, F, A>,
    ledger: &Ledger<K, V, F, A>,
    pass: &mut Pass<K, V, F>,
    key: K,
    op: Op<V, F>,
) -> Result<(), AllocError>
    requires pass { pass.old.ledger ≡ ledger.now.id }
    requires ledger { map.now.ledger ≡ ledger.now.id }
    requires room { length pass.old.made < most_calls ledger.now.form ledger.now.clients }
    ensures pass { pass.new.ledger ≡ ledger.now.id }
{
    let hash = map.salt().hash_of(&key);
    let mut held = map.hold_in_place(rt, hash);
    let class = held.class;
    let key: KeyArg<'a, K> = KeyArg::Owned(key);
    let made = make_in_place(
        alloc,
        map,
        ledger,
        pass,
        held.inner.value(),
        class,
        hash,
        key,
        op,
    );
    held.release();
    made
}

/// Puts 0 at a key of the map, in its bin where that lies.
pub(crate) fn put_in_place<R: Wait + Abort, A: Allocator + Clone>(
    rt: &R,
    alloc: &A,
    map: &KeyMap<A>,
    ledger: &KeyLedger<A>,
    pass: &mut KeyPass,
    text: &[u8],
)
    requires ledger { map.now.ledger ≡ ledger.now.id }
    requires pass { pass.old.ledger ≡ ledger.now.id }
    ensures { pass.new.ledger ≡ ledger.now.id }
{
    let key = Key::read(text).expect(rt, "a key");
    assert!(rt; pass.made() < ledger.most_calls());
    let result = call_in_place(rt, alloc, map, ledger, pass, key, Op::Put(0));
    result.expect(rt, "memory");
}
