//! Maps at the program's keys, and calls on them.
ghost use Rattle.std.specs.Prelude.{◌≡◌, ◌<◌, ◌≤◌, [], All, IfOk};
ghost use Rattle.hashkeys.specs.Classes.{IsTableSize};

use crate::calls::{KeyLedger, KeyPass, make, no_bases};
use bin_history::{Form, Op};
use count_ledger::{Ledger, retire_all};
use generations::Generations;
use hashkeys::{Class, Key, Salt};
use std::alloc::{AllocError, Allocator};
use std::process::Abort;
use std::sync::Wait;
use test_helpers::Keep;

pub(crate) type KeyMap<A> = Generations<Key, u64, Keep, A>;

/// A map without entries, its ledger, and the passes of its clients.
pub(crate) struct Opened<A: Allocator> {
    pub(crate) map: KeyMap<A>,
    pub(crate) ledger: KeyLedger<A>,
    pub(crate) passes: Vec<KeyPass, A>,
}

/// A map without entries, its ledger, and the pass of its one client.
pub(crate) struct Single<A: Allocator> {
    pub(crate) map: KeyMap<A>,
    pub(crate) ledger: KeyLedger<A>,
    pub(crate) pass: KeyPass,
}

pub(crate) fn open<A: Allocator + Clone>(
    alloc: A,
    form: Form,
    salt: Salt,
    n: u32,
    clients: u32,
) -> Result<Opened<A>, AllocError>
    requires size { IsTableSize n }
    requires some { 0 < clients }
    requires at_most { clients ≤ 32 }
    ensures map { IfOk result (λ o. o.map.n ≡ n) }
    ensures ledger { IfOk result (λ o. o.map.ledger ≡ o.ledger.id) }
    ensures passes { IfOk result (λ o. All (λ p. p.ledger ≡ o.ledger.id) o.passes.items) }
{
    let bases = no_bases(alloc.clone()?, n)?;
    let for_map = alloc.clone()?;
    let (ledger, passes, roles) = Ledger::new(alloc, form, salt, clients, &bases)?;
    match Generations::new(for_map, form, salt, n, bases, roles) {
        Ok(map) => Ok(Opened {
            map,
            ledger,
            passes,
        }),
        Err(error) => {
            retire_all(passes);
            Err(error)
        }
    }
}

pub(crate) fn open_single<A: Allocator + Clone>(
    rt: &impl Abort,
    alloc: A,
    form: Form,
    salt: Salt,
    n: u32,
) -> Result<Single<A>, AllocError>
    requires { IsTableSize n }
    ensures map { IfOk result (λ s. s.map.n ≡ n) }
    ensures ledger { IfOk result (λ s. s.map.ledger ≡ s.ledger.id) }
    ensures pass { IfOk result (λ s. s.pass.ledger ≡ s.ledger.id) }
{
    let Opened {
        map,
        ledger,
        mut passes,
    } = open(alloc, form, salt, n, 1)?;
    let pass = passes.pop().expect(rt, "a pass");
    retire_all(passes);
    Ok(Single { map, ledger, pass })
}

/// A map without entries and its ledger; the pass of its one client has ended.
pub(crate) fn open_quiet<A: Allocator + Clone>(
    alloc: A,
    form: Form,
    n: u32,
) -> Result<(KeyMap<A>, KeyLedger<A>), AllocError>
    requires { IsTableSize n }
    ensures map { IfOk result (λ m. m.0.n ≡ n) }
    ensures ledger { IfOk result (λ m. m.0.ledger ≡ m.1.id) }
{
    let Opened {
        map,
        ledger,
        passes,
    } = open(alloc, form, Salt(0), n, 1)?;
    retire_all(passes);
    Ok((map, ledger))
}

/// A map without entries and its ledger, made with memory.
pub(crate) fn quiet<A: Allocator + Clone>(
    rt: &impl Abort,
    alloc: A,
    form: Form,
    n: u32,
) -> (KeyMap<A>, KeyLedger<A>)
    requires { IsTableSize n }
    ensures map { result.0.n ≡ n }
    ensures ledger { result.0.ledger ≡ result.1.id }
{
    open_quiet(alloc, form, n).expect(rt, "memory")
}

/// A map in which `a` has the value 0, and its ledger; the pass of its one client has ended.
pub(crate) fn with_one<R: Wait + Abort, A: Allocator + Clone>(
    rt: &R,
    alloc: &A,
    form: Form,
    n: u32,
) -> (KeyMap<A>, KeyLedger<A>)
    requires { IsTableSize n }
    ensures map { result.0.n ≡ n }
    ensures ledger { result.0.ledger ≡ result.1.id }
{
    let own = alloc.clone().expect(rt, "memory");
    let opened = open_single(rt, own, form, Salt(0), n);
    let Single {
        map,
        ledger,
        mut pass,
    } = opened.expect(rt, "memory");
    put(rt, alloc, &map, &ledger, &mut pass, b"a");
    pass.retire();
    (map, ledger)
}

/// Puts 0 at a key of the map.
pub(crate) fn put<R: Wait + Abort, A: Allocator + Clone>(
    rt: &R,
    alloc: &A,
    map: &KeyMap<A>,
    ledger: &KeyLedger<A>,
    pass: &mut KeyPass,
    text: &[u8],
)
    requires ledger { map.now.ledger ≡ ledger.now.id }
    requires pass { pass.old.ledger ≡ ledger.now.id }
    ensures { pass.new.ledger ≡ ledger.now.id }
{
    let key = Key::read(text).expect(rt, "a key");
    assert!(rt; pass.made() < ledger.most_calls());
    assert!(rt; pass.made() < 1 << 48);
    let mut held = map.hold(rt, map.salt().hash_of(&key));
    let lent = &mut held;
    let bin = &mut lent.bin;
    let result = make(alloc, ledger, pass, bin, &mut lent.role, key, Op::Put(0));
    held.release();
    result.expect(rt, "memory");
}

/// The class of the bin of the hash, as it is held.
pub(crate) fn class_at<R: Wait, A: Allocator + Clone>(rt: &R, map: &KeyMap<A>, hash: u32) -> Class {
    let held = map.hold(rt, hash);
    let class = held.bin.class();
    held.release();
    class
}

/// Takes the bins out, and gives how many bins and roles there are and whether their classes are all of this
/// size.
pub(crate) fn leaves_of<A: Allocator + Clone>(
    map: KeyMap<A>,
    n: u32,
) -> Option<(usize, usize, bool)> {
    let Ok(room) = map.room_for_leaves() else {
        return None;
    };
    let (bins, roles) = map.into_leaves(room)?;
    let mut are_all = true;
    for bin in &bins {
        if bin.class().n() != n {
            are_all = false;
        }
    }
    Some((bins.len(), roles.len(), are_all))
}
