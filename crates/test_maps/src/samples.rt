//! Maps and the passes of their clients.
ghost use Rattle.std.specs.Prelude.{◌≡◌, [], ◌∷◌, ◌++◌, All, IfOk, IfSome};
ghost use Rattle.bin_history.specs.Limits.{most_clients};
ghost use Rattle.chm.specs.Opened.{IsLimited, IsNew};
ghost use Rattle.chm.specs.Refusals.{IsCapacityOf};

use bin_history::{Form, Remap, Value};
use chm::{Fault, Map, Opened, Quiet};
use count_ledger::{Pass, retire_all};
use hashkeys::{HashKey, Salt};
use std::alloc::Allocator;

/// The two forms. A test that reads no records is made on a map of each.
pub const BOTH: [Form; 2] = [Form::Recorded, Form::Lean];

const DIGITS: [u8; 16] = *b"0123456789abcdef";

/// The bytes of the key `k` with the lowest five hexadecimal digits of a number.
pub fn numbered_text(number: u32) -> [u8; 6] {
    let digit = |place: u32| DIGITS[(number / place % 16) as usize];
    [
        b'k',
        digit(65_536),
        digit(4096),
        digit(256),
        digit(16),
        digit(1),
    ]
}

/// A map and the pass of its last client, with the other passes in their place.
pub struct Single<K: HashKey, V: Value, F: Remap<K, V>, A: Allocator> {
    pub map: Map<K, V, F, A>,
    pub pass: Pass<K, V, F>,
    pub place: Vec<Pass<K, V, F>, A>,
}

/// Makes a map of the form, with the passes of its clients.
pub fn open_salted<K: HashKey, V: Value, F: Remap<K, V>, A: Allocator + Clone>(
    alloc: A,
    form: Form,
    salt: Salt,
    capacity: usize,
    clients: u32,
) -> Result<Opened<K, V, F, A>, Fault>
    ensures new { IfOk result (λ r. IsNew form salt capacity clients r.0 r.1.items) }
    ensures limits { IsLimited (IsCapacityOf form capacity) (most_clients form) clients result }
    ensures own { IfOk result (λ r. All (λ p. p.ledger ≡ r.0.ledger.id) r.1.items) }
{
    match form {
        Form::Recorded => Map::with_salt(alloc, capacity, clients, salt),
        Form::Lean => Map::lean(alloc, capacity, clients, salt),
    }
}

/// A map of either form with the salt 0.
pub fn open<K: HashKey, V: Value, F: Remap<K, V>, A: Allocator + Clone>(
    alloc: A,
    form: Form,
    capacity: usize,
    clients: u32,
) -> Result<Opened<K, V, F, A>, Fault>
    ensures new { IfOk result (λ r. IsNew form (record { 0 = 0 }) capacity clients r.0 r.1.items) }
    ensures limits { IsLimited (IsCapacityOf form capacity) (most_clients form) clients result }
    ensures own { IfOk result (λ r. All (λ p. p.ledger ≡ r.0.ledger.id) r.1.items) }
{
    open_salted(alloc, form, Salt(0), capacity, clients)
}

/// Takes the pass of the last client out. Where there is none the map is lost.
pub fn take_pass<K: HashKey, V: Value, F: Remap<K, V>, A: Allocator + Clone>(
    opened: Opened<K, V, F, A>,
) -> Option<Single<K, V, F, A>>
    requires { All (λ p. p.ledger ≡ opened.0.ledger.id) opened.1.items }
    ensures map { IfSome result (λ s. s.map ≡ opened.0) }
    ensures passes { IfSome result (λ s. s.place.items ++ (s.pass ∷ []) ≡ opened.1.items) }
    ensures pass { IfSome result (λ s. s.pass.ledger ≡ s.map.ledger.id) }
    ensures place { IfSome result (λ s. All (λ p. p.ledger ≡ s.map.ledger.id) s.place.items) }
{
    let (map, mut place) = opened;
    match place.pop() {
        Some(pass) => Some(Single { map, pass, place }),
        None => {
            retire_all(place);
            None
        }
    }
}

/// A new map of the form with the salt 0, and the pass of its one client.
pub fn open_single<K: HashKey, V: Value, F: Remap<K, V>, A: Allocator + Clone>(
    alloc: A,
    form: Form,
    capacity: usize,
) -> Option<Single<K, V, F, A>>
    ensures new { IfSome result (λ s. IsNew form (record { 0 = 0 }) capacity 1 s.map
        (s.place.items ++ (s.pass ∷ []))) }
    ensures pass { IfSome result (λ s. s.pass.ledger ≡ s.map.ledger.id) }
    ensures place { IfSome result (λ s. All (λ p. p.ledger ≡ s.map.ledger.id) s.place.items) }
{
    match open(alloc, form, capacity, 1) {
        Ok(opened) => take_pass(opened),
        Err(_) => None,
    }
}

/// Closes a map, with the passes of all clients. Where it does not close both are lost.
pub fn close<K: HashKey, V: Value, F: Remap<K, V>, A: Allocator + Clone>(
    map: Map<K, V, F, A>,
    passes: Vec<Pass<K, V, F>, A>,
) -> Result<Quiet<K, V, F, A>, Fault>
    requires { All (λ p. p.ledger ≡ map.ledger.id) passes.items }
{
    match map.close(passes) {
        Ok(quiet) => Ok(quiet),
        Err(refused) => Err(refused.give_up()),
    }
}

/// Puts a pass back in its place. Where there is no room it is lost, and the map does not close.
pub fn put_back<K: HashKey, V: Value, F: Remap<K, V>, A: Allocator + Clone>(
    map: &Map<K, V, F, A>,
    pass: Pass<K, V, F>,
    place: &mut Vec<Pass<K, V, F>, A>,
)
    requires pass { pass.ledger ≡ map.now.ledger.id }
    requires place { All (λ p. p.ledger ≡ map.now.ledger.id) place.old.items }
    ensures { All (λ p. p.ledger ≡ map.now.ledger.id) place.new.items }
{
    // read for the proof alone, which so has the map's ledger
    let _ = map;
    if let Err(failed) = place.push(pass) {
        failed.value.retire();
    }
}

/// Puts a pass back in its place and closes the map.
pub fn close_single<K: HashKey, V: Value, F: Remap<K, V>, A: Allocator + Clone>(
    map: Map<K, V, F, A>,
    pass: Pass<K, V, F>,
    mut place: Vec<Pass<K, V, F>, A>,
) -> Result<Quiet<K, V, F, A>, Fault>
    requires pass { pass.ledger ≡ map.ledger.id }
    requires place { All (λ p. p.ledger ≡ map.ledger.id) place.items }
{
    put_back(&map, pass, &mut place);
    close(map, place)
}
