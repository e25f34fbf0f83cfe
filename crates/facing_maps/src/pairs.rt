//! Pairs that are copied out of a bucket.
ghost use Rattle.std.specs.Prelude.{◌≡◌, ◌≤◌, ◌<◌, ◌+◌, ◌++◌, true, false, length, take, drop, min};
ghost use Rattle.bin_history.specs.Calls.{after};
ghost use Rattle.facing_maps.specs.Answers.{answered};
ghost use Rattle.facing_maps.specs.Pairs.{AreNumbers, AreCopied, bytes_of, IsSeen, IsClosedSeen, IsLiveSeen};
ghost use Rattle.seeded_keys.specs.Mixing.{unmixed};

use crate::closed::ClosedMap;
use crate::keys::SeededKey;
use crate::laying::Laying;
use crate::stage::Stage;
use crate::status::{BUSY, NO_MEMORY, code_of};
use bin_history::{Remap, Value};
use chm::{END_OF_WALK, Quiet, Visit};
use clients::OwnedClient;
use hashkeys::HashKey;
use seeded_keys::NumberSeed;
use std::alloc::Global;
use std::marker::Model;

/// What a step of a walk shows: copies of the entries of a bucket, or none at the end, and the number
/// that the walk goes on at; or the status for which it shows nothing.
pub type Seen<K, V> = Result<(Option<Pairs<K, V>>, u64), u32>;

/// Pairs, in order. Contracts see them as a list.
#[derive(Drop)]
pub struct Pairs<K, V> {
    pairs: Vec<(K, V), Global>,
}

impl<K, V> Model for Pairs<K, V> {
    ghost use Rattle.std.specs.Prelude.{List};

    ghost Value = { List (K × V) };

    ghost view = { λ p. p.pairs.items };
}

impl<K, V> Pairs<K, V> {
    /// The pairs.
    pub fn as_slice(&self) -> &[(K, V)]
        ensures { result.now ≡ self.now }
    {
        self.pairs.as_slice()
    }
}

/// Tries to copy the entries of the bucket at this number. It waits for nobody, and takes memory for
/// them.
fn try_visit_of<K: HashKey, V: Value, F: Remap<K, V>>(
    client: &mut OwnedClient<K, V, F, Global>,
    at: u64,
) -> Seen<K, V>
    ensures seen { IsLiveSeen K.eq K.code (after V.eq F.remapped F.merged) client.old.map at
        client.old.pass client.new.pass result }
    ensures map { client.new.map ≡ client.old.map }
{
    match client.try_visit_at(at) {
        Some(Ok((shown, next))) => match shown {
            Some(visit) => {
                let Visit {
                    class: _,
                    entries: pairs,
                } = visit;
                Ok((Some(Pairs { pairs }), next))
            }
            None => Ok((None, next)),
        },
        Some(Err(fault)) => Err(code_of(fault)),
        None => Err(BUSY),
    }
}

/// Copies of the entries of the bin with this number.
fn visit_of<K: HashKey, V: Value, F: Remap<K, V>>(
    quiet: &Quiet<K, V, F, Global>,
    at: u64,
) -> Seen<K, V>
    ensures { IsClosedSeen quiet.now.bins at result }
{
    let bins = quiet.bins();
    if at >= bins.len() as u64 {
        return Ok((None, END_OF_WALK));
    }
    match bins[at as usize].copy_entries(quiet.allocator()) {
        Ok(pairs) => Ok((Some(Pairs { pairs }), at + 1)),
        Err(_) => Err(NO_MEMORY),
    }
}

/// Copies of the entries of the bin with this number, of a closed map.
fn visit_closed<K: HashKey, V: Value, F: Remap<K, V>>(
    closed: &ClosedMap<K, V, F>,
    at: u64,
) -> Seen<K, V>
    ensures { IsClosedSeen closed.now.bins at result }
{
    visit_of(closed.quiet(), at)
}

impl<K: HashKey, V: Value, F: Remap<K, V>> Stage<K, V, F> {
    /// Tries to show the entries of the bucket at this place: of a closed map the bucket with this
    /// number, and of a map whose client this is the one at which a walk goes on by this number; of
    /// anything else none. It waits for nobody, and takes memory for the copies.
    pub fn try_visit(&mut self, at: u64) -> Option<Seen<K, V>>
        ensures { IsSeen K.eq K.code (after V.eq F.remapped F.merged) self.old at self.new (answered result) }
    {
        match self {
            Stage::Client(client) => Some(try_visit_of(client, at)),
            Stage::Closed(closed) => Some(visit_closed(closed, at)),
            _ => None,
        }
    }
}

/// Copies pairs, the first ones, as many as there is room for, with the keys that lie in the map under the
/// seed. It answers how many.
pub fn copy_numbers(
    pairs: &[(u64, u64)],
    seed: NumberSeed,
    keys: &mut [u64],
    values: &mut [u64],
) -> usize
    ensures { AreNumbers (unmixed seed) pairs.now (keys.old, values.old) (keys.new, values.new) result }
{
    let mut count = 0;
    let mut rest = pairs;
    while let Some((pair, tail)) = rest.split_first() {
        if count >= keys.len() || count >= values.len() {
            break;
        }
        keys[count] = seed.unmix(pair.0);
        values[count] = pair.1;
        count += 1;
        rest = tail;
    }
    count
}

/// Whether a key and a value find room in so many bytes.
fn fits(key: &[u8], value: &[u8], left: usize) -> bool
    ensures room { result ≡ true → length key.now + length value.now ≤ left }
    ensures full { result ≡ false → left < length key.now + length value.now }
{
    key.len() <= left && value.len() <= left - key.len()
}

/// Copies bytes to a place in the room.
fn copy_at(bytes: &[u8], room: &mut [u8], at: usize)
    requires { at + length bytes.now ≤ length room.old }
    ensures front { take (at + length bytes.now) room.new ≡ take at room.old ++ bytes.now }
    ensures rest { drop (at + length bytes.now) room.new
        ≡ drop (at + length bytes.now) room.old }
    ensures len { length room.new ≡ length room.old }
{
    room[at..at + bytes.len()].copy_from_slice(bytes);
}

/// Copies pairs, the first ones, as many as there is room for: how many bytes their keys have, and what
/// `laying` copies of their values, a number, and bytes behind those of the key. It answers how many.
pub fn copy_pairs<V, L: Laying<V>>(
    pairs: &[(SeededKey, V)],
    laying: &L,
    key_lens: &mut [u64],
    numbers: &mut [u64],
    room: &mut [u8],
) -> usize
    ensures { AreCopied (L.number laying.now) (L.laid laying.now) pairs.now (key_lens.old, numbers.old, room.old)
        (key_lens.new, numbers.new, room.new) result }
{
    let mut count = 0;
    let mut used = 0;
    let mut rest = pairs;
    while let Some((pair, tail)) = rest.split_first() {
        let key = pair.0.bytes();
        let value = laying.laid(&pair.1);
        if count >= key_lens.len()
            || count >= numbers.len()
            || !fits(key, value, room.len() - used)
        {
            break;
        }
        key_lens[count] = key.len() as u64;
        numbers[count] = laying.number(&pair.1);
        let end = used + key.len();
        copy_at(key, room, used);
        copy_at(value, room, end);
        used = end + value.len();
        count += 1;
        rest = tail;
    }
    count
}

/// How many bytes `copy_pairs` copies of all pairs, or the end of the range of 64 bits.
pub fn total<V, L: Laying<V>>(pairs: &[(SeededKey, V)], laying: &L) -> u64
    ensures { result ≡ min (length (bytes_of (L.laid laying.now) pairs.now)) 18446744073709551615 }
{
    let mut total = 0u64;
    let mut rest = pairs;
    while let Some((pair, tail)) = rest.split_first() {
        let key = pair.0.bytes().len() as u64;
        total = total
            .saturating_add(key)
            .saturating_add(laying.laid(&pair.1).len() as u64);
        rest = tail;
    }
    total
}
