//! Closed maps, and what a test does with one.
ghost use Rattle.std.specs.Prelude.{◌≡◌};
ghost use Rattle.std.specs.Thread.{IsSync};

use crate::samples::Forget;
use chm::{Map, NotClosed, Quiet};
use count_ledger::{Pass, retire_all};
use hashkeys::Key;
use std::alloc::{AllocError, Global};
use std::process::Abort;
use std::sync::Wait;
use std::thread::Threads;

type KeyMap = Map<Key, i64, Forget, Global>;

type KeyPass = Pass<Key, i64, Forget>;

pub(crate) type KeyQuiet = Quiet<Key, i64, Forget, Global>;

/// What a test does with a closed map. The steps of a function that owns a map are long, so one function
/// owns it, and each test borrows it.
pub(crate) trait Look {
    /// What it returns.
    type Seen: Drop;

    /// Looks at the map, which is dropped after that.
    fn look<Rt: Threads + Wait + Sync + Abort>(
        &self,
        rt: &Rt,
        alloc: Global,
        quiet: &KeyQuiet,
    ) -> Self::Seen
        requires { IsSync Rt.row };
}

fn put_all<Rt: Wait>(rt: &Rt, map: &KeyMap, pass: &mut KeyPass, pairs: Vec<(Key, i64)>) -> bool
    requires { pass.old.ledger ≡ map.now.ledger.id }
    ensures { pass.new.ledger ≡ pass.old.ledger }
{
    let mut all = true;
    for (key, value) in pairs {
        match map.put(rt, pass, key, value) {
            Ok(_) => (),
            Err(_) => all = false,
        }
    }
    all
}

/// Returns the closed map of these pairs, which one client put in their order.
fn closed<Rt: Wait>(
    rt: &Rt,
    alloc: Global,
    capacity: usize,
    pairs: Vec<(Key, i64)>,
) -> Option<KeyQuiet> {
    let Ok((map, mut passes)) = KeyMap::new(alloc, capacity, 1) else {
        return None;
    };
    let mut all = false;
    if let Some(pass) = passes.first_mut() {
        all = put_all(rt, &map, pass, pairs);
    }
    match map.close(passes) {
        Ok(quiet) => {
            if all {
                return Some(quiet);
            }
            None
        }
        Err(
            NotClosed {
                fault: _,
                map: _,
                passes,
            },
        ) => {
            retire_all(passes);
            None
        }
    }
}

/// Puts these pairs in their order, closes the map, and returns what the test does.
fn on_closed<Rt: Threads + Wait + Sync + Abort, L: Look>(
    rt: &Rt,
    alloc: Global,
    capacity: usize,
    pairs: Result<Vec<(Key, i64)>, AllocError>,
    look: &L,
) -> L::Seen {
    let pairs = pairs.expect(rt, "no fault");
    let quiet = closed(rt, alloc, capacity, pairs).expect(rt, "a closed map");
    look.look(rt, alloc, &quiet)
}

fn pairs_of<Rt: Abort>(
    rt: &Rt,
    alloc: Global,
    rows: &[(&[u8], i64)],
) -> Result<Vec<(Key, i64)>, AllocError> {
    let mut pairs = Vec::new(alloc);
    for (text, value) in rows {
        pairs.push((Key::read(text).expect(rt, "a key"), *value))?;
    }
    Ok(pairs)
}

/// Returns what a test does with a closed map of these rows, of this capacity.
pub(crate) fn on_rows<Rt: Threads + Wait + Sync + Abort, L: Look>(
    rt: &Rt,
    alloc: Global,
    capacity: usize,
    rows: &[(&[u8], i64)],
    look: &L,
) -> L::Seen {
    on_closed(rt, alloc, capacity, pairs_of(rt, alloc, rows), look)
}

fn digit(n: u32) -> u8 {
    b'0' + (n % 10) as u8
}

fn counted_pairs<Rt: Abort>(
    rt: &Rt,
    alloc: Global,
    count: u32,
) -> Result<Vec<(Key, i64)>, AllocError> {
    let mut pairs = Vec::new(alloc);
    for n in 1..=count {
        let text = [
            b'k',
            digit(n / 10000),
            digit(n / 1000),
            digit(n / 100),
            digit(n / 10),
            digit(n),
        ];
        pairs.push((Key::read(&text).expect(rt, "a key"), i64::from(n)))?;
    }
    Ok(pairs)
}

/// Returns what a test does with a closed map of so many keys, whose values are 1, 2, and so on.
pub(crate) fn on_counted<Rt: Threads + Wait + Sync + Abort, L: Look>(
    rt: &Rt,
    alloc: Global,
    count: u32,
    look: &L,
) -> L::Seen {
    on_closed(rt, alloc, 16, counted_pairs(rt, alloc, count), look)
}
