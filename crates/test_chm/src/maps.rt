//! Maps at the program's keys, and many calls on them.
ghost use Rattle.std.specs.Prelude.{◌≡◌, All};

use crate::lines::{Words, number, number_or_0, small};
use bin_history::Reply;
use chm::{Entries, Fault, Map, Opened, Quiet};
use count_ledger::Pass;
use hashkeys::Key;
use std::alloc::Allocator;
use std::fmt::Debug;
use std::process::Abort;
use std::sync::Wait;
use test_helpers::Plus;
use test_maps::numbered_text;

pub(crate) type KeyMap<A> = Map<Key, u64, Plus, A>;

pub(crate) type KeyPass = Pass<Key, u64, Plus>;

pub(crate) type KeyQuiet<A> = Quiet<Key, u64, Plus, A>;

pub(crate) type KeyOpened<A> = Opened<Key, u64, Plus, A>;

pub(crate) fn key(rt: &impl Abort, text: &[u8]) -> Key {
    Key::read(text).expect(rt, "a key")
}

/// The key `k` with the lowest five hexadecimal digits of a number.
pub(crate) fn numbered(rt: &impl Abort, number: u32) -> Key {
    key(rt, &numbered_text(number))
}

/// One of the keys of one hash: so many blocks `Aa` or `BB`, at most twelve, by the number's bits.
pub(crate) fn of_one_hash(rt: &impl Abort, blocks: usize, number: u32) -> Key {
    assert!(rt; blocks <= 12);
    let mut text = *b"AaAaAaAaAaAaAaAaAaAaAaAa";
    for block in 0..12usize {
        if number >> block & 1 == 1 {
            text[2 * block] = b'B';
            text[2 * block + 1] = b'B';
        }
    }
    key(rt, &text[..2 * blocks])
}

/// Whether a call replied this value, or none.
pub(crate) fn has_replied(made: Result<Reply<u64>, Fault>, wanted: Option<u64>) -> bool {
    made == Ok(Reply::Value(wanted))
}

fn assert_reply(rt: &impl Abort, made: Result<Reply<u64>, Fault>, wanted: Option<u64>) {
    assert!(rt; has_replied(made, wanted));
}

/// Whether all of these hold.
pub(crate) fn all(told: &[bool]) -> bool {
    !told.contains(&false)
}

/// How many keys the passes of all clients count.
pub(crate) fn count_all<A: Allocator + Clone>(
    rt: &impl Abort,
    map: &KeyMap<A>,
    passes: &mut Vec<KeyPass, A>,
) -> u64
    requires { All (λ p. p.ledger ≡ map.now.ledger.id) passes.old.items }
    ensures { passes.new.items ≡ passes.old.items }
{
    assert!(rt; passes.len() == map.clients() as usize);
    map.mapping_count_all(passes)
}

/// Puts a value at a key that has none.
pub(crate) fn put_new<R: Wait + Abort, A: Allocator + Clone>(
    rt: &R,
    map: &KeyMap<A>,
    pass: &mut KeyPass,
    key: Key,
    value: u64,
)
    requires { pass.old.ledger ≡ map.now.ledger.id }
    ensures { pass.new.ledger ≡ map.now.ledger.id }
{
    assert_reply(rt, map.put(rt, pass, key, value), None);
}

/// Puts a value at the key of this text, which has none.
pub(crate) fn put_text<R: Wait + Abort, A: Allocator + Clone>(
    rt: &R,
    map: &KeyMap<A>,
    pass: &mut KeyPass,
    text: &[u8],
    value: u64,
)
    requires { pass.old.ledger ≡ map.now.ledger.id }
    ensures { pass.new.ledger ≡ map.now.ledger.id }
{
    put_new(rt, map, pass, key(rt, text), value);
}

/// Puts so many new keys, from the one of this number on, each with its number.
pub(crate) fn put_numbers<R: Wait + Abort, A: Allocator + Clone>(
    rt: &R,
    map: &KeyMap<A>,
    pass: &mut KeyPass,
    first: u32,
    count: u32,
)
    requires { pass.old.ledger ≡ map.now.ledger.id }
    ensures { pass.new.ledger ≡ map.now.ledger.id }
{
    for number in first..first.saturating_add(count) {
        put_new(rt, map, pass, numbered(rt, number), u64::from(number));
    }
}

/// So many turns, at each of which every client puts so many new keys.
pub(crate) fn put_in_turns<R: Wait + Abort, A: Allocator + Clone>(
    rt: &R,
    map: &KeyMap<A>,
    passes: &mut Vec<KeyPass, A>,
    turns: u32,
    puts: u32,
)
    requires { All (λ p. p.ledger ≡ map.now.ledger.id) passes.old.items }
    ensures { All (λ p. p.ledger ≡ map.now.ledger.id) passes.new.items }
{
    let mut number = 0u32;
    for _turn in 0..turns {
        for client in 0..passes.len() {
            assert!(rt; client < passes.len());
            put_numbers(rt, map, &mut passes[client], number, puts);
            number = number.wrapping_add(puts);
        }
    }
}

/// Puts so many new keys, from the first on, and gets each once it is put.
pub(crate) fn put_and_get<R: Wait + Abort, A: Allocator + Clone>(
    rt: &R,
    map: &KeyMap<A>,
    pass: &mut KeyPass,
    count: u32,
)
    requires { pass.old.ledger ≡ map.now.ledger.id }
    ensures { pass.new.ledger ≡ map.now.ledger.id }
{
    for number in 0..count {
        put_numbers(rt, map, pass, number, 1);
        let reply = map.get(rt, pass, numbered(rt, number));
        assert_reply(rt, reply, Some(u64::from(number)));
    }
}

/// Puts keys of one hash, of as many blocks as the first word says, from a number on to another, each with
/// its number.
pub(crate) fn put_of_one_hash<R: Wait + Abort, A: Allocator + Clone>(
    rt: &R,
    map: &KeyMap<A>,
    pass: &mut KeyPass,
    words: &Words<'_>,
)
    requires { pass.old.ledger ≡ map.now.ledger.id }
    ensures { pass.new.ledger ≡ map.now.ledger.id }
{
    let blocks = number(rt, words[1]) as usize;
    for number in small(rt, words[2])..small(rt, words[3]) {
        put_new(
            rt,
            map,
            pass,
            of_one_hash(rt, blocks, number),
            u64::from(number),
        );
    }
}

/// How many of the numbered keys from 0 to 99 are found with their numbers.
pub(crate) fn count_numbers<R: Wait + Abort, A: Allocator + Clone>(
    rt: &R,
    map: &KeyMap<A>,
    pass: &mut KeyPass,
) -> u64
    requires { pass.old.ledger ≡ map.now.ledger.id }
    ensures { pass.new.ledger ≡ map.now.ledger.id }
{
    let mut found = 0u64;
    for number in 0..100u32 {
        let reply = map.get(rt, pass, numbered(rt, number));
        if has_replied(reply, Some(u64::from(number))) {
            found = found.wrapping_add(1);
        }
    }
    found
}

/// Gets `a` so often, each time with this reply.
pub(crate) fn get_often<R: Wait + Abort, A: Allocator + Clone>(
    rt: &R,
    map: &KeyMap<A>,
    pass: &mut KeyPass,
    times: u32,
    wanted: u64,
)
    requires { pass.old.ledger ≡ map.now.ledger.id }
    ensures { pass.new.ledger ≡ map.now.ledger.id }
{
    for _time in 0..times {
        let reply = map.get(rt, pass, key(rt, b"a"));
        assert_reply(rt, reply, Some(wanted));
    }
}

/// Asserts that what was found is what is wanted. A call of it is one step of the caller, which
/// goes on as it is.
pub(crate) fn assert_same<T: PartialEq + Debug>(rt: &impl Abort, found: &T, wanted: &T) {
    assert_eq!(rt; found, wanted);
}

/// The word at this place, and none behind the end.
fn word_at<'a>(words: &[&'a str], at: usize) -> &'a str {
    words.get(at).copied().unwrap_or("")
}

/// Asserts that the words at this place are a key and its value.
fn assert_pair(rt: &impl Abort, (key, value): (&Key, u64), words: &[&str], at: usize) {
    let text = word_at(words, at);
    let wanted = number(rt, word_at(words, at.saturating_add(1)));
    assert_same(rt, &(key.bytes(), value), &(text.as_bytes(), wanted));
}

/// The pairs of these words, keys and values in turn, in this order.
pub(crate) fn assert_pairs(rt: &impl Abort, entries: &[(Key, u64)], words: &[&str]) {
    let mut at = 0usize;
    for (key, value) in entries {
        assert_pair(rt, (key, *value), words, at);
        at = at.saturating_add(2);
    }
    assert_same(rt, &word_at(words, at), &"");
}

/// The pairs of these words in this order, among others at numbered keys.
pub(crate) fn assert_entries<'a, A: Allocator + Clone>(
    rt: &impl Abort,
    entries: Entries<'a, Key, u64, Plus, A>,
    words: &[&str],
) {
    let mut at = 0usize;
    for (key, value) in entries {
        if key.bytes().starts_with(b"k") {
            continue;
        }
        assert_pair(rt, (key, *value), words, at);
        at = at.saturating_add(2);
    }
    assert_same(rt, &word_at(words, at), &"");
}

/// The sum of the values of at most three pairs.
pub(crate) fn sum_in(rt: &impl Abort, words: &[&str]) -> u64 {
    let mut sum = 0u64;
    for at in 0..3usize {
        sum = sum.saturating_add(number_or_0(rt, word_at(words, at * 2 + 1)));
    }
    sum
}

/// How many pairs there are, at most three.
pub(crate) fn count_in(words: &[&str]) -> u64 {
    let mut count = 0u64;
    for at in 0..3usize {
        if word_at(words, at * 2) != "" {
            count = count.saturating_add(1);
        }
    }
    count
}
