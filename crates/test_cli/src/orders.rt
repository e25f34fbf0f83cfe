//! Runs of scripts of two clients on two keys, against all orders in which a map of one thread
//! could be called so.
ghost use Rattle.std.specs.Prelude.{◌<◌};

use crate::samples::{fill, options, told};
use std::alloc::{AllocGlobal, Global};
use std::process::Abort;
use std::sync::Wait;
use std::thread::Threads;

/// A call of these scripts: a key, `x` or `y`, and what is done with it. Each call replies the
/// value before it.
#[derive(Clone, Copy)]
enum Line {
    Put(char, i64),
    Get(char),
    Remove(char),
}

/// The values of the two keys of a map of one thread.
#[derive(Clone, Copy)]
struct Plain {
    x: Option<i64>,
    y: Option<i64>,
}

impl Line {
    /// Writes the line of the call behind the text.
    fn write(&self, rt: &impl Abort, text: &mut String) {
        let (name, key, end, number) = match *self {
            Line::Put(key, value) => ("put ", key, " #\n", value),
            Line::Get(key) => ("get ", key, "\n", 0),
            Line::Remove(key) => ("remove ", key, "\n", 0),
        };
        fill(rt, text, name, &[]);
        text.push(key).expect(rt, "memory");
        fill(rt, text, end, &[number]);
    }

    /// The value before the call, and the map after it.
    fn made(&self, map: Plain) -> (Option<i64>, Plain) {
        let (key, after) = match *self {
            Line::Put(key, value) => (key, Some(Some(value))),
            Line::Get(key) => (key, None),
            Line::Remove(key) => (key, Some(None)),
        };
        let before = if key == 'x' { map.x } else { map.y };
        let left = after.unwrap_or(before);
        let map = if key == 'x' {
            Plain { x: left, y: map.y }
        } else {
            Plain { x: map.x, y: left }
        };
        (before, map)
    }
}

fn push_block(rt: &impl Abort, text: &mut String, block: &[Line]) {
    fill(rt, text, "client\n", &[]);
    for line in block {
        line.write(rt, text);
    }
}

/// The script of two blocks.
fn script(rt: &impl Abort, alloc: Global, blocks: [&[Line]; 2]) -> String {
    let mut text = String::new(alloc);
    push_block(rt, &mut text, blocks[0]);
    push_block(rt, &mut text, blocks[1]);
    fill(rt, &mut text, "query\ncount\n", &[]);
    text
}

fn push_reply(rt: &impl Abort, text: &mut String, value: Option<i64>) {
    match value {
        Some(value) => fill(rt, text, "some #\n", &[value]),
        None => fill(rt, text, "none\n", &[]),
    }
}

/// The next call of the client.
fn next_of(blocks: [&[Line]; 2], client: usize, made: &mut [usize; 2]) -> Option<Line>
    requires { client < 2 }
{
    let line = blocks[client].get(made[client])?;
    made[client] = made[client].wrapping_add(1);
    Some(*line)
}

/// What a map of one thread prints, where the next call is of client 1 for each bit of the order
/// that is set, from the lowest on. None, if that is no order of these calls.
fn printed(rt: &impl Abort, alloc: Global, blocks: [&[Line]; 2], order: u32) -> Option<String> {
    let mut map = Plain { x: None, y: None };
    let (mut text, mut second) = (String::new(alloc), String::new(alloc));
    fill(rt, &mut text, "client 0\n", &[]);
    fill(rt, &mut second, "client 1\n", &[]);
    let (mut made, mut bits) = ([0usize; 2], order);
    for _ in 0..blocks[0].len().saturating_add(blocks[1].len()) {
        let line = next_of(blocks, (bits % 2) as usize, &mut made)?;
        let (before, left) = line.made(map);
        map = left;
        if bits % 2 == 0 {
            push_reply(rt, &mut text, before);
        } else {
            push_reply(rt, &mut second, before);
        }
        bits /= 2;
    }
    let count = i64::from(map.x.is_some()) + i64::from(map.y.is_some());
    text.push_str(&second).expect(rt, "memory");
    fill(rt, &mut text, "#\n", &[count]);
    Some(text)
}

/// Whether some order of the calls prints this text.
fn has_order(rt: &impl Abort, alloc: Global, blocks: [&[Line]; 2], text: &[u8]) -> bool {
    for order in 0..64 {
        if let Some(wanted) = printed(rt, alloc, blocks, order) {
            if wanted.as_bytes() == text {
                return true;
            }
        }
    }
    false
}

/// Each client puts a key and then looks for the other's.
const CROSSED: [&[Line]; 2] = [
    &[Line::Put('x', 1), Line::Get('y')],
    &[Line::Put('y', 2), Line::Get('x')],
];

/// The keys change more than once, and are seen on the way.
const CHANGING: [&[Line]; 2] = [
    &[Line::Put('x', 1), Line::Put('y', 2), Line::Remove('x')],
    &[Line::Get('y'), Line::Get('x'), Line::Put('y', 3)],
];

/// Calls, what they may have printed, and whether they may.
///
/// In the last but one client 1 saw `y` and later no `x`, so `x` was taken away again before: client 0 had put
/// `y` over nothing.
const ORDERS: [([&[Line]; 2], &[u8], bool); 5] = [
    (
        CROSSED,
        b"client 0\nnone\nnone\nclient 1\nnone\nnone\n2\n",
        false,
    ),
    (
        CROSSED,
        b"client 0\nnone\nnone\nclient 1\nnone\nsome 1\n2\n",
        true,
    ),
    (
        CROSSED,
        b"client 0\nnone\nsome 2\nclient 1\nnone\nsome 1\n2\n",
        true,
    ),
    (
        CHANGING,
        b"client 0\nnone\nnone\nsome 1\nclient 1\nsome 2\nnone\nsome 2\n1\n",
        true,
    ),
    (
        CHANGING,
        b"client 0\nnone\nnone\nnone\nclient 1\nsome 2\nnone\nsome 2\n1\n",
        false,
    ),
];

#[test]
fn orders_of_one_thread_print_what_they_should(rt: HostRuntime) {
    for (blocks, text, wanted) in &ORDERS {
        let found = has_order(&rt, rt.alloc(), *blocks, text);
        assert!(rt; found == *wanted, "{text:?}");
    }
}

/// Asserts that runs of the calls by two clients print what some order of them prints, however often they are
/// made.
fn assert_orders<R: Threads + Wait + Sync + Abort + AllocGlobal>(rt: &R, blocks: [&[Line]; 2]) {
    let script = script(rt, rt.alloc(), blocks);
    for _ in 0..500 {
        let (status, text) = told(rt, script.as_bytes(), &options(rt, 1, 16, 0));
        let is_one = has_order(rt, rt.alloc(), blocks, &text);
        assert!(rt; status == 0 && is_one, "{text:?}");
    }
}

/// Two clients never miss each other's put, however often they try.
#[test]
fn two_clients_on_two_keys_have_one_order(rt: HostRuntime) {
    assert_orders(&rt, CROSSED);
    assert_orders(&rt, CHANGING);
}
