//! Scripts at and beyond the limits of the language.
use crate::samples::{PUT_AND_GET, check, check_with, fill, options, told};
use std::alloc::Global;
use std::process::Abort;

/// A text of some first bytes, a line as often as is asked, and some last bytes.
fn repeated(
    rt: &impl Abort,
    alloc: Global,
    first: &str,
    line: &str,
    times: u32,
    last: &str,
) -> String {
    let mut text = String::from_str(alloc, first).expect(rt, "memory");
    for _ in 0..times {
        text.push_str(line).expect(rt, "memory");
    }
    text.push_str(last).expect(rt, "memory");
    text
}

#[test]
fn there_are_at_most_32_clients(rt: HostRuntime) {
    let most = repeated(&rt, rt.alloc(), "", "client\n", 32, "query\n");
    let (status, text) = told(&rt, most.as_bytes(), &options(&rt, 4, 16, 0));
    assert!(rt; status == 0 && text.ends_with(b"client 30\nclient 31\n"));
    let more = repeated(&rt, rt.alloc(), "", "client\n", 33, "query\n");
    check(&rt, more.as_bytes(), 1, "mapcli: line 33: limit\n");
}

#[test]
fn a_client_makes_at_most_1000000_calls(rt: HostRuntime) {
    let script = repeated(&rt, rt.alloc(), "client\n", "get a\n", 1_000_001, "query\n");
    check(&rt, script.as_bytes(), 1, "mapcli: line 1000002: limit\n");
}

/// A script of one client that puts so many keys of one length, in byte order, with the values 1, 2
/// and so on.
fn script_of_keys(rt: &impl Abort, alloc: Global, keys: i64) -> String {
    let mut script = String::from_str(alloc, "client\n").expect(rt, "memory");
    for value in 1..=keys {
        fill(
            rt,
            &mut script,
            "put k# #\n",
            &[value.saturating_add(100_000), value],
        );
    }
    let queries = "query\ncount\nreduce sum 1\nreduce max 1\nsearch above # 1\nlist 1\n";
    fill(rt, &mut script, queries, &[keys.saturating_sub(1)]);
    script
}

/// What it prints. The sum of the values is half of the product of the number of keys and the next one.
fn printed_of_keys(rt: &impl Abort, alloc: Global, keys: i64) -> String {
    let mut wanted = String::from_str(alloc, "client 0\n").expect(rt, "memory");
    for _ in 0..keys {
        wanted.push_str("none\n").expect(rt, "memory");
    }
    let sum = keys.saturating_mul(keys.saturating_add(1)) / 2;
    fill(
        rt,
        &mut wanted,
        "#\n#\nsome #\nsome #\n",
        &[keys, sum, keys, keys],
    );
    for value in 1..=keys {
        fill(
            rt,
            &mut wanted,
            "k# #\n",
            &[value.saturating_add(100_000), value],
        );
    }
    wanted
}

/// Where there is memory, no number of keys is refused. The table grows from one bin.
#[test]
fn a_map_has_any_number_of_keys(rt: HostRuntime) {
    for level in 0..17u32 {
        let keys = 1i64 << level;
        let script = script_of_keys(&rt, rt.alloc(), keys);
        let wanted = printed_of_keys(&rt, rt.alloc(), keys);
        check_with(&rt, &options(&rt, 4, 1, 0), script.as_bytes(), 0, &wanted);
    }
}

#[test]
fn a_line_of_spaces_may_be_long(rt: HostRuntime) {
    let script = repeated(
        &rt,
        rt.alloc(),
        "client\n",
        "          ",
        1_000_000,
        "\nquery\n",
    );
    check(&rt, script.as_bytes(), 1, "mapcli: line 2: spaces\n");
}

#[test]
fn runs_of_bytes_that_are_not_printable(rt: HostRuntime) {
    for byte in &[0u8, 9, 13, 127, 128, 255] {
        for place in &[7usize, 11, 14] {
            let mut script = Vec::from_slice(rt.alloc(), PUT_AND_GET).expect(&rt, "memory");
            script
                .insert((*place).min(script.len()), *byte)
                .expect(&rt, "memory");
            check(&rt, &script, 1, "mapcli: line 2: bytes\n");
        }
    }
}

/// Scripts with numbers and keys at the ends of their ranges, the status, and what is told.
const ENDS: [(&str, u8, &str); 7] = [
    (
        "client\nput a -9223372036854775808\nget a\nquery\n",
        0,
        "client 0\nnone\nsome -9223372036854775808\n",
    ),
    (
        "client\nput a -9223372036854775809\nquery\n",
        1,
        "mapcli: line 2: number\n",
    ),
    (
        "client\nquery\nlist 0\nlist 18446744073709551615\n",
        0,
        "client 0\n",
    ),
    ("client\nquery\nlist 00\n", 1, "mapcli: line 3: number\n"),
    (
        "client\nput x 1\nput ABCDEFGHIJKLMNOPQRSTUVWXYZ_01234 2\nquery\nlist 1\n",
        0,
        "client 0\nnone\nnone\nABCDEFGHIJKLMNOPQRSTUVWXYZ_01234 2\nx 1\n",
    ),
    (
        "client\nput ABCDEFGHIJKLMNOPQRSTUVWXYZ_012345 2\nquery\n",
        1,
        "mapcli: line 2: key\n",
    ),
    ("client\nput a +1\nquery\n", 1, "mapcli: line 2: number\n"),
];

#[test]
fn ends_of_ranges(rt: HostRuntime) {
    for (script, status, wanted) in &ENDS {
        check(&rt, script.as_bytes(), *status, wanted);
    }
}
