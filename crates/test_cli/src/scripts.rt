//! Runs of scripts, from the bytes of a script to the bytes that it prints.
use crate::samples::{PUT_AND_GET, check, check_all, check_with, options};

/// Scripts, and what they print.
const PRINTED: [(&str, &str); 13] = [
    (
        "client\nput apples 3\nput pears 5\nmerge apples 4 sum\nclient\nput plums -2\nput_if_absent plums 9\ncontains plums\nquery\ncount\nreduce sum 1\nreduce max 1\nsearch above 6 1\nlist 1\n",
        "client 0\nnone\nnone\nsome 7\nclient 1\nnone\nsome -2\ntrue\n3\n10\nsome 7\nsome 7\napples 7\npears 5\nplums -2\n",
    ),
    (
        "client\nput a 1\nmerge a 2 sum\nquery\ncount\nlist 1\n",
        "client 0\nnone\nsome 3\n1\na 3\n",
    ),
    (
        "client\nput a 1\nget a\nquery\ncount\n",
        "client 0\nnone\nsome 1\n1\n",
    ),
    (
        "client\nput a 1\nget a\nclient\nput b 2\nremove b\nquery\ncount\n",
        "client 0\nnone\nsome 1\nclient 1\nnone\nsome 2\n1\n",
    ),
    (
        "client\nquery\ncount\nreduce sum 1\nreduce max 1\nlist 1\n",
        "client 0\n0\n0\nnone\n",
    ),
    (
        "client\nput a 1\nreplace a 5\nreplace b 9\nput_if_absent b 3\nremove_if b 3\ncompute a sum -7\nmerge a 4 max\ncontains b\nquery\ncount\n",
        "client 0\nnone\nsome 1\nnone\nnone\ntrue\nsome -2\nsome 4\nfalse\n1\n",
    ),
    (
        "client\ncompute_if_present a drop\nput a 5\ncompute_if_present a drop\nquery\ncount\n",
        "client 0\nnone\nnone\nnone\n0\n",
    ),
    (
        "client\nput a 9223372036854775807\nmerge a 1 sum\nquery\n",
        "client 0\nnone\nsome 9223372036854775807\n",
    ),
    (
        "client\nput a 1\nremove_if a 2\nreplace_if a 1 1\nquery\ncount\n",
        "client 0\nnone\nfalse\ntrue\n1\n",
    ),
    (
        "client\nput a 9223372036854775807\nput b 9223372036854775807\nquery\nreduce sum 1\nreduce max 0\n",
        "client 0\nnone\nnone\n18446744073709551614\nsome 9223372036854775807\n",
    ),
    (
        "client\nput b 3\nput a -1\nput aa 2\nput A 7\nput _ 5\nput 0 4\nquery\nlist 18446744073709551615\n",
        "client 0\nnone\nnone\nnone\nnone\nnone\nnone\n0 4\nA 7\n_ 5\na -1\naa 2\nb 3\n",
    ),
    ("client\nquery\n", "client 0\n"),
    (
        "client\nclient\nquery\nsearch above 0 0\n",
        "client 0\nclient 1\nnone\n",
    ),
];

#[test]
fn scripts_print_their_rows(rt: HostRuntime) {
    check_all(&rt, 0, &PRINTED);
}

/// Calls with functions, and what they print.
const MADE: [(&str, &str); 5] = [
    (
        "client\ncompute a sum 3\nquery\ncount\n",
        "client 0\nsome 3\n1\n",
    ),
    (
        "client\ncompute_if_absent a drop\nquery\ncount\n",
        "client 0\nnone\n0\n",
    ),
    (
        "client\nput a 9\nmerge a 2 drop\nquery\ncount\n",
        "client 0\nnone\nnone\n0\n",
    ),
    (
        "client\nput a 9\nmerge a 2 max\nquery\ncount\n",
        "client 0\nnone\nsome 9\n1\n",
    ),
    (
        "client\nput a -9223372036854775808\ncompute a sum -1\nquery\ncount\n",
        "client 0\nnone\nsome -9223372036854775808\n1\n",
    ),
];

#[test]
fn functions_make_what_their_vectors_say(rt: HostRuntime) {
    check_all(&rt, 0, &MADE);
}

/// A search above 10 among the values up to 10, and up to 11.
const SEARCHED: [(&str, &str); 2] = [
    (
        "client\nput k1 1\nput k2 2\nput k3 3\nput k4 4\nput k5 5\nput k6 6\nput k7 7\nput k8 8\nput k9 9\nput k10 10\nquery\nsearch above 10 1\n",
        "client 0\nnone\nnone\nnone\nnone\nnone\nnone\nnone\nnone\nnone\nnone\nnone\n",
    ),
    (
        "client\nput k1 1\nput k2 2\nput k3 3\nput k4 4\nput k5 5\nput k6 6\nput k7 7\nput k8 8\nput k9 9\nput k10 10\nput k11 11\nquery\nsearch above 10 1\n",
        "client 0\nnone\nnone\nnone\nnone\nnone\nnone\nnone\nnone\nnone\nnone\nnone\nsome 11\n",
    ),
];

#[test]
fn a_search_finds_a_value_above_its_bound_alone(rt: HostRuntime) {
    check_all(&rt, 0, &SEARCHED);
}

/// Two keys of one hash, in a table of any size and under any salt.
#[test]
fn keys_of_one_code_are_two_keys(rt: HostRuntime) {
    let script = b"client\nput Aa 1\nput BB 2\nquery\ncount\nlist 1\n";
    let wanted = "client 0\nnone\nnone\n2\nAa 1\nBB 2\n";
    for (workers, capacity, salt) in &[(4, 4096, 0), (1, 1, 4294967295)] {
        let options = options(&rt, *workers, *capacity, *salt);
        check_with(&rt, &options, script, 0, wanted);
    }
}

/// Scripts with bad lines, and what is told of the first.
const BAD: [(&str, &str); 20] = [
    ("", "mapcli: line 1: missing\n"),
    ("query\n", "mapcli: line 1: word\n"),
    ("client\n\n", "mapcli: line 2: spaces\n"),
    ("client\nput a\n", "mapcli: line 2: count\n"),
    ("client\nput a 1 2\n", "mapcli: line 2: count\n"),
    ("client\nput a-b 1\n", "mapcli: line 2: key\n"),
    ("client\nput a -0\n", "mapcli: line 2: number\n"),
    (
        "client\nput a 9223372036854775808\n",
        "mapcli: line 2: number\n",
    ),
    ("client\ncompute a sum\n", "mapcli: line 2: count\n"),
    ("client\ncompute a drop 1\n", "mapcli: line 2: count\n"),
    ("client\ncompute a min 1\n", "mapcli: line 2: function\n"),
    (
        "client\nquery\nsearch below 1 1\n",
        "mapcli: line 3: function\n",
    ),
    ("client\nquery\nget a\n", "mapcli: line 3: word\n"),
    ("client\nquery\nlist -1\n", "mapcli: line 3: number\n"),
    ("client\nput a 01\nquery\n", "mapcli: line 2: number\n"),
    ("client\nquery", "mapcli: line 2: cut\n"),
    ("client\n", "mapcli: line 2: missing\n"),
    ("client\r\nquery\r\n", "mapcli: line 1: bytes\n"),
    (
        "client\nput a 1\nput b\nput c 01\n",
        "mapcli: line 3: count\n",
    ),
    (
        "client\nquery\nlist 18446744073709551616\n",
        "mapcli: line 3: number\n",
    ),
];

/// The first bad line of each script, and what is wrong with it.
#[test]
fn bad_scripts_print_nothing_and_name_their_first_bad_line(rt: HostRuntime) {
    check_all(&rt, 1, &BAD);
}

/// The shortest and the longest beginnings of a script that tell the same, by their lengths, with the status.
const BEGINNINGS: [(usize, usize, u8, &str); 10] = [
    (0, 0, 1, "mapcli: line 1: missing\n"),
    (1, 6, 1, "mapcli: line 1: cut\n"),
    (7, 7, 1, "mapcli: line 2: missing\n"),
    (8, 14, 1, "mapcli: line 2: cut\n"),
    (15, 15, 1, "mapcli: line 3: missing\n"),
    (16, 20, 1, "mapcli: line 3: cut\n"),
    (21, 21, 1, "mapcli: line 4: missing\n"),
    (22, 26, 1, "mapcli: line 4: cut\n"),
    (27, 27, 0, "client 0\nnone\nsome 1\n"),
    (28, 32, 1, "mapcli: line 5: cut\n"),
];

/// What each beginning of a script tells, by its length in bytes.
#[test]
fn runs_of_beginnings_of_a_script(rt: HostRuntime) {
    let mut lengths = 0usize;
    for (first, last, status, wanted) in &BEGINNINGS {
        for length in *first..=*last {
            let (beginning, _) = PUT_AND_GET.split_at(length.min(PUT_AND_GET.len()));
            check(&rt, beginning, *status, wanted);
            lengths = lengths.wrapping_add(1);
        }
    }
    assert!(rt; lengths == PUT_AND_GET.len());
    check(&rt, PUT_AND_GET, 0, "client 0\nnone\nsome 1\n1\n");
}
