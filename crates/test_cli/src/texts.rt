//! Scripts by their texts, and texts that are no script.
use bin_history::{Call, Remap};
use hashkeys::Key;
use script::{Fault, Function, Kind, ParseError, Query, parse};
use std::alloc::{AllocError, Global};
use std::process::Abort;

/// The line and the kind of a text's fault; 0 and nothing, where it is a script.
type Found = (u64, &'static str);

const SCRIPT: Found = (0, "");

fn fault_of(rt: &impl Abort, alloc: Global, text: &[u8]) -> Found {
    match parse(alloc, text) {
        Ok(_) => SCRIPT,
        Err(ParseError::Fault(fault)) => (fault.line, fault.kind.text()),
        Err(ParseError::NoMemory) => panic!(rt; "no memory"),
    }
}

/// Asserts that a text has this fault, or is a script.
fn assert_fault(rt: &impl Abort, alloc: Global, text: &[u8], wanted: Found) {
    let found = fault_of(rt, alloc, text);
    assert!(rt; found == wanted, "{text:?}: {found:?}");
}

/// A text, and its fault.
type Row = (&'static [u8], Found);

/// Asserts the faults of texts.
fn assert_faults(rt: &impl Abort, alloc: Global, rows: &[Row]) {
    for (text, wanted) in rows {
        assert_fault(rt, alloc, text, *wanted);
    }
}

const FAULTS: [Row; 14] = [
    (b"", (1, "missing")),
    (b"query\n", (1, "word")),
    (b"client\n\n", (2, "spaces")),
    (b"client\nput a\n", (2, "count")),
    (b"client\nput a 1 2\n", (2, "count")),
    (b"client\nput a-b 1\n", (2, "key")),
    (b"client\nput a -0\n", (2, "number")),
    (b"client\nput a 9223372036854775808\n", (2, "number")),
    (b"client\ncompute a sum\n", (2, "count")),
    (b"client\ncompute a drop 1\n", (2, "count")),
    (b"client\ncompute a min 1\n", (2, "function")),
    (b"client\nquery\nsearch below 1 1\n", (3, "function")),
    (b"client\nquery\nget a\n", (3, "word")),
    (b"client\nquery\nlist -1\n", (3, "number")),
];

#[test]
fn the_fault_table(rt: HostRuntime) {
    assert_faults(&rt, rt.alloc(), &FAULTS);
}

/// Texts that fail by more than one test.
const FIRST_TESTS: [Row; 12] = [
    (b"cl\x00 ent  ", (1, "cut")),
    (b"client\n \x09 nothing\nclient\n", (2, "bytes")),
    (b"client\nnothing  at a-b\n", (2, "spaces")),
    (b"client\nnothing a-b x\n", (2, "word")),
    (b"client\nput a-b x y\n", (2, "key")),
    (b"client\nput a x y\n", (2, "number")),
    (b"client\nput a-b\n", (2, "key")),
    (b"client x\n", (1, "count")),
    (b"client\nquery x\n", (2, "count")),
    (b"client\nmerge a 1 min 1\n", (2, "function")),
    (b"client\nquery\nreduce sum\n", (3, "count")),
    (b"client\nquery\nsearch above 1\n", (3, "count")),
];

/// The first failing test gives the kind, though later ones fail as well.
#[test]
fn the_first_failing_test_decides(rt: HostRuntime) {
    assert_faults(&rt, rt.alloc(), &FIRST_TESTS);
}

/// Texts with more than one bad line.
const FIRST_LINES: [Row; 3] = [
    (b"client\nget a\nget\nput a\nquer", (3, "count")),
    (b"client\nget a\n", (3, "missing")),
    (b"client\nquery\ncount", (3, "cut")),
];

/// The first bad line decides, though later ones are bad as well.
#[test]
fn the_first_bad_line_decides(rt: HostRuntime) {
    assert_faults(&rt, rt.alloc(), &FIRST_LINES);
}

/// The shortest and the longest beginnings of a script that have one fault, by their lengths.
const BEGINNINGS: [(usize, usize, Found); 10] = [
    (0, 0, (1, "missing")),
    (1, 6, (1, "cut")),
    (7, 7, (2, "missing")),
    (8, 14, (2, "cut")),
    (15, 15, (3, "missing")),
    (16, 20, (3, "cut")),
    (21, 21, (4, "missing")),
    (22, 26, (4, "cut")),
    (27, 27, SCRIPT),
    (28, 32, (5, "cut")),
];

/// Each beginning of a script has one fault, by its length, until the place of the queries is
/// reached.
#[test]
fn beginnings_of_a_script(rt: HostRuntime) {
    let text = b"client\nput a 1\nget a\nquery\ncount\n".as_slice();
    let mut lengths = 0usize;
    for (first, last, wanted) in &BEGINNINGS {
        for length in *first..=*last {
            let (beginning, _) = text.split_at(length.min(text.len()));
            assert_fault(&rt, rt.alloc(), beginning, *wanted);
            lengths = lengths.wrapping_add(1);
        }
    }
    assert!(rt; lengths == text.len());
}

/// What a call says: its word, key, numbers and function.
type Said<'a> = (
    &'static str,
    &'a [u8],
    [Option<i64>; 2],
    Option<&'a Function>,
);

fn said(call: &Call<Key, i64, Function>) -> Said<'_> {
    match call {
        Call::Get(key) => ("get", key.bytes(), [None; 2], None),
        Call::Contains(key) => ("contains", key.bytes(), [None; 2], None),
        Call::Put(key, n) => ("put", key.bytes(), [Some(*n), None], None),
        Call::PutIfAbsent(key, n) => ("put_if_absent", key.bytes(), [Some(*n), None], None),
        Call::Remove(key) => ("remove", key.bytes(), [None; 2], None),
        Call::RemoveIf(key, n) => ("remove_if", key.bytes(), [Some(*n), None], None),
        Call::Replace(key, n) => ("replace", key.bytes(), [Some(*n), None], None),
        Call::ReplaceIf(key, n, m) => ("replace_if", key.bytes(), [Some(*n), Some(*m)], None),
        Call::ComputeIfAbsent(key, f) => ("compute_if_absent", key.bytes(), [None; 2], Some(f)),
        Call::ComputeIfPresent(key, f) => ("compute_if_present", key.bytes(), [None; 2], Some(f)),
        Call::Compute(key, f) => ("compute", key.bytes(), [None; 2], Some(f)),
        Call::Merge(key, n, f) => ("merge", key.bytes(), [Some(*n), None], Some(f)),
    }
}

/// Every form of a call, with what it says.
#[test]
fn every_form_of_a_call(rt: HostRuntime) {
    let text =
        b"client\nget a\ncontains b\nput c 1\nput_if_absent d -2\nremove e\nremove_if f 3\nreplace g 4\n\
replace_if h 5 6\ncompute_if_absent i sum 7\ncompute_if_present j max -8\ncompute k set 9\nmerge l 10 drop\n\
client\nquery\n";
    let script = parse(rt.alloc(), text).ok().expect(&rt, "a script");
    let functions = [
        Function::Sum(7),
        Function::Max(-8),
        Function::Set(9),
        Function::Drop,
    ];
    let [sum, max, set, take] = &functions;
    let wanted: [Said<'_>; 12] = [
        ("get", b"a", [None; 2], None),
        ("contains", b"b", [None; 2], None),
        ("put", b"c", [Some(1), None], None),
        ("put_if_absent", b"d", [Some(-2), None], None),
        ("remove", b"e", [None; 2], None),
        ("remove_if", b"f", [Some(3), None], None),
        ("replace", b"g", [Some(4), None], None),
        ("replace_if", b"h", [Some(5), Some(6)], None),
        ("compute_if_absent", b"i", [None; 2], Some(sum)),
        ("compute_if_present", b"j", [None; 2], Some(max)),
        ("compute", b"k", [None; 2], Some(set)),
        ("merge", b"l", [Some(10), None], Some(take)),
    ];
    let mut blocks = script.blocks.iter();
    let calls = blocks.next().expect(&rt, "a block");
    let is_second_empty = blocks.next().is_some_and(|block| block.is_empty());
    let is_third = blocks.next().is_some();
    assert!(rt; calls.len() == 12 && is_second_empty && !is_third);
    for (call, wanted) in calls.iter().zip(wanted) {
        assert!(rt; said(call) == wanted, "{}", wanted.0);
    }
}

/// Every form of a query.
#[test]
fn every_form_of_a_query(rt: HostRuntime) {
    let text = b"client\nquery\ncount\nreduce sum 1\nreduce max 2\nsearch above -3 4\nlist 5\n";
    let script = parse(rt.alloc(), text).ok().expect(&rt, "a script");
    let queries = [
        Query::Count,
        Query::ReduceSum(1),
        Query::ReduceMax(2),
        Query::SearchAbove(-3, 4),
        Query::List(5),
    ];
    assert!(rt; script.queries.as_slice() == queries.as_slice());
}

/// A text of some first bytes, a line as often as is asked, and some last bytes.
fn repeated(
    alloc: Global,
    first: &[u8],
    line: &[u8],
    times: u32,
    last: &[u8],
) -> Result<Vec<u8>, AllocError> {
    let mut text = Vec::from_slice(alloc, first)?;
    for _ in 0..times {
        text.extend_from_slice(line)?;
    }
    text.extend_from_slice(last)?;
    Ok(text)
}

/// A text as its first bytes, a line and its last bytes, how often it has the line, and its fault.
type Repeated = ([&'static [u8]; 3], u32, Found);

/// Asserts the fault of such a text.
fn assert_repeated(rt: &impl Abort, alloc: Global, row: &Repeated) {
    let (parts, times, wanted) = row;
    let text = repeated(alloc, parts[0], parts[1], *times, parts[2]).expect(rt, "memory");
    assert_fault(rt, alloc, &text, *wanted);
}

fn assert_all_repeated(rt: &impl Abort, alloc: Global, rows: &[Repeated]) {
    for row in rows {
        assert_repeated(rt, alloc, row);
    }
}

/// Blocks, calls and queries, so many as there may be and more.
const LIMITS: [Repeated; 5] = [
    ([b"", b"client\n", b"query\n"], 32, SCRIPT),
    ([b"", b"client\n", b"query\n"], 33, (33, "limit")),
    ([b"client\n", b"get a\n", b"query\n"], 1_000_000, SCRIPT),
    (
        [b"client\n", b"get a\n", b"query\n"],
        1_000_001,
        (1_000_002, "limit"),
    ),
    ([b"client\nquery\n", b"count\n", b""], 65_536, SCRIPT),
];

/// Queries have none.
#[test]
fn blocks_and_calls_have_a_limit(rt: HostRuntime) {
    assert_all_repeated(&rt, rt.alloc(), &LIMITS);
}

/// Scripts of a client's calls, of queries and of clients, so many each.
#[test]
fn scripts_of_each_size_have_their_memory(rt: HostRuntime) {
    let calls: [&'static [u8]; 3] = [b"client\n", b"put a 1\n", b"query\n"];
    let queries: [&'static [u8]; 3] = [b"client\nquery\n", b"list 5\n", b""];
    let blocks: [&'static [u8]; 3] = [b"", b"client\nput a 1\n", b"query\n"];
    for level in 0..17u32 {
        assert_repeated(&rt, rt.alloc(), &(calls, 1 << level, SCRIPT));
        assert_repeated(&rt, rt.alloc(), &(queries, 1 << level, SCRIPT));
        assert_repeated(&rt, rt.alloc(), &(blocks, 1 << level.min(5), SCRIPT));
    }
}

/// A byte that is not printable, at the beginning, in the middle and at the end of a line.
#[test]
fn bytes_that_are_not_printable(rt: HostRuntime) {
    for byte in &[0u8, 9, 13, 31, 127, 128, 255] {
        for place in &[7usize, 9, 12] {
            let mut text = *b"client\nget ab\nquery\n";
            if *place < 19 {
                text[*place] = *byte;
            }
            assert_fault(&rt, rt.alloc(), &text, (2, "bytes"));
        }
    }
    assert_fault(&rt, rt.alloc(), b"client\r\nquery\r\n", (1, "bytes"));
}

const LONG: [Repeated; 4] = [
    ([b"client\n", b" ", b"\n"], 10_000_000, (2, "spaces")),
    ([b"client\n", b" ", b""], 10_000_000, (2, "cut")),
    ([b"client\nput a ", b"1", b"\n"], 1_000_000, (2, "number")),
    ([b"client\nget a", b" b", b"\n"], 1_000_000, (2, "count")),
];

#[test]
fn long_lines(rt: HostRuntime) {
    assert_all_repeated(&rt, rt.alloc(), &LONG);
}

const VALUES: [(&[u8], bool); 12] = [
    (b"0", true),
    (b"-1", true),
    (b"9223372036854775807", true),
    (b"9223372036854775808", false),
    (b"-9223372036854775808", true),
    (b"-9223372036854775809", false),
    (b"-0", false),
    (b"+1", false),
    (b"01", false),
    (b"-01", false),
    (b"-", false),
    (b"1a", false),
];

const THRESHOLDS: [(&[u8], bool); 7] = [
    (b"0", true),
    (b"1", true),
    (b"18446744073709551615", true),
    (b"18446744073709551616", false),
    (b"-1", false),
    (b"+1", false),
    (b"00", false),
];

/// Asserts which words between the first and the last bytes are numbers, on this line.
fn assert_numbers(
    rt: &impl Abort,
    alloc: Global,
    (first, last, line): (&'static [u8], &'static [u8], u64),
    words: &[(&'static [u8], bool)],
) {
    for (word, is_number) in words {
        let wanted = if *is_number { SCRIPT } else { (line, "number") };
        assert_repeated(rt, alloc, &([first, *word, last], 1, wanted));
    }
}

/// Numbers at and beyond each end of their range, and other spellings.
#[test]
fn numbers_and_their_range(rt: HostRuntime) {
    assert_numbers(
        &rt,
        rt.alloc(),
        (b"client\nput a ", b"\nquery\n", 2),
        &VALUES,
    );
    assert_numbers(
        &rt,
        rt.alloc(),
        (b"client\nquery\nlist ", b"\n", 3),
        &THRESHOLDS,
    );
}

const LENGTHS: [Repeated; 4] = [
    ([b"client\nget ", b"k", b"\nquery\n"], 1, SCRIPT),
    ([b"client\nget ", b"k", b"\nquery\n"], 32, SCRIPT),
    ([b"client\nget ", b"k", b"\nquery\n"], 33, (2, "key")),
    ([b"client\nget ", b"a-b", b"\n"], 1, (2, "key")),
];

#[test]
fn keys_have_1_to_32_bytes(rt: HostRuntime) {
    assert_all_repeated(&rt, rt.alloc(), &LENGTHS);
}

/// What a function makes of a value, or of an absent key.
fn remapped(rt: &impl Abort, function: &Function, value: Option<i64>) -> Option<i64> {
    let key = Key::read(b"a").expect(rt, "a key");
    function.remap(&key, value.as_ref()).expect(rt, "memory")
}

/// What a function makes of 9 and 2 in a merge.
fn merged(rt: &impl Abort, function: &Function) -> Option<i64> {
    function.merge(&9, &2).expect(rt, "memory")
}

/// What the functions make of a value, of an absent key, and in a merge.
#[test]
fn functions(rt: HostRuntime) {
    let found = [
        remapped(&rt, &Function::Sum(3), None),
        remapped(&rt, &Function::Sum(-1), Some(i64::MIN)),
        remapped(&rt, &Function::Sum(1), Some(i64::MAX)),
        remapped(&rt, &Function::Max(3), Some(9)),
        remapped(&rt, &Function::Set(3), Some(9)),
        remapped(&rt, &Function::Drop, None),
    ];
    let wanted = [
        Some(3),
        Some(i64::MIN),
        Some(i64::MAX),
        Some(9),
        Some(3),
        None,
    ];
    assert!(rt; found == wanted, "{found:?}");
    let found = [
        merged(&rt, &Function::Drop),
        merged(&rt, &Function::Max(2)),
        merged(&rt, &Function::Sum(2)),
    ];
    assert!(rt; found == [None, Some(9), Some(11)], "{found:?}");
    assert!(rt; Function::Sum(3).clone().expect(&rt, "memory") == Function::Sum(3));
}

/// Asserts how an error is printed.
fn assert_printed(rt: &impl Abort, alloc: Global, error: &ParseError, wanted: &str) {
    let printed = format!(in alloc; "{error}").expect(rt, "memory");
    assert!(rt; printed.as_str() == wanted, "{wanted}");
}

/// The kinds of faults, and how one on line 7 is printed.
const KINDS: [(Kind, &str); 10] = [
    (Kind::Cut, "line 7: cut"),
    (Kind::Bytes, "line 7: bytes"),
    (Kind::Spaces, "line 7: spaces"),
    (Kind::Word, "line 7: word"),
    (Kind::Count, "line 7: count"),
    (Kind::Key, "line 7: key"),
    (Kind::Number, "line 7: number"),
    (Kind::Function, "line 7: function"),
    (Kind::Limit, "line 7: limit"),
    (Kind::Missing, "line 7: missing"),
];

/// Asserts how a fault of the kind on line 7 is printed, alone and as an error.
fn assert_fault_printed(rt: &impl Abort, alloc: Global, kind: Kind, text: &str) {
    let fault = Fault { line: 7, kind };
    let printed = format!(in alloc; "{fault}").expect(rt, "memory");
    assert!(rt; printed.as_str() == text, "{text}");
    assert_printed(rt, alloc, &ParseError::from(fault), text);
    assert!(rt; text.strip_prefix("line 7: ") == Some(kind.text()));
}

/// How faults are printed.
#[test]
fn faults_are_printed(rt: HostRuntime) {
    for (kind, text) in &KINDS {
        assert_fault_printed(&rt, rt.alloc(), *kind, text);
    }
    assert_printed(&rt, rt.alloc(), &ParseError::NoMemory, "no memory");
}
