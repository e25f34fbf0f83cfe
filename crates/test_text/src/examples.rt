//! The examples of the calls of a map of texts, each as it stands with its call.
ghost use Rattle.std.specs.Prelude.{◌≡◌};
ghost use Rattle.bin_history.specs.declared.form.Form.TheVariants.{Lean};

use crate::asserts::assert_same;
use clients::NoFunction;
use std::alloc::Global;
use std::random::RandomSource;
use std::sync::Wait;
use text_maps::{Seed, TextClient, TextFault, TextMap};

/// A map of these examples, and a client of it.
type Texts = TextMap<u64, NoFunction, Global>;

type Caller = TextClient<u64, NoFunction, Global>;

/// The examples at the other queries, and at what a map says of itself, where it has 5 at "a".
fn look<R: Wait>(rt: &R, text: &Texts, client: &mut Caller) -> Result<[bool; 4], TextFault>
    requires { client.old.map.ledger.form ≡ Lean }
{
    let by_bytes = client.get_as(rt, text.of_bytes(b"a"))? == Some(5);
    let seed = text.seed();
    let by_seed = client.get_as(rt, seed.query(b"a"))? == Some(5);
    let counted = text.map().mapping_count() == 1;
    let clients = text.shared().map().clients() == 65_536;
    Ok([by_bytes, by_seed, counted, clients])
}

/// The example at another handle.
fn again(text: &Texts) -> Result<bool, TextFault> {
    let other = text.again()?;
    Ok(other.seed() == text.seed())
}

/// The examples at a client that is waited for, and at a close after a moment.
fn close_knowing<R: Wait>(rt: &R, text: Texts) -> Result<bool, TextFault> {
    let mut client = text.client_when_in(rt)?;
    let moment = client.moment();
    drop(client);
    let closed = text.close_knowing(moment)?;
    Ok(closed.get("a").copied() == Some(5))
}

/// The examples at the opening and at the queries.
fn query<R: RandomSource + Wait>(
    rt: &R,
    alloc: Global,
) -> Result<([bool; 4], [bool; 4]), TextFault> {
    let text: TextMap<u64, NoFunction, Global> = TextMap::new(rt, alloc, 16)?;
    let mut client = text.client()?;
    let put = client.put_as(rt, text.of("a"), 5)? == None;
    let got = client.get_as(rt, text.of("a"))? == Some(5);
    let looked = look(rt, &text, &mut client)?;
    drop(client);
    let same = again(&text)?;
    Ok(([put, got, same, close_knowing(rt, text)?], looked))
}

/// The examples at the close.
fn close<R: Wait>(rt: &R, alloc: Global) -> Result<[bool; 3], TextFault> {
    let text: TextMap<u64, NoFunction, Global> = TextMap::with_seed(alloc, 16, Seed::of(1, 2))?;
    let mut client = text.client()?;
    client.put_as(rt, text.of("a"), 5)?;
    drop(client);
    let closed = text.close()?;
    let by_text = closed.get("a").copied() == Some(5);
    let by_query = closed.quiet.get_as(closed.of("a")).copied() == Some(5);
    let text = TextMap::reopen(&closed, 65_536)?;
    drop(closed);
    let closed = text.close().map_err(|refused| refused.give_up())?;
    Ok([by_text, by_query, closed.get("a").copied() == Some(5)])
}

#[test]
fn each_example_of_a_map_of_texts_is_as_it_says(rt: HostRuntime) {
    let opened = query(&rt, rt.alloc()).expect(&rt, "no fault");
    let closed = close(&rt, rt.alloc()).expect(&rt, "no fault");
    assert_same(&rt, &(opened, closed), &(([true; 4], [true; 4]), [true; 3]));
}
