//! Maps of texts that are closed, that are not, and that are opened again.
use crate::asserts::assert_same;
use crate::calls::Texts;
use clients::Fault;
use std::alloc::Global;
use std::sync::Wait;
use text_maps::{ClosedTexts, Hashed, Seed, TextMap, TextNotClosed};

/// A map under this seed, in which 5 is at "a" and 6 at "b".
fn filled<R: Wait>(rt: &R, alloc: Global, seed: Seed) -> Result<Texts, Fault> {
    let text = TextMap::with_seed(alloc, 16, seed)?;
    let mut client = text.client()?;
    client.put_as(rt, text.of("a"), 5)?;
    client.put_as(rt, text.of("b"), 6)?;
    drop(client);
    Ok(text)
}

/// What a closed map has at "a", "b" and "c", by its own call and by a query of it.
fn found_in(
    closed: &ClosedTexts<u64, clients::Add, Global>,
) -> ([Option<u64>; 3], [Option<u64>; 3]) {
    let own = [
        closed.get("a").copied(),
        closed.get("b").copied(),
        closed.get("c").copied(),
    ];
    let by_query = [
        closed.quiet.get_as(closed.of("a")).copied(),
        closed.quiet.get_as(closed.of("b")).copied(),
        closed.quiet.get_as(closed.of("c")).copied(),
    ];
    (own, by_query)
}

/// The same of an open map.
fn found_by<R: Wait>(rt: &R, text: &Texts) -> Result<[Option<u64>; 3], Fault> {
    let mut client = text.client()?;
    Ok([
        client.get_as(rt, text.of("a"))?,
        client.get_as(rt, text.of("b"))?,
        client.get_as(rt, text.of("c"))?,
    ])
}

/// Closes a map, opens it again, and adds a text.
fn reopened<R: Wait>(rt: &R, alloc: Global) -> Result<([Option<u64>; 3], bool, u64), Fault> {
    let seed = Seed::of(3, 4);
    let closed = filled(rt, alloc, seed)?.close()?;
    let text = TextMap::reopen(&closed, 65_536)?;
    let mut client = text.client()?;
    client.put_as(rt, text.of("c"), 7)?;
    drop(client);
    let same = closed.seed == seed && text.seed() == seed;
    Ok((found_by(rt, &text)?, same, closed.quiet.mapping_count()))
}

#[test]
fn a_map_is_opened_again_with_its_texts_and_its_seed(rt: HostRuntime) {
    let wanted = ([Some(5), Some(6), Some(7)], true, 2);
    assert_same(&rt, &reopened(&rt, rt.alloc()), &Ok(wanted));
}

/// Returns what a map has that is filled and closed.
fn closed<R: Wait>(rt: &R, alloc: Global) -> Result<([Option<u64>; 3], [Option<u64>; 3]), Fault> {
    let closed = filled(rt, alloc, Seed::of(3, 4))?.close()?;
    Ok(found_in(&closed))
}

#[test]
fn a_closed_map_finds_its_texts(rt: HostRuntime) {
    let wanted = [Some(5), Some(6), None];
    assert_same(&rt, &closed(&rt, rt.alloc()), &Ok((wanted, wanted)));
}

/// The map that was not closed as a client was out, or another handle.
fn kept(
    refused: TextNotClosed<Hashed<Global>, u64, clients::Add, Global>,
) -> Option<(Fault, Texts)> {
    let TextNotClosed {
        fault,
        shared,
        unshared,
        seed: _,
    } = refused;
    let None = unshared else {
        return None;
    };
    match shared {
        Some(text) => Some((fault, text)),
        None => None,
    }
}

/// Closes a map while a client is out. Returns the fault, whether the map that comes back has its seed, and what it
/// has; or none, if it is closed or does not come back.
fn closed_too_early<R: Wait>(
    rt: &R,
    alloc: Global,
) -> Result<Option<(Fault, bool, [Option<u64>; 3])>, Fault> {
    let seed = Seed::of(3, 4);
    let text = filled(rt, alloc, seed)?;
    let client = text.client()?;
    let Err(refused) = text.close() else {
        return Ok(None);
    };
    let Some((fault, text)) = kept(refused) else {
        return Ok(None);
    };
    drop(client);
    let same = text.seed() == seed;
    let found = found_by(rt, &text)?;
    let closed = text.close()?;
    let is_closed = closed.get("b").copied() == Some(6);
    Ok(Some((fault, same && is_closed, found)))
}

#[test]
fn a_map_with_a_client_out_comes_back_with_its_seed(rt: HostRuntime) {
    let found = [Some(5), Some(6), None];
    let wanted = Ok(Some((Fault::PassMissing, true, found)));
    assert_same(&rt, &closed_too_early(&rt, rt.alloc()), &wanted);
}

/// What is printed of a map that is closed while a client is out; nothing, if it is closed.
fn printed_with_a_client_out(alloc: Global) -> Result<String, Fault> {
    let text: Texts = TextMap::with_seed(alloc, 16, Seed::of(3, 4))?;
    let client = text.client()?;
    let printed = match text.close() {
        Ok(_closed) => Ok(String::new(alloc)),
        Err(refused) => {
            let printed = format!(in alloc; "{refused}");
            refused.give_up();
            printed
        }
    };
    drop(client);
    Ok(printed?)
}

#[test]
fn a_map_that_was_not_closed_says_why(rt: HostRuntime) {
    let printed = printed_with_a_client_out(rt.alloc()).expect(&rt, "no fault");
    assert_same(&rt, &printed.as_str(), &"a client is still out");
}

/// Closes one of two handles. Returns the fault, and what the other has.
fn closed_of_two<R: Wait>(
    rt: &R,
    alloc: Global,
) -> Result<(Option<Fault>, [Option<u64>; 3]), Fault> {
    let text = filled(rt, alloc, Seed::of(3, 4))?;
    let other = text.again()?;
    let fault = match text.close() {
        Ok(_) => None,
        Err(refused) => Some(refused.give_up()),
    };
    Ok((fault, found_by(rt, &other)?))
}

#[test]
fn a_map_with_two_handles_is_not_closed_and_both_have_its_seed(rt: HostRuntime) {
    let wanted = (Some(Fault::PassMissing), [Some(5), Some(6), None]);
    assert_same(&rt, &closed_of_two(&rt, rt.alloc()), &Ok(wanted));
}

/// Puts a text, and closes the map knowing the moment after that. Returns what the put returns, and what the
/// closed map has at the text.
fn closed_knowing<R: Wait>(rt: &R, alloc: Global) -> Result<(Option<u64>, Option<u64>), Fault> {
    let text = filled(rt, alloc, Seed::of(3, 4))?;
    let mut client = text.client()?;
    let put = client.put_as(rt, text.of("c"), 7)?;
    let moment = client.moment();
    drop(client);
    let closed = text.close_knowing(moment)?;
    Ok((put, closed.get("c").copied()))
}

#[test]
fn a_map_is_closed_knowing_what_a_client_did(rt: HostRuntime) {
    let found = closed_knowing(&rt, rt.alloc());
    assert_same(&rt, &found, &Ok((None, Some(7))));
}
