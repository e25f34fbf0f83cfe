//! Clients that come and go: a shared map lends each pass to one client at a time, and is closed
//! when all are back.
use crate::asserts::assert_same;
use crate::maps::{Numbers, Owned, close, share};
use crate::shared::AddFive;
use clients::{Fault, SharedMap};
use std::process::Abort;
use std::sync::Wait;

/// What is done with a shared map, or by the client in a place.
#[derive(Clone, Copy)]
enum Act {
    /// A client is taken out, into this place.
    Take(usize),
    /// The client of this place comes back.
    Bring(usize),
    /// The client of this place puts a value at a key.
    Put(usize, u64, u64),
    Get(usize, u64),
    /// It works: it adds 5 at its number.
    Add(usize),
    Count,
    Close,
}

/// The number of the client that was taken out, the value of a call, or how many keys there are. A call in a
/// place without a client fails with `BinMissing`, which no row wants.
type Found = Result<Option<u64>, Fault>;

/// A shared map, until it is closed, and the clients that are out, each in its place.
#[derive(Drop)]
struct Outside {
    map: Option<Numbers>,
    clients: [Option<Owned>; 4],
}

impl Outside {
    fn of(map: Numbers) -> Outside {
        Outside {
            map: Some(map),
            clients: [None, None, None, None],
        }
    }

    fn take(&mut self, place: usize) -> Found {
        let Some(map) = &self.map else {
            return Ok(None);
        };
        let client = map.client()?;
        let number = client.number() as u64;
        if let Some(seat) = self.clients.get_mut(place) {
            *seat = Some(client);
        }
        Ok(Some(number))
    }

    fn bring(&mut self, place: usize) {
        if let Some(seat) = self.clients.get_mut(place) {
            *seat = None;
        }
    }

    /// Where the map is not closed it comes back.
    fn close(&mut self) -> Found {
        let Some(map) = self.map.take() else {
            return Ok(None);
        };
        match close(map) {
            Ok(keys) => Ok(Some(keys)),
            Err((fault, map)) => {
                self.map = map;
                Err(fault)
            }
        }
    }

    fn call<R: Wait>(&mut self, rt: &R, place: usize, act: Act) -> Found {
        let Some(Some(client)) = self.clients.get_mut(place) else {
            return Err(Fault::BinMissing);
        };
        match act {
            Act::Put(_, key, value) => client.put(rt, key, value),
            Act::Get(_, key) => client.get(rt, &key),
            _ => client.work(rt, &AddFive),
        }
    }

    fn find<R: Wait>(&mut self, rt: &R, act: Act) -> Found {
        match act {
            Act::Take(place) => self.take(place),
            Act::Bring(place) => {
                self.bring(place);
                Ok(None)
            }
            Act::Put(place, _, _) | Act::Get(place, _) | Act::Add(place) => {
                self.call(rt, place, act)
            }
            Act::Count => match &self.map {
                Some(map) => Ok(Some(map.map().mapping_count())),
                None => Ok(None),
            },
            Act::Close => self.close(),
        }
    }
}

/// Does what the rows say on a map, and asserts that each finds what it should. Answers the map, if it
/// is not closed.
fn follow<R: Wait + Abort>(rt: &R, map: Numbers, rows: &[(Act, Found)]) -> Option<Numbers> {
    let mut outside = Outside::of(map);
    for (line, (act, wanted)) in rows.iter().enumerate() {
        let found = outside.find(rt, *act);
        assert_same(rt, &(line, found), &(line, *wanted));
    }
    let Outside { map, clients } = outside;
    drop(clients);
    map
}

const CLOSED_WHEN_BACK: [(Act, Found); 9] = [
    (Act::Take(0), Ok(Some(0))),
    (Act::Take(1), Ok(Some(1))),
    (Act::Take(2), Err(Fault::NoClient)),
    (Act::Put(0, 1, 5), Ok(None)),
    (Act::Bring(0), Ok(None)),
    (Act::Close, Err(Fault::PassMissing)),
    (Act::Get(1, 1), Ok(Some(5))),
    (Act::Bring(1), Ok(None)),
    (Act::Close, Ok(Some(1))),
];

/// While a client is out the map is not closed: it comes back, and the client goes on.
#[test]
fn a_shared_map_is_closed_when_all_clients_are_back(rt: HostRuntime) {
    let map = share(rt.alloc(), 2).expect(&rt, "no fault");
    drop(follow(&rt, map, &CLOSED_WHEN_BACK));
}

const FAILED_CLOSE: [(Act, Found); 13] = [
    (Act::Take(0), Ok(Some(0))),
    (Act::Take(1), Ok(Some(1))),
    (Act::Take(2), Ok(Some(2))),
    (Act::Bring(2), Ok(None)),
    (Act::Bring(0), Ok(None)),
    (Act::Close, Err(Fault::PassMissing)),
    (Act::Take(0), Ok(Some(0))),
    (Act::Take(2), Ok(Some(2))),
    (Act::Take(3), Err(Fault::NoClient)),
    (Act::Bring(0), Ok(None)),
    (Act::Bring(1), Ok(None)),
    (Act::Bring(2), Ok(None)),
    (Act::Close, Ok(Some(0))),
];

/// A close that fails loses no client: all that are back are taken out again, the last one first.
#[test]
fn a_failed_close_leaves_all_clients(rt: HostRuntime) {
    let map = share(rt.alloc(), 3).expect(&rt, "no fault");
    drop(follow(&rt, map, &FAILED_CLOSE));
}

/// The client of each pass that a map has back and how many calls each made, how many passes there are,
/// and how many keys.
type Books = ([Option<(u32, u64)>; 3], usize, u64);

fn books_of(map: Option<Numbers>) -> Result<Books, Fault> {
    let Some(map) = map else {
        return Err(Fault::BinMissing);
    };
    let unshared = map.unshare()?;
    let passes = unshared.passes();
    let mut books = [None; 3];
    for number in 0..3usize {
        if let Some(pass) = passes.get(number) {
            books[number] = Some((pass.client(), pass.made()));
        }
    }
    let count = passes.len();
    Ok((books, count, unshared.close()?.mapping_count()))
}

const TAKEN_AGAIN: [(Act, Found); 7] = [
    (Act::Take(0), Ok(Some(0))),
    (Act::Add(0), Ok(Some(5))),
    (Act::Count, Ok(Some(1))),
    (Act::Bring(0), Ok(None)),
    (Act::Take(0), Ok(Some(0))),
    (Act::Put(0, 0, 6), Ok(Some(5))),
    (Act::Bring(0), Ok(None)),
];

/// A client that was dropped is taken out again, and goes on where it was; its work is that of a
/// team's clients.
#[test]
fn a_client_comes_back_and_is_taken_out_again(rt: HostRuntime) {
    let map = share(rt.alloc(), 1).expect(&rt, "no fault");
    let books = books_of(follow(&rt, map, &TAKEN_AGAIN));
    assert_same(&rt, &books, &Ok(([Some((0, 3)), None, None], 1, 1)));
}

/// Fewer clients are taken than there may be: three of 65,536. The one that came back last is taken
/// first, and each pass comes back as its own client's. In round 0 clients 0, 1, 2 are made; they
/// come back as 1, 0, 2, so that round 1 takes 2, 0, 1; these come back as 0, 2, 1, so that round 2
/// takes 1, 2, 0. Each puts the round at its number.
const THREE_ROUNDS: [(Act, Found); 27] = [
    (Act::Take(0), Ok(Some(0))),
    (Act::Take(1), Ok(Some(1))),
    (Act::Take(2), Ok(Some(2))),
    (Act::Put(0, 0, 0), Ok(None)),
    (Act::Put(1, 1, 0), Ok(None)),
    (Act::Put(2, 2, 0), Ok(None)),
    (Act::Bring(1), Ok(None)),
    (Act::Bring(0), Ok(None)),
    (Act::Bring(2), Ok(None)),
    (Act::Take(0), Ok(Some(2))),
    (Act::Take(1), Ok(Some(0))),
    (Act::Take(2), Ok(Some(1))),
    (Act::Put(0, 2, 1), Ok(Some(0))),
    (Act::Put(1, 0, 1), Ok(Some(0))),
    (Act::Put(2, 1, 1), Ok(Some(0))),
    (Act::Bring(1), Ok(None)),
    (Act::Bring(0), Ok(None)),
    (Act::Bring(2), Ok(None)),
    (Act::Take(0), Ok(Some(1))),
    (Act::Take(1), Ok(Some(2))),
    (Act::Take(2), Ok(Some(0))),
    (Act::Put(0, 1, 2), Ok(Some(1))),
    (Act::Put(1, 2, 2), Ok(Some(1))),
    (Act::Put(2, 0, 2), Ok(Some(1))),
    (Act::Bring(1), Ok(None)),
    (Act::Bring(0), Ok(None)),
    (Act::Bring(2), Ok(None)),
];

#[test]
fn fewer_clients_are_taken_than_there_are(rt: HostRuntime) {
    let map = SharedMap::new(rt.alloc(), 1).expect(&rt, "no fault");
    let books = books_of(follow(&rt, map, &THREE_ROUNDS));
    let wanted = [Some((0, 3)), Some((1, 3)), Some((2, 3))];
    assert_same(&rt, &books, &Ok((wanted, 3, 3)));
}
