//! What teams, shared maps and clients show of themselves.
use crate::asserts::assert_same;
use clients::{Add, Client, Fault, Loan, Salt, SharedMap, Team, Work};
use std::alloc::{AllocError, Global};
use std::sync::Wait;

/// Answers what the client shows of itself.
#[derive(Clone, Copy)]
struct Show {
    alloc: Global,
}

impl Work<u64, u64, Add, Global> for Show {
    type Out = Result<String, AllocError>;

    fn work<L: Loan, R: Wait>(
        &self,
        _rt: &R,
        client: &mut Client<'_, L, u64, u64, Add, Global>,
    ) -> Result<String, AllocError> {
        format!(in self.alloc; "{client:?}")
    }
}

/// What a team, its client, a shared map and an owned client of it show.
fn shown<R: Wait>(rt: &R, alloc: Global) -> Result<[String; 4], Fault> {
    let team = Team::<u64, u64, Add, Global>::new(alloc, 16, 1)?;
    let of_team = format!(in alloc; "{team:?}")?;
    let shared = SharedMap::with_salt(alloc, 16, 1, Salt(0))?;
    let of_shared = format!(in alloc; "{shared:?}")?;
    let mut owned = shared.client()?;
    let of_owned = format!(in alloc; "{owned:?}")?;
    let of_client = owned.work(rt, &Show { alloc })?;
    Ok([of_team, of_shared, of_owned, of_client])
}

#[test]
fn each_shows_its_map(rt: HostRuntime) {
    let [team, shared, owned, client] = shown(&rt, rt.alloc()).expect(&rt, "no fault");
    let map = "Map { form: Lean, clients: 1, keys: 0, .. }";
    let of_team = format!(in rt.alloc(); "Team {{ map: {map} }}").expect(&rt, "no fault");
    let of_shared = format!(in rt.alloc(); "SharedMap {{ map: {map} }}").expect(&rt, "no fault");
    let of_owned = format!(in rt.alloc(); "Client {{ number: 0, map: {map} }}").expect(
        &rt, "no fault",
    );
    let of_client = format!(in rt.alloc(); "Client {{ number: 0, map: {map} }}").expect(
        &rt, "no fault",
    );
    assert_same(&rt, &team, &of_team);
    assert_same(&rt, &shared, &of_shared);
    assert_same(&rt, &owned, &of_owned);
    assert_same(&rt, &client, &of_client);
}
