//! What a client does with a map.
ghost use Rattle.std.specs.Prelude.{◌≡◌, IsSomeAnd};

use crate::client::ClientOf;
use crate::lent::{Client, Lent, Loan};
use bin_history::{Remap, Value};
use chm::{Map, Sharing};
use count_ledger::Pass;
use hashkeys::HashKey;
use std::alloc::Allocator;
use std::marker::{Brand, PhantomData};
use std::sync::Wait;

/// What each client of a team does, in a thread of its own, by calls with the pass that it is lent,
/// and what it returns.
pub trait Work<K: HashKey, V: Value, F: Remap<K, V>, A: Allocator> {
    ghost use Rattle.count_ledger.specs.Views.{LedgerView, PassView};

    /// What each client returns.
    type Out: Drop;

    // The ledgers of the maps with which the work can be done: where it brings moments, theirs;
    // where it makes calls that lean maps alone have, ledgers of lean maps.
    ghost fits: { Self → LedgerView K V → Type 0 } = { λ _ _. Unit {0} };

    // What the work may leave of a pass, and answer.
    ghost does: { Self → PassView K V F → PassView K V F → Self.Out → Type 0 } = { λ _ _ _ _.
        Unit {0} };

    /// The work of a client: `client.number()` is 0 for the first, and so on.
    fn work<L: Loan, R: Wait>(&self, rt: &R, client: &mut Client<'_, L, K, V, F, A>) -> Self::Out
        requires { fits self.now client.old.map.ledger }
        ensures { does self.now client.old.pass client.new.pass result };
}

/// Lets a client work whose loan is known, and gives the pass back. What the work returns is left
/// where it is wanted.
fn work_seated<
    'a,
    L: Loan,
    K: HashKey,
    V: Value,
    F: Remap<K, V>,
    A: Allocator,
    W: Work<K, V, F, A>,
    R: Wait,
>(
    rt: &R,
    map: &'a Map<K, V, F, A>,
    pass: &'a mut Pass<K, V, F>,
    work: &W,
    answer: &mut Option<W::Out>,
) -> &'a mut Pass<K, V, F>
    requires map { map.now.ledger.id ≡ L.ledger }
    requires pass { pass.old.ledger ≡ L.ledger }
    requires client { pass.old.client ≡ L.client }
    requires lent { pass.ghost_name ≡ L.lent }
    requires fits { W.fits work.now map.now.ledger }
    ensures lent { result.ghost_name ≡ pass.entry.ghost_name }
    ensures ledger { result.now.ledger ≡ L.ledger }
    ensures client { result.now.client ≡ L.client }
    ensures done { IsSomeAnd answer.new (W.does work.now pass.old result.now) }
{
    let holder: Lent<'a, 'a, L, K, V, F, A> = Lent {
        map,
        loan: PhantomData,
    };
    let mut client: Client<'a, L, K, V, F, A> = ClientOf::of(holder, pass);
    *answer = Some(work.work(rt, &mut client));
    let (_holder, pass) = client.into_parts();
    pass
}

/// Work that is lent: to all threads of a team, or to a client for a while.
#[derive(Clone, Copy)]
pub(crate) struct LentWork<'a, W> {
    pub(crate) work: &'a W,
}

impl<K: HashKey, V: Value, F: Remap<K, V>, A: Allocator, W: Work<K, V, F, A>> Sharing<K, V, F, A>
    for LentWork<'_, W> {
    type Out = W::Out;

    ghost fits = { λ lent ledger. W.fits lent.work.now ledger };

    ghost does = { λ lent old new answer. W.does lent.work.now old new answer };

    fn work<R: Wait>(&self, rt: &R, map: &Map<K, V, F, A>, pass: &mut Pass<K, V, F>) -> W::Out {
        let mut answer = None;
        let _pass = work_seated::<Brand, K, V, F, A, W, R>(rt, map, pass, self.work, &mut answer);
        match answer {
            Some(answer) => answer,
            None => unreachable!(),
        }
    }
}
