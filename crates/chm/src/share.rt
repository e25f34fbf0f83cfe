//! Threads that share a map.
ghost use Rattle.std.specs.Prelude.{◌≡◌, ◌<◌, ℕ, length, All, IfOk, OnErr, slice_index_or};
ghost use Rattle.chm.specs.Shares.{AreSameClients, HasEnded, HaveWorked};

use crate::map::Map;
use bin_history::{MOST_CLIENTS, Remap, Value};
use count_ledger::Pass;
use hashkeys::HashKey;
use part_walks::{Seat, room_for, seat_all, unseat_all};
use std::alloc::{AllocError, Allocator};
use std::sync::Wait;
use std::thread;
use std::thread::Threads;

/// What each of the clients that share a map does, in a thread of its own, by calls with the pass
/// that it is lent.
pub trait Sharing<K: HashKey, V: Value, F: Remap<K, V>, A: Allocator> {
    ghost use Rattle.count_ledger.specs.Views.{LedgerView, PassView};

    /// What each client answers.
    type Out: Drop;

    // The ledgers of the maps with which the work can be done.
    ghost fits: { Self → LedgerView K V → Type 0 } = { λ _ _. Unit {0} };

    // What the work may leave of a pass, and answer.
    ghost does: { Self → PassView K V F → PassView K V F → Self.Out → Type 0 } = { λ _ _ _ _.
        Unit {0} };

    /// The work of the client whose pass it is: `pass.client()` is its number.
    fn work<R: Wait>(&self, rt: &R, map: &Map<K, V, F, A>, pass: &mut Pass<K, V, F>) -> Self::Out
        requires pass { pass.old.ledger ≡ map.now.ledger.id }
        requires fits { fits self.now map.now.ledger }
        ensures ledger { pass.new.ledger ≡ pass.old.ledger }
        ensures client { pass.new.client ≡ pass.old.client }
        ensures done { does self.now pass.old pass.new result };
}

/// All clients work at the same time.
fn work_all<
    K: HashKey + Send + Sync,
    V: Value + Send + Sync,
    F: Remap<K, V> + Send + Sync,
    A: Allocator + Send + Sync,
    R: Threads + Wait + Sync,
    W: Sharing<K, V, F, A> + Sync,
>(rt: &R, map: &Map<K, V, F, A>, work: &W, seats: &mut [Seat<K, V, F, W::Out>])
where
    W::Out: Send,
    requires own { All (λ s. s.pass.ledger ≡ map.now.ledger.id) seats.old }
    requires fits { W.fits work.now map.now.ledger }
    ensures len { length seats.new ≡ length seats.old }
    ensures ended { (i : ℕ) (d : _) → i < length seats.old →
        HasEnded (W.does work.now) (slice_index_or seats.old i d) (slice_index_or seats.new i d) }
{
    let lend = |_number: usize, seat: &mut Seat<K, V, F, W::Out>|
        requires own { seat.now.pass.ledger ≡ map.now.ledger.id }
        requires fits { W.fits work.now map.now.ledger }
        ensures { HasEnded (W.does work.entry.now) seat.entry.now seat.exit.now }
    { seat.part = Some(work.work(rt, map, &mut seat.pass)) };
    thread::for_each_mut(rt, seats, MOST_CLIENTS as usize, &lend);
}

impl<K: HashKey, V: Value, F: Remap<K, V>, A: Allocator + Clone> Map<K, V, F, A> {
    /// Lends each pass to a thread of its own, in which the work makes calls of the map, all at the
    /// same time; where a thread cannot be started its client works in a thread that there is,
    /// after others, so no client may wait for another. All have ended when this returns, and the
    /// passes are back in their order, each of the map still and as the work left it. It returns
    /// what the clients returned, in the order of the passes. Its cost beside the work is linear in
    /// the number of passes.
    ///
    /// Where each of four clients adds 1 at 1, as `map.merge(rt, pass, 1, 1, Plus(0))` does, and
    /// answers its number:
    ///
    ///     map.share(rt, &mut passes, &AddOne)?.as_slice() == [0, 1, 2, 3].as_slice()
    ///     map.glance(rt, &1)? == Some(4)
    ///
    /// # Errors
    ///
    /// For want of memory, before any client began.
    pub fn share<R: Threads + Wait + Sync, W: Sharing<K, V, F, A> + Sync>(
        &self,
        rt: &R,
        passes: &mut Vec<Pass<K, V, F>, A>,
        work: &W,
    ) -> Result<Vec<W::Out, A>, AllocError>
    where
        K: Send + Sync,
        V: Send + Sync,
        F: Send + Sync,
        A: Send + Sync,
        W::Out: Send,
        requires own { All (λ p. p.ledger ≡ self.now.ledger.id) passes.old.items }
        requires fits { W.fits work.now self.now.ledger }
        ensures own { All (λ p. p.ledger ≡ self.now.ledger.id) passes.new.items }
        ensures len { length passes.new.items ≡ length passes.old.items }
        ensures clients { AreSameClients passes.old.items passes.new.items }
        ensures done { IfOk result (λ answers. HaveWorked (W.does work.now) passes.old.items
            passes.new.items answers.items) }
        ensures refused { OnErr result (passes.new.items ≡ passes.old.items) }
    {
        let (mut seats, mut answers) = room_for(self.resizer.allocator(), passes.len())?;
        seat_all(passes, &mut seats);
        work_all(rt, self, work, &mut seats);
        unseat_all(seats, passes, &mut answers);
        Ok(answers)
    }
}
