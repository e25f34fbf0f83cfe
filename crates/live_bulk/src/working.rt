//! Clients at work on their shares, all at the same time.
ghost use Rattle.std.specs.Prelude.{◌≡◌, ◌<◌, ◌≤◌, ℕ, length, All, IfOk, OnErr, slice_index_or};
ghost use Rattle.bin_history.specs.Calls.{after};
ghost use Rattle.hashkeys.specs.Classes.{IsTableSize};
ghost use Rattle.chm.specs.Shares.{AreSameClients};
ghost use Rattle.live_bulk.specs.Shared.{HasVisited, HaveShared};
ghost use Rattle.part_walks.specs.Parts.{most_shares};

use crate::visiting::visit_share;
use bin_history::{Remap, Value};
use bulk_tasks::{Gate, MOST_WORKERS};
use chm::{Map, Pass};
use hashkeys::HashKey;
use part_walks::{Seat, Stepper, bound, room_for, seat_all, share_of, unseat_all};
use std::alloc::{AllocError, Allocator};
use std::sync::Wait;
use std::thread;
use std::thread::Threads;

/// Tells the gate of a share that has indexes.
fn pass_gate<G: Gate>(gate: &G, n: u32, shares: usize, number: usize)
    requires size { IsTableSize n }
    requires shares { shares ≤ most_shares }
    requires number { number < shares }
{
    let lo = bound(n, shares as u64, number as u64);
    let hi = bound(n, shares as u64, number as u64 + 1);
    if lo < hi {
        gate.leaf(number % MOST_WORKERS, lo as usize, hi as usize);
    }
}

/// What the clients have in common: what they collect by, the gate before each share, and the size of
/// the table that is shared out, into so many shares.
#[derive(Drop)]
struct Job<'a, S, G> {
    stepper: &'a S,
    gate: &'a G,
    n: u32,
    shares: usize,
}

/// The client with this number visits its share.
fn work<
    K: HashKey,
    V: Value,
    F: Remap<K, V>,
    A: Allocator + Clone,
    R: Wait,
    S: Stepper<K, V>,
    G: Gate,
>(
    rt: &R,
    map: &Map<K, V, F, A>,
    job: &Job<'_, S, G>,
    number: usize,
    seat: &mut Seat<K, V, F, S::Part>,
)
    requires size { IsTableSize job.now.n }
    requires shares { job.now.shares ≤ most_shares }
    requires number { number < job.now.shares }
    requires own { seat.old.pass.ledger ≡ map.now.ledger.id }
    ensures { HasVisited K.eq K.code (after V.eq F.remapped F.merged)
        (S.reached job.now.stepper.now) (S.ends job.now.stepper.now) map.now.ledger job.now.n
        job.now.shares number seat.old seat.new }
{
    pass_gate(job.gate, job.n, job.shares, number);
    let share = share_of(job.n, job.shares, number);
    seat.part = Some(visit_share(rt, map, &mut seat.pass, share, job.stepper));
}

/// All clients visit their shares, in at most so many threads.
fn work_all<
    K: HashKey + Send + Sync,
    V: Value + Send + Sync,
    F: Remap<K, V> + Send + Sync,
    A: Allocator + Clone + Send + Sync,
    R: Threads + Wait + Sync,
    S: Stepper<K, V> + Sync,
    G: Gate + Sync,
>(
    rt: &R,
    map: &Map<K, V, F, A>,
    job: &Job<'_, S, G>,
    threads: usize,
    seats: &mut [Seat<K, V, F, S::Part>],
)
where
    S::Part: Send,
    requires size { IsTableSize job.now.n }
    requires threads { 0 < threads }
    requires shares { job.now.shares ≡ length seats.old }
    requires few { job.now.shares ≤ most_shares }
    requires own { All (λ s. s.pass.ledger ≡ map.now.ledger.id) seats.old }
    ensures len { length seats.new ≡ length seats.old }
    ensures visited { (i : ℕ) (d : _) → i < length seats.old →
        HasVisited K.eq K.code (after V.eq F.remapped F.merged) (S.reached job.now.stepper.now)
        (S.ends job.now.stepper.now) map.now.ledger job.now.n job.now.shares i
        (slice_index_or seats.old i d) (slice_index_or seats.new i d) }
{
    let lend = |number: usize, seat: &mut Seat<K, V, F, S::Part>|
        requires size { IsTableSize job.now.n }
        requires shares { job.now.shares ≤ most_shares }
        requires number { number < job.now.shares }
        requires own { seat.now.pass.ledger ≡ map.now.ledger.id }
        ensures { HasVisited K.eq K.code (after V.eq F.remapped F.merged)
            (S.reached job.entry.now.stepper.now) (S.ends job.entry.now.stepper.now)
            map.entry.now.ledger job.entry.now.n job.entry.now.shares number seat.entry.now
            seat.exit.now }
    {
        work(rt, map, job, number, seat);
    };
    thread::for_each_mut(rt, seats, threads, &lend);
}

/// Seats the clients with these passes, lets them visit their shares of the map's table, in at most
/// so many threads, and returns what each collected.
///
/// # Errors
///
/// Out of memory for the seats. No client began then.
pub(crate) fn collect_all<
    K: HashKey + Send + Sync,
    V: Value + Send + Sync,
    F: Remap<K, V> + Send + Sync,
    A: Allocator + Clone + Send + Sync,
    R: Threads + Wait + Sync,
    S: Stepper<K, V> + Sync,
    G: Gate + Sync,
>(
    rt: &R,
    map: &Map<K, V, F, A>,
    stepper: &S,
    gate: &G,
    threads: usize,
    passes: &mut Vec<Pass<K, V, F>, A>,
) -> Result<Vec<S::Part, A>, AllocError>
where
    S::Part: Send,
    requires threads { 0 < threads }
    requires few { length passes.old.items ≤ most_shares }
    requires own { All (λ p. p.ledger ≡ map.now.ledger.id) passes.old.items }
    ensures own { All (λ p. p.ledger ≡ map.now.ledger.id) passes.new.items }
    ensures len { length passes.new.items ≡ length passes.old.items }
    ensures clients { AreSameClients passes.old.items passes.new.items }
    ensures shared { IfOk result (λ parts. (n : ℕ) × IsTableSize n
        × HaveShared K.eq K.code (after V.eq F.remapped F.merged) (S.reached stepper.now)
        (S.ends stepper.now) map.now.ledger n passes.old.items passes.new.items parts.items) }
    ensures refused { OnErr result (passes.new.items ≡ passes.old.items) }
{
    let (mut seats, mut parts) = room_for(passes.allocator(), passes.len())?;
    let n = map.table_size();
    seat_all(passes, &mut seats);
    let job = Job {
        stepper,
        gate,
        n,
        shares: seats.len(),
    };
    work_all(rt, map, &job, threads, &mut seats);
    unseat_all(seats, passes, &mut parts);
    Ok(parts)
}
