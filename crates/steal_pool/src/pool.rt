//! A run: the tree, the deques, and the settlement.
ghost use Rattle.std.specs.Prelude.{◌≡◌, ◌+◌, ◌*◌, ◌^◌, ◌<◌, ◌≤◌, ℕ, List, [], All, IfOk};
ghost use Rattle.std.specs.Prelude.{IfSome, vec_len};
ghost use Rattle.crossbeam_deque.specs.Handles.{worker_deque};
ghost use Rattle.steal_pool.specs.Books.{AreSettled};
ghost use Rattle.steal_pool.specs.Limits.{most_batch, most_workers};
ghost use Rattle.steal_pool.specs.Seating.{AreSeated, IsFresh};
ghost use Rattle.steal_pool.specs.Shapes.{shape};

use crate::body::Body;
use crate::crew::members;
use crate::deque::{Own, new_deque};
use crate::finished::{Finished, Tasks};
use crate::gate::Gate;
use crate::job::Job;
use crate::labor::{Labor, crew};
use crate::member::Member;
use crate::order::Order;
use crate::seats::Seats;
use crate::settle::close;
use crate::task::{Task, Work};
use completers::{MOST_NODES, Supply, Tree};
use std::alloc::{AllocError, Allocator};
use std::marker::{Brand, PhantomData};
use std::sync::Wait;
use std::sync::atomic::AtomicBool;
use std::thread::Threads;

/// How many tasks a deque has room for at first.
const CAPACITY: usize = 4;

/// The nodes of a tree for a batch: 2 to the number of its binary digits.
pub fn nodes_for(batch: usize) -> usize
    requires { batch ≤ most_batch }
    ensures nodes { (batch < result) × (level : ℕ) × (level ≤ 7) × (result ≡ 2 ^ level) }
    ensures tight { (batch ≡ 0 → result ≡ 1) × (0 < batch → result ≤ 2 * batch) }
{
    match batch {
        0 => 1,
        1 => 2,
        2..=3 => 4,
        4..=7 => 8,
        8..=15 => 16,
        16..=31 => 32,
        32..=63 => 64,
        _ => MOST_NODES,
    }
}

/// An empty deque for each worker.
///
/// # Errors
///
/// `AllocError`.
pub fn new_deques<T: Drop, A: Allocator + Clone>(
    alloc: &A,
    workers: usize,
) -> Result<Vec<Own<T, A>, A>, AllocError>
    ensures { IfOk result (λ v. (vec_len v ≡ workers) × All IsFresh v.items) }
{
    let mut all = Vec::with_capacity(alloc.clone()?, workers)?;
    for _number in 0..workers {
        all.push(new_deque(alloc.clone()?, CAPACITY)?)?;
    }
    Ok(all)
}

// The part of all bins, where somebody came to the root, and what the settlement counted.
type Outcome<P> = (Option<P>, Option<Tasks>);

// A crew with these deques does its labor. When it ends all members are back.
fn run_crew<
    T: Drop + Send,
    U: Drop,
    P: Send + Drop,
    A: Allocator + Clone + Send + Sync,
    S: Seats<A> + Send,
    L: Labor<Member<T, A, S>, U, P, Rt> + Sync,
    Rt: Threads + Wait + Sync,
>(
    rt: &Rt,
    alloc: &A,
    labor: &L,
    threads: usize,
    root: U,
    deques: &mut Vec<Own<T, A>, A>,
) -> Result<Outcome<P>, AllocError>
    requires root { L.fits labor.now root }
    requires shape { (m : _) → L.shape m ≡ shape m }
    requires few { vec_len deques.old ≤ most_workers }
    requires deques { All IsFresh deques.old.items }
    requires seats { AreSeated worker_deque S.deque deques.old.items }
    ensures part { IfOk result (λ out. IfSome out.0 (L.gives labor.now)) }
    ensures tasks { IfOk result (λ out. IfSome out.1 AreSettled) }
{
    let (mut members, none) = members::<T, A, S>(alloc, deques)?;
    let found = crew(rt, labor, threads, root, members.as_mut_slice());
    let (tasks, _left) = close(members, none);
    Ok((found, tasks))
}

// A run whose deques have numbers in contracts.
fn run_seated<
    B: Body + Sync,
    G: Gate + Sync,
    W: Work + Send + Sync,
    A: Allocator + Clone + Send + Sync,
    S: Seats<A> + Send,
    Rt: Threads + Wait + Sync,
>(
    rt: &Rt,
    alloc: &A,
    job: &Job<'_, B, G, W, A>,
    deques: &mut Vec<Own<Task<B::Part, W>, A>, A>,
    root: Supply<B::Part>,
) -> Result<Outcome<B::Part>, AllocError>
where
    B::Part: Send,
    requires tree { root.tree ≡ W.tree }
    requires room { (job.now.order.now.batch < 2 ^ root.level) × (root.level ≤ 7) }
    requires few { vec_len deques.old ≤ most_workers }
    requires deques { All IsFresh deques.old.items }
    requires seats { AreSeated worker_deque S.deque deques.old.items }
    ensures part { IfOk result (λ out. IfSome out.0 (B.relates job.now.order.now.body.now 0 W.bins)) }
    ensures tasks { IfOk result (λ out. IfSome out.1 AreSettled) }
{
    run_crew::<Task<B::Part, W>, Supply<B::Part>, B::Part, A, S, Job<'_, B, G, W, A>, Rt>(
        rt,
        alloc,
        job,
        job.order.threads,
        root,
        deques,
    )
}

// A run whose tree contracts can name.
fn run_tree<
    B: Body + Sync,
    G: Gate + Sync,
    W: Work + Send + Sync,
    A: Allocator + Clone + Send + Sync,
    Rt: Threads + Wait + Sync,
>(
    rt: &Rt,
    alloc: &A,
    order: &Order<'_, B, G>,
    tree: &Tree<B, A>,
    root: Supply<B::Part>,
) -> Result<Outcome<B::Part>, AllocError>
where
    B::Part: Send,
    requires tree { (tree.now.identity ≡ W.tree) × (tree.now.bins ≡ W.bins) × (tree.now.slots ≡ 8)
        × (tree.now.relation ≡ order.now.body.now) }
    requires bins { W.bins ≡ order.now.bins }
    requires root { root.tree ≡ W.tree }
    requires room { (order.now.batch < 2 ^ root.level) × (root.level ≤ 7) }
    ensures part { IfOk result
        (λ out. IfSome out.0 (B.relates order.now.body.now 0 order.now.bins)) }
    ensures tasks { IfOk result (λ out. IfSome out.1 AreSettled) }
{
    let done = AtomicBool::new(false);
    let job = Job::<B, G, W, A> {
        order,
        tree,
        done: &done,
        work: PhantomData,
    };
    let mut deques = new_deques(alloc, order.workers)?;
    run_seated::<B, G, W, A, Brand, Rt>(rt, alloc, &job, &mut deques, root)
}

// A run, unless memory is refused.
fn try_run<
    B: Body + Sync,
    G: Gate + Sync,
    A: Allocator + Clone + Send + Sync,
    Rt: Threads + Wait + Sync,
>(rt: &Rt, alloc: &A, order: &Order<'_, B, G>) -> Result<Outcome<B::Part>, AllocError>
where
    B::Part: Send,
    ensures part { IfOk result
        (λ out. IfSome out.0 (B.relates order.now.body.now 0 order.now.bins)) }
    ensures tasks { IfOk result (λ out. IfSome out.1 AreSettled) }
{
    let nodes = nodes_for(order.batch);
    let (tree, root) = Tree::new(alloc.clone()?, order.body, nodes, 8, order.bins)?;
    run_tree::<B, G, Brand, A, Rt>(rt, alloc, order, &tree, root)
}

/// A run, or where memory for it is refused one leaf over everything. It waits for its workers.
pub fn run_order<
    B: Body + Sync,
    G: Gate + Sync,
    A: Allocator + Clone + Send + Sync,
    Rt: Threads + Wait + Sync,
>(rt: &Rt, alloc: &A, order: &Order<'_, B, G>) -> Finished<B::Part>
where
    B::Part: Send,
    ensures part { B.relates order.now.body.now 0 order.now.bins result.part }
    ensures tasks { IfSome result.tasks AreSettled }
{
    let (found, tasks) = match try_run(rt, alloc, order) {
        Ok(out) => out,
        Err(AllocError) => (None, None),
    };
    let part = match found {
        Some(part) => part,
        None => order.body.leaf(0, order.bins),
    };
    Finished { part, tasks }
}

/// The part of the bins from 0 up to `bins`, of which there is at least one. There are 1 to
/// `MOST_WORKERS` `workers`, of which the caller is number 0; the others have threads of their own,
/// which end with the call. A range is halved while its batch, at most 64 at the root, is above 0,
/// and each half gets half of the batch, rounded down. The gate is called before each leaf.
///
/// It waits for its workers. There are no more of them than leaves, and one that can't be
/// started is left out. Where memory for the tree or the deques is refused, the caller does one
/// leaf over everything, without the gate, and no tasks are told. Else each task that a worker
/// pushed was taken once when the call ends; a push that is refused memory is done at once.
pub fn run<
    B: Body + Sync,
    G: Gate + Sync,
    A: Allocator + Clone + Send + Sync,
    Rt: Threads + Wait + Sync,
>(
    rt: &Rt,
    alloc: &A,
    workers: usize,
    gate: &G,
    body: &B,
    bins: usize,
    batch: usize,
) -> Finished<B::Part>
where
    B::Part: Send,
    requires workers { (0 < workers) × (workers ≤ most_workers) }
    requires bins { (0 < bins) × (bins ≤ B.limit body.now) }
    requires batch { batch ≤ most_batch }
    ensures part { B.relates body.now 0 bins result.part }
    ensures tasks { IfSome result.tasks AreSettled }
{
    // Each node that is opened does one leaf, and there are no more than bins.
    let leaves = nodes_for(batch).min(bins);
    let workers = workers.min(leaves);
    let order = Order {
        workers,
        threads: workers - 1,
        gate,
        body,
        bins,
        batch,
    };
    run_order(rt, alloc, &order)
}
