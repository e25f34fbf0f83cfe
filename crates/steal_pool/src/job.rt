//! What a worker of a run does.
ghost use Rattle.std.specs.Prelude.{◌≡◌, ◌+◌, ◌^◌, ◌<◌, ◌≤◌, ℕ, IfSome};
ghost use Rattle.steal_pool.specs.Shapes.{shape};

use crate::body::Body;
use crate::gate::Gate;
use crate::labor::Labor;
use crate::member::Member;
use crate::order::Order;
use crate::seats::Seats;
use crate::task::{Task, Work};
use completers::{Arrival, Node, Partial, Supply, Ticket, Tree};
use crossbeam_utils::Backoff;
use std::alloc::Allocator;
use std::marker::PhantomData;
use std::sync::Wait;
use std::sync::atomic::AtomicBool;
use std::sync::atomic::Ordering::SeqCst;

/// What all workers of a run share. `done` is set once somebody was last at the root.
#[derive(Drop)]
pub(crate) struct Job<'a, B: Body, G, W: Work, A: Allocator> {
    pub(crate) order: &'a Order<'a, B, G>,
    pub(crate) tree: &'a Tree<B, A>,
    pub(crate) done: &'a AtomicBool,
    pub(crate) work: PhantomData<W>,
    ghost tree_is: { (tree.now.identity ≡ W.tree) × (tree.now.bins ≡ W.bins) × (tree.now.slots ≡ 8) },
    ghost body_is: { tree.now.relation ≡ order.now.body.now },
    ghost bins_are: { order.now.bins ≡ W.bins },
}

impl<B: Body, G: Gate, W: Work, A: Allocator + Clone> Job<'_, B, G, W, A> {
    // Arrives with the part of the ticket's range, and goes on to the ticket above wherever it is
    // the last. At the root it has the part of the whole range.
    fn climb(&self, ticket: Ticket<B::Part>, part: B::Part) -> Option<B::Part>
        requires tree { ticket.tree ≡ W.tree }
        requires part { B.relates self.now.order.now.body.now ticket.lo ticket.hi part }
        ensures { IfSome result (B.relates self.now.order.now.body.now 0 W.bins) }
    {
        let mut ticket = ticket;
        let mut part = part;
        loop {
            let (lo, hi) = (ticket.lo(), ticket.hi());
            let Arrival::Last(parts, above) = self.tree.arrive(ticket, Partial { lo, hi, part })
            else {
                return None;
            };
            let Some(next) = above else {
                self.done.store(true, SeqCst);
                return Some(self.order.body.join(0, self.order.bins, parts));
            };
            part = self.order.body.join(next.lo(), next.hi(), parts);
            ticket = next;
        }
    }

    // Opens the node of a task.
    fn begin(&self, task: Task<B::Part, W>) -> (Node<B::Part>, usize)
        ensures node { (result.0.tree ≡ W.tree) × (result.0.lo ≡ task.ticket.lo)
            × (result.0.hi ≡ task.ticket.hi) }
        ensures range { result.0.hi ≤ W.bins }
        ensures room { (result.1 < 2 ^ result.0.level) × (result.0.forks + result.0.level ≤ 7) }
    {
        let Task {
            ticket,
            supply,
            batch,
            work: _,
        } = task;
        let (lo, hi) = (ticket.lo(), ticket.hi());
        (self.tree.open(supply, Some(ticket), lo, hi), batch)
    }

    // Forks while the batch lasts, and then does the leaf that is left. Where a push is refused it
    // works on the task at once.
    #[tactic(auto, using(crate::proofs::Halves::has_room, crate::proofs::Halves::half_room))]
    fn work<S: Seats<A>, Rt: Wait>(
        &self,
        rt: &Rt,
        me: &mut Member<Task<B::Part, W>, A, S>,
        node: Node<B::Part>,
        batch: usize,
    ) -> Option<B::Part>
        requires tree { node.tree ≡ W.tree }
        requires range { node.hi ≤ W.bins }
        requires room { (batch < 2 ^ node.level) × (node.forks + node.level ≤ 7) }
        ensures part { IfSome result (B.relates self.now.order.now.body.now 0 W.bins) }
        ensures shape { shape me.new ≡ shape me.old }
    {
        let mut node = node;
        let mut batch = batch;
        while batch > 0 && node.hi() - node.lo() >= 2 {
            batch /= 2;
            let mid = node.lo() + (node.hi() - node.lo()) / 2;
            let (ticket, supply) = node.fork(self.tree, mid);
            let task = Task {
                ticket,
                supply,
                batch,
                work: PhantomData,
            };
            if let Err(task) = me.push(task) {
                let (child, batch) = self.begin(task);
                let found = self.work(rt, me, child, batch);
                if found.is_some() {
                    return found;
                }
            }
        }
        let (lo, hi) = (node.lo(), node.hi());
        let ticket = node.own(self.tree);
        self.order.gate.leaf(me.number, lo, hi);
        let part = self.order.body.leaf(lo, hi);
        self.climb(ticket, part)
    }
}

impl<B: Body, G: Gate, W: Work, A: Allocator + Clone, S: Seats<A>, Rt: Wait> Labor<
    Member<Task<B::Part, W>, A, S>,
    Supply<B::Part>,
    B::Part,
    Rt,
> for Job<'_, B, G, W, A> {
    ghost fits = { λ job root. (root.tree ≡ W.tree) × (job.order.now.batch < 2 ^ root.level)
        × (root.level ≤ 7) };

    ghost gives = { λ job part. B.relates job.order.now.body.now 0 W.bins part };

    ghost shape = { λ m. shape m };

    fn lead(
        &self,
        rt: &Rt,
        root: &mut Option<Supply<B::Part>>,
        me: &mut Member<Task<B::Part, W>, A, S>,
    ) -> Option<B::Part> {
        if let Some(root) = root.take() {
            let node = self.tree.open(root, None, 0, self.order.bins);
            let found = self.work(rt, me, node, self.order.batch);
            if found.is_some() {
                return found;
            }
        }
        self.help(rt, me)
    }

    fn help(&self, rt: &Rt, me: &mut Member<Task<B::Part, W>, A, S>) -> Option<B::Part> {
        let backoff = Backoff::new();
        for _ in rt.forever() {
            if self.done.load(SeqCst) {
                break;
            }
            let Some(task) = me.take() else {
                backoff.snooze();
                continue;
            };
            backoff.reset();
            let (node, batch) = self.begin(task);
            let found = self.work(rt, me, node, batch);
            if found.is_some() {
                return found;
            }
        }
        None
    }
}
