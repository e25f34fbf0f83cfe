//! What a worker does with its deque and those of the others.
ghost use Rattle.std.specs.Prelude.{◌≡◌, ◌+◌, ◌<◌, ◌≤◌, ℕ, [], IfErr, IfOk, MatchResult};
ghost use Rattle.std.specs.Prelude.{All, Some, vec_len};
ghost use Rattle.std.specs.Option.{ForSome};
ghost use Rattle.crossbeam_deque.specs.Handles.{view, worker_deque};
ghost use Rattle.steal_pool.specs.Limits.{most_workers};
ghost use Rattle.steal_pool.specs.Seating.{AreSeated, IsFresh};
ghost use Rattle.steal_pool.specs.Books.{weight_brought, weight_put};
ghost use Rattle.steal_pool.specs.Books.{weight_pushed_by, weight_taken_by};
ghost use Rattle.steal_pool.specs.Ways.{weight_stolen};
ghost use Rattle.steal_pool.specs.Shapes.{shape, shapes, targets, AreCrew};
ghost use Rattle.steal_pool.specs.Logs.{weigh};

use crate::deque::{Own, cut_share, pop, push, steal};
use crate::limits::ALL_SHARES;
use crate::member::Member;
use crate::seats::Seats;
use crate::way::Way;
use crossbeam_deque::Steal;
use std::alloc::{AllocError, Allocator};
use std::marker::PhantomData;

/// The members of a pool, each with a way into each other's deque. The last is number 0. And a list
/// of no way, for the pool's end.
///
/// # Errors
///
/// `AllocError`.
pub fn members<T: Drop, A: Allocator + Clone, S: Seats<A>>(
    alloc: &A,
    deques: &mut Vec<Own<T, A>, A>,
) -> Result<(Vec<Member<T, A, S>, A>, Vec<Way<T, A, S>, A>), AllocError>
    requires few { vec_len deques.old ≤ most_workers }
    requires deques { All IsFresh deques.old.items }
    requires seats { AreSeated worker_deque S.deque deques.old.items }
    ensures len { IfOk result (λ v. vec_len v.0 ≡ vec_len deques.old) }
    ensures crew { IfOk result (λ v. AreCrew [] (shapes v.0.items)) }
    ensures none { IfOk result (λ v. v.1.items ≡ []) }
{
    let workers = deques.len();
    let mut all = Vec::with_capacity(alloc.clone()?, workers)?;
    while let Some(own) = deques.pop() {
        all.push(Member {
            number: deques.len(),
            own,
            out: 0,
            ways: Vec::new(alloc.clone()?),
            pushed: Some(0),
            taken: Some(0),
        })?;
    }
    for index in 0..workers {
        // The numbers ascend as the indices descend.
        for before in 1..workers {
            let other = if before <= index {
                index - before
            } else {
                index + (workers - before)
            };
            let way = all[other].way()?;
            all[index].ways.push(way)?;
        }
    }
    let none = Vec::new(alloc.clone()?);
    Ok((all, none))
}

impl<T: Drop, A: Allocator + Clone, S: Seats<A>> Member<T, A, S> {
    /// A way into this member's deque.
    pub(crate) fn way(&mut self) -> Result<Way<T, A, S>, AllocError>
        ensures to { IfOk result (λ w. w.to ≡ self.old.number) }
        ensures none { IfOk result (λ w. (view w.pass).taken ≡ []) }
        ensures shape { MatchResult result
            (λ _. shape self.new ≡ record (shape self.old) { out = self.old.out + 1 })
            (λ _. shape self.new ≡ shape self.old) }
    {
        let stealer = self.own.stealer()?;
        if self.out >= ALL_SHARES - 1 {
            return Err(AllocError);
        }
        self.out += 1;
        let pass = cut_share(&mut self.own);
        Ok(Way {
            to: self.number,
            stealer,
            pass,
            seats: PhantomData,
        })
    }

    /// Pushes a task, or hands it back.
    ///
    /// # Errors
    ///
    /// The task, where memory for it is refused.
    #[tactic(auto, using(crate::proofs::Moves::weigh_snoc))]
    pub fn push(&mut self, task: T) -> Result<(), T>
        ensures shape { shape self.new ≡ shape self.old }
        ensures back { IfErr result (λ x. x ≡ task) }
        ensures pushed { (h : T → ℕ) →
            weight_pushed_by h self.new ≡ weight_pushed_by h self.old + weight_put h task result }
        ensures taken { (h : T → ℕ) → weight_taken_by h self.new ≡ weight_taken_by h self.old }
    {
        push(&mut self.own, task)?;
        self.pushed = one_more(self.pushed);
        Ok(())
    }

    /// Its own newest task, or else the oldest of another member.
    #[tactic(auto, using(crate::proofs::Moves::weigh_snoc))]
    pub fn take(&mut self) -> Option<T>
        ensures shape { shape self.new ≡ shape self.old }
        ensures pushed { (h : T → ℕ) → weight_pushed_by h self.new ≡ weight_pushed_by h self.old }
        ensures taken { (h : T → ℕ) →
            weight_taken_by h self.new ≡ weight_taken_by h self.old + weight_brought h result }
    {
        if let Some(task) = pop(&mut self.own) {
            self.taken = one_more(self.taken);
            return Some(task);
        }
        let task = steal_any(self.ways.as_mut_slice())?;
        self.taken = one_more(self.taken);
        Some(task)
    }
}

// A count after one more. None: it is not known, or too great.
fn one_more(count: Option<u64>) -> Option<u64>
    ensures { ForSome result (λ n. (k : ℕ) × (count ≡ Some k) × (n ≡ k + 1)) }
{
    count?.checked_add(1)
}

// The oldest task of the first deque that has one.
fn steal_any<T: Drop, A: Allocator, S: Seats<A>>(ways: &mut [Way<T, A, S>]) -> Option<T>
    ensures ways { targets ways.new ≡ targets ways.old }
    ensures taken { (h : T → ℕ) →
        weight_stolen h ways.new ≡ weight_stolen h ways.old + weight_brought h result }
{
    let Some((first, others)) = ways.split_first_mut() else {
        return None;
    };
    if let Some(task) = first.steal() {
        return Some(task);
    }
    steal_any(others)
}

impl<T, A: Allocator, S: Seats<A>> Way<T, A, S> {
    #[tactic(auto, using(crate::proofs::Moves::weigh_snoc))]
    fn steal(&mut self) -> Option<T>
        ensures way { self.new.to ≡ self.old.to }
        ensures taken { (h : T → ℕ) → weigh h (view self.new.pass).taken
            ≡ weigh h (view self.old.pass).taken + weight_brought h result }
    {
        match steal(&self.stealer, &mut self.pass) {
            Steal::Success(task) => Some(task),
            Steal::Empty => None,
            Steal::Retry => None,
        }
    }
}
