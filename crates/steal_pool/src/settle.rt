//! The settlement of a run, with all members back.
ghost use Rattle.std.specs.Prelude.{◌≡◌, ◌+◌, ◌<◌, ℕ, [], List, All, IfSome, Some, length};
ghost use Rattle.std.specs.Prelude.{sum_by};
ghost use Rattle.steal_pool.specs.Books.{weight_pushed_by, weight_taken_by, AreCounted, AreSettled};
ghost use Rattle.steal_pool.specs.Books.{IsSettled};
ghost use Rattle.steal_pool.specs.Ways.{weight_brought_by, weight_stolen};
ghost use Rattle.steal_pool.specs.Shapes.{shape, shapes, targets, own_ways, AreCrew, IsHome};
ghost use Rattle.steal_pool.specs.Logs.{weigh};

use crate::deque::{settle, take_share};
use crate::finished::Tasks;
use crate::member::Member;
use crate::seats::Seats;
use crate::way::Way;
use std::alloc::Allocator;
use std::mem;

impl<T: Drop, A: Allocator, S: Seats<A>> Member<T, A, S> {
    // All its ways, for an empty list.
    fn take_ways(&mut self, none: Vec<Way<T, A, S>, A>) -> Vec<Way<T, A, S>, A>
        requires { none.items ≡ [] }
        ensures shape { (shape self.new ≡ record (shape self.old) { ways = [] })
            × (targets result.items ≡ (shape self.old).ways) }
        ensures pushed { (h : T → ℕ) → weight_pushed_by h self.new ≡ weight_pushed_by h self.old }
        ensures taken { (h : T → ℕ) → weight_taken_by h self.new + weight_stolen h result.items
            ≡ weight_taken_by h self.old }
    {
        self.taken = None;
        mem::replace(&mut self.ways, none)
    }

    // Takes a way into its deque back.
    #[tactic(auto, using(crate::proofs::Moves::weigh_append))]
    fn take_back(&mut self, way: Way<T, A, S>)
        requires to { way.to ≡ self.old.number }
        requires out { 0 < self.old.out }
        ensures shape { (shape self.new).number ≡ self.old.number
            × (self.new.out + 1 ≡ self.old.out) × ((shape self.new).ways ≡ (shape self.old).ways) }
        ensures pushed { (h : T → ℕ) → weight_pushed_by h self.new ≡ weight_pushed_by h self.old }
        ensures taken { (h : T → ℕ) →
            weight_taken_by h self.new ≡ weight_taken_by h self.old + weight_brought_by h way }
    {
        let Way {
            to: _,
            stealer: _,
            pass,
            seats: _,
        } = way;
        self.out -= 1;
        self.taken = None;
        take_share(&mut self.own, pass);
    }

    // With all ways into its deque and its own ways back: what it pushed is what it took and what
    // is left, of which it says how many.
    fn settle(&mut self) -> usize
        requires { IsHome self.old }
        ensures { (left : List T) × (length left ≡ result)
            × ((h : T → ℕ) → weight_pushed_by h self.old
            ≡ weight_taken_by h self.old + weigh h left) }
    {
        settle(&mut self.own)
    }
}

// How many tasks all members pushed and took, by their counts. None: one does not know.
fn count_all<T, A: Allocator, S: Seats<A>>(members: &[Member<T, A, S>]) -> Option<Tasks>
    ensures { IfSome result (AreCounted members.now) }
{
    let (mut pushed, mut taken) = (0u64, 0u64);
    for member in members {
        pushed = pushed.checked_add(member.pushed?)?;
        taken = taken.checked_add(member.taken?)?;
    }
    Some(Tasks { pushed, taken })
}

// Gives each way back to the member whose deque it leads into. The list is empty then.
fn give_back<T: Drop, A: Allocator, S: Seats<A>>(
    members: &mut [Member<T, A, S>],
    ways: Vec<Way<T, A, S>, A>,
) -> Vec<Way<T, A, S>, A>
    requires { AreCrew (targets ways.items) (shapes members.old) }
    ensures crew { AreCrew [] (shapes members.new) }
    ensures ways { own_ways (shapes members.new) ≡ own_ways (shapes members.old) }
    ensures none { result.items ≡ [] }
    ensures pushed { (h : T → ℕ) → sum_by (weight_pushed_by h) members.new
        ≡ sum_by (weight_pushed_by h) members.old }
    ensures taken { (h : T → ℕ) → sum_by (weight_taken_by h) members.new
        ≡ sum_by (weight_taken_by h) members.old + weight_stolen h ways.items }
{
    let mut ways = ways;
    while let Some(way) = ways.pop() {
        // The last member is number 0.
        let home = members.len() - 1 - way.to;
        members[home].take_back(way);
    }
    ways
}

// Gives all ways of all members back, by way of an empty list.
fn give_all_back<T: Drop, A: Allocator, S: Seats<A>>(
    members: &mut [Member<T, A, S>],
    none: Vec<Way<T, A, S>, A>,
)
    requires none { none.items ≡ [] }
    requires crew { AreCrew [] (shapes members.old) }
    ensures home { All IsHome members.new }
    ensures pushed { (h : T → ℕ) → sum_by (weight_pushed_by h) members.new
        ≡ sum_by (weight_pushed_by h) members.old }
    ensures taken { (h : T → ℕ) → sum_by (weight_taken_by h) members.new
        ≡ sum_by (weight_taken_by h) members.old }
{
    let mut none = none;
    for index in 0..members.len() {
        let ways = members[index].take_ways(none);
        none = give_back(members, ways);
    }
}

// How many tasks are left in all deques, once each way is back.
fn settle_all<T: Drop, A: Allocator, S: Seats<A>>(members: &mut Vec<Member<T, A, S>, A>) -> u128
    requires { All IsHome members.old.items }
    ensures { IsSettled members.old.items result }
{
    let mut left = 0u128;
    while let Some(mut member) = members.pop() {
        let more = member.settle();
        left += more as u128;
    }
    left
}

// What was counted, where no task is left.
fn told(counted: Option<Tasks>, left: u128) -> Option<Tasks>
    ensures same { IfSome result (λ t. counted ≡ Some t) }
    ensures none_left { IfSome result (λ _. left ≡ 0) }
{
    if left > 0 {
        return None;
    }
    counted
}

/// Ends a pool, whose members are all back, by way of an empty list: each task that one of them
/// took was pushed by one of them, and each task that was pushed was taken once, or is left. What
/// they pushed and took, where none is left and all know; and how many are left.
pub fn close<T: Drop, A: Allocator, S: Seats<A>>(
    members: Vec<Member<T, A, S>, A>,
    none: Vec<Way<T, A, S>, A>,
) -> (Option<Tasks>, u128)
    requires none { none.items ≡ [] }
    requires crew { AreCrew [] (shapes members.items) }
    ensures books { IsSettled members.items result.1 }
    ensures counted { IfSome result.0 (AreCounted members.items) }
    ensures settled { IfSome result.0 AreSettled }
{
    let mut members = members;
    let counted = count_all(members.as_slice());
    give_all_back(members.as_mut_slice(), none);
    let left = settle_all(&mut members);
    (told(counted, left), left)
}
