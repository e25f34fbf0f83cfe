//! Clients in their seats, and what they collected there.
ghost use Rattle.std.specs.Prelude.{◌≡◌, ◌≤◌, [], map, All, IfOk, Some};
ghost use Rattle.std.specs.Prelude.{IsSome, vec_len, vec_capacity};

use count_ledger::Pass;
use std::alloc::{AllocError, Allocator};

/// A client's pass while it works, and then what it collected.
pub struct Seat<K, V, F, T> {
    pub pass: Pass<K, V, F>,
    pub part: Option<T>,
}

/// Seats for the passes, and what they collected.
pub type Room<K, V, F, T, A> = (Vec<Seat<K, V, F, T>, A>, Vec<T, A>);

/// Room for so many clients and what they collect.
pub fn room_for<K, V, F, T: Drop, A: Allocator + Clone>(
    alloc: &A,
    clients: usize,
) -> Result<Room<K, V, F, T, A>, AllocError>
    ensures seats { IfOk result
        (λ room. (room.0.items ≡ []) × (vec_capacity room.0 ≡ clients)) }
    ensures parts { IfOk result
        (λ room. (room.1.items ≡ []) × (vec_capacity room.1 ≡ clients)) }
{
    let parts = Vec::with_capacity(alloc.clone()?, clients)?;
    let seats = Vec::with_capacity(alloc.clone()?, clients)?;
    Ok((seats, parts))
}

/// Gives each pass a seat.
pub fn seat_all<K, V, F, T, A: Allocator>(
    passes: &mut Vec<Pass<K, V, F>, A>,
    seats: &mut Vec<Seat<K, V, F, T>, A>,
)
    requires none { seats.old.items ≡ [] }
    requires room { vec_len passes.old ≤ vec_capacity seats.old }
    ensures seated { map (λ s. s.pass) seats.new.items ≡ passes.old.items }
    ensures spent { passes.new.items ≡ [] }
    ensures capacity { vec_capacity passes.new ≡ vec_capacity passes.old }
{
    while let Some(pass) = passes.pop() {
        seats.push_reserved(Seat { pass, part: None });
    }
    seats.reverse();
}

/// Takes the passes back, and what they collected.
pub fn unseat_all<K, V, F, T, A: Allocator>(
    mut seats: Vec<Seat<K, V, F, T>, A>,
    passes: &mut Vec<Pass<K, V, F>, A>,
    parts: &mut Vec<T, A>,
)
    requires ended { All (λ s. IsSome s.part) seats.items }
    requires none { (passes.old.items ≡ []) × (parts.old.items ≡ []) }
    requires room { (vec_len seats ≤ vec_capacity passes.old)
        × (vec_len seats ≤ vec_capacity parts.old) }
    ensures passes { passes.new.items ≡ map (λ s. s.pass) seats.items }
    ensures parts { map Some parts.new.items ≡ map (λ s. s.part) seats.items }
{
    while let Some(Seat { pass, part }) = seats.pop() {
        passes.push_reserved(pass);
        match part {
            Some(part) => parts.push_reserved(part),
            None => unreachable!(),
        }
    }
    passes.reverse();
    parts.reverse();
    seats.destroy_empty();
}
