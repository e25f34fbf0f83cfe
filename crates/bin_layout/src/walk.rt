//! Walk order: opening bins by their index, and in place of a forwarded bin its low half and then
//! its high half.
ghost use Rattle.std.specs.Prelude.{◌≡◌, ◌≤◌, ℕ, true, IfSome, IfNone, List, [], ◌∷◌, ◌++◌};
ghost use Rattle.hashkeys.specs.Classes.{ClassView, IsClass, IsTableSize, covers};
ghost use Rattle.bin_layout.specs.Walks.{IsFirstAfter, IsLastInWalk, IsWalk, IsWalkTo};

use hashkeys::Class;

/// The widest class that begins where this one ends in walk order; none after the last. `n` is the
/// number of opening bins.
///
/// A walk begins at the class `(n, 0)`. At each class it goes to the bin of the
/// class's index: where that bin is no wider than the class, it is the first of the
/// class's bins, and the walk goes on after it.
pub fn next_in_walk(n: u32, class: Class) -> Option<Class>
    requires size { IsTableSize n }
    requires least { n ≤ class.n }
    ensures next { IfSome result (λ c. IsFirstAfter n class c) }
    ensures least { IfSome result (λ c. n ≤ c.n) }
    ensures last { IfNone result (IsLastInWalk n class) }
{
    let index = class.index();
    if class.n() == n {
        return if index + 1 < n {
            Some(Class::new(n, index + 1))
        } else {
            None
        };
    }
    let half = class.n() / 2;
    if index < half {
        Some(Class::new(class.n(), index + half))
    } else {
        next_in_walk(n, Class::new(half, index - half))
    }
}

/// A walk that goes on by `next_in_walk` until it says none has met, in walk order, classes that
/// have every hash, each once. It does nothing when it runs.
pub fn walk_laws()
    ensures first { (n : ℕ) → IsTableSize n → IsWalkTo n [] (record { n = n; index = 0 }) }
    ensures next { (n : ℕ) (classes : List ClassView) (next class then : ClassView)
        → IsTableSize n → IsClass next → IsClass class → n ≤ class.n
        → IsWalkTo n classes next → covers class next.index ≡ true → next.n ≤ class.n
        → IsFirstAfter n class then → IsWalkTo n (classes ++ class ∷ []) then }
    ensures last { (n : ℕ) (classes : List ClassView) (next class : ClassView)
        → IsTableSize n → IsClass next → IsClass class → n ≤ class.n
        → IsWalkTo n classes next → covers class next.index ≡ true → next.n ≤ class.n
        → IsLastInWalk n class → IsWalk n (classes ++ class ∷ []) }
{}
