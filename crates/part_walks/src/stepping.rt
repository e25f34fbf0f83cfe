//! What workers collect, entry by entry.
ghost use Rattle.std.specs.Prelude.{◌≡◌, ◌++◌, [], List, true};

use crate::taker::Taker;

/// What the entries that a worker is shown give: nothing yet at first, then entry by entry. Of two
/// workers the parts are joined, in the order of their shares.
pub trait Stepper<K, V>: Taker<K, V> {
    ghost use Rattle.std.specs.Prelude.{List, ◌++◌, ◌≡◌, [], true};

    // A part after which a worker may leave the rest of its share out.
    ghost ends: { Self → Self.Part → Type 0 };

    /// The part of no entries.
    fn start(&self) -> Self::Part
        ensures { Self.reached self.now [] result };

    /// Returns the part as it is, or one that says that the worker gives up. It is asked for before
    /// each bucket.
    fn look_again(&self, part: Self::Part) -> Self::Part
        ensures { (es : List (K × V)) → Self.reached self.now es part →
            Self.reached self.now es result };

    /// Whether the worker is to leave the rest of its share out.
    fn is_settled(&self, part: &Self::Part) -> bool
        ensures { result ≡ true → ends self.now part.now };

    /// The part of the entries of two parts.
    fn append(&self, left: Self::Part, right: Self::Part) -> Self::Part
        requires { (es : List (K × V)) × (fs : List (K × V)) × Self.reached self.now es left
            × Self.reached self.now fs right }
        ensures reached { (es fs : List (K × V)) → Self.reached self.now es left →
            Self.reached self.now fs right → Self.reached self.now (es ++ fs) result }
        ensures left { ends self.now left → ends self.now result }
        ensures right { ends self.now right → ends self.now result };
}
