//! What the workers of a pool do.
ghost use Rattle.std.specs.Prelude.{ℕ, ◌<◌, ◌≤◌};
ghost use Rattle.completers.specs.Parts.{AreParts};

use completers::{Parts, Relation};

/// The part of each range of bins. A part stands in the body's relation to its range.
pub trait Body: Relation {
    // Up to where its ranges may go.
    ghost limit: { Self → ℕ };

    /// The part of the range from `lo` up to `hi`, done by itself.
    fn leaf(&self, lo: usize, hi: usize) -> Self::Part
        requires range { (lo < hi) × (hi ≤ Self.limit self.now) }
        ensures part { Self.relates self.now lo hi result };

    /// The part of the range from `lo` up to `hi`, of parts that lie side by side in it.
    fn join(&self, lo: usize, hi: usize, parts: Parts<Self::Part>) -> Self::Part
        requires range { lo < hi }
        requires parts { AreParts (Self.relates self.now) lo hi parts }
        ensures part { Self.relates self.now lo hi result };
}
