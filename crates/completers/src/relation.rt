//! Parts of ranges.
ghost use Rattle.std.specs.Prelude.{ℕ};

/// Which parts a range may have. The type's value holds what it depends on, as the bins that are
/// counted.
pub trait Relation {
    /// What a range gives.
    type Part: Drop;

    // Of the value, a range from the first number up to the second, and a part.
    ghost relates: { Self → ℕ → ℕ → Self.Part → Type 0 };
}

/// A part of the range from `lo` up to `hi`, which it does not hold.
#[derive(Debug, Drop)]
pub struct Partial<P> {
    pub lo: usize,
    pub hi: usize,
    pub part: P,
}
