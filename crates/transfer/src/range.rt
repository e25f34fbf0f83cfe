//! Ranges of bins.
ghost use Rattle.std.specs.Prelude.{◌≡◌};

/// How many bins a mover claims at a time.
pub const STRIDE: usize = 16;

/// The bins from `lo` up to `hi`, which it does not hold.
#[derive(Clone, Copy, Debug, PartialEq, Eq)]
pub struct Range {
    pub lo: usize,
    pub hi: usize,
}

impl Range {
    ghost use Rattle.transfer.specs.Ranges.{width};

    // How many bins it holds, 0 where `hi` is not above `lo`.
    pub(crate) fn width(self) -> usize
        ensures { result ≡ width self }
    {
        self.hi.saturating_sub(self.lo)
    }
}

/// What a finish tells: whether bins of the move are left to finish.
#[derive(Clone, Copy, Debug, PartialEq, Eq)]
pub enum Finish {
    /// Some bins are not finished yet.
    More,
    /// All bins are finished, and this was the last range of them.
    Last,
}
