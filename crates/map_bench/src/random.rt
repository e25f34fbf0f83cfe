//! Numbers that look random.

/// By how much the state of the generator grows with each number.
const STEP: u64 = 0x9e37_79b9_7f4a_7c15;

/// The number that the generator draws in this state.
#[inline(always)]
fn mixed(state: u64) -> u64 {
    let z = (state ^ (state >> 30)).wrapping_mul(0xbf58_476d_1ce4_e5b9);
    let z = (z ^ (z >> 27)).wrapping_mul(0x94d0_49bb_1331_11eb);
    z ^ (z >> 31)
}

/// What the generator draws in this place: numbers in no order, each once.
pub(crate) fn drawn_at(place: u64) -> u64 {
    mixed(place.wrapping_mul(STEP))
}

/// The generator splitmix64.
#[derive(Drop)]
pub(crate) struct Random(u64);

impl Random {
    /// The numbers that come from a seed.
    pub(crate) fn new(seed: u64) -> Random {
        Random(seed)
    }

    /// The next number.
    pub(crate) fn draw(&mut self) -> u64 {
        self.0 = self.0.wrapping_add(STEP);
        mixed(self.0)
    }
}
