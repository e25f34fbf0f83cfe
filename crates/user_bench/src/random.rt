//! Numbers that look random.

/// What the generator splitmix64 draws in this place: numbers in no order, each once.
pub(crate) fn drawn_at(place: u64) -> u64 {
    let state = place.wrapping_mul(0x9e37_79b9_7f4a_7c15);
    let z = (state ^ (state >> 30)).wrapping_mul(0xbf58_476d_1ce4_e5b9);
    let z = (z ^ (z >> 27)).wrapping_mul(0x94d0_49bb_1331_11eb);
    z ^ (z >> 31)
}
