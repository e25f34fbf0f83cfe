//! Byte strings, and places in them.
ghost use Rattle.std.specs.Prelude.{◌≡◌, ◌≢◌, ℕ, ◌+◌, ◌<◌, ◌≤◌, All, length, take, slice_index};
ghost use Rattle.std.specs.Prelude.{nat_eq};
ghost use Rattle.std.specs.Cmp.Lexicographic.{pointwise};

use std::simd::prelude::*;

/// How many bytes are looked at together.
const LANES: usize = 32;

/// Whether a first word is this one.
#[inline(always)]
pub(crate) fn is(name: &[u8], first: &[u8]) -> bool
    ensures { result ≡ pointwise nat_eq name.now first.now }
{
    name.len() == first.len() && name == first
}

/// How many of the 32 bytes from a place on stand before the first that is this one; all where none
/// is.
#[inline(always)]
fn run_before(text: &[u8], at: usize, byte: u8) -> usize
    requires { at + LANES ≤ length text.now }
    ensures within { result ≤ LANES }
    ensures before { (k : ℕ) → at ≤ k → k < at + result → slice_index text.now k ≢ byte }
    ensures place { result < LANES → slice_index text.now (at + result) ≡ byte }
{
    let found = u8x32::from_slice(&text[at..])
        .simd_eq(u8x32::splat(byte))
        .to_bitmask();
    if found == 0 {
        LANES
    } else {
        found.trailing_zeros() as usize
    }
}

/// The index of the first such byte before the end, or the end where there is none. The text may go
/// on after the end, so that its bytes can be looked at together there too.
#[inline(always)]
pub(crate) fn place_before(text: &[u8], end: usize, byte: u8) -> usize
    requires { end ≤ length text.now }
    ensures before { All (λ b. b ≢ byte) (take result text.now) }
    ensures within { result ≤ end }
    ensures place { result < end → slice_index text.now result ≡ byte }
{
    let mut at = 0;
    'places: while at < end {
        if text.len() - at >= LANES {
            let run = run_before(text, at, byte);
            if run < LANES {
                return end.min(at + run);
            }
            at += LANES;
        } else {
            if text[at] == byte {
                return at;
            }
            at += 1;
        }
    }
    end
}
