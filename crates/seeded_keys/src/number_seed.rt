//! Seeds of maps of numbers.
ghost use Rattle.std.specs.Prelude.{◌≡◌, ◌*◌, ◌%◌, ◌^◌};

/// The seed of a map of numbers. It takes each number of 64 bits to a number of its own, under which it
/// lies in the map, and back: by an exclusive-or with a secret number, a multiplication by a secret odd
/// one, and an exclusive-or of the upper half into the lower one.
#[derive(Clone, Copy)]
pub struct NumberSeed {
    pub(crate) offset: u64,
    pub(crate) factor: u64,
    pub(crate) inverse: u64,
    ghost inverts: { (factor * inverse) % 2 ^ 64 ≡ 1 },
}
