//! How the keys of calls are chosen: each alike, or by Zipf's law.
ghost use Rattle.std.specs.Prelude.{◌≡◌, ◌<◌, ◌≤◌, IfOk, length, vec_len};

use std::alloc::{AllocError, Global};

/// How the keys of calls are chosen.
#[derive(Clone, Copy, PartialEq, Eq, Debug)]
pub(crate) enum Choice {
    /// Each alike.
    Uniform,
    /// By Zipf's law with the exponent 0.99.
    Zipf,
}

/// How many steps the table of a choice by Zipf's law has, each as likely as the others.
const STEPS: usize = 4096;

/// The weight of a rank, from 1 up: 2^40 over the rank to the 0.99, nearly. The programs that
/// measure other maps reckon it the same way.
fn weight(rank: u64) -> u64
    requires { 0 < rank }
{
    let exponent = rank.ilog2();
    let logarithm = u64::from(exponent)
        .wrapping_mul(65_536)
        .wrapping_add((rank << 16) >> exponent)
        .wrapping_sub(65_536);
    let power = logarithm.wrapping_mul(454) >> 16;
    let raised = power
        .wrapping_add(65_536)
        .wrapping_add(power.wrapping_mul(power) >> 17);
    (raised << 24) / rank
}

/// The weights of the ranks up to a number of keys, added up.
fn weight_of_all(keys: u32) -> u64 {
    let mut total = 0u64;
    for rank in 0..keys {
        total = total.wrapping_add(weight(u64::from(rank) + 1));
    }
    total
}

/// Lets the steps begin at a rank that have no more weight before them than this one.
fn begin_steps(
    mut starts: Vec<u32>,
    rank: u32,
    before: u64,
    total: u64,
) -> Result<Vec<u32>, AllocError>
    requires { vec_len starts ≤ 4096 }
    ensures { IfOk result (λ s. vec_len s ≤ 4096) }
{
    while starts.len() < STEPS
        && (before >> 12).wrapping_mul(4096) >= (total >> 12).wrapping_mul(starts.len() as u64)
    {
        starts.push(rank)?;
    }
    Ok(starts)
}

/// The rank at which each step of a choice by Zipf's law over so many keys begins, and the last rank.
pub(crate) fn steps(alloc: Global, keys: u32) -> Result<&'static [u32], AllocError> {
    let total = weight_of_all(keys);
    let mut starts = Vec::with_capacity(alloc, STEPS + 1)?;
    let mut before = 0u64;
    for rank in 0..keys {
        before = before.wrapping_add(weight(u64::from(rank) + 1));
        starts = begin_steps(starts, rank, before, total)?;
    }
    while starts.len() <= STEPS {
        starts.push(keys.saturating_sub(1))?;
    }
    Ok(starts.leak())
}

/// The number of a key among so many, by a random number: by the steps of Zipf's law, or each alike
/// where there are none.
#[inline(always)]
pub(crate) fn chosen(starts: &[u32], drawn: u64, keys: usize) -> usize
    requires { 0 < keys }
    ensures { result < keys }
{
    if starts.len() <= STEPS {
        return (drawn >> 16) as usize % keys;
    }
    let step = (drawn >> 16) as usize % STEPS;
    let first = u64::from(starts[step]);
    let span = u64::from(starts[step + 1]).saturating_sub(first);
    let rank = first + (drawn >> 28) % (span + 1);
    (rank * 7919) as usize % keys
}
