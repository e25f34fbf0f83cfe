//! Sums over the count words.
ghost use Rattle.std.specs.Prelude.{◌≡◌, length, All};
ghost use Rattle.count_ledger.specs.Books.{IsPassOf};
ghost use Rattle.count_ledger.specs.Words.{word_of, total_made};

use crate::ledger::{LANES, Ledger, word_of_lane};
use crate::tokens::Pass;
use bin_history::Remap;
use hashkeys::HashKey;
use std::alloc::Allocator;

impl<K: HashKey, V: Eq, F: Remap<K, V>, A: Allocator> Ledger<K, V, F, A> {
    /// Returns the sum of the words of the lanes, of as many as there are clients and 32 at most, from
    /// lane 0 upward, modulo 2^64. While other threads post, it is the sum at no one moment, so nothing
    /// is promised of it.
    pub fn sum(&self) -> u64 {
        let mut total: u64 = 0;
        for lane in 0..self.clients.min(LANES) {
            total = total.wrapping_add(self.table.shared.peek(word_of_lane(lane)));
        }
        total
    }

    /// Returns the sum of all deltas, as a 64-bit two's complement number. It takes the passes of all
    /// clients.
    pub fn sum_all(&self, passes: &mut [Pass<K, V, F>]) -> u64
        requires own { All (λ p. p.ledger ≡ self.now.id) passes.old }
        requires all { length passes.old ≡ self.now.clients }
        ensures sum { result ≡ word_of (total_made passes.old) }
        ensures of_passes { All (IsPassOf self.now) passes.old }
        ensures same { passes.new ≡ passes.old }
    {
        self.add_shares(passes)
    }

    pub(crate) fn add_shares(&self, passes: &mut [Pass<K, V, F>]) -> u64
        requires { All (λ p. p.ledger ≡ self.now.id) passes.old }
        ensures sum { result ≡ word_of (total_made passes.old) }
        ensures of_passes { All (IsPassOf self.now) passes.old }
        ensures same { passes.new ≡ passes.old }
    {
        let mut total: u64 = 0;
        for i in 0..passes.len() {
            total = total.wrapping_add(self.share(&mut passes[i]));
        }
        total
    }
}
