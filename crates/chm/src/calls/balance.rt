//! What a client's calls came to.
ghost use Rattle.std.specs.Prelude.{◌≡◌};
ghost use Rattle.bin_history.specs.Deltas.{sum_of_deltas};
ghost use Rattle.count_ledger.specs.Words.{word_of};

use crate::map::Map;
use bin_history::{Remap, Value};
use count_ledger::Pass;
use hashkeys::HashKey;
use std::alloc::Allocator;

impl<K: HashKey, V: Value, F: Remap<K, V>, A: Allocator> Map<K, V, F, A> {
    /// Returns how many keys the calls of this pass added, less how many they took away, as a 64-bit
    /// two's complement number. The pass keeps it: it is exact, whatever other clients do meanwhile,
    /// and waits for nobody.
    ///
    ///     let before = map.balance(pass);
    ///     map.put(rt, pass, 1, 5)?;
    ///     map.balance(pass) == before.wrapping_add(1)
    #[inline(always)]
    pub fn balance(&self, pass: &mut Pass<K, V, F>) -> u64
        requires { pass.old.ledger ≡ self.now.ledger.id }
        ensures sum { result ≡ word_of (sum_of_deltas pass.old.made) }
        ensures same { pass.new ≡ pass.old }
    {
        pass.balance()
    }
}
