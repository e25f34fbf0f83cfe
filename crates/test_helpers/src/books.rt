//! Ledgers that end.
ghost use Rattle.std.specs.Prelude.{◌≡◌, All};

use bin_history::{Remap, Value};
use count_ledger::{BinRole, Ledger, Pass, Unsettled, retire_all};
use hashkeys::HashKey;
use std::alloc::Allocator;

/// Settles a ledger, and returns the sum of all deltas. Where it does not settle, passes and roles
/// are dropped with it.
pub fn settled<K: HashKey, V: Value, F: Remap<K, V>, A: Allocator>(
    ledger: Ledger<K, V, F, A>,
    passes: Vec<Pass<K, V, F>, A>,
    roles: Vec<BinRole<K, V, F>, A>,
) -> Option<u64>
    requires passes { All (λ p. p.ledger ≡ ledger.id) passes.items }
    requires roles { All (λ r. r.ledger ≡ ledger.id) roles.items }
{
    match ledger.settle(passes, roles) {
        Ok(total) => Some(total),
        Err(
            Unsettled {
                ledger,
                passes,
                roles,
            },
        ) => {
            retire_all(passes);
            drop(roles);
            drop(ledger);
            None
        }
    }
}
