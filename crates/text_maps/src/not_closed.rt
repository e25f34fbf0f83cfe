//! A map of texts that was not closed.
ghost use Rattle.std.specs.Prelude.{◌≡◌, IfSome, option_map};
ghost use Rattle.bin_history.specs.declared.form.Form.TheVariants.{Lean};

use crate::seeded_map::SeededMap;
use bin_history::{Remap, Value};
use clients::{Fault, SharedNotClosed, Unshared};
use hashkeys::HashKey;
use seeded_keys::Seed;
use std::alloc::Allocator;
use std::error::Error;
use std::fmt::{self, Debug, Display, Formatter};

/// Why a map of texts was not closed, and the map, which is as it was: shared still, or no more. There is
/// none where bins of it were missing. `?` makes a `Fault` or a program's error of it, and drops the map.
#[derive(Drop)]
pub struct TextNotClosed<K: HashKey, V: Value, F: Remap<K, V>, A: Allocator> {
    pub fault: Fault,
    pub shared: Option<SeededMap<K, V, F, A>>,
    pub unshared: Option<Unshared<K, V, F, A>>,
    pub seed: Seed,
}

impl<K: HashKey, V: Value, F: Remap<K, V>, A: Allocator> TextNotClosed<K, V, F, A> {
    /// A shared map that was not closed, with the seed of its keys.
    pub(crate) fn of(refused: SharedNotClosed<K, V, F, A>, seed: Seed) -> TextNotClosed<K, V, F, A>
        requires lean { IfSome refused.shared (λ s. s.ledger.form ≡ Lean) }
        ensures fault { result.fault ≡ refused.fault }
        ensures shared { option_map (λ t. t.map) result.shared ≡ refused.shared }
        ensures unshared { result.unshared ≡ refused.unshared }
        ensures seed { result.seed ≡ seed }
        ensures seed_shared { IfSome result.shared (λ t. t.seed ≡ seed) }
    {
        let SharedNotClosed {
            fault,
            shared,
            unshared,
        } = refused;
        let shared = match shared {
            Some(map) => Some(SeededMap::with(map, seed)),
            None => None,
        };
        TextNotClosed {
            fault,
            shared,
            unshared,
            seed,
        }
    }

    /// Returns why the map was not closed, and drops the map, which ends with the last client or handle
    /// that is of it. `?` does the same.
    ///
    ///     let closed = text.close().map_err(|refused| refused.give_up())?;
    pub fn give_up(self) -> Fault
        ensures { result ≡ self.fault }
    {
        self.fault
    }
}

impl<K: HashKey, V: Value, F: Remap<K, V>, A: Allocator> From<TextNotClosed<K, V, F, A>> for Fault {
    ghost from_gives = { λ refused fault. fault ≡ refused.fault };

    fn from(refused: TextNotClosed<K, V, F, A>) -> Fault {
        refused.give_up()
    }
}

impl<K: HashKey, V: Value, F: Remap<K, V>, A: Allocator> Debug for TextNotClosed<K, V, F, A> {
    fn fmt<W: fmt::Write>(&self, f: &mut Formatter<W>) -> fmt::Result {
        f.debug_struct("TextNotClosed")
            .field("fault", &self.fault)
            .finish_non_exhaustive()
    }
}

impl<K: HashKey, V: Value, F: Remap<K, V>, A: Allocator> Display for TextNotClosed<K, V, F, A> {
    fn fmt<W: fmt::Write>(&self, f: &mut Formatter<W>) -> fmt::Result {
        let fault = self.fault;
        write!(f, "{fault}")
    }
}

impl<K: HashKey, V: Value, F: Remap<K, V>, A: Allocator> Error for TextNotClosed<K, V, F, A> {}
