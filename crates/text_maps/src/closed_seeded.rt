//! A closed map with a seed.
ghost use Rattle.std.specs.Prelude.{◌≡◌, MatchOption, None, Some};
ghost use Rattle.bin_history.specs.Entries.{lookup};
ghost use Rattle.bin_history.specs.declared.form.Form.TheVariants.{Lean};
ghost use Rattle.chm.specs.Headline.{entries_of};
ghost use Rattle.text_maps.specs.Texts.{key_of, same_key};

use bin_history::{Remap, Value};
use clients::Quiet;
use hashkeys::HashKey;
use seeded_keys::{Hashed, Query, Seed};
use std::alloc::Allocator;

/// A closed map of texts, and the seed of its keys.
pub type ClosedTexts<V, F, A> = ClosedSeeded<Hashed<A>, V, F, A>;

/// A closed map, and the seed of its keys. `SeededMap::reopen` opens a new map of it.
#[derive(Drop)]
pub struct ClosedSeeded<K: HashKey, V: Value, F: Remap<K, V>, A: Allocator> {
    pub quiet: Quiet<K, V, F, A>,
    pub seed: Seed,
    ghost lean: { quiet.ledger.form ≡ Lean },
}

impl<K: HashKey, V: Value, F: Remap<K, V>, A: Allocator> ClosedSeeded<K, V, F, A> {
    /// Returns what stands for the key of this text, as `SeededMap::of` does.
    ///
    ///     assert_eq!(closed.quiet.get_as(closed.of("a")).copied(), Some(5));
    pub fn of<'a>(&self, text: &'a str) -> Query<'a>
        ensures key { record { code = result.code; bytes = result.bytes.now } ≡ key_of self.now.seed text.now }
    {
        self.seed.query(text.as_bytes())
    }
}

impl<V: Value, F: Remap<Hashed<A>, V>, A: Allocator + Clone> ClosedSeeded<Hashed<A>, V, F, A> {
    /// Returns the value at the key of this text, as `Quiet::get_as` does: it takes time linear in the
    /// length of the text, logarithmic in the number of buckets, and linear in the keys of the bucket. It
    /// allocates nothing, and waits for nobody.
    ///
    ///     assert_eq!(closed.get("a").copied(), Some(5));
    pub fn get(&self, text: &str) -> Option<&V>
        ensures value { MatchOption result
            (lookup same_key (entries_of self.now.quiet.bins) (key_of self.now.seed text.now) ≡ None)
            (λ value. lookup same_key (entries_of self.now.quiet.bins) (key_of self.now.seed text.now)
            ≡ Some value.now) }
    {
        self.quiet.get_as(self.of(text))
    }
}
