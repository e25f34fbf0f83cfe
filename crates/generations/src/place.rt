//! A place for one bin.
ghost use Rattle.std.specs.Prelude.{◌≡◌, ◌<◌, ◌%◌, IfSome};
ghost use Rattle.bin_history.specs.Calls.{after};
ghost use Rattle.counted_slot.specs.Counting.{IsTurn};
ghost use Rattle.bin_layout.specs.Places.{AreAt};
ghost use Rattle.generations.specs.States.{FitsPlace};

use crate::state::State;
use bin_history::{Bin, Remap, Value};
use bin_layout::PlaceTag;
use count_ledger::BinRole;
use counted_slot::{Claim, Counted, FREE, MARKED, MOST_READERS, ONE_READER, PRESENT, TAKEN};
use hashkeys::HashKey;
use std::alloc::Allocator;
use std::marker::Model;

/// The word of a place whose bin is being taken out, was halved, or was taken for good. A place is
/// made under `FREE`, and nobody reads there yet; once it was held or filled it is `PRESENT`, where
/// readers may come. While its bin is held the word is `TAKEN`.
pub(crate) const AWAY: u64 = MARKED;

/// The word of a new place while it is claimed to be filled: `TAKEN` with a bit that tells that
/// nobody is to look for a bin there yet. So the place can be handed back as it was.
const FILLING: u64 = TAKEN + (1 << 32);

/// A place for one bin: its lock with the bin. Contracts see what was fixed when it was made; the
/// bin's class is told by where the place stands in its table.
#[derive(Drop)]
pub struct Place<K: HashKey, V: Value, F: Remap<K, V>, A: Allocator> {
    lock: Counted<State<K, V, F, A>>,
}

impl<K: HashKey, V: Value, F: Remap<K, V>, A: Allocator> Model for Place<K, V, F, A> {
    ghost use Rattle.bin_layout.specs.declared.tag.PlaceTag.{PlaceTag};

    ghost Value = { PlaceTag };

    ghost view = { λ p. p.lock };
}

impl<K: HashKey, V: Value, F: Remap<K, V>, A: Allocator> Place<K, V, F, A> {
    pub(crate) fn new(tag: &PlaceTag, state: State<K, V, F, A>) -> Place<K, V, F, A>
        requires { FitsPlace K.eq (after V.eq F.remapped F.merged) tag.now state }
        ensures { result ≡ tag.now }
    {
        Place {
            lock: Counted::new(state, tag),
        }
    }

    /// Whether the place was held or filled since it was made. Once it was it stays so.
    pub(crate) fn is_begun(&self) -> bool {
        let word = self.lock.load();
        word != FREE && word != FILLING
    }

    /// One try for a claim to read.
    pub(crate) fn try_share(&self) -> Option<Claim<'_, State<K, V, F, A>>>
        ensures { IfSome result (λ c. (c.right ≡ 1) × (c.tag ≡ self.now)) }
    {
        let word = self.lock.load();
        if word % 4 != PRESENT || word / 4 >= MOST_READERS {
            return None;
        }
        let (found, claim) = self.lock.turn(word, word + ONE_READER);
        if found != word {
            claim.done();
            return None;
        }
        Some(claim)
    }

    /// One try for the right to write, by a turn of the word.
    #[inline(always)]
    fn turn_to_write(&self, old: u64, new: u64) -> Option<Claim<'_, State<K, V, F, A>>>
        requires turn { IsTurn old new }
        requires writes { new % 4 ≡ 3 }
        ensures { IfSome result (λ c. (c.right ≡ 2) × (c.tag ≡ self.now)) }
    {
        let (found, claim) = self.lock.turn(old, new);
        if found != old {
            claim.done();
            return None;
        }
        Some(claim)
    }

    /// One try for the right to write.
    pub(crate) fn try_claim(&self) -> Option<Claim<'_, State<K, V, F, A>>>
        ensures { IfSome result (λ c. (c.right ≡ 2) × (c.tag ≡ self.now)) }
    {
        let word = self.lock.load();
        if word != PRESENT && word != FREE {
            return None;
        }
        self.turn_to_write(word, TAKEN)
    }

    /// One try for the right to write where the bin was held before, without a look at the word
    /// first: a look would fetch the word's line once to read it, and once more to write it.
    #[inline(always)]
    pub(crate) fn claim_at_once(&self) -> Option<Claim<'_, State<K, V, F, A>>>
        ensures { IfSome result (λ c. (c.right ≡ 2) × (c.tag ≡ self.now)) }
    {
        self.turn_to_write(PRESENT, TAKEN)
    }

    /// One try for the right to write where the bin was taken out just now. Nobody but the caller
    /// turns the word then, so that it does not fail.
    #[inline(always)]
    pub(crate) fn claim_again(&self) -> Option<Claim<'_, State<K, V, F, A>>>
        ensures { IfSome result (λ c. (c.right ≡ 2) × (c.tag ≡ self.now)) }
    {
        self.turn_to_write(AWAY, TAKEN)
    }

    /// One try for the right to fill a new place.
    pub(crate) fn claim_new(&self) -> Option<Claim<'_, State<K, V, F, A>>>
        ensures { IfSome result (λ c. (c.right ≡ 2) × (c.tag ≡ self.now)) }
    {
        self.turn_to_write(FREE, FILLING)
    }
}

/// Puts a bin into a new place that was claimed.
pub(crate) fn fill<K: HashKey, V: Value, F: Remap<K, V>, A: Allocator>(
    claim: Claim<'_, State<K, V, F, A>>,
    bin: Bin<K, V, F, A>,
    role: BinRole<K, V, F>,
)
    requires right { claim.right ≡ 2 }
    requires at { AreAt K.eq (after V.eq F.remapped F.merged) claim.tag bin role }
{
    drop(claim.put(State::Live(role, bin), PRESENT));
}

/// Leaves a new place that was claimed as it was.
pub(crate) fn leave_new<K: HashKey, V: Value, F: Remap<K, V>, A: Allocator>(
    claim: Claim<'_, State<K, V, F, A>>,
)
    requires { claim.right ≡ 2 }
{
    drop(claim.put(State::Away, FREE));
}
