//! A place where a thing waits while nobody has it out.
ghost use Rattle.std.specs.Prelude.{◌≡◌, ◌⊎◌, IfSome, IfOk, IfErr};

use boxcar::tag::Tag;
use counted_slot::{Counted, FREE, Fits, MARKED, TAKEN};
use std::marker::Model;

/// The word of a slot whose thing is out, and of one whose thing is in. Whoever takes the thing or
/// brings it back turns the word to `TAKEN` for the moment.
const OUT: u64 = FREE;

const IN: u64 = MARKED;

/// A thing of which contracts know numbers, by which a slot is for this thing alone.
pub(crate) trait Waits {
    ghost use Rattle.std.specs.Prelude.{List, ℕ};

    ghost numbers: { Self → List ℕ };

    /// Ends the thing.
    fn end(self);
}

/// A thing that waits, or none.
pub(crate) struct Waiting<X: Waits> {
    thing: Option<X>,
}

impl<X: Waits> Fits for Waiting<X> {
    ghost use Rattle.std.specs.Prelude.{◌≡◌, IfSome};

    type Tag = Tag;

    ghost fits = { λ tag w. IfSome w.thing (λ x. X.numbers x ≡ tag.numbers) };
}

impl<X: Waits> Drop for Waiting<X> {
    fn drop(self) {
        if let Some(thing) = self.into_thing() {
            thing.end();
        }
    }
}

impl<X: Waits> Waiting<X> {
    fn into_thing(self) -> Option<X>
        ensures { result ≡ self.thing }
    {
        let Waiting { thing } = self;
        thing
    }
}

/// A slot for one thing. Contracts see the numbers of the thing that it is for.
#[derive(Drop)]
pub(crate) struct Slot<X: Waits> {
    lock: Counted<Waiting<X>>,
}

impl<X: Waits> Model for Slot<X> {
    ghost use Rattle.std.specs.Prelude.{List, ℕ};

    ghost Value = { List ℕ };

    ghost view = { λ s. s.lock.numbers };
}

impl<X: Waits> Slot<X> {
    /// A slot for the thing with the numbers of this tag, which is out.
    pub(crate) fn new(tag: &Tag) -> Slot<X>
        ensures { result ≡ tag.now.numbers }
    {
        Slot {
            lock: Counted::new(Waiting { thing: None }, tag),
        }
    }

    /// Puts this in the place of what waits, where the word is the old one. It waits for nobody.
    fn swap(&self, old: u64, waiting: Waiting<X>, new: u64) -> Result<Waiting<X>, Waiting<X>>
        requires words { (old ≡ 0) ⊎ (old ≡ 2) }
        requires new { (new ≡ 0) ⊎ (new ≡ 2) }
        requires fits { IfSome waiting.thing (λ x. X.numbers x ≡ self.now) }
        ensures was { IfOk result (λ w. IfSome w.thing (λ x. X.numbers x ≡ self.now)) }
        ensures back { IfErr result (λ w. w ≡ waiting) }
    {
        let (found, claim) = self.lock.turn(old, TAKEN);
        if found != old {
            claim.done();
            return Err(waiting);
        }
        Ok(claim.put(waiting, new))
    }

    /// Takes the thing out. Returns none where it is out already, or another thread takes or brings
    /// it at this moment. It waits for nobody.
    pub(crate) fn take(&self) -> Option<X>
        ensures { IfSome result (λ x. X.numbers x ≡ self.now) }
    {
        match self.swap(IN, Waiting { thing: None }, OUT) {
            Ok(waiting) => waiting.into_thing(),
            Err(_none) => None,
        }
    }

    /// Brings the thing back. It waits for nobody; were there one already, this one would end.
    pub(crate) fn put_back(&self, thing: X)
        requires { X.numbers thing ≡ self.now }
    {
        let waiting = Waiting { thing: Some(thing) };
        drop(self.swap(OUT, waiting, IN));
    }
}
