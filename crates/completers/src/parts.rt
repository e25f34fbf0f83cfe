//! The parts that the last arrival at a node has.
ghost use Rattle.std.specs.Prelude.{◌≡◌, ℕ, ◌∷◌, [], MatchOption};
ghost use Rattle.completers.specs.Parts.{end_after, ends, present, start_of, slots_of};

use crate::relation::Partial;
use std::marker::Model;

/// The slots of a node, in range order.
#[derive(Drop)]
pub(crate) struct Slots<P> {
    pub(crate) own: Option<Partial<P>>,
    pub(crate) fork7: Option<Partial<P>>,
    pub(crate) fork6: Option<Partial<P>>,
    pub(crate) fork5: Option<Partial<P>>,
    pub(crate) fork4: Option<Partial<P>>,
    pub(crate) fork3: Option<Partial<P>>,
    pub(crate) fork2: Option<Partial<P>>,
    pub(crate) fork1: Option<Partial<P>>,
}

/// Parts in range order: a node's own, and those of its forks, the last fork's first. There are up
/// to 8, and they are taken one by one.
#[derive(Drop)]
pub struct Parts<P> {
    slots: Slots<P>,
}

impl<P> Model for Parts<P> {
    ghost use Rattle.std.specs.Prelude.{List};
    ghost use Rattle.completers.specs.declared.relation.Partial.{Partial};
    ghost use Rattle.completers.specs.Parts.{present, slots_of};

    ghost Value = { List (Partial P) };

    ghost view = { λ p. present (slots_of p.slots) };
}

fn end_of<P>(before: usize, slot: &Option<Partial<P>>) -> usize
    ensures { result ≡ end_after before slot.now }
{
    match slot {
        Some(x) => x.hi,
        None => before,
    }
}

impl<P> Slots<P> {
    pub(crate) fn lo(&self) -> usize
        ensures { result ≡ start_of self.now.own }
    {
        match &self.own {
            Some(x) => x.lo,
            None => 0,
        }
    }

    pub(crate) fn hi(&self) -> usize
        ensures { result ≡ ends (start_of self.now.own) (slots_of self.now) }
    {
        let end = end_of(end_of(self.lo(), &self.own), &self.fork7);
        let end = end_of(end_of(end, &self.fork6), &self.fork5);
        let end = end_of(end_of(end, &self.fork4), &self.fork3);
        end_of(end_of(end, &self.fork2), &self.fork1)
    }

    fn take(&mut self) -> Option<Partial<P>>
        ensures { MatchOption result ((present (slots_of self.old) ≡ [])
            × (present (slots_of self.new) ≡ []))
            (λ x. present (slots_of self.old) ≡ x ∷ present (slots_of self.new)) }
    {
        if let Some(x) = self.own.take() {
            return Some(x);
        }
        if let Some(x) = self.fork7.take() {
            return Some(x);
        }
        if let Some(x) = self.fork6.take() {
            return Some(x);
        }
        if let Some(x) = self.fork5.take() {
            return Some(x);
        }
        if let Some(x) = self.fork4.take() {
            return Some(x);
        }
        if let Some(x) = self.fork3.take() {
            return Some(x);
        }
        if let Some(x) = self.fork2.take() {
            return Some(x);
        }
        self.fork1.take()
    }
}

impl<P> Parts<P> {
    pub(crate) fn of(slots: Slots<P>) -> Parts<P>
        ensures { result ≡ present (slots_of slots) }
    {
        Parts { slots }
    }

    /// The next part, in range order. None: all are taken.
    pub fn take(&mut self) -> Option<Partial<P>>
        ensures { MatchOption result ((self.old ≡ []) × (self.new ≡ []))
            (λ x. self.old ≡ x ∷ self.new) }
    {
        self.slots.take()
    }
}
