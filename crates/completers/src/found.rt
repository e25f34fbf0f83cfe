//! Where a search found something first.
ghost use Rattle.std.specs.Prelude.{◌<◌, IfSome};
ghost use Rattle.completers.specs.Limits.{most_indices};

use std::marker::PhantomData;
use std::sync::atomic::Ordering::SeqCst;
use std::sync::atomic::{AtomicIn, Rule};

/// What is known of each index that is claimed.
pub trait Finds {
    ghost use Rattle.std.specs.Prelude.{ℕ};

    // Whether something is found at the index.
    ghost finds: { ℕ → Type 0 };
}

// 0 for none, and else 1 more than an index at which something is found.
struct Numbered<I> {
    what: PhantomData<I>,
}

impl<I: Finds> Rule for Numbered<I> {
    ghost use Rattle.completers.specs.Claims.{IsClaimWord};

    ghost invariant = { λ word. IsClaimWord I.finds word };
}

/// The index at which something was found first. Many may claim and look at once. Whoever claims an
/// index shows that something is found there, and whoever looks learns that of what it is shown.
#[derive(Drop)]
pub struct Found<I: Finds> {
    word: AtomicIn<Numbered<I>>,
}

impl<I: Finds> Found<I> {
    /// Nothing is found yet.
    pub fn new() -> Found<I> {
        Found {
            word: AtomicIn::new(0),
        }
    }

    /// Claims that something was found at an index below 65,536. True for the first claimer only,
    /// whose index is shown from then on.
    pub fn claim(&self, index: u64) -> bool
        requires small { index < most_indices }
        requires found { I.finds index }
    {
        self.word
            .compare_exchange(0, index + 1, SeqCst, SeqCst)
            .is_ok()
    }

    /// The index of the first claimer. None: nobody has claimed yet.
    pub fn look(&self) -> Option<u64>
        ensures small { IfSome result (λ i. i < most_indices) }
        ensures found { IfSome result I.finds }
    {
        match self.word.load(SeqCst) {
            0 => None,
            n => Some(n - 1),
        }
    }
}
