//! Maps whose keys, values and functions take memory.
ghost use Rattle.std.specs.Prelude.{◌≡◌};

use crate::kinds::{Given, call_of_kind};
use crate::steps::Steps;
use crate::words::{Text, text};
use bin_history::{Call, Exact, Remap, Reply};
use chm::Map;
use count_ledger::Pass;
use std::alloc::{AllocError, Allocator};
use std::process::Abort;
use std::sync::Wait;
use test_maps::numbered_text;

pub(crate) type TextMap<A> = Map<Text<A>, Text<A>, Says<A>, A>;

pub(crate) type TextPass<A> = Pass<Text<A>, Text<A>, Says<A>>;

type TextCall<A> = Call<Text<A>, Text<A>, Says<A>>;

/// The function whose result is a text of its own.
#[derive(Drop)]
pub(crate) struct Says<A: Allocator> {
    text: Text<A>,
}

impl<A: Allocator + Clone> Clone for Says<A> {
    ghost use Rattle.std.specs.Prelude.{◌≡◌};

    ghost is_clone = { λ x y. y ≡ x };

    fn clone(&self) -> Result<Says<A>, AllocError> {
        Ok(Says {
            text: self.text.clone()?,
        })
    }
}

impl<A: Allocator + Clone> Exact for Says<A> {
    ghost copies_exactly = { λ x y e. e };
}

impl<A: Allocator + Clone> Remap<Text<A>, Text<A>> for Says<A> {
    ghost use Rattle.std.specs.Prelude.{Some};

    ghost remapped = { λ f k v. Some f.text };

    ghost merged = { λ f old given. Some f.text };

    fn remap(
        &self,
        _key: &Text<A>,
        _value: Option<&Text<A>>,
    ) -> Result<Option<Text<A>>, AllocError> {
        Ok(Some(self.text.clone()?))
    }

    fn merge(&self, _old: &Text<A>, _given: &Text<A>) -> Result<Option<Text<A>>, AllocError> {
        Ok(Some(self.text.clone()?))
    }
}

/// The key of a number.
pub(crate) fn key<A: Allocator + Clone>(rt: &impl Abort, alloc: &A, number: u32) -> Text<A> {
    text(rt, alloc, &numbered_text(number))
}

/// A call of a kind on the key of a number.
fn call_of<A: Allocator + Clone>(
    rt: &impl Abort,
    alloc: &A,
    kind: u32,
    number: u32,
) -> Call<Text<A>, Text<A>, Says<A>> {
    // What replaces a value that is expected is another one.
    let new: &[u8] = if kind == 7 { b"seven" } else { b"value" };
    let given = Given {
        old: text(rt, alloc, b"value"),
        new: text(rt, alloc, new),
        function: Says {
            text: text(rt, alloc, b"seven"),
        },
    };
    call_of_kind(kind as usize, key(rt, alloc, number), given)
}

/// The puts of the keys of so many numbers.
#[derive(Drop)]
pub(crate) struct Puts<'s, A: Allocator> {
    pub(crate) alloc: &'s A,
    pub(crate) count: u32,
}

impl<'s, A: Allocator + Clone> Steps<Text<A>, Text<A>, Says<A>, A> for Puts<'s, A> {
    type Told = ();

    fn take<R: Wait + Abort>(&self, rt: &R, map: &TextMap<A>, pass: &mut TextPass<A>) {
        for number in 0..self.count {
            let reply = map.call(rt, pass, call_of(rt, self.alloc, 2, number));
            assert!(rt; matches!(reply, Ok(Reply::Value(None))));
        }
    }
}

/// So many calls, of each kind in turn, on five keys in turn.
#[derive(Drop)]
pub(crate) struct CallsOften<'s, A: Allocator> {
    pub(crate) alloc: &'s A,
    pub(crate) times: u32,
}

impl<'s, A: Allocator + Clone> Steps<Text<A>, Text<A>, Says<A>, A> for CallsOften<'s, A> {
    type Told = ();

    fn take<R: Wait + Abort>(&self, rt: &R, map: &TextMap<A>, pass: &mut TextPass<A>) {
        for time in 0..self.times {
            let call = call_of(rt, self.alloc, time % 12, time % 5);
            assert!(rt; map.call(rt, pass, call).is_ok());
        }
    }
}
