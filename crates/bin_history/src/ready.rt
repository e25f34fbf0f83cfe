//! Calls that are prepared.
ghost use Rattle.std.specs.Prelude.{◌≡◌, ◌<◌, ℕ, Option, None, true, false, IfOk, IsOk};
ghost use Rattle.std.specs.Prelude.{option_copied};
ghost use Rattle.bin_history.specs.Changes.{IsIndexOf, Fits, change_by, left_by};
ghost use Rattle.bin_history.specs.Entries.{lookup};
ghost use Rattle.bin_history.specs.Ops.{call_on, key_in, may_add, value_of};
ghost use Rattle.bin_history.specs.Readiness.{IsWorkedOut, kept_of};
ghost use Rattle.bin_history.specs.Sure.{IsNeverRefused, asks};
ghost use Rattle.bin_history.specs.declared.effect.Effect.TheVariants.{Give};

use crate::call::{Call, Remap, Value};
use crate::change::{Change, value_at};
use crate::effect::{Answer, Effect};
use crate::op::Op;
use crate::seen::Seen;
use crate::work::work_of;
use bin_entries::{KeyArg, copy_of_option};
use hashkeys::{Exact, HashKey};
use std::alloc::AllocError;
use std::marker::Model;

/// What a recorded bin keeps of a call: the call, and the values just before it and just after it.
#[derive(Drop)]
pub struct Kept<K, V, F> {
    pub(crate) call: Call<K, V, F>,
    pub(crate) before: Option<V>,
    pub(crate) after: Option<V>,
}

/// A call that is prepared: what it does to a bin and answers, with all copies made. `RecordedBin::prepare`
/// makes it and `RecordedBin::apply` uses it up.
#[derive(Drop)]
pub struct Ready<K, V, F> {
    pub(crate) seen: Seen<K, V, F>,
    pub(crate) answer: Answer<V>,
    pub(crate) change: Change<K, V>,
    pub(crate) kept: Kept<K, V, F>,
}

impl<K, V, F> Model for Ready<K, V, F> {
    ghost use Rattle.bin_history.specs.Readiness.{ReadyView, call_seen, value_seen};

    ghost Value = { ReadyView K V F };

    ghost view = { λ r. record {
      call = call_seen r.seen.call;
      before = value_seen r.seen.before;
      after = value_seen r.seen.after;
      answer = r.answer;
      change = r.change;
      kept = r.kept;
    } };
}

/// What a recorded bin does for a call of this effect, and keeps of it: the change and the record
/// each have their own copies.
fn planned<K: Exact + Drop, V: Exact + Drop, F: Drop>(
    found: Option<usize>,
    key: KeyArg<'_, K>,
    op: Op<V, F>,
    effect: Effect<V>,
    before: Option<&V>,
) -> Result<(Change<K, V>, Kept<K, V, F>), AllocError>
    ensures change { IfOk result (λ r. (value : Option V) × (effect ≡ Give → value ≡ value_of op)
        × (r.0 ≡ change_by found (key_in key.entry) effect value)) }
    ensures kept { IfOk result (λ r. r.1 ≡ kept_of (call_on (key_in key.entry) op)
        (option_copied before.entry) (left_by op effect (option_copied before.entry))) }
    ensures succeeds { K.is_infallible (key_in key.entry) → IsNeverRefused V.is_infallible
        → IsOk result }
{
    let value = effect.copy_given(&op)?;
    let after = copy_of_option(effect.left(&op, before))?;
    let before = copy_of_option(before)?;
    let key = key.into_owned()?;
    let change = Change::by(KeyArg::Borrowed(&key), found, effect, value)?;
    let call = Call::on(key, op);
    Ok((
        change,
        Kept {
            call,
            before,
            after,
        },
    ))
}

/// Works out all that a call does to the entries of a bin, in which its key was looked for.
pub(crate) fn work_out<K: HashKey, V: Value, F: Remap<K, V>>(
    entries: &[(K, V)],
    found: Option<usize>,
    key: KeyArg<'_, K>,
    op: Op<V, F>,
) -> Result<Ready<K, V, F>, AllocError>
    requires found { IsIndexOf K.eq entries.now (key_in key) found }
    ensures call { IfOk result (λ r. r.call ≡ call_on (key_in key.entry) op) }
    ensures ready { IfOk result (λ r. IsWorkedOut K.eq V.eq F.remapped F.merged r entries.now) }
    ensures kept { IfOk result (λ r. r.kept ≡ kept_of r.call r.before r.after) }
    ensures succeeds { K.is_infallible (key_in key.entry) → IsNeverRefused V.is_infallible →
        asks op (lookup K.eq entries.now (key_in key.entry)) ≡ false
        → IsOk result }
    ensures fits { IfOk result (λ r. (room : ℕ) → (found ≡ None → may_add op ≡ true → 0 < room) →
        Fits room r.change) }
{
    let before = value_at(entries, key.get(), found);
    let work = work_of(key.get(), &op, before)?;
    let after = work.effect.left(&op, before);
    let seen = Seen::of(key.get(), &op, before, after);
    let (change, kept) = planned(found, key, op, work.effect, before)?;
    Ok(Ready {
        seen,
        answer: work.answer,
        change,
        kept,
    })
}
