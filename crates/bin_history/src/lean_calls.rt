//! Calls on the entries of a lean bin, where they lie.
ghost use Rattle.std.specs.Prelude.{◌≡◌, [], IfOk, IsOk, OnOk, OnErr, is_some, None, true, false};
ghost use Rattle.hashkeys.specs.Classes.{is_of};
ghost use Rattle.bin_history.specs.Calls.{after};
ghost use Rattle.bin_history.specs.Changes.{IsWork, left_by, taken_by};
ghost use Rattle.bin_history.specs.Entries.{lookup, store};
ghost use Rattle.bin_history.specs.Hashes.{hash_by};
ghost use Rattle.bin_history.specs.Lawful.{IsLawful};
ghost use Rattle.bin_history.specs.Leans.{as_bin};
ghost use Rattle.bin_history.specs.Made.{IsMadeOn};
ghost use Rattle.bin_history.specs.Ops.{call_on, key_in};
ghost use Rattle.bin_history.specs.Readiness.{IsSeen};
ghost use Rattle.bin_history.specs.Sure.{IsKept, IsNeverRefused, IsSpared, IsSure, asks, copies_none};

use crate::call::{Remap, Reply, Value};
use crate::effect::Effect;
use crate::op::Op;
use crate::posting::Posting;
use crate::seen::Seen;
use crate::work::{Work, work_of};
use bin_entries::{KeyArg, LeanEntries};
use hashkeys::HashKey;
use std::alloc::{AllocError, Allocator};

/// What holds of a lean bin's entries. It does nothing when it runs.
#[inline(always)]
pub fn lawful_entries<K: HashKey, V: Eq, F: Remap<K, V>, A: Allocator>(
    entries: &LeanEntries<K, V, A>,
)
    ensures { IsLawful K.eq K.code (after V.eq F.remapped F.merged) (as_bin entries.now) }
{
    entries.lawful();
}

/// What a call on a key of this hash does, and what the books see of it.
#[inline(always)]
fn evaluate<K: HashKey, V: Value, F: Remap<K, V>, A: Allocator>(
    entries: &LeanEntries<K, V, A>,
    hash: u32,
    key: &K,
    op: &Op<V, F>,
) -> Result<(Work<V>, Seen<K, V, F>), AllocError>
    requires hash { hash ≡ hash_by K.code entries.now.salt key.now }
    ensures work { IfOk result (λ r. IsWork V.eq F.remapped F.merged key.now op.now
        (lookup K.eq entries.now.entries key.now) r.0) }
    ensures seen { IfOk result (λ r. IsSeen r.1 (call_on key.now op.now)
        (lookup K.eq entries.now.entries key.now)
        (left_by op.now r.0.effect (lookup K.eq entries.now.entries key.now))) }
    ensures succeeds { (copies_none op.now ≡ false → IsNeverRefused V.is_infallible) →
        asks op.now (lookup K.eq entries.now.entries key.now) ≡ false → IsOk result }
{
    let before = entries.get(hash, key);
    let work = work_of(key, op, before)?;
    let after = work.effect.left(op, before);
    let seen = Seen::of(key, op, before, after);
    Ok((work, seen))
}

/// Carries the effect of a call on the key out, which is there or not. It gives back the value that
/// it takes away.
#[inline(always)]
fn carry_out<K: HashKey, V: Drop, F: Drop, A: Allocator + Clone>(
    entries: &mut LeanEntries<K, V, A>,
    alloc: &A,
    hash: u32,
    key: KeyArg<'_, K>,
    op: Op<V, F>,
    effect: Effect<V>,
    there: bool,
) -> Result<Option<V>, AllocError>
    requires hash { hash ≡ hash_by K.code entries.old.salt (key_in key) }
    requires of_class { is_of K.code entries.old.salt entries.old.class (key_in key) ≡ true }
    requires there { is_some (lookup K.eq entries.old.entries (key_in key)) ≡ there }
    ensures entries { OnOk result (entries.new.entries
        ≡ store K.eq entries.old.entries (key_in key.entry)
        (left_by op effect (lookup K.eq entries.old.entries (key_in key.entry)))) }
    ensures taken { IfOk result (λ taken. taken
        ≡ taken_by effect (lookup K.eq entries.old.entries (key_in key.entry))) }
    ensures succeeds { (there ≡ false → left_by op effect None ≡ None) → IsOk result }
    ensures first { entries.old.entries ≡ [] → IsKept K.is_infallible key.entry → IsOk result }
    ensures refused { OnErr result (entries.new.entries ≡ entries.old.entries) }
    ensures class { entries.new.class ≡ entries.old.class }
    ensures salt { entries.new.salt ≡ entries.old.salt }
{
    let value = match effect {
        Effect::Keep => return Ok(None),
        Effect::Give => op.into_value(),
        Effect::Set(made) => made,
    };
    entries.store(alloc, hash, key, there, value)
}

impl<V: Value, F: Drop> Op<V, F> {
    /// Makes the call on a key of this hash where the entries lie, as the call of this client, after so
    /// many others of it. Returns the reply and what the books need. Out of memory, the call is
    /// dropped, and nothing is changed.
    #[inline(always)]
    pub fn make_on<K: HashKey, A: Allocator + Clone>(
        self,
        entries: &mut LeanEntries<K, V, A>,
        alloc: &A,
        hash: u32,
        key: KeyArg<'_, K>,
        client: u32,
        ordinal: u64,
    ) -> Result<(Reply<V>, Posting<K, V, F>), AllocError>
    where
        F: Remap<K, V>,
        requires hash { hash ≡ hash_by K.code entries.old.salt (key_in key) }
        requires of_class { is_of K.code entries.old.salt entries.old.class (key_in key) ≡ true }
        ensures made { IfOk result
            (λ r. IsMadeOn K.eq V.eq F.remapped F.merged client ordinal
            (call_on (key_in key.entry) self) (as_bin entries.old) (as_bin entries.new) r.0 r.1) }
        ensures succeeds { IsSure K.eq K.is_infallible V.is_infallible (as_bin entries.old)
            (key_in key.entry) self → IsOk result }
        ensures spared { IsSpared K.eq (IsKept K.is_infallible key.entry) V.is_infallible
            entries.old.entries (key_in key.entry) self → IsOk result }
        ensures refused { OnErr result (entries.new.entries ≡ entries.old.entries) }
        ensures class { entries.new.class ≡ entries.old.class }
        ensures salt { entries.new.salt ≡ entries.old.salt }
    {
        let (work, seen) = evaluate(entries, hash, key.get(), &self)?;
        let there = seen.before.is_some();
        let Work { effect, answer } = work;
        let taken = carry_out(entries, alloc, hash, key, self, effect, there)?;
        Ok((answer.reply(taken), Posting::seen(client, ordinal, seen)))
    }
}
