//! Calls that seek their key, and need none of their own.
ghost use Rattle.std.specs.Prelude.{◌≡◌, true, IfOk, IsOk, OnErr, option_copied};
ghost use Rattle.hashkeys.specs.Classes.{is_of};
ghost use Rattle.bin_history.specs.Hashes.{hash_by};
ghost use Rattle.bin_history.specs.Leans.{as_bin};
ghost use Rattle.bin_history.specs.Made.{IsMadeOn};
ghost use Rattle.bin_history.specs.Ops.{call_on};
ghost use Rattle.bin_history.specs.Readiness.{IsSeen};
ghost use Rattle.bin_history.specs.Seeks.{op_for};
ghost use Rattle.bin_history.specs.Sure.{IsNeverRefused};
ghost use Rattle.bin_history.specs.declared.seek.Seek.TheVariants.{Get};

use crate::call::{Remap, Reply, Value};
use crate::op::Op;
use crate::posting::Posting;
use crate::seen::Seen;
use bin_entries::{LeanEntries, copy_of_option};
use hashkeys::{AsKey, HashKey};
use std::alloc::{AllocError, Allocator};

/// A call that makes no entry and uses no function: it can be made on a key that is not there as a
/// key, by what stands for it.
#[derive(Clone, Copy, PartialEq, Eq, Debug)]
pub enum Seek {
    Get,
    Contains,
    Remove,
}

/// A call that leaves the value at its key as it is.
#[inline(always)]
fn seen_there<K: HashKey, V, F, Q: AsKey<K>>(
    query: Q,
    op: &Op<V, F>,
    found: Option<&V>,
) -> Seen<K, V, F>
    ensures { IsSeen result (call_on (Q.stands_for query) op.now) (option_copied found.entry)
        (option_copied found.entry) }
{
    Seen::of(query, op, found, found)
}

impl Seek {
    /// Makes the call where the entries lie, on the key of this hash that the query stands for, as the
    /// call of this client after so many others of it. Returns the reply and what the books need. It
    /// takes no memory but for the copy of a value that a get returns: where it gets none, nothing is
    /// changed.
    #[inline(always)]
    pub fn make_on<K: HashKey, V: Value, F: Remap<K, V>, A: Allocator, Q: AsKey<K>>(
        self,
        entries: &mut LeanEntries<K, V, A>,
        hash: u32,
        query: Q,
        client: u32,
        ordinal: u64,
    ) -> Result<(Reply<V>, Posting<K, V, F>), AllocError>
        requires hash { hash ≡ hash_by K.code entries.old.salt (Q.stands_for query) }
        requires of_class { is_of K.code entries.old.salt entries.old.class (Q.stands_for query)
            ≡ true }
        ensures made { IfOk result
            (λ r. IsMadeOn K.eq V.eq F.remapped F.merged client ordinal
            (call_on (Q.stands_for query) (op_for self)) (as_bin entries.old) (as_bin entries.new)
            r.0 r.1) }
        ensures spared { (self ≡ Get → IsNeverRefused V.is_infallible) → IsOk result }
        ensures refused { OnErr result (entries.new ≡ entries.old) }
        ensures class { entries.new.class ≡ entries.old.class }
        ensures salt { entries.new.salt ≡ entries.old.salt }
    {
        let made = match self {
            Seek::Get => {
                let found = entries.get_as(hash, query);
                let reply = Reply::Value(copy_of_option(found)?);
                (reply, seen_there(query, &Op::Get, found))
            }
            Seek::Contains => {
                let found = entries.get_as(hash, query);
                let reply = Reply::Truth(found.is_some());
                (reply, seen_there(query, &Op::Contains, found))
            }
            Seek::Remove => {
                let taken = entries.take_as(hash, query);
                let seen = Seen::of_taken(query, &Op::Remove, taken.as_ref());
                (Reply::Value(taken), seen)
            }
        };
        let (reply, seen) = made;
        Ok((reply, Posting::seen(client, ordinal, seen)))
    }
}
