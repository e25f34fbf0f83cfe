//! Room in lists of records and of entries.
ghost use Rattle.std.specs.Prelude.{◌≡◌, ◌<◌, ◌≤◌, None, true, IsOk, OnOk, vec_len, vec_capacity};
ghost use Rattle.bin_history.specs.Limits.{most_records};
ghost use Rattle.bin_history.specs.Ops.{may_add};

use crate::op::Op;
use std::alloc::{AllocError, Allocator};

/// A list begins with room for so many.
const LEAST_ROOM: usize = 4;

/// Makes room for one more. A full list moves into a new one of twice its room: to
/// be grown where it lies it would have to ask the heap of the thread that first
/// made it, which other threads ask too.
pub(crate) fn make_room_in<T: Drop, A: Allocator + Clone>(
    list: &mut Vec<T, A>,
) -> Result<(), AllocError>
    requires few { vec_len list.old ≤ most_records }
    ensures items { list.new.items ≡ list.old.items }
    ensures len { vec_len list.new ≡ vec_len list.old }
    ensures room { OnOk result (vec_len list.new < vec_capacity list.new) }
    ensures succeeds { vec_len list.old < vec_capacity list.old → IsOk result }
{
    let len = list.len();
    if len < list.capacity() {
        return Ok(());
    }
    let mut wider = Vec::with_capacity(list.allocator().clone()?, (2 * len).max(LEAST_ROOM))?;
    wider.append(list)?;
    *list = wider;
    Ok(())
}

/// Makes room for the entry that a call may add, where its key was not found.
pub(crate) fn make_room_for<K: Drop, V: Drop, F, A: Allocator>(
    entries: &mut Vec<(K, V), A>,
    found: Option<usize>,
    op: &Op<V, F>,
) -> Result<(), AllocError>
    ensures items { entries.new.items ≡ entries.old.items }
    ensures room { OnOk result (found ≡ None → may_add op.now ≡ true →
        vec_len entries.new < vec_capacity entries.new) }
    ensures succeeds { (found ≡ None → may_add op.now ≡ true →
        vec_len entries.old < vec_capacity entries.old) → IsOk result }
{
    if found.is_none() && op.may_add() {
        entries.reserve(1)
    } else {
        Ok(())
    }
}
