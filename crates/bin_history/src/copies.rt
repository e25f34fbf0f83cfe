//! Copies of calls.
ghost use Rattle.std.specs.Prelude.{◌≡◌, IfOk};
ghost use Rattle.bin_history.specs.Calls.{key_of};
ghost use Rattle.bin_history.specs.Ops.{call_on};

use crate::call::Call;
use crate::op::Op;
use bin_entries::{copy_of, copy_of_both};
use hashkeys::Exact;
use std::alloc::AllocError;

/// A copy of what a call has beside its key.
fn copy_of_op<K, V: Exact, F: Exact>(call: &Call<K, V, F>) -> Result<Op<V, F>, AllocError>
    ensures { IfOk result (λ op. call_on (key_of call.now) op ≡ call.now) }
{
    match call {
        Call::Get(_) => Ok(Op::Get),
        Call::Contains(_) => Ok(Op::Contains),
        Call::Put(_, value) => Ok(Op::Put(copy_of(value)?)),
        Call::PutIfAbsent(_, value) => Ok(Op::PutIfAbsent(copy_of(value)?)),
        Call::Remove(_) => Ok(Op::Remove),
        Call::RemoveIf(_, value) => Ok(Op::RemoveIf(copy_of(value)?)),
        Call::Replace(_, value) => Ok(Op::Replace(copy_of(value)?)),
        Call::ReplaceIf(_, old, new) => {
            let (old, new) = copy_of_both(old, new)?;
            Ok(Op::ReplaceIf(old, new))
        }
        Call::ComputeIfAbsent(_, function) => Ok(Op::ComputeIfAbsent(copy_of(function)?)),
        Call::ComputeIfPresent(_, function) => Ok(Op::ComputeIfPresent(copy_of(function)?)),
        Call::Compute(_, function) => Ok(Op::Compute(copy_of(function)?)),
        Call::Merge(_, value, function) => {
            let (value, function) = copy_of_both(value, function)?;
            Ok(Op::Merge(value, function))
        }
    }
}

pub(crate) fn copy_of_call<K: Exact, V: Exact, F: Exact>(
    call: &Call<K, V, F>,
) -> Result<Call<K, V, F>, AllocError>
    ensures { IfOk result (λ copy. copy ≡ call.now) }
{
    let key = copy_of(call.key())?;
    Ok(Call::on(key, copy_of_op(call)?))
}
