//! The part of a bin's records in one half of its class.
ghost use Rattle.std.specs.Prelude.{◌≡◌, IfOk};
ghost use Rattle.hashkeys.specs.Classes.{is_of};
ghost use Rattle.bin_history.specs.Part.{part_of_records};

use crate::record::{Record, copy_of_record};
use bin_entries::is_of;
use hashkeys::{Class, Exact, HashKey, Salt};
use std::alloc::{AllocError, Allocator};

pub(crate) fn part_of_records<K: HashKey, V: Exact, F: Exact, A: Allocator>(
    alloc: A,
    salt: Salt,
    class: Class,
    records: &[Record<K, V, F>],
) -> Result<Vec<Record<K, V, F>, A>, AllocError>
    ensures { IfOk result
        (λ part. part.items ≡ part_of_records (is_of K.code salt class) records.now) }
{
    let mut part = Vec::new(alloc);
    for entry in records {
        if is_of(salt, class, entry.call().key()) {
            part.push(copy_of_record(entry)?)?;
        }
    }
    Ok(part)
}
