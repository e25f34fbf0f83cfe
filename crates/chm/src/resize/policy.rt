//! What differs by the form of a map: for how many bins it is opened, how wide its table grows, when,
//! and which calls help.
ghost use Rattle.std.specs.Prelude.{◌≡◌, ◌≤◌, true, false, ◌↔◌, pos, length};
ghost use Rattle.hashkeys.specs.Limits.{most_bins};
ghost use Rattle.chm.specs.Refusals.{most_capacity};
ghost use Rattle.chm.specs.Growing.{IsDue, helps};
ghost use Rattle.chm.specs.Limits.{crowded_keys};
ghost use Rattle.chm.specs.Sizes.{IsWideEnough, most_bins_of, threshold};

use bin_history::{Form, Remap, Value};
use hashkeys::HashKey;
use lean_bins::BinSlot;
use std::alloc::Allocator;

/// A table of a recorded map has no more bins than this.
pub const MOST_RECORDED_BINS: u32 = 65_536;

/// A table of lean bins is wide from this many on.
const WIDE: u32 = 1024;

/// A table of fewer lean bins than this is narrow.
const NARROW: u32 = 256;

/// A lean bin of so many keys is crowded.
const CROWDED: u32 = 8;

/// How many bins a table of the form has at most.
pub(crate) fn most_bins(form: Form) -> u32
    ensures { result ≡ most_bins_of form }
{
    match form {
        Form::Recorded => MOST_RECORDED_BINS,
        Form::Lean => hashkeys::MOST_BINS,
    }
}

/// For how many bins a map of the form is opened at most.
pub(crate) fn most_capacity(form: Form) -> usize
    ensures value { result ≡ most_capacity form }
    ensures few { result ≤ most_bins }
{
    match form {
        Form::Recorded => 4096,
        Form::Lean => hashkeys::MOST_BINS as usize,
    }
}

/// From how many keys on a table of `n` bins of the form is too small. In a recorded map: three keys to
/// four bins. In a lean one: a key to four bins while it is narrow, so that few keys share a bin, and
/// then three keys to two bins.
pub(crate) fn threshold(form: Form, n: u32) -> u32
    requires { n ≤ most_bins }
    ensures { result ≡ threshold form n }
{
    match form {
        Form::Recorded => n - n / 4,
        // threads that share a bucket keep one another waiting, so a small table is kept sparse
        Form::Lean if n < NARROW => n.div_ceil(4),
        Form::Lean => n + n / 2,
    }
}

/// Whether a table of `n` bins of the form is too small for so many keys, and the form has a wider one.
pub(crate) fn is_full(form: Form, n: u32, count: u64) -> bool
    requires { n ≤ most_bins }
    ensures { result ≡ false ↔ IsWideEnough form count n }
{
    n < most_bins(form) && count >= u64::from(threshold(form, n))
}

/// Whether a call helps a move that is open: in a recorded map one that met a bin that was moved, in
/// a lean one each.
pub(crate) fn helps(form: Form, met_moved: bool) -> bool
    ensures { result ≡ helps form met_moved }
{
    match form {
        Form::Recorded => met_moved,
        Form::Lean => true,
    }
}

/// Whether a call that made its key present looks whether the table of `n` bins is full, where its
/// client has this balance. To count all keys is to look at all count words, so in a wide table of
/// lean bins each client does it once for 16 keys that it adds; and whoever adds a key to a crowded
/// bin does it, so that many clients which add few keys each do not fill the table unnoticed.
pub(crate) fn is_due(form: Form, n: u32, balance: u64, crowded: bool) -> bool
    ensures { result ≡ true ↔ IsDue form n balance crowded }
{
    match form {
        Form::Recorded => true,
        // a count reads the words of all lanes, so in a wide table it is not made at each new key
        Form::Lean => n < WIDE || crowded || balance % 16 == 0,
    }
}

/// Whether what lies at the place of a lean bin has 8 keys or more. It looks at no more of them.
fn is_crowded<K: HashKey, V: Value, F: Remap<K, V>, A: Allocator>(
    bin_slot: &BinSlot<K, V, F, A>,
) -> bool
    ensures { (result ≡ true) ↔ (crowded_keys ≤ length bin_slot.now.entries.entries) }
{
    let mut left = bin_slot.entries.walk();
    for _key in 0..CROWDED {
        if left.next().is_none() {
            return false;
        }
    }
    true
}

/// What a call did to the number of keys in its bin.
#[derive(Clone, Copy, Drop)]
pub(crate) struct Growth {
    /// Whether it made its key present.
    pub(crate) grew: bool,
    /// Whether the bin is crowded since.
    pub(crate) crowded: bool,
}

impl Growth {
    /// What a call that added no key did.
    #[inline(always)]
    pub(crate) fn none() -> Growth
        ensures grew { result.grew ≡ false }
        ensures crowded { result.crowded ≡ false }
    {
        Growth {
            grew: false,
            crowded: false,
        }
    }

    /// What a call that changed the number of keys by this did to a bin of a recorded map, of whose keys
    /// nobody asks how many there are.
    pub(crate) fn recorded(delta: i64) -> Growth
        ensures grew { (result.grew ≡ true) ↔ (delta ≡ pos 1) }
        ensures crowded { result.crowded ≡ false }
    {
        Growth {
            grew: delta == 1,
            crowded: false,
        }
    }

    /// What a call that changed the number of keys by this did to what lies at the place of a lean bin.
    #[inline(always)]
    pub(crate) fn lean<K: HashKey, V: Value, F: Remap<K, V>, A: Allocator>(
        delta: i64,
        bin_slot: &BinSlot<K, V, F, A>,
    ) -> Growth
        ensures grew { (result.grew ≡ true) ↔ (delta ≡ pos 1) }
        ensures crowded { (result.crowded ≡ true)
            ↔ ((delta ≡ pos 1) × (crowded_keys ≤ length bin_slot.now.entries.entries)) }
    {
        let grew = delta == 1;
        Growth {
            grew,
            crowded: grew && is_crowded(bin_slot),
        }
    }
}
