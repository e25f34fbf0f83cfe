//! A walk whose cursor is a number, which a program may keep, send and forget.
ghost use Rattle.std.specs.Prelude.{◌≤◌, ◌<◌};
ghost use Rattle.hashkeys.specs.Classes.{IsTableSize};
ghost use Rattle.hashkeys.specs.Limits.{most_bins};

use crate::fault::Fault;
use crate::map::Map;
use crate::walks::cursor::Cursor;
use crate::walks::visit::Visit;
use bin_history::{Remap, Value};
use bin_layout::walk_laws;
use count_ledger::Pass;
use hashkeys::{Class, HashKey, MOST_BINS};
use std::alloc::Allocator;

/// The number of the end of a walk. A walk begins at 0.
pub const END_OF_WALK: u64 = 18_446_744_073_709_551_615;

/// From here on a number is of no bucket: 28 times 2^26.
const FIRST_END: u64 = 1_879_048_192;

/// What a step of a walk by numbers returns: the bucket, or none at the end, and the number that the
/// walk goes on at.
pub type Step<K, V, A> = (Option<Visit<K, V, A>>, u64);

/// Returns the size of the widest class of a table of `n` buckets, or of a wider one, that begins at the
/// hash.
fn size_at(n: u32, hash: u32) -> u32
    requires size { IsTableSize n }
    requires few { hash < most_bins }
    ensures size { IsTableSize result }
    ensures within { hash < result }
    ensures least { n ≤ result }
{
    if hash < n {
        return n;
    }
    1u32 << (hash.ilog2() + 1)
}

impl Cursor {
    ghost use Rattle.std.specs.Prelude.{◌≡◌, ◌<◌, ◌≤◌, ◌^◌, ℕ, IsSomeAnd};
    ghost use Rattle.hashkeys.specs.Classes.{IsTableSize};
    ghost use Rattle.hashkeys.specs.Limits.{most_bins, most_exponent};
    ghost use Rattle.chm.specs.Numbered.{IsNumberOf};

    /// Returns a cursor of a walk over a table of `n` buckets, at the widest class that begins at the hash.
    fn at_hash(n: u32, hash: u32) -> Cursor
        requires size { IsTableSize n }
        requires few { hash < most_bins }
        ensures n { result.n ≡ n }
        ensures next { IsSomeAnd result.next (λ next. next.index ≡ hash) }
    {
        Cursor {
            n,
            next: Some(Class::new(size_at(n, hash), hash)),
        }
    }

    /// The number of the place: of the table by which the walk goes and the first hash of the class that
    /// is next, or that of the end.
    pub(crate) fn number(&self) -> u64
        ensures { (e : ℕ) × (e ≤ most_exponent) × (self.now.n ≡ 2 ^ e)
            × IsNumberOf e self.now.next result }
    {
        match self.next {
            Some(class) => {
                // called for the proof alone, which so has that the index is below 2^26
                let _ = class.n();
                (u64::from(self.n.ilog2()) + 1) * u64::from(MOST_BINS) + u64::from(class.index())
            }
            None => END_OF_WALK,
        }
    }
}

impl<K: HashKey, V: Value, F: Remap<K, V>, A: Allocator + Clone> Map<K, V, F, A> {
    ghost use Rattle.std.specs.Prelude.{◌≡◌, ◌≤◌, ◌<◌, ◌^◌, ◌++◌, [], ◌∷◌, ℕ, List, None, true, IfOk, IfErr, IfSome, IfNone, IsOkAnd};
    ghost use Rattle.std.specs.Prelude.{IsSomeAnd, OnErr};
    ghost use Rattle.hashkeys.specs.Classes.{covers};
    ghost use Rattle.hashkeys.specs.Limits.{most_exponent};
    ghost use Rattle.bin_history.specs.Calls.{after};
    ghost use Rattle.count_ledger.specs.Fronts.{HasSeen, HasSeenMore};
    ghost use Rattle.chm.specs.Cursors.{HasCome};
    ghost use Rattle.chm.specs.Numbered.{GoesOnAt, HasComeAt, IsEnd, IsOfTable, first_end, hash_at};
    ghost use Rattle.chm.specs.Visits.{IsVisit, VisitView};

    /// Tries to copy the entries of the bucket at this number, in order, as all calls before had left it,
    /// which the pass has then seen; and returns the number to go on at. Returns none where the bucket is
    /// locked just then: the pass is as it was.
    ///
    /// Begin at 0, go on at each number that is returned, and stop at `END_OF_WALK`, which is returned
    /// with the last bucket. Each key that stays in the map comes once, and none twice, however the table
    /// grows. A step shows a part of a bucket that is still to be divided. A number may be kept, sent, and
    /// used by any pass; after an error or none, try the same number again.
    ///
    /// In a walk over a table of 2^e buckets a number is (e + 1) * 2^26 + hash. Any number is allowed. Below
    /// 2^26 it is a hash, at which the walk begins, over the table that calls go by just then. From
    /// 28 * 2^26 on it is the end. From a number of another map a walk shows what begins at its hash
    /// and what comes behind it.
    ///
    /// It waits for nobody, and takes memory for the copies of the entries alone.
    ///
    /// # Errors
    ///
    /// `NoMemory`.
    pub fn try_visit_at(
        &self,
        pass: &mut Pass<K, V, F>,
        number: u64,
    ) -> Option<Result<Step<K, V, A>, Fault>>
        requires pass { pass.old.ledger ≡ self.now.ledger.id }
        ensures visit { IfSome result (λ tried. IfOk tried (λ step. IfSome step.0 (λ v.
            (v.class.index ≡ hash_at number)
            × (covers v.class (hash_at number) ≡ true)
            × HasSeen K.eq (after V.eq F.remapped F.merged) self.now.ledger pass.old pass.new
            × IsVisit K.eq K.code self.now.ledger pass.new.seen v))) }
        ensures come { (shown : List (VisitView K V)) → HasComeAt number shown →
            IfSome result (λ tried. IfOk tried (λ step. IfSome step.0 (λ v.
            HasComeAt step.1 (shown ++ v ∷ [])))) }
        ensures on { IfSome result (λ tried. IfOk tried (λ step. IfSome step.0 (λ v.
            GoesOnAt number v step.1))) }
        ensures end { IfSome result (λ tried. IfOk tried (λ step. IfNone step.0
            (IsEnd number step.1 × (pass.new ≡ pass.old)))) }
        ensures ended { first_end ≤ number →
            IsSomeAnd result (λ tried. IsOkAnd tried (λ step. step.0 ≡ None)) }
        ensures seen { HasSeenMore pass.old pass.new }
        ensures faults { IfSome result (λ tried. IfErr tried (λ fault. fault ≡ Fault.NoMemory)) }
        ensures busy { IfNone result (pass.new ≡ pass.old) }
    {
        if number >= FIRST_END {
            return Some(Ok((None, END_OF_WALK)));
        }
        let mut cursor = self.cursor_at(number);
        let tried = self.try_visit_next(pass, &mut cursor)?;
        match tried {
            Ok(visit) => Some(Ok((visit, cursor.number()))),
            Err(fault) => Some(Err(fault)),
        }
    }

    /// The cursor of a walk that has come to the number.
    fn cursor_at(&self, number: u64) -> Cursor
        requires { number < first_end }
        ensures next { IsSomeAnd result.next (λ next. next.index ≡ hash_at number) }
        ensures table { (e : ℕ) × (e ≤ most_exponent) × (result.n ≡ 2 ^ e) × IsOfTable e number }
        ensures come { (shown : List (VisitView K V)) → HasComeAt number shown → HasCome result shown }
    {
        walk_laws();
        let hash = (number % u64::from(MOST_BINS)) as u32;
        let table = (number / u64::from(MOST_BINS)) as u32;
        if table == 0 {
            return Cursor::at_hash(self.table_size(), hash);
        }
        Cursor::at_hash(1u32 << (table - 1), hash)
    }
}
