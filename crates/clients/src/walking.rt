//! A client walks over the map, a bucket at a time.
ghost use Rattle.std.specs.Prelude.{◌≡◌, ◌++◌, ◌∷◌, [], None, List, true, false, IfOk, IfErr, IfSome, IfNone};
ghost use Rattle.std.specs.Prelude.{Some, ◌≤◌, IsOk, IsOkAnd, IsSomeAnd, OnErr};
ghost use Rattle.std.specs.List.{FoldsTo};
ghost use Rattle.bin_history.specs.Calls.{after};
ghost use Rattle.count_ledger.specs.Fronts.{HasSeen, HasSeenMore};
ghost use Rattle.count_ledger.specs.Views.{PassView};
ghost use Rattle.part_walks.specs.Parts.{IsFirstOf};
ghost use Rattle.chm.specs.Cursors.{AreShown, HasCome, IsUsedAt, list_of};
ghost use Rattle.chm.specs.Numbered.{GoesOnAt, HasComeAt, IsEnd, first_end, hash_at};
ghost use Rattle.chm.specs.Visits.{IsVisit, VisitView};
ghost use Rattle.hashkeys.specs.Classes.{covers};

use crate::client::ClientOf;
use crate::holder::{Holder, Seat};
use bin_history::{Remap, Value};
use chm::{Cursor, Fault, Step, Visit};
use hashkeys::HashKey;
use std::alloc::Allocator;
use std::sync::Wait;

impl<H: Holder<K, V, F, A>, K: HashKey, V: Value, F: Remap<K, V>, A: Allocator + Clone> ClientOf<
    H,
    K,
    V,
    F,
    A,
> {
    /// Returns a cursor at the beginning of a walk in the order in which buckets lie in the table
    /// that calls go by just now. Where a bucket is divided meanwhile, the walk goes over what it
    /// became; where one of a smaller table has not been moved yet, it shows the part that is next.
    ///
    ///     let mut cursor = client.cursor();
    pub fn cursor(&self) -> Cursor
        ensures first { result.next ≡ Some (record { n = result.n; index = 0 }) }
        ensures begun { (none : List (VisitView K V)) → none ≡ [] → HasCome result none }
    {
        self.holder.map().cursor()
    }

    /// Returns the next bucket of a walk, by copies of its entries in order, as all calls before had
    /// left it, which the client has then seen; none at the end of the walk. No key comes twice, and
    /// at the end every key has come. Calls of others, and of the client itself, may be made between
    /// two steps, and a program may stop before the end.
    ///
    /// It waits for the bucket, and takes memory for the copies of its entries alone.
    ///
    ///     let mut cursor = client.cursor();
    ///     assert!(client.visit_next(rt, &mut cursor)?.is_some());
    ///
    /// # Errors
    ///
    /// `NoMemory`. The cursor is as it was: the same bucket is next.
    pub fn visit_next<R: Wait>(
        &mut self,
        rt: &R,
        cursor: &mut Cursor,
    ) -> Result<Option<Visit<K, V, A>>, Fault>
        ensures visit { IfOk result (λ v. IfSome v (λ v.
            HasSeen K.eq (after V.eq F.remapped F.merged) self.old.map.ledger self.old.pass self.new.pass
            × IsVisit K.eq K.code self.old.map.ledger self.new.pass.seen v)) }
        ensures first { IfOk result (λ v. IfSome v (λ v.
            IsSomeAnd cursor.old.next (λ next. IsFirstOf next v.class))) }
        ensures come { (shown : List (VisitView K V)) → HasCome cursor.old shown →
            IfOk result (λ v. HasCome cursor.new (shown ++ list_of v)) }
        ensures shown { (start : PassView K V F) (shown : List (VisitView K V)) →
            AreShown K.eq K.code (after V.eq F.remapped F.merged) self.old.map.ledger start shown
            self.old.pass → IfOk result (λ v. AreShown K.eq K.code (after V.eq F.remapped F.merged)
            self.old.map.ledger start (shown ++ list_of v) self.new.pass) }
        ensures end { IfOk result (λ v. IfNone v ((cursor.old.next ≡ None) × (self.new.pass ≡ self.old.pass))) }
        ensures seen { HasSeenMore self.old.pass self.new.pass }
        ensures n { cursor.new.n ≡ cursor.old.n }
        ensures same { OnErr result (cursor.new ≡ cursor.old) }
        ensures ended { cursor.old.next ≡ None → IsOk result }
        ensures faults { IfErr result (λ fault. fault ≡ Fault.NoMemory) }
        ensures map { self.new.map ≡ self.old.map }
    {
        self.holder
            .map()
            .visit_next(rt, self.seat.pass_mut(), cursor)
    }

    /// Tries to do what `visit_next` does, and waits for nobody. Returns none where the next bucket
    /// is locked just then: the client and the cursor are as they were.
    ///
    ///     let mut cursor = client.cursor();
    ///     assert!(client.try_visit_next(&mut cursor).is_some());
    ///
    /// # Errors
    ///
    /// `NoMemory`. The cursor is as it was.
    pub fn try_visit_next(
        &mut self,
        cursor: &mut Cursor,
    ) -> Option<Result<Option<Visit<K, V, A>>, Fault>>
        ensures visit { IfSome result (λ tried. IfOk tried (λ v. IfSome v (λ v.
            HasSeen K.eq (after V.eq F.remapped F.merged) self.old.map.ledger self.old.pass self.new.pass
            × IsVisit K.eq K.code self.old.map.ledger self.new.pass.seen v))) }
        ensures first { IfSome result (λ tried. IfOk tried (λ v. IfSome v (λ v.
            IsSomeAnd cursor.old.next (λ next. IsFirstOf next v.class)))) }
        ensures come { (shown : List (VisitView K V)) → HasCome cursor.old shown →
            IfSome result (λ tried. IfOk tried (λ v. HasCome cursor.new (shown ++ list_of v))) }
        ensures shown { (start : PassView K V F) (shown : List (VisitView K V)) →
            AreShown K.eq K.code (after V.eq F.remapped F.merged) self.old.map.ledger start shown
            self.old.pass → IfSome result (λ tried. IfOk tried
            (λ v. AreShown K.eq K.code (after V.eq F.remapped F.merged) self.old.map.ledger start
            (shown ++ list_of v) self.new.pass)) }
        ensures end { IfSome result (λ tried. IfOk tried
            (λ v. IfNone v ((cursor.old.next ≡ None) × (self.new.pass ≡ self.old.pass)))) }
        ensures seen { HasSeenMore self.old.pass self.new.pass }
        ensures n { cursor.new.n ≡ cursor.old.n }
        ensures same { IfSome result (λ tried. OnErr tried (cursor.new ≡ cursor.old)) }
        ensures ended { cursor.old.next ≡ None → IsSomeAnd result IsOk }
        ensures faults { IfSome result (λ tried. IfErr tried (λ fault. fault ≡ Fault.NoMemory)) }
        ensures busy { IfNone result ((self.new.pass ≡ self.old.pass) × (cursor.new ≡ cursor.old)) }
        ensures map { self.new.map ≡ self.old.map }
    {
        self.holder
            .map()
            .try_visit_next(self.seat.pass_mut(), cursor)
    }

    /// Gives the function each entry of the next bucket of a walk, in order, where it lies, as all
    /// calls before had left the bucket, which the client has then seen. Returns whether there was a
    /// bucket left, empty ones among them: false is the end of the walk. Nothing is copied, posted or
    /// allocated, so nothing can fail. In all else it is a step of a walk as `visit_next` is.
    ///
    /// It waits for the bucket, which is locked while the function runs: a function that takes long
    /// keeps other clients out of the bucket, and one that calls the map, by whatever client, deadlocks
    /// where its key is of the same bucket.
    ///
    ///     let mut cursor = client.cursor();
    ///     let mut most = 0;
    ///     assert!(client.show_next(rt, &mut cursor, &mut |_key: &u64, value: &u64| most = most.max(*value)));
    pub fn show_next<R: Wait, G: FnMut(&K, &V)>(
        &mut self,
        rt: &R,
        cursor: &mut Cursor,
        f: &mut G,
    ) -> bool
        requires callable { G.IsAlwaysCallable f.old }
        ensures shown { result ≡ true → (v : VisitView K V)
            × HasSeen K.eq (after V.eq F.remapped F.merged) self.old.map.ledger self.old.pass self.new.pass
            × IsVisit K.eq K.code self.old.map.ledger self.new.pass.seen v
            × FoldsTo (IsUsedAt G.step) f.old v.entries f.new
            × ((shown : List (VisitView K V)) → HasCome cursor.old shown →
            HasCome cursor.new (shown ++ v ∷ [])) }
        ensures end { result ≡ false → (cursor.old.next ≡ None) × (self.new.pass ≡ self.old.pass)
            × (f.new ≡ f.old) × (cursor.new ≡ cursor.old) }
        ensures callable { G.IsAlwaysCallable f.new }
        ensures n { cursor.new.n ≡ cursor.old.n }
        ensures map { self.new.map ≡ self.old.map }
    {
        self.holder
            .map()
            .show_next(rt, self.seat.pass_mut(), cursor, f)
    }

    /// Tries to copy the entries of the bucket at this number, in order, as all calls before had left it,
    /// which the client has then seen; and returns the number to go on at. Returns none where the bucket
    /// is locked just then: the client is as it was. Begin at 0, go on at each number that is returned,
    /// and stop at `END_OF_WALK`. `Map::try_visit_at` says what a number is.
    ///
    /// # Errors
    ///
    /// `NoMemory`.
    pub fn try_visit_at(&mut self, number: u64) -> Option<Result<Step<K, V, A>, Fault>>
        ensures visit { IfSome result (λ tried. IfOk tried (λ step. IfSome step.0 (λ v.
            (v.class.index ≡ hash_at number)
            × (covers v.class (hash_at number) ≡ true)
            × HasSeen K.eq (after V.eq F.remapped F.merged) self.old.map.ledger self.old.pass self.new.pass
            × IsVisit K.eq K.code self.old.map.ledger self.new.pass.seen v))) }
        ensures come { (shown : List (VisitView K V)) → HasComeAt number shown →
            IfSome result (λ tried. IfOk tried (λ step. IfSome step.0 (λ v.
            HasComeAt step.1 (shown ++ v ∷ [])))) }
        ensures on { IfSome result (λ tried. IfOk tried (λ step. IfSome step.0 (λ v.
            GoesOnAt number v step.1))) }
        ensures end { IfSome result (λ tried. IfOk tried (λ step. IfNone step.0
            (IsEnd number step.1 × (self.new.pass ≡ self.old.pass)))) }
        ensures ended { first_end ≤ number →
            IsSomeAnd result (λ tried. IsOkAnd tried (λ step. step.0 ≡ None)) }
        ensures seen { HasSeenMore self.old.pass self.new.pass }
        ensures faults { IfSome result (λ tried. IfErr tried (λ fault. fault ≡ Fault.NoMemory)) }
        ensures busy { IfNone result (self.new.pass ≡ self.old.pass) }
        ensures map { self.new.map ≡ self.old.map }
    {
        self.holder.map().try_visit_at(self.seat.pass_mut(), number)
    }
}
