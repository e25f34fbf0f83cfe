//! A walk that goes a bucket at a time, in the memory of one bucket or in none. The pass's client may
//! make calls between two buckets, and may stop early.
use crate::fault::Fault;
use crate::map::Map;
use crate::walks::of_class::copies_of_class;
use crate::walks::visit::Visit;
use bin_history::{Remap, Value};
use bin_layout::{next_in_walk, walk_laws};
use bin_store::{Held, StoreKind};
use count_ledger::Pass;
use hashkeys::{Class, HashKey};
use part_walks::narrower;
use std::alloc::{AllocError, Allocator};
use std::marker::Model;
use std::sync::Wait;

/// Where a walk has come to: the buckets of a table of `n` that it has passed, and what is next. It
/// is of no map, so a step may go on in another one.
#[derive(Drop)]
pub struct Cursor {
    pub(crate) n: u32,
    pub(crate) next: Option<Class>,
}

impl Model for Cursor {
    ghost use Rattle.std.specs.Prelude.{◌≤◌, IfSome};
    ghost use Rattle.hashkeys.specs.Classes.{IsClass, IsTableSize};
    ghost use Rattle.chm.specs.Cursors.{CursorView};

    ghost Value = { CursorView };

    ghost view = { λ c. record { n = c.n; next = c.next } };

    ghost invariant = { λ c. IsTableSize c.n × IfSome c.next (λ k. c.n ≤ k.n) };
}

impl Cursor {
    ghost use Rattle.std.specs.Prelude.{◌≡◌, ◌++◌, [], ◌∷◌, List, Some, true, IsSomeAnd, is_none};
    ghost use Rattle.hashkeys.specs.Classes.{ClassView, IsTableSize, covers};
    ghost use Rattle.part_walks.specs.Parts.{IsFirstOf};
    ghost use Rattle.chm.specs.Cursors.{HasPassed};

    /// Returns a cursor at the beginning of a walk over a table of `n` buckets.
    pub(crate) fn of_table(n: u32) -> Cursor
        requires size { IsTableSize n }
        ensures n { result.n ≡ n }
        ensures first { result.next ≡ Some (record { n = n; index = 0 }) }
        ensures begun { HasPassed result [] }
    {
        walk_laws();
        Cursor {
            n,
            next: Some(Class::new(n, 0)),
        }
    }

    /// Returns whether the walk has come to its end.
    pub fn is_at_end(&self) -> bool
        ensures { result ≡ is_none self.now.next }
    {
        self.next.is_none()
    }

    /// Goes past what was met: the first of the class that was next.
    pub(crate) fn go_past(&mut self, class: Class)
        requires first { IsSomeAnd self.old.next (λ next. IsFirstOf next class) }
        ensures n { self.new.n ≡ self.old.n }
        ensures passed { (classes : List ClassView) → HasPassed self.old classes →
            HasPassed self.new (classes ++ class ∷ []) }
    {
        walk_laws();
        self.next = next_in_walk(self.n, class);
    }
}

impl<K: HashKey, V: Value, F: Remap<K, V>, A: Allocator + Clone> Map<K, V, F, A> {
    ghost use Rattle.std.specs.Prelude.{◌≡◌, ◌++◌, [], ◌∷◌, ℕ, List, Some, None, true, false, IfOk, IfSome, IfNone};
    ghost use Rattle.std.specs.Prelude.{IfErr, IsOk, IsSomeAnd, OnErr};
    ghost use Rattle.hashkeys.specs.Classes.{covers};
    ghost use Rattle.bin_history.specs.Calls.{after};
    ghost use Rattle.count_ledger.specs.Fronts.{HasSeen, HasSeenMore};
    ghost use Rattle.count_ledger.specs.Views.{PassView};
    ghost use Rattle.bin_store.specs.Places.{tag_of};
    ghost use Rattle.bin_layout.specs.Places.{AreAt};
    ghost use Rattle.part_walks.specs.Parts.{IsFirstOf};
    ghost use Rattle.chm.specs.Cursors.{AreShown, HasCome, list_of};
    ghost use Rattle.chm.specs.Visits.{IsVisit, VisitView};

    /// Returns a cursor at the beginning of a walk in the order in which buckets lie in the table
    /// that calls go by just now. Where a bucket is divided meanwhile, the walk goes over what it
    /// became; where one of a smaller table has not been moved yet, it shows the part that is next.
    ///
    ///     let mut cursor = map.cursor();
    pub fn cursor(&self) -> Cursor
        ensures first { result.next ≡ Some (record { n = result.n; index = 0 }) }
        ensures begun { (none : List (VisitView K V)) → none ≡ [] → HasCome result none }
    {
        Cursor::of_table(self.table_size())
    }

    /// Returns a cursor at the beginning of a walk in walk order: by the buckets that the map opened
    /// with.
    pub(crate) fn opening_cursor(&self) -> Cursor
        ensures n { result.n ≡ self.now.n }
        ensures first { result.next ≡ Some (record { n = self.now.n; index = 0 }) }
        ensures begun { (none : List (VisitView K V)) → none ≡ [] → HasCome result none }
    {
        Cursor::of_table(self.bins.n())
    }

    /// Returns the next bucket of a walk, by copies of its entries in order, as all calls before had
    /// left it, which the pass has then seen; none at the end of the walk. No key comes twice, and at
    /// the end every key has come. Calls of others, and of the pass's own client, may be made between
    /// two steps, and a program may stop before the end.
    ///
    /// It waits for the bucket, and takes memory for the copies of its entries alone.
    ///
    ///     let mut cursor = map.cursor();
    ///     for _ in rt.forever() {
    ///         let Some(visit) = map.visit_next(rt, pass, &mut cursor)? else {
    ///             break;
    ///         };
    ///         shown = shown || visit.entries.as_slice() == [(1, 5)].as_slice();
    ///     }
    ///
    /// # Errors
    ///
    /// `NoMemory`. The cursor is as it was: the same bucket is next.
    pub fn visit_next<R: Wait>(
        &self,
        rt: &R,
        pass: &mut Pass<K, V, F>,
        cursor: &mut Cursor,
    ) -> Result<Option<Visit<K, V, A>>, Fault>
        requires pass { pass.old.ledger ≡ self.now.ledger.id }
        ensures visit { IfOk result (λ v. IfSome v (λ v.
            HasSeen K.eq (after V.eq F.remapped F.merged) self.now.ledger pass.old pass.new
            × IsVisit K.eq K.code self.now.ledger pass.new.seen v)) }
        ensures first { IfOk result (λ v. IfSome v (λ v.
            IsSomeAnd cursor.old.next (λ next. IsFirstOf next v.class))) }
        ensures come { (shown : List (VisitView K V)) → HasCome cursor.old shown →
            IfOk result (λ v. HasCome cursor.new (shown ++ list_of v)) }
        ensures shown { (start : PassView K V F) (shown : List (VisitView K V)) →
            AreShown K.eq K.code (after V.eq F.remapped F.merged) self.now.ledger start shown
            pass.old → IfOk result (λ v. AreShown K.eq K.code (after V.eq F.remapped F.merged)
            self.now.ledger start (shown ++ list_of v) pass.new) }
        ensures end { IfOk result (λ v. IfNone v ((cursor.old.next ≡ None) × (pass.new ≡ pass.old))) }
        ensures seen { HasSeenMore pass.old pass.new }
        ensures n { cursor.new.n ≡ cursor.old.n }
        ensures same { OnErr result (cursor.new ≡ cursor.old) }
        ensures ended { cursor.old.next ≡ None → IsOk result }
        ensures faults { IfErr result (λ fault. fault ≡ Fault.NoMemory) }
    {
        match cursor.next {
            Some(next) => Ok(Some(self.visit_class(rt, pass, cursor, next)?)),
            None => Ok(None),
        }
    }

    /// Tries to do what `visit_next` does, and waits for nobody. Returns none where the next bucket
    /// is locked just then: the pass and the cursor are as they were.
    ///
    ///     let mut cursor = map.cursor();
    ///     map.try_visit_next(pass, &mut cursor).is_some()
    ///
    /// # Errors
    ///
    /// `NoMemory`. The cursor is as it was.
    pub fn try_visit_next(
        &self,
        pass: &mut Pass<K, V, F>,
        cursor: &mut Cursor,
    ) -> Option<Result<Option<Visit<K, V, A>>, Fault>>
        requires pass { pass.old.ledger ≡ self.now.ledger.id }
        ensures visit { IfSome result (λ tried. IfOk tried (λ v. IfSome v (λ v.
            HasSeen K.eq (after V.eq F.remapped F.merged) self.now.ledger pass.old pass.new
            × IsVisit K.eq K.code self.now.ledger pass.new.seen v))) }
        ensures first { IfSome result (λ tried. IfOk tried (λ v. IfSome v (λ v.
            IsSomeAnd cursor.old.next (λ next. IsFirstOf next v.class)))) }
        ensures come { (shown : List (VisitView K V)) → HasCome cursor.old shown →
            IfSome result (λ tried. IfOk tried (λ v. HasCome cursor.new (shown ++ list_of v))) }
        ensures shown { (start : PassView K V F) (shown : List (VisitView K V)) →
            AreShown K.eq K.code (after V.eq F.remapped F.merged) self.now.ledger start shown
            pass.old → IfSome result (λ tried. IfOk tried
            (λ v. AreShown K.eq K.code (after V.eq F.remapped F.merged) self.now.ledger start
            (shown ++ list_of v) pass.new)) }
        ensures end { IfSome result (λ tried. IfOk tried
            (λ v. IfNone v ((cursor.old.next ≡ None) × (pass.new ≡ pass.old)))) }
        ensures seen { HasSeenMore pass.old pass.new }
        ensures n { cursor.new.n ≡ cursor.old.n }
        ensures same { IfSome result (λ tried. OnErr tried (cursor.new ≡ cursor.old)) }
        ensures ended { cursor.old.next ≡ None → IsSomeAnd result IsOk }
        ensures faults { IfSome result (λ tried. IfErr tried (λ fault. fault ≡ Fault.NoMemory)) }
        ensures busy { IfNone result ((pass.new ≡ pass.old) × (cursor.new ≡ cursor.old)) }
    {
        let Some(next) = cursor.next else {
            return Some(Ok(None));
        };
        let tried = self.try_visit_class(pass, cursor, next)?;
        match tried {
            Ok(visit) => Some(Ok(Some(visit))),
            Err(AllocError) => Some(Err(Fault::NoMemory)),
        }
    }

    /// Waits for the bucket of the class that is next, copies those of its entries that are of the class
    /// or of the first that it has become, and goes past them.
    fn visit_class<R: Wait>(
        &self,
        rt: &R,
        pass: &mut Pass<K, V, F>,
        cursor: &mut Cursor,
        next: Class,
    ) -> Result<Visit<K, V, A>, AllocError>
        requires pass { pass.old.ledger ≡ self.now.ledger.id }
        requires next { cursor.old.next ≡ Some next }
        ensures seen { HasSeen K.eq (after V.eq F.remapped F.merged) self.now.ledger pass.old
            pass.new }
        ensures visit { IfOk result (IsVisit K.eq K.code self.now.ledger pass.new.seen) }
        ensures first { IfOk result (λ v. IsFirstOf next v.class) }
        ensures come { (shown : List (VisitView K V)) → HasCome cursor.old shown →
            IfOk result (λ v. HasCome cursor.new (shown ++ v ∷ [])) }
        ensures n { cursor.new.n ≡ cursor.old.n }
        ensures same { OnErr result (cursor.new ≡ cursor.old) }
    {
        match &self.bins.kind {
            StoreKind::Recorded(_) => {
                let held = self.bins.hold(rt, next.index());
                self.visit_held(held, pass, cursor, next)
            }
            StoreKind::Lean(home) => {
                let held = home.hold_in_place(rt, next.index());
                self.visit_guarded(held, pass, cursor, next)
            }
        }
    }

    /// Tries to do what `visit_class` does, and waits for nobody. Returns none where the bucket is locked
    /// just then: the pass and the cursor are as they were.
    fn try_visit_class(
        &self,
        pass: &mut Pass<K, V, F>,
        cursor: &mut Cursor,
        next: Class,
    ) -> Option<Result<Visit<K, V, A>, AllocError>>
        requires pass { pass.old.ledger ≡ self.now.ledger.id }
        requires next { cursor.old.next ≡ Some next }
        ensures seen { IfSome result (λ _. HasSeen K.eq (after V.eq F.remapped F.merged)
            self.now.ledger pass.old pass.new) }
        ensures visit { IfSome result (λ tried. IfOk tried
            (IsVisit K.eq K.code self.now.ledger pass.new.seen)) }
        ensures first { IfSome result (λ tried. IfOk tried (λ v. IsFirstOf next v.class)) }
        ensures come { (shown : List (VisitView K V)) → HasCome cursor.old shown →
            IfSome result (λ tried. IfOk tried (λ v. HasCome cursor.new (shown ++ v ∷ []))) }
        ensures n { cursor.new.n ≡ cursor.old.n }
        ensures same { IfSome result (λ tried. OnErr tried (cursor.new ≡ cursor.old)) }
        ensures busy { IfNone result ((pass.new ≡ pass.old) × (cursor.new ≡ cursor.old)) }
    {
        match &self.bins.kind {
            StoreKind::Recorded(_) => {
                let held = self.bins.try_hold(next.index())?;
                Some(self.visit_held(held, pass, cursor, next))
            }
            StoreKind::Lean(home) => {
                let held = home.try_hold_in_place(next.index())?;
                Some(self.visit_guarded(held, pass, cursor, next))
            }
        }
    }

    /// Copies those entries of a bucket that was taken out to lock it that are of the class that is
    /// next, or of the first that it has become; goes past them and puts the bucket back.
    fn visit_held(
        &self,
        mut held: Held<'_, K, V, F, A>,
        pass: &mut Pass<K, V, F>,
        cursor: &mut Cursor,
        next: Class,
    ) -> Result<Visit<K, V, A>, AllocError>
        requires pass { pass.old.ledger ≡ self.now.ledger.id }
        requires next { cursor.old.next ≡ Some next }
        requires covers { covers held.bin.class next.index ≡ true }
        requires at { AreAt K.eq (after V.eq F.remapped F.merged) (tag_of held.place) held.bin
            held.role }
        requires ledger { held.role.ledger ≡ self.now.ledger.id }
        requires salt { held.bin.salt ≡ self.now.ledger.salt }
        ensures seen { HasSeen K.eq (after V.eq F.remapped F.merged) self.now.ledger pass.old
            pass.new }
        ensures visit { IfOk result (IsVisit K.eq K.code self.now.ledger pass.new.seen) }
        ensures first { IfOk result (λ v. IsFirstOf next v.class) }
        ensures come { (shown : List (VisitView K V)) → HasCome cursor.old shown →
            IfOk result (λ v. HasCome cursor.new (shown ++ v ∷ [])) }
        ensures n { cursor.new.n ≡ cursor.old.n }
        ensures same { OnErr result (cursor.new ≡ cursor.old) }
    {
        let lent = &mut held;
        let bin = &lent.bin;
        bin.lawful();
        let class = narrower(next, bin.class());
        let copies = copies_of_class(self.resizer.allocator(), bin, class);
        self.observe_bin(pass, bin, &mut lent.role);
        held.release();
        let entries = copies?;
        cursor.go_past(class);
        Ok(Visit { class, entries })
    }
}
