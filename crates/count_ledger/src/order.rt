//! The one order of all calls, as several passes see it.
ghost use Rattle.std.specs.Prelude.{◌≡◌, ◌≢◌, List, All};
ghost use Rattle.std.specs.List.{AllZip};
ghost use Rattle.bin_history.specs.Calls.{after};
ghost use Rattle.bin_history.specs.Records.{RecordView};
ghost use Rattle.count_ledger.specs.Fronts.{BeginsWith, HasSeen, IsFront};

use crate::ledger::Ledger;
use crate::moment::Moment;
use crate::seats::{join, look, part};
use crate::tokens::Pass;
use atomic_table::Badge;
use bin_history::Remap;
use hashkeys::HashKey;
use std::alloc::Allocator;
use std::marker::Brand;
use std::mem;

impl<K: HashKey, V: Eq, F: Remap<K, V>, A: Allocator> Ledger<K, V, F, A> {
    /// Tells that two passes see one order: there is one list of calls that is a front of both, which
    /// begins with all that either has seen. They are of two clients. Neither changes; it takes no
    /// memory, and waits for nobody.
    pub fn together(&self, first: &mut Pass<K, V, F>, second: &mut Pass<K, V, F>)
        requires first { first.old.ledger ≡ self.now.id }
        requires second { second.old.ledger ≡ self.now.id }
        ensures one_order { (calls : List (RecordView K V F))
            × IsFront K.eq (after V.eq F.remapped F.merged) self.now first.old calls
            × IsFront K.eq (after V.eq F.remapped F.merged) self.now second.old calls }
        ensures two_clients { first.old.client ≢ second.old.client }
        ensures same_first { first.new ≡ first.old }
        ensures same_second { second.new ≡ second.old }
    {
        let shared = &self.table.shared;
        let mut nobody = Badge::blank();
        part(shared, &mut second.seat, &mut nobody);
        let mut badge = mem::replace(&mut second.seat, nobody.into_seat()).into_badge();
        join(shared, &mut first.seat, &mut badge);
        look::<K, V, F, A, Brand>(shared, &mut first.seat, 0);
        part(shared, &mut first.seat, &mut badge);
        second.seat = badge.into_seat();
    }

    /// The passes learn of all that the others have seen, one after the other, and the moment that
    /// comes of it is returned.
    fn moment_of_all(
        &self,
        mut moment: Moment<K, V, F>,
        passes: &mut [Pass<K, V, F>],
    ) -> Moment<K, V, F>
        requires own { All (λ p. p.ledger ≡ self.now.id) passes.old }
        requires moment { moment.ledger ≡ self.now.id }
        ensures moment { result.ledger ≡ self.now.id }
        ensures more { BeginsWith result.seen moment.seen }
        ensures all { All (λ p. BeginsWith result.seen p.seen) passes.old }
        ensures seen { AllZip (HasSeen K.eq (after V.eq F.remapped F.merged) self.now) passes.old
            passes.new }
    {
        for i in 0..passes.len() {
            let pass = &mut passes[i];
            self.learn(pass, &mut moment);
            moment = self.moment(pass);
        }
        moment
    }

    /// The passes learn of the moment.
    fn learn_each(&self, passes: &mut [Pass<K, V, F>], moment: &mut Moment<K, V, F>)
        requires own { All (λ p. p.ledger ≡ self.now.id) passes.old }
        requires moment { moment.old.ledger ≡ self.now.id }
        ensures learned { All (λ p. BeginsWith p.seen moment.old.seen) passes.new }
        ensures seen { AllZip (HasSeen K.eq (after V.eq F.remapped F.merged) self.now) passes.old
            passes.new }
    {
        for i in 0..passes.len() {
            self.learn(&mut passes[i], moment);
        }
    }

    /// Each pass learns of all that any of these passes had seen: there is one moment that begins
    /// with each, and all have then seen it. So the calls that the passes make from now on stand
    /// behind all calls that any of them made before. The cost is linear in the number of passes; it
    /// takes no memory, and waits for nobody.
    pub fn learn_all(&self, passes: &mut [Pass<K, V, F>])
        requires { All (λ p. p.ledger ≡ self.now.id) passes.old }
        ensures learned { (moment : List (RecordView K V F))
            × All (λ p. BeginsWith moment p.seen) passes.old
            × All (λ p. BeginsWith p.seen moment) passes.new }
        ensures seen { AllZip (HasSeen K.eq (after V.eq F.remapped F.merged) self.now) passes.old
            passes.new }
    {
        if passes.is_empty() {
            return;
        }
        let moment = self.moment(&mut passes[0]);
        let mut moment = self.moment_of_all(moment, passes);
        self.learn_each(passes, &mut moment);
    }
}
