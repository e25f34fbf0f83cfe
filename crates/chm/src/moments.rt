//! Moments: what one client has seen, handed to another.
ghost use Rattle.std.specs.Prelude.{◌≡◌, ◌≢◌, List, All};
ghost use Rattle.std.specs.List.{AllZip};
ghost use Rattle.bin_history.specs.Calls.{after};
ghost use Rattle.bin_history.specs.Records.{RecordView};
ghost use Rattle.count_ledger.specs.Fronts.{BeginsWith, HasSeen, IsFront};

use crate::map::Map;
use bin_history::{Remap, Value};
use count_ledger::{Moment, Pass};
use hashkeys::HashKey;
use std::alloc::Allocator;

impl<K: HashKey, V: Value, F: Remap<K, V>, A: Allocator> Map<K, V, F, A> {
    /// What the pass's client has seen of the calls on this map: its own and those before them, and
    /// what it looked up, walked over or learned of. A moment has no bytes, and can go to another
    /// thread: whatever that client does once it has learned of it happens after all these calls.
    /// It is no call, locks no bin, takes no memory and never waits.
    ///
    ///     map.put(rt, first, 1, 5)?;
    ///     let mut moment = map.moment(first);
    ///     map.learn(second, &mut moment);
    ///     map.get(rt, second, 1)? == Reply::Value(Some(5))
    pub fn moment(&self, pass: &mut Pass<K, V, F>) -> Moment<K, V, F>
        requires { pass.old.ledger ≡ self.now.ledger.id }
        ensures moment { result ≡ record { ledger = self.now.ledger.id; seen = pass.old.seen } }
        ensures same { pass.new ≡ pass.old }
    {
        self.ledger.moment(pass)
    }

    /// Returns a copy of the moment, for one more client.
    ///
    ///     let mut moment = map.moment(first);
    ///     let mut copy = map.again(&mut moment);
    pub fn again(&self, moment: &mut Moment<K, V, F>) -> Moment<K, V, F>
        requires { moment.old.ledger ≡ self.now.ledger.id }
        ensures copy { result ≡ moment.old }
        ensures same { moment.new ≡ moment.old }
    {
        self.ledger.again(moment)
    }

    /// The pass's client learns of a moment: it has then seen all calls so far, those of the moment
    /// among them, and the calls that it makes from now on come after them. It is no call, locks
    /// no bin, takes no memory and never waits.
    ///
    ///     map.learn(second, &mut moment);
    ///     map.get(rt, second, 1)? == Reply::Value(Some(5))
    pub fn learn(&self, pass: &mut Pass<K, V, F>, moment: &mut Moment<K, V, F>)
        requires pass { pass.old.ledger ≡ self.now.ledger.id }
        requires moment { moment.old.ledger ≡ self.now.ledger.id }
        ensures seen { HasSeen K.eq (after V.eq F.remapped F.merged) self.now.ledger pass.old
            pass.new }
        ensures learned { BeginsWith pass.new.seen moment.old.seen }
        ensures same { moment.new ≡ moment.old }
    {
        self.ledger.learn(pass, moment);
    }

    /// Each pass's client learns of all that the clients of these passes had seen: there is one
    /// moment that begins with all of it, and all have then seen it. So the calls that they make from
    /// now on come after all calls that any of them made before. The cost is linear in the number
    /// of passes. It is no call, locks no bin, takes no memory and never waits.
    ///
    ///     map.put(rt, &mut passes[0], 1, 5)?;
    ///     map.learn_all(passes);
    ///     map.get(rt, &mut passes[1], 1)? == Reply::Value(Some(5))
    pub fn learn_all(&self, passes: &mut [Pass<K, V, F>])
        requires { All (λ p. p.ledger ≡ self.now.ledger.id) passes.old }
        ensures learned { (moment : List (RecordView K V F))
            × All (λ p. BeginsWith moment p.seen) passes.old
            × All (λ p. BeginsWith p.seen moment) passes.new }
        ensures seen { AllZip (HasSeen K.eq (after V.eq F.remapped F.merged) self.now.ledger)
            passes.old passes.new }
    {
        self.ledger.learn_all(passes);
    }

    /// Tells that two clients see one order of all calls: there is one list of calls that is a front
    /// of both passes, which begins with all that either has seen. Neither pass changes. It is no
    /// call, locks no bin, takes no memory and never waits.
    ///
    ///     map.together(first, second);
    pub fn together(&self, first: &mut Pass<K, V, F>, second: &mut Pass<K, V, F>)
        requires first { first.old.ledger ≡ self.now.ledger.id }
        requires second { second.old.ledger ≡ self.now.ledger.id }
        ensures one_order { (calls : List (RecordView K V F))
            × IsFront K.eq (after V.eq F.remapped F.merged) self.now.ledger first.old calls
            × IsFront K.eq (after V.eq F.remapped F.merged) self.now.ledger second.old calls }
        ensures two_clients { first.old.client ≢ second.old.client }
        ensures same_first { first.new ≡ first.old }
        ensures same_second { second.new ≡ second.old }
    {
        self.ledger.together(first, second);
    }
}
