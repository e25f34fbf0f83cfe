//! What one client has seen, told to another.
ghost use Rattle.std.specs.Prelude.{◌≡◌};
ghost use Rattle.bin_history.specs.Calls.{after};
ghost use Rattle.count_ledger.specs.Fronts.{BeginsWith, HasSeen};

use crate::client::ClientOf;
use crate::holder::{Holder, Seat};
use bin_history::{Remap, Value};
use count_ledger::Moment;
use hashkeys::HashKey;
use std::alloc::Allocator;

impl<H: Holder<K, V, F, A>, K: HashKey, V: Value, F: Remap<K, V>, A: Allocator> ClientOf<
    H,
    K,
    V,
    F,
    A,
> {
    /// Returns what the client has seen of the calls on the map: its own, those before them in the
    /// order of calls, and those that it learned of. A moment has no bytes, and can go to another
    /// client. It takes constant time, allocates nothing, and waits for nobody.
    ///
    ///     second.learn(&mut client.moment());
    pub fn moment(&mut self) -> Moment<K, V, F>
        ensures moment { result ≡ record {
          ledger = self.old.map.ledger.id;
          seen = self.old.pass.seen;
        } }
        ensures same { self.new ≡ self.old }
    {
        self.holder.map().moment(self.seat.pass_mut())
    }

    /// The client learns of a moment: the calls that it makes from now on come after all calls of
    /// the moment. It takes constant time, allocates nothing, and waits for nobody.
    ///
    /// Where another client put 5 at 1 before the moment of its letter, and no call on 1 came after:
    ///
    ///     client.learn(&mut letter.open());
    ///     assert_eq!(client.get(rt, &1)?, Some(5));
    pub fn learn(&mut self, moment: &mut Moment<K, V, F>)
        requires { moment.old.ledger ≡ self.old.map.ledger.id }
        ensures seen { HasSeen K.eq (after V.eq F.remapped F.merged) self.old.map.ledger
            self.old.pass self.new.pass }
        ensures learned { BeginsWith self.new.pass.seen moment.old.seen }
        ensures same { moment.new ≡ moment.old }
        ensures map { self.new.map ≡ self.old.map }
    {
        self.holder.map().learn(self.seat.pass_mut(), moment);
    }
}
