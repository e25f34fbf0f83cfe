//! A map that was not closed, as an error: `?` drops the map and keeps the reason.
ghost use Rattle.std.specs.Prelude.{◌≡◌};

use crate::team::TeamNotClosed;
use crate::unshared::SharedNotClosed;
use bin_history::{Remap, Value};
use chm::Fault;
use hashkeys::HashKey;
use std::alloc::Allocator;
use std::error::Error;
use std::fmt::{self, Debug, Display, Formatter};

impl<K: HashKey, V: Value, F: Remap<K, V>, A: Allocator> From<TeamNotClosed<K, V, F, A>> for Fault {
    ghost from_gives = { λ refused fault. fault ≡ refused.fault };

    fn from(refused: TeamNotClosed<K, V, F, A>) -> Fault {
        refused.give_up()
    }
}

impl<K: HashKey, V: Value, F: Remap<K, V>, A: Allocator> From<SharedNotClosed<K, V, F, A>>
    for Fault {
    ghost from_gives = { λ refused fault. fault ≡ refused.fault };

    fn from(refused: SharedNotClosed<K, V, F, A>) -> Fault {
        refused.give_up()
    }
}

impl<K: HashKey, V: Value, F: Remap<K, V>, A: Allocator> Debug for TeamNotClosed<K, V, F, A> {
    fn fmt<W: fmt::Write>(&self, f: &mut Formatter<W>) -> fmt::Result {
        f.debug_struct("TeamNotClosed")
            .field("fault", &self.fault)
            .finish_non_exhaustive()
    }
}

impl<K: HashKey, V: Value, F: Remap<K, V>, A: Allocator> Debug for SharedNotClosed<K, V, F, A> {
    fn fmt<W: fmt::Write>(&self, f: &mut Formatter<W>) -> fmt::Result {
        f.debug_struct("SharedNotClosed")
            .field("fault", &self.fault)
            .finish_non_exhaustive()
    }
}

impl<K: HashKey, V: Value, F: Remap<K, V>, A: Allocator> Display for TeamNotClosed<K, V, F, A> {
    fn fmt<W: fmt::Write>(&self, f: &mut Formatter<W>) -> fmt::Result {
        let fault = self.fault;
        write!(f, "{fault}")
    }
}

impl<K: HashKey, V: Value, F: Remap<K, V>, A: Allocator> Display for SharedNotClosed<K, V, F, A> {
    fn fmt<W: fmt::Write>(&self, f: &mut Formatter<W>) -> fmt::Result {
        let fault = self.fault;
        write!(f, "{fault}")
    }
}

impl<K: HashKey, V: Value, F: Remap<K, V>, A: Allocator> Error for TeamNotClosed<K, V, F, A> {}

impl<K: HashKey, V: Value, F: Remap<K, V>, A: Allocator> Error for SharedNotClosed<K, V, F, A> {}
