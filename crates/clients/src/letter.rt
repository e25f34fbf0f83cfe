//! Moments in letters, which lie under a lock or go through a channel.
ghost use Rattle.std.specs.Prelude.{◌≡◌};

use count_ledger::Moment;
use std::marker::{Brand, Model, PhantomData};

/// What letters are about, in contracts alone: of which map's calls their moments know, and what is
/// so of those calls. A call at `Brand` picks it.
pub trait About<K, V, F> {
    ghost use Rattle.std.specs.Prelude.{List};
    ghost use Rattle.bin_history.specs.Records.{RecordView};
    ghost use Rattle.count_ledger.specs.Views.{LedgerId};

    ghost ledger: { LedgerId };

    ghost told: { List (RecordView K V F) → Type 0 };
}

impl<K, V, F> About<K, V, F> for Brand {
    ghost use Rattle.std.specs.Prelude.{[]};

    ghost ledger = { record {
      words = 0;
      slots = 0;
      views_name = 0;
      atom = 0;
      block = 0;
      offset =
          0;
      slot_names = [];
    } };

    ghost told = { λ _. Unit {0} };
}

/// A moment, of which is so what `B` says. What is known of a moment is lost in a lock or a channel;
/// of a letter its type says it, to whoever takes it out. It has no bytes.
#[derive(Drop)]
pub struct Letter<K, V, F, B: About<K, V, F>> {
    moment: Moment<K, V, F>,
    about: PhantomData<B>,
}

impl<K, V, F, B: About<K, V, F>> Model for Letter<K, V, F, B> {
    ghost use Rattle.std.specs.Prelude.{◌≡◌};
    ghost use Rattle.count_ledger.specs.Views.{MomentView};

    ghost Value = { MomentView K V F };

    ghost view = { λ l. l.moment };

    ghost invariant = { λ l. (l.moment.ledger ≡ B.ledger) × B.told l.moment.seen };
}

impl<K, V, F, B: About<K, V, F>> Letter<K, V, F, B> {
    /// Returns a letter with this moment. It takes constant time, allocates nothing, and waits for
    /// nobody.
    pub fn new(moment: Moment<K, V, F>) -> Letter<K, V, F, B>
        requires ledger { moment.ledger ≡ B.ledger }
        requires told { B.told moment.seen }
        ensures { result ≡ moment }
    {
        Letter {
            moment,
            about: PhantomData,
        }
    }

    /// Returns the moment of the letter, from which a client learns. It takes constant time,
    /// allocates nothing, and waits for nobody.
    ///
    ///     client.learn(&mut letter.open());
    pub fn open(self) -> Moment<K, V, F>
        ensures moment { result ≡ self }
        ensures ledger { result.ledger ≡ B.ledger }
        ensures told { B.told result.seen }
    {
        let Letter { moment, about: _ } = self;
        moment
    }
}
