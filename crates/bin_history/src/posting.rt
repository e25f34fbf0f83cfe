//! What a call leaves for the books.
ghost use Rattle.std.specs.Prelude.{◌≡◌};
ghost use Rattle.bin_history.specs.Deltas.{delta};
ghost use Rattle.bin_history.specs.Readiness.{call_seen, value_seen};

use crate::record::Record;
use crate::seen::{Seen, SeenCall, value_seen};
use std::marker::Model;
use std::snapshot::Snapshot;

/// What the books of a map need of a call that was made: its record, in contracts alone. At run
/// time it tells how the call changed the number of keys.
#[derive(Drop)]
pub struct Posting<K, V, F> {
    client: Snapshot<u32>,
    ordinal: Snapshot<u64>,
    seen: Seen<K, V, F>,
}

impl<K, V, F> Model for Posting<K, V, F> {
    ghost use Rattle.bin_history.specs.Readiness.{call_seen, value_seen};
    ghost use Rattle.bin_history.specs.Records.{RecordView};

    ghost Value = { RecordView K V F };

    ghost view = { λ t. record {
      client = t.client.value;
      ordinal = t.ordinal.value;
      call = call_seen t.seen.call;
      before = value_seen t.seen.before;
      after = value_seen t.seen.after;
    } };
}

impl<K, V, F> Posting<K, V, F> {
    /// What the record's call leaves.
    pub fn of(entry: &Record<K, V, F>) -> Posting<K, V, F>
        ensures { result ≡ entry.now }
    {
        let seen = Seen {
            call: SeenCall::Whole(Snapshot::of(entry.call())),
            before: value_seen(entry.before()),
            after: value_seen(entry.after()),
        };
        Posting::seen(entry.client(), entry.ordinal(), seen)
    }

    /// What a call of this client leaves, which made so many before.
    #[inline(always)]
    pub(crate) fn seen(client: u32, ordinal: u64, seen: Seen<K, V, F>) -> Posting<K, V, F>
        ensures { result ≡ record {
          client = client;
          ordinal = ordinal;
          call = call_seen seen.call;
          before = value_seen seen.before;
          after = value_seen seen.after;
        } }
    {
        Posting {
            client: Snapshot::of(&client),
            ordinal: Snapshot::of(&ordinal),
            seen,
        }
    }

    /// How the call changed the number of keys: by 1, 0 or -1.
    #[inline(always)]
    pub fn delta(&self) -> i64
        ensures { result ≡ delta self.now }
    {
        match &self.seen.before {
            Some(_) => match &self.seen.after {
                Some(_) => 0,
                None => -1,
            },
            None => match &self.seen.after {
                Some(_) => 1,
                None => 0,
            },
        }
    }
}
