//! Records of calls.
ghost use Rattle.std.specs.Prelude.{◌≡◌, ◌<◌, ◌^◌, IfOk, option_copied};
ghost use Rattle.bin_history.specs.Births.{is_birth};
ghost use Rattle.bin_history.specs.Deltas.{delta};
ghost use Rattle.bin_history.specs.Limits.{most_lean_clients};
ghost use Rattle.bin_history.specs.Records.{before_of, after_of};

use crate::call::Call;
use crate::copies::copy_of_call;
use bin_entries::copy_of;
use hashkeys::Exact;
use std::alloc::AllocError;
use std::marker::Model;

/// The values at a key just before a call and just after it, where there are any.
#[derive(Drop)]
pub enum Values<V> {
    Neither,
    Before(V),
    After(V),
    Both(V, V),
}

/// Clients are numbered below this.
const CLIENTS: u64 = 65_536;

/// A call that was made: the client's number, the call's place among the client's calls, and the
/// value at its key just before it and just after it. Contracts see a `RecordView`. A recorded bin
/// keeps one for each call, so the two numbers share a word, and the two values one tag.
#[derive(Drop)]
pub struct Record<K, V, F> {
    /// The ordinal times 65,536, and the client.
    stamp: u64,
    call: Call<K, V, F>,
    values: Values<V>,
}

impl<K, V, F> Model for Record<K, V, F> {
    ghost use Rattle.std.specs.Prelude.{◌%◌, ◌/◌};
    ghost use Rattle.bin_history.specs.Records.{RecordView, before_of, after_of};

    ghost Value = { RecordView K V F };

    ghost view = { λ r. record {
      client = r.stamp % 65536;
      ordinal = r.stamp / 65536;
      call = r.call;
      before = before_of r.values;
      after = after_of r.values;
    } };
}

impl<V> Values<V> {
    fn of(before: Option<V>, after: Option<V>) -> Values<V>
        ensures before { before_of result ≡ before }
        ensures after { after_of result ≡ after }
    {
        match before {
            None => match after {
                None => Values::Neither,
                Some(new) => Values::After(new),
            },
            Some(old) => match after {
                None => Values::Before(old),
                Some(new) => Values::Both(old, new),
            },
        }
    }
}

impl<K, V, F> Record<K, V, F> {
    /// The record of a call of this client, below 65,536, which made so many before: fewer than 2^48.
    pub fn new(
        client: u32,
        ordinal: u64,
        call: Call<K, V, F>,
        before: Option<V>,
        after: Option<V>,
    ) -> Record<K, V, F>
        requires client { client < most_lean_clients }
        requires ordinal { ordinal < 2 ^ 48 }
        ensures { result ≡ record {
          client = client;
          ordinal = ordinal;
          call = call;
          before =
              before;
          after = after;
        } }
    {
        Record {
            stamp: ordinal * CLIENTS + client as u64,
            call,
            values: Values::of(before, after),
        }
    }

    /// The number of the client whose call it is.
    pub fn client(&self) -> u32
        ensures { result ≡ self.now.client }
    {
        (self.stamp % CLIENTS) as u32
    }

    /// How many calls the client had made before.
    pub fn ordinal(&self) -> u64
        ensures { result ≡ self.now.ordinal }
    {
        self.stamp / CLIENTS
    }

    /// The call, with its arguments.
    pub fn call(&self) -> &Call<K, V, F>
        ensures { result.now ≡ self.now.call }
    {
        &self.call
    }

    /// The value at the call's key just before it.
    pub fn before(&self) -> Option<&V>
        ensures { option_copied result ≡ self.now.before }
    {
        match &self.values {
            Values::Before(old) | Values::Both(old, _) => Some(old),
            Values::Neither | Values::After(_) => None,
        }
    }

    /// The value at the call's key just after it.
    pub fn after(&self) -> Option<&V>
        ensures { option_copied result ≡ self.now.after }
    {
        match &self.values {
            Values::After(new) | Values::Both(_, new) => Some(new),
            Values::Neither | Values::Before(_) => None,
        }
    }

    /// How the call changed the number of keys: by 1, 0 or -1.
    pub fn delta(&self) -> i64
        ensures { result ≡ delta self.now }
    {
        match &self.values {
            Values::After(_) => 1,
            Values::Before(_) => -1,
            Values::Neither | Values::Both(_, _) => 0,
        }
    }
}

impl<K, V, F> Record<K, V, F> {
    /// Whether the call made its key present.
    pub(crate) fn is_birth(&self) -> bool
        ensures { result ≡ is_birth self.now.before self.now.after }
    {
        match &self.values {
            Values::After(_) => true,
            Values::Neither | Values::Before(_) | Values::Both(_, _) => false,
        }
    }
}

impl<K: Drop, V: Drop, F: Drop> Record<K, V, F> {
    /// The call, and the value that it left at its key.
    pub(crate) fn into_call(self) -> (Call<K, V, F>, Option<V>)
        ensures call { result.0 ≡ self.call }
        ensures after { result.1 ≡ self.after }
    {
        let Record {
            stamp: _,
            call,
            values,
        } = self;
        let after = match values {
            Values::Neither => None,
            Values::Before(_old) => None,
            Values::After(new) => Some(new),
            Values::Both(_old, new) => Some(new),
        };
        (call, after)
    }
}

fn copy_of_values<V: Exact>(values: &Values<V>) -> Result<Values<V>, AllocError>
    ensures { IfOk result (λ copy. copy ≡ values.now) }
{
    match values {
        Values::Neither => Ok(Values::Neither),
        Values::Before(old) => Ok(Values::Before(copy_of(old)?)),
        Values::After(new) => Ok(Values::After(copy_of(new)?)),
        Values::Both(old, new) => Ok(Values::Both(copy_of(old)?, copy_of(new)?)),
    }
}

pub(crate) fn copy_of_record<K: Exact, V: Exact, F: Exact>(
    entry: &Record<K, V, F>,
) -> Result<Record<K, V, F>, AllocError>
    ensures { IfOk result (λ copy. copy ≡ entry.now) }
{
    Ok(Record {
        stamp: entry.stamp,
        call: copy_of_call(&entry.call)?,
        values: copy_of_values(&entry.values)?,
    })
}
