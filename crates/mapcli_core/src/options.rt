//! What a run may be told besides its script.
ghost use Rattle.std.specs.Prelude.{◌≡◌, ◌≤◌, ◌<◌, ◌↔◌, IfOk, IsOk, IsErrOf};
ghost use Rattle.chm.specs.Refusals.{IsCapacity};
ghost use Rattle.bulk_tasks.specs.Plans.{AreWorkers};

use crate::fault::Fault;
use bulk_tasks::MOST_WORKERS;
use hashkeys::Salt;
use std::marker::Model;

/// How many workers answer queries, 1 to 16; how many bins the map opens with at least, 1 to 4,096;
/// and the salt of its hashes. They change no reply and no answer of a script with one client and
/// no `search` line.
#[derive(Clone, Copy, Debug, PartialEq, Eq)]
pub struct Options {
    workers: usize,
    capacity: usize,
    salt: Salt,
}

impl Model for Options {
    ghost use Rattle.chm.specs.Refusals.{IsCapacity};
    ghost use Rattle.bulk_tasks.specs.Plans.{AreWorkers};
    ghost use Rattle.mapcli_core.specs.Options.{OptionsView};

    ghost Value = { OptionsView };

    ghost view = { λ o. record { workers = o.workers; capacity = o.capacity; salt = o.salt } };

    ghost invariant = { λ o. AreWorkers o.workers × IsCapacity o.capacity };

    ghost inverse = { λ o. record { workers = o.workers; capacity = o.capacity; salt = o.salt } };
}

impl Options {
    /// These options with salt 0.
    pub fn new(workers: usize, capacity: usize) -> Result<Options, Fault>
        ensures ok { IsOk result ↔ (IsCapacity capacity × AreWorkers workers) }
        ensures options { IfOk result
            (λ o. o ≡ record { workers = workers; capacity = capacity; salt = record { 0 = 0 } }) }
        ensures capacity { IsErrOf result Fault.BadCapacity ↔ (¬ IsCapacity capacity) }
        ensures workers { IsErrOf result Fault.BadWorkers
            ↔ (IsCapacity capacity × (¬ AreWorkers workers)) }
    {
        Options::with_salt(workers, capacity, Salt(0))
    }

    /// These options: the capacity is tested first.
    pub fn with_salt(workers: usize, capacity: usize, salt: Salt) -> Result<Options, Fault>
        ensures ok { IsOk result ↔ (IsCapacity capacity × AreWorkers workers) }
        ensures options { IfOk result
            (λ o. o ≡ record { workers = workers; capacity = capacity; salt = salt }) }
        ensures capacity { IsErrOf result Fault.BadCapacity ↔ (¬ IsCapacity capacity) }
        ensures workers { IsErrOf result Fault.BadWorkers
            ↔ (IsCapacity capacity × (¬ AreWorkers workers)) }
    {
        if capacity < 1 || capacity > 4096 {
            return Err(Fault::BadCapacity);
        }
        if workers < 1 || workers > MOST_WORKERS {
            return Err(Fault::BadWorkers);
        }
        Ok(Options {
            workers,
            capacity,
            salt,
        })
    }

    /// How many workers answer queries.
    pub fn workers(&self) -> usize
        ensures value { result ≡ self.now.workers }
        ensures range { AreWorkers result }
    {
        self.workers
    }

    /// How many buckets the map opens with at least.
    pub fn capacity(&self) -> usize
        ensures value { result ≡ self.now.capacity }
        ensures range { IsCapacity result }
    {
        self.capacity
    }

    /// The salt of the map's hashes.
    pub fn salt(&self) -> Salt
        ensures { result ≡ self.now.salt }
    {
        self.salt
    }
}
