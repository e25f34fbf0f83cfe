//! Bins with their roles, and the calls on them that are posted.
ghost use Rattle.std.specs.Prelude.{◌≡◌, ◌<◌, ◌^◌, true, [], length, All, IfOk};
ghost use Rattle.hashkeys.specs.Classes.{is_of, low_half, high_half};
ghost use Rattle.hashkeys.specs.Limits.{most_bins};
ghost use Rattle.count_ledger.specs.Agreement.{part_of_role};
ghost use Rattle.count_ledger.specs.Limits.{most_calls};

use bin_history::{Bin, Form, KeyArg, Op, Remap, Reply};
use count_ledger::{BinRole, Ledger, Pass, Unsettled};
use hashkeys::{Class, HashKey, Key, Salt};
use std::alloc::{AllocError, Global};
use std::marker::Model;
use std::process::Abort;
use test_helpers::Plus;

pub(crate) type KeyLedger = Ledger<Key, u64, Plus, Global>;

pub(crate) type KeyPass = Pass<Key, u64, Plus>;

pub(crate) type KeyRole = BinRole<Key, u64, Plus>;

/// A bin and its role, which agree. Contracts see the role.
#[derive(Drop)]
pub(crate) struct Held {
    alloc: Global,
    bin: Bin<Key, u64, Plus, Global>,
    role: BinRole<Key, u64, Plus>,
}

impl Model for Held {
    ghost use Rattle.std.specs.Prelude.{ℕ, List};
    ghost use Rattle.bin_history.specs.Calls.{after};
    ghost use Rattle.count_ledger.specs.Agreement.{BinAgrees};
    ghost use Rattle.count_ledger.specs.Views.{RoleView};
    ghost use Rattle.test_helpers.specs.declared.functions.Plus.{Plus};

    ghost Value = { RoleView (List ℕ) ℕ Plus };

    ghost view = { λ h. h.role };

    ghost invariant = { λ h. BinAgrees ⟦<Key as PartialEq>⟧.eq
        (after ⟦<u64 as PartialEq>⟧.eq ⟦<Plus as Remap<Key, u64>>⟧.remapped
        ⟦<Plus as Remap<Key, u64>>⟧.merged) h.bin h.role };
}

impl Held {
    /// A new bin for a new role over no pairs.
    fn new(alloc: Global, form: Form, salt: Salt, role: KeyRole) -> Result<Held, AllocError>
        requires salt { role.salt ≡ salt }
        requires opening { role.opening ≡ [] }
        requires kept { role.kept ≡ [] }
        ensures { IfOk result (λ held. held ≡ role) }
    {
        let base = Vec::new(alloc);
        let bin = Bin::new(&alloc, form, salt, role.class(), base)?;
        Ok(Held { alloc, bin, role })
    }

    /// The salt of the bin's hashes.
    pub(crate) fn salt(&self) -> Salt
        ensures { result ≡ self.now.salt }
    {
        self.bin.salt()
    }

    /// The class of the bin's keys.
    pub(crate) fn class(&self) -> Class
        ensures { result ≡ self.now.class }
    {
        self.role.class()
    }

    /// Makes a call on the bin as the pass's next, and posts it.
    pub(crate) fn post<'a>(
        &'a mut self,
        ledger: &KeyLedger,
        pass: &mut KeyPass,
        key: Key,
        op: Op<u64, Plus>,
    ) -> Result<Reply<u64>, AllocError>
        requires pass { pass.old.ledger ≡ ledger.now.id }
        requires role { self.old.ledger ≡ ledger.now.id }
        requires room { length pass.old.made < most_calls ledger.now.form ledger.now.clients }
        requires short { length pass.old.made < 2 ^ 48 }
        requires of_class { is_of ⟦<Key as HashKey>⟧.code self.old.salt self.old.class key ≡ true }
        ensures pass { pass.new.ledger ≡ pass.old.ledger }
        ensures role { self.new.ledger ≡ self.old.ledger }
    {
        self.bin.lawful();
        let (client, made) = (pass.client(), pass.made());
        let hash = self.bin.salt().hash_of(&key);
        let key: KeyArg<'a, Key> = KeyArg::Owned(key);
        let (reply, trace) = self.bin.make_on(&self.alloc, hash, key, op, client, made)?;
        ledger.post_trace(pass, &mut self.role, &trace);
        Ok(reply)
    }

    /// The halves of the bin with those of its role.
    pub(crate) fn divide(self, rt: &impl Abort, ledger: &KeyLedger) -> (Held, Held)
        requires role { self.ledger ≡ ledger.now.id }
        requires size { self.class.n < most_bins }
        ensures low { result.0 ≡ part_of_role ⟦<Key as HashKey>⟧.code (low_half self.class) self }
        ensures high { result.1 ≡ part_of_role ⟦<Key as HashKey>⟧.code (high_half self.class) self }
    {
        let Held { alloc, bin, role } = self;
        let Ok((low_bin, high_bin)) = bin.split(&alloc) else {
            assert!(rt; false, "memory");
            unreachable!()
        };
        let (low_role, high_role) = ledger.divide(role);
        let low = Held {
            alloc,
            bin: low_bin,
            role: low_role,
        };
        let high = Held {
            alloc,
            bin: high_bin,
            role: high_role,
        };
        (low, high)
    }

    /// Asserts that the ledger does not settle with this role and these passes, and hands everything
    /// back.
    pub(crate) fn refused(
        self,
        rt: &impl Abort,
        ledger: KeyLedger,
        passes: Vec<KeyPass>,
    ) -> (KeyLedger, Vec<KeyPass>, Held)
        requires passes { All (λ p. p.ledger ≡ ledger.id) passes.items }
        requires role { self.ledger ≡ ledger.id }
        ensures ledger { result.0 ≡ ledger }
        ensures passes { result.1 ≡ passes }
        ensures role { result.2 ≡ self }
    {
        let Held { alloc, bin, role } = self;
        let roles = Vec::from_array(alloc, [role]).expect(rt, "memory");
        let Err(
            Unsettled {
                ledger,
                passes,
                mut roles,
            },
        ) = ledger.settle(passes, roles)
        else {
            assert!(rt; false, "a pass or a role is missing");
            unreachable!()
        };
        let role = roles.pop().expect(rt, "a role");
        (ledger, passes, Held { alloc, bin, role })
    }
}

/// A new bin for each of the roles, which keep nothing over no pairs.
pub(crate) fn hold_all(
    rt: &impl Abort,
    ledger: &KeyLedger,
    salt: Salt,
    roles: Vec<KeyRole>,
) -> Vec<Held>
    requires new { All (λ r. (r.salt ≡ salt) × (r.opening ≡ []) × (r.kept ≡ [])) roles.items }
    ensures { result.items ≡ roles.items }
{
    let alloc = *roles.allocator();
    let mut bins = Vec::new(alloc);
    for role in roles {
        let held = Held::new(alloc, ledger.form(), salt, role).expect(rt, "memory");
        bins.push(held).expect(rt, "memory");
    }
    bins
}

/// The roles of the bins.
pub(crate) fn roles_of(rt: &impl Abort, bins: Vec<Held>) -> Vec<KeyRole>
    ensures { result.items ≡ bins.items }
{
    let mut roles = Vec::new(*bins.allocator());
    for held in bins {
        let Held { role, .. } = held;
        roles.push(role).expect(rt, "memory");
    }
    roles
}
