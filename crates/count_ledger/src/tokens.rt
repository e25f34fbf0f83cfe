//! Passes and roles.
ghost use Rattle.std.specs.Prelude.{◌≡◌, ◌<◌, ◌≤◌, [], ◌∷◌, length};
ghost use Rattle.bin_history.specs.Clients.{by_client};
ghost use Rattle.bin_history.specs.Deltas.{sum_of_deltas};
ghost use Rattle.count_ledger.specs.Words.{word_of};

use crate::books::View;
use atomic_table::{Badge, Seat};
use hashkeys::Class;
use std::alloc::Allocator;
use std::marker::Model;

/// The right of one client to make calls, what it made, and what it has seen of all calls. It
/// cannot be dropped: it ends by `Ledger::settle` or by `retire`.
pub struct Pass<K, V, F> {
    pub(crate) made: u64,
    /// The sum of the deltas of the calls made.
    pub(crate) balance: u64,
    pub(crate) client: u32,
    pub(crate) seat: Seat<(), View<K, V, F>>,
    /// Keeps the passes of two clients off one another's cache lines.
    pub(crate) apart: Apart,
}

/// Three cache lines, less what a pass has before them. A processor that reads a line may fetch the
/// next one too, so at least one line lies between what two passes write, wherever they are.
pub(crate) type Apart = [u64; 21];

pub(crate) const APART: Apart = [0; 21];

impl<K, V, F> Model for Pass<K, V, F> {
    ghost use Rattle.count_ledger.specs.Views.{PassView};
    ghost use Rattle.count_ledger.specs.Tokens.{IsPass, made_of_pass, seen_of_pass};

    ghost Value = { PassView K V F };

    ghost view = { λ p. record {
      ledger = p.seat.table_id;
      client = p.client;
      made =
          made_of_pass p.seat.me.0;
      seen = seen_of_pass p.seat.me.0;
    } };

    ghost invariant = { λ p. IsPass p.client p.made p.balance p.seat.me };
}

/// The right to keep the records of one class of keys, and what was kept. It cannot be copied, and
/// a ledger without one of its roles is never settled.
#[derive(Drop)]
pub struct BinRole<K, V, F> {
    pub(crate) class: Class,
    pub(crate) badge: Badge<View<K, V, F>>,
}

impl<K, V, F> Model for BinRole<K, V, F> {
    ghost use Rattle.count_ledger.specs.Views.{RoleView};
    ghost use Rattle.count_ledger.specs.Tokens.{IsRole, salt_of_role, opening_of_role};
    ghost use Rattle.count_ledger.specs.Tokens.{kept_of_role};

    ghost Value = { RoleView K V F };

    ghost view = { λ r. record {
      ledger = r.badge.table_id;
      salt = salt_of_role r.badge.views;
      class = r.class;
      opening = opening_of_role r.badge.views;
      kept = kept_of_role r.badge.views;
    } };

    ghost invariant = { λ r. IsRole r.class r.badge.views };
}

impl<K, V, F> Pass<K, V, F> {
    ghost use Rattle.count_ledger.specs.Limits.{most_lean_calls, most_lean_clients};
    ghost use Rattle.count_ledger.specs.Tokens.{pass_book};

    /// Returns the client's number: 0 to 31, or in a lean map to 65,535.
    #[inline(always)]
    pub fn client(&self) -> u32
        ensures value { result ≡ self.now.client }
        ensures few { result < most_lean_clients }
    {
        self.client
    }

    /// Returns how many calls the client made: at most 1,000,000, or in a lean map 2^62 divided by
    /// the number of clients.
    #[inline(always)]
    pub fn made(&self) -> u64
        ensures value { result ≡ length self.now.made }
        ensures at_most { result ≤ most_lean_calls }
    {
        self.made
    }

    /// Returns the sum of the deltas of what the client made, as a 64-bit two's complement number. The
    /// pass keeps it, so this is no atomic step.
    #[inline(always)]
    pub fn balance(&self) -> u64
        ensures { result ≡ word_of (sum_of_deltas self.now.made) }
    {
        self.balance
    }

    /// Of its client's calls a pass has seen just those that it made. It does nothing when it runs.
    pub fn lawful(&self)
        ensures { by_client self.now.client self.now.seen ≡ self.now.made }
    {
        // read for the proof alone, which so has the invariant
        let _ = &self.seat;
    }

    /// Ends the pass. The ledger can then never be settled.
    pub fn retire(self) {
        drop(self.into_seat());
    }

    pub(crate) fn into_seat(self) -> Seat<(), View<K, V, F>>
        ensures table { result.table_id ≡ self.ledger }
        ensures book { result.me ≡ (pass_book self ∷ [], []) }
    {
        let Pass {
            client: _,
            made: _,
            balance: _,
            seat,
            apart: _,
        } = self;
        seat
    }
}

impl<K, V, F> BinRole<K, V, F> {
    ghost use Rattle.count_ledger.specs.Tokens.{role_book};

    /// The class of the keys.
    pub fn class(&self) -> Class
        ensures { result ≡ self.now.class }
    {
        self.class
    }

    pub(crate) fn into_seat(self) -> Seat<(), View<K, V, F>>
        ensures table { result.table_id ≡ self.ledger }
        ensures book { result.me ≡ (role_book self ∷ [], []) }
    {
        let BinRole { class: _, badge } = self;
        badge.into_seat()
    }
}

/// Ends the passes. A ledger of which one is missing can never be settled.
pub fn retire_all<K, V, F, A: Allocator>(mut passes: Vec<Pass<K, V, F>, A>) {
    while let Some(pass) = passes.pop() {
        pass.retire();
    }
    passes.destroy_empty();
}
