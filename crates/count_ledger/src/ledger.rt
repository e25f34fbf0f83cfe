//! The ledger, and the calls on a pass or a role.
ghost use Rattle.std.specs.Prelude.{◌≡◌, ℕ, ◌+◌, ◌*◌, ◌<◌, ◌≤◌, true, List, [], ◌∷◌, ◌++◌, length};
ghost use Rattle.hashkeys.specs.Classes.{is_of, low_half, high_half};
ghost use Rattle.hashkeys.specs.Limits.{most_bins};
ghost use Rattle.bin_history.specs.Calls.{after, key_of};
ghost use Rattle.bin_history.specs.Deltas.{sum_of_deltas};
ghost use Rattle.bin_history.specs.Entries.{lookup};
ghost use Rattle.bin_history.specs.Part.{part_of_records};
ghost use Rattle.bin_history.specs.Plain.{run, IsLegalStep};
ghost use Rattle.bin_history.specs.Records.{RecordView};
ghost use Rattle.count_ledger.specs.Agreement.{part_of_role};
ghost use Rattle.count_ledger.specs.Books.{BooksAgree, IsPassOf, IsRoleOf};
ghost use Rattle.count_ledger.specs.Fronts.{BeginsWith, HasSeen, IsFront, IsPosted};
ghost use Rattle.count_ledger.specs.Limits.{most_calls, most_clients};
ghost use Rattle.count_ledger.specs.Words.{lane_of, word_of};

use crate::books::{LedgerRule, Terms, View};
use crate::moment::Moment;
use crate::seats::{add_delta, join, look, part, show};
use crate::tokens::{BinRole, Pass};
use atomic_table::{Badge, Table};
use bin_history::{Form, Posting, Record, Remap};
use hashkeys::HashKey;
use std::alloc::Allocator;
use std::marker::{Brand, Model};
use std::mem;

/// How many words fill a cache line.
pub(crate) const WORDS_PER_LINE: usize = 8;

/// Clients count in so many lanes: client c in lane c % 32.
pub(crate) const LANES: u32 = 32;

/// How many words a ledger has: a line that is only read, and one for each lane.
pub(crate) const WORDS: usize = WORDS_PER_LINE * (LANES as usize + 1);

/// Returns the word of a lane: word 8(lane + 1), on a cache line of its own. Word 0 is only read:
/// joining a pass and a role loads it, and so do parting them and the post of a call whose delta is
/// 0.
pub(crate) fn word_of_lane(lane: u32) -> usize
    ensures { result ≡ 8 * (lane + 1) }
{
    WORDS_PER_LINE * (lane as usize + 1)
}

/// Returns the word that the client counts in, with the others of its lane.
#[inline(always)]
pub(crate) fn word_at(client: u32) -> usize
    ensures { result ≡ 8 * (lane_of client + 1) }
{
    word_of_lane(client % LANES)
}

/// The books of one map: a pass for each client, a role for each class of keys, and a count word
/// for each of 32 lanes of clients. Its rule holds between any two atomic steps: there is one list
/// of all calls, in the order of their posts, which is legal for a map of one thread, of which each
/// pass made just those by its client, each role kept just those on keys of its class, and each pass
/// and moment has seen a front; no two roles have a hash in common; and each lane's word is the sum
/// of the deltas of its clients' calls. No call but `new` and `with_roster` takes memory, and none
/// waits.
#[derive(Drop)]
pub struct Ledger<K: HashKey, V: Eq, F: Remap<K, V>, A: Allocator> {
    pub(crate) table: Table<(), View<K, V, F>, Terms<K, V, A>, LedgerRule, A>,
    pub(crate) form: Form,
    pub(crate) clients: u32,
    pub(crate) most: u64,
}

impl<K: HashKey, V: Eq, F: Remap<K, V>, A: Allocator> Model for Ledger<K, V, F, A> {
    ghost use Rattle.count_ledger.specs.Views.{LedgerView};
    ghost use Rattle.count_ledger.specs.Rule.{ledger_of, IsLedger};

    ghost Value = { LedgerView K V };

    ghost view = { λ l. ledger_of l.table.shared.table_id l.table.shared.key };

    ghost invariant = { λ l. IsLedger l.table.shared.table_id l.table.shared.key l.form l.clients l.most };
}

impl<K: HashKey, V: Eq, F: Remap<K, V>, A: Allocator> Ledger<K, V, F, A> {
    /// Returns the number of clients, with and without a pass: 1 to 32, or where bins are lean to
    /// 65,536.
    pub fn clients(&self) -> u32
        ensures value { result ≡ self.now.clients }
        ensures some { 0 < result }
        ensures at_most { result ≤ most_clients self.now.form }
    {
        self.clients
    }

    /// The form of the bins whose books these are.
    #[inline(always)]
    pub fn form(&self) -> Form
        ensures { result ≡ self.now.form }
    {
        self.form
    }

    /// Returns how many calls a pass makes at most: 1,000,000, or where bins are lean 2^62 divided by
    /// the number of clients.
    #[inline(always)]
    pub fn most_calls(&self) -> u64
        ensures { result ≡ most_calls self.now.form self.now.clients }
    {
        self.most
    }

    /// Posts a call by its record; `post_trace` does by its trace.
    pub fn post(
        &self,
        pass: &mut Pass<K, V, F>,
        role: &mut BinRole<K, V, F>,
        entry: &Record<K, V, F>,
    )
        requires pass { pass.old.ledger ≡ self.now.id }
        requires role { role.old.ledger ≡ self.now.id }
        requires room { length pass.old.made < most_calls self.now.form self.now.clients }
        requires client { entry.now.client ≡ pass.old.client }
        requires ordinal { entry.now.ordinal ≡ length pass.old.made }
        requires class { is_of K.code role.old.salt role.old.class (key_of entry.now.call) ≡ true }
        requires legal { IsLegalStep K.eq (after V.eq F.remapped F.merged)
            (run K.eq (lookup K.eq role.old.opening) role.old.kept) entry.now }
        ensures posted { (front : List (RecordView K V F))
            × IsPosted K.eq (after V.eq F.remapped F.merged) K.code self.now pass.old pass.new
            role.old entry.now front }
        ensures role { role.new ≡ record role.old { kept = role.old.kept ++ entry.now ∷ [] } }
        ensures agree { BooksAgree K.code pass.old role.old }
        ensures of_pass { IsPassOf self.now pass.old }
        ensures of_role { IsRoleOf K.code self.now role.old }
    {
        self.post_trace(pass, role, &Posting::of(entry));
    }

    /// Adds the record of a call to what the pass made and to what the role keeps, and its delta to
    /// the word of the client's lane, by one atomic step, which where the delta is 0 loads a word that
    /// nobody writes. It tells what `meet` tells of the books just before that. The call is to be one
    /// on the map that the role's records leave; it is then one on the map that all calls before it
    /// leave, which the pass has seen.
    #[inline(always)]
    pub fn post_trace(
        &self,
        pass: &mut Pass<K, V, F>,
        role: &mut BinRole<K, V, F>,
        entry: &Posting<K, V, F>,
    )
        requires pass { pass.old.ledger ≡ self.now.id }
        requires role { role.old.ledger ≡ self.now.id }
        requires room { length pass.old.made < most_calls self.now.form self.now.clients }
        requires client { entry.now.client ≡ pass.old.client }
        requires ordinal { entry.now.ordinal ≡ length pass.old.made }
        requires class { is_of K.code role.old.salt role.old.class (key_of entry.now.call) ≡ true }
        requires legal { IsLegalStep K.eq (after V.eq F.remapped F.merged)
            (run K.eq (lookup K.eq role.old.opening) role.old.kept) entry.now }
        ensures posted { (front : List (RecordView K V F))
            × IsPosted K.eq (after V.eq F.remapped F.merged) K.code self.now pass.old pass.new
            role.old entry.now front }
        ensures role { role.new ≡ record role.old { kept = role.old.kept ++ entry.now ∷ [] } }
        ensures agree { BooksAgree K.code pass.old role.old }
        ensures of_pass { IsPassOf self.now pass.old }
        ensures of_role { IsRoleOf K.code self.now role.old }
    {
        let shared = &self.table.shared;
        join(shared, &mut pass.seat, &mut role.badge);
        // the line of the client's lane alone, so clients of two lanes never write one cache line
        let word = word_at(pass.client);
        let delta = add_delta::<K, V, F, A, Brand>(shared, &mut pass.seat, word, entry);
        part(shared, &mut pass.seat, &mut role.badge);
        pass.made += 1;
        pass.balance = pass.balance.wrapping_add(delta);
    }

    /// The pass has then seen all calls so far. It tells that of these the role has kept, in order,
    /// just those on keys of its class, of the pass's calls too, and that all are calls of this
    /// ledger's clients.
    pub fn meet(&self, pass: &mut Pass<K, V, F>, role: &mut BinRole<K, V, F>)
        requires pass { pass.old.ledger ≡ self.now.id }
        requires role { role.old.ledger ≡ self.now.id }
        ensures agree { BooksAgree K.code pass.old role.old }
        ensures of_pass { IsPassOf self.now pass.old }
        ensures of_role { IsRoleOf K.code self.now role.old }
        ensures seen { HasSeen K.eq (after V.eq F.remapped F.merged) self.now pass.old pass.new }
        ensures kept { role.old.kept ≡ part_of_records (is_of K.code role.old.salt role.old.class)
            pass.new.seen }
        ensures same_role { role.new ≡ role.old }
    {
        let shared = &self.table.shared;
        join(shared, &mut pass.seat, &mut role.badge);
        look::<K, V, F, A, Brand>(shared, &mut pass.seat, 0);
        part(shared, &mut pass.seat, &mut role.badge);
    }

    /// Tells of a front of the one order that the pass's client could see now: of its calls the role has
    /// kept, in order, just those on keys of its class. The pass and the role stay as they are.
    #[cold]
    #[inline(never)]
    pub fn peek(&self, pass: &mut Pass<K, V, F>, role: &mut BinRole<K, V, F>)
        requires pass { pass.old.ledger ≡ self.now.id }
        requires role { role.old.ledger ≡ self.now.id }
        ensures of_role { IsRoleOf K.code self.now role.old }
        ensures front { (front : List (RecordView K V F))
            × IsFront K.eq (after V.eq F.remapped F.merged) self.now pass.old front
            × (role.old.kept ≡ part_of_records (is_of K.code role.old.salt role.old.class) front) }
        ensures same_pass { pass.new ≡ pass.old }
        ensures same_role { role.new ≡ role.old }
    {
        let shared = &self.table.shared;
        join(shared, &mut pass.seat, &mut role.badge);
        look::<K, V, F, A, Brand>(shared, &mut pass.seat, 0);
        part(shared, &mut pass.seat, &mut role.badge);
    }

    /// Returns the sum of the deltas of what this pass made, as a 64-bit two's complement number, and
    /// tells what the rule says of the pass.
    #[inline(always)]
    pub fn share(&self, pass: &mut Pass<K, V, F>) -> u64
        requires { pass.old.ledger ≡ self.now.id }
        ensures sum { result ≡ word_of (sum_of_deltas pass.old.made) }
        ensures of_pass { IsPassOf self.now pass.old }
        ensures same { pass.new ≡ pass.old }
    {
        look::<K, V, F, A, Brand>(&self.table.shared, &mut pass.seat, 0);
        pass.balance
    }

    /// What the pass has seen, to be handed to other clients. The pass stays as it is.
    pub fn moment(&self, pass: &mut Pass<K, V, F>) -> Moment<K, V, F>
        requires { pass.old.ledger ≡ self.now.id }
        ensures moment { result ≡ record { ledger = self.now.id; seen = pass.old.seen } }
        ensures same { pass.new ≡ pass.old }
    {
        Moment {
            badge: show(&self.table.shared, &mut pass.seat),
        }
    }

    /// Returns a copy of the moment.
    pub fn again(&self, moment: &mut Moment<K, V, F>) -> Moment<K, V, F>
        requires { moment.old.ledger ≡ self.now.id }
        ensures copy { result ≡ moment.old }
        ensures same { moment.new ≡ moment.old }
    {
        let mut seat = mem::replace(&mut moment.badge, Badge::blank()).into_seat();
        let badge = show(&self.table.shared, &mut seat);
        moment.badge = seat.into_badge();
        Moment { badge }
    }

    /// The pass has then seen all calls so far, those of the moment among them, which come first.
    pub fn learn(&self, pass: &mut Pass<K, V, F>, moment: &mut Moment<K, V, F>)
        requires pass { pass.old.ledger ≡ self.now.id }
        requires moment { moment.old.ledger ≡ self.now.id }
        ensures seen { HasSeen K.eq (after V.eq F.remapped F.merged) self.now pass.old pass.new }
        ensures learned { BeginsWith pass.new.seen moment.old.seen }
        ensures of_pass { IsPassOf self.now pass.old }
        ensures same { moment.new ≡ moment.old }
    {
        let shared = &self.table.shared;
        join(shared, &mut pass.seat, &mut moment.badge);
        look::<K, V, F, A, Brand>(shared, &mut pass.seat, 0);
        part(shared, &mut pass.seat, &mut moment.badge);
    }

    /// The roles of the low and the high half of the role's class, each with its part of the
    /// opening pairs and of the kept records, in order.
    pub fn divide(&self, role: BinRole<K, V, F>) -> (BinRole<K, V, F>, BinRole<K, V, F>)
        requires role { role.ledger ≡ self.now.id }
        requires size { role.class.n < most_bins }
        ensures low { result.0 ≡ part_of_role K.code (low_half role.class) role }
        ensures high { result.1 ≡ part_of_role K.code (high_half role.class) role }
    {
        let BinRole { class, badge } = role;
        let (low, high) = class.halves();
        let shared = &self.table.shared;
        let mut seat = badge.into_seat();
        look::<K, V, F, A, Brand>(shared, &mut seat, 0);
        let mut other = Badge::blank();
        part(shared, &mut seat, &mut other);
        (
            BinRole {
                class: low,
                badge: seat.into_badge(),
            },
            BinRole {
                class: high,
                badge: other,
            },
        )
    }
}
