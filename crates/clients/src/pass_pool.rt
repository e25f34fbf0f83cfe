//! What a shared map and its clients have together: the map, a pass slot for the pass of each client
//! that was taken, and the roster of the others.
ghost use Rattle.std.specs.Prelude.{◌≡◌, ◌+◌, ◌/◌, ◌%◌, ◌^◌, ◌≤◌, ◌<◌, ◌⊎◌, ◌∷◌, [], All, IfSome, IfOk, IfErr, length};
ghost use Rattle.bin_history.specs.Limits.{most_lean_clients};
ghost use Rattle.count_ledger.specs.Names.{numbers_of};
ghost use Rattle.clients.specs.Teams.{AreInOrder};

use crate::pass_slot::{Made, PassSlot, Row, new_rows, row_of, with_number};
use crate::slot::Slot;
use bin_history::{Remap, Value};
use boxcar::tag::{Names, Tag};
use chm::{Fault, MOST_LEAN_CLIENTS, Map, Pass, Roster};
use hashkeys::HashKey;
use std::alloc::{AllocError, Allocator};
use std::hint::spin_loop;
use std::marker::Model;
use std::sync::atomic::{AtomicU64, Ordering};

/// How often a step that another thread got ahead of is tried.
const MOST_TRIES: u32 = 1_000;

/// The word of the free pass slots has the number of the top one in its low half, and in its high half
/// how often it was changed.
const HALF: u64 = 4_294_967_296;

/// The number in the low half of the word.
fn number_in(word: u64) -> u32
    ensures { result ≡ word % 2 ^ 32 }
{
    (word % HALF) as u32
}

/// The word that stands for this number after the other: its high half has turned, so a thread that
/// looked at the other word finds that it was changed, even where the same pass slot is the top one again.
fn turned(word: u64, number: u32) -> u64
    ensures number { result % 2 ^ 32 ≡ number }
    ensures turned { result / 2 ^ 32 ≡ (word / 2 ^ 32 + 1) % 2 ^ 32 }
{
    (word / HALF + 1) % HALF * HALF + number as u64
}

/// A map, a pass slot for the pass of each client that was taken, and the roster of the others.
/// The pass slots whose pass is in form a stack: 0 stands for its end, and n + 1 for client n's pass slot.
/// Those whose pass came back full are not in it, and are counted.
#[derive(Drop)]
pub(crate) struct PassPool<K: HashKey, V: Value, F: Remap<K, V>, A: Allocator> {
    map: Map<K, V, F, A>,
    roster: Slot<Roster<K, V, F>>,
    rows: Vec<Row<K, V, F, A>, A>,
    free: AtomicU64,
    full: AtomicU64,
}

impl<K: HashKey, V: Value, F: Remap<K, V>, A: Allocator> Model for PassPool<K, V, F, A> {
    ghost use Rattle.chm.specs.Views.{MapView};
    ghost use Rattle.clients.specs.PassPools.{IsPassPool};

    ghost Value = { MapView K V };

    ghost view = { λ d. d.map };

    ghost invariant = { λ d. IsPassPool d.map d.roster d.rows.items };
}

/// A map's ledger, as numbers.
struct OfMap;

impl<K: HashKey, V: Value, F: Remap<K, V>, A: Allocator> Names<Map<K, V, F, A>> for OfMap {
    ghost use Rattle.count_ledger.specs.Names.{numbers_of};

    ghost numbers = { λ m. numbers_of m.ledger.id };
}

impl<K: HashKey, V: Value, F: Remap<K, V>, A: Allocator> PassPool<K, V, F, A> {
    /// The map.
    pub(crate) fn map(&self) -> &Map<K, V, F, A>
        ensures { result.now ≡ self.now }
    {
        &self.map
    }

    /// The map without its pass slots and its roster. Passes that are in end.
    pub(crate) fn into_map(self) -> Map<K, V, F, A>
        ensures { result ≡ self }
    {
        let PassPool {
            map,
            roster: _,
            rows: _,
            free: _,
            full: _,
        } = self;
        map
    }

    /// The allocator of the pass pool.
    pub(crate) fn allocator(&self) -> &A {
        self.rows.allocator()
    }

    /// The row that has the client's pass slot.
    fn row(&self, client: u32) -> &Row<K, V, F, A>
        requires { client < most_lean_clients }
        ensures first { result.now.first ≤ client }
        ensures last { client < result.now.first + result.now.len }
        ensures ledger { result.now.ledger ≡ numbers_of self.now.ledger.id }
    {
        &self.rows[row_of(client)]
    }

    /// The client's pass slot, if its row is made.
    fn pass_slot(&self, client: u32) -> Option<&PassSlot<K, V, F>>
        ensures { IfSome result (λ c. c.now ≡ client ∷ numbers_of self.now.ledger.id) }
    {
        if client >= MOST_LEAN_CLIENTS {
            return None;
        }
        let row = self.row(client);
        let made = row.made()?;
        Some(row.pass_slot(client, &made))
    }

    /// Whether the passes of all clients that the map may have came back full, so that none is ever free.
    pub(crate) fn are_all_full(&self) -> bool {
        self.full.load(Ordering::SeqCst) >= u64::from(self.map.clients())
    }

    /// Puts the client's pass slot on top of those whose pass is in, unless it is among them: one whose
    /// pass was taken by a close that failed still is. A pass slot that others got ahead of each time stays
    /// where it is, with its pass, until its client's pass comes back again or the map is closed.
    fn set_free(&self, pass_slot: &PassSlot<K, V, F>, client: u32)
        requires { client < most_lean_clients }
    {
        if !pass_slot.claim() {
            return;
        }
        for _try in 0..MOST_TRIES {
            let word = self.free.load(Ordering::SeqCst);
            pass_slot.set_below(word % HALF);
            let new = turned(word, client + 1);
            if self
                .free
                .compare_exchange(word, new, Ordering::SeqCst, Ordering::SeqCst)
                .is_ok()
            {
                return;
            }
        }
        pass_slot.leave();
    }

    /// The pass of the topmost pass slot that has one, which is then out. A pass slot whose pass another thread
    /// took for a close is passed over, and leaves the stack. It waits for nobody.
    fn take_free(&self) -> Option<Pass<K, V, F>>
        ensures { IfSome result (λ p. p.ledger ≡ self.now.ledger.id) }
    {
        for _try in 0..MOST_TRIES {
            let word = self.free.load(Ordering::SeqCst);
            let client = number_in(word).checked_sub(1)?;
            let pass_slot = self.pass_slot(client)?;
            let new = turned(word, number_in(pass_slot.below()));
            if self
                .free
                .compare_exchange(word, new, Ordering::SeqCst, Ordering::SeqCst)
                .is_ok()
            {
                pass_slot.leave();
                if let Some(pass) = pass_slot.take() {
                    return Some(pass);
                }
            }
        }
        None
    }

    /// Brings a pass back to its client's pass slot. One that has made all the calls that it may is not
    /// taken again, and is counted once. It takes no memory and waits for nobody.
    pub(crate) fn put_back(&self, pass: Pass<K, V, F>)
        requires { pass.ledger ≡ self.now.ledger.id }
    {
        let client = pass.client();
        let is_full = pass.made() >= self.map.most_calls();
        let row = self.row(client);
        let Some(made) = row.made() else {
            // (the row was made before the pass was taken)
            pass.retire();
            return;
        };
        let pass_slot = row.pass_slot(client, &made);
        pass_slot.put_back(pass);
        // A full pass is never taken again, so it stays out of the stack.
        if !is_full {
            self.set_free(pass_slot, client);
        } else if pass_slot.fill() {
            self.full.fetch_add(1, Ordering::SeqCst);
        }
    }

    /// The roster, which is then out. It waits for nobody: where others have it out each time, there
    /// is none.
    fn take_roster(&self) -> Option<Roster<K, V, F>>
        ensures ledger { IfSome result (λ r. r.ledger ≡ self.now.ledger.id) }
        ensures clients { IfSome result (λ r. r.clients ≡ self.now.ledger.clients) }
    {
        for _try in 0..MOST_TRIES {
            if let Some(roster) = self.roster.take() {
                return Some(roster);
            }
            spin_loop();
        }
        None
    }

    /// Takes the passes, pass slot by pass slot, until one is out, or there is no room.
    fn take_into(&self, taken: u32, passes: &mut Vec<Pass<K, V, F>, A>)
        requires none { passes.old.items ≡ [] }
        ensures own { All (λ p. p.ledger ≡ self.now.ledger.id) passes.new.items }
        ensures in_order { AreInOrder passes.new.items }
    {
        for client in 0..taken {
            if passes.len() >= passes.capacity() {
                return;
            }
            let Some(pass_slot) = self.pass_slot(client) else {
                return;
            };
            let Some(pass) = pass_slot.take() else {
                return;
            };
            passes.push_reserved(pass);
        }
    }
}

impl<K: HashKey, V: Value, F: Remap<K, V>, A: Allocator + Clone> PassPool<K, V, F, A> {
    /// A map whose passes nobody has taken.
    ///
    /// # Errors
    ///
    /// `NoMemory`.
    pub(crate) fn new(
        map: Map<K, V, F, A>,
        roster: Roster<K, V, F>,
        alloc: A,
    ) -> Result<PassPool<K, V, F, A>, Fault>
        requires ledger { roster.ledger ≡ map.ledger.id }
        requires clients { roster.clients ≡ map.ledger.clients }
        ensures pass_pool { IfOk result (λ d. d ≡ map) }
        ensures faults { IfErr result (λ fault. fault ≡ Fault.NoMemory) }
    {
        let tag = Tag::of::<Map<K, V, F, A>, OfMap>(&map);
        let rows = new_rows(alloc, &tag)?;
        let place = Slot::new(&with_number(map.clients(), &tag));
        place.put_back(roster);
        Ok(PassPool {
            map,
            roster: place,
            rows,
            free: AtomicU64::new(0),
            full: AtomicU64::new(0),
        })
    }

    /// Makes the row of the client's pass slot, unless it is there, and returns what shows that it is.
    fn lay(&self, client: u32) -> Result<Made<K, V, F, A>, AllocError>
        requires { client < most_lean_clients }
    {
        let tag = Tag::of::<Map<K, V, F, A>, OfMap>(&self.map);
        self.row(client).lay(self.rows.allocator().clone()?, &tag)
    }

    /// The first pass of the roster, for which there is a pass slot then. The roster is in again.
    fn join(&self, mut roster: Roster<K, V, F>) -> Result<Pass<K, V, F>, Fault>
        requires ledger { roster.ledger ≡ self.now.ledger.id }
        requires clients { roster.clients ≡ self.now.ledger.clients }
        ensures pass { IfOk result (λ p. p.ledger ≡ self.now.ledger.id) }
        ensures faults { IfErr result
            (λ fault. (fault ≡ Fault.NoMemory) ⊎ (fault ≡ Fault.NoClient)) }
    {
        let client = roster.taken();
        let joined = if client < self.map.clients() {
            match self.lay(client) {
                Ok(_made) => self.map.join(&mut roster).ok_or(Fault::NoClient),
                Err(error) => Err(error.into()),
            }
        } else {
            Err(Fault::NoClient)
        };
        self.roster.put_back(roster);
        joined
    }

    /// A pass that is in, or else the first of the roster. It waits for nobody.
    ///
    /// # Errors
    ///
    /// `NoClient` where none is in, and the roster has none or is out; and `NoMemory` for a pass slot.
    pub(crate) fn take(&self) -> Result<Pass<K, V, F>, Fault>
        ensures pass { IfOk result (λ p. p.ledger ≡ self.now.ledger.id) }
        ensures faults { IfErr result
            (λ fault. (fault ≡ Fault.NoMemory) ⊎ (fault ≡ Fault.NoClient)) }
    {
        if let Some(pass) = self.take_free() {
            return Ok(pass);
        }
        match self.take_roster() {
            Some(roster) => self.join(roster),
            None => Err(Fault::NoClient),
        }
    }
}

/// The roster of a map and the passes that were taken from it, in order.
pub(crate) type Gathered<K, V, F, A> = (Roster<K, V, F>, Vec<Pass<K, V, F>, A>);

impl<K: HashKey, V: Value, F: Remap<K, V>, A: Allocator + Clone> PassPool<K, V, F, A> {
    /// The roster, and all passes that were taken from it, where all are in. It waits for nobody.
    ///
    /// # Errors
    ///
    /// `PassMissing` where a pass or the roster is out, and `NoMemory`. All is in again then.
    pub(crate) fn take_all(&self) -> Result<Gathered<K, V, F, A>, Fault>
        ensures own { IfOk result (λ r. All (λ p. p.ledger ≡ self.now.ledger.id) r.1.items) }
        ensures in_order { IfOk result (λ r. AreInOrder r.1.items) }
        ensures taken { IfOk result (λ r. length r.1.items ≡ r.0.next) }
        ensures ledger { IfOk result (λ r. r.0.ledger ≡ self.now.ledger.id) }
        ensures clients { IfOk result (λ r. r.0.clients ≡ self.now.ledger.clients) }
        ensures faults { IfErr result
            (λ fault. (fault ≡ Fault.NoMemory) ⊎ (fault ≡ Fault.PassMissing)) }
    {
        let Some(roster) = self.take_roster() else {
            return Err(Fault::PassMissing);
        };
        let taken = roster.taken();
        match self.room_for(taken as usize) {
            Ok(mut passes) => {
                self.take_into(taken, &mut passes);
                if passes.len() == taken as usize {
                    return Ok((roster, passes));
                }
                self.bring_all(roster, passes);
                Err(Fault::PassMissing)
            }
            Err(error) => {
                self.roster.put_back(roster);
                Err(error.into())
            }
        }
    }

    /// No passes, and room for so many.
    fn room_for(&self, taken: usize) -> Result<Vec<Pass<K, V, F>, A>, AllocError>
        ensures { IfOk result (λ passes. passes.items ≡ []) }
    {
        Vec::with_capacity(self.allocator().clone()?, taken)
    }

    /// Brings the roster and the passes back.
    pub(crate) fn bring_all(&self, roster: Roster<K, V, F>, mut passes: Vec<Pass<K, V, F>, A>)
        requires own { All (λ p. p.ledger ≡ self.now.ledger.id) passes.items }
        requires ledger { roster.ledger ≡ self.now.ledger.id }
        requires clients { roster.clients ≡ self.now.ledger.clients }
    {
        while let Some(pass) = passes.pop() {
            self.put_back(pass);
        }
        passes.destroy_empty();
        self.roster.put_back(roster);
    }
}
