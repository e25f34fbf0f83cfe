//! A map with the passes of all its clients.
ghost use Rattle.std.specs.Prelude.{◌≡◌, ◌≢◌, ◌≤◌, ◌<◌, ◌⊎◌, ℕ, length, All, IfOk, IfErr, IfSome, OnErr};
ghost use Rattle.std.specs.Prelude.{None, IsSomeAnd, slice_index_or};
ghost use Rattle.bin_history.specs.Calls.{after};
ghost use Rattle.count_ledger.specs.Fronts.{BeginsWith, HasSeen};
ghost use Rattle.count_ledger.specs.Views.{PassView};
ghost use Rattle.bin_history.specs.declared.form.Form.TheVariants.{Lean};
ghost use Rattle.chm.specs.Limits.{most_pairs};
ghost use Rattle.chm.specs.Opened.{IsLimited, IsNew};
ghost use Rattle.chm.specs.Headline.{entries_of};
ghost use Rattle.chm.specs.Refusals.{IsCapacityOf};
ghost use Rattle.chm.specs.Reopened.{IsReopened};
ghost use Rattle.clients.specs.Teams.{AreInOrder, HaveWorkedTogether, most_team_clients};

use crate::work::{LentWork, Work};
use bin_history::{Remap, Value};
use chm::{Fault, MOST_CLIENTS, Map, Moment, NotClosed, Opened, Pass, Quiet, retire_all};
use hashkeys::{HashKey, Salt};
use std::alloc::{AllocError, Allocator};
use std::marker::Model;
use std::sync::Wait;
use std::thread::Threads;

/// A map with the passes of all its clients, which it lends to threads. Dropped, it ends the passes
/// with the map.
pub struct Team<K: HashKey, V: Value, F: Remap<K, V>, A: Allocator> {
    map: Map<K, V, F, A>,
    passes: Vec<Pass<K, V, F>, A>,
}

impl<K: HashKey, V: Value, F: Remap<K, V>, A: Allocator> Model for Team<K, V, F, A> {
    ghost use Rattle.clients.specs.Teams.{TeamView, IsTeam};

    ghost Value = { TeamView K V F };

    ghost view = { λ t. record { map = t.map; passes = t.passes.items } };

    ghost invariant = { λ t. IsTeam t.map t.passes.items };
}

impl<K: HashKey, V: Value, F: Remap<K, V>, A: Allocator> Drop for Team<K, V, F, A> {
    fn drop(self) {
        let Team { map: _, passes } = self;
        retire_all(passes);
    }
}

/// Why a team's map was not closed, and the team as it was. There is none where bins of the map were
/// missing. `?` makes a `Fault` or a program's error of it, and drops the team.
#[derive(Drop)]
pub struct TeamNotClosed<K: HashKey, V: Value, F: Remap<K, V>, A: Allocator> {
    pub fault: Fault,
    pub team: Option<Team<K, V, F, A>>,
}

impl<K: HashKey, V: Value, F: Remap<K, V>, A: Allocator> TeamNotClosed<K, V, F, A> {
    /// Returns why the map was not closed, and drops the team with its map. `?` does the same.
    ///
    ///     team.close().map_err(|refused| refused.give_up())
    pub fn give_up(self) -> Fault
        ensures { result ≡ self.fault }
    {
        self.fault
    }

    /// The team of a map that was not closed, in one again.
    fn with_team(refused: NotClosed<K, V, F, A>) -> TeamNotClosed<K, V, F, A>
        requires own { IfSome refused.map (λ m. All (λ p. p.ledger ≡ m.ledger.id) refused.passes) }
        requires all { IfSome refused.map (λ m. length refused.passes ≡ m.ledger.clients) }
        requires in_order { AreInOrder refused.passes }
        ensures fault { result.fault ≡ refused.fault }
        ensures some { IfSome refused.map (λ m. IsSomeAnd result.team
            (λ team. (team.map ≡ m) × (team.passes ≡ refused.passes))) }
        ensures none { refused.map ≡ None → result.team ≡ None }
    {
        let NotClosed { fault, map, passes } = refused;
        let team = match map {
            Some(map) => Some(Team { map, passes }),
            None => {
                retire_all(passes);
                None
            }
        };
        TeamNotClosed { fault, team }
    }
}

/// The number of clients that a map is opened for: 0, which no map has, where a team cannot have so
/// many.
fn of_team(clients: u32) -> u32
    ensures some { 1 ≤ result → (result ≡ clients) × (clients ≤ most_team_clients) }
    ensures few { clients ≤ most_team_clients → result ≡ clients }
{
    if clients <= MOST_CLIENTS { clients } else { 0 }
}

impl<K: HashKey, V: Value, F: Remap<K, V>, A: Allocator + Clone> Team<K, V, F, A> {
    /// Opens a map without entries with a team of 1 to 32 clients. The map's table begins with the
    /// least power of two of buckets that is at least the capacity, which is 1 to 2^26. The salt of
    /// its hashes is 0. The map is lean: it stores no records of calls, and a client makes 2^62 of
    /// them divided by the number of clients. `Team::of` takes a map of the other form. It
    /// allocates the table and the passes, and waits for nobody.
    ///
    /// # Errors
    ///
    /// `BadCapacity` where the capacity is not 1 to 2^26, else `BadClients` where there are not 1 to
    /// 32 clients; and `NoMemory`.
    pub fn new(alloc: A, capacity: usize, clients: u32) -> Result<Team<K, V, F, A>, Fault>
        ensures new { IfOk result
            (λ t. IsNew Lean (record { 0 = 0 }) capacity clients t.map t.passes) }
        ensures limits { IsLimited (IsCapacityOf Lean capacity) most_team_clients clients result }
    {
        Team::with_salt(alloc, capacity, clients, Salt(0))
    }

    /// Opens a lean map without entries with a team of 1 to 32 clients, as `new` does, but with
    /// this salt, with which the codes of keys are mixed. It allocates the table and the passes,
    /// and waits for nobody.
    ///
    /// # Errors
    ///
    /// `BadCapacity` where the capacity is not 1 to 2^26, else `BadClients` where there are not 1 to
    /// 32 clients; and `NoMemory`.
    pub fn with_salt(
        alloc: A,
        capacity: usize,
        clients: u32,
        salt: Salt,
    ) -> Result<Team<K, V, F, A>, Fault>
        ensures new { IfOk result (λ t. IsNew Lean salt capacity clients t.map t.passes) }
        ensures limits { IsLimited (IsCapacityOf Lean capacity) most_team_clients clients result }
    {
        match Map::lean(alloc, capacity, of_team(clients), salt) {
            Ok((map, passes)) => Ok(Team { map, passes }),
            Err(fault) => Err(fault),
        }
    }

    /// Opens a map with a closed map's pairs and a team of 1 to 32 clients, as `Quiet::reopen`
    /// does. The closed map stays as it is. It allocates the table, the passes and copies of the
    /// pairs, and waits for nobody.
    ///
    /// # Errors
    ///
    /// `BadCapacity` where the closed map has more than 2^32 - 1 pairs, else `BadClients` where there
    /// are not 1 to 32 clients; and `NoMemory`.
    pub fn reopen(closed: &Quiet<K, V, F, A>, clients: u32) -> Result<Team<K, V, F, A>, Fault>
        ensures new { IfOk result
            (λ t. IsReopened K.eq K.code closed.now closed.now.ledger.salt clients t.map t.passes) }
        ensures limits { IsLimited (length (entries_of closed.now.bins) ≤ most_pairs)
            most_team_clients clients result }
    {
        match closed.reopen(of_team(clients)) {
            Ok((map, passes)) => Ok(Team { map, passes }),
            Err(fault) => Err(fault),
        }
    }

    /// Lets all clients work at the same time, each in a thread of its own. A client whose thread
    /// cannot be started works in a thread that there is, after others, so no client may wait for
    /// another. When all have ended, each learns what all have seen, so that whatever a client does
    /// in the next round of work comes after all that was done in this one. Returns what the
    /// clients returned, client 0's first. It waits for them, allocates a seat and a result for
    /// each, and costs, beside the work, time linear in the number of clients. Where each of four
    /// clients returns its number, the results are 0 to 3, in this order:
    ///
    ///     let first = team.work(rt, &PutTheNumber)?;
    ///
    /// # Errors
    ///
    /// `AllocError`, before any client began.
    pub fn work<R: Threads + Wait + Sync, W: Work<K, V, F, A> + Sync>(
        &mut self,
        rt: &R,
        work: &W,
    ) -> Result<Vec<W::Out, A>, AllocError>
    where
        K: Send + Sync,
        V: Send + Sync,
        F: Send + Sync,
        A: Send + Sync,
        W::Out: Send,
        requires { W.fits work.now self.old.map.ledger }
        ensures map { self.new.map ≡ self.old.map }
        ensures own { All (λ p. p.ledger ≡ self.new.map.ledger.id) self.new.passes }
        ensures len { length self.new.passes ≡ length self.old.passes }
        ensures done { IfOk result
            (λ answers. HaveWorkedTogether K.eq (after V.eq F.remapped F.merged) (W.does work.now)
            self.old.map.ledger self.old.passes self.new.passes answers.items) }
        ensures refused { OnErr result (self.new.passes ≡ self.old.passes) }
    {
        let answers = self.map.share(rt, &mut self.passes, &LentWork { work })?;
        self.map.learn_all(&mut self.passes);
        Ok(answers)
    }

    /// A client learns of a moment, before it works again: the calls that it then makes come after
    /// all calls of the moment. It takes constant time, allocates nothing, and waits for nobody.
    ///
    /// Where client 0 put 5 at 1 before the moment of its letter, client 1 then gets it:
    ///
    ///     team.learn(1, &mut letter.open());
    ///     team.work(rt, &Get)?
    pub fn learn(&mut self, client: usize, moment: &mut Moment<K, V, F>)
        requires client { client < length self.old.passes }
        requires moment { moment.old.ledger ≡ self.old.map.ledger.id }
        ensures seen { (d : PassView K V F) → HasSeen K.eq (after V.eq F.remapped F.merged) self.old.map.ledger
            (slice_index_or self.old.passes client d) (slice_index_or self.new.passes client d) }
        ensures learned { (d : PassView K V F) →
            BeginsWith (slice_index_or self.new.passes client d).seen moment.old.seen }
        ensures others { (i : ℕ) (d : PassView K V F) → i ≢ client
            → slice_index_or self.new.passes i d ≡ slice_index_or self.old.passes i d }
        ensures len { length self.new.passes ≡ length self.old.passes }
        ensures map { self.new.map ≡ self.old.map }
        ensures same { moment.new ≡ moment.old }
    {
        self.map.learn(&mut self.passes[client], moment);
    }

    /// Closes the map, as `Map::close` does. It allocates the lists of the closed map, takes time
    /// linear in the buckets, and waits for nobody.
    ///
    ///     let closed = team.close()?;
    ///
    /// # Errors
    ///
    /// `NoMemory`: the team comes back as it was. `BinMissing`: there is no team then.
    pub fn close(self) -> Result<Quiet<K, V, F, A>, TeamNotClosed<K, V, F, A>>
        ensures ledger { IfOk result (λ q. q.ledger ≡ self.map.ledger) }
        ensures n { IfOk result (λ q. q.n ≡ self.map.n) }
        ensures passes { IfOk result (λ q. q.passes ≡ self.passes) }
        ensures kept { IfErr result
            (λ e. ((e.fault ≡ Fault.BinMissing) × (e.team ≡ None))
            ⊎ ((e.fault ≡ Fault.NoMemory) × IsSomeAnd e.team (λ team. team ≡ self))) }
    {
        let Team { map, passes } = self;
        match map.close(passes) {
            Ok(quiet) => Ok(quiet),
            Err(not_closed) => Err(TeamNotClosed::with_team(not_closed)),
        }
    }
}

impl<K: HashKey, V: Value, F: Remap<K, V>, A: Allocator> Team<K, V, F, A> {
    /// Returns the team of a map, of the passes of all its clients, client 0's first.
    pub fn of(map: Map<K, V, F, A>, passes: Vec<Pass<K, V, F>, A>) -> Team<K, V, F, A>
        requires own { All (λ p. p.ledger ≡ map.ledger.id) passes.items }
        requires all { length passes.items ≡ map.ledger.clients }
        requires in_order { AreInOrder passes.items }
        ensures map { result.map ≡ map }
        ensures passes { result.passes ≡ passes.items }
    {
        Team { map, passes }
    }

    /// Returns the map, which shows what needs no pass.
    pub fn map(&self) -> &Map<K, V, F, A>
        ensures { result.now ≡ self.now.map }
    {
        &self.map
    }

    /// Returns the passes of the clients, client 0's first.
    pub fn passes(&self) -> &[Pass<K, V, F>]
        ensures passes { result.now ≡ self.now.passes }
        ensures in_order { AreInOrder result.now }
    {
        &self.passes
    }

    /// Returns the map and the passes of its clients, client 0's first.
    pub fn into_parts(self) -> Opened<K, V, F, A>
        ensures map { result.0 ≡ self.map }
        ensures passes { result.1.items ≡ self.passes }
        ensures own { All (λ p. p.ledger ≡ self.map.ledger.id) self.passes }
        ensures all { length self.passes ≡ self.map.ledger.clients }
        ensures in_order { AreInOrder self.passes }
    {
        let Team { map, passes } = self;
        (map, passes)
    }
}
