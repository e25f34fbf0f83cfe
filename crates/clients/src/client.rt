//! A client at work.
ghost use Rattle.std.specs.Prelude.{◌≡◌, ◌≤◌, length, IfSome, IfNone, IsSome};
ghost use Rattle.bin_history.specs.Ops.{call_on, key_in};
ghost use Rattle.bin_history.specs.Sure.{op_of};
ghost use Rattle.chm.specs.Headline.{IsAnswered};
ghost use Rattle.chm.specs.Sure.{IsSureOf};
ghost use Rattle.count_ledger.specs.Limits.{most_calls};

use crate::holder::{Holder, Seat};
use crate::work::{LentWork, Work};
use bin_history::{Call, KeyArg, Op, Remap, Reply, Value};
use chm::{Fault, Map, Sharing};
use hashkeys::HashKey;
use std::alloc::Allocator;
use std::marker::{Model, PhantomData};
use std::sync::Wait;

/// A map and a pass of it, by which a client makes calls: lent to it (`Client`), or owned
/// (`OwnedClient`). That they belong together is known of each client, so no call needs to be
/// told. Dropped, it gives back what it owns; that takes no memory and waits for nobody.
pub struct ClientOf<H: Holder<K, V, F, A>, K: HashKey, V: Value, F: Remap<K, V>, A: Allocator> {
    pub(crate) holder: H,
    pub(crate) seat: H::Seat,
    pub(crate) of: PhantomData<(K, V, F, A)>,
}

impl<H: Holder<K, V, F, A>, K: HashKey, V: Value, F: Remap<K, V>, A: Allocator> Model
    for ClientOf<H, K, V, F, A> {
    ghost use Rattle.clients.specs.Clients.{ClientView};

    ghost Value = { ClientView K V F };

    ghost view = { λ c. record { map = H.map_of c.holder; pass = H.Seat.pass_of c.seat } };

    ghost invariant = { λ c. H.fits c.holder c.seat };
}

impl<H: Holder<K, V, F, A>, K: HashKey, V: Value, F: Remap<K, V>, A: Allocator> Drop
    for ClientOf<H, K, V, F, A> {
    fn drop(self) {
        let ClientOf {
            holder,
            seat,
            of: _,
        } = self;
        holder.end(seat);
    }
}

impl<H: Holder<K, V, F, A>, K: HashKey, V: Value, F: Remap<K, V>, A: Allocator> ClientOf<
    H,
    K,
    V,
    F,
    A,
> {
    /// Returns the client of a holder and a seat. It takes constant time, and allocates nothing.
    pub fn of(holder: H, seat: H::Seat) -> ClientOf<H, K, V, F, A>
        requires { H.fits holder seat }
        ensures map { result.map ≡ H.map_of holder }
        ensures pass { result.pass ≡ H.Seat.pass_of seat }
    {
        ClientOf {
            holder,
            seat,
            of: PhantomData,
        }
    }

    /// The holder and the seat.
    pub(crate) fn into_parts(self) -> (H, H::Seat)
        ensures fits { H.fits result.0 result.1 }
        ensures map { H.map_of result.0 ≡ self.map }
        ensures pass { H.Seat.pass_of result.1 ≡ self.pass }
    {
        let ClientOf {
            holder,
            seat,
            of: _,
        } = self;
        (holder, seat)
    }

    /// Shows the holder and the seat.
    pub(crate) fn held(&self) -> (&H, &H::Seat)
        ensures fits { H.fits result.0.now result.1.now }
        ensures map { H.map_of result.0.now ≡ self.now.map }
        ensures pass { H.Seat.pass_of result.1.now ≡ self.now.pass }
    {
        (&self.holder, &self.seat)
    }

    /// Returns the map, which shows what needs no pass.
    pub fn map(&self) -> &Map<K, V, F, A>
        ensures { result.now ≡ self.now.map }
    {
        self.holder.map()
    }

    /// Returns the client's number: 0 for the first of a team, or the first that was taken from a
    /// shared map, and so on.
    ///
    ///     assert_eq!(client.number(), 0);
    pub fn number(&self) -> usize
        ensures { result ≡ self.now.pass.client }
    {
        self.seat.pass().client() as usize
    }

    /// Lets the client work, here and now: the work is lent the map and the pass, by which it makes
    /// typed calls, as the work of a team does. Returns what the work returns. By itself it waits
    /// for nobody and allocates nothing.
    ///
    /// Where the work adds 5 at the client's number and gets the sum:
    ///
    ///     assert_eq!(client.work(rt, &AddFive)?, Some(5));
    pub fn work<R: Wait, W: Work<K, V, F, A>>(&mut self, rt: &R, work: &W) -> W::Out
        requires { W.fits work.now self.old.map.ledger }
        ensures done { W.does work.now self.old.pass self.new.pass result }
        ensures map { self.new.map ≡ self.old.map }
    {
        let lent = LentWork { work };
        lent.work(rt, self.holder.map(), self.seat.pass_mut())
    }
}

impl<H: Holder<K, V, F, A>, K: HashKey, V: Value, F: Remap<K, V>, A: Allocator + Clone> ClientOf<
    H,
    K,
    V,
    F,
    A,
> {
    /// Makes a call, and returns its reply, a value or a truth. It locks the key's bucket, for
    /// which it waits, and takes time linear in the keys of the bucket. It allocates where an entry
    /// is made or copied.
    ///
    ///     client.call(rt, Call::Put(1, 5))?;
    ///     assert_eq!(client.call(rt, Call::Get(1))?, Reply::Value(Some(5)));
    ///
    /// # Errors
    ///
    /// `PassFull` where the client has made all the calls that it may, and `NoMemory`. Nothing is
    /// changed then.
    pub fn call<R: Wait>(&mut self, rt: &R, call: Call<K, V, F>) -> Result<Reply<V>, Fault>
        ensures answered { IsAnswered K.eq V.eq F.remapped F.merged self.old.map.ledger
            call self.old.pass self.new.pass result }
        ensures sure { IsSureOf V.is_infallible self.old.map.ledger.form (op_of call) result }
        ensures map { self.new.map ≡ self.old.map }
    {
        self.holder.map().call(rt, self.seat.pass_mut(), call)
    }

    /// Makes a call, unless the key's bucket is locked just then: then it returns none, and no call
    /// was made. It waits for nobody, and allocates where an entry is made or copied.
    ///
    ///     assert_eq!(client.try_call(KeyArg::Owned(1), Op::Put(5)), Some(Ok(Reply::Value(None))));
    ///
    /// # Errors
    ///
    /// `PassFull` where the client has made all the calls that it may, and `NoMemory`. Nothing is
    /// changed then.
    pub fn try_call(&mut self, key: KeyArg<'_, K>, op: Op<V, F>) -> Option<Result<Reply<V>, Fault>>
        ensures answered { IfSome result
            (IsAnswered K.eq V.eq F.remapped F.merged self.old.map.ledger
            (call_on (key_in key.entry) op) self.old.pass self.new.pass) }
        ensures sure { IfSome result (IsSureOf V.is_infallible self.old.map.ledger.form op) }
        ensures full { most_calls self.old.map.ledger.form self.old.map.ledger.clients
            ≤ length self.old.pass.made → IsSome result }
        ensures busy { IfNone result (self.new.pass ≡ self.old.pass) }
        ensures map { self.new.map ≡ self.old.map }
    {
        self.holder.map().try_call(self.seat.pass_mut(), key, op)
    }
}
