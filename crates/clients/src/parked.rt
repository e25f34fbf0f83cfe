//! A client that works in a thread of its own.
ghost use Rattle.std.specs.Prelude.{◌≡◌, IfOk};

use crate::client::ClientOf;
use crate::owned::{Owned, OwnedClient, OwnedPass};
use crate::work::Work;
use bin_history::{Remap, Value};
use hashkeys::HashKey;
use std::alloc::{AllocError, Allocator};
use std::marker::Model;
use std::snapshot::Snapshot;
use std::sync::Wait;
use std::thread;
use std::thread::{Promise, PromisedHandle, Threads};

/// A client that worked in a thread, and what its work answered.
#[derive(Drop)]
pub struct Worked<K: HashKey, V: Value, F: Remap<K, V>, A: Allocator, T> {
    pub client: OwnedClient<K, V, F, A>,
    pub answer: T,
}

/// What is known of who comes back from a thread: the client is of the map that it was of, and its
/// work did what it does.
#[derive(Drop)]
pub struct Working<K: HashKey, V: Value, F: Remap<K, V>, A: Allocator, W: Work<K, V, F, A>> {
    pub client: Snapshot<OwnedClient<K, V, F, A>>,
    pub work: Snapshot<W>,
}

impl<K: HashKey, V: Value, F: Remap<K, V>, A: Allocator, W: Work<K, V, F, A>> Promise<
    Worked<K, V, F, A, W::Out>,
> for Working<K, V, F, A, W> {
    ghost use Rattle.std.specs.Prelude.{◌≡◌};

    ghost kept_by = { λ p r. (r.client.map ≡ p.client.value.map)
        × W.does p.work.value p.client.value.pass r.client.pass r.answer };
}

/// A client on its way into a thread. Were the thread not started, its pass goes back.
pub(crate) struct Parked<K: HashKey, V: Value, F: Remap<K, V>, A: Allocator> {
    holder: Owned<K, V, F, A>,
    seat: OwnedPass<K, V, F>,
}

impl<K: HashKey, V: Value, F: Remap<K, V>, A: Allocator> Model for Parked<K, V, F, A> {
    ghost use Rattle.std.specs.Prelude.{◌≡◌};
    ghost use Rattle.std.specs.Arc.{arc_value};
    ghost use Rattle.clients.specs.Clients.{ClientView};

    ghost Value = { ClientView K V F };

    ghost view = { λ c. record { map = arc_value c.holder.pass_pool; pass = c.seat.pass } };

    ghost invariant = { λ c. c.seat.pass.ledger ≡ (arc_value c.holder.pass_pool).ledger.id };
}

impl<K: HashKey, V: Value, F: Remap<K, V>, A: Allocator> Drop for Parked<K, V, F, A> {
    fn drop(self) {
        let Parked { holder, seat } = self;
        let Owned { pass_pool } = holder;
        let OwnedPass { pass } = seat;
        pass_pool.put_back(pass);
    }
}

impl<K: HashKey, V: Value, F: Remap<K, V>, A: Allocator> Parked<K, V, F, A> {
    /// The client.
    fn wake(self) -> OwnedClient<K, V, F, A>
        ensures { result ≡ self }
    {
        let Parked { holder, seat } = self;
        ClientOf::of(holder, seat)
    }

    /// Lets the client work, and returns it with what the work returned.
    fn run<R: Wait, W: Work<K, V, F, A>>(self, rt: &R, work: &W) -> Worked<K, V, F, A, W::Out>
        requires { W.fits work.now self.map.ledger }
        ensures map { result.client.map ≡ self.map }
        ensures done { W.does work.now self.pass result.client.pass result.answer }
    {
        let mut client = self.wake();
        let answer = client.work(rt, work);
        Worked { client, answer }
    }
}

/// Starts a thread of its own in which the client works.
fn start_parked<
    K: HashKey + Send + Sync + 'static,
    V: Value + Send + Sync + 'static,
    F: Remap<K, V> + Send + Sync + 'static,
    A: Allocator + Send + Sync + 'static,
    R: Threads + Wait + Copy + Send + 'static,
    W: Work<K, V, F, A> + Send + Drop + 'static,
>(
    parked: Parked<K, V, F, A>,
    working: Working<K, V, F, A, W>,
    rt: &R,
    work: W,
) -> Result<PromisedHandle<Worked<K, V, F, A, W::Out>, Working<K, V, F, A, W>>, AllocError>
where
    W::Out: Send + 'static,
    requires fits { W.fits work parked.map.ledger }
    requires client { working.client.value ≡ parked }
    requires work { working.work.value ≡ work }
    ensures { IfOk result (λ h. h.promise ≡ working) }
{
    let own = *rt;
    let run = move || -> Worked<K, V, F, A, W::Out>
        requires { W.fits work parked.map.ledger }
        ensures map { result.client.map ≡ parked.map }
        ensures done { W.does work parked.pass result.client.pass result.answer }
    { parked.run(&own, &work) };
    match thread::spawn_with(rt, working, run) {
        Ok(handle) => Ok(handle),
        Err(refused) => {
            drop(refused);
            Err(AllocError)
        }
    }
}

impl<
    K: HashKey + Send + Sync + 'static,
    V: Value + Send + Sync + 'static,
    F: Remap<K, V> + Send + Sync + 'static,
    A: Allocator + Send + Sync + 'static,
> ClientOf<Owned<K, V, F, A>, K, V, F, A> {
    /// Starts a thread of its own in which the client works. The client comes back with what the
    /// work returned when the thread is joined. It allocates the thread, and waits for nobody.
    ///
    ///     let Worked { mut client, answer } = first.start(rt, AddFive)?.join(rt);
    ///     second.learn(&mut client.moment());
    ///
    /// # Errors
    ///
    /// `AllocError` if no thread can be started. The client and its work are dropped then, so the
    /// client's pass is back in the shared map.
    pub fn start<
        R: Threads + Wait + Copy + Send + 'static,
        W: Work<K, V, F, A> + Send + Drop + 'static,
    >(
        self,
        rt: &R,
        work: W,
    ) -> Result<PromisedHandle<Worked<K, V, F, A, W::Out>, Working<K, V, F, A, W>>, AllocError>
    where
        W::Out: Send + 'static,
        requires { W.fits work self.map.ledger }
        ensures client { IfOk result (λ h. h.promise.client.value ≡ self) }
        ensures work { IfOk result (λ h. h.promise.work.value ≡ work) }
    {
        let working = Working {
            client: Snapshot::of(&self),
            work: Snapshot::of(&work),
        };
        let (holder, seat) = self.into_parts();
        start_parked(Parked { holder, seat }, working, rt, work)
    }
}
