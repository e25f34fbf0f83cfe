//! One client puts and answers its moment, and another that learned of it gets.
ghost use Rattle.std.specs.Prelude.{◌≡◌, ◌<◌, length};

use crate::asserts::assert_same;
use clients::{About, Add, Client, Fault, Letter, Loan, Team, Work};
use std::alloc::Global;
use std::marker::{Brand, PhantomData};
use std::sync::Wait;
use std::thread::Threads;

/// Client 0 puts 5 at 1. Each client answers its moment.
#[derive(Drop)]
struct PutAndTell<B: About<u64, u64, Add>> {
    about: PhantomData<B>,
}

impl<B: About<u64, u64, Add>> Work<u64, u64, Add, Global> for PutAndTell<B> {
    ghost use Rattle.std.specs.Prelude.{◌≡◌};

    type Out = Result<Letter<u64, u64, Add, B>, Fault>;

    ghost fits = { λ _ ledger. (B.ledger ≡ ledger.id) × ((seen : _) → B.told seen) };

    fn work<L: Loan, R: Wait>(
        &self,
        rt: &R,
        client: &mut Client<'_, L, u64, u64, Add, Global>,
    ) -> Result<Letter<u64, u64, Add, B>, Fault> {
        if client.number() == 0 {
            client.put(rt, 1, 5)?;
        }
        Ok(Letter::new(client.moment()))
    }
}

/// Each client gets the value at 1.
#[derive(Clone, Copy)]
struct Get;

impl Work<u64, u64, Add, Global> for Get {
    type Out = Result<Option<u64>, Fault>;

    fn work<L: Loan, R: Wait>(
        &self,
        rt: &R,
        client: &mut Client<'_, L, u64, u64, Add, Global>,
    ) -> Result<Option<u64>, Fault> {
        client.get(rt, &1)
    }
}

/// What the clients get after client 1 learned of what client 0 put.
fn tell<B: About<u64, u64, Add> + Send + Sync, R: Threads + Wait + Sync>(
    rt: &R,
    team: &mut Team<u64, u64, Add, Global>,
) -> Result<Vec<Result<Option<u64>, Fault>>, Fault>
    requires two { 1 < length team.old.passes }
    requires ledger { B.ledger ≡ team.old.map.ledger.id }
    requires told { (seen : _) → B.told seen }
{
    let mut letters = team.work(
        rt,
        &PutAndTell {
            about: PhantomData::<B>,
        },
    )?;
    let letter = letters.remove(0)?;
    team.learn(1, &mut letter.open());
    Ok(team.work(rt, &Get)?)
}

/// Client 0 puts and answers its moment; client 1 learns of it, and gets what client 0 put.
#[test]
fn a_client_gets_what_another_told_it_of(rt: HostRuntime) {
    let mut team = Team::new(rt.alloc(), 1, 2).expect(&rt, "no fault");
    let answers = tell::<Brand, _>(&rt, &mut team).expect(&rt, "no fault");
    drop(team);
    assert_same(
        &rt,
        &answers.as_slice(),
        &[Ok(Some(5)), Ok(Some(5))].as_slice(),
    );
}
