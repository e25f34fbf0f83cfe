//! One client hands its finding to another: client 0 puts what it found into the map and sends its
//! moment in a letter, and client 1, which waits for the letter and learns of the moment, gets what
//! client 0 put.
ghost use Rattle.std.specs.Prelude.{◌≡◌};

use anyhow::Result;
use crossbeam_channel::{Receiver, Sender, bounded};
use facingberyl::{About, Client, Fault, Letter, Loan, NoFunction, Team, Work};
use std::alloc::Global;
use std::marker::Brand;
use std::sync::Wait;
use std::thread::Threads;

/// A moment on its way.
type Mail<B> = Letter<u64, u64, NoFunction, B>;

/// Client 0 looks for the least number whose square is above a million, puts it at 1 and tells of
/// it. Client 1 hears of it and answers the value at 1.
#[derive(Drop)]
struct Finding<'a, B: About<u64, u64, NoFunction>> {
    told: &'a Sender<Mail<B>, Global>,
    heard: &'a Receiver<Mail<B>, Global>,
}

impl<B: About<u64, u64, NoFunction>> Work<u64, u64, NoFunction, Global> for Finding<'_, B> {
    ghost use Rattle.std.specs.Prelude.{◌≡◌};

    type Out = Result<Option<u64>, Fault>;

    ghost fits = { λ _ ledger. (B.ledger ≡ ledger.id) × ((seen : _) → B.told seen) };

    fn work<L: Loan, R: Wait>(
        &self,
        rt: &R,
        client: &mut Client<'_, L, u64, u64, NoFunction, Global>,
    ) -> Result<Option<u64>, Fault> {
        if client.number() == 0 {
            let found = (1..2_000u64).find(|n| n.saturating_mul(*n) > 1_000_000);
            let put = client.put(rt, 1, found.unwrap_or(0));
            drop(self.told.send(rt, Letter::new(client.moment())));
            return put;
        }
        if let Ok(letter) = self.heard.recv(rt) {
            client.learn(&mut letter.open());
        }
        client.get(rt, &1)
    }
}

/// What each of two clients answers: client 0 what was at 1 before, client 1 what it got there.
fn find<B: About<u64, u64, NoFunction> + Send + Sync, R: Threads + Wait + Sync>(
    rt: &R,
    alloc: Global,
    team: &mut Team<u64, u64, NoFunction, Global>,
) -> Result<Vec<Result<Option<u64>, Fault>>>
    requires ledger { B.ledger ≡ team.old.map.ledger.id }
    requires told { (seen : _) → B.told seen }
{
    let (told, heard) = bounded::<Mail<B>, Global>(alloc, 1)?;
    Ok(team.work(
        rt,
        &Finding {
            told: &told,
            heard: &heard,
        },
    )?)
}

pub(crate) fn run<R: Threads + Wait + Print + Sync>(rt: &R, alloc: Global) -> Result<()> {
    let mut team = Team::new(alloc, 16, 2)?;
    let answers = find::<Brand, _>(rt, alloc, &mut team)?;
    drop(team);
    for answer in answers {
        match answer? {
            Some(value) => println!(rt; "{value}")?,
            None => println!(rt; "nothing")?,
        }
    }
    Ok(())
}
