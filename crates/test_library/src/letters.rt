//! Moments that one client hands to another in letters, through a channel and under a lock.
ghost use Rattle.std.specs.Prelude.{◌≡◌};
ghost use Rattle.count_ledger.specs.Fronts.{BeginsWith};

use crate::asserts::assert_same;
use clients::{About, Add, Client, Fault, Letter, Loan, Moment, Team, Work};
use crossbeam_channel::{Receiver, Sender, bounded};
use std::alloc::{AllocError, Global};
use std::marker::Brand;
use std::sync::{Mutex, Wait};
use std::thread::Threads;

/// How many keys are told of.
const MOST: u64 = 10_000;

/// A client of these tests.
type Numbers<'a, L> = Client<'a, L, u64, u64, Add, Global>;

/// A letter on its way, or none where there will be no more.
type Message<B> = Option<Letter<u64, u64, Add, B>>;

/// Client 0 puts each number at itself and tells of it; client 1 hears of it and gets the number.
#[derive(Drop)]
struct Telling<'a, B: About<u64, u64, Add>> {
    told: &'a Sender<Message<B>, Global>,
    heard: &'a Receiver<Message<B>, Global>,
}

/// Puts each number at itself, and sends a letter after each. A refused put ends the letters.
fn tell_all<B: About<u64, u64, Add>, L: Loan, R: Wait>(
    rt: &R,
    client: &mut Numbers<'_, L>,
    told: &Sender<Message<B>, Global>,
) -> Result<u64, Fault>
    requires ledger { B.ledger ≡ client.old.map.ledger.id }
    requires told { (seen : _) → B.told seen }
{
    for number in 0..MOST {
        if let Err(fault) = client.put(rt, number, number) {
            drop(told.send(rt, None));
            return Err(fault);
        }
        drop(told.send(rt, Some(Letter::new(client.moment()))));
    }
    Ok(MOST)
}

/// Learns of a moment, as its contract says: no get tells whether a client has learned of the calls
/// before it.
fn learn_of<L: Loan>(client: &mut Numbers<'_, L>, moment: &mut Moment<u64, u64, Add>)
    requires { moment.old.ledger ≡ client.old.map.ledger.id }
    ensures learned { BeginsWith client.new.pass.seen moment.old.seen }
    ensures map { client.new.map ≡ client.old.map }
{
    client.learn(moment);
}

/// Hears of each number, and counts those that it then gets.
fn hear_all<B: About<u64, u64, Add>, L: Loan, R: Wait>(
    rt: &R,
    client: &mut Numbers<'_, L>,
    heard: &Receiver<Message<B>, Global>,
) -> Result<u64, Fault>
    requires ledger { B.ledger ≡ client.old.map.ledger.id }
{
    let mut found = 0u64;
    for number in 0..MOST {
        let Ok(Some(letter)) = heard.recv(rt) else {
            return Ok(found);
        };
        learn_of(client, &mut letter.open());
        if client.get(rt, &number)? == Some(number) {
            found = found.saturating_add(1);
        }
    }
    Ok(found)
}

impl<B: About<u64, u64, Add>> Work<u64, u64, Add, Global> for Telling<'_, B> {
    ghost use Rattle.std.specs.Prelude.{◌≡◌};

    type Out = Result<u64, Fault>;

    ghost fits = { λ _ ledger. (B.ledger ≡ ledger.id) × ((seen : _) → B.told seen) };

    fn work<L: Loan, R: Wait>(&self, rt: &R, client: &mut Numbers<'_, L>) -> Result<u64, Fault> {
        if client.number() == 0 {
            tell_all(rt, client, self.told)
        } else {
            hear_all(rt, client, self.heard)
        }
    }
}

/// How many numbers client 0 told of, and how many client 1 found.
fn tell<B: About<u64, u64, Add> + Send + Sync, R: Threads + Wait + Sync>(
    rt: &R,
    alloc: Global,
    team: &mut Team<u64, u64, Add, Global>,
) -> Result<Vec<Result<u64, Fault>>, AllocError>
    requires ledger { B.ledger ≡ team.old.map.ledger.id }
    requires told { (seen : _) → B.told seen }
{
    let (told, heard) = bounded::<Message<B>, Global>(alloc, MOST as usize)?;
    team.work(
        rt,
        &Telling {
            told: &told,
            heard: &heard,
        },
    )
}

/// One client puts ten thousand keys into a map that grows, and tells of each by a channel; the
/// other finds each key that it hears of.
#[test]
fn a_client_finds_each_key_that_it_hears_of(rt: HostRuntime) {
    let mut team = Team::new(rt.alloc(), 1, 2).expect(&rt, "no fault");
    let answers = tell::<Brand, _>(&rt, rt.alloc(), &mut team).expect(&rt, "no fault");
    drop(team);
    assert_same(
        &rt,
        &answers.as_slice(),
        &[Ok(10_000), Ok(10_000)].as_slice(),
    );
}

/// Client 0 puts 5 at 1 and leaves a letter, or else client 1 takes it and gets the value at 1.
#[derive(Drop)]
struct Mailing<'a, B: About<u64, u64, Add>> {
    leaving: bool,
    slot: &'a Mutex<Message<B>>,
}

impl<B: About<u64, u64, Add>> Work<u64, u64, Add, Global> for Mailing<'_, B> {
    ghost use Rattle.std.specs.Prelude.{◌≡◌};

    type Out = Result<Option<u64>, Fault>;

    ghost fits = { λ _ ledger. (B.ledger ≡ ledger.id) × ((seen : _) → B.told seen) };

    fn work<L: Loan, R: Wait>(
        &self,
        rt: &R,
        client: &mut Numbers<'_, L>,
    ) -> Result<Option<u64>, Fault> {
        if self.leaving {
            if client.number() == 0 {
                client.put(rt, 1, 5)?;
                let letter = Letter::new(client.moment());
                *self.slot.lock(rt) = Some(letter);
            }
            return Ok(None);
        }
        if client.number() == 1 {
            let letter = self.slot.lock(rt).take();
            if let Some(letter) = letter {
                client.learn(&mut letter.open());
                return client.get(rt, &1);
            }
        }
        Ok(None)
    }
}

/// What the clients answer who take the letter that was left before.
fn mail<B: About<u64, u64, Add> + Send + Sync, R: Threads + Wait + Sync>(
    rt: &R,
    team: &mut Team<u64, u64, Add, Global>,
) -> Result<Vec<Result<Option<u64>, Fault>>, AllocError>
    requires ledger { B.ledger ≡ team.old.map.ledger.id }
    requires told { (seen : _) → B.told seen }
{
    let slot: Mutex<Message<B>> = Mutex::new(None);
    team.work(
        rt,
        &Mailing {
            leaving: true,
            slot: &slot,
        },
    )?;
    team.work(
        rt,
        &Mailing {
            leaving: false,
            slot: &slot,
        },
    )
}

/// A letter that was left under a lock tells who takes it of the put before it.
#[test]
fn a_letter_is_left_under_a_lock(rt: HostRuntime) {
    let mut team = Team::new(rt.alloc(), 1, 2).expect(&rt, "no fault");
    let answers = mail::<Brand, _>(&rt, &mut team).expect(&rt, "no fault");
    drop(team);
    assert_same(
        &rt,
        &answers.as_slice(),
        &[Ok(None), Ok(Some(5))].as_slice(),
    );
}
