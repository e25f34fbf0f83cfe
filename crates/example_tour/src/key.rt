//! Visits counted by user and day: the map's key is a type of its own.
use anyhow::Result;
use facingberyl::{Add, Client, Exact, Fault, HashKey, Loan, Team, Work};
use std::alloc::Global;
use std::sync::Wait;
use std::thread::Threads;

/// A user on a day.
#[derive(Clone, Copy, PartialEq, Eq)]
struct UserDay {
    user: u64,
    day: u32,
}

impl Exact for UserDay {
    ghost use Rattle.std.proofs.Common.{rules};

    ghost copies_exactly = { Prim.search rules };
}

impl HashKey for UserDay {
    ghost use Rattle.std.specs.Prelude.{◌+◌, ◌%◌, ◌^◌};
    ghost use Rattle.std.proofs.Common.{rules};
    ghost use Rattle.std.proofs.lemmas.Bool.Decides.{Decides-and, Decides-eqb};
    ghost use Rattle.hashkeys.specs.Numbers.{number_code};

    ghost code = { λ key. (number_code key.user + key.day) % 2 ^ 32 };

    fn hash_code(&self) -> u32 {
        self.user.hash_code().wrapping_add(self.day)
    }

    ghost equal_is_same = { λ x y e.
        let both = (Decides-and _ _ (Decides-eqb x.user y.user) (Decides-eqb x.day y.day)).0 e in
        Prim.search rules };
}

/// A hundred visits of three users, on two days.
#[derive(Clone, Copy)]
struct Visiting;

impl Work<UserDay, u64, Add, Global> for Visiting {
    type Out = Result<(), Fault>;

    fn work<L: Loan, R: Wait>(
        &self,
        rt: &R,
        client: &mut Client<'_, L, UserDay, u64, Add, Global>,
    ) -> Result<(), Fault> {
        for visit in 0..100u32 {
            let key = UserDay {
                user: u64::from(visit % 3),
                day: visit / 50,
            };
            client.merge(rt, key, 1, Add)?;
        }
        Ok(())
    }
}

pub(crate) fn run<R: Threads + Wait + Print + Sync>(rt: &R, alloc: Global) -> Result<()> {
    let mut team = Team::new(alloc, 16, 4)?;
    for done in team.work(rt, &Visiting)? {
        done?;
    }
    let visits = team.close()?;
    for day in 0..2u32 {
        for user in 0..3u64 {
            let count = visits.get(&UserDay { user, day }).copied().unwrap_or(0);
            println!(rt; "day {day}, user {user}: {count}")?;
        }
    }
    Ok(())
}
