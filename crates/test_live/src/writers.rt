//! Bulk operations on a map into which others write.
use crate::samples::{Numbers, Values, assert_same, filled};
use facingberyl::bulk::Plan;
use facingberyl::{Add, Client, Fault, Loan, Work, Worked};
use live_maps::live_for_each;
use std::alloc::Global;
use std::sync::Wait;
use std::thread::Threads;

/// Removes the odd keys below 200 and puts them back, so many times, and puts a key more each time,
/// so that the table grows.
#[derive(Clone, Copy)]
struct Write {
    rounds: u64,
}

impl Work<u64, u64, Add, Global> for Write {
    type Out = Result<(), Fault>;

    fn work<L: Loan, R: Wait>(
        &self,
        rt: &R,
        client: &mut Client<'_, L, u64, u64, Add, Global>,
    ) -> Result<(), Fault> {
        for round in 0..self.rounds {
            for half in 0..100u64 {
                let key = 2 * half + 1;
                client.remove(rt, &key)?;
            }
            for half in 0..100u64 {
                let key = 2 * half + 1;
                client.put(rt, key, key)?;
            }
            let more = round.wrapping_add(1_000);
            client.put(rt, more, more)?;
        }
        Ok(())
    }
}

/// Whether each even value from 2 to 200 is shown once, and no value twice, so many times.
fn read<R: Wait + Threads + Sync>(rt: &R, map: &Numbers, times: u64) -> Option<bool> {
    let mut all = true;
    for _time in 0..times {
        let Ok(mut values) = live_for_each(rt, map, &Plan::new(0, 3), &Values) else {
            return None;
        };
        let Ok(()) = values.sort() else {
            return None;
        };
        let (mut last, mut even) = (0, 0u64);
        for value in &values {
            all = all && *value > last;
            last = *value;
            if *value <= 200 && *value % 2 == 0 {
                even = even.wrapping_add(1);
            }
        }
        all = all && even == 100;
    }
    Some(all)
}

/// Returns what the writer returns, and what a reader sees meanwhile.
fn write_and_read<R: Threads + Wait + Sync + Copy + Send + 'static>(
    rt: &R,
    alloc: Global,
) -> Result<(Result<(), Fault>, Option<bool>), Fault> {
    let map = filled(rt, alloc, 1, 8, 200)?;
    let writer = map.client()?.start(rt, Write { rounds: 50 })?;
    let seen = read(rt, &map, 20);
    let Worked { client, answer } = writer.join(rt);
    drop(client);
    Ok((answer, seen))
}

#[test]
fn what_stays_is_shown_once_while_others_write(rt: HostRuntime) {
    let found = write_and_read(&rt, rt.alloc());
    assert_same(&rt, &found, &Ok((Ok(()), Some(true))));
}
