//! What a cache is for: an answer that takes long to get is kept until it is too old.
use crate::asserts::assert_same;
use crate::calls::{Caller, Calls, Numbers, shown};
use clients::Fault;
use std::sync::Wait;

/// For how many seconds an answer is good.
const GOOD_FOR: u64 = 60;

/// Stands for a query that takes long: how many messages a user has not read. `asked` counts the queries.
fn count_unread(user: u64, asked: &mut u64) -> u64 {
    *asked = asked.saturating_add(1);
    user % 10
}

/// Returns how many messages a user has not read, as it was within the last minute.
fn unread_of<R: Wait>(
    rt: &R,
    answers: &mut Caller,
    user: u64,
    now: u64,
    asked: &mut u64,
) -> Result<u64, Fault> {
    if let Some(count) = answers.get(rt, &user, now)? {
        return Ok(count);
    }
    let count = count_unread(user, asked);
    let deadline = Some(now.saturating_add(GOOD_FOR));
    answers.put(rt, user, count, deadline, now, &mut |_, _| ())?;
    Ok(count)
}

/// Asks for a user at six times. Shown are the answers, and how many queries there were.
struct Asking;

impl Calls for Asking {
    type Shown = ([Result<u64, Fault>; 6], u64);

    fn call<R: Wait>(
        &self,
        rt: &R,
        _cache: &Numbers,
        answers: &mut Caller,
    ) -> Result<([Result<u64, Fault>; 6], u64), Fault> {
        let mut asked = 0u64;
        let found = [
            unread_of(rt, answers, 25, 0, &mut asked),
            unread_of(rt, answers, 25, 30, &mut asked),
            unread_of(rt, answers, 25, 59, &mut asked),
            unread_of(rt, answers, 25, 60, &mut asked),
            unread_of(rt, answers, 25, 119, &mut asked),
            unread_of(rt, answers, 25, 120, &mut asked),
        ];
        Ok((found, asked))
    }
}

/// The queries are at 0, 60 and 120.
#[test]
fn an_answer_is_asked_for_once_a_minute(rt: HostRuntime) {
    let found = shown(&rt, rt.alloc(), 1_000, &Asking);
    assert_same(&rt, &found, &([Ok(5); 6], 3));
}
