//! The calls of a client.
use crate::event::{Asked, Kind, MOST_KEYS, Returned, Shown, Updated};
use crate::pause::pause;
use crate::step::Step;
use clients::{Change, Client, Fault, KeyArg, Loan};
use std::alloc::Global;
use std::sync::Wait;

/// A client of a map whose calls are recorded.
pub(crate) type Caller<'a, L> = Client<'a, L, u64, u64, Step, Global>;

/// The values of the keys 0 to 7 that a walk shows.
fn walk<L: Loan, R: Wait>(rt: &R, client: &mut Caller<'_, L>) -> Result<Shown, Fault> {
    let mut shown = [None; MOST_KEYS];
    for visit in &client.walk(rt)? {
        for (key, value) in &visit.entries {
            if let Some(place) = shown.get_mut(*key as usize) {
                *place = Some(*value);
            }
        }
    }
    Ok(shown)
}

/// The values of the keys 0 to 7 that are shown where they lie.
fn show_each<L: Loan, R: Wait>(rt: &R, client: &mut Caller<'_, L>) -> Shown {
    let mut shown = [None; MOST_KEYS];
    client.show_each(rt, |key: &u64, value: &u64| {
        if let Some(place) = shown.get_mut(*key as usize) {
            *place = Some(*value);
        }
    });
    shown
}

/// Makes a call that changes nothing.
fn read<L: Loan, R: Wait>(
    rt: &R,
    client: &mut Caller<'_, L>,
    asked: &Asked,
    pauses: u32,
) -> Result<Returned, Fault> {
    let key = &asked.key;
    match asked.kind {
        Kind::LookUp => Ok(Returned::Value(client.look_up(rt, key)?)),
        Kind::Glance => Ok(Returned::Value(client.glance(rt, key)?)),
        Kind::Contains => Ok(Returned::Truth(client.contains_key(rt, key)?)),
        Kind::View => Ok(Returned::Value(client.view(rt, key, |value| shown(value, pauses)))),
        Kind::TryView => match client.try_view(key, |value| shown(value, pauses)) {
            Some(value) => Ok(Returned::Value(value)),
            None => Ok(Returned::Busy),
        },
        _ => Ok(Returned::Value(client.get(rt, key)?)),
    }
}

/// A copy of what a view shows, after so many pauses.
fn shown(value: Option<&u64>, pauses: u32) -> Option<u64> {
    pause(pauses);
    value.copied()
}

/// What an update makes of a value, by its rest by 4: it removes some, keeps some, and gives others
/// this value. It pauses so many times first.
fn change(value: Option<&u64>, new: u64, pauses: u32) -> (Change<u64>, Updated) {
    pause(pauses);
    let before = value.copied();
    match before.unwrap_or(2) % 4 {
        0 => (Change::Remove, (before, None)),
        1 => (Change::Keep, (before, before)),
        _ => (Change::Set(new), (before, Some(new))),
    }
}

/// Makes an update, or tries one.
fn update<L: Loan, R: Wait>(
    rt: &R,
    client: &mut Caller<'_, L>,
    asked: &Asked,
    pauses: u32,
) -> Result<Returned, Fault> {
    let Asked {
        kind,
        key,
        first,
        ..
    } = *asked;
    match kind {
        Kind::TryUpdate => {
            match client.try_update(KeyArg::Owned(key), |value| change(value, first, pauses)) {
                Some(updated) => Ok(Returned::Updated(updated?)),
                None => Ok(Returned::Busy),
            }
        }
        _ => Ok(Returned::Updated(client.update(rt, key, |value| change(value, first, pauses))?)),
    }
}

/// Makes a call on all keys.
fn sweep<L: Loan, R: Wait>(
    rt: &R,
    client: &mut Caller<'_, L>,
    asked: &Asked,
) -> Result<Returned, Fault> {
    let (divisor, rest) = (asked.first.max(1), asked.second);
    match asked.kind {
        Kind::Clear => {
            client.clear(rt)?;
            Ok(Returned::Done)
        }
        Kind::Retain => {
            client.retain(rt, |_key: &u64, value: &u64| *value % divisor == rest)?;
            Ok(Returned::Done)
        }
        Kind::ShowEach => Ok(Returned::Shown(show_each(rt, client))),
        _ => Ok(Returned::Shown(walk(rt, client)?)),
    }
}

/// Makes a call that puts, replaces or removes.
fn set<L: Loan, R: Wait>(
    rt: &R,
    client: &mut Caller<'_, L>,
    asked: &Asked,
) -> Result<Returned, Fault> {
    let Asked {
        kind,
        key,
        first,
        second,
    } = *asked;
    match kind {
        Kind::PutIfAbsent => Ok(Returned::Value(client.put_if_absent(rt, key, first)?)),
        Kind::Remove => Ok(Returned::Value(client.remove(rt, &key)?)),
        Kind::RemoveIf => Ok(Returned::Truth(client.remove_if(rt, &key, first)?)),
        Kind::Replace => Ok(Returned::Value(client.replace(rt, &key, first)?)),
        Kind::ReplaceIf => Ok(Returned::Truth(client.replace_if(rt, &key, first, second)?)),
        _ => Ok(Returned::Value(client.put(rt, key, first)?)),
    }
}

/// Makes a call that uses the step, which pauses so many times.
fn compute<L: Loan, R: Wait>(
    rt: &R,
    client: &mut Caller<'_, L>,
    asked: &Asked,
    pauses: u32,
) -> Result<Returned, Fault> {
    let Asked {
        kind,
        key,
        first,
        ..
    } = *asked;
    let step = Step {
        amount: first,
        pauses,
    };
    match kind {
        Kind::ComputeIfAbsent => {
            Ok(Returned::Value(client.compute_if_absent(rt, key, step)?.value))
        }
        Kind::ComputeIfPresent => {
            Ok(Returned::Value(client.compute_if_present(rt, &key, step)?.value))
        }
        Kind::Merge => Ok(Returned::Value(client.merge(rt, key, first, step)?.value)),
        _ => Ok(Returned::Value(client.compute(rt, key, step)?)),
    }
}

/// Makes a call. One that uses a function pauses so many times while its key's bucket is locked.
pub(crate) fn make<L: Loan, R: Wait>(
    rt: &R,
    client: &mut Caller<'_, L>,
    asked: &Asked,
    pauses: u32,
) -> Result<Returned, Fault> {
    match asked.kind {
        Kind::Get | Kind::LookUp | Kind::Glance | Kind::Contains | Kind::View | Kind::TryView =>
            read(rt, client, asked, pauses),
        Kind::Compute | Kind::ComputeIfAbsent | Kind::ComputeIfPresent | Kind::Merge => {
            compute(rt, client, asked, pauses)
        }
        Kind::Update | Kind::TryUpdate => update(rt, client, asked, pauses),
        Kind::Walk | Kind::ShowEach | Kind::Clear | Kind::Retain => sweep(rt, client, asked),
        _ => set(rt, client, asked),
    }
}
