//! The calls that are measured.
ghost use Rattle.std.specs.Prelude.{◌≡◌, ◌<◌, All, length};

use crate::choice::chosen;
use crate::name::Name;
use crate::random::Random;
use crate::settings::{Mode, Settings};
use crate::walks::go_over;
use chm::{Change, Fault, KeyArg, Map, Op};
use count_ledger::Pass;
use functions::Add;
use hashkeys::Key;
use std::alloc::{AllocError, Global};
use std::sync::Wait;
use std::sync::atomic::AtomicU64;
use std::sync::atomic::Ordering::SeqCst;
use std::thread;
use std::thread::Threads;
use std::time::{Clock, Instant};

/// The map that is measured.
pub(crate) type BenchMap = Map<Name, i64, Add, Global>;

/// The right of one thread to make calls of it.
pub(crate) type BenchPass = Pass<Name, i64, Add>;

/// The keys `k0`, `k1` and so on, which live as long as the program.
pub(crate) fn names(alloc: Global, count: u32) -> Result<&'static [Key], AllocError> {
    let mut names = Vec::with_capacity(alloc, count as usize)?;
    for i in 0..count {
        let text = format!(in alloc; "k{i}")?;
        if let Some(name) = Key::read(text.as_bytes()) {
            names.push(name)?;
        }
    }
    Ok(names.leak())
}

/// Makes every second key present.
pub(crate) fn fill<R: Wait>(
    rt: &R,
    map: &BenchMap,
    names: &'static [Key],
    pass: &mut BenchPass,
) -> Result<(), Fault>
    requires { pass.old.ledger ≡ map.now.ledger.id }
    ensures { pass.new.ledger ≡ pass.old.ledger }
{
    for (i, name) in names.iter().enumerate() {
        if i % 2 == 0 {
            let _reply = map.put(rt, pass, Name(name), i as i64)?;
        }
    }
    Ok(())
}

/// What the threads of a run share beside the map.
#[derive(Clone, Copy)]
pub(crate) struct Run<'a> {
    pub(crate) names: &'static [Key],
    /// The steps of the choice, or none.
    pub(crate) starts: &'static [u32],
    pub(crate) settings: &'a Settings,
    /// The longest call so far, in nanoseconds, where calls are timed.
    pub(crate) longest: &'a AtomicU64,
    /// The sum of the values that walks showed.
    pub(crate) shown: &'a AtomicU64,
}

/// Makes a call on the key: of a hundred that are mixed 80 get, 15 put this value and 5 remove, as
/// the number drawn says.
fn make<R: Wait>(
    rt: &R,
    map: &BenchMap,
    mode: Mode,
    pass: &mut BenchPass,
    key: Name,
    drawn: u64,
    value: i64,
) -> Result<(), Fault>
    requires { pass.old.ledger ≡ map.now.ledger.id }
    ensures { pass.new.ledger ≡ pass.old.ledger }
{
    match (mode, drawn % 100) {
        (Mode::Glance, _) => drop(map.glance(rt, &key)?),
        (Mode::Look, _) => drop(map.look_up(rt, pass, &key)?),
        (Mode::View, _) => drop(map.view(rt, pass, &key, |value| value.copied())),
        (Mode::Update, _) => {
            map.update(rt, pass, key, |value| {
                (
                    Change::Set(value.map_or(1, |value| value.saturating_add(1))),
                    (),
                )
            })?;
        }
        (Mode::Merge, _) => drop(map.merge(rt, pass, key, 1, Add)?),
        (Mode::Mix, 80..95) => drop(map.put(rt, pass, key, value)?),
        (Mode::Mix, 95..) => drop(map.call_on(rt, pass, KeyArg::Borrowed(&key), Op::Remove)?),
        _ => drop(map.call_on(rt, pass, KeyArg::Borrowed(&key), Op::Get)?),
    }
    Ok(())
}

/// Makes the calls of the thread with this number, up to one that is refused.
fn call_at_random<R: Wait>(
    rt: &R,
    map: &BenchMap,
    run: &Run<'_>,
    number: usize,
    pass: &mut BenchPass,
)
    requires names { 0 < length run.now.names.now }
    requires pass { pass.old.ledger ≡ map.now.ledger.id }
    ensures { pass.new.ledger ≡ pass.old.ledger }
{
    let mut random = Random::new((number as u64).wrapping_add(1));
    for i in 0..run.settings.calls {
        let drawn = random.draw();
        let key = Name(&run.names[chosen(run.starts, drawn, run.names.len())]);
        if make(rt, map, run.settings.mode, pass, key, drawn, i64::from(i)).is_err() {
            return;
        }
    }
}

/// Puts one key, and keeps the time that it took if that is the longest so far. Answers whether it
/// was put.
fn put_timed<R: Wait + Clock>(
    rt: &R,
    map: &BenchMap,
    run: &Run<'_>,
    pass: &mut BenchPass,
    name: &'static Key,
    value: i64,
) -> bool
    requires { pass.old.ledger ≡ map.now.ledger.id }
    ensures { pass.new.ledger ≡ pass.old.ledger }
{
    let Ok(start) = Instant::now(rt) else {
        return false;
    };
    let put = map.put(rt, pass, Name(name), value).is_ok();
    if let Ok(taken) = start.elapsed(rt) {
        let nanoseconds = taken.as_nanos().min(u128::from(u64::MAX)) as u64;
        run.longest.fetch_max(nanoseconds, SeqCst);
    }
    put
}

/// Puts the keys of the thread with this number, up to one that is refused.
fn put_part<R: Wait + Clock>(
    rt: &R,
    map: &BenchMap,
    run: &Run<'_>,
    number: usize,
    pass: &mut BenchPass,
)
    requires { pass.old.ledger ≡ map.now.ledger.id }
    ensures { pass.new.ledger ≡ pass.old.ledger }
{
    let step = run.settings.step() as usize;
    let is_timed = run.settings.mode == Mode::Stall;
    for (i, name) in run.names.iter().enumerate() {
        if i % step == number {
            let put = if is_timed {
                put_timed(rt, map, run, pass, name, i as i64)
            } else {
                map.put(rt, pass, Name(name), i as i64).is_ok()
            };
            if !put {
                return;
            }
        }
    }
}

/// Puts and removes the keys of the thread with this number in turn, up to a call that is refused.
fn churn<R: Wait>(rt: &R, map: &BenchMap, run: &Run<'_>, number: usize, pass: &mut BenchPass)
    requires names { 0 < length run.now.names.now }
    requires pass { pass.old.ledger ≡ map.now.ledger.id }
    ensures { pass.new.ledger ≡ pass.old.ledger }
{
    let step = run.settings.step() as usize;
    let own = (run.names.len() / step).max(1);
    for i in 0..run.settings.calls {
        let place = ((i / 2) as usize % own)
            .wrapping_mul(step)
            .wrapping_add(number);
        let key = Name(&run.names[place % run.names.len()]);
        let made = if i % 2 == 0 {
            map.put(rt, pass, key, i64::from(i)).is_ok()
        } else {
            map.call_on(rt, pass, KeyArg::Borrowed(&key), Op::Remove)
                .is_ok()
        };
        if !made {
            return;
        }
    }
}

/// Makes the calls of the client with this number, if it makes any.
fn work<R: Wait + Clock>(rt: &R, map: &BenchMap, run: &Run<'_>, client: usize, pass: &mut BenchPass)
    requires names { 0 < length run.now.names.now }
    requires pass { pass.old.ledger ≡ map.now.ledger.id }
    ensures { pass.new.ledger ≡ pass.old.ledger }
{
    let apart = run.settings.apart();
    if client % apart != 0 {
        return;
    }
    let number = client / apart;
    match run.settings.mode {
        Mode::Fill | Mode::Stall => put_part(rt, map, run, number, pass),
        Mode::Churn => churn(rt, map, run, number, pass),
        Mode::Walk | Mode::Copies | Mode::List => go_over(rt, map, run, pass),
        _ => call_at_random(rt, map, run, number, pass),
    }
}

/// All passes make their calls at the same time, each that makes any in a thread of its own.
pub(crate) fn work_together<R: Threads + Wait + Clock + Sync>(
    rt: &R,
    map: &BenchMap,
    run: &Run<'_>,
    passes: &mut [BenchPass],
)
    requires names { 0 < length run.now.names.now }
    requires passes { All (λ p. p.ledger ≡ map.now.ledger.id) passes.old }
    ensures { All (λ p. p.ledger ≡ map.now.ledger.id) passes.new }
{
    thread::for_each_mut(
        rt,
        passes,
        run.settings.step() as usize,
        &|client, pass| { work(rt, map, run, client, pass) },
    );
}
