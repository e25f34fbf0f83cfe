//! The walks that are measured.
ghost use Rattle.std.specs.Prelude.{◌≡◌};

use crate::name::Name;
use crate::settings::Mode;
use crate::work::{BenchMap, BenchPass, Run};
use chm::Fault;
use std::alloc::Global;
use std::sync::Wait;
use std::sync::atomic::Ordering::SeqCst;

/// The sum of some values, modulo 2^64.
fn sum_of(entries: &[(Name, i64)]) -> u64 {
    let mut sum = 0u64;
    for entry in entries {
        sum = sum.wrapping_add(entry.1.cast_unsigned());
    }
    sum
}

/// The sum of all values, which are shown where they lie.
fn show<R: Wait>(rt: &R, map: &BenchMap, pass: &mut BenchPass) -> u64
    requires { pass.old.ledger ≡ map.now.ledger.id }
    ensures { pass.new.ledger ≡ pass.old.ledger }
{
    let mut sum = 0u64;
    let mut cursor = map.cursor();
    let mut add = |_name: &Name, value: &i64| { sum = sum.wrapping_add(value.cast_unsigned()) };
    for _ in rt.forever() {
        if !map.show_next(rt, pass, &mut cursor, &mut add) {
            break;
        }
    }
    sum
}

/// The sum of all values, which are copied a bucket at a time.
fn copy<R: Wait>(rt: &R, map: &BenchMap, pass: &mut BenchPass) -> Result<u64, Fault>
    requires { pass.old.ledger ≡ map.now.ledger.id }
    ensures { pass.new.ledger ≡ pass.old.ledger }
{
    let mut sum = 0u64;
    let mut cursor = map.cursor();
    for _ in rt.forever() {
        let shown = map.visit_next(rt, pass, &mut cursor)?;
        let Some(visit) = shown else {
            break;
        };
        sum = sum.wrapping_add(sum_of(&visit.entries));
    }
    Ok(sum)
}

/// The sum of all values, which are copied into one list.
fn list<R: Wait>(rt: &R, map: &BenchMap, pass: &mut BenchPass) -> Result<u64, Fault>
    requires { pass.old.ledger ≡ map.now.ledger.id }
    ensures { pass.new.ledger ≡ pass.old.ledger }
{
    let mut sum = 0u64;
    for visit in &map.walk(rt, pass)? {
        sum = sum.wrapping_add(sum_of(&visit.entries));
    }
    Ok(sum)
}

/// Makes one thread's walks, up to one that is refused.
pub(crate) fn go_over<R: Wait>(rt: &R, map: &BenchMap, run: &Run<'_>, pass: &mut BenchPass)
    requires { pass.old.ledger ≡ map.now.ledger.id }
    ensures { pass.new.ledger ≡ pass.old.ledger }
{
    for _ in 0..run.settings.calls {
        let shown = match run.settings.mode {
            Mode::Copies => copy(rt, map, pass),
            Mode::List => list(rt, map, pass),
            _ => Ok(show(rt, map, pass)),
        };
        match shown {
            Ok(sum) => {
                run.shown.fetch_add(sum, SeqCst);
            }
            Err(_) => return,
        }
    }
}
