//! What maps show of themselves, and loops over closed ones.
use crate::examples::NumberQuiet;
use bin_history::Form;
use chm::Fault;
use std::alloc::Global;
use std::process::Abort;
use test_maps::open;

/// A closed map of no calls, and what was shown of it before and after it was closed.
fn shown(rt: &impl Abort, alloc: Global) -> Result<(NumberQuiet, String, String), Fault> {
    let (map, passes) = open(alloc, Form::Lean, 4, 2).expect(rt, "a map");
    let open = format!(in alloc; "{map:?}");
    match map.close(passes) {
        Ok(quiet) => {
            let closed = format!(in alloc; "{quiet:?}")?;
            Ok((quiet, open?, closed))
        }
        Err(refused) => Err(refused.give_up()),
    }
}

#[test]
fn a_map_shows_its_form_and_its_numbers(rt: HostRuntime) {
    let (quiet, open, closed) = shown(&rt, rt.alloc()).expect(&rt, "memory");
    assert!(rt; open.as_str() == "Map { form: Lean, clients: 2, keys: 0, .. }");
    assert!(rt; closed.as_str() == "Quiet { form: Lean, bins: 4, keys: 0, .. }");
    let mut pairs = 0u64;
    for (key, value) in &quiet {
        pairs = pairs.saturating_add(*key).saturating_add(*value);
    }
    assert!(rt; pairs == 0);
}
