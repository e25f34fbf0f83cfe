//! Seeds that are drawn, and maps that are not opened.
use crate::asserts::assert_same;
use crate::calls::Texts;
use clients::{Fault, NoFunction};
use std::alloc::Global;
use std::io;
use std::random::RandomSource;
use test_helpers::Alloc;
use test_support::Refusing;
use text_maps::{Seed, TextFault, TextMap};

/// A source that gives the numbers from 0 on, a byte each.
#[derive(Drop)]
struct Counting;

impl RandomSource for Counting {
    fn fill_bytes(&self, buf: &mut [u8]) -> io::Result<()> {
        let mut next: u8 = 0;
        for byte in buf.iter_mut() {
            *byte = next;
            next = next.wrapping_add(1);
        }
        Ok(())
    }
}

/// A source that gives nothing.
#[derive(Drop)]
struct Dry;

impl RandomSource for Dry {
    fn fill_bytes(&self, _buf: &mut [u8]) -> io::Result<()> {
        Err(io::Error::from(io::ErrorKind::Unsupported))
    }
}

/// Opens a map. Returns its seed, and how many keys it has.
fn opened<S: RandomSource>(
    source: &S,
    alloc: Global,
    capacity: usize,
) -> Result<(Seed, u64), TextFault> {
    let text: Texts = TextMap::new(source, alloc, capacity)?;
    Ok((text.seed(), text.map().mapping_count()))
}

/// The first half of a seed is of the first eight bytes, least byte first, and the second of the next.
#[test]
fn a_map_has_the_seed_that_its_source_gives(rt: HostRuntime) {
    let (seed, count) = opened(&Counting, rt.alloc(), 16).expect(&rt, "no fault");
    let same = seed == Seed::of(0x0706_0504_0302_0100, 0x0f0e_0d0c_0b0a_0908);
    assert_same(&rt, &(same, count), &(true, 0));
}

#[test]
fn two_maps_draw_two_seeds(rt: HostRuntime) {
    let (first, _) = opened(&rt, rt.alloc(), 16).expect(&rt, "no fault");
    let (second, _) = opened(&rt, rt.alloc(), 16).expect(&rt, "no fault");
    assert!(rt; first != second);
}

/// Returns why no map of this capacity is opened without a seed: the map's fault, or the source's.
fn told(alloc: Global, capacity: usize) -> (Option<Fault>, Option<io::ErrorKind>) {
    match opened(&Dry, alloc, capacity) {
        Err(TextFault::OfMap(fault)) => (Some(fault), None),
        Err(TextFault::NoSeed(error)) => (None, Some(error.kind())),
        Ok(_) => (None, None),
    }
}

#[test]
fn no_map_is_opened_without_a_seed(rt: HostRuntime) {
    let wanted = (None, Some(io::ErrorKind::Unsupported));
    assert_same(&rt, &told(rt.alloc(), 16), &wanted);
}

/// Of a capacity that no map has, and without a seed, the capacity is told.
#[test]
fn a_wrong_capacity_is_told_first(rt: HostRuntime) {
    let found = [told(rt.alloc(), 0), told(rt.alloc(), 67_108_865)];
    assert_same(&rt, &found, &[(Some(Fault::BadCapacity), None); 2]);
}

#[test]
fn a_fault_is_told_in_words(rt: HostRuntime) {
    let alloc = rt.alloc();
    let of_map = format!(in alloc; "{}", TextFault::from(Fault::NoMemory)).expect(&rt, "memory");
    let error = io::Error::from(io::ErrorKind::Unsupported);
    let no_seed = format!(in alloc; "{}", TextFault::from(error)).expect(&rt, "memory");
    let found = (of_map.as_str(), no_seed.as_str());
    assert_same(&rt, &found, &("no memory", "no seed: unsupported"));
}

/// Opens a map where the request of this number is refused. Returns whether it is opened, or else
/// whether it was told that there was no memory.
fn open_without(alloc: Alloc<'_>, request: u64) -> Result<(), bool> {
    alloc.refuse_after(request);
    let opened: Result<TextMap<u64, NoFunction, Alloc<'_>>, TextFault> = TextMap::new(
        &Counting, alloc, 16,
    );
    match opened {
        Ok(_) => Ok(()),
        Err(TextFault::OfMap(fault)) => Err(fault == Fault::NoMemory),
        Err(TextFault::NoSeed(_)) => Err(false),
    }
}

/// Each request of an opening is refused in turn, until there is none of that number.
#[test]
fn each_request_of_an_opening_is_refused_in_turn(rt: HostRuntime) {
    let alloc = Refusing::new(rt.alloc());
    let mut opened = 0u64;
    for request in 0..40 {
        match open_without(&alloc, request) {
            Ok(()) => opened = opened.saturating_add(1),
            Err(told) => assert!(rt; told),
        }
    }
    assert!(rt; 1 <= opened && opened < 40);
}
