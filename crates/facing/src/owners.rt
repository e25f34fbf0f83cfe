//! The exports that are the same for each kind of map.
ghost use Rattle.std.specs.Prelude.{◌≡◌, ◌≢◌, ◌⊎◌};
ghost use Rattle.facing_maps.specs.Statuses.{facing_done, facing_no_memory, facing_wrong_handle};
ghost use Rattle.facing.specs.Handles.{IsFilled};
ghost use Rattle.facing.specs.Targets.{IsReopenedFrom, IsClientOf, IsClosedAs, IsCountTold};
ghost use Rattle.facing.specs.Targets.{IsReopeningStatus, IsClientStatus, IsAgainStatus};

use crate::handle::{FacingHandle, FacingOut, lend};
use crate::maps;
use crate::target::Target;
use facing_maps::{DONE, FacingAnswer, NO_MEMORY, status_in};
use std::alloc::Global;

/// Gives a handle of the target out. It takes memory for it.
pub(crate) fn give(alloc: Global, target: Target, out: &mut FacingOut) -> u32
    ensures given { result ≡ facing_done → IsFilled out.new.ptr × (out.new.target ≡ target) }
    ensures refused { result ≢ facing_done → out.new ≡ out.old }
    ensures codes { (result ≡ facing_done) ⊎ (result ≡ facing_no_memory) }
{
    match Box::new(alloc, target) {
        Ok(boxed) => {
            *out = FacingOut::of(boxed);
            DONE
        }
        Err(failed) => {
            drop(failed);
            NO_MEMORY
        }
    }
}

/// Takes a client of the map out.
#[unsafe(no_mangle)]
pub extern "C" fn facing_c_client(
    alloc: Global,
    map: FacingHandle,
    out: &mut FacingOut,
    client: &mut FacingOut,
) -> u32
    ensures filled { IsFilled map.ptr → IsFilled out.new.ptr }
    ensures same { IsFilled map.ptr → out.new.target ≡ map.target }
    ensures client { result ≡ facing_done → IsFilled client.new.ptr
        × IsClientOf map.target client.new.target }
    ensures refused { result ≢ facing_done → client.new ≡ client.old }
    ensures status { IsFilled map.ptr → IsClientStatus map.target result }
    ensures null { ¬ IsFilled map.ptr → (result ≡ facing_wrong_handle) × (out.new ≡ out.old) }
{
    match lend!(map, out, |target| maps::client(target)) {
        Ok(made) => give(alloc, made, client),
        Err(status) => status,
    }
}

/// Counts the keys: just so of a closed map, and of another as far as a look tells.
#[unsafe(no_mangle)]
pub extern "C" fn facing_c_count(
    handle: FacingHandle,
    out: &mut FacingOut,
    answer: &mut FacingAnswer,
) -> u32
    ensures filled { IsFilled handle.ptr → IsFilled out.new.ptr }
    ensures same { IsFilled handle.ptr → out.new.target ≡ handle.target }
    ensures counted { IsFilled handle.ptr → IsCountTold handle.target result answer.old answer.new }
    ensures null { ¬ IsFilled handle.ptr →
        (result ≡ facing_wrong_handle) × (out.new ≡ out.old) × (answer.new ≡ answer.old) }
{
    status_in(lend!(handle, out, |target| maps::count(target, answer)))
}

/// Closes the map, whose clients are all in. The handle stands for the closed map then.
#[unsafe(no_mangle)]
pub extern "C" fn facing_c_close(map: FacingHandle, out: &mut FacingOut) -> u32
    ensures filled { IsFilled map.ptr → IsFilled out.new.ptr }
    ensures closed { IsFilled map.ptr → IsClosedAs map.target out.new.target result }
    ensures null { ¬ IsFilled map.ptr → (result ≡ facing_wrong_handle) × (out.new ≡ out.old) }
{
    status_in(lend!(map, out, |target| maps::close(target)))
}

/// Opens a map with copies of the pairs of a closed one, which stays as it is.
#[unsafe(no_mangle)]
pub extern "C" fn facing_c_reopen(
    alloc: Global,
    closed: FacingHandle,
    out: &mut FacingOut,
    clients: u32,
    map: &mut FacingOut,
) -> u32
    ensures filled { IsFilled closed.ptr → IsFilled out.new.ptr }
    ensures same { IsFilled closed.ptr → out.new.target ≡ closed.target }
    ensures new { result ≡ facing_done → IsFilled map.new.ptr
        × IsReopenedFrom closed.target clients map.new.target }
    ensures refused { result ≢ facing_done → map.new ≡ map.old }
    ensures status { IsFilled closed.ptr → IsReopeningStatus closed.target clients result }
    ensures null { ¬ IsFilled closed.ptr → (result ≡ facing_wrong_handle) × (out.new ≡ out.old) }
{
    match lend!(closed, out, |target| maps::reopen(target, clients)) {
        Ok(made) => give(alloc, made, map),
        Err(status) => status,
    }
}

/// Gives one more handle of a closed map out, for another thread. The first time it takes memory for the
/// number of the map's owners, and each time for the handle.
#[unsafe(no_mangle)]
pub extern "C" fn facing_c_again(
    alloc: Global,
    closed: FacingHandle,
    out: &mut FacingOut,
    more: &mut FacingOut,
) -> u32
    ensures filled { IsFilled closed.ptr → IsFilled out.new.ptr }
    ensures same { IsFilled closed.ptr → out.new.target ≡ closed.target }
    ensures again { result ≡ facing_done → IsFilled more.new.ptr × (more.new.target ≡ closed.target) }
    ensures refused { result ≢ facing_done → more.new ≡ more.old }
    ensures status { IsFilled closed.ptr → IsAgainStatus closed.target result }
    ensures null { ¬ IsFilled closed.ptr → (result ≡ facing_wrong_handle) × (out.new ≡ out.old) }
{
    match lend!(closed, out, |target| maps::again(target)) {
        Ok(made) => give(alloc, made, more),
        Err(status) => status,
    }
}

/// Lets go of what the handle stands for: a client goes back to its map.
#[unsafe(no_mangle)]
pub extern "C" fn facing_c_free(handle: FacingHandle) {
    drop(handle.into_box());
}
