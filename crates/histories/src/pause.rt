//! Letting other threads run.
use std::thread;

/// Lets other threads run, so many times.
pub(crate) fn pause(times: u32) {
    for _ in 0..times {
        thread::yield_now();
    }
}
