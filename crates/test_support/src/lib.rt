//! An allocator that refuses one request, so that a test can show what each refusal leaves, and that
//! counts its requests and what was not taken back.
#![tactic(auto)]

use std::alloc::{AllocError, Allocator};
use std::sync::atomic::AtomicU64;
use std::sync::atomic::Ordering::SeqCst;

/// How many requests were made, the number, from 0, of the one that is refused, and how many blocks
/// and bytes were given and not taken back.
#[derive(Drop)]
struct Requests {
    made: AtomicU64,
    refused: AtomicU64,
    blocks: AtomicU64,
    bytes: AtomicU64,
}

impl Requests {
    /// Counts a request for so many bytes, and says whether it is refused.
    fn refuse_next(&self, size: usize) -> bool {
        let refused = self.made.fetch_add(1, SeqCst) == self.refused.load(SeqCst);
        if !refused {
            self.blocks.fetch_add(1, SeqCst);
            self.bytes.fetch_add(size as u64, SeqCst);
        }
        refused
    }

    /// Counts a block of so many bytes that is taken back.
    fn count_back(&self, size: usize) {
        self.blocks.fetch_sub(1, SeqCst);
        self.bytes.fetch_sub(size as u64, SeqCst);
    }
}

/// An allocator that takes all memory from another, and refuses a request where it is told to. A
/// `&` to it is an allocator that can be cloned; all clones count together, in any number of
/// threads.
#[derive(Drop)]
pub struct Refusing<A: Allocator> {
    inner: A,
    requests: Requests,
}

impl<A: Allocator> Refusing<A> {
    /// An allocator that refuses nothing until it is told to.
    pub fn new(inner: A) -> Refusing<A> {
        let requests = Requests {
            made: AtomicU64::new(0),
            refused: AtomicU64::new(u64::MAX),
            blocks: AtomicU64::new(0),
            bytes: AtomicU64::new(0),
        };
        Refusing { inner, requests }
    }

    /// From now on this many requests are granted, the next one is refused, and all later ones are
    /// granted.
    pub fn refuse_after(&self, granted: u64) {
        let made = self.requests.made.load(SeqCst);
        self.requests
            .refused
            .store(made.saturating_add(granted), SeqCst);
    }

    /// Whether the request that was to be refused has been made.
    pub fn has_refused(&self) -> bool {
        self.requests.made.load(SeqCst) > self.requests.refused.load(SeqCst)
    }

    /// How many requests were made, the refused one too.
    pub fn requests(&self) -> u64 {
        self.requests.made.load(SeqCst)
    }

    /// How many blocks were given and not taken back.
    pub fn blocks_out(&self) -> u64 {
        self.requests.blocks.load(SeqCst)
    }

    /// How many bytes were given and not taken back.
    pub fn bytes_out(&self) -> u64 {
        self.requests.bytes.load(SeqCst)
    }
}

unsafe impl<A: Allocator> Allocator for Refusing<A> {
    ghost dealloc_token = { λ heap ty ptr. A.dealloc_token heap.inner ty ptr };

    fn allocate(&self, size: usize, align: usize) -> Result<*mut u8, AllocError> {
        if self.requests.refuse_next(size) {
            return Err(AllocError);
        }
        self.inner.allocate(size, align)
    }

    unsafe fn deallocate(&self, ptr: *mut u8, size: usize, align: usize) {
        self.requests.count_back(size);
        self.inner.deallocate(ptr, size, align);
    }
}
