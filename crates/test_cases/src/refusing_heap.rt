//! A heap that refuses one request for memory, or that request and all after it.
//!
//! Requests are known by their numbers alone. So a run in which a request is refused has to make the same requests up
//! to that one as a run in which none is refused. The count is atomic, so that threads may share the heap. A request
//! takes as long as the heap behind it takes.

use std::alloc::{AllocError, Allocator};
use std::sync::atomic::{AtomicU64, Ordering};

/// Which requests are refused.
#[derive(Clone, Copy)]
pub enum Refusing {
    /// One, and none after it.
    One,
    /// One and all after it: memory stays short.
    AllFrom,
}

/// What is known of the requests.
#[derive(Drop)]
struct Requests {
    refusing: Refusing,
    /// The number of the first one that is refused, from 1.
    nth: u64,
    /// How many there were.
    made: AtomicU64,
}

impl Requests {
    /// Counts a request, and says whether it is refused. There must be fewer than 2^64 requests in all.
    fn is_refused(&self) -> bool {
        let number = self.made.fetch_add(1, Ordering::SeqCst).wrapping_add(1);
        match self.refusing {
            Refusing::One => number == self.nth,
            Refusing::AllFrom => number >= self.nth,
        }
    }
}

/// A heap that refuses some of its requests: `allocate` is one, and so is each growth of a block.
pub struct RefusingHeap<B: Allocator> {
    inner: B,
    requests: Requests,
}

impl<B: Allocator> RefusingHeap<B> {
    /// A heap over another one, which refuses the `nth` request, counted from 1, or that one and all after it.
    pub fn new(inner: B, refusing: Refusing, nth: u64) -> RefusingHeap<B> {
        RefusingHeap {
            inner,
            requests: Requests {
                refusing,
                nth,
                made: AtomicU64::new(0),
            },
        }
    }

    /// A heap over another one, which refuses none of the first 2^64 - 2 requests.
    pub fn ample(inner: B) -> RefusingHeap<B> {
        RefusingHeap::new(inner, Refusing::One, u64::MAX)
    }

    /// Whether a request has been refused. There must be fewer than 2^64 requests in all.
    pub fn has_refused(&self) -> bool {
        self.requests.made.load(Ordering::SeqCst) >= self.requests.nth
    }
}

impl<B: Allocator> Drop for RefusingHeap<B> {
    fn drop(self) {
        let Self {
            inner: _,
            requests: _,
        } = self;
    }
}

unsafe impl<B: Allocator> Allocator for RefusingHeap<B> {
    ghost dealloc_token = { λ heap ty ptr. B.dealloc_token heap.inner ty ptr };

    fn allocate(&self, size: usize, align: usize) -> Result<*mut u8, AllocError> {
        if self.requests.is_refused() {
            return Err(AllocError);
        }
        self.inner.allocate(size, align)
    }

    unsafe fn deallocate(&self, ptr: *mut u8, size: usize, align: usize) {
        self.inner.deallocate(ptr, size, align);
    }
}
