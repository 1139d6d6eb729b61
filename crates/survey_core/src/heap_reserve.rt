//! Growing the heap of a thread in large steps.

use std::alloc::Global;

/// How many bytes are allocated and freed at once.
const RESERVE_BYTES: usize = 1 << 20;

/// How many calls pass from one such allocation to the next.
const CALLS_PER_RESERVE: usize = 32;

/// Grows a thread's heap in large steps. The C library grows every heap but the first page by page,
/// with a system call for each page.
#[derive(Drop)]
pub struct HeapReserve {
    alloc: Global,
    calls: usize,
}

impl HeapReserve {
    /// Returns a `HeapReserve` that has allocated nothing yet.
    pub fn new(alloc: Global) -> HeapReserve {
        HeapReserve { alloc, calls: 0 }
    }

    /// Allocates and frees 1 MiB on the first call and on every 32nd after it; the memory stays
    /// with the thread's heap. A failed allocation is ignored.
    pub fn top_up(&mut self) {
        if self.calls % CALLS_PER_RESERVE == 0 {
            let _reserve: Result<Vec<u8>, _> = Vec::with_capacity(self.alloc, RESERVE_BYTES);
        }
        self.calls = self.calls.wrapping_add(1);
    }
}
