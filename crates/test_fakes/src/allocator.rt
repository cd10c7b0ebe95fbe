//! An allocator for tests. It passes requests on to another allocator, counts them, and refuses one
//! of them, or each.
//!
//! A test makes its values with it:
//!
//! ```text
//! let heap = Heap::new(rt.alloc())?;
//! let mut list: Vec<u8, Heap> = Vec::new(heap);
//! heap.refuse(1);
//! assert!(rt; list.push(7).is_err());
//! ```

use std::alloc::{AllocError, Allocator, Global};
use std::fmt::Debug;
use std::sync::atomic::{AtomicU64, Ordering};

/// An allocator that passes each request on to another, except the one that it is set to refuse.
#[derive(Debug)]
pub struct Refusing<B: Allocator> {
    inner: B,
    // 0 refuses nothing, n the nth request from now, the greatest each one
    left: AtomicU64,
}

impl<B: Allocator> Refusing<B> {
    /// Returns an allocator that refuses nothing.
    pub fn new(inner: B) -> Refusing<B> {
        Refusing {
            inner,
            left: AtomicU64::new(0),
        }
    }
}

impl<B: Allocator> Drop for Refusing<B> {
    fn drop(self) {
        let Self { inner: _, left: _ } = self;
    }
}

/// Memory that refuses the request that it is told to: a [`Refusing`] that is lent. A test is over any
/// such memory, since what is known of a `Refusing` makes it dearer to prove.
pub trait RefusingHeap: Allocator + Copy + Debug {
    /// Refuses the nth request from now: none if `n` is 0, and each if it is the greatest. An earlier
    /// setting is forgotten.
    fn refuse(self, n: u64);

    /// Returns which request from now is refused, or 0 if none is. After `refuse(n)` and k requests,
    /// fewer than n, that is n - k; so it also counts requests.
    fn left(self) -> u64;
}

impl<B: Allocator + Debug> RefusingHeap for &Refusing<B> {
    fn refuse(self, n: u64) {
        self.left.store(n, Ordering::SeqCst);
    }

    fn left(self) -> u64 {
        self.left.load(Ordering::SeqCst)
    }
}

/// Memory of a test's own, which may refuse, in any thread.
pub trait TestHeap: RefusingHeap + Send + Sync + 'static {
    /// Returns memory that refuses nothing yet.
    fn new(alloc: Global) -> Result<Self, AllocError>;
}

/// The memory of a test: a [`Refusing`] that is never freed.
pub type Heap = &'static Refusing<Global>;

impl TestHeap for Heap {
    fn new(alloc: Global) -> Result<Heap, AllocError> {
        Ok(Box::leak(Box::new(alloc, Refusing::new(alloc))?))
    }
}

fn refuses(left: &AtomicU64) -> bool {
    let now = left.load(Ordering::SeqCst);
    if now == u64::MAX {
        return true;
    }
    if now == 0 {
        return false;
    }
    left.fetch_sub(1, Ordering::SeqCst) == 1
}

unsafe impl<B: Allocator> Allocator for Refusing<B> {
    ghost dealloc_token = { λ heap ty ptr. B.dealloc_token heap.inner ty ptr };

    fn allocate(&self, size: usize, align: usize) -> Result<*mut u8, AllocError> {
        if refuses(&self.left) {
            return Err(AllocError);
        }
        self.inner.allocate(size, align)
    }

    unsafe fn deallocate(&self, ptr: *mut u8, size: usize, align: usize) {
        self.inner.deallocate(ptr, size, align);
    }
}
