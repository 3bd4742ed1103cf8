// The allocator. Its `allocate` and `deallocate` are proved by hand.
ghost use Rattle.std.specs.Prelude.{◌≡◌};

use crate::countdown::Countdown;
use std::alloc::{AllocError, Allocator, Global};
use std::fmt;

/// An allocator that refuses one growth, and grants the others from `inner`. A growth is a call of `allocate`, or of
/// `grow` or `shrink`, which move the block. Code borrows it as its allocator, `&Refusing`.
pub struct Refusing<B: Allocator = Global> {
    inner: B,
    countdown: Countdown,
}

impl<B: Allocator> Refusing<B> {
    ghost use Rattle.refusing.specs.Refusing.{inner_of};

    /// An allocator that refuses nothing until `refuse` is called.
    pub fn new(inner: B) -> Refusing<B>
        ensures { inner_of result ≡ inner }
    {
        Refusing {
            inner,
            countdown: Countdown::new(),
        }
    }

    /// Refuses the `nth` growth from now on, counted from 1, and grants those before and after it. At 0 refuses none.
    /// Replaces any earlier call.
    pub fn refuse(&self, nth: u64) {
        self.countdown.start(nth);
    }

    /// Whether a growth was refused since the last call of `refuse`.
    pub fn has_refused(&self) -> bool {
        self.countdown.is_past()
    }
}

impl<B: Allocator> Drop for Refusing<B> {
    fn drop(self) {
        let Self {
            inner: _,
            countdown: _,
        } = self;
    }
}

impl<B: Allocator> fmt::Debug for Refusing<B> {
    fn fmt<W: fmt::Write>(&self, f: &mut fmt::Formatter<W>) -> fmt::Result {
        f.write_str("Refusing")
    }
}

unsafe impl<B: Allocator> Allocator for Refusing<B> {
    ghost dealloc_token = { λ heap ty ptr. B.dealloc_token heap.inner ty ptr };

    fn allocate(&self, size: usize, align: usize) -> Result<*mut u8, AllocError> {
        if self.countdown.is_due() {
            return Err(AllocError);
        }
        self.inner.allocate(size, align)
    }

    unsafe fn deallocate(&self, ptr: *mut u8, size: usize, align: usize) {
        self.inner.deallocate(ptr, size, align);
    }
}
