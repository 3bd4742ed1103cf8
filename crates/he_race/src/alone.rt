// An executor with a single task, on the calling thread and without a handle.

use std::alloc::{Alloc, Global};
use std::io;
use std::random::RandomSource;

// The executor's needs: an allocator, and no random bytes, since nothing is hashed.
#[derive(Drop)]
pub(crate) struct Alone {
    pub(crate) alloc: Global,
}

impl Alloc for Alone {
    type A = Global;

    fn alloc(&self) -> Global {
        self.alloc
    }
}

impl RandomSource for Alone {
    fn fill_bytes(&self, _buf: &mut [u8]) -> io::Result<()> {
        Ok(())
    }
}
