//! The system that a task uses.

use std::alloc::AllocGlobal;
use std::random::RandomSource;
use std::rt::Files;
use std::thread::Threads;

/// Memory, files, random numbers and threads.
pub trait TaskSystem: AllocGlobal + Files + RandomSource + Threads + Sync + Copy {}

impl<R> TaskSystem for R
where
    R: AllocGlobal + Files + RandomSource + Threads + Sync + Copy,
{}
