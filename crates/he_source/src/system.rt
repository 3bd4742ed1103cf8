//! The system that a proxy's races use.

use std::alloc::AllocGlobal;
use std::net::Net;
use std::random::RandomSource;
use std::rt::Files;
use std::time::Clock;

/// A clock, random numbers, memory, the network and files.
pub trait RaceSystem: Clock + RandomSource + AllocGlobal + Net + Files + Copy {}

impl<R> RaceSystem for R
where
    R: Clock + RandomSource + AllocGlobal + Net + Files + Copy,
{}
