//! Counts running sessions.

use std::cell::Cell;

/// The number of running sessions, and whether the limit was reached.
#[derive(Drop)]
pub struct Running {
    most: u32,
    count: Cell<u32>,
    is_full: Cell<bool>,
}

impl Running {
    /// No sessions, of at most `most`.
    pub fn new(most: u32) -> Running {
        Running {
            most,
            count: Cell::new(0),
            is_full: Cell::new(false),
        }
    }

    /// The most sessions at once.
    pub fn most(&self) -> u32 {
        self.most
    }

    /// Adds a session. Returns true if this reaches the limit, the first time since there was room for a tenth of it.
    pub fn add(&self) -> bool {
        self.count.set(self.count.get().saturating_add(1));
        self.count.get() >= self.most && !self.is_full.replace(true)
    }

    /// Removes a session. Returns true if there is room for a tenth of the limit, the first time since the limit was
    /// reached.
    pub fn remove(&self) -> bool {
        self.count.set(self.count.get().saturating_sub(1));
        let room = self.most.saturating_sub(self.count.get());
        room >= (self.most / 10).max(1) && self.is_full.replace(false)
    }
}
