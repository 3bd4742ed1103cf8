//! The ticks of a session's race, which ends once its client has left.

use futures::task::Context;
use he_addr::Memory;
use he_live::{LiveTicker, Quiet};
use he_turns::{TickFault, Ticker};
use std::alloc::Global;
use std::cell::Cell;
use std::rc::Rc;
use std::time::Clock;

/// The progress of a race, shared by its ticker and the keeper of its record.
#[derive(Drop)]
pub struct Progress {
    shared: Rc<State>,
}

#[derive(Drop)]
struct State {
    // The last tick given.
    last: Cell<u64>,
    has_left: Cell<bool>,
}

impl Progress {
    /// The race has not begun.
    ///
    /// # Errors
    ///
    /// `Memory` if an allocation fails.
    pub fn new(alloc: Global) -> Result<Progress, Memory> {
        let state = State {
            last: Cell::new(0),
            has_left: Cell::new(false),
        };
        Ok(Progress {
            shared: Rc::new(alloc, state)?,
        })
    }

    /// Another handle to this progress.
    ///
    /// # Errors
    ///
    /// `Memory` if there are too many handles.
    pub fn share(&self) -> Result<Progress, Memory> {
        Ok(Progress {
            shared: self.shared.clone()?,
        })
    }

    /// The race's client has left: the race ends at its next poll.
    pub fn leave(&self) {
        self.shared.has_left.set(true);
    }

    /// The tick at which the race was given up, if it was: one after the last tick given.
    pub fn given_up(&self) -> Option<u64> {
        if self.shared.has_left.get() {
            Some(self.shared.last.get().saturating_add(1))
        } else {
            None
        }
    }
}

/// The ticks of a live race; once its client has left, a tick past every limit.
#[derive(Drop)]
pub struct RaceTicker<'h, K: Clock> {
    ticks: LiveTicker<'h, K, Quiet>,
    progress: Progress,
}

impl<'h, K: Clock> RaceTicker<'h, K> {
    /// These ticks, for a race with this progress.
    pub fn new(ticks: LiveTicker<'h, K, Quiet>, progress: Progress) -> RaceTicker<'h, K> {
        RaceTicker { ticks, progress }
    }
}

impl<'h, K: Clock> Ticker for RaceTicker<'h, K> {
    ghost use Rattle.std.specs.Prelude.{⊤};

    ghost tells = { λ _ _ _. ⊤ };

    ghost wakes = { λ _ _ _ _. ⊤ };

    fn now(&mut self) -> u64 {
        if self.progress.shared.has_left.get() {
            return u64::MAX;
        }
        let tick = self.ticks.now();
        self.progress.shared.last.set(tick);
        tick
    }

    fn wake_at(&mut self, tick: u64, cx: &mut Context<'_>) -> Result<(), TickFault> {
        self.ticks.wake_at(tick, cx)
    }
}
