//! A system error that may last, reported once.

use crate::cause::Cause;
use std::cell::Cell;
use std::io;

/// Whether something fails, and whether that was reported.
#[derive(Drop)]
pub struct Trouble {
    state: Cell<State>,
}

#[derive(Clone, Copy)]
enum State {
    Well,
    Fails(Cause),
    Said,
}

impl Trouble {
    /// No failure.
    pub fn none() -> Trouble {
        Trouble {
            state: Cell::new(State::Well),
        }
    }

    /// Records this result.
    pub fn note(&self, done: &io::Result<()>) {
        match (done, self.state.get()) {
            (Ok(()), _) => self.state.set(State::Well),
            (Err(error), State::Well) => self.state.set(State::Fails(Cause::of(error))),
            (Err(_), _) => {}
        }
    }

    /// The error to report: the first one, and the first one after each success.
    pub fn take(&self) -> Option<Cause> {
        match self.state.get() {
            State::Fails(cause) => {
                self.state.set(State::Said);
                Some(cause)
            }
            State::Well | State::Said => None,
        }
    }
}
