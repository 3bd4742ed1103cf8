//! The steps of a live race's attempts, reported during the race.

use crate::reason::Reason;
use he_addr::{Ip, Memory};
use std::alloc::Global;
use std::cell::Cell;
use std::rc::Rc;

/// A step of an attempt.
#[derive(Clone, Copy, Debug, PartialEq, Eq)]
pub enum StepKind {
    Began,
    Failed(Reason),
    /// The connection was made. Of those made at one tick the first wins.
    Connected,
}

/// A step of a live race.
#[derive(Clone, Copy, Debug, PartialEq, Eq)]
pub struct Step {
    /// The attempt's place in the race.
    pub place: usize,
    /// The address that it connects to.
    pub ip: Ip,
    /// Milliseconds since the race's start.
    pub tick: u64,
    pub what: StepKind,
}

/// Gets the steps of a live race, in order: those of a turn at its end, those of the last turn before the race's call
/// returns.
pub trait Watcher {
    fn tell(&self, step: Step);
}

/// A watcher that does nothing.
#[derive(Clone, Copy, Debug, Drop)]
pub struct Quiet;

impl Watcher for Quiet {
    fn tell(&self, _step: Step) {}
}

// A watcher that the caller keeps.
impl<'w, W: Watcher> Watcher for &'w W {
    fn tell(&self, step: Step) {
        (**self).tell(step);
    }
}

/// The steps of one live race. They grow with the number of attempts.
#[derive(Drop)]
pub struct Steps {
    // The notes of the race's sockets.
    shared: Rc<Noted>,
}

#[derive(Drop)]
struct Noted {
    alloc: Global,
    steps: Cell<Vec<Step>>,
    // The number of attempts with room for their steps.
    attempts: Cell<usize>,
    told: Cell<usize>,
    // The tick at which the last attempt began.
    begun: Cell<Option<u64>>,
}

// Each attempt starts, and fails or connects.
const STEPS_OF_ATTEMPT: usize = 2;

impl Steps {
    /// No steps.
    ///
    /// # Errors
    ///
    /// `Memory` if an allocation fails.
    pub fn new(alloc: Global) -> Result<Steps, Memory> {
        let noted = Noted {
            alloc,
            steps: Cell::new(Vec::new(alloc)),
            attempts: Cell::new(0),
            told: Cell::new(0),
            begun: Cell::new(None),
        };
        Ok(Steps {
            shared: Rc::new(alloc, noted)?,
        })
    }

    /// Why the attempt at the place failed; `Unknown` if no failure of it was noted.
    pub fn reason_of(&self, place: usize) -> Reason {
        let steps = self.take();
        let reason = reason_in(&steps, place);
        self.shared.steps.set(steps);
        reason
    }

    /// Another handle to these steps.
    ///
    /// # Errors
    ///
    /// `Memory` if there are too many handles.
    pub fn share(&self) -> Result<Steps, Memory> {
        Ok(Steps {
            shared: self.shared.clone()?,
        })
    }

    /// Another handle to these steps, with room for those of one more attempt.
    ///
    /// # Errors
    ///
    /// `Memory` if an allocation fails.
    pub fn for_attempt(&self) -> Result<Steps, Memory> {
        let attempts = self.shared.attempts.get().saturating_add(1);
        let mut steps = self.take();
        let wanted = attempts.saturating_mul(STEPS_OF_ATTEMPT);
        let room = steps.reserve(wanted.saturating_sub(steps.len()));
        self.shared.steps.set(steps);
        room?;
        self.shared.attempts.set(attempts);
        self.share()
    }

    /// The number of attempts so far with room for their steps.
    pub fn attempts(&self) -> usize {
        self.shared.attempts.get()
    }

    // The tick at which the last attempt started, if any.
    pub(crate) fn last_begun(&self) -> Option<u64> {
        self.shared.begun.get()
    }

    /// Notes a step of an attempt that has room for it ([`for_attempt`](Steps::for_attempt)).
    pub fn note(&self, step: Step) {
        if step.what == StepKind::Began {
            self.shared.begun.set(Some(step.tick));
        }
        let mut steps = self.take();
        let _ = steps.push(step);
        self.shared.steps.set(steps);
    }

    // Reports the steps that are new since the last call to the watcher.
    pub(crate) fn tell_new<W: Watcher>(&self, watcher: &W) {
        let (told, count) = (self.shared.told.get(), self.count());
        self.shared.told.set(count);
        for at in told..count {
            if let Some(step) = self.step_at(at) {
                watcher.tell(step);
            }
        }
    }

    fn count(&self) -> usize {
        let steps = self.take();
        let count = steps.len();
        self.shared.steps.set(steps);
        count
    }

    fn step_at(&self, at: usize) -> Option<Step> {
        let steps = self.take();
        let step = steps.get(at).copied();
        self.shared.steps.set(steps);
        step
    }

    // Takes the steps out; none are left until they are put back.
    fn take(&self) -> Vec<Step> {
        self.shared.steps.replace(Vec::new(self.shared.alloc))
    }
}

fn reason_in(steps: &[Step], place: usize) -> Reason {
    for step in steps {
        if step.place == place
            && let StepKind::Failed(reason) = step.what
        {
            return reason;
        }
    }
    Reason::Unknown
}
