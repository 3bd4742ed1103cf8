// The events of a race, each with its tick.

use crate::cause::Cause;
use crate::listing::Listed;
use he_addr::{Family, Ip};

/// The start of an attempt.
#[derive(Clone, Copy, Debug, PartialEq, Eq)]
pub struct Start {
    pub place: usize,
    pub ip: Ip,

    /// Why the attempt starts.
    pub cause: Cause,

    /// Whether a pause held it back: it was due before it started.
    pub held: bool,

    /// The place of its address in the list from which it is taken.
    pub listed: Listed,
}

/// The kind of an event.
#[derive(Clone, Copy, Debug, PartialEq, Eq)]
pub enum EventKind {
    /// The client begins to sleep, up to this tick.
    Paused(u64),

    /// The answer of this family is seen, with this number of usable addresses.
    Answered(Family, usize),

    /// The client waits for the AAAA answer up to this tick, the end of the Resolution Delay.
    Waits(u64),

    /// The client sees that the Resolution Delay has ended without an AAAA answer.
    DelayOver,

    /// The attempt of this place failed.
    Failed(usize),

    /// An attempt starts.
    Started(Start),

    /// The attempt of this place won; the race is over.
    Won(usize),

    /// Every attempt failed; the race is over.
    Exhausted,

    /// The race reached its limit.
    Limit,

    /// The attempt of this place is cancelled because the race is over.
    Cancelled(usize),
}

/// An event of a race.
#[derive(Clone, Copy, Debug, PartialEq, Eq)]
pub struct Event {
    pub tick: u64,
    pub kind: EventKind,
}
