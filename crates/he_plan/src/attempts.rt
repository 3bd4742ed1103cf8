// Attempts, and the plan of a race.

ghost use Rattle.std.specs.Prelude.{◌≡◌};
ghost use Rattle.he_plan.specs.Attempts.{is_tried};

use he_addr::Ip;
use std::alloc::{Allocator, Global};
use std::marker::Model;

/// An attempt to connect: its place in the race, counted from 0, the tick at which it starts, and the address.
#[derive(Clone, Copy, Debug, PartialEq, Eq)]
pub struct Attempt {
    pub place: usize,
    pub tick: u64,
    pub ip: Ip,
}

/// The attempts of a race, by place.
#[derive(Drop)]
pub struct Plan<A: Allocator = Global> {
    attempts: Vec<Attempt, A>,
}

impl<A: Allocator> Model for Plan<A> {
    ghost use Rattle.std.specs.Prelude.{List};
    ghost use Rattle.he_plan.specs.declared.attempts.Attempt.{Attempt};

    ghost Value = { List Attempt };

    ghost view = { λ plan. plan.attempts.items };
}

impl<A: Allocator> Plan<A> {
    /// The plan with these attempts.
    pub fn new(attempts: Vec<Attempt, A>) -> Plan<A>
        ensures { result ≡ attempts.items }
    {
        Plan { attempts }
    }

    /// The attempts, by place.
    pub fn attempts(&self) -> &[Attempt]
        ensures { result.now ≡ self.now }
    {
        self.attempts.as_slice()
    }
}

// Whether one of these attempts tries the address.
pub(crate) fn is_tried(done: &[Attempt], ip: Ip) -> bool
    ensures { result ≡ is_tried done.now ip }
{
    done.iter().any(|attempt| attempt.ip == ip)
}
