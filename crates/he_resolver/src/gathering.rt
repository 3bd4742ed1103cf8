// The results of both families of a host, each with its tick.

ghost use Rattle.std.specs.Prelude.{◌≡◌, ◌≢◌, ◌&&◌, is_some};
ghost use Rattle.std.specs.Result.{result_err};
ghost use Rattle.futures.specs.Task.{Keeps};
ghost use Rattle.he_resolver.specs.Needs.{IsHeard, gathering_needs, told_of};

use crate::lookup::Lookup;
use futures::Future;
use futures::task::{Context, Poll};
use he_addr::{Family, Ip};
use he_names::Found;
use he_settings::{NamesFault, first_fault};
use std::alloc::Global;
use std::net::Net;
use std::random::RandomSource;
use std::time::Clock;

// A family's result, and when it came, in milliseconds since the look-up began.
#[derive(Drop)]
pub(crate) struct FamilyAnswer {
    tick: u64,
    answer: Result<Vec<Ip>, NamesFault>,
}

// The results of both families or, if neither has an address, why; and why each family has none, if it has none.
#[derive(Drop)]
pub(crate) struct Gathered {
    pub(crate) found: Result<Found, NamesFault>,
    pub(crate) v6: Option<NamesFault>,
    pub(crate) v4: Option<NamesFault>,
}

// Waits for both results.
#[derive(Drop)]
pub(crate) struct Gathering<'h, R> {
    alloc: Global,
    lookup: Lookup<'h, R>,
    v6: Option<FamilyAnswer>,
    v4: Option<FamilyAnswer>,
}

impl<'h, R: Net + RandomSource + Clock> Gathering<'h, R> {
    pub(crate) fn new(alloc: Global, lookup: Lookup<'h, R>) -> Gathering<'h, R> {
        Gathering {
            alloc,
            lookup,
            v6: None,
            v4: None,
        }
    }

    // Polls for the family, unless it has its result, and records the result at this tick.
    fn poll_for(&mut self, family: Family, tick: u64, cx: &mut Context<'_>)
        ensures own { IsHeard cx.new self.new family }
        ensures other { (other : _) → other ≢ family → IsHeard cx.old self.old other → IsHeard cx.new self.new other }
        ensures kept { Keeps cx.old cx.new }
    {
        if self.is_told(family) {
            return;
        }
        if let Poll::Ready(answer) = self.lookup.poll_answer(family, cx) {
            let told = Some(FamilyAnswer { tick, answer });
            match family {
                Family::V6 => self.v6 = told,
                Family::V4 => self.v4 = told,
            }
        }
    }

    fn is_told(&self, family: Family) -> bool
        ensures { result ≡ is_some (told_of self.now family) }
    {
        match family {
            Family::V6 => self.v6.is_some(),
            Family::V4 => self.v4.is_some(),
        }
    }

    fn are_told(&self) -> bool
        ensures { result ≡ (is_some self.now.v6 && is_some self.now.v4) }
    {
        self.v6.is_some() && self.v4.is_some()
    }

    // Takes both results out.
    fn join(&mut self) -> Gathered {
        match (self.v6.take(), self.v4.take()) {
            (Some(v6), Some(v4)) => join(self.alloc, v6, v4),
            _ => Gathered {
                found: Err(NamesFault::NoAnswer),
                v6: None,
                v4: None,
            },
        }
    }
}

impl<R: Net + RandomSource + Clock> Future for Gathering<'_, R> {
    type Output = Gathered;

    ghost needs = { gathering_needs };

    fn poll(&mut self, cx: &mut Context<'_>) -> Poll<Gathered> {
        let tick = self.lookup.tick();
        self.poll_for(Family::V6, tick, cx);
        self.poll_for(Family::V4, tick, cx);
        if self.are_told() {
            Poll::Ready(self.join())
        } else {
            Poll::Pending
        }
    }
}

// Joins both results, with why each family has no address.
fn join(alloc: Global, v6: FamilyAnswer, v4: FamilyAnswer) -> Gathered
    ensures six { result.v6 ≡ result_err v6.answer }
    ensures four { result.v4 ≡ result_err v4.answer }
{
    let lacks = (lack_of(&v6.answer), lack_of(&v4.answer));
    let found = match lacks {
        (Some(six), Some(four)) => Err(first_fault(six, four)),
        _ => found_of(alloc, v6, v4),
    };
    Gathered {
        found,
        v6: lacks.0,
        v4: lacks.1,
    }
}

fn lack_of(answer: &Result<Vec<Ip>, NamesFault>) -> Option<NamesFault>
    ensures { result ≡ result_err answer.now }
{
    match answer {
        Ok(_) => None,
        Err(fault) => Some(*fault),
    }
}

fn found_of(alloc: Global, v6: FamilyAnswer, v4: FamilyAnswer) -> Result<Found, NamesFault> {
    let six = v6.answer.unwrap_or(Vec::new(alloc));
    let four = v4.answer.unwrap_or(Vec::new(alloc));
    match Found::new(alloc, v6.tick, &six, v4.tick, &four)? {
        Some(found) => Ok(found),
        None => Err(NamesFault::NoAddress),
    }
}
