// A ticker that jumps from one requested tick to the next.

ghost use Rattle.std.specs.Prelude.{◌≡◌, ◌<◌, ◌≤◌, IfOk, IsOk, [], Result};
ghost use Rattle.futures.specs.Task.{IsArmed, Keeps};
ghost use Rattle.he_timeline.specs.Seen.{seen};
ghost use Rattle.he_race.specs.Wheel.{Jumps};

use futures::task::Context;
use he_addr::Memory;
use he_timeline::Timeline;
use he_turns::{TickFault, Ticker};
use std::alloc::{Allocator, Global};
use std::collections::BTreeSet;
use std::marker::Model;

/// The timer wheel of a recorded race: it is at a tick, keeps the requested ticks, and `jump` moves to the least of
/// them. It is never at a tick that a pause of the timeline covers.
#[derive(Drop)]
pub struct WheelTicker<'a, A: Allocator = Global, B: Allocator = Global> {
    timeline: &'a Timeline<B>,
    asked: BTreeSet<u64, A>,
    at: u64,
}

impl<'a, A: Allocator, B: Allocator> Model for WheelTicker<'a, A, B> {
    ghost use Rattle.he_race.specs.Wheel.{Wheel, AreLater};

    ghost Value = { Wheel };

    ghost view = { λ w. record { race = w.timeline.now; at = w.at; asked = w.asked.keys } };

    ghost invariant = { λ w. AreLater w.at w.asked.keys };
}

impl<'a, A: Allocator, B: Allocator> WheelTicker<'a, A, B> {
    /// A ticker at the first tick that no pause covers, without requests. It allocates nothing.
    pub fn new(alloc: A, timeline: &'a Timeline<B>) -> Result<WheelTicker<'a, A, B>, Memory>
        ensures never_fails { IsOk result }
        ensures start { IfOk result (λ w. w ≡ record { race = timeline.now; at = seen timeline.now 0; asked = [] }) }
    {
        Ok(WheelTicker {
            timeline,
            asked: BTreeSet::new(alloc),
            at: timeline.seen(0),
        })
    }

    /// Moves to the least requested tick, or to the end of the pause that covers it, and drops the requests up to
    /// there. Returns false if there is no request. It allocates nothing.
    pub fn jump(&mut self) -> Result<bool, Memory>
        ensures never_fails { IsOk result }
        ensures goes { IfOk result (λ went. Jumps self.old went self.new) }
    {
        let Some(tick) = self.asked.first() else {
            return Ok(false);
        };
        let at = self.timeline.seen(*tick);
        self.asked.retain(|tick| *tick > at);
        self.at = at;
        Ok(true)
    }
}

impl<'a, A: Allocator + Clone, B: Allocator> Ticker for WheelTicker<'a, A, B> {
    ghost use Rattle.std.specs.Prelude.{◌≡◌};
    ghost use Rattle.he_race.specs.Wheel.{Asks};

    ghost tells = { λ w tick left. (tick ≡ w.at) × (left ≡ w) };

    ghost wakes = { Asks };

    fn now(&mut self) -> u64 {
        self.at
    }

    fn wake_at(&mut self, tick: u64, cx: &mut Context<'_>) -> Result<(), TickFault> {
        let next = tick.max(self.at.saturating_add(1));
        match self.asked.insert(next) {
            Ok(_) => {
                let _ = cx.yield_now::<()>();
                Ok(())
            }
            Err(_) => Err(TickFault::Memory),
        }
    }
}
