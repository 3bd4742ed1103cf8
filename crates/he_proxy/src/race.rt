//! A session's race: its result, and its record.
ghost use Rattle.std.specs.Prelude.{◌≡◌};

use crate::keeping::Keeping;
use futures::Future;
use futures::task::{Context, Poll};
use he_front::Ended;
use he_loop::Joined;
use he_sessions::Won;
use he_source::RaceSystem;
use he_turns::{RaceFault, Raced};
use tokio::net::TcpStream;
use tokio::time::Sleep;

/// The race of a session, on top of any race. Its record is kept when it ends.
#[derive(Drop)]
pub struct LoopRace<'h, R, F: Drop> {
    race: F,
    keeping: Keeping<'h, R>,
    // The number of attempts so far whose sockets have places in the event loop, and the timer that made them.
    placed: usize,
    placing: Option<Sleep>,
}

impl<'h, R, F: Drop> LoopRace<'h, R, F> {
    pub fn new(race: F, keeping: Keeping<'h, R>) -> LoopRace<'h, R, F>
        ensures { result.race ≡ race }
    {
        LoopRace {
            race,
            keeping,
            placed: 0,
            placing: None,
        }
    }
}

impl<'h, R: RaceSystem, F: Drop> LoopRace<'h, R, F> {
    /// When it began, as in the name of its record.
    pub fn began(&self) -> &str {
        self.keeping.began.as_str()
    }
}

impl<'h, R, F> Future for LoopRace<'h, R, F>
where
    R: RaceSystem,
    F: Future<Output = Result<Raced<Joined>, RaceFault>>,
{
    type Output = Result<Won<TcpStream>, Ended>;

    ghost use Rattle.std.specs.Prelude.{Ok};
    ghost use Rattle.he_proxy.specs.Races.{HandsOut};

    ghost can_poll = { λ s. F.can_poll s.race };

    ghost needs = { λ s. F.needs s.race };

    ghost gives = { λ s end. HandsOut (λ raced. F.gives s.race (Ok raced)) end };

    fn poll(&mut self, cx: &mut Context<'_>) -> Poll<Result<Won<TcpStream>, Ended>> {
        self.keeping.hear_leaving();
        match self.race.poll(cx) {
            Poll::Pending => {
                let begun = self.keeping.noted.steps.attempts();
                if begun != self.placed {
                    self.placed = begun;
                    self.placing = self.keeping.shared.make_places(cx);
                }
                Poll::Pending
            }
            Poll::Ready(Ok(raced)) => Poll::Ready(self.keeping.end(raced)),
            Poll::Ready(Err(_)) => Poll::Ready(Err(self.keeping.fail())),
        }
    }
}
