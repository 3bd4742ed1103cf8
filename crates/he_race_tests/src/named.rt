// A connector whose connections are their addresses, over a recorded race.

use crate::homes::{PlannedRace, V4_A, V6_A, first_race, race};
use crate::races::{Stepping, drive};
use futures::task::{Context, Doorbell, Poll, Solo};
use he_addr::Ip;
use he_plan::Outcome3;
use he_race::{AttemptFault, Connector, RaceFuture, Scripted, ScriptedTrial, Trial, WheelTicker};
use he_timeline::{Outcome, Timeline};
use std::alloc::Global;
use std::mem::drop;
use std::test::Fail;

#[derive(Drop)]
struct NamedTrial {
    ip: Ip,
    trial: ScriptedTrial,
}

impl Trial for NamedTrial {
    type Conn = Ip;

    ghost use Rattle.std.specs.Prelude.{⊤, ◌≡◌};
    ghost use Rattle.he_race.specs.Scripted.{tick_of};

    ghost polls = { λ _ _ _ _. ⊤ };

    ghost due_tick = { λ s. tick_of s.trial };

    ghost may_give = { λ s conn. conn ≡ s.ip };

    fn poll_trial(&mut self, now: u64, cx: &mut Context<'_>) -> Poll<Result<Ip, AttemptFault>> {
        match self.trial.poll_trial(now, cx) {
            Poll::Pending => cx.yield_now(),
            Poll::Ready(Ok(())) => Poll::Ready(Ok(self.ip)),
            Poll::Ready(Err(fault)) => Poll::Ready(Err(fault)),
        }
    }

    fn due(&self) -> Option<u64> {
        self.trial.due()
    }
}

#[derive(Drop)]
struct Named<'a> {
    script: Scripted<'a>,
}

impl<'a> Connector for Named<'a> {
    type Conn = Ip;

    type Run = NamedTrial;

    ghost use Rattle.std.specs.Prelude.{⊤, ◌≡◌};

    ghost begins = { λ _ _ _ _ _ _. ⊤ };

    ghost reaches = { λ _ ip conn. conn ≡ ip };

    fn begin(&mut self, place: usize, ip: Ip, now: u64) -> Result<NamedTrial, AttemptFault> {
        match self.script.begin(place, ip, now) {
            Ok(trial) => Ok(NamedTrial { ip, trial }),
            Err(fault) => Err(fault),
        }
    }
}

// The race's result, and the address of the winner's connection.
fn winner(
    alloc: Global,
    solo: &Solo,
    given: &PlannedRace,
) -> Result<(Option<Outcome3>, Option<Ip>), Fail> {
    let timeline = race(alloc, given)?;
    let ended = ended(alloc, solo, &timeline);
    drop(timeline);
    ended
}

fn ended(
    alloc: Global,
    solo: &Solo,
    timeline: &Timeline,
) -> Result<(Option<Outcome3>, Option<Ip>), Fail> {
    let wheel = WheelTicker::new(alloc, timeline)?;
    let script = Scripted::new(timeline);
    let future = RaceFuture::new(alloc, timeline, Named { script }, Stepping { wheel })?;
    match drive(solo, future, 40) {
        Some(Ok(raced)) => {
            let ended = (Some(raced.transcript.result()), raced.winner);
            drop(raced);
            Ok(ended)
        }
        given => {
            drop(given);
            Ok((None, None))
        }
    }
}

// The first attempt, at 20, and the second, at 270, connect at an equal tick: the first place wins. Then only the
// second one connects.
#[test]
fn the_winner_goes_to_its_line(rt: HostRuntime) -> Result<(), Fail> {
    let solo = Solo::new(&rt, Doorbell::spinning())?;
    let alloc: Global = rt.alloc();
    let both = PlannedRace {
        v6: Some(Outcome::Ok(260)),
        ..first_race(Some(Outcome::Ok(10)))
    };
    assert_eq!(rt;
        winner(alloc, &solo, &both)?,
        (Some(Outcome3::Won(0, 280)), Some(V6_A))
    );
    let second = PlannedRace {
        v6: Some(Outcome::Fail(260)),
        ..both
    };
    assert_eq!(rt;
        winner(alloc, &solo, &second)?,
        (Some(Outcome3::Won(1, 280)), Some(V4_A))
    );
    Ok(())
}
