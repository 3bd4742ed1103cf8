// A connector of a user's own: it refuses every address but one, which answers at the third poll, whatever the tick.

use crate::homes::{V4_A, V6_A};
use futures::task::{Context, Doorbell, Poll, Solo};
use he_addr::Ip;
use he_race::{AttemptFault, AttemptFuture, Connector, Finish, Trial};
use std::test::Fail;

#[derive(Drop)]
struct Patient {
    polls: u8,
}

impl Trial for Patient {
    type Conn = u8;

    ghost use Rattle.std.specs.Prelude.{⊤, None};

    ghost polls = { λ _ _ _ _. ⊤ };

    ghost due_tick = { λ _. None };

    fn poll_trial(&mut self, _now: u64, cx: &mut Context<'_>) -> Poll<Result<u8, AttemptFault>> {
        self.polls = self.polls.saturating_add(1);
        if self.polls < 3 {
            return cx.yield_now();
        }
        Poll::Ready(Ok(self.polls))
    }

    fn due(&self) -> Option<u64> {
        None
    }
}

#[derive(Drop)]
struct OneAddress {
    ip: Ip,
}

impl Connector for OneAddress {
    type Conn = u8;

    type Run = Patient;

    ghost use Rattle.std.specs.Prelude.{⊤};

    ghost begins = { λ _ _ _ _ _ _. ⊤ };

    fn begin(&mut self, _place: usize, ip: Ip, _now: u64) -> Result<Patient, AttemptFault> {
        if ip == self.ip {
            Ok(Patient { polls: 0 })
        } else {
            Err(AttemptFault::Begin)
        }
    }
}

// The tick and the answer of the attempt's finish, polled at every tick from 1 to 9, or none. The attempt starts at
// 4.
fn finish<C: Connector>(
    solo: &Solo,
    mut connector: C,
    ip: Ip,
) -> Option<(u64, Result<C::Conn, AttemptFault>)> {
    let mut future = AttemptFuture::new(0, ip, 4);
    for tick in 1..10 {
        let mut cx = solo.begin();
        let polled = future.poll_attempt(&mut connector, tick, &mut cx);
        cx.cancel();
        if let Poll::Ready(
            Finish {
                tick,
                result: answer,
            },
        ) = polled
        {
            return Some((tick, answer));
        }
    }
    None
}

#[test]
fn connector_of_ones_own(rt: HostRuntime) -> Result<(), Fail> {
    let solo = Solo::new(&rt, Doorbell::spinning())?;
    assert_eq!(rt;
        finish(&solo, OneAddress { ip: V6_A }, V6_A),
        Some((7, Ok(3)))
    );
    assert_eq!(rt;
        finish(&solo, OneAddress { ip: V6_A }, V4_A),
        Some((5, Err(AttemptFault::Begin)))
    );
    Ok(())
}
