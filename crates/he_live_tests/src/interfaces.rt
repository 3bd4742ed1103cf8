// The interface of a link-local address, as passed to connect(2).

use crate::homes::Lender;
use futures::task::{Context, Poll};
use he_addr::Family;
use he_inputs::read_one_race;
use he_live::{Endpoint, Quiet, Reason, ResolvingRequest, Steps, resolving_race_on};
use he_turns::{Answer, AnswerSource};
use std::mem::drop;
use std::net::Net;
use std::test::Fail;
use tokio::runtime::LocalRuntime;

const ON_LINK: &[u8] = b"race 1
set limit 300
aaaa 0 fe80::1
a 0 none
end
";

// EINVAL: the error of connect(2) for a link-local address without an interface.
const INVALID: Reason = Reason::Other(22);

// A number that no interface has.
const ABSENT: u32 = 99_999;

// A source that is never asked, since both answers are known.
#[derive(Drop)]
struct Unasked;

impl AnswerSource for Unasked {
    ghost use Rattle.std.specs.Prelude.{⊤};

    ghost hears = { λ _ _ _ _ _. ⊤ };

    fn poll_answer(&mut self, _: Family, _: u64, cx: &mut Context<'_>) -> Poll<Answer> {
        cx.yield_now()
    }
}

// Why the attempt at the link-local address fails.
fn reason_at<R: Lender + Net>(rt: &R, to: Endpoint) -> Result<Reason, Fail> {
    let mut runtime = LocalRuntime::new(rt)?;
    let timeline = read_one_race(rt.alloc(), ON_LINK, false)?;
    let steps = Steps::new(rt.alloc())?;
    let request = ResolvingRequest {
        timeline: &timeline,
        source: Unasked,
        to,
    };
    let raced = resolving_race_on(rt, rt.alloc(), &mut runtime, request, &steps, &Quiet);
    drop(timeline);
    drop(runtime);
    drop(raced?);
    Ok(steps.reason_of(0))
}

#[test]
fn the_interface_reaches_connect(rt: HostRuntime) -> Result<(), Fail> {
    let none = Endpoint::at_port(9);
    let absent = Endpoint {
        port: 9,
        scope: ABSENT,
    };
    assert_eq!(rt; reason_at(&rt, none)?, INVALID);
    let reason = reason_at(&rt, absent)?;
    assert!(rt;
        matches!(
            reason,
            Reason::NetworkUnreachable | Reason::AddressNotAvailable
        )
    );
    Ok(())
}
