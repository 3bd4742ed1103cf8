// That a kept answer is returned, with its addresses or its reason that there are none.

use he_addr::{Family, Ip};
use he_kept::answer::{KeptAnswer, Lifetime, Question};
use he_kept::kept::KeptAnswers;
use he_settings::NamesFault;
use std::alloc::Global;
use std::test::Fail;

const HOST: &str = "www.example.org";

fn answer(alloc: Global, last: u8, at: u64) -> Result<KeptAnswer, Fail> {
    let mut ips = Vec::new(alloc);
    ips.push(Ip::V4(0xc633_6400 + u32::from(last)))?;
    Ok(KeptAnswer {
        question: Question::of(alloc, HOST, Family::V4)?,
        told: Ok(ips),
        life: Lifetime { at, ttl: Some(60) },
    })
}

#[test]
fn what_is_kept_is_handed_out(rt: HostRuntime) -> Result<(), Fail> {
    let kept = KeptAnswers::new(&rt, rt.alloc())?;
    assert!(rt; kept.second(&rt).is_some());
    assert!(rt; kept.known_of(7, HOST, Family::V4).is_none());
    kept.keep(answer(rt.alloc(), 1, 7)?);
    kept.keep(answer(rt.alloc(), 2, 8)?);
    let known = kept.known_of(67, "WWW.example.org", Family::V4);
    let told = known.map(|known| known.into_told());
    assert!(rt;
        told.is_some_and(|told| {
            told.is_ok_and(|ips| ips.as_slice() == [Ip::V4(0xc633_6402)].as_slice())
        })
    );
    assert!(rt; kept.known_of(68, HOST, Family::V4).is_none());
    assert!(rt; kept.known_of(8, HOST, Family::V6).is_none());
    assert!(rt; kept.known(8, HOST, None).is_none());
    let known = kept.known(8, HOST, Some(Family::V4));
    assert!(rt;
        known
            .as_ref()
            .is_some_and(|known| known.fault(Family::V4).is_none())
    );
    assert!(rt; known.is_some_and(|known| known.ips(rt.alloc()).is_ok_and(|ips| ips.len() == 1)));
    assert!(rt; kept.known_of(8, "www.example.com", Family::V4).is_none());
    Ok(())
}

#[test]
fn why_there_are_no_addresses_is_kept(rt: HostRuntime) -> Result<(), Fail> {
    let kept = KeptAnswers::new(&rt, rt.alloc())?;
    for fault in [NamesFault::NoSuchName, NamesFault::NoAddress] {
        kept.keep(KeptAnswer {
            question: Question::of(rt.alloc(), HOST, Family::V6)?,
            told: Err(fault),
            life: Lifetime { at: 7, ttl: None },
        });
        let known = kept.known(11, HOST, Some(Family::V6));
        assert!(rt;
            known
                .as_ref()
                .is_some_and(|known| known.fault(Family::V6) == Some(fault))
        );
        assert!(rt;
            known
                .as_ref()
                .is_some_and(|known| known.fault(Family::V4).is_none())
        );
        assert!(rt;
            known.is_some_and(|known| known.ips(rt.alloc()).is_ok_and(|ips| ips.is_empty()))
        );
        assert!(rt; kept.known_of(12, HOST, Family::V6).is_none());
    }
    Ok(())
}

#[test]
fn a_question_is_asked_until_it_is_dropped(rt: HostRuntime) -> Result<(), Fail> {
    let kept = KeptAnswers::new(&rt, rt.alloc())?;
    let asking = kept.ask(HOST, Family::V6)?;
    assert!(rt; kept.asked("WWW.example.org", Family::V6).is_some());
    assert!(rt; kept.asked(HOST, Family::V4).is_none());
    assert!(rt; kept.asked("www.example.com", Family::V6).is_none());
    drop(asking);
    assert!(rt; kept.asked(HOST, Family::V6).is_none());
    Ok(())
}
