// The answers kept for hosts, and their lifetimes.

use he_addr::Family;
use he_cache::cache::AnswerCache;
use std::test::Fail;

#[test]
fn an_answer_is_kept_for_its_time(rt: HostRuntime) -> Result<(), Fail> {
    let mut cache = AnswerCache::new(rt.alloc())?;
    assert!(rt; cache.answer(7, "example.org", Family::V6)?.is_none());
    cache.keep(7, "Example.ORG", Family::V6, 1u8, Some(60))?;
    assert!(rt; cache.answer(66, "example.org", Family::V6)? == Some(&1));
    assert!(rt; cache.answer(67, "example.org", Family::V6)?.is_none());
    assert!(rt; cache.answer(7, "example.org", Family::V4)?.is_none());
    assert!(rt; cache.answer(7, "example.com", Family::V6)?.is_none());
    Ok(())
}

#[test]
fn a_ttl_is_bounded(rt: HostRuntime) -> Result<(), Fail> {
    let mut cache = AnswerCache::new(rt.alloc())?;
    cache.keep(0, "example.org", Family::V4, 1u8, Some(86_400))?;
    assert!(rt; cache.answer(299, "example.org", Family::V4)? == Some(&1));
    assert!(rt; cache.answer(300, "example.org", Family::V4)?.is_none());
    cache.keep(300, "example.org", Family::V4, 2, None)?;
    assert!(rt; cache.answer(304, "example.org", Family::V4)? == Some(&2));
    assert!(rt; cache.answer(305, "example.org", Family::V4)?.is_none());
    cache.keep(305, "example.org", Family::V4, 3, Some(0))?;
    assert!(rt; cache.answer(305, "example.org", Family::V4)?.is_none());
    Ok(())
}

// The history of addresses.

use he_addr::Ip;
use he_cache::history::{History, SECONDS_KNOWN, Seen};
use he_cache::history_text::{read_history, write_history};

fn seen(last: u8, at: u64) -> Seen {
    Seen {
        ip: Ip::V4(0xc633_6400 + u32::from(last)),
        source: Ip::V4(0xc000_0201),
        rtt: u64::from(last) * 10,
        at,
    }
}

#[test]
fn what_was_seen_counts_for_a_day_and_from_one_source(rt: HostRuntime) -> Result<(), Fail> {
    let mut history = History::new(rt.alloc())?;
    let one = seen(1, 7);
    history.learn(one)?;
    assert!(rt; history.seen(one.ip) == Some(one));
    assert!(rt; history.seen(one.source).is_none());
    assert!(rt; one.counts(one.source, 7));
    assert!(rt; one.counts(one.source, 7 + SECONDS_KNOWN));
    assert!(rt; !one.counts(one.source, 8 + SECONDS_KNOWN));
    assert!(rt; !one.counts(one.ip, 7));
    history.forget(one.source);
    assert!(rt; history.seen(one.ip) == Some(one));
    history.forget(one.ip);
    assert!(rt; history.seen(one.ip).is_none());
    Ok(())
}

#[test]
fn a_history_is_read_back(rt: HostRuntime) -> Result<(), Fail> {
    let mut history = History::new(rt.alloc())?;
    for last in 1..4 {
        history.learn(seen(last, 1_000_000_000 + u64::from(last)))?;
    }
    let mut text = Vec::new(rt.alloc());
    write_history(&history, &mut text)?;
    let wanted: &[u8] =
        b"198.51.100.3 192.0.2.1 30 1000000003\n198.51.100.2 192.0.2.1 20 1000000002\n\
        198.51.100.1 192.0.2.1 10 1000000001\n";
    assert!(rt; text.as_slice() == wanted);
    let read = read_history(rt.alloc(), &text)?;
    assert!(rt; read.wrong.is_empty());
    let mut again = Vec::new(rt.alloc());
    write_history(&read.history, &mut again)?;
    assert!(rt; again.as_slice() == wanted);
    Ok(())
}

#[test]
fn an_empty_text_has_no_wrong_line(rt: HostRuntime) -> Result<(), Fail> {
    let read = read_history(rt.alloc(), b"")?;
    assert!(rt; read.wrong.is_empty() && read.history.is_empty());
    Ok(())
}

#[test]
fn a_wrong_line_is_passed_over(rt: HostRuntime) -> Result<(), Fail> {
    let text: &[u8] =
        b"2001:db8::1 2001:db8::2 7 5\n\n2001:db8::1 2001:db8::2 7\n2001:db8::3 2001:db8::2 x 5\n\
        2001:db8::4 2001:db8::2 9 6\n2001:db8::5 2001:db8::2 7 5 \n";
    let read = read_history(rt.alloc(), text)?;
    assert!(rt; read.wrong.as_slice() == [2, 3, 4, 6].as_slice());
    let first = Ip::V6(0x2001_0db8_0000_0000_0000_0000_0000_0001);
    assert!(rt; read.history.seen(first).map(|seen| seen.rtt) == Some(7));
    let last = Ip::V6(0x2001_0db8_0000_0000_0000_0000_0000_0004);
    assert!(rt; read.history.seen(last).map(|seen| seen.rtt) == Some(9));
    let wrong = Ip::V6(0x2001_0db8_0000_0000_0000_0000_0000_0003);
    assert!(rt; read.history.seen(wrong).is_none());
    Ok(())
}
