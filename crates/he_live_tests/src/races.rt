// Races against servers on loopback.

use crate::homes::{
    End, Lender, ONE, REFUSED, Result3, Wanted, descriptors, free_port, listen, race, replays,
};
use he_addr::Ip;
use he_live::{FailedAttempt, LiveReport, Reason, live};
use he_plan::Outcome3;
use he_stream::{FromReader, ToWriter};
use he_timeline::Changes;
use std::io::Read;
use std::mem::drop;
use std::net::{IpAddr, Ipv4Addr, Ipv6Addr, Net, SocketAddr, TcpListener, TcpStream as StdStream};
use std::test::Fail;
use stream_fakes::FakeReader;
use tokio::net::{ConnectFuture, TcpStream};
use tokio::runtime::LocalRuntime;

const BOTH: &[u8] = b"race 1
set attempt 20
source ::1/128 1
source 127.0.0.1/8 1
route ::1/128 1
route 127.0.0.0/8 1
aaaa 0 ::1
a 0 127.0.0.1
end
";

const SILENT_THEN_OPEN: &[u8] = b"race 1
set attempt 100
source 127.0.0.1/8 1
route 127.0.0.0/8 1
aaaa 0 none
a 0 127.0.0.2 127.0.0.1
end
";

const SILENT: &[u8] = b"race 1
set limit 300
source 127.0.0.1/8 1
route 127.0.0.0/8 1
a 0 127.0.0.2
end
";

const NOTHING: &[u8] = b"race 1
set limit 300
end
";

const OPEN: Ipv4Addr = Ipv4Addr::LOCALHOST;

// The beginning of a record.
const RECORD: &[u8] = b"record at ";

// More connections than a listener's queue takes.
const CROWD: usize = 200;

const WON: Wanted<'static> = Wanted {
    attempts: &[(0, End::Won)],
    result: Result3::Won(0),
    least: 0,
    reason: Reason::Refused,
};

const SECOND_WON: Wanted<'static> = Wanted {
    attempts: &[(0, End::Failed), (20, End::Won)],
    result: Result3::Won(1),
    least: 20,
    reason: Reason::Refused,
};

const BOTH_REFUSED: Wanted<'static> = Wanted {
    attempts: &[(0, End::Failed), (20, End::Failed)],
    result: Result3::Exhausted,
    least: 20,
    reason: Reason::Refused,
};

const LEFT_BEHIND: Wanted<'static> = Wanted {
    attempts: &[(0, End::Cancelled), (100, End::Won)],
    result: Result3::Won(1),
    least: 100,
    reason: Reason::Refused,
};

const CUT_OFF: Wanted<'static> = Wanted {
    attempts: &[(0, End::Cancelled)],
    result: Result3::Limit,
    least: 300,
    reason: Reason::Refused,
};

const NOBODY: Wanted<'static> = Wanted {
    attempts: &[],
    result: Result3::Limit,
    least: 300,
    reason: Reason::Refused,
};

/// The address of the silent server: its listener's queue is full.
pub fn dead_ip() -> IpAddr {
    IpAddr::V4(Ipv4Addr::new(127, 0, 0, 2))
}

fn races_with_a_listener<R: Lender + Net<Listener = TcpListener, Stream = StdStream>>(
    rt: &R,
) -> Result<bool, Fail> {
    let (listener, port) = listen(rt, IpAddr::V4(OPEN), 0)?;
    let one = race(rt, ONE, port, &WON)?;
    let both = race(rt, BOTH, port, &SECOND_WON)?;
    drop(listener);
    Ok(one && both)
}

fn races_with_nobody<R: Lender + Net<Listener = TcpListener, Stream = StdStream>>(
    rt: &R,
) -> Result<bool, Fail> {
    let port = free_port(rt)?;
    let one = race(rt, ONE, port, &REFUSED)?;
    let both = race(rt, BOTH, port, &BOTH_REFUSED)?;
    let nothing = race(rt, NOTHING, port, &NOBODY)?;
    Ok(one && both && nothing)
}

#[test]
fn servers_listen_or_refuse(rt: HostRuntime) -> Result<(), Fail> {
    let before = descriptors(&rt)?;
    if TcpListener::bind(&rt, SocketAddr::new(IpAddr::V6(Ipv6Addr::LOCALHOST), 0)).is_err() {
        println!(rt; "no IPv6 loopback here: attempts at ::1 fail for that, and are not refused")?;
    }
    assert!(rt; races_with_a_listener(&rt)?);
    assert!(rt; races_with_nobody(&rt)?);
    assert_eq!(rt; descriptors(&rt)?, before);
    Ok(())
}

/// `CROWD` connections to the address, none of which is accepted.
pub fn crowd<R: Lender + Net<Listener = TcpListener, Stream = StdStream>>(
    rt: &R,
    runtime: &LocalRuntime,
    port: u16,
) -> Result<Vec<ConnectFuture>, Fail> {
    let mut waiting = Vec::new(rt.alloc());
    let addr = SocketAddr::new(dead_ip(), port);
    for _ in 0..CROWD {
        waiting.push(TcpStream::connect(rt, addr, runtime.handle().reactor()))?;
    }
    Ok(waiting)
}

// A race in which the next address wins, and one that its limit ends.
fn races_with_a_silent_server<R>(rt: &R, port: u16) -> Result<bool, Fail>
where
    R: Lender + Net,
{
    let left = race(rt, SILENT_THEN_OPEN, port, &LEFT_BEHIND)?;
    let cut = race(rt, SILENT, port, &CUT_OFF)?;
    Ok(left && cut)
}

fn races_with_a_full_queue<R>(rt: &R, runtime: &LocalRuntime, port: u16) -> Result<bool, Fail>
where
    R: Lender + Net<Listener = TcpListener, Stream = StdStream>,
{
    let (dead, _) = listen(rt, dead_ip(), port)?;
    let waiting = crowd(rt, runtime, port)?;
    let are_right = races_with_a_silent_server(rt, port);
    drop(waiting);
    drop(dead);
    are_right
}

#[test]
fn a_silent_server_is_left_behind(rt: HostRuntime) -> Result<(), Fail> {
    let before = descriptors(&rt)?;
    let runtime = LocalRuntime::new(&rt)?;
    let (open, port) = listen(&rt, IpAddr::V4(OPEN), 0)?;
    let are_right = races_with_a_full_queue(&rt, &runtime, port)?;
    drop(open);
    drop(runtime);
    assert!(rt; are_right);
    assert_eq!(rt; descriptors(&rt)?, before);
    Ok(())
}

// The number of right races of a hundred, one after the other: each is won, and the server finds its connection
// closed.
fn right_races<R: Lender + Net<Listener = TcpListener, Stream = StdStream>>(
    rt: &R,
    listener: &TcpListener,
    port: u16,
) -> Result<usize, Fail> {
    let mut right: usize = 0;
    for _ in 0..100u8 {
        let is_won = race(rt, ONE, port, &WON)?;
        let (mut stream, _) = listener.accept()?;
        if is_won && stream.read(&mut [0])? == 0 {
            right = right.saturating_add(1);
        }
    }
    Ok(right)
}

#[test]
fn a_hundred_races_leave_no_socket(rt: HostRuntime) -> Result<(), Fail> {
    let (listener, port) = listen(&rt, IpAddr::V4(OPEN), 0)?;
    let before = descriptors(&rt)?;
    assert_eq!(rt; right_races(&rt, &listener, port)?, 100);
    assert_eq!(rt; descriptors(&rt)?, before);
    Ok(())
}

// The failure at a port without a listener.
const FIRST_REFUSED: FailedAttempt = FailedAttempt {
    place: 0,
    ip: Ip::V4(0x7f00_0001),
    reason: Reason::Refused,
};

// Whether `live` reports that the race was won if it is to be, and writes a transcript with an attempt, and a record
// that replays to it.
fn is_told<R: Lender + Net<Listener = TcpListener, Stream = StdStream>>(
    rt: &R,
    port: u16,
    wins: bool,
) -> Result<bool, Fail> {
    let mut input = FromReader::new(FakeReader::new(ONE, 7));
    let mut output = ToWriter::new(Vec::new(rt.alloc()));
    let mut told = LiveReport::new(rt.alloc());
    let ended = live(
        rt,
        rt.alloc(),
        &mut input,
        &mut output,
        port,
        Changes::none(),
        &mut told,
    );
    let is_one = told.failed.as_slice() == [FIRST_REFUSED].as_slice();
    let is_none = told.failed.is_empty();
    drop(told);
    let is_won = matches!(ended?, Outcome3::Won(..));
    let is_told = if wins {
        is_won && is_none
    } else {
        !is_won && is_one
    };
    Ok(is_told && is_recorded(rt, output.writer(), b"attempt 0 ")?)
}

fn is_recorded<R: Lender>(rt: &R, written: &[u8], begins: &[u8]) -> Result<bool, Fail> {
    let Some(record) = written
        .windows(RECORD.len())
        .position(|part| part == RECORD)
    else {
        return Ok(false);
    };
    let (transcript, record) = written.split_at(record);
    Ok(transcript.starts_with(begins) && replays(rt, transcript, record)?)
}

#[test]
fn what_is_written_replays(rt: HostRuntime) -> Result<(), Fail> {
    let (listener, port) = listen(&rt, IpAddr::V4(OPEN), 0)?;
    assert!(rt; is_told(&rt, port, true)?);
    drop(listener);
    assert!(rt; is_told(&rt, port, false)?);
    Ok(())
}
