// Responses that were put together by hand from RFC 9112, and what the client gets of them.

use crate::homes::Lender;
use futures::Future;
use futures::task::{Context, Poll};
use he_response::{ReadResponse, Returned, read_response};
use std::alloc::Global;
use std::io;
use std::mem::replace;
use std::net::{Net, TcpListener, TcpStream};
use std::test::Fail;
use tokio::io::AsyncRead;
use tokio::runtime::LocalRuntime;

// Each response with octets after it, and what the client gets.
const CASES: &[(&[u8], &[u8])] = &[
    (
        b"HTTP/1.1 200 OK\r\nServer: x\r\nConnection: Keep-Alive, X-A\r\nKeep-Alive: timeout=5\r\nX-A: 1\r\nx-ab: 2\r\nContent-Length: 5\r\n\r\nhelloHTTP/1.1 200 OK\r\n\r\n",
        b"HTTP/1.1 200 OK\r\nServer: x\r\nx-ab: 2\r\nContent-Length: 5\r\nVia: 1.1 he\r\nConnection: close\r\n\r\nhello",
    ),
    (
        b"HTTP/1.1 100 Continue\r\n\r\nHTTP/1.1 103 Early Hints\r\nLink: </a>\r\nConnection: Link\r\n\r\nHTTP/1.1 204 No Content\r\nContent-Length: 9\r\n\r\nsmuggled",
        b"HTTP/1.1 100 Continue\r\nVia: 1.1 he\r\n\r\nHTTP/1.1 103 Early Hints\r\nVia: 1.1 he\r\n\r\nHTTP/1.1 204 No Content\r\nContent-Length: 9\r\nVia: 1.1 he\r\nConnection: close\r\n\r\n",
    ),
    (
        b"HTTP/1.1 200 OK\r\nTransfer-Encoding: chunked\r\nTrailer: X\r\n\r\n5;a=b\r\nhello\r\n0\r\nX: y\r\n\r\n0\r\n\r\n",
        b"HTTP/1.1 200 OK\r\nTransfer-Encoding: chunked\r\nTrailer: X\r\nVia: 1.1 he\r\nConnection: close\r\n\r\n5;a=b\r\nhello\r\n0\r\nX: y\r\n\r\n",
    ),
    (
        b"HTTP/1.0 404 \nProxy-Authenticate: Basic\nProxy-Status: x\nUpgrade: h2c\nTE: x\n\nto the end",
        b"HTTP/1.1 404 \r\nProxy-Status: x\r\nVia: 1.0 he\r\nConnection: close\r\n\r\nto the end",
    ),
    (
        b"HTTP/1.1 304 Not Modified\r\nTransfer-Encoding: chunked\r\n\r\n5\r\n",
        b"HTTP/1.1 304 Not Modified\r\nTransfer-Encoding: chunked\r\nVia: 1.1 he\r\nConnection: close\r\n\r\n",
    ),
    (
        b"HTTP/1.1 999\r\nContent-Length: 0\r\n\r\nx",
        b"HTTP/1.1 999 \r\nContent-Length: 0\r\nVia: 1.1 he\r\nConnection: close\r\n\r\n",
    ),
];

const HEADED: (&[u8], &[u8]) = (
    b"HTTP/1.1 200 OK\r\nContent-Length: 5\r\n\r\nhello",
    b"HTTP/1.1 200 OK\r\nContent-Length: 5\r\nVia: 1.1 he\r\nConnection: close\r\n\r\n",
);

const REFUSED: &[&[u8]] = &[
    b"HTTP/1.1 101 Switching Protocols\r\nUpgrade: x\r\n\r\n",
    b"HTTP/1.1 099 x\r\n\r\n",
    b"HTTP/2 200 OK\r\n\r\n",
    b"HTTP/1.1 2000 OK\r\n\r\n",
    b"HTTP/1.1 200 OK\r\nA : b\r\n\r\n",
    b"HTTP/1.1 200 OK\r\nA: b\r\n c\r\n\r\n",
    b"HTTP/1.1 200 OK\r\nContent-Length: 4\r\nContent-Length: 5\r\n\r\n",
    b"HTTP/1.1 200 OK\r\nContent-Length: 4\r\nTransfer-Encoding: chunked\r\n\r\n",
    b"HTTP/1.1 200 OK\r\nContent-Length: 18446744073709551620\r\n\r\n",
    b"HTTP/1.1 200 OK\r\nContent-Length: -1\r\n\r\n",
    b"HTTP/1.1 200 OK\r\nTransfer-Encoding: gzip\r\n\r\n",
    b"HTTP/1.0 200 OK\r\nTransfer-Encoding: chunked\r\n\r\n",
    b"SSH-2.0-OpenSSH_9.7\r\n\r\n",
];

// Responses whose servers end too early, and one whose chunks are none.
const BROKEN: &[(&[u8], io::ErrorKind)] = &[
    (b"", io::ErrorKind::UnexpectedEof),
    (
        b"HTTP/1.1 200 OK\r\nContent-Length: 5\r\n",
        io::ErrorKind::UnexpectedEof,
    ),
    (
        b"HTTP/1.1 100 Continue\r\n\r\n",
        io::ErrorKind::UnexpectedEof,
    ),
    (
        b"HTTP/1.1 200 OK\r\nContent-Length: 5\r\n\r\nhell",
        io::ErrorKind::UnexpectedEof,
    ),
    (
        b"HTTP/1.1 200 OK\r\nTransfer-Encoding: chunked\r\n\r\n5\r\nhello\r\n",
        io::ErrorKind::UnexpectedEof,
    ),
    (
        b"HTTP/1.1 200 OK\r\nTransfer-Encoding: chunked\r\n\r\nhello\r\n",
        io::ErrorKind::InvalidData,
    ),
    (
        b"HTTP/1.1 101 Switching Protocols\r\n\r\n",
        io::ErrorKind::InvalidData,
    ),
];

// All that a server gives, read into a room of this many octets.
#[derive(Drop)]
struct All<'a> {
    server: Returned<&'a [u8]>,
    room: usize,
    got: Vec<u8>,
    alloc: Global,
}

impl Future for All<'_> {
    type Output = Result<Vec<u8>, io::ErrorKind>;

    fn poll(&mut self, cx: &mut Context<'_>) -> Poll<Result<Vec<u8>, io::ErrorKind>> {
        let mut room = [0; 512];
        let len = self.room.min(512);
        match self.server.poll_read(cx, &mut room[..len]) {
            Poll::Pending => Poll::Pending,
            Poll::Ready(Ok(0)) => { Poll::Ready(Ok(replace(&mut self.got, Vec::new(self.alloc)))) }
            Poll::Ready(Ok(count)) => match self.got.extend_from_slice(&room[..count]) {
                Ok(()) => cx.yield_now(),
                Err(_) => Poll::Ready(Err(io::ErrorKind::OutOfMemory)),
            },
            Poll::Ready(Err(fault)) => Poll::Ready(Err(fault.kind())),
        }
    }
}

fn all_of<R: Lender + Net<Listener = TcpListener, Stream = TcpStream>>(
    rt: &R,
    octets: &[u8],
    to_head: bool,
    room: usize,
) -> io::Result<Result<Vec<u8>, io::ErrorKind>> {
    let mut runtime = LocalRuntime::new(rt)?;
    let all = All {
        server: Returned::new(rt.alloc(), octets, to_head),
        room,
        got: Vec::new(rt.alloc()),
        alloc: rt.alloc(),
    };
    runtime.block_on(rt, all)
}

fn is_returned<R: Lender + Net<Listener = TcpListener, Stream = TcpStream>>(
    rt: &R,
    case: (&[u8], &[u8]),
    to_head: bool,
) -> io::Result<bool> {
    for room in [1, 7, 512] {
        match all_of(rt, case.0, to_head, room)? {
            Ok(got) if got.as_slice() == case.1 => {}
            _ => return Ok(false),
        }
    }
    Ok(true)
}

#[test]
fn a_client_gets_one_response(rt: HostRuntime) -> Result<(), Fail> {
    for case in CASES {
        assert!(rt; is_returned(&rt, *case, false)?);
    }
    assert!(rt; is_returned(&rt, HEADED, true)?);
    Ok(())
}

#[test]
fn no_response_is_made_of_others(rt: HostRuntime) -> Result<(), Fail> {
    for octets in REFUSED {
        let is_refused = match read_response(rt.alloc(), octets, false)? {
            ReadResponse::Refused => true,
            _ => false,
        };
        assert!(rt; is_refused);
    }
    Ok(())
}

#[test]
fn a_response_that_is_cut_ends_with_an_error(rt: HostRuntime) -> Result<(), Fail> {
    for (octets, kind) in BROKEN {
        for room in [1, 512] {
            let is_broken = match all_of(&rt, octets, false, room)? {
                Ok(_) => false,
                Err(fault) => fault == *kind,
            };
            assert!(rt; is_broken);
        }
    }
    Ok(())
}
