//! The proxy and its event loop.

ghost use Rattle.futures.specs.Runs.{AllItems};
ghost use Rattle.he_proxy.specs.Sockets.{MayAccept};

use crate::fault::ProxyFault;
use crate::limits::REQUEST_SECONDS;
use crate::listening::Listening;
use crate::racer::LoopRacer;
use crate::request::ProxyRequest;
use crate::server::Server;
use crate::state::ProxyState;
use crate::users::{read_users_of, tell_readable};
use futures::stream::SelectAll;
use futures::{Future, Stream, StreamExt};
use he_access::reach::Place;
use he_clients::{Beginning, Clients, PerAddress, Running, Service};
use he_history::{Cause, KnownAddresses, KnownAtStart, Recent, Records};
use he_kept::KeptAnswers;
use he_log::{Log, SessionFacts, TurnedAway};
use he_loop::{Prefixes, SharedLoop};
use he_metrics::Metrics;
use he_sessions::{Limits, Racer};
use he_setup::{ConnectFault, Lines, read_lines, start_race};
use he_source::RaceSystem;
use he_users::Users;
use std::alloc::{AllocGlobal, Global};
use std::cell::Cell;
use std::convert::Infallible;
use std::io;
use std::io::Write;
use std::mem::drop;
use std::random::RandomSource;
use std::rt::Files;
use std::sync::Wait;
use std::time::{Clock, Duration};
use tokio::net::{Incoming, TcpStream};
use tokio::runtime::LocalRuntime;

/// Serves clients of SOCKS 5 and HTTP CONNECT: races for their targets by RFC 8305, and relays. It runs until a
/// signal ends the process. Sessions are logged to `faults`, as the request has it.
///
/// # Errors
///
/// Those of [`ProxyFault`]. After any but `Runtime` and `Memory` no client was served.
pub fn serve<'a, R, F>(
    rt: &'a R,
    alloc: Global,
    request: &'a ProxyRequest<'a>,
    faults: F,
) -> Result<Infallible, ProxyFault>
where
    F: Write + Drop,
    R: RaceSystem + Wait,
{
    let lines = read_lines_of(rt, alloc, request)?;
    serve_read(rt, alloc, &request.with_lines(lines.as_deref()), faults)
}

// Serves the request, with its lines read if a file has them.
fn serve_read<'a, R, F>(
    rt: &'a R,
    alloc: Global,
    request: &'a ProxyRequest<'a>,
    faults: F,
) -> Result<Infallible, ProxyFault>
where
    F: Write + Drop,
    R: RaceSystem + Wait,
{
    let users = read_users_of(rt, alloc, request.users)?;
    let mut runtime = LocalRuntime::new(rt)?;
    let handle = runtime.handle().clone()?;
    let Listening { sockets, own } = Listening::begin(rt, alloc, &handle, request)?;
    let KnownAtStart {
        known,
        wrong,
        moved,
    } = open_known(rt, alloc, request)?;
    let state = open_state(rt, request, users, own, known)?;
    let log = Log::new(alloc, request.log, faults);
    log.tell_passed_over(&wrong);
    if let Some(to) = &moved {
        log.tell_moved(to);
    }
    tell_readable(rt, &log, request.users);
    log.tell_places(&state.own);
    let racer = LoopRacer {
        shared: SharedLoop {
            rt: &*rt,
            alloc,
            handle: &handle,
        },
        request: &*request,
        state: &state,
        log: &log,
    };
    serve_racer(&mut runtime, &racer, &racer, sockets)?;
    Err(ProxyFault::Runtime)
}

// Serves the clients of the sockets with any racer: the prover does not cover both in one function.
fn serve_racer<'x, R, Q, F>(
    runtime: &mut LocalRuntime,
    parts: &'x LoopRacer<'x, R, F>,
    racer: &'x Q,
    sockets: SelectAll<Incoming>,
) -> io::Result<()>
where
    Q: Racer<Stream = TcpStream>,
    F: Write + Drop,
    R: Wait + Clock + RandomSource + AllocGlobal + Copy,
    requires { MayAccept sockets }
{
    let request = parts.request;
    let server = Server {
        parts,
        racer,
        limits: Limits {
            request: Duration::from_secs(REQUEST_SECONDS),
            idle: request
                .idle
                .map(|seconds| Duration::from_secs(u64::from(seconds))),
        },
    };
    serve_sockets(runtime, parts.shared, &server, sockets, request.most)
}

// Serves the clients of the sockets, at most `most` at once.
fn serve_sockets<'q, R, V, S>(
    runtime: &mut LocalRuntime,
    shared: SharedLoop<'q, R>,
    service: &'q V,
    sockets: S,
    most: u32,
) -> io::Result<()>
where
    R: Wait + Clock + RandomSource + AllocGlobal,
    V: Service,
    S: Stream<Item = io::Result<TcpStream>>,
    requires { S.can_poll sockets }
{
    let SharedLoop { rt, alloc, handle } = shared;
    let clients = Clients::new(rt, handle.time(), service, sockets)?;
    run(rt, alloc, runtime, clients, most)
}

// Runs the sessions as they come, at most `most` at once.
fn run<R, S, F>(
    rt: &R,
    alloc: Global,
    runtime: &mut LocalRuntime,
    sessions: S,
    most: u32,
) -> io::Result<()>
where
    R: Wait + Clock + RandomSource + AllocGlobal,
    S: Stream<Item = F>,
    F: Future<Output = ()>,
    requires stream { S.can_poll sessions }
    requires items { AllItems (S.yields sessions) F.can_poll }
{
    let running = sessions.for_each_concurrent(alloc, most as usize, |session| session)?;
    runtime.block_on(rt, running)
}

// The state of a proxy that has served no client yet.
fn open_state<R: Clock + Files + AllocGlobal + Copy>(
    rt: &R,
    request: &ProxyRequest<'_>,
    users: Users,
    own: Vec<Place>,
    known: KnownAddresses,
) -> Result<ProxyState, ProxyFault> {
    let alloc = rt.alloc();
    Ok(ProxyState {
        own,
        users,
        answers: KeptAnswers::new(rt, alloc)?,
        known,
        prefixes: Prefixes::new(alloc),
        records: open_records(rt, alloc, request)?,
        recent: Recent::new(alloc),
        beginning: Beginning::new(alloc),
        running: Running::new(request.most),
        per_address: PerAddress::new(alloc, request.most_per_client),
        facts: SessionFacts::new(alloc),
        metrics: Metrics::new(),
        turned_away: TurnedAway::new(alloc),
        too_many: TurnedAway::new(alloc),
        left: Cell::new(None),
    })
}

// The lines of the races, if a file has them: it is read once, and its lines are checked.
fn read_lines_of<R: Files + AllocGlobal>(
    rt: &R,
    alloc: Global,
    request: &ProxyRequest<'_>,
) -> Result<Option<Vec<u8>>, ProxyFault> {
    let Lines::File(path) = request.lines else {
        return Ok(None);
    };
    match read_right(rt, alloc, path, request) {
        Ok(lines) => Ok(Some(lines)),
        Err(ConnectFault::Memory) => Err(ProxyFault::Memory),
        Err(fault) => Err(ProxyFault::Lines(fault)),
    }
}

// The lines of the file, with which a race can start.
fn read_right<R: Files + AllocGlobal>(
    rt: &R,
    alloc: Global,
    path: &str,
    request: &ProxyRequest<'_>,
) -> Result<Vec<u8>, ConnectFault> {
    let lines = read_lines(rt, path)?;
    let race = start_race(alloc, request.settings, request.families, &lines)?;
    drop(race);
    Ok(lines)
}

fn open_records<R: Files + AllocGlobal + Copy>(
    rt: &R,
    alloc: Global,
    request: &ProxyRequest<'_>,
) -> Result<Option<Records>, ProxyFault> {
    let Some(dir) = request.record else {
        return Ok(None);
    };
    match Records::open(rt, alloc, dir, request.record_most) {
        Ok(records) => Ok(Some(records)),
        Err(error) => Err(ProxyFault::Record(Cause::of(&error))),
    }
}

fn open_known<R: Files + RandomSource + AllocGlobal + Copy>(
    rt: &R,
    alloc: Global,
    request: &ProxyRequest<'_>,
) -> Result<KnownAtStart, ProxyFault> {
    match KnownAddresses::open(rt, alloc, request.history) {
        Ok(known) => Ok(known),
        Err(error) => Err(ProxyFault::History(Cause::of(&error))),
    }
}
