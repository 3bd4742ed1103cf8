//! `he proxy`.
ghost use Rattle.std.specs.Prelude.{◌≡◌};
ghost use Rattle.he_command.specs.Proxies.{IsServed, log_of, status_of_proxy};
ghost use Rattle.he_tasks.specs.declared.reports.TheConstants.{FAULT};

use crate::race_request::{choice_of, families_of, lines_of};
use crate::system::{System, Variables};
use he_log::{LogForm, LogOptions};
use he_names::Environment;
use he_options::Resolver;
use he_proxy::{DEFAULT_RECORDS, DEFAULT_SESSIONS, ProxyFault, ProxyRequest, serve};
use he_request::listen::addresses_of;
use he_request::{Proxy, SessionLog, SixUse};
use he_stream::OutputStream;
use he_tasks::reports::{report, report_path};
use he_tasks::{Session, USAGE};
use std::io::Write;
use std::net::{IpAddr, Ipv6Addr, Net, SocketAddr, UdpSocket};

const NOT_SYSTEM: &[u8] =
    b"he: `--resolver system` cannot be used with `he proxy`: it queries name servers directly\n";

// Linux's error numbers if this machine has no address of the family, and not this address.
const EAFNOSUPPORT: i32 = 97;

const EADDRNOTAVAIL: i32 = 99;

// Serves the requested proxy, until a fault or a signal ends it.
pub(crate) fn run_proxy<R: System, O: OutputStream, F: Write>(
    session: &mut Session<'_, '_, R, O, F>,
    proxy: &Proxy<'_>,
) -> u8
    ensures status { result ≡ status_of_proxy proxy.now }
    ensures output { session.new.output ≡ session.old.output }
{
    match proxy.resolver {
        Resolver::System => {
            let _ = session.faults.write_all(NOT_SYSTEM);
            USAGE
        }
        Resolver::Configured | Resolver::Server(_) | Resolver::OnLink(_) => {
            serve_clients(session, proxy)
        }
    }
}

fn serve_clients<R: System, O: OutputStream, F: Write>(
    session: &mut Session<'_, '_, R, O, F>,
    proxy: &Proxy<'_>,
) -> u8
    ensures status { result ≡ FAULT }
    ensures output { session.new.output ≡ session.old.output }
{
    let six = six_use(session.system);
    let listen = match addresses_of(session.alloc, proxy.listen.as_slice(), six) {
        Ok(listen) => listen,
        Err(memory) => return report_fault(session, ProxyFault::from(memory), proxy),
    };
    let variables = Variables::read(session.system);
    let request = request_of(proxy, listen.as_slice(), variables.environment());
    match serve(session.system, session.alloc, &request, &mut session.faults) {
        Err(fault) => report_fault(session, fault, proxy),
    }
}

fn six_use<R: Net>(rt: &R) -> SixUse {
    SixUse {
        loopback: may_bind(rt, Ipv6Addr::LOCALHOST),
        any: may_bind(rt, Ipv6Addr::UNSPECIFIED),
    }
}

// Whether a socket can be bound to the address. If that is not known, as for want of a descriptor, it counts as
// possible: listening there then says what is wrong.
fn may_bind<R: Net>(rt: &R, ip: Ipv6Addr) -> bool {
    match UdpSocket::bind(rt, (IpAddr::V6(ip), 0u16)) {
        Ok(_) => true,
        Err(error) => !matches!(error.raw_os_error(), Some(EAFNOSUPPORT | EADDRNOTAVAIL)),
    }
}

// Prints why it doesn't serve. A fault of the lines, the users or the history has the name of their file, one of the
// records that of their directory.
fn report_fault<R, O: OutputStream, F: Write>(
    session: &mut Session<'_, '_, R, O, F>,
    fault: ProxyFault,
    proxy: &Proxy<'_>,
) -> u8
    ensures status { result ≡ FAULT }
    ensures output { session.new.output ≡ session.old.output }
{
    let path = match fault {
        ProxyFault::Lines(_) => proxy.lines,
        ProxyFault::Users(_) | ProxyFault::UsersFile(_) => proxy.users,
        ProxyFault::Record(_) => proxy.record,
        ProxyFault::History(_) => proxy.history,
        _ => None,
    };
    match path {
        Some(path) => report_path(session.alloc, path, fault, &mut session.faults),
        None => report(fault, &mut session.faults),
    }
}

// The options of the proxy.
fn request_of<'a, 'p, 'q>(
    proxy: &'q Proxy<'p>,
    listen: &'a [SocketAddr],
    environment: Environment<'a>,
) -> ProxyRequest<'a>
where
    'p: 'a,
    'q: 'a,
    ensures { IsServed proxy.now listen.now environment.entry result }
{
    ProxyRequest {
        listen,
        allow: proxy.allow.as_slice(),
        allows_private: proxy.allows_private,
        users: proxy.users,
        rules: proxy.rules.as_slice(),
        families: families_of(proxy.only),
        settings: proxy.settings,
        lines: lines_of(proxy.lines),
        resolver: choice_of(proxy.resolver),
        environment,
        record: proxy.record,
        record_most: proxy.record_most.unwrap_or(DEFAULT_RECORDS),
        history: proxy.history,
        log: LogOptions {
            form: log_of(proxy.log),
            has_begins: proxy.log_begin,
            has_priorities: proxy.log_journal,
        },
        most: proxy.most.unwrap_or(DEFAULT_SESSIONS),
        most_per_client: proxy.most_per_client,
        idle: proxy.idle,
    }
}

fn log_of(log: SessionLog) -> LogForm
    ensures { result ≡ log_of log }
{
    match log {
        SessionLog::Nothing => LogForm::Silent,
        SessionLog::Line => LogForm::Text,
        SessionLog::Json => LogForm::Json,
    }
}
