//! `he connect`.
ghost use Rattle.std.specs.Prelude.{◌≡◌, [], IfOk, codes};
ghost use Rattle.std.specs.Option.{unwrap_or};
ghost use Rattle.clap.specs.Matches.{first_value, found_of};
ghost use Rattle.he_options.specs.Ports.{IsPort};
ghost use Rattle.he_request.specs.Requests.{AsksConnection};

use clap::{ArgMatches, Command, value_parser};
use he_addr::{Family, Memory};
use he_options::arguments::{flag, flag_of, letter, machine, plain, record_of, value, word};
use he_options::family::{family_of, four, six};
use he_options::limits::MOST_WAIT;
use he_options::port::port_of;
use he_options::resolver::{resolver_argument, resolver_of};
use he_options::settings::{changes_of, set, settings_of, timeout};
use he_options::{OptionFault, Port, Resolver, STANDARD};
use he_timeline::Settings;
use std::alloc::Global;
use std::str::FromStr;

const ABOUT: &str = "Connect to a host, and relay standard input and output";

const PORT_HELP: &str =
    "The TCP port: 1 to 65535, or the name of a service in\n/etc/services, as `https`";

const TRY_HELP: &str = "Only check the port: connect, close, exit 0";

const WAIT_HELP: &str = "Wait MS milliseconds for standard input after the\n\
remote has closed its side; default is 500";

const RECORD_HELP: &str = "Write the race to FILE, for `he replay`;\n\
with -z `-` is standard output";

const CHECK_HELP: &str = "As -z, with one line for a monitor; exit 0 if\n\
connected, 1 if slowly, 2 if not, 3 after a fault";

const WARN_HELP: &str = "With --check, exit 1 if more than MS milliseconds\n\
were lost; default is 100";

const JSON_HELP: &str = "With -z, write the race as one JSON object, as\n\
`he explain --json`";

const EXPLAIN_HELP: &str = "Explain the race and its look-up on standard error,\n\
as `he explain`";

const EXAMPLE: &str = "\
Looks up AAAA and A in parallel and tries the addresses as RFC 8305 describes,
the next one 250 ms after the last, or once all before have failed, 10 ms after
the last at the earliest. The first to connect is used; the others are closed.
Standard input is sent over it, and what the remote sends is written to standard
output. At the end of standard input only the sending side is shut down. `he
connect` exits when the remote has closed the connection and no input has
arrived for half a second (--wait), or when standard output is closed.

The defaults are attempt=250, resolution=50, count=1, limit=30000, floor=10.

Examples:

  printf 'GET / HTTP/1.0\\r\\n\\r\\n' | he connect example.org http
  ssh -o ProxyCommand='he connect %h %p' example.org
  he connect -z --timeout 2000 example.org 22 && echo it is there
  he connect -z --record day.timeline --explain example.org 443

With -z and --json standard output has the race, won or not, as one object:

  {\"file\":null,\"race\":1,\"line\":1,\"order\":[..],\"events\":[..]}

With --check standard output has one line, as of a plugin of Nagios or Icinga:

  CONNECT WARNING - example.org:443 connected by IPv4 (198.51.100.1) in 262 ms;
    250 ms lost on 2001:db8::1 (no answer) | time=0.262s names=0.000s
    lost=0.250s;0.100

If nothing connects, standard error says what was tried:

  he: no connection to example.org port 443: 2 addresses tried: 2001:db8::1
    refused after 12 ms, 198.51.100.1 no answer in 30000 ms

Exit status: 0 if a connection was made and relayed to its end; 3 if none was
made; 1 after another fault; 2 on a usage error, or if PORT is not a service.
With --check: 0 if a connection was made; 1 if it lost more than --warn; 2 if
none was made; 3 after a fault or on a usage error.";

// Its arguments, in the order in which help has them. They are made in one list: a chain of `arg`, each of which may
// be refused memory, takes minutes to prove.
pub(crate) fn command<'a>(alloc: Global) -> Result<Command<'a>, Memory> {
    let wait = value(alloc, "wait", "MS", WAIT_HELP);
    let check = flag(alloc, "check", CHECK_HELP).conflicts_with("json")?;
    let warn = value(alloc, "warn", "MS", WARN_HELP).requires_arg("check")?;
    let args = vec![in alloc;
        word(alloc, "host", "HOST", "The host: a name or an address").required(true),
        word(alloc, "port", "PORT", PORT_HELP).required(true),
        four(alloc),
        six(alloc)?,
        letter(alloc, "try", 'z', TRY_HELP),
        timeout(alloc),
        set(alloc),
        wait.value_parser(value_parser!(u32).range(0..=i64::from(MOST_WAIT))),
        machine(alloc),
        resolver_argument(alloc),
        value(alloc, "record", "FILE", RECORD_HELP),
        flag(alloc, "json", JSON_HELP),
        check,
        warn.value_parser(value_parser!(u32).range(0..=i64::from(MOST_WAIT))),
        flag(alloc, "explain", EXPLAIN_HELP),
        flag(
            alloc,
            "verbose",
            "Report each step of the race as it happens"
        )
        .short('v'),
    ]?;
    plain(alloc, "connect", ABOUT, EXAMPLE, args)
}

/// A connection that is made, recorded and relayed.
#[derive(Clone, Copy)]
pub struct Connection<'a> {
    /// A name or an address.
    pub host: &'a str,
    pub port: Port<'a>,
    /// The only family that is tried; both are if there is none.
    pub only: Option<Family>,
    /// The settings of the race.
    pub settings: Settings,
    /// The file that has the source, route and policy lines of the race, in place of this machine.
    pub lines: Option<&'a str>,
    pub resolver: Resolver<'a>,
    /// Whether the race is explained.
    pub explains: bool,
    /// Whether each step is reported as it happens.
    pub tells_steps: bool,
    /// The file of the record; `-` is standard output, of a connection that is only tried.
    pub record: Option<&'a str>,
    /// Whether the connection is closed once it is made.
    pub only_tries: bool,
    /// Whether the race of a connection that is only tried is written as JSON.
    pub is_json: bool,
    /// Whether the connection is only tried, and one line has its result.
    pub checks: bool,
    /// The most milliseconds that a check loses without a warning, where that is given.
    pub warn: Option<u32>,
    /// How long standard input is waited for once the remote has ended its way, in milliseconds, where that is given.
    pub wait: Option<u32>,
}

// The connection that the line asks for. Its record or its object goes to standard output only where nothing else
// does.
pub(crate) fn connection_of<'a>(
    alloc: Global,
    matches: &ArgMatches<'a>,
) -> Result<Connection<'a>, OptionFault>
    ensures port { IfOk result (λ connection. IsPort connection.port) }
    ensures asks { IfOk result (AsksConnection ⟦<u32 as FromStr>⟧.from_str_gives (found_of matches.now)) }
{
    let (host, record) = (host_of(matches)?, record_of(matches)?);
    let (only_tries, checks) = (flag_of(matches, "try"), flag_of(matches, "check"));
    if record == Some(STANDARD) && checks {
        return Err(OptionFault::Check);
    }
    if record == Some(STANDARD) && !only_tries {
        return Err(OptionFault::Record);
    }
    let is_json = flag_of(matches, "json");
    if is_json && (record == Some(STANDARD) || !only_tries) {
        return Err(OptionFault::Json);
    }
    let (port, resolver) = (port_of(matches)?, resolver_of(alloc, matches)?);
    Ok(Connection {
        host,
        port,
        only: family_of(matches),
        settings: settings_of(changes_of(matches)?),
        lines: matches.get_str("host-lines"),
        resolver,
        explains: flag_of(matches, "explain"),
        tells_steps: flag_of(matches, "verbose"),
        record,
        only_tries,
        is_json,
        checks,
        warn: matches.get_one::<u32>("warn"),
        wait: matches.get_one::<u32>("wait"),
    })
}

// The host that the line names. clap has tested that it names one.
pub(crate) fn host_of<'a>(matches: &ArgMatches<'a>) -> Result<&'a str, OptionFault>
    ensures { IfOk result (λ host. host.now ≡ unwrap_or (first_value (found_of matches.now) (codes "host")) []) }
{
    match matches.get_str("host") {
        Some(host) if !host.is_empty() => Ok(host),
        _ => Err(OptionFault::Host),
    }
}
