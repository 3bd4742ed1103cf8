//! `he probe`.
ghost use Rattle.std.specs.Prelude.{◌≡◌, ◌≤◌, IfOk, codes};
ghost use Rattle.std.specs.Option.{unwrap_or};
ghost use Rattle.clap.specs.Matches.{first_value, found_of};
ghost use Rattle.he_options.specs.Times.{time_of};
ghost use Rattle.he_options.specs.declared.limits.TheConstants.{MOST_PACE, MOST_WAIT, SECOND};
ghost use Rattle.he_request.specs.Probes.{AsksProbe, IsProbe, count_in, judging_settings, rounds_of};
ghost use Rattle.he_request.specs.declared.probe.TheConstants.{DEFAULT_TIMEOUT};

use crate::connect::host_of;
use clap::{ArgMatches, Command, value_parser};
use he_addr::{Family, Memory, read_number};
use he_options::arguments::{flag, flag_of, machine, plain, record_of, value, word};
use he_options::family::{family_of, four, six};
use he_options::limits::{MOST_IDLE, MOST_PACE, MOST_ROUNDS, MOST_WAIT, SECOND};
use he_options::port::port_of;
use he_options::resolver::{resolver_argument, resolver_of};
use he_options::settings::settings_of;
use he_options::time::time_of;
use he_options::{OptionFault, Port, Resolver, STANDARD};
use he_timeline::limits::DEFAULT_LIMIT;
use he_timeline::{Changes, Settings};
use std::alloc::Global;

const ABOUT: &str = "Connect to each address of a host, and say which are broken";

const PORT_HELP: &str =
    "The TCP port: 1 to 65535, or the name of a service in\n/etc/services, as `https`";

const TIMEOUT_HELP: &str = "Give each address MS milliseconds, 1 to 3600000,\n\
or as 5s; default is 3000";

const PACE_HELP: &str = "Begin an attempt every MS milliseconds, 0 to 5000;\n\
default is 10";

const COUNT_HELP: &str = "Do N rounds; default is 1, or no end with\n\
--interval";

const INTERVAL_HELP: &str = "Wait SECONDS between two rounds, or as 500ms;\n\
default is 1";

const RECORD_HELP: &str = "Write the results to FILE as timelines, for\n\
`he replay`; `-` is standard output, without\n\
the table";

const JSON_HELP: &str = "Write one JSON object for each round";

const METRICS_HELP: &str = "Write metrics of each round as OpenMetrics";

const QUIET_HELP: &str = "Write only the verdict";

const EXAMPLE: &str = "\
Looks up AAAA and A, waits for both answers, and connects to each address, in
the order of RFC 6724, whatever becomes of the others. Each connection is closed
once it is made. Standard output has a row for each address and a verdict: which
family is broken, and the time that a client of RFC 8305, such as `he connect`,
loses by it.

Example: `he probe www.example.com 443` may write

  www.example.com port 443: 1 of 3 addresses connect
  address        family  source           outcome      ms
  2001:db8:1::2  IPv6    2001:db8:5::7    refused       1
  2001:db8:1::1  IPv6    2001:db8:5::7    no answer  3000
  198.51.100.1   IPv4    192.0.2.7        connected     2
  IPv6 broken: 2 of 2 addresses fail. A client connects to 198.51.100.1 after
  253 ms, 250 of them lost; 198.51.100.1 alone would take 3

where the verdict is one line. The record has the outcome of each address, so a
replay with other settings is the race that a client with these has:

  he probe --record - www.example.com 443 | he replay --set attempt=100

Exit status: 0 if each address connects and no look-up failed; 3 if none
connects; 4 if some don't; 1 after a fault, as a failed look-up; 2 on a usage
error.
Of several rounds the worst counts: 1, then 3, then 4.";

// Its arguments, in the order in which help has them.
pub(crate) fn command<'a>(alloc: Global) -> Result<Command<'a>, Memory> {
    let pace = value(alloc, "pace", "MS", PACE_HELP);
    let metrics = flag(alloc, "openmetrics", METRICS_HELP).conflicts_with("json")?;
    let quiet = flag(alloc, "quiet", QUIET_HELP).short('q');
    let args = vec![in alloc;
        word(alloc, "host", "HOST", "The host: a name or an address").required(true),
        word(alloc, "port", "PORT", PORT_HELP).required(true),
        four(alloc),
        six(alloc)?,
        value(alloc, "timeout", "MS", TIMEOUT_HELP),
        pace.value_parser(value_parser!(u32).range(0..=i64::from(MOST_PACE))),
        value(alloc, "count", "N", COUNT_HELP),
        value(alloc, "interval", "SECONDS", INTERVAL_HELP),
        machine(alloc),
        resolver_argument(alloc),
        value(alloc, "record", "FILE", RECORD_HELP),
        flag(alloc, "json", JSON_HELP),
        metrics,
        quiet.conflicts_with("json")?.conflicts_with("openmetrics")?,
        flag(
            alloc,
            "verbose",
            "Report each step of a round as it happens"
        )
        .short('v'),
    ]?;
    plain(alloc, "probe", ABOUT, EXAMPLE, args)
}

/// The form of a round in the output.
#[derive(Clone, Copy, Debug, PartialEq, Eq)]
pub enum ProbeForm {
    /// A row for each address, and the verdict.
    Table,
    /// Only the verdict.
    Verdict,
    /// A JSON object.
    Json,
    /// Metrics.
    Metrics,
    /// The record.
    Record,
}

/// The probes of a host.
#[derive(Clone, Copy)]
pub struct Probe<'a> {
    /// A name or an address.
    pub host: &'a str,
    pub port: Port<'a>,
    /// The only family that is tried; both are if there is none.
    pub only: Option<Family>,
    /// The milliseconds that an attempt has, and those between the starts of two.
    pub timeout: u64,
    pub pace: u64,
    /// The settings of the race that a round is judged by: those of `he connect`, with a limit of at most the timeout.
    pub settings: Settings,
    /// The number of rounds, if they end.
    pub rounds: Option<u32>,
    /// The milliseconds between two rounds.
    pub interval: u64,
    /// The file that has the source, route and policy lines, in place of this machine.
    pub lines: Option<&'a str>,
    pub resolver: Resolver<'a>,
    /// The file of the records; None for none, and for standard output.
    pub record: Option<&'a str>,
    pub form: ProbeForm,
    /// Whether each step is reported as it happens.
    pub tells_steps: bool,
}

const DEFAULT_TIMEOUT: u64 = 3_000;

const DEFAULT_PACE: u64 = 10;

// The probes that the line asks for. Nothing else goes to standard output with the records.
pub(crate) fn probe_of<'a>(
    alloc: Global,
    matches: &ArgMatches<'a>,
) -> Result<Probe<'a>, OptionFault>
    ensures range { IfOk result IsProbe }
    ensures asks { IfOk result (AsksProbe (found_of matches.now)) }
{
    let (host, record) = (host_of(matches)?, record_of(matches)?);
    let form = form_of(matches);
    let has_output = record == Some(STANDARD);
    if has_output && form != ProbeForm::Table {
        return Err(OptionFault::Output);
    }
    let timeout = timeout_of(matches)?;
    let interval = interval_of(matches)?;
    let (port, resolver) = (port_of(matches)?, resolver_of(alloc, matches)?);
    Ok(Probe {
        host,
        port,
        only: family_of(matches),
        timeout,
        pace: pace_of(matches),
        settings: judging_settings(timeout)?,
        rounds: rounds_of(count_of(matches)?, interval),
        interval: or_second(interval),
        lines: matches.get_str("host-lines"),
        resolver,
        record: if has_output { None } else { record },
        form: if has_output { ProbeForm::Record } else { form },
        tells_steps: flag_of(matches, "verbose"),
    })
}

// The form that the line's flags name.
fn form_of(matches: &ArgMatches<'_>) -> ProbeForm {
    if flag_of(matches, "json") {
        ProbeForm::Json
    } else if flag_of(matches, "openmetrics") {
        ProbeForm::Metrics
    } else if flag_of(matches, "quiet") {
        ProbeForm::Verdict
    } else {
        ProbeForm::Table
    }
}

// The milliseconds of `--timeout`.
fn timeout_of(matches: &ArgMatches<'_>) -> Result<u64, OptionFault>
    ensures range { IfOk result (λ timeout. timeout ≤ MOST_WAIT) }
    ensures is { IfOk result (λ timeout. timeout
        ≡ unwrap_or (time_of 1 (first_value (found_of matches.now) (codes "timeout"))) DEFAULT_TIMEOUT) }
{
    let most = u64::from(MOST_WAIT);
    match time_of(matches, "timeout", 1, most, OptionFault::Timeout)? {
        Some(timeout) => Ok(timeout),
        None => Ok(DEFAULT_TIMEOUT),
    }
}

// The milliseconds of `--interval`.
fn interval_of(matches: &ArgMatches<'_>) -> Result<Option<u64>, OptionFault>
    ensures { IfOk result (λ interval. interval
        ≡ time_of SECOND (first_value (found_of matches.now) (codes "interval"))) }
{
    time_of(
        matches,
        "interval",
        SECOND,
        MOST_IDLE,
        OptionFault::Interval,
    )
}

fn or_second(interval: Option<u64>) -> u64
    ensures { result ≡ unwrap_or interval SECOND }
{
    match interval {
        Some(interval) => interval,
        None => SECOND,
    }
}

// The milliseconds of `--pace`. clap has tested the range, but has no clause on it.
fn pace_of(matches: &ArgMatches<'_>) -> u64
    ensures { result ≤ MOST_PACE }
{
    match matches.get_one::<u32>("pace") {
        Some(pace) => u64::from(pace.min(MOST_PACE)),
        None => DEFAULT_PACE,
    }
}

// The settings of the race by which a round is judged: the limit is at most the timeout.
fn judging_settings(timeout: u64) -> Result<Settings, OptionFault>
    ensures { IfOk result (λ settings. settings ≡ judging_settings timeout) }
{
    let limit = Some(timeout.min(DEFAULT_LIMIT));
    match Changes::new(None, None, None, limit, None) {
        Ok(changes) => Ok(settings_of(changes)),
        Err(range) => Err(OptionFault::Range(range)),
    }
}

// The number of `--count`.
fn count_of(matches: &ArgMatches<'_>) -> Result<Option<u32>, OptionFault>
    ensures { IfOk result (λ count. count ≡ count_in (first_value (found_of matches.now) (codes "count"))) }
{
    let Some(text) = matches.get_str("count") else {
        return Ok(None);
    };
    match read_number(text.as_bytes()) {
        Some(count) if 1 <= count && count <= u64::from(MOST_ROUNDS) => Ok(Some(count as u32)),
        _ => Err(OptionFault::Count),
    }
}

// The number of rounds; None if they don't end.
fn rounds_of(count: Option<u32>, interval: Option<u64>) -> Option<u32>
    ensures { result ≡ rounds_of count interval }
{
    match (count, interval) {
        (Some(count), _) => Some(count),
        (None, Some(_)) => None,
        (None, None) => Some(1),
    }
}
