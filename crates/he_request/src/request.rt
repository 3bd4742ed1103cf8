//! The requests that command lines make.
ghost use Rattle.std.specs.Prelude.{IfOk};
ghost use Rattle.he_options.specs.Texts.{HasTaskWorkers};
ghost use Rattle.he_request.specs.Requests.{IsRequest};

use crate::connect::Connection;
use crate::host::Host;
use crate::live::Live;
use crate::meant::or_meant;
use crate::names::Names;
use crate::probe::Probe;
use crate::terminal::Terminal;
use crate::{
    check, compare, connect, draw, explain, host, live, names, order, probe, replay, summary,
};
use clap::{ArgMatches, Command, Error};
use he_addr::Memory;
use he_options::texts::texts_of;
use he_options::{Refusal, Task, Texts};
use he_proxy_request::{Proxy, proxy};
use std::alloc::Global;

/// A request that a command line makes.
#[derive(Drop)]
pub enum Request<'a> {
    /// To connect, and to relay standard input and output.
    Connect(Connection<'a>),
    /// To serve as a proxy.
    Proxy(Proxy<'a>),
    /// To connect to each address of a host.
    Probe(Probe<'a>),
    /// To find the addresses of a host.
    Names(Names<'a>),
    /// To write the addresses and routes of this machine.
    Host(Host),
    /// To run a race on real sockets.
    Live(Live<'a>),
    /// To do something with the races of texts.
    Texts(Texts<'a>),
}

const ABOUT: &str =
    "Connect with Happy Eyeballs (RFC 8305, RFC 6724); record connections, and find\n\
out why they were slow";

const EXIT_STATUS: &str = "\
Exit status: 0 on success; 1 on an error, reported on standard error; 2 on a
usage error; 3 if `connect`, `probe` or `live --must-connect` made no
connection; 4 if `probe` found addresses that don't connect.";

// The command line of the program, with these commands.
fn command<'a>(
    alloc: Global,
    version: &'a str,
    commands: Vec<Command<'a>>,
) -> Result<Command<'a>, Memory> {
    Command::new(alloc, "he")
        .bin_name("he")?
        .version(version)
        .about(ABOUT)
        .after_help(EXIT_STATUS)
        .subcommand_required(true)
        .subcommands(commands)
}

// The commands, in the order of use.
const COMMANDS: [&str; 13] = [
    "connect", "proxy", "probe", "names", "host", "live", "replay", "explain", "draw", "summary",
    "compare", "order", "check",
];

// The commands that a line needs: the one that its first word names, none for the version, and else all, which help
// and a refusal list.
fn commands_for<'a>(alloc: Global, first: &str) -> Result<Vec<Command<'a>>, Memory> {
    let mut commands = Vec::new(alloc);
    if let "--version" | "-V" = first {
        return Ok(commands);
    }
    if let Some(command) = command_of(alloc, first)? {
        commands.push(command)?;
        return Ok(commands);
    }
    for name in &COMMANDS {
        if let Some(command) = command_of(alloc, name)? {
            commands.push(command)?;
        }
    }
    Ok(commands)
}

// The command of this name.
fn command_of<'a>(alloc: Global, name: &str) -> Result<Option<Command<'a>>, Memory> {
    let command = match name {
        "connect" => connect::command(alloc)?,
        "proxy" => proxy::command(alloc)?,
        "probe" => probe::command(alloc)?,
        "names" => names::command(alloc)?,
        "host" => host::command(alloc)?,
        "live" => live::command(alloc)?,
        "replay" => replay::command(alloc)?,
        "explain" => explain::command(alloc)?,
        "draw" => draw::command(alloc)?,
        "summary" => summary::command(alloc)?,
        "compare" => compare::command(alloc)?,
        "order" => order::command(alloc)?,
        "check" => check::command(alloc)?,
        _ => return Ok(None),
    };
    Ok(Some(command))
}

/// Reads the words of a command line, of which the first is the program's name; the version is what `--version`
/// prints. Pictures are drawn for the terminal.
///
/// # Errors
///
/// Why the line asks for nothing that is done: it is refused, or asks for help or the version, or memory was refused.
pub fn read_words<'a>(
    alloc: Global,
    words: &'a [&'a str],
    version: &'a str,
    terminal: Terminal,
) -> Result<Request<'a>, Refusal>
    ensures { IfOk result IsRequest }
{
    let first = words.get(1).copied().unwrap_or("");
    let commands = commands_for(alloc, first)?;
    match command(alloc, version, commands)?.try_get_matches_from(words) {
        Ok(matches) => request_of(alloc, &matches, terminal),
        Err(error) => Err(refusal_of(alloc, first, words, error)),
    }
}

// Why clap does not take a line, of which this is the first word; where it is one to connect, the line that works.
fn refusal_of(alloc: Global, first: &str, words: &[&str], error: Error) -> Refusal {
    match Refusal::from(error) {
        Refusal::Words(error) if first == "connect" => {
            or_meant(alloc, words, Refusal::Words(error))
        }
        refusal => refusal,
    }
}

// The task that the line asks for. clap has tested that it names a command.
fn request_of<'a>(
    alloc: Global,
    matches: &ArgMatches<'a>,
    terminal: Terminal,
) -> Result<Request<'a>, Refusal>
    ensures { IfOk result IsRequest }
{
    let Some((name, matches)) = matches.subcommand() else {
        return Ok(Request::Host(Host {
            destinations: Vec::new(alloc),
            is_json: false,
        }));
    };
    match name {
        "connect" => match connect::connection_of(alloc, matches) {
            Ok(connection) => Ok(Request::Connect(connection)),
            Err(fault) => Err(Refusal::from(fault)),
        },
        "proxy" => Ok(Request::Proxy(proxy::proxy_of(alloc, matches)?)),
        "probe" => match probe::probe_of(alloc, matches) {
            Ok(probe) => Ok(Request::Probe(probe)),
            Err(fault) => Err(Refusal::from(fault)),
        },
        "names" => Ok(Request::Names(names::names_of(alloc, matches)?)),
        "host" => Ok(Request::Host(host::host_of(alloc, matches)?)),
        "live" => match live::live_of(matches) {
            Ok(live) => Ok(Request::Live(live)),
            Err(fault) => Err(Refusal::Option(fault)),
        },
        "draw" => draw::drawing_of(alloc, terminal, matches).map(Request::Texts),
        "compare" => compare::comparison_of(alloc, matches).map(Request::Texts),
        _ => texts_of(alloc, task_of(name, matches), None, matches).map(Request::Texts),
    }
}

// The task with the texts that the line names.
fn task_of(name: &str, matches: &ArgMatches<'_>) -> Task
    ensures { HasTaskWorkers result }
{
    match name {
        "explain" => explain::task_of(matches),
        "summary" => summary::task_of(matches),
        "order" => order::task_of(matches),
        "check" => check::task_of(matches),
        _ => replay::task_of(matches),
    }
}

/// Whether a line asks for something that takes a text from standard input.
pub fn takes_text(line: &Result<Request<'_>, Refusal>) -> bool {
    match line {
        Ok(Request::Texts(texts)) => texts.files.is_empty() && texts.list.is_none(),
        Ok(Request::Live(live)) => live.file.is_none(),
        _ => false,
    }
}
