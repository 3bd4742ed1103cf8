//! `he live`.
ghost use Rattle.std.specs.Prelude.{IfOk};
ghost use Rattle.clap.specs.Matches.{found_of};
ghost use Rattle.he_options.specs.Ports.{IsPort};
ghost use Rattle.he_request.specs.Requests.{AsksLive};

use clap::{ArgMatches, Command};
use he_addr::Memory;
use he_options::arguments::{flag, flag_of, plain, record_of, value, word};
use he_options::port::port_of;
use he_options::settings::{changes_of, set, timeout};
use he_options::{OptionFault, Port, STANDARD};
use he_timeline::Changes;
use std::alloc::Global;

const ABOUT: &str = "Run one timeline with real connections, and print the result";

const FILE_HELP: &str = "File to read; default is standard input (-)";

const PORT_HELP: &str = "The TCP port of each address: 1 to 65535, or the name\n\
of a service";

const RECORD_HELP: &str = "Write the record to FILE too, for `he replay`";

const MUST_CONNECT_HELP: &str = "Exit with status 3 if no connection was made";

const VERBOSE_HELP: &str = "Say why each attempt failed, after the race";

const EXAMPLE: &str = "\
Runs the one race of a timeline. FILE has this machine's addresses and routes
and the addresses of a name, each known from the tick (millisecond) of its
answer on; 0 means at once. Its outcomes and pauses are ignored. The addresses
are tried by TCP, one after another, until one connection is made; all are then
closed. A setting that is given (--set, --timeout) overrides the timeline's own.

Standard output has the transcript, then the record: the same race, with how
each attempt ended and when this program itself was late. The record is a
timeline, and replays to the same transcript anywhere. --record writes it to a
file too, even if nothing connected.

Example input, with a server that listens at port 8080 of 127.0.0.1:

  race 1
  source 127.0.0.1/8 1
  route 127.0.0.0/8 1
  aaaa 0 none
  a 0 127.0.0.1
  end

Output of `he live --port 8080 FILE` begins so (ticks differ from run to run):

  attempt 0 0 127.0.0.1 won 1
  won 0 1
  race 1
  set resolution 50

With -v standard error has a line for each attempt that failed:

  he: attempt 1 at 127.0.0.1 failed: refused

An attempt that this machine could not begin is reported without -v too:

  he: attempt 1 at 127.0.0.1 could not begin: too many open files

Exit status: 0 whether or not a connection was made, but 3 with --must-connect
if none was; 1 after a fault; 2 on a usage error.";

pub(crate) fn command<'a>(alloc: Global) -> Result<Command<'a>, Memory> {
    let args = vec![in alloc;
        word(alloc, "file", "FILE", FILE_HELP),
        value(alloc, "port", "PORT", PORT_HELP).required(true),
        timeout(alloc),
        set(alloc),
        value(alloc, "record", "FILE", RECORD_HELP),
        flag(alloc, "must-connect", MUST_CONNECT_HELP),
        flag(alloc, "verbose", VERBOSE_HELP).short('v'),
    ]?;
    plain(alloc, "live", ABOUT, EXAMPLE, args)
}

/// A race that is run on real sockets.
#[derive(Clone, Copy)]
pub struct Live<'a> {
    /// The file that has it, `-` for standard input, which has it where there is none.
    pub file: Option<&'a str>,
    /// The port at which each address is connected to.
    pub port: Port<'a>,
    /// The settings in place of the text's own.
    pub changes: Changes,
    /// The file of the record, beside standard output.
    pub record: Option<&'a str>,
    /// Whether the status says that no connection was made.
    pub must_connect: bool,
    /// Whether each attempt that failed is reported.
    pub verbose: bool,
}

// The request that the line makes. Standard output has the record in any case.
pub(crate) fn live_of<'a>(matches: &ArgMatches<'a>) -> Result<Live<'a>, OptionFault>
    ensures port { IfOk result (λ live. IsPort live.port) }
    ensures asks { IfOk result (AsksLive (found_of matches.now)) }
{
    let port = port_of(matches)?;
    let record = record_of(matches)?;
    Ok(Live {
        file: matches.get_str("file"),
        port,
        changes: changes_of(matches)?,
        record: record.filter(|path| *path != STANDARD),
        must_connect: flag_of(matches, "must-connect"),
        verbose: flag_of(matches, "verbose"),
    })
}
