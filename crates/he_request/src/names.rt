//! `he names`.

use crate::connect::host_of;
use clap::{ArgMatches, Command};
use he_addr::Memory;
use he_options::arguments::{flag, flag_of, plain, record_of, value, word};
use he_options::resolver::{resolver_argument, resolver_of};
use he_options::{OptionFault, Resolver, STANDARD};
use std::alloc::Global;

const ABOUT: &str = "Look up a name (AAAA and A), with the time of each answer";

const HOST_HELP: &str = "A host name, as www.example.com, or an address";

const RECORD_HELP: &str = "Write record lines of the look-up to FILE";

const EXAMPLE: &str = "\
Standard output has the two answers of a timeline, each with the tick
(milliseconds since the start) at which it came, and `none` if a family has no
address.

Example: `he names www.example.com` may write

  aaaa 31 2001:db8:1::1 2001:db8:1::2
  a 12 198.51.100.1

and with --json, in one line

  {\"host\":\"www.example.com\",\"aaaa\":{\"tick\":31,\"addresses\":[\"2001:db8:1::1\",
  \"2001:db8:1::2\"]},\"a\":{\"tick\":12,\"addresses\":[\"198.51.100.1\"]}}

An address is its own answer, and a name in /etc/hosts has the addresses there.
For any other the name servers of /etc/resolv.conf are asked, both families at
once, over UDP, and over TCP if an answer is truncated; `search` and the options
ndots, timeout and attempts hold as resolv.conf(5) says. With `--resolver
system` all of this is left to the system (getaddrinfo), which gives both
families at once.

If the look-up of a family failed, standard error says why, and the addresses of
the other are written. With -v standard error has each event with its
millisecond: which server answered, failed, or did not answer in time. FILE of
--record gets the record lines that go before a race with these answers: when
the look-up began, why a family has no address, and the name servers that did
not answer.

Exit status: 0 if an address was found and no look-up failed; 1 after a fault,
such as a name that does not exist; 2 on a usage error.";

pub(crate) fn command<'a>(alloc: Global) -> Result<Command<'a>, Memory> {
    let host = word(alloc, "host", "HOST", HOST_HELP).required(true);
    let verbose = flag(alloc, "verbose", "Report what happens in the look-up").short('v');
    let json = flag(
        alloc,
        "json",
        "Write one JSON object in place of the answers",
    );
    let record = value(alloc, "record", "FILE", RECORD_HELP);
    let args = vec![in alloc; host, resolver_argument(alloc), record, json, verbose]?;
    plain(alloc, "names", ABOUT, EXAMPLE, args)
}

/// The addresses of a host, which are to be found.
#[derive(Clone, Copy)]
pub struct Names<'a> {
    /// A name or an address.
    pub host: &'a str,
    pub resolver: Resolver<'a>,
    /// The file of the look-up's record lines.
    pub record: Option<&'a str>,
    /// Whether the answers are written as JSON.
    pub is_json: bool,
    /// Whether what happened is reported.
    pub tells_steps: bool,
}

// The request that the line makes.
pub(crate) fn names_of<'a>(
    alloc: Global,
    matches: &ArgMatches<'a>,
) -> Result<Names<'a>, OptionFault> {
    let record = record_of(matches)?;
    if record == Some(STANDARD) {
        return Err(OptionFault::Answers);
    }
    Ok(Names {
        host: host_of(matches)?,
        resolver: resolver_of(alloc, matches)?,
        record,
        is_json: flag_of(matches, "json"),
        tells_steps: flag_of(matches, "verbose"),
    })
}
