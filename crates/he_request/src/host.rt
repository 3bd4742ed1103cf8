//! `he host`.

use clap::{ArgAction, ArgMatches, Command};
use he_addr::{Ip, Memory, read_ip};
use he_options::arguments::{flag, flag_of, plain, value};
use he_options::{OptionFault, Refusal};
use std::alloc::Global;

const ABOUT: &str = "Print this machine's addresses and routes";

const FOR_HELP: &str = "Write only the lines for these destinations, as the\n\
kernel reaches them: IPv4 or IPv6 addresses";

const JSON_HELP: &str = "Write one JSON object in place of the lines";

const EXAMPLE: &str = "\
Reads no input. Standard output has the `source` and `route` lines of this
machine, as a race has them, from /proc/net and /sys/class/net. Standard error
has a line for each address and each route that cannot be part of a race:
addresses that are not in use yet, unreachable and blackhole routes, interfaces
that are down, and anything beyond 64 addresses or 64 routes.

Of two routes to one prefix the one with the lower metric is taken. If no file
has the interface of an IPv4 address, the kernel is asked for the source that it
uses, which sends nothing. Standard error says what is a guess, which routing
tables are not seen, and for which routes the kernel uses another source, by
policy routing or a source of the route's own.

With --for there are lines for only these destinations, so that each is reached
from the source that the kernel uses; standard error names those for which no
lines can do that. A destination that cannot be reached has no route.

Output, on a machine with one network:

  source 127.0.0.1/8 1
  source 192.0.2.2/24 2
  source 2001:db8::2/64 2
  source ::1/128 1
  route ::/0 2
  route 2001:db8::/64 2
  route 0.0.0.0/0 2
  route 127.0.0.0/8 1
  route 192.0.2.0/24 2
  route ::1/128 1

With --json it is one object on one line, which begins on that machine

  {\"sources\":[{\"address\":\"127.0.0.1\",\"length\":8,\"interface\":1,

To make a race of it, and to run that:

  { echo race 1; he host; echo aaaa 0 ::1; echo a 0 127.0.0.1; echo end; } \\
    > race.timeline
  he live --port 8080 < race.timeline";

pub(crate) fn command<'a>(alloc: Global) -> Result<Command<'a>, Memory> {
    let destinations = value(alloc, "for", "ADDRESS", FOR_HELP)
        .num_args(1..)
        .action(ArgAction::Append);
    let args = vec![in alloc; destinations, flag(alloc, "json", JSON_HELP)]?;
    plain(alloc, "host", ABOUT, EXAMPLE, args)
}

/// The addresses and routes of this machine, which are to be written.
#[derive(Drop)]
pub struct Host {
    /// The only destinations whose lines are written; those of the whole machine are if there are none.
    pub destinations: Vec<Ip>,
    /// Whether they are written as JSON.
    pub is_json: bool,
}

// The request that the line makes.
pub(crate) fn host_of(alloc: Global, matches: &ArgMatches<'_>) -> Result<Host, Refusal> {
    Ok(Host {
        destinations: destinations_of(alloc, matches)?,
        is_json: flag_of(matches, "json"),
    })
}

// The destinations that the line names.
fn destinations_of(alloc: Global, matches: &ArgMatches<'_>) -> Result<Vec<Ip>, Refusal> {
    let mut destinations = Vec::new(alloc);
    if let Some(texts) = matches.get_strs("for") {
        for text in texts {
            match read_ip(text.as_bytes()) {
                Some(ip) => destinations.push(ip).map_err(|_| Refusal::Memory)?,
                None => return Err(Refusal::Option(OptionFault::Destination)),
            }
        }
    }
    Ok(destinations)
}
