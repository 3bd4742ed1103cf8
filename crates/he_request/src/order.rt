//! `he order`.
ghost use Rattle.clap.specs.Matches.{found_of};
ghost use Rattle.he_request.specs.Requests.{AsksOrder};

use clap::{ArgMatches, Command};
use he_addr::Memory;
use he_options::arguments::{FILES_HELP, files, flag_of, json, list, plain, verbose};
use he_options::texts::alone;
use he_options::{Content, Task};
use std::alloc::Global;

const ABOUT: &str = "Print the addresses of each race in the order of RFC 6724";

const EXAMPLE: &str = "\
Reads timelines, as `he replay` does. Standard output has for each race its
usable addresses in order of preference (RFC 6724), each with the source address
that the machine uses for it, or none without a route or a source.

Example input:

  race 1
  source 2001:db8::2/64 1
  source 192.0.2.2/24 1
  route 0.0.0.0/0 1
  aaaa 20 2001:db8:1::1
  a 20 198.51.100.1
  end

Its output:

  0 198.51.100.1 from 192.0.2.2
  1 2001:db8:1::1 from none
  end";

pub(crate) fn command<'a>(alloc: Global) -> Result<Command<'a>, Memory> {
    let args = vec![in alloc;
        files(alloc, FILES_HELP),
        list(alloc)?,
        json(alloc),
        verbose(alloc),
    ]?;
    plain(alloc, "order", ABOUT, EXAMPLE, args)
}

// The task that the line asks for.
pub(crate) fn task_of(matches: &ArgMatches<'_>) -> Task
    ensures { AsksOrder (found_of matches.now) result }
{
    alone(Content::Order {
        is_json: flag_of(matches, "json"),
    })
}
