//! `he explain`.
ghost use Rattle.clap.specs.Matches.{found_of};
ghost use Rattle.he_request.specs.Requests.{AsksExplain};

use clap::{ArgMatches, Command};
use he_addr::Memory;
use he_options::arguments::{FILES_HELP, files, flag_of, json, list, plain, verbose};
use he_options::settings::set;
use he_options::texts::alone;
use he_options::{Content, Task};
use std::alloc::Global;

const ABOUT: &str = "Explain each race: what was tried, when and why, and what cost time";

const EXAMPLE: &str = "\
Reads timelines, as `he replay` does. Standard output has for each race how it
ended, what it lost, what to check and where its time went; its usable addresses
in order of preference, each with the source that the machine uses for it, and
what puts it after the one before (RFC 6724 section 6, RFC 8305 section 4); what
happened, by the millisecond, each attempt with its cause (RFC 8305 sections 3
to 5); and finally what had to wait, and whether a floor (`set floor 10`) would
have helped. Attempts and addresses are counted from 1.

For the example of `he replay --help` it writes:

  race 1 (line 1): connected by IPv6 (2001:db8:1::1) in 55 ms; nothing lost
  where the time went: names 20 ms, lost 0 ms, connecting 35 ms
  preferred, once every answer is known:
    1. 2001:db8:1::1 from 2001:db8::2
    2. 198.51.100.1 from 192.0.2.2; lower precedence: 35, the one before 40
       (RFC 6724 rule 6)
  course:
    20 ms  AAAA answer: 1 address to try; still waiting for the A answer
    20 ms  attempt 1 to 2001:db8:1::1: AAAA answer received; no other
           address known
    25 ms  A answer: 1 address to try
    55 ms  attempt 1 connected after 35 ms
  no address of the A answer was tried";

pub(crate) fn command<'a>(alloc: Global) -> Result<Command<'a>, Memory> {
    let args = vec![in alloc;
        files(alloc, FILES_HELP),
        list(alloc)?,
        set(alloc),
        json(alloc),
        verbose(alloc),
    ]?;
    plain(alloc, "explain", ABOUT, EXAMPLE, args)
}

// The task that the line asks for: a story, or what scripts read.
pub(crate) fn task_of(matches: &ArgMatches<'_>) -> Task
    ensures { AsksExplain (found_of matches.now) result }
{
    alone(if flag_of(matches, "json") {
        Content::ExplanationJson
    } else {
        Content::Story
    })
}
