//! `he replay`.
ghost use Rattle.clap.specs.Matches.{found_of};
ghost use Rattle.he_request.specs.Requests.{AsksReplay};
ghost use Rattle.he_options.specs.Texts.{HasTaskWorkers};

use clap::{ArgMatches, Command, value_parser};
use he_addr::Memory;
use he_options::arguments::{
    FILES_HELP, files, flag_of, json, list, number_of, plain, value, verbose,
};
use he_options::limits::{DEFAULT_WORKERS, DEFAULT_WORKERS_TEXT, LEAST_WORKERS, MOST_WORKERS};
use he_options::settings::set;
use he_options::{Content, Task};
use std::alloc::Global;
use std::str::FromStr;

const ABOUT: &str = "Replay the races of timelines, and write what happens in them";

const WORKERS_HELP: &str = "Share the races between at most N workers, 1 to 64;\n\
the output is the same for any N";

const EXAMPLE: &str = "\
A timeline has for each race the machine's addresses and routes, the tick
(millisecond) at which each DNS answer comes, and how long each connect takes.
Standard output has for each race its attempts, with start, address and end,
and the result. A race that begins with `race 2` may also say what is known of
addresses (`rtt`, `used`), and how soon a failure is followed (`set floor`).

Example input:

  race 1
  source 2001:db8::2/64 1
  source 192.0.2.2/24 1
  route ::/0 1
  route 0.0.0.0/0 1
  aaaa 20 2001:db8:1::1
  a 25 198.51.100.1
  connect 2001:db8:1::1 ok 35
  end

Its output:

  attempt 0 20 2001:db8:1::1 won 55
  won 0 55";

pub(crate) fn command<'a>(alloc: Global) -> Result<Command<'a>, Memory> {
    let workers = value(alloc, "workers", "N", WORKERS_HELP)
        .value_parser(value_parser!(u16).range(i64::from(LEAST_WORKERS)..=i64::from(MOST_WORKERS)))
        .default_value(DEFAULT_WORKERS_TEXT);
    let args = vec![in alloc;
        files(alloc, FILES_HELP),
        list(alloc)?,
        workers,
        set(alloc),
        json(alloc),
        verbose(alloc),
    ]?;
    plain(alloc, "replay", ABOUT, EXAMPLE, args)
}

// The task that the line asks for.
pub(crate) fn task_of(matches: &ArgMatches<'_>) -> Task
    ensures has { HasTaskWorkers result }
    ensures asks { AsksReplay ⟦<u16 as FromStr>⟧.from_str_gives (found_of matches.now) result }
{
    let is_json = flag_of(matches, "json");
    let workers = number_of(matches, "workers").unwrap_or(DEFAULT_WORKERS);
    Task::Write {
        content: Content::Transcript { is_json },
        workers: workers.max(LEAST_WORKERS).min(MOST_WORKERS),
    }
}
