//! `he summary`.
ghost use Rattle.std.specs.Prelude.{◌≡◌};
ghost use Rattle.clap.specs.Matches.{found_of};
ghost use Rattle.he_request.specs.Requests.{AsksSummary, named_by};

use clap::{ArgMatches, Command, value_parser};
use he_addr::Memory;
use he_options::arguments::{
    FILES_HELP, files, flag, flag_of, list, number_of, plain, value, verbose,
};
use he_options::settings::set;
use he_options::{By, Task};
use std::alloc::Global;
use std::str::FromStr;

const ABOUT: &str = "Summarize races: times, share of IPv6, time lost, dead addresses";

const JSON_HELP: &str = "Write the sums as one JSON object, on one line";

const METRICS_HELP: &str = "Write the counts and times as OpenMetrics text";

const SLOWEST_HELP: &str = "Add the N slowest races that connected, each with\nits file and line";

const BY_HELP: &str = "Write a row for each file, hour, family or host;\n\
hours are those in the names by `he proxy --record`,\n\
the family is that of the address that won, the host\n\
is that of the record lines";

// The words for groups.
const GROUPS: &[&str] = &["file", "hour", "family", "host"];

const KEEP_GOING_HELP: &str = "Go on to the next file after a faulty one";

const EXAMPLE: &str = "\
Reads timelines, as `he replay` does. Standard output has one summary of the
races of all files: how many connected, how many not and why; the times to
connect, with what of them waited for the names and was lost; what the time of
all races went into; the attempts; in how many races the AAAA answer was not
there 50 ms after the A answer (the Resolution Delay, RFC 8305 section 3); and
the ten addresses that cost the most time. Nothing is written before the end of
the last file. In a file with a fault the races before it count; standard error
says how many files were not read to their end. With --by there is a table of
groups of races, and no addresses.

For the example of `he draw --help` it writes:

  1 race: 1 connected (100.0 %)
  connected by IPv4: 1 (100.0 %)
                           median       p90       p99       max  ms
  time to connect             300       300       300       300
    of it names                20        20        20        20
    of it lost                250       250       250       250
  where the time went: names 20 ms, lost 250 ms, connecting 30 ms
  attempts: 2, at most 2 in a race
    attempts    failed no answer   lost ms  address
           1         1         0       250  2001:db8:1::1";

pub(crate) fn command<'a>(alloc: Global) -> Result<Command<'a>, Memory> {
    let metrics = flag(alloc, "openmetrics", METRICS_HELP)
        .conflicts_with("json")?
        .conflicts_with("slowest")?;
    let by = value(alloc, "by", "GROUP", BY_HELP)
        .value_parser(GROUPS)
        .hide_possible_values(true)
        .conflicts_with("openmetrics")?
        .conflicts_with("slowest")?;
    let args = vec![in alloc;
        files(alloc, FILES_HELP),
        list(alloc)?,
        flag(alloc, "json", JSON_HELP),
        metrics,
        value(alloc, "slowest", "N", SLOWEST_HELP).value_parser(value_parser!(u16).range(
            1..=65_535
        )),
        by,
        flag(alloc, "keep-going", KEEP_GOING_HELP),
        set(alloc),
        verbose(alloc),
    ]?;
    plain(alloc, "summary", ABOUT, EXAMPLE, args)
}

// The task that the line asks for.
pub(crate) fn task_of(matches: &ArgMatches<'_>) -> Task
    ensures { AsksSummary ⟦<u16 as FromStr>⟧.from_str_gives (found_of matches.now) result }
{
    let is_json = flag_of(matches, "json");
    match matches.get_str("by") {
        Some(word) => Task::Group {
            is_json,
            by: named_by(word),
        },
        None => Task::Summarize {
            is_json,
            is_metrics: flag_of(matches, "openmetrics"),
            slowest: number_of(matches, "slowest").unwrap_or(0),
        },
    }
}

// The groups that a word names. clap takes only these words.
fn named_by(word: &str) -> By
    ensures { result ≡ named_by word.now }
{
    if word == "hour" {
        By::Hour
    } else if word == "family" {
        By::Family
    } else if word == "host" {
        By::Host
    } else {
        By::File
    }
}
