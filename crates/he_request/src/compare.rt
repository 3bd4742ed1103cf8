//! `he compare`.
ghost use Rattle.std.specs.Prelude.{◌≡◌, IfOk};
ghost use Rattle.clap.specs.Matches.{found_of};
ghost use Rattle.he_request.specs.Requests.{AsksComparison};
ghost use Rattle.he_options.specs.Texts.{IsTexts};

use clap::{ArgAction, ArgMatches, Command};
use he_addr::Memory;
use he_options::arguments::{
    FILES_HELP, files, files_of, flag, flag_of, list, plain, value, verbose,
};
use he_options::rows::rows_of;
use he_options::{Refusal, Task, Texts};
use he_timeline::Changes;
use std::alloc::Global;

const ABOUT: &str = "Show what other settings would have changed";

const SET_HELP: &str = "Override a setting in every race; repeatable.\n\
NAME is attempt, resolution, count, limit or floor;\n\
one NAME may have a list, N,N,..: a row for each";

const JSON_HELP: &str = "Write the table as one JSON object, on one line";

const RACES_HELP: &str = "Write a line for each race and row before the table";

const KEEP_GOING_HELP: &str = "Go on to the next file after a faulty one";

const EXAMPLE: &str = "\
Reads timelines, as `he replay` does. Standard output has one table of the races
of all files: a row for the recorded settings, and one for each setting given.
It has the times to connect (the median, and the 90th and the 99th
percentile); the mean number of attempts; the share of connections by IPv6; and
how many races connected sooner, later, at the same time, only with these
settings, only without them, and of how many this is unknown, since they try an
address of a line `record untried`. Nothing is written before the end of the
last file. In a file with a fault the races before it are compared.

For the example of `he draw --help`, --set floor=10,200 gives:

  p50 ms  p90 ms  p99 ms  attempts       IPv6  sooner   later    same  ..
     300     300     300      2.00      0.0 %       0       0       1  ..
      60      60      60      2.00      0.0 %       1       0       0  ..
     250     250     250      2.00      0.0 %       1       0       0  ..

A floor above the attempt delay of a race changes nothing: the delay ends first.
Any other address without a connect line is silent with other settings too.";

pub(crate) fn command<'a>(alloc: Global) -> Result<Command<'a>, Memory> {
    let set = value(alloc, "set", "NAME=N,..", SET_HELP)
        .action(ArgAction::Append)
        .required(true);
    let args = vec![in alloc;
        files(alloc, FILES_HELP),
        list(alloc)?,
        flag(alloc, "json", JSON_HELP),
        flag(alloc, "races", RACES_HELP),
        flag(alloc, "keep-going", KEEP_GOING_HELP),
        set,
        verbose(alloc),
    ]?;
    plain(alloc, "compare", ABOUT, EXAMPLE, args)
}

// The task that the line asks for.
pub(crate) fn comparison_of<'a>(
    alloc: Global,
    matches: &ArgMatches<'a>,
) -> Result<Texts<'a>, Refusal>
    ensures is { IfOk result IsTexts }
    ensures asks { IfOk result (AsksComparison (found_of matches.now)) }
{
    let rows = rows_of(alloc, matches)?;
    Ok(Texts {
        task: Task::Compare {
            is_json: flag_of(matches, "json"),
            tells_races: flag_of(matches, "races"),
        },
        changes: Changes::none(),
        rows: rows.changes,
        labels: rows.labels,
        files: files_of(alloc, matches)?,
        list: matches.get_str("files0-from"),
        goes_on: flag_of(matches, "keep-going"),
        explains: flag_of(matches, "verbose"),
        page: None,
    })
}
