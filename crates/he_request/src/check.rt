//! `he check`.
ghost use Rattle.clap.specs.Matches.{found_of};
ghost use Rattle.he_request.specs.Requests.{AsksCheck};

use clap::{ArgMatches, Command};
use he_addr::Memory;
use he_options::Task;
use he_options::arguments::{FILES_HELP, files, flag, flag_of, list, plain};
use std::alloc::Global;

const ABOUT: &str = "Check timelines, and explain their faults";

const ALL_HELP: &str = "Go on after a faulty race and after a faulty file,\n\
and explain the first fault of each race";

const JSON_HELP: &str = "Write one JSON object for each file, each on a line";

const EXAMPLE: &str = "\
Reads timelines, as `he replay` does. If nothing is wrong, standard output has
one line, as

  3 races, 27 lines

and standard error has a warning for each likely mistake, such as a race without
an `aaaa` line, which cannot be exhausted. Otherwise standard output has
nothing, and standard error has the first fault: its line number and text, a
mark below what is wrong, and what was expected. Nothing after it is read. With
--all it goes on at the next line `race 1` or `race 2` or record line, explains
the first 1000 faults of a file, counts the others, and goes on with the next
file. With --json standard output has all of that instead: the races, lines and
warnings of a file, or its faults.

Example input:

  race 1
  set attempt 5
  end

Standard error for it:

  he: line 2: range
    set attempt 5
                ^
  the attempt delay is 10 to 2000 milliseconds";

pub(crate) fn command<'a>(alloc: Global) -> Result<Command<'a>, Memory> {
    let args = vec![in alloc;
        files(alloc, FILES_HELP),
        list(alloc)?,
        flag(alloc, "all", ALL_HELP),
        flag(alloc, "json", JSON_HELP),
    ]?;
    plain(alloc, "check", ABOUT, EXAMPLE, args)
}

// The task that the line asks for.
pub(crate) fn task_of(matches: &ArgMatches<'_>) -> Task
    ensures { AsksCheck (found_of matches.now) result }
{
    Task::Check {
        is_all: flag_of(matches, "all"),
        is_json: flag_of(matches, "json"),
    }
}
