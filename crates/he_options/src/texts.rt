//! The texts of races that a line names, and what is done with them.
ghost use Rattle.std.specs.Prelude.{◌≡◌, ◌≤◌, IfOk, option_map};
ghost use Rattle.clap.specs.Matches.{found_of};
ghost use Rattle.he_options.specs.Texts.{AsksTexts, HasTaskWorkers, IsTexts, tells_faults};
ghost use Rattle.he_options.specs.declared.texts.Task.TheVariants.{Write};

use crate::arguments::{files_of, flag_of};
use crate::limits::LEAST_WORKERS;
use crate::refusal::Refusal;
use crate::settings::changes_of;
use clap::ArgMatches;
use he_timeline::Changes;
use std::alloc::Global;

/// A command over texts of races.
#[derive(Clone, Copy)]
pub enum Task {
    /// To write this of each race, by at most this number of workers, 1 to 64.
    Write {
        content: Content,
        workers: u16,
    },
    /// To compare the races of all texts with what they would be with other settings, as JSON or in a table, and in
    /// lines for each race too, or in the table alone.
    Compare {
        is_json: bool,
        tells_races: bool,
    },
    /// To check it, and to explain its first fault, or each after which it goes on, or to warn of its likely mistakes;
    /// as JSON, or in lines.
    Check {
        is_all: bool,
        is_json: bool,
    },
    /// To sum its races up with those of the other texts, as JSON, as metrics or in lines, with this number of
    /// the slowest.
    Summarize {
        is_json: bool,
        is_metrics: bool,
        slowest: u16,
    },
    /// A summary in groups: as JSON, or in a table.
    Group {
        is_json: bool,
        by: By,
    },
}

/// By what races are put into groups: their files, the hours in the names of these, the families that won, or the
/// hosts that were requested.
#[derive(Clone, Copy)]
pub enum By {
    File,
    Hour,
    Family,
    Host,
}

/// The output for a race.
#[derive(Clone, Copy)]
pub enum Content {
    /// Its events, as JSON or in lines.
    Transcript { is_json: bool },
    /// In which order its addresses are to be tried.
    Order { is_json: bool },
    /// Why it went as it did, as JSON.
    ExplanationJson,
    /// Its story, for a person to read.
    Story,
    /// Its picture, in this many columns.
    Picture { is_ascii: bool, width: u16 },
    /// A picture of it as an SVG image.
    Image,
    /// Its part of a page.
    Section,
}

/// Texts that something is done with.
#[derive(Drop)]
pub struct Texts<'a> {
    pub task: Task,
    /// The settings that each race has in place of its own.
    pub changes: Changes,
    /// Those that it has in each row of a comparison, and the words for them; none where there is no comparison.
    pub rows: Vec<Changes>,
    pub labels: Vec<String>,
    /// The files that have them, one after the other, `-` for standard input; where there are none, it has one.
    pub files: Vec<&'a str>,
    /// The file that has the names of these files, each ended by a byte 0, `-` for standard input.
    pub list: Option<&'a str>,
    /// Whether the files after one that has a fault are read too.
    pub goes_on: bool,
    /// Whether a fault is explained: that of a file as a check does, and why it can't be read or nothing written.
    pub explains: bool,
    /// The file of a page, in place of the output.
    pub page: Option<&'a str>,
}

impl Task {
    /// Whether what it reports of a text has each fault.
    pub fn tells_faults(self) -> bool
        ensures { result ≡ tells_faults self }
    {
        match self {
            Task::Check { is_all, .. } => is_all,
            _ => false,
        }
    }
}

/// To write this of each race, by one worker.
pub fn alone(content: Content) -> Task
    ensures has { HasTaskWorkers result }
    ensures is { result ≡ Write content 1 }
{
    Task::Write {
        content,
        workers: LEAST_WORKERS,
    }
}

/// The texts that the line names, with which this is done, in the output or in the file of this page.
///
/// # Errors
///
/// `Option` where a setting is none or out of its range, or there are more files than are taken; `Memory`.
pub fn texts_of<'a>(
    alloc: Global,
    task: Task,
    page: Option<&'a str>,
    matches: &ArgMatches<'a>,
) -> Result<Texts<'a>, Refusal>
    requires { HasTaskWorkers task }
    ensures is { IfOk result IsTexts }
    ensures asks { IfOk result (AsksTexts (found_of matches.now) task
        (option_map (λ path. path.now) page.entry)) }
{
    Ok(Texts {
        task,
        changes: changes_of(matches)?,
        rows: Vec::new(alloc),
        labels: Vec::new(alloc),
        files: files_of(alloc, matches)?,
        list: matches.get_str("files0-from"),
        goes_on: flag_of(matches, "keep-going") || task.tells_faults(),
        explains: flag_of(matches, "verbose") || matches!(task, Task::Check { .. }),
        page,
    })
}
