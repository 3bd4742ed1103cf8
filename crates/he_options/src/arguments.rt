//! The arguments that several commands have, and what the line gives them.
ghost use Rattle.std.specs.Prelude.{◌≡◌, ◌≤◌, IfOk, codes, length, map, option_map};
ghost use Rattle.clap.specs.Matches.{first_value, found_of};
ghost use Rattle.he_options.specs.Words.{HasFlag, HasNumber, values_of};
ghost use Rattle.he_options.specs.declared.limits.TheConstants.{MOST_FILES};

use crate::limits::MOST_FILES;
use crate::refusal::{OptionFault, Refusal};
use clap::{Arg, ArgAction, ArgMatches, Command};
use he_addr::Memory;
use std::alloc::Global;
use std::str::FromStr;

/// The name for standard input or standard output.
pub const STANDARD: &str = "-";

/// The help of the files that a command reads.
pub const FILES_HELP: &str = "\
Files to read, in order; default is standard input (-).\n\
Of a directory all files *.timeline in it are read";

const LIST_HELP: &str = "Read the files named in FILE (- is standard input),\n\
each name ended by a NUL byte, as by `find -print0`";

const MACHINE_HELP: &str = "Read this machine's addresses, routes and policy\n\
table from FILE, lines as `he host` prints them";

const VERBOSE_HELP: &str =
    "Explain the fault of a file as `he check` does,\nand say why a file can't be read or written";

/// A command with these arguments, and what help says before and after them.
///
/// # Errors
///
/// `Memory` where memory was refused.
pub fn plain<'a>(
    alloc: Global,
    name: &'a str,
    about: &'a str,
    example: &'a str,
    args: Vec<Arg<'a>>,
) -> Result<Command<'a>, Memory> {
    Command::new(alloc, name)
        .about(about)
        .after_help(example)
        .args(args)
}

/// An option without a value.
pub fn flag<'a>(alloc: Global, id: &'a str, help: &'a str) -> Arg<'a> {
    Arg::new(alloc, id)
        .long(id)
        .action(ArgAction::SetTrue)
        .help(help)
}

/// An option of one letter, without a value.
pub fn letter<'a>(alloc: Global, id: &'a str, letter: char, help: &'a str) -> Arg<'a> {
    Arg::new(alloc, id)
        .short(letter)
        .action(ArgAction::SetTrue)
        .help(help)
}

/// An option with a value, or with one word for each use.
pub fn value<'a>(alloc: Global, id: &'a str, name: &'a str, help: &'a str) -> Arg<'a> {
    Arg::new(alloc, id).long(id).value_name(name).help(help)
}

/// An operand.
pub fn word<'a>(alloc: Global, id: &'a str, name: &'a str, help: &'a str) -> Arg<'a> {
    Arg::new(alloc, id).value_name(name).help(help)
}

/// The option that has races written as JSON.
pub fn json<'a>(alloc: Global) -> Arg<'a> {
    flag(
        alloc,
        "json",
        "Write one JSON object for each race, each on a line",
    )
}

/// The option that has a fault explained.
pub fn verbose<'a>(alloc: Global) -> Arg<'a> {
    flag(alloc, "verbose", VERBOSE_HELP).short('v')
}

/// The option that names a file of source, route and policy lines, which are read in place of this machine's.
pub fn machine<'a>(alloc: Global) -> Arg<'a> {
    value(alloc, "host-lines", "FILE", MACHINE_HELP).long("machine")
}

/// The argument that names the files to read.
pub fn files<'a>(alloc: Global, help: &'a str) -> Arg<'a> {
    word(alloc, "file", "FILE", help).action(ArgAction::Append)
}

/// The option that names a file with the names of the files to read, in place of these.
///
/// # Errors
///
/// `Memory` where memory was refused.
pub fn list<'a>(alloc: Global) -> Result<Arg<'a>, Memory> {
    value(alloc, "files0-from", "FILE", LIST_HELP).conflicts_with("file")
}

/// The files that the line names, in order.
///
/// # Errors
///
/// `Option` where there are more than are taken; `Memory`.
pub fn files_of<'a>(alloc: Global, matches: &ArgMatches<'a>) -> Result<Vec<&'a str>, Refusal>
    ensures are { IfOk result (λ files. map (λ file. file.now) files.items
        ≡ values_of (found_of matches.now) (codes "file")) }
    ensures few { IfOk result (λ files. length files.items ≤ MOST_FILES) }
{
    let files = match matches.get_strs("file") {
        Some(files) => Vec::from_slice(alloc, files)?,
        None => Vec::new(alloc),
    };
    if files.len() > MOST_FILES {
        return Err(Refusal::Option(OptionFault::Files));
    }
    Ok(files)
}

/// The file or the folder of the records that the line names, if it names one.
///
/// # Errors
///
/// `NoName` where the name is empty.
pub fn record_of<'a>(matches: &ArgMatches<'a>) -> Result<Option<&'a str>, OptionFault>
    ensures { IfOk result (λ file. option_map (λ path. path.now) file
        ≡ first_value (found_of matches.now) (codes "record")) }
{
    let record = matches.get_str("record");
    if record == Some("") {
        return Err(OptionFault::NoName);
    }
    Ok(record)
}

/// Whether the line has this flag.
pub fn flag_of(matches: &ArgMatches<'_>, id: &str) -> bool
    ensures { HasFlag (found_of matches.now) id.now result }
{
    matches.get_flag(id)
}

/// The number that the line gives this option. clap has tested its range, but has no clause on a subcommand's
/// arguments.
pub fn number_of(matches: &ArgMatches<'_>, id: &str) -> Option<u16>
    ensures { HasNumber ⟦<u16 as FromStr>⟧.from_str_gives (found_of matches.now) id.now result }
{
    matches.get_one::<u16>(id)
}

/// The texts that the line gives this option, in order.
pub fn values_of<'a>(matches: &'a ArgMatches<'_>, id: &str) -> &'a [&'a str]
    ensures { map (λ text. text.now) result.now ≡ values_of (found_of matches.now) id.now }
{
    matches.get_strs(id).unwrap_or(&[])
}
