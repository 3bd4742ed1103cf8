//! `he draw`.
ghost use Rattle.std.specs.Prelude.{◌≡◌, IfOk, option_map};
ghost use Rattle.clap.specs.Matches.{found_of};
ghost use Rattle.he_request.specs.Requests.{AsksDrawing, IsDrawn, page_of};
ghost use Rattle.he_options.specs.Texts.{IsTexts};

use crate::terminal::Terminal;
use clap::{Arg, ArgMatches, Command, value_parser};
use he_addr::Memory;
use he_options::arguments::{
    FILES_HELP, files, flag, flag_of, list, number_of, plain, value, verbose,
};
use he_options::limits::{LEAST_WIDTH, MOST_WIDTH};
use he_options::settings::set;
use he_options::texts::{alone, texts_of};
use he_options::{Content, OptionFault, Refusal, STANDARD, Texts};
use std::alloc::Global;
use std::str::FromStr;

const ABOUT: &str = "Draw a picture of each race, or a page of all races";

const WIDTH_HELP: &str =
    "Columns of a line, 40 to 1000; default is that of\nthe environment's COLUMNS, else 80";

const HTML_HELP: &str = "Write a page for a browser to FILE.html, or to\n\
standard output (-): each race with its story";

const EXAMPLE: &str = "\
Reads timelines, as `he replay` does. Standard output has a picture of each
race: a line on how it ended, and a row for the AAAA answer, the A answer, each
pause and each attempt, with a bar from its start to its end, all on the scale
below them, and the same ticks in numbers. The race ends at the right edge. The
bar of the A answer is its wait for the AAAA answer (the Resolution Delay, RFC
8305 section 3).

Example input:

  race 1
  source 2001:db8::2/64 1
  source 192.0.2.2/24 1
  route ::/0 1
  route 0.0.0.0/0 1
  aaaa 20 2001:db8:1::1
  a 25 198.51.100.1
  connect 2001:db8:1::1 fail 1
  connect 198.51.100.1 ok 30
  end

Output of `he draw --ascii --width 72`:

  race 1 (line 1): connected by IPv4 (198.51.100.1) in 300 ms
  AAAA answer   |  o                                | 20 ms, 1 usable
  A answer      |  o                                | 25 ms, 1 usable
  2001:db8:1::1 |  x                                | 20-21 ms failed
  198.51.100.1  |                              ====*| 270-300 ms connected
                 0                            300 ms";

pub(crate) fn command<'a>(alloc: Global) -> Result<Command<'a>, Memory> {
    let range = i64::from(LEAST_WIDTH)..=i64::from(MOST_WIDTH);
    let width = value(alloc, "width", "N", WIDTH_HELP).value_parser(value_parser!(u16).range(
        range,
    ));
    let svg = alone_of(flag(alloc, "svg", "Draw each race as an SVG image"))?.conflicts_with(
        "html",
    )?;
    let html = alone_of(value(alloc, "html", "FILE", HTML_HELP))?;
    let args = vec![in alloc;
        files(alloc, FILES_HELP),
        list(alloc)?,
        flag(alloc, "ascii", "Use ASCII characters only"),
        width,
        svg,
        html,
        set(alloc),
        verbose(alloc),
    ]?;
    plain(alloc, "draw", ABOUT, EXAMPLE, args)
}

// An option that excludes the options of pictures in lines.
fn alone_of(option: Arg<'_>) -> Result<Arg<'_>, Memory> {
    option.conflicts_with("ascii")?.conflicts_with("width")
}

// The task that the line asks for, for this terminal.
pub(crate) fn drawing_of<'a>(
    alloc: Global,
    terminal: Terminal,
    matches: &ArgMatches<'a>,
) -> Result<Texts<'a>, Refusal>
    ensures is { IfOk result IsTexts }
    ensures asks { IfOk result (AsksDrawing ⟦<u16 as FromStr>⟧.from_str_gives
        (found_of matches.now) terminal) }
{
    let html = matches.get_str("html");
    let page = page_of(html)?;
    let task = alone(content_of(terminal, html.is_some(), matches));
    texts_of(alloc, task, page, matches)
}

fn content_of(terminal: Terminal, is_page: bool, matches: &ArgMatches<'_>) -> Content
    ensures { IsDrawn ⟦<u16 as FromStr>⟧.from_str_gives (found_of matches.now) is_page terminal result }
{
    let (svg, is_ascii) = (flag_of(matches, "svg"), flag_of(matches, "ascii"));
    let width = number_of(matches, "width");
    if is_page {
        Content::Section
    } else if svg {
        Content::Image
    } else {
        Content::Picture {
            is_ascii: is_ascii || terminal.is_ascii,
            width: width.unwrap_or(terminal.columns),
        }
    }
}

// The file of a page: one whose name says so, since a text that was named in its place would be lost. None for `-`,
// standard output.
fn page_of<'a>(html: Option<&'a str>) -> Result<Option<&'a str>, OptionFault>
    ensures { IfOk result (λ page. option_map (λ p. p.now) page ≡ page_of (option_map (λ p. p.now) html.entry)) }
{
    let Some(path) = html else {
        return Ok(None);
    };
    if path == STANDARD {
        Ok(None)
    } else if path.ends_with(".html") {
        Ok(Some(path))
    } else {
        Err(OptionFault::Page)
    }
}
