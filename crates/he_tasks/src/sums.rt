//! The summary or the comparison of the races of all texts.
ghost use Rattle.std.specs.Prelude.{ℕ, ◌≡◌, IfOk, List, map, OnOk, string_bytes};
ghost use Rattle.he_totals.specs.Kept.{Run};
ghost use Rattle.he_totals.specs.Summed.{HasSummed};
ghost use Rattle.he_tasks.specs.Summaries.{AreByHost, AreDivided, AreGrouped, AreLinesOf, AreWorst, AreWorstGroups, EndsTask, EndsTexts, IsSummary, IsTold, IsWorstHost, IsWorstHour, PutsSums};
ghost use Rattle.he_options.specs.declared.texts.Task.TheVariants.{Write};
ghost use Rattle.he_tasks.specs.Summaries.{form_of, name_in, names_in};

use crate::page::put_tail;
use crate::reports::{DONE, FAULT, report};
use crate::session::{Session, put_all};
use he_addr::Memory;
use he_compare::{Grouping, write_groups, write_lines, write_table, write_worst};
use he_inputs::StreamFault;
use he_options::shown::shown;
use he_options::{By, Content, Task, Texts};
use he_stream::OutputStream;
use he_summary::Form;
use he_totals::{Kept, Races};
use std::alloc::Global;
use std::io::Write;

// Ends the output of the texts: with their summary or comparison, if that is asked for.
pub(crate) fn end_texts<R, O: OutputStream, F: Write>(
    session: &mut Session<'_, '_, R, O, F>,
    texts: &Texts<'_>,
    sums: Option<Races<Global>>,
) -> u8
    ensures { EndsTexts O.OutputStream texts.now sums session.old.output session.new.output result }
{
    match texts.task {
        Task::Compare { .. } | Task::Summarize { .. } | Task::Group { .. } => match sums {
            Some(races) => put_sums(session, texts, &races),
            None => FAULT,
        },
        Task::Write { content, .. } => end_written(session, texts, content, sums),
        Task::Check { .. } => DONE,
    }
}

// Ends the output of what is written of each race: a page with its totals.
fn end_written<R, O: OutputStream, F: Write>(
    session: &mut Session<'_, '_, R, O, F>,
    texts: &Texts<'_>,
    content: Content,
    sums: Option<Races<Global>>,
) -> u8
    ensures { (workers : ℕ) → EndsTask O.OutputStream texts.now (Write content workers) sums session.old.output
        session.new.output result }
{
    match content {
        Content::Section => match sums {
            Some(races) => put_tail(session, texts.explains, &races),
            None => FAULT,
        },
        Content::Transcript { .. }
        | Content::Order { .. }
        | Content::ExplanationJson
        | Content::Story
        | Content::Picture { .. }
        | Content::Image => DONE,
    }
}

// Writes the report on all races, and returns the exit status.
fn put_sums<R, O: OutputStream, F: Write>(
    session: &mut Session<'_, '_, R, O, F>,
    texts: &Texts<'_>,
    races: &Races<Global>,
) -> u8
    ensures { PutsSums O.OutputStream texts.now races.now session.old.output session.new.output result }
{
    let mut text = Vec::new(session.alloc);
    match tell(session.alloc, texts, races, &mut text) {
        Ok(()) => put_all(session, text.as_slice(), texts.explains),
        Err(_) => report(StreamFault::Memory, &mut session.faults),
    }
}

// Appends the report on all races.
fn tell(
    alloc: Global,
    texts: &Texts<'_>,
    races: &Races<Global>,
    text: &mut Vec<u8>,
) -> Result<(), Memory>
    ensures { (runs : List Run) → HasSummed races.now runs
        → OnOk result (IsTold texts.now.task texts.now runs text.old.items text.new.items) }
{
    match texts.task {
        Task::Summarize {
            is_json,
            is_metrics,
            slowest,
        } => {
            let form = form_of(is_json, is_metrics);
            tell_summary(form, slowest as usize, texts, races, text)
        }
        Task::Group { is_json, by } => {
            tell_groups(form_of(is_json, false), by, texts, races, text)
        }
        Task::Compare {
            is_json,
            tells_races,
        } => {
            let form = form_of(is_json, false);
            let files = names_in(alloc, form, texts)?;
            let names = (files.as_slice(), texts.labels.as_slice());
            append_lines(tells_races, form, races.kept(), names, text)?;
            write_table(alloc, form, races.kept(), texts.labels.as_slice(), text)
        }
        _ => Ok(()),
    }
}

// Appends the summary of the races, as text with the worst hour and the worst host.
fn tell_summary(
    form: Form,
    slowest: usize,
    texts: &Texts<'_>,
    races: &Races<Global>,
    text: &mut Vec<u8>,
) -> Result<(), Memory>
    ensures { (runs : List Run) → HasSummed races.now runs
        → OnOk result (IsSummary form texts.now runs slowest text.old.items text.new.items) }
{
    let names = names_in(*text.allocator(), form, texts)?;
    he_summary::write(races, form, slowest, names.as_slice(), text)?;
    tell_worst(form, texts, races, text)
}

fn tell_worst(
    form: Form,
    texts: &Texts<'_>,
    races: &Races<Global>,
    text: &mut Vec<u8>,
) -> Result<(), Memory>
    ensures { (runs : List Run) → HasSummed races.now runs
        → OnOk result (AreWorst form texts.now runs text.old.items text.new.items) }
{
    match form {
        Form::Text => tell_worst_groups(texts, races, text),
        Form::Json => Ok(()),
        Form::Metrics => Ok(()),
    }
}

fn tell_worst_groups(
    texts: &Texts<'_>,
    races: &Races<Global>,
    text: &mut Vec<u8>,
) -> Result<(), Memory>
    ensures { (runs : List Run) → HasSummed races.now runs
        → OnOk result (AreWorstGroups texts.now runs text.old.items text.new.items) }
{
    tell_worst_hour(texts, races, text)?;
    tell_worst_host(races, text)
}

fn tell_worst_hour(
    texts: &Texts<'_>,
    races: &Races<Global>,
    text: &mut Vec<u8>,
) -> Result<(), Memory>
    ensures { (runs : List Run) → HasSummed races.now runs
        → OnOk result (IsWorstHour texts.now runs text.old.items text.new.items) }
{
    let alloc = *text.allocator();
    let names = names_in(alloc, Form::Text, texts)?;
    let grouping = Grouping {
        by: he_compare::By::Hour,
        names: names.as_slice(),
    };
    write_worst(alloc, b"worst hour: ", grouping, races.kept(), text)
}

fn tell_worst_host(races: &Races<Global>, text: &mut Vec<u8>) -> Result<(), Memory>
    ensures { (runs : List Run) → HasSummed races.now runs
        → OnOk result (IsWorstHost runs text.old.items text.new.items) }
{
    let hosts = races.hosts()?;
    let kept = races.kept_by_host()?;
    let grouping = Grouping {
        by: he_compare::By::Host,
        names: hosts.as_slice(),
    };
    write_worst(
        *text.allocator(),
        b"worst host: ",
        grouping,
        kept.as_slice(),
        text,
    )
}

// Appends the table of the groups of races.
fn tell_groups(
    form: Form,
    by: By,
    texts: &Texts<'_>,
    races: &Races<Global>,
    text: &mut Vec<u8>,
) -> Result<(), Memory>
    ensures { (runs : List Run) → HasSummed races.now runs
        → OnOk result (AreGrouped form by texts.now runs text.old.items text.new.items) }
{
    match by {
        By::File => tell_by(form, he_compare::By::File, texts, races, text),
        By::Hour => tell_by(form, he_compare::By::Hour, texts, races, text),
        By::Family => tell_by(form, he_compare::By::Family, texts, races, text),
        By::Host => tell_hosts(form, races, text),
    }
}

// Appends the table of the races by their files, by the hours in the names of these, or by the families that won.
fn tell_by(
    form: Form,
    by: he_compare::By,
    texts: &Texts<'_>,
    races: &Races<Global>,
    text: &mut Vec<u8>,
) -> Result<(), Memory>
    ensures { (runs : List Run) → HasSummed races.now runs
        → OnOk result (AreDivided form by texts.now runs text.old.items text.new.items) }
{
    let alloc = *text.allocator();
    let names = names_in(alloc, form, texts)?;
    let grouping = Grouping {
        by,
        names: names.as_slice(),
    };
    write_groups(alloc, form, grouping, races.kept(), text)
}

// Appends the table of the races by their hosts.
fn tell_hosts(form: Form, races: &Races<Global>, text: &mut Vec<u8>) -> Result<(), Memory>
    ensures { (runs : List Run) → HasSummed races.now runs
        → OnOk result (AreByHost form runs text.old.items text.new.items) }
{
    let hosts = races.hosts()?;
    let kept = races.kept_by_host()?;
    let grouping = Grouping {
        by: he_compare::By::Host,
        names: hosts.as_slice(),
    };
    write_groups(*text.allocator(), form, grouping, kept.as_slice(), text)
}

// Appends a line for each of the races and rows, if the report has them.
fn append_lines(
    tells_races: bool,
    form: Form,
    kept: &[Kept],
    names: (&[String], &[String]),
    text: &mut Vec<u8>,
) -> Result<(), Memory>
    ensures { OnOk result (AreLinesOf tells_races form kept.now text.old.items text.new.items) }
{
    if tells_races {
        write_lines(*text.allocator(), form, kept, names, text)
    } else {
        Ok(())
    }
}

fn form_of(is_json: bool, is_metrics: bool) -> Form
    ensures { result ≡ form_of is_json is_metrics }
{
    if is_metrics {
        Form::Metrics
    } else if is_json {
        Form::Json
    } else {
        Form::Text
    }
}

// The names of the files in the form.
fn names_in(alloc: Global, form: Form, texts: &Texts<'_>) -> Result<Vec<String>, Memory>
    ensures { IfOk result (λ names. map string_bytes names.items ≡ names_in form texts.now) }
{
    let mut names = Vec::new(alloc);
    for name in &texts.files {
        names.push(name_in(alloc, form, name)?)?;
    }
    Ok(names)
}

// The name of a file: in JSON, which escapes it, as it is; otherwise as a terminal may show it.
fn name_in(alloc: Global, form: Form, name: &str) -> Result<String, Memory>
    ensures { IfOk result (λ made. string_bytes made ≡ name_in form name.now) }
{
    match form {
        Form::Json => Ok(String::from_str(alloc, name)?),
        Form::Text | Form::Metrics => shown(alloc, name),
    }
}
