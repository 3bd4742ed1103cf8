//! The output for one text of races, and the reports on it.
ghost use Rattle.std.specs.Prelude.{◌≡◌, IfOk, OnErr, OnOk, true};
ghost use Rattle.he_draw.specs.Page.{name_text};
ghost use Rattle.he_json.specs.Documents.{name_of};
ghost use Rattle.he_tasks.specs.Status.{status_of};
ghost use Rattle.he_tasks.specs.Summaries.{AddsSums};
ghost use Rattle.he_options.specs.Texts.{HasTaskWorkers};
ghost use Rattle.he_tasks.specs.Texts.{HasHeading, LacksHeading, RunsHeaded, RunsOne, RunsTask, is_section};
ghost use Rattle.he_tasks.specs.Texts.{IsGap, file_of, has_headings, heading, named_for, naming, shown_of};

use crate::content::content_of;
use crate::name::Name;
use crate::page::put_sections;
use crate::reports::{DONE, FAULT, explain_in, report_in, tell_lines, tell_reason};
use crate::session::{Session, put_text, report_unwritten};
use crate::system::TaskSystem;
use he_addr::Memory;
use he_check::{check, check_json};
use he_draw::write_name;
use he_inputs::{RaceStream, StreamFault};
use he_options::{Content, Task, Texts};
use he_stream::{InputStream, OutputStream};
use he_streaming::{TextRequest, replay};
use he_totals::Races;
use std::alloc::Global;
use std::io::Write;
use std::mem::drop;

// One of the texts, and its name if it has one.
#[derive(Clone, Copy)]
pub(crate) struct Text<'t> {
    pub(crate) texts: &'t Texts<'t>,
    pub(crate) name: Option<Name<'t>>,
}

// Runs the task on one text, and reports how that ended.
pub(crate) fn run_text<R: TaskSystem, I: InputStream, O: OutputStream, F: Write>(
    session: &mut Session<'_, '_, R, O, F>,
    text: Text<'_>,
    input: &mut I,
    sums: &mut Option<Races<Global>>,
) -> u8
    requires { HasTaskWorkers text.texts.now.task }
    ensures { RunsOne O.OutputStream text.entry.texts.now (naming text.entry.name) I I.InputStream
        input.old input.new (session.old.output, sums.old) (session.new.output, sums.new) result }
{
    let mut told = Vec::new(session.alloc);
    let end = run_headed(session, text, input, sums, &mut told);
    let status = tell_end(session, text, end, input, &told);
    drop(told);
    status
}

// Runs the task on one text, after its heading if it has one. Leaves the report of a check in `told`.
fn run_headed<R: TaskSystem, I: InputStream, O: OutputStream, F>(
    session: &mut Session<'_, '_, R, O, F>,
    text: Text<'_>,
    input: &mut I,
    sums: &mut Option<Races<Global>>,
    told: &mut Vec<u8>,
) -> Result<(), StreamFault>
    requires { HasTaskWorkers text.texts.now.task }
    ensures { RunsHeaded I.InputStream O.OutputStream text.entry.texts.now.task text.entry.texts.now.changes
        (has_headings text.entry.texts.now.files.items) (naming text.entry.name) input.old input.new
        (session.old.output, sums.old) (session.new.output, sums.new) result }
{
    if has_headings(text.texts) {
        put_heading(session.alloc, session.place, text, &mut session.output)?;
    }
    run_task(session, text, input, sums, told)
}

// Whether there are several texts, which then have headings.
fn has_headings(texts: &Texts<'_>) -> bool
    ensures { result ≡ has_headings texts.now.files.items }
{
    texts.files.len() > 1
}

// Puts the heading of the text of this place, if the task has headings.
fn put_heading<O: OutputStream>(
    alloc: Global,
    place: usize,
    text: Text<'_>,
    output: &mut O,
) -> Result<(), StreamFault>
    ensures ok { OnOk result (HasHeading O.OutputStream text.entry.texts.now.task
        (heading text.entry.texts.now.task true (naming text.entry.name)) output.old output.new) }
    ensures err { OnErr result (LacksHeading O.OutputStream text.entry.texts.now.task
        (heading text.entry.texts.now.task true (naming text.entry.name)) output.old output.new) }
{
    let Some(name) = text.name else {
        return Ok(());
    };
    match text.texts.task {
        Task::Write {
            content: Content::Story,
            ..
        } => put_text(gap(place), output),
        Task::Write {
            content: Content::Section,
            ..
        } => put_text(&name_in_page(alloc, name.shown)?, output),
        _ => Ok(()),
    }
}

// The line between the stories of this text and those of the one before it.
fn gap(place: usize) -> &'static [u8]
    ensures { IsGap result.now }
{
    if place == 0 { b"" } else { b"\n" }
}

fn name_in_page(alloc: Global, name: &str) -> Result<Vec<u8>, Memory>
    ensures { IfOk result (λ line. line.items ≡ name_text name.now) }
{
    let mut line = Vec::new(alloc);
    write_name(name, &mut line)?;
    Ok(line)
}

// Runs the task on one text. Leaves the report of a check in `told`.
fn run_task<R: TaskSystem, I: InputStream, O: OutputStream, F>(
    session: &mut Session<'_, '_, R, O, F>,
    text: Text<'_>,
    input: &mut I,
    sums: &mut Option<Races<Global>>,
    told: &mut Vec<u8>,
) -> Result<(), StreamFault>
    requires { HasTaskWorkers text.texts.now.task }
    ensures { RunsTask I.InputStream O.OutputStream text.entry.texts.now.task text.entry.texts.now.changes
        (naming text.entry.name) input.old input.new (session.old.output, sums.old)
        (session.new.output, sums.new) result }
{
    let alloc = session.alloc;
    match text.texts.task {
        Task::Write { content, .. } if is_section(content) => {
            let name = named_for(content, text.name);
            put_sections(session, text.texts.changes, name, input, sums)
        }
        Task::Write { content, workers } => {
            let asked = TextRequest {
                content: content_of(session.place, content),
                changes: text.texts.changes,
                file: named_for(content, text.name),
            };
            let output = &mut session.output;
            replay(session.system, alloc, &asked, workers, input, output)
        }
        Task::Check {
            is_all,
            is_json: false,
        } => check(alloc, is_all, input, &mut session.output, told),
        Task::Check {
            is_all,
            is_json: true,
        } => {
            let (file, output) = (file_of(text.name), &mut session.output);
            check_json(alloc, is_all, file, input, output)
        }
        Task::Compare { .. } | Task::Summarize { .. } | Task::Group { .. } => {
            add_text(session.place, &mut session.stream, input, sums)
        }
    }
}

fn is_section(content: Content) -> bool
    ensures { result ≡ is_section content }
{
    matches!(content, Content::Section)
}

// The name of the file for content of this kind: as it is shown in stories, pictures and pages, as it is in JSON.
fn named_for<'n>(content: Content, name: Option<Name<'n>>) -> Option<&'n str>
    ensures { name_of result ≡ named_for content (naming name.entry) }
{
    match content {
        Content::Story | Content::Picture { .. } | Content::Section => shown_of(name),
        _ => file_of(name),
    }
}

fn shown_of<'n>(name: Option<Name<'n>>) -> Option<&'n str>
    ensures { name_of result ≡ shown_of (naming name.entry) }
{
    match name {
        Some(name) => Some(name.shown),
        None => None,
    }
}

// The name of the file, for JSON.
fn file_of<'n>(name: Option<Name<'n>>) -> Option<&'n str>
    ensures { name_of result ≡ file_of (naming name.entry) }
{
    match name {
        Some(name) => Some(name.path),
        None => None,
    }
}

// Adds the races of a text at this place to the sums. If there is no memory for a race, the sums are dropped.
fn add_text<I: InputStream>(
    place: usize,
    stream: &mut RaceStream<Global>,
    input: &mut I,
    sums: &mut Option<Races<Global>>,
) -> Result<(), StreamFault>
    ensures { AddsSums I.InputStream input.old input.new sums.old sums.new result }
{
    let Some(mut races) = sums.take() else {
        return Err(StreamFault::Memory);
    };
    let end = races.add(place, stream, input);
    match end {
        Err(StreamFault::Memory) => drop(races),
        _ => *sums = Some(races),
    }
    end
}

// Reports the end and the findings of a text, and returns the exit status.
fn tell_end<R: TaskSystem, I: InputStream, O: OutputStream, F: Write>(
    session: &mut Session<'_, '_, R, O, F>,
    text: Text<'_>,
    end: Result<(), StreamFault>,
    input: &I,
    told: &[u8],
) -> u8
    ensures status { result ≡ status_of end }
    ensures output { session.new.output ≡ session.old.output }
{
    let texts = text.texts;
    let status = match end {
        Ok(()) => DONE,
        // The object has this fault.
        Err(StreamFault::Text(_)) if has_object(texts.task) => FAULT,
        // The lines of the check have this fault.
        Err(StreamFault::Text(_) | StreamFault::Read) if tells_each(texts.task) => FAULT,
        Err(StreamFault::Write) => report_unwritten(session, texts.explains),
        Err(fault) => report_in(text.name, fault, &mut session.faults),
    };
    let faults = &mut session.faults;
    tell_lines(text.name, told, faults);
    match end {
        Err(StreamFault::Text(_)) if has_object(texts.task) => {}
        Err(StreamFault::Text(fault)) if texts.explains && told.is_empty() => {
            explain_in(session.system, session.alloc, text.name, fault, faults)
        }
        Err(StreamFault::Read) if texts.explains => tell_reason(input.failure(), faults),
        _ => {}
    }
    status
}

// Whether the findings of a text are written as an object.
fn has_object(task: Task) -> bool {
    matches!(task, Task::Check { is_json: true, .. })
}

// Whether lines report each fault of a text.
fn tells_each(task: Task) -> bool {
    task.tells_faults() && !has_object(task)
}
