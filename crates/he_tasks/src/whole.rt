//! The output for all the texts that a line names, to the output or to a file.
ghost use Rattle.std.specs.Prelude.{◌≡◌, IfOk, OnErr, OnOk, map, string_bytes, true};
ghost use Rattle.he_options.specs.Texts.{HasTaskWorkers, IsTexts};
ghost use Rattle.he_tasks.specs.Summaries.{keeps, rows_of};
ghost use Rattle.he_tasks.specs.Whole.{DoesFiles, DoesListed, DoesNamed, DoesTexts, FillsFile, HasHead, LacksStart, RunsList, WritesFile, WritesTexts, is_page};

use crate::directories::files_of;
use crate::files::run_all;
use crate::listed::{names_in, read_list};
use crate::name::Name;
use crate::page::put_head;
use crate::reports::{DONE, first_fault, report, report_path};
use crate::session::{Session, report_unwritten};
use crate::sums::end_texts;
use crate::system::TaskSystem;
use he_addr::Memory;
use he_files::create_beside;
use he_inputs::{RaceStream, StreamFault};
use he_options::shown::shown;
use he_options::{Content, Task, Texts};
use he_stream::{FromReader, InputStream, OutputStream, ToWriter};
use he_timeline::Changes;
use he_totals::Races;
use std::alloc::Global;
use std::io::Write;
use std::mem::drop;

/// Runs the task on the texts of the named files, or of those that a list names, or on the input's if none is named,
/// into the output or into the file of a page, and returns the exit status. A directory has the files in it and in its
/// directories whose names end in `.timeline`, in the order of their names.
pub fn run_texts<R: TaskSystem, I: InputStream, O: OutputStream, F: Write>(
    session: &mut Session<'_, '_, R, O, F>,
    texts: Texts<'_>,
    input: &mut I,
) -> u8
    requires { IsTexts texts }
    ensures { DoesNamed I.InputStream ⟦<FromReader<R::File> as InputStream>⟧ ⟦<ToWriter<R::File> as OutputStream>⟧
        O.OutputStream texts.entry input.old input.new session.old.output session.new.output result }
{
    match texts.list {
        Some(path) => run_listed(session, texts, path, input),
        None => run_named(session, texts, input),
    }
}

// Runs the task on the files that the list at this path names.
fn run_listed<R: TaskSystem, I: InputStream, O: OutputStream, F: Write>(
    session: &mut Session<'_, '_, R, O, F>,
    texts: Texts<'_>,
    path: &str,
    input: &mut I,
) -> u8
    requires { HasTaskWorkers texts.task }
    ensures { DoesListed I.InputStream ⟦<FromReader<R::File> as InputStream>⟧
        ⟦<ToWriter<R::File> as OutputStream>⟧ O.OutputStream texts.entry path.now input.old input.new
        session.old.output session.new.output result }
{
    let (rt, alloc) = (session.system, session.alloc);
    match read_list(rt, alloc, path, input) {
        Ok(list) => run_list(session, texts, path, &list, input),
        Err(error) => {
            drop(texts);
            report_path(alloc, path, error, &mut session.faults)
        }
    }
}

// Runs the task on the files that a list names, which is that at this path.
fn run_list<R: TaskSystem, I: InputStream, O: OutputStream, F: Write>(
    session: &mut Session<'_, '_, R, O, F>,
    texts: Texts<'_>,
    path: &str,
    list: &[u8],
    input: &mut I,
) -> u8
    requires { HasTaskWorkers texts.task }
    ensures { RunsList I.InputStream ⟦<FromReader<R::File> as InputStream>⟧ ⟦<ToWriter<R::File> as OutputStream>⟧
        O.OutputStream texts.entry list.now input.old input.new session.old.output session.new.output result }
{
    match names_in(session.alloc, list) {
        Ok(names) => {
            let texts = Texts {
                files: names,
                ..texts
            };
            run_named(session, texts, input)
        }
        Err(fault) => {
            drop(texts);
            report_path(session.alloc, path, fault.words(), &mut session.faults)
        }
    }
}

// Runs the task on the texts of these files, or on the input's if there are none.
fn run_named<R: TaskSystem, I: InputStream, O: OutputStream, F: Write>(
    session: &mut Session<'_, '_, R, O, F>,
    texts: Texts<'_>,
    input: &mut I,
) -> u8
    requires { HasTaskWorkers texts.task }
    ensures { DoesFiles I.InputStream ⟦<FromReader<R::File> as InputStream>⟧ ⟦<ToWriter<R::File> as OutputStream>⟧
        O.OutputStream texts.entry (map (λ name. name.now) texts.entry.files.items) input.old input.new
        session.old.output session.new.output result }
{
    let (rt, alloc) = (session.system, session.alloc);
    let Ok(files) = files_of(rt, alloc, texts.files.as_slice()) else {
        drop(texts);
        return report(StreamFault::Memory, &mut session.faults);
    };
    let Ok(names) = names_of(alloc, &files) else {
        drop(texts);
        return report(StreamFault::Memory, &mut session.faults);
    };
    let texts = Texts {
        files: names,
        ..texts
    };
    run_files(session, &texts, input)
}

// The names as text.
fn names_of<'f>(alloc: Global, files: &'f [String]) -> Result<Vec<&'f str>, Memory>
    ensures { IfOk result (λ names. map (λ name. name.now) names.items ≡ map string_bytes files.now) }
{
    let mut names = Vec::new(alloc);
    for file in files {
        names.push(file.as_str())?;
    }
    Ok(names)
}

// As `run_texts`, without directories.
fn run_files<R: TaskSystem, I: InputStream, O: OutputStream, F: Write>(
    session: &mut Session<'_, '_, R, O, F>,
    texts: &Texts<'_>,
    input: &mut I,
) -> u8
    requires { IsTexts texts.now }
    ensures { DoesTexts I.InputStream ⟦<FromReader<R::File> as InputStream>⟧ ⟦<ToWriter<R::File> as OutputStream>⟧
        O.OutputStream texts.now input.old input.new session.old.output session.new.output result }
{
    match texts.page {
        Some(path) => write_file(session, texts, path, input),
        None => write_texts(session, texts, input),
    }
}

// Runs the task into a new file, which replaces the one at this path once it is whole.
fn write_file<R: TaskSystem, I: InputStream, O: OutputStream, F: Write>(
    session: &mut Session<'_, '_, R, O, F>,
    texts: &Texts<'_>,
    path: &str,
    input: &mut I,
) -> u8
    requires { IsTexts texts.now }
    ensures output { session.new.output ≡ session.old.output }
    ensures file { WritesFile I.InputStream ⟦<FromReader<R::File> as InputStream>⟧
        ⟦<ToWriter<R::File> as OutputStream>⟧ texts.now input.old input.new result }
{
    let (rt, alloc) = (session.system, session.alloc);
    let (file, name) = match create_beside(rt, alloc, path) {
        Ok(made) => made,
        Err(error) => return report_path(alloc, path, error, &mut session.faults),
    };
    let status = fill_file(session, texts, path, file, input);
    if status != DONE {
        name.discard(rt);
        return status;
    }
    match name.keep(rt) {
        Ok(()) => DONE,
        Err(error) => report_path(alloc, path, error, &mut session.faults),
    }
}

// Runs the task into a new file.
fn fill_file<R: TaskSystem, I: InputStream, O: OutputStream, F: Write>(
    session: &mut Session<'_, '_, R, O, F>,
    texts: &Texts<'_>,
    path: &str,
    file: R::File,
    input: &mut I,
) -> u8
    requires { IsTexts texts.now }
    ensures output { session.new.output ≡ session.old.output }
    ensures file { FillsFile I.InputStream ⟦<FromReader<R::File> as InputStream>⟧
        ⟦<ToWriter<R::File> as OutputStream>⟧ texts.now input.old input.new result }
{
    let shown = shown(session.alloc, path);
    let mut page = Session {
        system: session.system,
        alloc: session.alloc,
        output: ToWriter::new(file),
        faults: &mut session.faults,
        file: Some(Name {
            path,
            shown: shown.as_ref().map_or("", |shown| shown.as_str()),
        }),
        stream: RaceStream::new(session.alloc),
        place: 0,
        unread: 0,
    };
    let status = write_texts(&mut page, texts, input);
    drop(page);
    status
}

// Runs the task into the output, after the head, which only a page has, and before the end, which a summary has.
fn write_texts<R: TaskSystem, I: InputStream, O: OutputStream, F: Write>(
    session: &mut Session<'_, '_, R, O, F>,
    texts: &Texts<'_>,
    input: &mut I,
) -> u8
    requires { IsTexts texts.now }
    ensures { WritesTexts I.InputStream ⟦<FromReader<R::File> as InputStream>⟧ O.OutputStream texts.now
        input.old input.new session.old.output session.new.output result }
{
    let Ok(rows) = rows_of(session.alloc, texts) else {
        return report(StreamFault::Memory, &mut session.faults);
    };
    let mut sums = Some(Races::new(session.alloc, rows));
    match begin(session.alloc, texts.task, &mut session.output) {
        Ok(()) => {
            let own = run_all(session, texts, input, &mut sums);
            let end = end_texts(session, texts, sums);
            first_fault(own, end)
        }
        Err(StreamFault::Write) => report_unwritten(session, texts.explains),
        Err(fault) => report(fault, &mut session.faults),
    }
}

// The settings of each race, row by row: those of a comparison, or those of a summary.
fn rows_of(alloc: Global, texts: &Texts<'_>) -> Result<Vec<Changes>, Memory>
    ensures ok { IfOk result (λ rows. rows.items ≡ rows_of texts.now) }
    ensures err { OnErr result (keeps texts.now.task ≡ true) }
{
    let mut rows = Vec::new(alloc);
    match texts.task {
        Task::Compare { .. } => rows.extend_from_slice(texts.rows.as_slice())?,
        Task::Summarize { .. }
        | Task::Group { .. }
        | Task::Write {
            content: Content::Section,
            ..
        } => rows.push(texts.changes)?,
        _ => {}
    }
    Ok(rows)
}

// Puts the head of a page, if the task is one.
fn begin<O: OutputStream>(alloc: Global, task: Task, output: &mut O) -> Result<(), StreamFault>
    ensures ok { OnOk result (HasHead O.OutputStream (is_page task) output.old output.new) }
    ensures err { OnErr result (LacksStart O.OutputStream task output.old output.new) }
{
    match task {
        Task::Write {
            content: Content::Section,
            ..
        } => put_head(alloc, output),
        _ => Ok(()),
    }
}
