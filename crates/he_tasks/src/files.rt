//! The texts that a line names, one after the other.
ghost use Rattle.std.specs.Prelude.{◌≡◌};
ghost use Rattle.he_options.specs.Texts.{HasTaskWorkers};
ghost use Rattle.he_tasks.specs.Texts.{RunsAll, RunsFile, RunsFiles, RunsOne};

use crate::name::Name;
use crate::reports::{DONE, first_fault, report, report_in};
use crate::session::Session;
use crate::system::TaskSystem;
use crate::text::{Text, run_text};
use he_inputs::StreamFault;
use he_options::shown::shown;
use he_options::{STANDARD, Task, Texts};
use he_stream::{FromReader, InputStream, OutputStream};
use he_totals::Races;
use std::alloc::Global;
use std::fs;
use std::io::Write;
use std::mem::drop;

// Runs the task on the texts that the line names, or on the input's if it names none: on all of them, or up to the
// first that has a fault.
pub(crate) fn run_all<R: TaskSystem, I: InputStream, O: OutputStream, F: Write>(
    session: &mut Session<'_, '_, R, O, F>,
    texts: &Texts<'_>,
    input: &mut I,
    sums: &mut Option<Races<Global>>,
) -> u8
    requires { HasTaskWorkers texts.now.task }
    ensures { RunsAll texts.now.goes_on (RunsOne O.OutputStream texts.now)
        I.InputStream ⟦<FromReader<R::File> as InputStream>⟧ texts.now.files.items input.old input.new
        (session.old.output, sums.old) (session.new.output, sums.new) result }
{
    if texts.files.is_empty() {
        let text = Text { texts, name: None };
        return run_text(session, text, input, sums);
    }
    let status = run_files(session, texts, texts.files.as_slice(), input, sums);
    tell_unread(texts.task, session.unread, &mut session.faults);
    status
}

// Runs the task on the texts of these names. Halves them, so that the recursion stays shallow.
fn run_files<R: TaskSystem, I: InputStream, O: OutputStream, F: Write>(
    session: &mut Session<'_, '_, R, O, F>,
    texts: &Texts<'_>,
    names: &[&str],
    input: &mut I,
    sums: &mut Option<Races<Global>>,
) -> u8
    requires { HasTaskWorkers texts.now.task }
    ensures { RunsFiles texts.now.goes_on (RunsFile (RunsOne O.OutputStream texts.now)
        I.InputStream ⟦<FromReader<R::File> as InputStream>⟧) names.now input.old input.new
        (session.old.output, sums.old) (session.new.output, sums.new) result }
{
    if let [name] = names {
        let status = run_name(session, texts, name, input, sums);
        session.place = session.place.saturating_add(1);
        session.unread = session.unread.saturating_add(usize::from(status != DONE));
        return status;
    }
    let (front, back) = names.split_at(names.len() / 2);
    if back.is_empty() {
        return DONE;
    }
    let first = run_files(session, texts, front, input, sums);
    if first != DONE && !texts.goes_on {
        session.unread = session.unread.saturating_add(back.len());
        return first;
    }
    first_fault(first, run_files(session, texts, back, input, sums))
}

// Reports the number of files that are missing from a summary or a comparison, in whole or in part.
fn tell_unread<F: Write>(task: Task, unread: usize, faults: &mut F) {
    let _ = match (task, unread) {
        (Task::Compare { .. } | Task::Summarize { .. } | Task::Group { .. }, 1) => writeln!(
            faults,
            "he: 1 file not read to its end"
        ),
        (Task::Compare { .. } | Task::Summarize { .. } | Task::Group { .. }, 2..) => writeln!(
            faults,
            "he: {unread} files not read to their end"
        ),
        _ => Ok(()),
    };
}

// Runs the task on the text of a name.
fn run_name<R: TaskSystem, I: InputStream, O: OutputStream, F: Write>(
    session: &mut Session<'_, '_, R, O, F>,
    texts: &Texts<'_>,
    path: &str,
    input: &mut I,
    sums: &mut Option<Races<Global>>,
) -> u8
    requires { HasTaskWorkers texts.now.task }
    ensures { RunsFile (RunsOne O.OutputStream texts.now)
        I.InputStream ⟦<FromReader<R::File> as InputStream>⟧ path.entry input.old input.new
        (session.old.output, sums.old) (session.new.output, sums.new) result }
{
    if path == STANDARD {
        let name = Some(Name { path, shown: path });
        return run_text(session, Text { texts, name }, input, sums);
    }
    let Ok(shown) = shown(session.alloc, path) else {
        return report(StreamFault::Memory, &mut session.faults);
    };
    let shown = shown.as_str();
    let name = Some(Name { path, shown });
    match fs::open(session.system, path) {
        Ok(file) => {
            let mut file = FromReader::new(file);
            let status = run_text(session, Text { texts, name }, &mut file, sums);
            drop(file);
            status
        }
        Err(error) => report_in(name, error, &mut session.faults),
    }
}
