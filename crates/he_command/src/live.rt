//! `he live`.
ghost use Rattle.std.specs.Prelude.{◌≡◌};
ghost use Rattle.he_tasks.specs.declared.reports.TheConstants.{FAULT};
ghost use Rattle.he_command.specs.Live.{RunsFile, RunsLive, RunsRace, RunsRecorded, status_of_live};

use crate::port::number_of;
use crate::record::write_record;
use crate::system::System;
use he_files::create_beside;
use he_live::{FailedAttempt, LiveFault, LiveReport, first_local, live, write_failures};
use he_options::STANDARD;
use he_plan::Outcome3;
use he_request::Live;
use he_stream::{FromReader, InputStream, OutputStream};
use he_tasks::reports::{report, report_path};
use he_tasks::{DONE, NO_CONNECTION, Session};
use std::alloc::Global;
use std::fs;
use std::io::Write;
use std::mem::drop;

// Runs the requested race: that of its file, or of the input.
pub(crate) fn run_live<R: System, I: InputStream, O: OutputStream, F: Write>(
    session: &mut Session<'_, '_, R, O, F>,
    options: &Live<'_>,
    input: &mut I,
) -> u8
    ensures { RunsLive I.InputStream ⟦<FromReader<R::File> as InputStream>⟧ O.OutputStream options.now input.old
        input.new session.old.output session.new.output result }
{
    let port = match number_of(session, options.port) {
        Ok(port) => port,
        Err(status) => return status,
    };
    match options.file {
        Some(path) if path != STANDARD => run_file(session, options, port, path),
        _ => run_recorded(session, options, port, input),
    }
}

// Runs the race of the file at this path.
fn run_file<R: System, O: OutputStream, F: Write>(
    session: &mut Session<'_, '_, R, O, F>,
    options: &Live<'_>,
    port: u16,
    path: &str,
) -> u8
    ensures { RunsFile ⟦<FromReader<R::File> as InputStream>⟧ O.OutputStream options.now session.old.output
        session.new.output result }
{
    match fs::open(session.system, path) {
        Ok(file) => {
            let mut file = FromReader::new(file);
            let status = run_recorded(session, options, port, &mut file);
            drop(file);
            status
        }
        Err(error) => report_path(session.alloc, path, error, &mut session.faults),
    }
}

// Runs the race of an input. The file of its record is created before.
fn run_recorded<R: System, I: InputStream, O: OutputStream, F: Write>(
    session: &mut Session<'_, '_, R, O, F>,
    options: &Live<'_>,
    port: u16,
    input: &mut I,
) -> u8
    ensures { RunsRecorded I.InputStream O.OutputStream options.now input.old input.new session.old.output
        session.new.output result }
{
    let Some(path) = options.record else {
        let mut told = LiveReport::new(session.alloc);
        let status = run_race(session, options, port, input, &mut told);
        drop(told);
        return status;
    };
    match create_beside(session.system, session.alloc, path) {
        Ok((file, name)) => {
            let mut told = LiveReport::new(session.alloc);
            let status = run_race(session, options, port, input, &mut told);
            let kept = write_record(session.system, file, name, &told.record);
            drop(told);
            match kept {
                Ok(()) => status,
                Err(error) => report_path(session.alloc, path, error, &mut session.faults),
            }
        }
        Err(error) => report_path(session.alloc, path, error, &mut session.faults),
    }
}

// Runs the race of an input, and prints why attempts failed and how it ended.
fn run_race<R: System, I: InputStream, O: OutputStream, F: Write>(
    session: &mut Session<'_, '_, R, O, F>,
    options: &Live<'_>,
    port: u16,
    input: &mut I,
    told: &mut LiveReport,
) -> u8
    ensures { RunsRace I.InputStream O.OutputStream options.now input.old input.new session.old.output
        session.new.output result }
{
    let (rt, alloc, changes) = (session.system, session.alloc, options.changes);
    let end = live(rt, alloc, input, &mut session.output, port, changes, told);
    report_failures(alloc, &told.failed, options.verbose, &mut session.faults);
    report_race(alloc, end, options, &mut session.faults)
}

// Prints which attempts of a live race failed, and why: all, or the first that this machine itself could not begin.
fn report_failures<F: Write>(alloc: Global, failed: &[FailedAttempt], all: bool, faults: &mut F) {
    let mut text = Vec::new(alloc);
    let written = if all {
        write_failures(failed, &mut text)
    } else {
        write_failures(first_local(failed).as_slice(), &mut text)
    };
    if written.is_ok() {
        let _ = faults.write_all(text.as_slice());
    }
}

// Prints how a live race ended, and returns the exit status.
fn report_race<F: Write>(
    alloc: Global,
    end: Result<Outcome3, LiveFault>,
    options: &Live<'_>,
    faults: &mut F,
) -> u8
    ensures { result ≡ status_of_live options.now.must_connect end }
{
    match end {
        Ok(Outcome3::Exhausted(_) | Outcome3::Limit(_)) if options.must_connect => NO_CONNECTION,
        Ok(_) => DONE,
        Err(fault) => report_fault(alloc, fault, options.file, faults),
    }
}

// Writes the line of a fault, with the name of the faulty file.
fn report_fault<F: Write>(alloc: Global, fault: LiveFault, file: Option<&str>, faults: &mut F) -> u8
    ensures { result ≡ FAULT }
{
    match (fault, file) {
        (LiveFault::Text(_) | LiveFault::Read | LiveFault::OneRace, Some(path)) => {
            report_path(alloc, path, fault, faults)
        }
        _ => report(fault, faults),
    }
}
