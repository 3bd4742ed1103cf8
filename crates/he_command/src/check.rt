//! `he connect --check`: a plugin of a monitor, which writes one line.
ghost use Rattle.std.specs.Prelude.{◌≡◌, ◌⊎◌, IfOk, IfSome, IsTrue, OnOk};
ghost use Rattle.he_command.specs.Checks.{IsJudged, KeptIn, MakesCheck, ShowsFinding, WasRaced, is_check, judged, warn_of};
ghost use Rattle.he_command.specs.Connection.{HasPort};
ghost use Rattle.he_command.specs.Files.{WasRead, WasWritten};
ghost use Rattle.he_command.specs.Records.{IsPlaceOf};

use crate::connection::report_race;
use crate::objects::{course_of, race_in, record_in, untried_in};
use crate::port::number_of;
use crate::race_request::race_of;
use crate::record::{RecordPlace, discard_record, open_record, write_record};
use crate::system::System;
use he_addr::Memory;
use he_connect::{FinishedRace, race};
use he_course::Course;
use he_inputs::{RaceStream, StreamFault};
use he_names::Environment;
use he_record::Record;
use he_request::Connection;
use he_settings::NamesFault;
use he_story::write_story;
use he_stream::{FromReader, InputStream, OutputStream, ToWriter};
use he_tasks::reports::{report_of, report_path};
use he_tasks::session::put_all;
use he_tasks::{DONE, Session};
use std::alloc::Global;
use std::io;
use std::io::Write;
use std::str::from_utf8;

/// The exit statuses of a plugin (Monitoring Plugins Development Guidelines): connected.
pub const FINE: u8 = 0;

/// Connected, but more was lost than the limit of a warning.
pub const SLOW: u8 = 1;

/// No connection.
pub const BROKEN: u8 = 2;

/// A fault: nothing is known of the connection.
pub const UNKNOWN: u8 = 3;

/// The most milliseconds that a check may lose without a warning, if the line does not say.
pub const DEFAULT_WARN: u32 = 100;

const NO_MEMORY: &[u8] = b"CONNECT UNKNOWN - out of memory\n";

// The finding of a check: its status and its line, which is empty if an allocation failed.
#[derive(Drop)]
struct Finding {
    status: u8,
    line: Vec<u8>,
}

// The verdict on a race: the status, how the race ended in the words of a story, and its times as a monitor reads
// them.
#[derive(Drop)]
pub(crate) struct Verdict {
    pub(crate) status: u8,
    pub(crate) heading: String,
    times: String,
}

// Whether the words are those of a check.
pub(crate) fn is_check(words: &[&str]) -> bool
    ensures { result ≡ is_check words.now }
{
    match words {
        [_, command, options @ ..] => *command == "connect" && options.contains(&"--check"),
        _ => false,
    }
}

// Races for the connection, closes it, and writes the result as one line. Standard error has only the steps and the
// story, if requested.
pub(crate) fn run_check<R: System, O: OutputStream, F: Write>(
    session: &mut Session<'_, '_, R, O, F>,
    connection: &Connection<'_>,
    environment: Environment<'_>,
) -> u8
    ensures { MakesCheck ⟦<FromReader<R::File> as InputStream>⟧ ⟦<ToWriter<R::File> as OutputStream>⟧
        O.OutputStream environment.entry connection.now session.old.output session.new.output result }
{
    let alloc = session.alloc;
    let mut quiet = quiet_session(session.system, alloc);
    match raced(&mut quiet, connection, environment, &mut session.faults) {
        Some(run) => {
            let finding = race_finding(alloc, warn_of(connection), &run.text);
            show_finding(session, &finding)
        }
        None => {
            let finding = fault_finding(alloc, &quiet.faults);
            show_finding(session, &finding)
        }
    }
}

// A session that keeps its faults: the line of the check has the first.
fn quiet_session<'r, R>(rt: &'r R, alloc: Global) -> Session<'r, 'r, R, (), Vec<u8>> {
    Session {
        system: rt,
        alloc,
        output: (),
        faults: Vec::new(alloc),
        file: None,
        stream: RaceStream::new(alloc),
        place: 0,
        unread: 0,
    }
}

// The most milliseconds that the check may lose without a warning.
fn warn_of(connection: &Connection<'_>) -> u64
    ensures { result ≡ warn_of connection.now }
{
    match connection.warn {
        Some(warn) => u64::from(warn),
        None => u64::from(DEFAULT_WARN),
    }
}

// Runs the race of a check, and keeps its record. If that fails, the session's faults say why.
fn raced<R: System, F: Write>(
    quiet: &mut Session<'_, '_, R, (), Vec<u8>>,
    connection: &Connection<'_>,
    environment: Environment<'_>,
    faults: &mut F,
) -> Option<FinishedRace>
    ensures { IfSome result (λ run. WasRaced (WasRead ⟦<FromReader<R::File> as InputStream>⟧)
        (WasWritten ⟦<ToWriter<R::File> as OutputStream>⟧) environment.entry connection.now run.text.items) }
{
    match number_of(quiet, connection.port) {
        Ok(port) => race_at(quiet, connection, port, environment, faults),
        Err(_) => None,
    }
}

fn race_at<R: System, F: Write>(
    quiet: &mut Session<'_, '_, R, (), Vec<u8>>,
    connection: &Connection<'_>,
    port: u16,
    environment: Environment<'_>,
    faults: &mut F,
) -> Option<FinishedRace>
    requires { HasPort (WasRead ⟦<FromReader<R::File> as InputStream>⟧) connection.now.port port }
    ensures { IfSome result (λ run. WasRaced (WasRead ⟦<FromReader<R::File> as InputStream>⟧)
        (WasWritten ⟦<ToWriter<R::File> as OutputStream>⟧) environment.entry connection.now run.text.items) }
{
    let (rt, alloc) = (quiet.system, quiet.alloc);
    let request = race_of(connection, port, environment);
    let place = match open_record(rt, alloc, connection.record) {
        Ok(place) => place,
        Err(error) => {
            let path = connection.record.unwrap_or("");
            report_path(alloc, path, error, &mut quiet.faults);
            return None;
        }
    };
    match race(rt, alloc, &request, faults) {
        Ok(run) => {
            tell_race(connection, &run, faults);
            let is_kept = keep_race(quiet, connection, place, &run);
            if is_kept { Some(run) } else { None }
        }
        Err(fault) => {
            discard_record(rt, place);
            report_race(quiet, fault, &request);
            None
        }
    }
}

// Writes the story of the race and its report, if requested.
fn tell_race<F: Write>(connection: &Connection<'_>, run: &FinishedRace, faults: &mut F) {
    if connection.explains || connection.tells_steps {
        let _ = faults.write_all(run.story.as_slice());
        let _ = faults.write_all(run.told.as_slice());
    }
}

// Keeps the record of a race. Returns false if that fails, or if the host has no address by a fault of this machine or
// of the line.
fn keep_race<R: System>(
    quiet: &mut Session<'_, '_, R, (), Vec<u8>>,
    connection: &Connection<'_>,
    place: RecordPlace<R::File>,
    run: &FinishedRace,
) -> bool
    requires { IsPlaceOf connection.now.record place }
    ensures { IsTrue result → KeptIn (WasWritten ⟦<ToWriter<R::File> as OutputStream>⟧) connection.now.record
        run.now.text.items }
{
    let (alloc, faults) = (quiet.alloc, &mut quiet.faults);
    if let Err(error) = keep_file(quiet.system, connection.record, place, &run.text) {
        report_path(alloc, connection.record.unwrap_or(""), error, faults);
        return false;
    }
    match run.nameless {
        Some(fault) if !is_of_names(fault) => {
            report_of(alloc, fault, connection.host, faults);
            false
        }
        _ => true,
    }
}

// Whether the host has no address by its name servers: they say so, or don't answer.
fn is_of_names(fault: NamesFault) -> bool {
    fault.is_absence() || fault.is_of_server() || fault == NamesFault::System
}

// Writes the record to its file, if there is one.
fn keep_file<R: System>(
    rt: &R,
    path: Option<&str>,
    place: RecordPlace<R::File>,
    text: &[u8],
) -> io::Result<()>
    requires { IsPlaceOf path place }
    ensures { OnOk result (KeptIn (WasWritten ⟦<ToWriter<R::File> as OutputStream>⟧) path.entry text.now) }
{
    match place {
        RecordPlace::Nowhere => Ok(()),
        RecordPlace::Output => Ok(()),
        RecordPlace::File(file, name) => write_record(rt, file, name, text),
    }
}

// The finding of a check, by the record of its race.
fn race_finding(alloc: Global, warn: u64, text: &[u8]) -> Finding
    ensures { IsJudged warn text.now result.status ⊎ (result.status ≡ UNKNOWN) }
{
    let Ok(verdict) = judge(alloc, warn, text) else {
        return no_memory(alloc);
    };
    match line_of(alloc, &verdict) {
        Ok(line) => Finding {
            status: verdict.status,
            line,
        },
        Err(_) => no_memory(alloc),
    }
}

// The finding of a check without a race, by the first of these faults.
fn fault_finding(alloc: Global, faults: &[u8]) -> Finding
    ensures { result.status ≡ UNKNOWN }
{
    match fault_line(alloc, faults) {
        Ok(line) => Finding {
            status: UNKNOWN,
            line,
        },
        Err(_) => no_memory(alloc),
    }
}

// The line of these faults, which has the first of them. A monitor would take a bar in it for the end of the text.
fn fault_line(alloc: Global, faults: &[u8]) -> Result<Vec<u8>, Memory> {
    let fault = before(from_utf8(faults).unwrap_or(""), "\n");
    let fault = fault.strip_prefix("he: ").unwrap_or(fault);
    let fault = fault.replace(alloc, '|', "\\x7c")?;
    let fault = fault.as_str();
    let line = format!(in alloc; "CONNECT UNKNOWN - {fault}\n")?;
    Ok(line.into_bytes())
}

fn no_memory(alloc: Global) -> Finding
    ensures { result.status ≡ UNKNOWN }
{
    Finding {
        status: UNKNOWN,
        line: Vec::new(alloc),
    }
}

// The verdict on a race, by the text of its record.
pub(crate) fn judge(alloc: Global, warn: u64, text: &[u8]) -> Result<Verdict, StreamFault>
    ensures { IfOk result (λ verdict. IsJudged warn text.now verdict.status) }
{
    let race = race_in(alloc, text)?;
    let recorded = record_in(alloc, text)?;
    let untried = untried_in(alloc, &recorded)?;
    let course = course_of(alloc, &race, &untried)?;
    let status = status_of(warn, &course);
    let heading = heading_of(alloc, &course, &recorded).map_err(|_| StreamFault::Memory)?;
    let times = times_of(alloc, warn, &course).map_err(|_| StreamFault::Memory)?;
    Ok(Verdict {
        status,
        heading,
        times,
    })
}

// The status of a check, by the course of its race.
fn status_of(warn: u64, course: &Course<Global>) -> u8
    ensures { result ≡ judged warn course.now.ended.winner course.now.account.lost }
{
    match course.ended.winner {
        Some(_) => {
            if course.account.lost <= warn {
                FINE
            } else {
                SLOW
            }
        }
        None => BROKEN,
    }
}

// The words for a status.
fn word_of(status: u8) -> &'static str {
    match status {
        FINE => "OK",
        SLOW => "WARNING",
        BROKEN => "CRITICAL",
        _ => "UNKNOWN",
    }
}

// The line of a verdict: `CONNECT OK - ` and its heading; of a connection also, after a bar, the times that a monitor
// draws.
fn line_of(alloc: Global, verdict: &Verdict) -> Result<Vec<u8>, Memory> {
    let word = word_of(verdict.status);
    let heading = verdict.heading.as_str();
    let line = if verdict.status == BROKEN {
        format!(in alloc; "CONNECT {word} - {heading}\n")?
    } else {
        let times = verdict.times.as_str();
        format!(in alloc; "CONNECT {word} - {heading} | {times}\n")?
    };
    Ok(line.into_bytes())
}

// The host with its port, and how the race ended: `www.example.com:443 connected by IPv6 (2001:db8::1) in 12 ms`, in
// the words of the first line of its story: `www.example.com:443, 2026-11-28 10:54:05Z: ..`.
fn heading_of(
    alloc: Global,
    course: &Course<Global>,
    recorded: &Record<'_>,
) -> Result<String, Memory> {
    let mut story = Vec::new(alloc);
    write_story(alloc, None, course, recorded, &mut story)?;
    let heading = before(from_utf8(&story).unwrap_or(""), "\n");
    let Some((names, sentence)) = heading.split_once(": ") else {
        return Ok(String::from_str(alloc, heading)?);
    };
    let host = before(names, ", ");
    Ok(format!(in alloc; "{host} {sentence}")?)
}

// The text before this one in it, or all of it.
fn before<'t>(text: &'t str, end: &str) -> &'t str {
    match text.split_once(end) {
        Some((first, _)) => first,
        None => text,
    }
}

// The times of a race, in seconds: `label=value;warn`, as the guidelines have them.
fn times_of(alloc: Global, warn: u64, course: &Course<Global>) -> Result<String, Memory> {
    let times = course.times();
    let all = seconds(alloc, times.all)?;
    let names = seconds(alloc, times.names)?;
    let lost = seconds(alloc, times.lost)?;
    let warn = seconds(alloc, warn)?;
    Ok(format!(in alloc; "time={all}s names={names}s lost={lost}s;{warn}")?)
}

fn seconds(alloc: Global, millis: u64) -> Result<String, Memory> {
    let (whole, rest) = (millis / 1_000, millis % 1_000);
    Ok(format!(in alloc; "{whole}.{rest:03}")?)
}

// Writes the line of a finding, and returns its status; or UNKNOWN if the output does not take it.
fn show_finding<R, O: OutputStream, F: Write>(
    session: &mut Session<'_, '_, R, O, F>,
    finding: &Finding,
) -> u8
    ensures { ShowsFinding O.OutputStream finding.now.status session.old.output session.new.output result }
{
    let put = put_all(session, shown_line(finding), true);
    if put == DONE { finding.status } else { UNKNOWN }
}

fn shown_line(finding: &Finding) -> &[u8] {
    if finding.line.is_empty() {
        NO_MEMORY
    } else {
        &finding.line
    }
}
