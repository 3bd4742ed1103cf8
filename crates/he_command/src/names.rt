//! `he names`.
ghost use Rattle.std.specs.Prelude.{◌≡◌, ◌⊎◌, IfOk, OnOk};
ghost use Rattle.he_command.specs.Files.{WasWritten};
ghost use Rattle.he_command.specs.Names.{FindsNames, IsLookupText, RunsLookup, RunsNames, ShowsNames, WasKept, names_output};
ghost use Rattle.he_command.specs.Probes.{family_status};
ghost use Rattle.he_names.specs.Answers.{IsFound};

use crate::objects::show_text;
use crate::race_request::choice_of;
use crate::record::write_record;
use crate::system::{System, Variables};
use he_addr::{Family, Memory};
use he_failures::{HeardFaults, lookup_record};
use he_files::{NewName, create_beside};
use he_inputs::StreamFault;
use he_json::write_names_json;
use he_names::{Environment, Found};
use he_options::shown::shown;
use he_record::Moment;
use he_recording::moment_now;
use he_request::Names;
use he_resolver::{LookupReport, find_names};
use he_settings::{NamesFault, Wanted};
use he_stream::{OutputStream, ToWriter};
use he_tasks::reports::{report, report_of, report_path};
use he_tasks::{DONE, FAULT, Session};
use std::alloc::Global;
use std::io;
use std::io::{ErrorKind, Write};
use std::mem::drop;
use std::rt::Files;

// Finds the addresses of a host. The file of its record lines is created before.
pub(crate) fn run_names<R: System, O: OutputStream, F: Write>(
    session: &mut Session<'_, '_, R, O, F>,
    names: Names<'_>,
) -> u8
    ensures { RunsNames ⟦<ToWriter<R::File> as OutputStream>⟧ O.OutputStream names.entry session.old.output
        session.new.output result }
{
    let mut lookup = LookupReport::new(session.alloc);
    let status = run_kept(session, names, &mut lookup);
    drop(lookup);
    status
}

fn run_kept<R: System, O: OutputStream, F: Write>(
    session: &mut Session<'_, '_, R, O, F>,
    names: Names<'_>,
    lookup: &mut LookupReport,
) -> u8
    ensures { RunsLookup ⟦<ToWriter<R::File> as OutputStream>⟧ O.OutputStream names.entry lookup.new
        session.old.output session.new.output result }
{
    let Some(path) = names.record else {
        return look_up(session, names, lookup).status;
    };
    match create_beside(session.system, session.alloc, path) {
        Ok((file, name)) => {
            let at = moment_now(session.system);
            let end = look_up(session, names, lookup);
            let text = lines_of(session.alloc, at, lookup, end.is_found);
            match keep_lines(session.system, file, name, text) {
                Ok(()) => end.status,
                Err(error) => report_path(session.alloc, path, error, &mut session.faults),
            }
        }
        Err(error) => report_path(session.alloc, path, error, &mut session.faults),
    }
}

// The end of a search for names.
#[derive(Clone, Copy)]
pub(crate) struct NamesEnd {
    // The exit status.
    status: u8,
    // Whether an address was found, and written.
    is_found: bool,
}

// The record lines of a look-up that found an address; nothing for another one.
fn lines_of(
    alloc: Global,
    at: Option<Moment>,
    lookup: &LookupReport,
    is_found: bool,
) -> Result<Vec<u8>, Memory>
    ensures { IfOk result (λ text. IsLookupText lookup.now is_found text.items) }
{
    if !is_found {
        return Ok(Vec::new(alloc));
    }
    let heard = HeardFaults {
        v6: lookup.v6,
        v4: lookup.v4,
        events: &lookup.events,
    };
    lookup_record(alloc, at, heard)
}

// Writes the lines to their new file, and renames it. Without a line the old file stays.
fn keep_lines<R: Files>(
    rt: &R,
    file: R::File,
    name: NewName,
    text: Result<Vec<u8>, Memory>,
) -> io::Result<()>
    ensures { OnOk result (WasKept (WasWritten ⟦<ToWriter<R::File> as OutputStream>⟧) text) }
{
    match text {
        Ok(text) => write_record(rt, file, name, &text),
        Err(Memory) => {
            drop(file);
            name.discard(rt);
            Err(ErrorKind::OutOfMemory.into())
        }
    }
}

// Finds the addresses and writes them, and prints the events of the look-up if requested.
fn look_up<R: System, O: OutputStream, F: Write>(
    session: &mut Session<'_, '_, R, O, F>,
    names: Names<'_>,
    lookup: &mut LookupReport,
) -> NamesEnd
    ensures { FindsNames O.OutputStream names.entry session.old.output session.new.output result }
{
    let (rt, alloc) = (session.system, session.alloc);
    let variables = Variables::read(rt);
    let wanted = wanted_of(names, variables.environment());
    let found = find_names(rt, alloc, wanted, lookup);
    tell_events(names, lookup, &mut session.faults);
    match found {
        Ok(found) => show_names(session, names, &found, lookup),
        Err(fault) => NamesEnd {
            status: report_fault(alloc, fault, names.host, &mut session.faults),
            is_found: false,
        },
    }
}

fn wanted_of<'a>(names: Names<'a>, environment: Environment<'a>) -> Wanted<'a> {
    Wanted {
        host: names.host,
        only: None,
        choice: choice_of(names.resolver),
        environment,
    }
}

// Writes the addresses, and prints why the look-up of a family failed.
fn show_names<R, O: OutputStream, F: Write>(
    session: &mut Session<'_, '_, R, O, F>,
    names: Names<'_>,
    found: &Found,
    lookup: &LookupReport,
) -> NamesEnd
    ensures shows { ShowsNames O.OutputStream names.entry found.now session.old.output session.new.output result }
    ensures found { IsFound found.now }
{
    let alloc = session.alloc;
    let text = text_of(alloc, names, found);
    let shown = show_text(session, text);
    if shown != DONE {
        return NamesEnd {
            status: shown,
            is_found: false,
        };
    }
    NamesEnd {
        status: report_families(alloc, lookup, names.host, &mut session.faults),
        is_found: true,
    }
}

// The object of the addresses, or their lines.
fn text_of(alloc: Global, names: Names<'_>, found: &Found) -> Result<Vec<u8>, StreamFault>
    ensures text { IfOk result (λ text. text.items ≡ names_output names.entry.is_json names.entry.host.now found.now) }
    ensures found { IsFound found.now }
{
    let mut text = Vec::new(alloc);
    if names.is_json {
        let (aaaa, a) = (found.answer(Family::V6), found.answer(Family::V4));
        write_names_json(alloc, names.host, aaaa, a, &mut text)?;
        return Ok(text);
    }
    found.write(&mut text)?;
    Ok(text)
}

// Prints the events if requested: `he: 12 ms: AAAA answer: 2 addresses from 192.0.2.1`. A failed write is ignored.
fn tell_events<F: Write>(names: Names<'_>, lookup: &LookupReport, faults: &mut F) {
    if !names.tells_steps {
        return;
    }
    for event in &lookup.events {
        let (tick, event) = (event.tick, *event);
        let _ = writeln!(faults, "he: {tick} ms: {event}");
    }
}

// Prints why there is no address, with the host if the fault concerns it, and returns the exit status.
fn report_fault<F: Write>(alloc: Global, fault: NamesFault, host: &str, faults: &mut F) -> u8
    ensures { result ≡ FAULT }
{
    if fault.is_of_host() {
        report_of(alloc, fault, host, faults)
    } else {
        report(fault, faults)
    }
}

// Prints why the look-up of a family without addresses failed, and returns the exit status.
fn report_families<F: Write>(alloc: Global, lookup: &LookupReport, host: &str, faults: &mut F) -> u8
    ensures { (result ≡ DONE) ⊎ (result ≡ FAULT) }
{
    let six = report_family(alloc, "AAAA", lookup.v6, host, faults);
    let four = report_family(alloc, "A", lookup.v4, host, faults);
    if six == DONE { four } else { six }
}

// That the name has no address of the family is an answer and not a fault.
pub(crate) fn report_family<F: Write>(
    alloc: Global,
    kind: &str,
    fault: Option<NamesFault>,
    host: &str,
    faults: &mut F,
) -> u8
    ensures { result ≡ family_status fault }
{
    match fault {
        None | Some(NamesFault::NoAddress | NamesFault::NoSuchName | NamesFault::NotAsked) => DONE,
        Some(fault) => {
            let _ = match shown(alloc, host) {
                Ok(shown) => writeln!(faults, "he: {kind}: {fault}: {shown}"),
                Err(_) => writeln!(faults, "he: {kind}: {fault}"),
            };
            FAULT
        }
    }
}
