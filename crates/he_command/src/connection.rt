//! `he connect`: connects, records and relays; or only checks.
ghost use Rattle.std.specs.Prelude.{◌≡◌, is_some};
ghost use Rattle.he_command.specs.Checks.{DoesConnection};
ghost use Rattle.he_command.specs.Connection.{EndsRace, EndsShown, EndsWon, MakesConnection, RelaysTo};
ghost use Rattle.he_command.specs.Objects.{ShowsRace};
ghost use Rattle.he_tasks.specs.Status.{status_of};
ghost use Rattle.he_tasks.specs.declared.reports.TheConstants.{FAULT};

use crate::check::{judge, run_check};
use crate::objects::{race_object, show_text};
use crate::port::number_of;
use crate::race_request::race_of;
use crate::record::{discard_record, keep_record, open_record};
use crate::system::System;
use he_connect::{FinishedRace, race};
use he_names::Environment;
use he_relay::{DEFAULT_WAIT, RelayFault, over_socket, relay_standard};
use he_request::Connection;
use he_setup::{ConnectFault, ConnectRequest, Lines};
use he_stream::{FromReader, InputStream, OutputStream, ToWriter};
use he_tasks::reports::{report, report_of, report_path};
use he_tasks::session::report_unwritten;
use he_tasks::{DONE, FAULT, NO_CONNECTION, Session};
use std::alloc::Global;
use std::io::Write;
use std::net::TcpStream;

// Checks the requested connection, or makes it.
pub(crate) fn run_connection<R: System, I: InputStream, O: OutputStream + Send, F: Write>(
    session: &mut Session<'_, '_, R, O, F>,
    connection: &Connection<'_>,
    environment: Environment<'_>,
    input: &mut I,
) -> u8
    ensures { DoesConnection ⟦<FromReader<R::File> as InputStream>⟧ ⟦<ToWriter<R::File> as OutputStream>⟧
        O.OutputStream environment.entry connection.now connection.now.checks session.old.output session.new.output
        result }
{
    if connection.checks {
        run_check(session, connection, environment)
    } else {
        run_connect(session, connection, environment, input)
    }
}

// Races for the requested connection, keeps the record, and relays to the end.
fn run_connect<R: System, I: InputStream, O: OutputStream + Send, F: Write>(
    session: &mut Session<'_, '_, R, O, F>,
    connection: &Connection<'_>,
    environment: Environment<'_>,
    input: &mut I,
) -> u8
    ensures { MakesConnection ⟦<FromReader<R::File> as InputStream>⟧ ⟦<ToWriter<R::File> as OutputStream>⟧
        O.OutputStream environment.entry connection.now session.old.output session.new.output result }
{
    let (rt, alloc) = (session.system, session.alloc);
    let port = match number_of(session, connection.port) {
        Ok(port) => port,
        Err(status) => return status,
    };
    let request = race_of(connection, port, environment);
    let place = match open_record(rt, alloc, connection.record) {
        Ok(place) => place,
        Err(error) => {
            let path = connection.record.unwrap_or("");
            return report_path(alloc, path, error, &mut session.faults);
        }
    };
    match race(rt, alloc, &request, &mut session.faults) {
        Ok(run) => {
            tell_race(alloc, connection, &run, &mut session.faults);
            let kept = keep_record(session, connection.record, place, &run.text);
            end_race(session, connection, kept, run, input)
        }
        Err(fault) => {
            discard_record(rt, place);
            report_race(session, fault, &request)
        }
    }
}

// Prints the story of the race, if requested, and its report. With the steps of a race that is only tried, prints how
// it connected. A failed write is ignored.
fn tell_race<F: Write>(
    alloc: Global,
    connection: &Connection<'_>,
    run: &FinishedRace,
    faults: &mut F,
) {
    let _ = faults.write_all(run.story.as_slice());
    let _ = faults.write_all(run.told.as_slice());
    let is_asked = connection.tells_steps && connection.only_tries && !connection.explains;
    if is_asked
        && run.connection.is_some()
        && let Ok(verdict) = judge(alloc, 0, &run.text)
    {
        let heading = verdict.heading.as_str();
        let _ = writeln!(faults, "he: {heading}");
    }
}

// Ends a race, whose record was kept or not: shows its object if requested.
fn end_race<R: System, I: InputStream, O: OutputStream + Send, F: Write>(
    session: &mut Session<'_, '_, R, O, F>,
    connection: &Connection<'_>,
    kept: u8,
    run: FinishedRace,
    input: &mut I,
) -> u8
    ensures { EndsRace O.OutputStream connection.now run.text.items kept (is_some run.connection)
        session.old.output session.new.output result }
{
    if kept != DONE {
        return FAULT;
    }
    if connection.is_json {
        end_shown(session, connection, run, input)
    } else {
        end_won(session, connection, run, input)
    }
}

// Shows the object of the race, and goes on only if that succeeds.
fn end_shown<R: System, I: InputStream, O: OutputStream + Send, F: Write>(
    session: &mut Session<'_, '_, R, O, F>,
    connection: &Connection<'_>,
    run: FinishedRace,
    input: &mut I,
) -> u8
    ensures { EndsShown O.OutputStream connection.now.only_tries run.text.items (is_some run.connection)
        session.old.output session.new.output result }
{
    if show_race(session, &run.text) != DONE {
        return FAULT;
    }
    end_won(session, connection, run, input)
}

// Shows the object of a race, from the text of its record, and returns the exit status.
fn show_race<R, O: OutputStream, F: Write>(
    session: &mut Session<'_, '_, R, O, F>,
    text: &[u8],
) -> u8
    ensures { ShowsRace O.OutputStream text.now session.old.output session.new.output result }
{
    show_text(session, race_object(session.alloc, text))
}

// Relays the connection, if there is one, or closes it with `only_tries`.
fn end_won<R: System, I: InputStream, O: OutputStream + Send, F: Write>(
    session: &mut Session<'_, '_, R, O, F>,
    connection: &Connection<'_>,
    run: FinishedRace,
    input: &mut I,
) -> u8
    ensures { EndsWon O.OutputStream connection.now.only_tries (is_some run.connection) session.old.output
        session.new.output result }
{
    match run.connection {
        Some(_) if connection.only_tries => DONE,
        Some(dialed) => {
            let stream = dialed.into_stream();
            relay(
                session,
                connection.wait.unwrap_or(DEFAULT_WAIT),
                &stream,
                input,
            )
        }
        None => match run.nameless {
            Some(fault) => report_of(session.alloc, fault, connection.host, &mut session.faults),
            None => NO_CONNECTION,
        },
    }
}

// Relays standard input and output over the connection, and returns the exit status.
fn relay<R: System, I: InputStream, O: OutputStream + Send, F: Write>(
    session: &mut Session<'_, '_, R, O, F>,
    wait: u32,
    stream: &TcpStream,
    input: &mut I,
) -> u8
    ensures { RelaysTo O.OutputStream session.old.output session.new.output result }
{
    let (rt, alloc) = (session.system, session.alloc);
    let mut connection = over_socket(stream, wait);
    let end = relay_standard(rt, alloc, input, &mut session.output, &mut connection);
    report_relay(session, end)
}

// Prints how a relay ended, and returns the exit status.
fn report_relay<R, O: OutputStream, F: Write>(
    session: &mut Session<'_, '_, R, O, F>,
    end: Result<(), RelayFault>,
) -> u8
    ensures status { result ≡ status_of end }
    ensures output { session.new.output ≡ session.old.output }
{
    match end {
        Ok(()) => DONE,
        Err(RelayFault::Output) => report_unwritten(session, true),
        Err(fault) => report(fault, &mut session.faults),
    }
}

// Prints why no race was run, and returns the exit status.
pub(crate) fn report_race<R, O, F: Write>(
    session: &mut Session<'_, '_, R, O, F>,
    fault: ConnectFault,
    request: &ConnectRequest<'_>,
) -> u8
    ensures status { result ≡ FAULT }
    ensures output { session.new.output ≡ session.old.output }
{
    let alloc = session.alloc;
    let faults = &mut session.faults;
    match (fault, request.lines) {
        (
            ConnectFault::File(_) | ConnectFault::Lines(_) | ConnectFault::OtherLines,
            Lines::File(path),
        ) => report_of(alloc, fault, path, faults),
        (fault, _) if fault.is_of_host() => report_of(alloc, fault, request.host, faults),
        (fault, _) => report(fault, faults),
    }
}
