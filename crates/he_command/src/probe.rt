//! `he probe`.
ghost use Rattle.std.specs.Prelude.{◌≡◌, IfErr, IfOk, List, ℕ};
ghost use Rattle.he_command.specs.Probes.{BreaksOff, Closes, IsRoundText, IsShown, RunsProbe, RunsRounds};
ghost use Rattle.he_command.specs.Probes.{has_closing, heading_of, most_rounds, request_of, status_of_round};
ghost use Rattle.he_command.specs.Probes.{status_of_rows, time_of, worse};
ghost use Rattle.he_probing.specs.Rounds.{IsInRange};
ghost use Rattle.he_request.specs.Probes.{IsProbe};
ghost use Rattle.he_tasks.specs.Streams.{Shows, TookAll, TookPart};
ghost use Rattle.he_tasks.specs.declared.reports.TheConstants.{FAULT};

use crate::connection::report_race;
use crate::names::report_family;
use crate::port::number_of;
use crate::probe_record::{RoundsFile, add_round, close_rounds, open_rounds};
use crate::race_request::{choice_of, families_of, lines_of};
use crate::system::System;
use he_addr::{Family, Memory};
use he_inputs::StreamFault;
use he_names::Environment;
use he_options::shown::shown;
use he_probing::{
    AddressRow, Round, RoundRequest, count_connected, heading_of, metrics, object, run_round,
    table, totals_table, verdict_line,
};
use he_record::Moment;
use he_request::{Probe, ProbeForm};
use he_setup::ConnectRequest;
use he_stream::{FromReader, InputStream, OutputStream};
use he_tasks::reports::{report, report_of, report_path};
use he_tasks::session::put_all;
use he_tasks::{DONE, FAULT, NO_CONNECTION, Session};
use std::alloc::Global;
use std::io::Write;
use std::thread::sleep;
use std::time::Duration;

/// The exit status of probes if some addresses connect and some don't.
pub const SOME_FAIL: u8 = 4;

// More rounds than can be run.
const NO_END: u64 = u64::MAX;

// Probes the host in rounds.
pub(crate) fn run_probe<R: System, O: OutputStream, F: Write>(
    session: &mut Session<'_, '_, R, O, F>,
    probe: &Probe<'_>,
    environment: Environment<'_>,
) -> u8
    requires { IsProbe probe.now }
    ensures { RunsProbe ⟦<FromReader<R::File> as InputStream>⟧ O.OutputStream environment.entry probe.now
        session.old.output session.new.output result }
{
    let port = match number_of(session, probe.port) {
        Ok(port) => port,
        Err(status) => return status,
    };
    let request = request_of(probe, port, environment);
    let (rt, alloc) = (session.system, session.alloc);
    let mut records = match open_rounds(rt, alloc, probe.record) {
        Ok(records) => records,
        Err(error) => {
            let path = probe.record.unwrap_or("");
            return report_path(alloc, path, error, &mut session.faults);
        }
    };
    let status = run_rounds(session, probe, &request, &mut records);
    close_rounds(rt, records);
    status
}

// A round of the request, at the port of this number.
fn request_of<'a, 'c>(
    probe: &Probe<'c>,
    port: u16,
    environment: Environment<'a>,
) -> RoundRequest<'a>
where
    'c: 'a,
    requires { IsProbe probe.now }
    ensures is { result ≡ request_of probe.now port environment.entry }
    ensures range { IsInRange result }
{
    RoundRequest {
        connect: ConnectRequest {
            host: probe.host,
            port,
            families: families_of(probe.only),
            settings: probe.settings,
            lines: lines_of(probe.lines),
            resolver: choice_of(probe.resolver),
            environment,
            explains: false,
            tells_steps: probe.tells_steps,
        },
        pace: probe.pace,
        timeout: probe.timeout,
    }
}

// Runs the rounds, and returns the worst of their statuses. A fault other than that of a look-up ends them.
fn run_rounds<R: System, O: OutputStream, F: Write>(
    session: &mut Session<'_, '_, R, O, F>,
    probe: &Probe<'_>,
    request: &RoundRequest<'_>,
    records: &mut Option<RoundsFile<R::File>>,
) -> u8
    requires { IsInRange request.now }
    ensures { RunsRounds O.OutputStream probe.now request.now session.old.output session.new.output result }
{
    let mut rows = Vec::new(session.alloc);
    let mut status = DONE;
    for done in 0..most_rounds(probe.rounds) {
        if done > 0 {
            sleep(session.system, Duration::from_millis(probe.interval));
        }
        let round = match next_round(session, probe, request, records, done > 0) {
            Ok(round) => round,
            Err(fault) => return fault,
        };
        status = worse(status, end_round(session, request, &round));
        if has_closing(probe.form, probe.rounds) && rows.extend_from_slice(&round.rows).is_err() {
            return report(StreamFault::Memory, &mut session.faults);
        }
    }
    close(session, probe, &rows, status)
}

// The number of rounds.
fn most_rounds(rounds: Option<u32>) -> u64
    ensures { result ≡ most_rounds rounds }
{
    match rounds {
        Some(rounds) => u64::from(rounds),
        None => NO_END,
    }
}

// Runs a round, and writes it to the output and its record to its file; or returns the status of a fault.
fn next_round<R: System, O: OutputStream, F: Write>(
    session: &mut Session<'_, '_, R, O, F>,
    probe: &Probe<'_>,
    request: &RoundRequest<'_>,
    records: &mut Option<RoundsFile<R::File>>,
    is_later: bool,
) -> Result<Round, u8>
    requires { IsInRange request.now }
    ensures ok { IfOk result (λ round. (text : List ℕ) × IsShown probe.now request.now round text
        × TookAll O.OutputStream session.old.output session.new.output text) }
    ensures err { IfErr result (BreaksOff O.OutputStream probe.now request.now session.old.output
        session.new.output) }
{
    let (rt, alloc) = (session.system, session.alloc);
    let round = match run_round(rt, alloc, request, &mut session.faults) {
        Ok(round) => round,
        Err(fault) => return Err(report_race(session, fault, &request.connect)),
    };
    if let Err(error) = add_round(rt, records, &round.text) {
        let path = probe.record.unwrap_or("");
        return Err(report_path(alloc, path, error, &mut session.faults));
    }
    match text_of(alloc, probe, request, &round, is_later) {
        Ok(text) => put_round(session, &text, round),
        Err(Memory) => Err(report(StreamFault::Memory, &mut session.faults)),
    }
}

// Writes the text of the round, and returns it; or the status of a fault.
fn put_round<R, O: OutputStream, F: Write>(
    session: &mut Session<'_, '_, R, O, F>,
    text: &[u8],
    round: Round,
) -> Result<Round, u8>
    ensures ok { IfOk result (λ given. (given ≡ round)
        × TookAll O.OutputStream session.old.output session.new.output text.now) }
    ensures err { IfErr result (λ status. (status ≡ FAULT)
        × TookPart O.OutputStream session.old.output session.new.output text.now) }
{
    let status = put_all(session, text, false);
    if status == DONE {
        Ok(round)
    } else {
        Err(status)
    }
}

// The text of a round in the form of the request. A table that comes after another has an empty line before it.
fn text_of(
    alloc: Global,
    probe: &Probe<'_>,
    request: &RoundRequest<'_>,
    round: &Round,
    is_later: bool,
) -> Result<Vec<u8>, Memory>
    ensures { IfOk result (λ text. IsRoundText probe.now request.now round.now text.items) }
{
    match probe.form {
        ProbeForm::Table => table_of(alloc, probe, request, round, is_later),
        ProbeForm::Verdict => {
            let heading = heading(alloc, probe, request, round)?;
            verdict_line(alloc, &heading, round)
        }
        ProbeForm::Json => object(alloc, request, round),
        ProbeForm::Metrics => metrics(alloc, request, round),
        ProbeForm::Record => Ok(Vec::from_slice(alloc, &round.text)?),
    }
}

fn table_of(
    alloc: Global,
    probe: &Probe<'_>,
    request: &RoundRequest<'_>,
    round: &Round,
    is_later: bool,
) -> Result<Vec<u8>, Memory> {
    let heading = heading(alloc, probe, request, round)?;
    let table = table(alloc, &heading, request, round)?;
    if is_later {
        after_empty_line(alloc, &table)
    } else {
        Ok(table)
    }
}

fn after_empty_line(alloc: Global, table: &[u8]) -> Result<Vec<u8>, Memory> {
    let mut text = Vec::new(alloc);
    text.push(b'\n')?;
    text.extend_from_slice(table)?;
    Ok(text)
}

// The heading of a round, with its time if there are several.
fn heading(
    alloc: Global,
    probe: &Probe<'_>,
    request: &RoundRequest<'_>,
    round: &Round,
) -> Result<Vec<u8>, Memory>
    ensures { IfOk result (λ text. text.items ≡ heading_of probe.now request.now round.now) }
{
    let host = shown(alloc, request.connect.host)?;
    let at = time_of(probe.rounds, round.at);
    heading_of(alloc, host.as_bytes(), request.connect.port, at)
}

// The time in a heading: there is one only if there are several rounds.
fn time_of(rounds: Option<u32>, at: Option<Moment>) -> Option<Moment>
    ensures { result ≡ time_of rounds at }
{
    match rounds {
        Some(1) => None,
        _ => at,
    }
}

// Prints why look-ups of the round failed, and returns its status.
fn end_round<R, O, F: Write>(
    session: &mut Session<'_, '_, R, O, F>,
    request: &RoundRequest<'_>,
    round: &Round,
) -> u8
    ensures status { result ≡ status_of_round round.now }
    ensures output { session.new.output ≡ session.old.output }
{
    let (alloc, faults) = (session.alloc, &mut session.faults);
    let host = request.connect.host;
    if let Some(fault) = round.nameless {
        return report_of(alloc, fault, host, faults);
    }
    let _ = faults.write_all(&round.told);
    let six = report_family(alloc, "AAAA", round.why.of(Family::V6), host, faults);
    let four = report_family(alloc, "A", round.why.of(Family::V4), host, faults);
    worse(worse(six, four), status_of_rows(&round.rows))
}

// The status of a round with these rows, without a fault.
fn status_of_rows(rows: &[AddressRow]) -> u8
    ensures { result ≡ status_of_rows rows.now }
{
    let connected = count_connected(rows);
    if connected == 0 {
        NO_CONNECTION
    } else if connected == rows.len() {
        DONE
    } else {
        SOME_FAIL
    }
}

// Of two statuses the worse: a fault, then no connection, then some that fail.
fn worse(one: u8, other: u8) -> u8
    ensures { result ≡ worse one other }
{
    if one == FAULT {
        one
    } else if other == FAULT {
        other
    } else if one == NO_CONNECTION {
        one
    } else if other == NO_CONNECTION {
        other
    } else if one == DONE {
        other
    } else {
        one
    }
}

// Whether a table by address follows the rounds.
fn has_closing(form: ProbeForm, rounds: Option<u32>) -> bool
    ensures { result ≡ has_closing form rounds }
{
    match (form, rounds) {
        (ProbeForm::Table, Some(rounds)) => rounds != 1,
        _ => false,
    }
}

// Ends the rounds: writes the table by address after several, and returns the status.
fn close<R, O: OutputStream, F: Write>(
    session: &mut Session<'_, '_, R, O, F>,
    probe: &Probe<'_>,
    rows: &[AddressRow],
    status: u8,
) -> u8
    ensures { Closes O.OutputStream (has_closing probe.now.form probe.now.rounds) status session.old.output
        session.new.output result }
{
    if !has_closing(probe.form, probe.rounds) {
        return status;
    }
    worse(show_closing(session, rows), status)
}

// Writes the table by address.
fn show_closing<R, O: OutputStream, F: Write>(
    session: &mut Session<'_, '_, R, O, F>,
    rows: &[AddressRow],
) -> u8
    ensures { Shows O.OutputStream session.old.output session.new.output result }
{
    match closing_text(session.alloc, rows) {
        Ok(text) => put_all(session, &text, false),
        Err(Memory) => report(StreamFault::Memory, &mut session.faults),
    }
}

fn closing_text(alloc: Global, rows: &[AddressRow]) -> Result<Vec<u8>, Memory> {
    let table = totals_table(alloc, rows)?;
    after_empty_line(alloc, &table)
}
