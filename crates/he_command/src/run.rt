//! A run of the program with an input, an output and a writer of faults.
ghost use Rattle.std.specs.Prelude.{◌≡◌, IfOk, Result};
ghost use Rattle.he_names.specs.declared.environment.Environment.{Environment};
ghost use Rattle.he_request.specs.Requests.{IsRequest};
ghost use Rattle.he_command.specs.Checks.{refused_status};
ghost use Rattle.he_command.specs.Run.{Refuses, RunsLine};

use crate::check::{UNKNOWN, is_check};
use crate::connection::run_connection;
use crate::host::run_host;
use crate::live::run_live;
use crate::names::run_names;
use crate::probe::run_probe;
use crate::proxy::run_proxy;
use crate::system::{System, Variables};
use crate::words::tell_short_timeout;
use he_inputs::StreamFault;
use he_names::Environment;
use he_options::Refusal;
use he_options::shown::shown_lines;
use he_request::{Request, Terminal, read_words};
use he_stream::{FromReader, InputStream, OutputStream, ToWriter};
use he_tasks::reports::report;
use he_tasks::session::put_all;
use he_tasks::{Session, USAGE, run_texts};
use std::alloc::Global;
use std::io::Write;

// The version of this crate; the program adds its build.
const VERSION: &str = "1.0.0";

/// Runs the command line `words`, whose first is the program's name, and returns the exit status. Output and
/// requested help go to the session's output; errors go to its faults.
pub fn run_words<'a, R: System, I: InputStream, O: OutputStream + Send, F: Write>(
    session: &mut Session<'_, '_, R, O, F>,
    words: &'a [&'a str],
    input: &mut I,
) -> u8
    ensures { (line : Result Request Refusal) × (environment : Environment) × IfOk line IsRequest
        × RunsLine I.InputStream ⟦<FromReader<R::File> as InputStream>⟧ ⟦<ToWriter<R::File> as OutputStream>⟧
        O.OutputStream environment words.now line input.old input.new session.old.output session.new.output result }
{
    let line = read_words(session.alloc, words, VERSION, Terminal::USUAL);
    tell_short_timeout(words, &line, &mut session.faults);
    let variables = Variables::read(session.system);
    run_line(session, words, line, variables.environment(), input)
}

/// Runs the request of these words, and returns the exit status. The environment changes the resolver configuration.
pub fn run_line<R: System, I: InputStream, O: OutputStream + Send, F: Write>(
    session: &mut Session<'_, '_, R, O, F>,
    words: &[&str],
    line: Result<Request<'_>, Refusal>,
    environment: Environment<'_>,
    input: &mut I,
) -> u8
    requires { IfOk line IsRequest }
    ensures { RunsLine I.InputStream ⟦<FromReader<R::File> as InputStream>⟧ ⟦<ToWriter<R::File> as OutputStream>⟧
        O.OutputStream environment.entry words.now line.entry input.old input.new session.old.output
        session.new.output result }
{
    match line {
        Ok(Request::Connect(connection)) => run_connection(
            session,
            &connection,
            environment,
            input,
        ),
        Ok(Request::Proxy(proxy)) => run_proxy(session, &proxy),
        Ok(Request::Probe(probe)) => run_probe(session, &probe, environment),
        Ok(Request::Names(options)) => run_names(session, options),
        Ok(Request::Host(options)) => run_host(session, &options),
        Ok(Request::Live(options)) => run_live(session, &options, input),
        Ok(Request::Texts(texts)) => run_texts(session, texts, input),
        Err(refusal) => refuse(session, is_check(words), &refusal),
    }
}

// Handles a line without a command to run, which may be that of a check.
fn refuse<R, O: OutputStream, F: Write>(
    session: &mut Session<'_, '_, R, O, F>,
    checks: bool,
    refusal: &Refusal,
) -> u8
    ensures { Refuses O.OutputStream checks refusal.now session.old.output session.new.output result }
{
    match refusal {
        Refusal::Memory => {
            let status = report(StreamFault::Memory, &mut session.faults);
            refused_status(checks, status)
        }
        Refusal::Help(text) => match format!(in session.alloc; "{text}") {
            Ok(text) => put_all(session, text.as_bytes(), false),
            Err(_) => report(StreamFault::Memory, &mut session.faults),
        },
        Refusal::Words(_) | Refusal::Option(_) | Refusal::Meant(_) => {
            tell_refusal(session.alloc, refusal, &mut session.faults);
            refused_status(checks, USAGE)
        }
    }
}

// The status of a line that is refused: of a check that of a plugin, otherwise this one.
fn refused_status(is_check: bool, own: u8) -> u8
    ensures { result ≡ refused_status is_check own }
{
    if is_check { UNKNOWN } else { own }
}

// Prints why a line is refused. Its words may have terminal control characters, so they are made visible.
fn tell_refusal<F: Write>(alloc: Global, refusal: &Refusal, faults: &mut F) {
    let text = format!(in alloc; "{refusal}");
    let shown = text.and_then(|text| shown_lines(alloc, of_program(text.as_str())));
    let _ = match shown {
        Ok(shown) => write!(faults, "he: {shown}"),
        Err(_) => writeln!(faults, "he: a word of the command line is wrong"),
    };
}

// A text of clap, or of this program, without its first word.
fn of_program(text: &str) -> &str {
    match text.strip_prefix("error: ") {
        Some(rest) => rest,
        None => text.strip_prefix("he: ").unwrap_or(text),
    }
}
