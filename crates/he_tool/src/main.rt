//! The program `he`: a Happy Eyeballs client that connects to a host, and records, replays and explains such races.
//!
//! The crate `he_command` runs the command lines. This one has the program's words, its standard streams and its exit
//! status.
#![tactic(auto)]

mod build;
mod terminal;

use build::VERSION;
use he_command::{
    Session, System, Variables, read_words, report, report_not_text, report_path, run_line,
    takes_text, tell_short_timeout, tell_waiting,
};
use he_inputs::{RaceStream, StreamFault};
use he_relay::{NULL_DEVICE, Waiting, open_standard};
use he_stream::{FromReader, ToWriter};
use std::io::IsTerminal;
use std::process::ExitCode;
use std::{env, io};
use terminal::terminal_of;

fn main(rt: HostRuntime) -> ExitCode {
    ExitCode::from(run_program(&rt, &rt))
}

// Runs the command line that the program was started with, and returns the exit status. The runtime gives threads,
// sockets and waiting only in `main`, so `main` passes it on as what gives them too.
fn run_program<R>(rt: &HostRuntime, system: &R) -> u8
where
    R: System,
{
    if let Err(error) = open_standard(rt) {
        return report_path(rt.alloc(), NULL_DEVICE, error, &mut rt.stderr());
    }
    let words = match words_of(rt) {
        Ok(words) => words,
        Err(error) if error.kind() == io::ErrorKind::OutOfMemory => {
            return report(StreamFault::Memory, &mut rt.stderr());
        }
        Err(_) => return report_not_text(&mut rt.stderr()),
    };
    let texts = words
        .iter()
        .map(|word| word.as_str())
        .collect::<Vec<&str>>(rt.alloc());
    match texts {
        Ok(texts) => run_words_of(rt, system, texts.as_slice()),
        Err(_) => report(StreamFault::Memory, &mut rt.stderr()),
    }
}

// The words that the program was started with.
fn words_of(rt: &HostRuntime) -> io::Result<Vec<String>> {
    Ok(env::args(rt)?.collect(rt.alloc())?)
}

// Runs the command line. If it will read a text from a terminal, prints that first.
fn run_words_of<R>(rt: &HostRuntime, system: &R, words: &[&str]) -> u8
where
    R: System,
{
    let mut session = Session {
        system,
        alloc: rt.alloc(),
        output: ToWriter::new(Waiting::output(rt.stdout())),
        faults: rt.stderr(),
        file: None,
        stream: RaceStream::new(rt.alloc()),
        place: 0,
        unread: 0,
    };
    let line = read_words(session.alloc, words, VERSION, terminal_of(system));
    tell_short_timeout(words, &line, &mut session.faults);
    if takes_text(&line) && rt.stdin().is_terminal() {
        tell_waiting(&mut session.faults);
    }
    let mut input = FromReader::new(Waiting::input(rt.stdin()));
    let variables = Variables::read(system);
    let environment = variables.environment();
    run_line(&mut session, words, line, environment, &mut input)
}
