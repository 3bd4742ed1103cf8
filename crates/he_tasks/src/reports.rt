//! Exit statuses, and reports of faults.
ghost use Rattle.std.specs.Prelude.{◌≡◌};
ghost use Rattle.he_tasks.specs.Status.{first_fault};

use crate::name::Name;
use crate::system::TaskSystem;
use he_check::explain_fault;
use he_options::shown::shown;
use he_words::TextFault;
use std::alloc::Global;
use std::fmt::Display;
use std::fs;
use std::io::{Error, Write};

/// The exit status of success.
pub const DONE: u8 = 0;

/// The exit status after a fault.
pub const FAULT: u8 = 1;

/// The exit status of a command line that was refused.
pub const USAGE: u8 = 2;

/// The exit status if a connection had to be made and none was.
pub const NO_CONNECTION: u8 = 3;

// The first status, or the second one if the first is success.
pub(crate) fn first_fault(first: u8, then: u8) -> u8
    ensures { result ≡ first_fault first then }
{
    if first == DONE { then } else { first }
}

/// Writes the line of a fault, and returns the exit status.
pub fn report<E: Display + Drop, F: Write>(fault: E, faults: &mut F) -> u8
    ensures { result ≡ FAULT }
{
    let _ = writeln!(faults, "he: {fault}");
    FAULT
}

// Writes the line of a fault, with the name of the file that has it, and returns the exit status.
pub(crate) fn report_in<E: Display + Drop, F: Write>(
    name: Option<Name<'_>>,
    fault: E,
    faults: &mut F,
) -> u8
    ensures { result ≡ FAULT }
{
    match name {
        Some(Name { shown, .. }) => {
            let _ = writeln!(faults, "he: {shown}: {fault}");
            FAULT
        }
        None => report(fault, faults),
    }
}

/// Writes the line of a fault, with the path of a file that was not opened yet, and returns the exit status.
pub fn report_path<E: Display + Drop, F: Write>(
    alloc: Global,
    path: &str,
    fault: E,
    faults: &mut F,
) -> u8
    ensures { result ≡ FAULT }
{
    match shown(alloc, path) {
        Ok(shown) => {
            let shown = shown.as_str();
            report_in(Some(Name { path, shown }), fault, faults)
        }
        Err(_) => report(fault, faults),
    }
}

/// Writes the line of a fault with the word that it is about, and returns the exit status.
pub fn report_of<E: Display + Drop, F: Write>(
    alloc: Global,
    fault: E,
    word: &str,
    faults: &mut F,
) -> u8
    ensures { result ≡ FAULT }
{
    match shown(alloc, word) {
        Ok(shown) => {
            let _ = writeln!(faults, "he: {fault}: {shown}");
            FAULT
        }
        Err(_) => report(fault, faults),
    }
}

// Writes why a stream failed, if the reason is known.
pub(crate) fn tell_reason<F: Write>(failure: Option<Error>, faults: &mut F) {
    if let Some(error) = failure {
        let _ = writeln!(faults, "  {error}");
    }
}

// Writes lines about a file. Those that begin as a fault does get its name too.
pub(crate) fn tell_lines<F: Write>(name: Option<Name<'_>>, lines: &[u8], faults: &mut F) {
    let Some(name) = name else {
        let _ = faults.write_all(lines);
        return;
    };
    let name = name.shown;
    for line in lines.split_inclusive(|byte| *byte == b'\n') {
        let _ = match line.strip_prefix(b"he: ".as_slice()) {
            Some(rest) => {
                let _ = write!(faults, "he: {name}: ");
                faults.write_all(rest)
            }
            None => faults.write_all(line),
        };
    }
}

// Explains a fault of the text of a regular file, which is read again. Explains no other: a pipe gives its bytes
// once.
pub(crate) fn explain_in<R: TaskSystem, F: Write>(
    rt: &R,
    alloc: Global,
    name: Option<Name<'_>>,
    fault: TextFault,
    faults: &mut F,
) {
    let Some(path) = name.and_then(|name| name.regular_file(rt)) else {
        return;
    };
    if let Ok(text) = fs::read(rt, path) {
        let mut explanation = Vec::new(alloc);
        if explain_fault(alloc, &text, fault, &mut explanation).is_ok() {
            let _ = faults.write_all(explanation.as_slice());
        }
    }
}
