//! Messages on the words before a line is read.
ghost use Rattle.std.specs.Prelude.{◌≡◌};

use he_options::{Refusal, short_timeout};
use he_request::Request;
use he_tasks::USAGE;
use std::io::Write;

/// Prints that a text is waited for.
pub fn tell_waiting<F: Write>(faults: &mut F) {
    let _ = writeln!(
        faults,
        "he: reading a timeline from the terminal; end it with Ctrl-D (`he --help` lists the commands)"
    );
}

/// Prints that a `--timeout` below 100 without a unit is in milliseconds, for a valid line.
pub fn tell_short_timeout<F: Write>(
    words: &[&str],
    line: &Result<Request<'_>, Refusal>,
    faults: &mut F,
) {
    if line.is_err() {
        return;
    }
    if let Some(count) = short_timeout(words) {
        let _ = writeln!(
            faults,
            "he: --timeout {count} is {count} milliseconds; --timeout {count}s is {count} seconds"
        );
    }
}

/// Prints that a word of the command line is not UTF-8, and returns the exit status.
pub fn report_not_text<F: Write>(faults: &mut F) -> u8
    ensures { result ≡ USAGE }
{
    let _ = writeln!(faults, "he: a word of the command line is not UTF-8");
    USAGE
}
