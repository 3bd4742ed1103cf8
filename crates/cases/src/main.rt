//! Runs the worked examples of the folder in which it is started, and reports those that differ.
//!
//! An example is a text of timelines, `NAME.timeline`. Beside it are the outputs of `replay` for it,
//! `NAME.transcript`, `NAME.order`, `NAME.story`, `NAME.picture` (in 80 columns), and as JSON `NAME.transcript-json`,
//! `NAME.order-json`, `NAME.explanation-json`: one of these or more. A faulty text has `NAME.fault`, the line that
//! the program prints after each of them; `check` reports this fault too, and `NAME.check` is all that the program
//! then prints of it, with the line, its mark and the sentence; for a text without a fault it has the warnings of
//! `check`; `NAME.check-all` is that of a check for all faults, and `NAME.check-json` and `NAME.check-all-json` are
//! the JSON outputs of a check. Each example is run in pieces of 1 byte, of 7 bytes and whole, a short one in every
//! cut into two pieces too, and `replay` with 1, 2, 7 and 64 workers; each of its races is run as a future too, to an
//! equal transcript, and each of their attempts alone (`turns.rt`), and again with its answers coming while it runs
//! (`resolving.rt`). Besides, command lines are run whose output can't be flushed (`flushes.rt`). A line names each
//! run that differs, and the last three count them. If memory is refused to an example, the program reports that and
//! ends. It is proved only to be safe and to end.
#![tactic(auto)]

mod example;
mod flushes;
mod resolving;
mod turns;

use example::{Counts, run_example};
use flushes::run_flushes;
use resolving::Heard;
use std::{fs, io};

fn main(rt: HostRuntime) -> io::Result<()> {
    let mut counts = Counts { ran: 0, differ: 0 };
    let mut heard = Heard {
        compared: 0,
        drawn: 0,
    };
    let names = names(&rt)?;
    for name in names.as_slice() {
        run_example(&rt, &rt, name.as_str(), &mut counts, &mut heard)?;
    }
    let examples = names.len();
    let Counts { ran, differ } = counts;
    println!(rt; "{examples} examples: {ran} runs, {differ} differ")?;
    let Heard { compared, drawn } = heard;
    println!(rt;
        "races whose answers come while they run: {compared} compared, {drawn} at drawn ticks"
    )?;
    let Counts { ran, differ } = run_flushes(&rt, &rt)?;
    println!(rt; "{ran} runs whose output cannot be flushed, {differ} differ")
}

// The names of the examples, in order.
fn names(rt: &HostRuntime) -> io::Result<Vec<String>> {
    let mut names = Vec::new(rt.alloc());
    for entry in fs::read_dir(rt, ".")? {
        if let Some(name) = entry?.file_name().strip_suffix(".timeline") {
            names.push(name.to_string(rt.alloc())?)?;
        }
    }
    names.sort()?;
    Ok(names)
}
