//! Prints the steps of a race and of its look-up as they happen.

use crate::tried::write_reason;
use he_addr::{Memory, write_ip, write_number};
use he_asking::{LookupEvent, LookupEventKind};
use he_live::{Step, StepKind, Watcher};
use he_setup::{ConnectRequest, LookupWatcher};
use std::alloc::Global;
use std::cell::Cell;
use std::io::Write;

/// Prints a line for each step, if requested. A failed write is ignored.
#[derive(Drop)]
pub struct Telling<'f, F> {
    alloc: Global,
    faults: Cell<Option<&'f mut F>>,
    tells_steps: bool,
    // An explanation has the steps of the race, but not of its look-up.
    tells_lookup: bool,
}

impl<'f, F> Telling<'f, F> {
    /// Prints the steps that the request asks for.
    pub fn new(alloc: Global, faults: &'f mut F, request: &ConnectRequest<'_>) -> Telling<'f, F> {
        Telling {
            alloc,
            faults: Cell::new(Some(faults)),
            tells_steps: request.tells_steps,
            tells_lookup: request.tells_steps || request.explains,
        }
    }
}

// A look-up goes on only when the race polls it, so all lines are in one order. The family that is not queried was
// printed before.
impl<'h, 'f, F: Write> LookupWatcher for &'h Telling<'f, F> {
    fn tell_lookup(&self, events: &[LookupEvent], tick: u64) {
        for event in events {
            if self.tells_lookup && event.kind != LookupEventKind::NotAsked {
                self.tell_event(*event, tick);
            }
        }
    }

    fn tell_remarks(&self, remarks: &[u8]) {
        self.write_lines(remarks);
    }

    fn tell_prefixes_asked(&self, tick: u64) {
        if !self.tells_lookup {
            return;
        }
        if let Some(faults) = self.faults.replace(None) {
            let _ = writeln!(
                faults,
                "he: {tick} ms: AAAA of ipv4only.arpa asked, for the prefix of a NAT64"
            );
            self.faults.set(Some(faults));
        }
    }
}

impl<'f, F: Write> Telling<'f, F> {
    fn write_lines(&self, lines: &[u8]) {
        if let Some(faults) = self.faults.replace(None) {
            let _ = faults.write_all(lines);
            self.faults.set(Some(faults));
        }
    }

    fn tell_event(&self, event: LookupEvent, tick: u64) {
        if let Some(faults) = self.faults.replace(None) {
            let _ = writeln!(faults, "he: {tick} ms: {event}");
            self.faults.set(Some(faults));
        }
    }
}

impl<'f, F: Write> Watcher for Telling<'f, F> {
    fn tell(&self, step: Step) {
        if !self.tells_steps {
            return;
        }
        let mut line = Vec::new(self.alloc);
        if write_step(step, &mut line).is_err() {
            return;
        }
        self.write_lines(line.as_slice());
    }
}

// Writes the line: `he: 12 ms: attempt 1 at 2001:db8::1 failed: refused`.
fn write_step(step: Step, out: &mut Vec<u8>) -> Result<(), Memory> {
    out.extend_from_slice(b"he: ")?;
    write_number(step.tick, out)?;
    out.extend_from_slice(b" ms: attempt ")?;
    write_number((step.place as u64).saturating_add(1), out)?;
    out.extend_from_slice(b" at ")?;
    write_ip(step.ip, out)?;
    match step.what {
        StepKind::Began => out.extend_from_slice(b" begins")?,
        StepKind::Connected => out.extend_from_slice(b" connected")?,
        StepKind::Failed(reason) => {
            out.extend_from_slice(b" failed: ")?;
            write_reason(reason, out)?;
        }
    }
    out.push(b'\n')?;
    Ok(())
}
