//! The output of the log, which never waits for a reader.

ghost use Rattle.std.specs.Prelude.{◌≡◌, ◌++◌, IfOk};
ghost use Rattle.he_log.specs.Levels.{priority_of};

use crate::level::Level;
use he_addr::Memory;
use he_relay::takes_now;
use std::alloc::Global;
use std::cell::Cell;
use std::io::Write;

// The descriptor of standard error.
const STANDARD_ERROR: i32 = 2;

// The octets that a pipe takes at once if it takes any (PIPE_BUF, pipe(7)).
const MOST_AT_ONCE: usize = 4_096;

/// Standard error. A line that it doesn't take at once is dropped and counted; the count is written before the next
/// line that it takes.
#[derive(Drop)]
pub struct Output<F: Drop> {
    alloc: Global,
    // Whether each line begins with its priority.
    has_priorities: bool,
    out: Cell<Option<F>>,
    // The dropped lines that were not reported yet.
    dropped: Cell<u64>,
    // All dropped lines.
    lost: Cell<u64>,
}

impl<F: Write + Drop> Output<F> {
    /// Standard error, written by `out`. With `has_priorities` each line begins with its priority.
    pub fn new(alloc: Global, has_priorities: bool, out: F) -> Output<F> {
        Output {
            alloc,
            has_priorities,
            out: Cell::new(Some(out)),
            dropped: Cell::new(0),
            lost: Cell::new(0),
        }
    }

    /// The number of lines that were dropped.
    pub fn lost(&self) -> u64 {
        self.lost.get()
    }

    /// Writes a line, at most its first 4,096 octets.
    pub(crate) fn write(&self, level: Level, line: &[u8]) {
        if let Some(mut out) = self.out.replace(None) {
            if self.say_dropped(&mut out) && self.put(&mut out, level, line) {
                self.dropped.set(0);
            } else {
                self.dropped.set(self.dropped.get().saturating_add(1));
                self.lost.set(self.lost.get().saturating_add(1));
            }
            self.out.set(Some(out));
        }
    }

    // Writes the number of dropped lines, if any. False if that isn't taken either.
    fn say_dropped(&self, out: &mut F) -> bool {
        let count = self.dropped.get();
        if count == 0 {
            return true;
        }
        let noun = if count == 1 { "line" } else { "lines" };
        let said = match format!(in self.alloc;
            "he: {count} {noun} of the log dropped: standard error took no more\n"
        ) {
            Ok(text) => self.put(out, Level::Warning, text.as_bytes()),
            Err(_) => false,
        };
        if said {
            self.dropped.set(0);
        }
        said
    }

    // Writes a line if it is taken at once.
    fn put(&self, out: &mut F, level: Level, line: &[u8]) -> bool {
        if !self.has_priorities {
            return put_octets(out, line);
        }
        match with_priority(self.alloc, level, line) {
            Ok(text) => put_octets(out, &text),
            Err(_) => false,
        }
    }
}

// The line after its priority.
fn with_priority(alloc: Global, level: Level, line: &[u8]) -> Result<Vec<u8>, Memory>
    ensures { IfOk result (λ text. text.items ≡ priority_of level ++ line.now) }
{
    let mut text = Vec::new(alloc);
    level.write(&mut text)?;
    text.extend_from_slice(line)?;
    Ok(text)
}

// Writes octets if they are taken at once.
fn put_octets<F: Write>(out: &mut F, octets: &[u8]) -> bool {
    let piece = &octets[..octets.len().min(MOST_AT_ONCE)];
    takes_now(STANDARD_ERROR) && out.write_all(piece).is_ok()
}
