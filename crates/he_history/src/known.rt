//! The history of addresses from earlier connections, and its file.
ghost use Rattle.std.specs.Prelude.{◌≡◌, IfOk};
ghost use Rattle.he_turns.specs.Heard.{ips_of};
ghost use Rattle.he_history.specs.Known.{is_lost, seen_by};

use crate::cause::Cause;
use crate::stamp::second_now;
use crate::trouble::Trouble;
use he_addr::{Ip, Memory};
use he_cache::{History, ReadHistory, Seen, read_history, write_history};
use he_files::create_beside;
use he_kernel::asked::AskedWays;
use he_kernel::sockets::NO_SCOPE;
use he_plan::{Line, Mark, Transcript};
use he_select::Known;
use std::alloc::{AllocGlobal, Global};
use std::cell::Cell;
use std::fs::OpenFile;
use std::io::{ErrorKind, Write};
use std::net::Net;
use std::os::unix::fs::{MetadataExt, chown};
use std::random::RandomSource;
use std::rt::Files;
use std::time::Clock;
use std::{fs, io};

// The most octets of a file that is read: more than the lines of all addresses need.
const MOST_OCTETS: u64 = 1 << 20;

// The suffix of the copy of a file that was not a history.
const ASIDE: &str = ".not-history";

// The most such files.
const MOST_ASIDE: u32 = 100;

/// The history of addresses, for the races of a proxy.
#[derive(Drop)]
pub struct KnownAddresses {
    alloc: Global,
    history: Cell<Option<History>>,
    path: Option<String>,
    // The second of the file's last write, by a clock that may be set back.
    written: Cell<u64>,
    trouble: Trouble,
}

/// The results of a race for addresses, beside its transcript.
#[derive(Clone, Copy)]
pub struct Learnt {
    /// The local address of the winner's connection.
    pub source: Option<Ip>,
    /// The Connection Attempt Delay of the race, in ticks.
    pub delay: u64,
}

/// The history at the start.
#[derive(Drop)]
pub struct KnownAtStart {
    pub known: KnownAddresses,
    /// The numbers of the file's lines that were ignored.
    pub wrong: Vec<u64>,
    /// The copy of a file that was not a history: no line of it was valid.
    pub moved: Option<String>,
}

impl KnownAddresses {
    /// The history in the file at the path, if it exists; an empty one without a path. The file is created if it
    /// doesn't exist. If it is not a history, it is copied beside its path and starts anew.
    ///
    /// # Errors
    ///
    /// Those of the system; `InvalidInput` if the path is not a regular file or the file is too long.
    pub fn open<R: Files + RandomSource + AllocGlobal + Copy>(
        rt: &R,
        alloc: Global,
        path: Option<&str>,
    ) -> io::Result<KnownAtStart> {
        let Some(path) = path else {
            return Ok(KnownAtStart {
                known: KnownAddresses::of(alloc, new_history(alloc)?, None),
                wrong: Vec::new(alloc),
                moved: None,
            });
        };
        let text = read_if_there(rt, alloc, path)?;
        let ReadHistory { history, mut wrong } = match read_history(alloc, &text) {
            Ok(read) => read,
            Err(Memory) => return Err(ErrorKind::OutOfMemory.into()),
        };
        let mut moved = None;
        if history.is_empty() && !wrong.is_empty() {
            let aside = free_aside(rt, alloc, path)?;
            fs::copy(rt, path, aside.as_str())?;
            wrong.clear();
            moved = Some(aside);
        }
        let own = String::from_str(alloc, path)?;
        let known = KnownAddresses::of(alloc, history, Some(own));
        known.write(rt)?;
        Ok(KnownAtStart {
            known,
            wrong,
            moved,
        })
    }

    fn of(alloc: Global, history: History, path: Option<String>) -> KnownAddresses {
        KnownAddresses {
            alloc,
            history: Cell::new(Some(history)),
            path,
            written: Cell::new(0),
            trouble: Trouble::none(),
        }
    }

    /// The addresses, each with its history, if the kernel selects the source in this race that it selected then.
    ///
    /// # Errors
    ///
    /// `Memory` if an allocation fails.
    pub fn tell<R: Net + Clock>(
        &self,
        rt: &R,
        asked: &AskedWays,
        known: &[Known],
    ) -> Result<Vec<Known>, Memory>
        ensures { IfOk result (λ told. ips_of told.items ≡ ips_of known.now) }
    {
        let history = self.history.take();
        let told = tell_from(rt, self.alloc, asked, &history, known);
        self.history.set(history);
        told
    }

    /// Takes the results of a race that has ended, and writes the file, at most once a second. A failed write is
    /// noted.
    pub fn learn<R: Files + RandomSource + Clock + AllocGlobal + Copy>(
        &self,
        rt: &R,
        transcript: &Transcript,
        learnt: Learnt,
    ) {
        let (Some(now), Some(mut history)) = (second_now(rt), self.history.take()) else {
            return;
        };
        let is_changed = learn_from(&mut history, transcript, learnt, now);
        self.history.set(Some(history));
        if is_changed && self.path.is_some() && now != self.written.get() {
            self.written.set(now);
            self.trouble.note(&self.write(rt));
        }
    }

    /// Why the file can't be written, if not yet reported.
    pub fn fault(&self) -> Option<Cause> {
        self.trouble.take()
    }

    // Writes the file, if there is one.
    fn write<R: Files + RandomSource + AllocGlobal>(&self, rt: &R) -> io::Result<()> {
        let (Some(path), Some(history)) = (&self.path, self.history.take()) else {
            return Ok(());
        };
        let mut text = Vec::new(self.alloc);
        let written = write_history(&history, &mut text);
        self.history.set(Some(history));
        match written {
            Ok(()) => replace_file(rt, self.alloc, path, &text),
            Err(Memory) => Err(ErrorKind::OutOfMemory.into()),
        }
    }
}

// Replaces the file at this path, keeping its mode and, if permitted, its owner.
fn replace_file<R: Files + RandomSource + AllocGlobal>(
    rt: &R,
    alloc: Global,
    path: &str,
    text: &[u8],
) -> io::Result<()> {
    let old = fs::metadata(rt, path).ok();
    let (mut file, name) = create_beside(rt, alloc, path)?;
    if let Some(old) = &old {
        let _ = file.set_permissions(old.permissions());
    }
    if let Err(error) = file.write_all(text) {
        name.discard(rt);
        return Err(error);
    }
    name.keep(rt)?;
    if let Some(old) = &old {
        let _ = chown(rt, path, Some(old.uid()), Some(old.gid()));
    }
    Ok(())
}

// The path for the copy of a file that was not a history; with a number if there is such a file already.
fn free_aside<R: Files>(rt: &R, alloc: Global, path: &str) -> io::Result<String> {
    let first = format!(in alloc; "{path}{ASIDE}")?;
    if !fs::exists(rt, first.as_str())? {
        return Ok(first);
    }
    for number in 2..MOST_ASIDE {
        let next = format!(in alloc; "{path}{ASIDE}-{number}")?;
        if !fs::exists(rt, next.as_str())? {
            return Ok(next);
        }
    }
    Err(ErrorKind::AlreadyExists.into())
}

fn new_history(alloc: Global) -> io::Result<History> {
    match History::new(alloc) {
        Ok(history) => Ok(history),
        Err(Memory) => Err(ErrorKind::OutOfMemory.into()),
    }
}

// The bytes of a file that is not too long; empty if it doesn't exist.
fn read_if_there<R: Files + AllocGlobal>(rt: &R, alloc: Global, path: &str) -> io::Result<Vec<u8>> {
    match fs::metadata(rt, path) {
        Ok(there) if there.is_file() && there.len() <= MOST_OCTETS => fs::read(rt, path),
        Ok(_) => Err(ErrorKind::InvalidInput.into()),
        Err(error) if error.kind() == ErrorKind::NotFound => Ok(Vec::new(alloc)),
        Err(error) => Err(error),
    }
}

fn tell_from<R: Net + Clock>(
    rt: &R,
    alloc: Global,
    asked: &AskedWays,
    history: &Option<History>,
    known: &[Known],
) -> Result<Vec<Known>, Memory>
    ensures { IfOk result (λ told. ips_of told.items ≡ ips_of known.now) }
{
    let now = second_now(rt);
    let mut told = Vec::new(alloc);
    for one in known {
        told.push(tell_one(rt, asked, history, *one, now))?;
    }
    Ok(told)
}

// The address with the history that counts in this second.
fn tell_one<R: Net>(
    rt: &R,
    asked: &AskedWays,
    history: &Option<History>,
    one: Known,
    now: Option<u64>,
) -> Known
    ensures { result.ip ≡ one.ip }
{
    match find_seen(rt, asked, history, one.ip, now) {
        Some(seen) => Known {
            ip: one.ip,
            rtt: Some(seen.rtt),
            used: true,
        },
        None => one,
    }
}

// The history of an address that counts in this second, if the kernel selects the source that it selected then.
fn find_seen<R: Net>(
    rt: &R,
    asked: &AskedWays,
    history: &Option<History>,
    ip: Ip,
    now: Option<u64>,
) -> Option<Seen> {
    let seen = history.as_ref()?.seen(ip)?;
    let source = asked.way(rt, ip, NO_SCOPE).from?;
    if seen.counts(source, now?) {
        Some(seen)
    } else {
        None
    }
}

// Forgets addresses whose attempts failed or had no answer, and takes the winner's result. Returns whether anything
// changed.
fn learn_from(history: &mut History, transcript: &Transcript, learnt: Learnt, now: u64) -> bool {
    let mut is_changed = false;
    for line in transcript.attempts() {
        is_changed |= learn_line(history, *line, learnt, now);
    }
    is_changed
}

fn learn_line(history: &mut History, line: Line, learnt: Learnt, now: u64) -> bool {
    if let Some(seen) = seen_by(line, learnt.source, now) {
        return history.learn(seen).is_ok();
    }
    match history.seen(line.ip) {
        Some(seen) if is_lost(line, seen, learnt.delay) => {
            history.forget(line.ip);
            true
        }
        _ => false,
    }
}

// The result of the attempt in this second, if it won: the time from its start to the connection.
fn seen_by(line: Line, source: Option<Ip>, now: u64) -> Option<Seen>
    ensures { result ≡ seen_by line source now }
{
    let Mark::Won(tick) = line.mark else {
        return None;
    };
    let source = source?;
    Some(Seen {
        ip: line.ip,
        source,
        rtt: tick.saturating_sub(line.tick),
        at: now,
    })
}

// Whether the history of the line's address is void: the attempt failed, or it waited without an answer for the
// Connection Attempt Delay, in ticks, and longer than the last connection took.
fn is_lost(line: Line, seen: Seen, delay: u64) -> bool
    ensures { result ≡ is_lost line seen delay }
{
    match line.mark {
        Mark::Won(_) => false,
        Mark::Failed(_) => true,
        Mark::Cancelled(tick) => {
            let waited = tick.saturating_sub(line.tick);
            waited >= delay && waited > seen.rtt
        }
    }
}
