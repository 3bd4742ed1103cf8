//! The record files of races.

use crate::cause::Cause;
use crate::trouble::Trouble;
use he_addr::Memory;
use std::alloc::{AllocGlobal, Global};
use std::cell::Cell;
use std::fs::{File, create_dir_all, hard_link, read_dir, remove_dir, remove_file};
use std::io;
use std::io::{ErrorKind, Write};
use std::rt::Files;

// The suffix of a record's name.
const EXTENSION: &str = ".timeline";

// The most octets of a host in a record's name: a host may have 255, and so may a file name.
const MOST_HOST: usize = 180;

// The most races of one host and port that begin in one millisecond, each with its own file.
const MOST_TWINS: u32 = 1_000;

// The most records that are removed after one race.
const MOST_REMOVED: u32 = 4;

// The most of the oldest records listed at once.
const MOST_LISTED: usize = 1_000;

/// The directory of the records: `DIR/2026-11-26/16-34-40.123-example.org-443.timeline`, days and times in UTC.
#[derive(Drop)]
pub struct Records {
    alloc: Global,
    dir: String,
    most: u32,
    count: Cell<u32>,
    // The number of records to keep until they are counted again, since others may have removed some.
    recount: Cell<u32>,
    // The oldest records of the last listing, the oldest last.
    oldest: Cell<Vec<String>>,
    trouble: Trouble,
}

/// The name of a race's record: when it began, and its target.
#[derive(Clone, Copy)]
pub struct RecordName<'a> {
    /// As from `stamp_now`.
    pub began: &'a str,
    pub host: &'a str,
    pub port: u16,
}

impl Records {
    /// The records in this directory, which is created if missing. At most `most` are kept.
    ///
    /// # Errors
    ///
    /// Those of the system.
    pub fn open<R: Files + AllocGlobal + Copy>(
        rt: &R,
        alloc: Global,
        dir: &str,
        most: u32,
    ) -> io::Result<Records> {
        create_dir_all(rt, dir)?;
        Ok(Records {
            alloc,
            dir: String::from_str(alloc, dir)?,
            most,
            count: Cell::new(count_in(rt, alloc, dir)?),
            recount: Cell::new(0),
            oldest: Cell::new(Vec::new(alloc)),
            trouble: Trouble::none(),
        })
    }

    /// Keeps a record in its own file, and returns its path in the directory. The file gets its name after it is
    /// written. If there are then more records than the limit, some of the oldest are removed. A failure is noted.
    pub fn keep<R: Files + AllocGlobal + Copy>(
        &self,
        rt: &R,
        name: RecordName<'_>,
        text: &[u8],
    ) -> Option<String> {
        let written = self.write(rt, name, text);
        let (kept, done) = match written {
            Ok(kept) => (Some(kept), self.make_room(rt)),
            Err(error) => (None, Err(error)),
        };
        self.trouble.note(&done);
        kept
    }

    /// Why a record can't be kept, if not yet reported.
    pub fn fault(&self) -> Option<Cause> {
        self.trouble.take()
    }

    fn write<R: Files + AllocGlobal + Copy>(
        &self,
        rt: &R,
        name: RecordName<'_>,
        text: &[u8],
    ) -> io::Result<String> {
        let (Some(date), Some(time)) = (name.began.get(..10), name.began.get(11..23)) else {
            return Err(ErrorKind::InvalidInput.into());
        };
        let alloc = self.alloc;
        let dir = self.dir.as_str();
        let day = format!(in alloc; "{dir}/{date}")?;
        create_dir_all(rt, day.as_str())?;
        let stem = stem_of(alloc, time, name)?;
        let file = write_new(rt, alloc, day.as_str(), stem.as_str(), text)?;
        self.count.set(self.count.get().saturating_add(1));
        Ok(format!(in alloc; "{date}/{file}")?)
    }

    // Removes the oldest records above the limit, a few at a time.
    fn make_room<R: Files + AllocGlobal + Copy>(&self, rt: &R) -> io::Result<()> {
        for _ in 0..MOST_REMOVED {
            if self.count.get() <= self.most || !self.remove_oldest(rt)? {
                return Ok(());
            }
        }
        Ok(())
    }

    // Removes the oldest record if, after they are counted again, there are too many.
    fn remove_oldest<R: Files + AllocGlobal + Copy>(&self, rt: &R) -> io::Result<bool> {
        self.count_again(rt)?;
        if self.count.get() <= self.most {
            return Ok(false);
        }
        let mut oldest = self.oldest.replace(Vec::new(self.alloc));
        if oldest.is_empty() {
            oldest = oldest_in(rt, self.alloc, self.dir.as_str())?;
        }
        let last = oldest.pop();
        self.oldest.set(oldest);
        let Some(last) = last else {
            return Ok(false);
        };
        match remove_file(rt, last.as_str()) {
            Ok(()) => self.count.set(self.count.get().saturating_sub(1)),
            Err(error) if error.kind() == ErrorKind::NotFound => self.recount.set(0),
            Err(error) => return Err(error),
        }
        Ok(true)
    }

    // Counts the records again after each hundredth of them.
    fn count_again<R: Files + AllocGlobal + Copy>(&self, rt: &R) -> io::Result<()> {
        match self.recount.get().checked_sub(1) {
            Some(left) => self.recount.set(left),
            None => {
                let count = count_in(rt, self.alloc, self.dir.as_str())?;
                self.count.set(count);
                self.recount.set(count / 100);
            }
        }
        Ok(())
    }
}

// The name of a record without its suffix. In the host, characters other than letters, digits, `-`, `.` and `:`
// become `_`.
fn stem_of(alloc: Global, time: &str, name: RecordName<'_>) -> io::Result<String> {
    let mut stem = String::new(alloc);
    for byte in time.as_bytes() {
        stem.push(if *byte == b':' {
            '-'
        } else {
            char::from(*byte)
        })?;
    }
    stem.push('-')?;
    for byte in name.host.as_bytes().iter().take(MOST_HOST) {
        let is_kept = byte.is_ascii_alphanumeric() || b"-.:".contains(byte);
        stem.push(if is_kept { char::from(*byte) } else { '_' })?;
    }
    let port = name.port;
    Ok(format!(in alloc; "{stem}-{port}")?)
}

// Writes a new file of the day and returns its name, which it gets after it is written; with a number if another race
// of the host began in this millisecond.
fn write_new<R: Files + AllocGlobal + Copy>(
    rt: &R,
    alloc: Global,
    day: &str,
    stem: &str,
    text: &[u8],
) -> io::Result<String> {
    let beside = format!(in alloc; "{day}/{stem}.new")?;
    let named = match write_file(rt, beside.as_str(), text) {
        Ok(()) => give_name(rt, alloc, beside.as_str(), day, stem),
        Err(error) => Err(error),
    };
    let _ = remove_file(rt, beside.as_str());
    named
}

fn write_file<R: Files>(rt: &R, path: &str, text: &[u8]) -> io::Result<()> {
    let mut file = File::create(rt, path)?;
    file.write_all(text)
}

// Links the temporary file to a free name of the day, and returns the name.
fn give_name<R: Files + AllocGlobal + Copy>(
    rt: &R,
    alloc: Global,
    beside: &str,
    day: &str,
    stem: &str,
) -> io::Result<String> {
    for number in 1..MOST_TWINS {
        let name = name_of(alloc, stem, number)?;
        let path = format!(in alloc; "{day}/{name}")?;
        match hard_link(rt, beside, path.as_str()) {
            Ok(()) => return Ok(name),
            Err(error) if error.kind() == ErrorKind::AlreadyExists => {}
            Err(error) => return Err(error),
        }
    }
    Err(ErrorKind::AlreadyExists.into())
}

fn name_of(alloc: Global, stem: &str, number: u32) -> Result<String, Memory> {
    match number {
        1 => format!(in alloc; "{stem}{EXTENSION}"),
        _ => format!(in alloc; "{stem}-{number}{EXTENSION}"),
    }
}

// Some of the oldest records, the oldest last. Removes days without a record.
fn oldest_in<R: Files + AllocGlobal + Copy>(
    rt: &R,
    alloc: Global,
    dir: &str,
) -> io::Result<Vec<String>> {
    for day in days_in(rt, alloc, dir)?.iter() {
        let mut records = records_in(rt, alloc, day.as_str())?;
        if !records.is_empty() {
            records.truncate(MOST_LISTED);
            records.reverse();
            return Ok(records);
        }
        // A directory that holds anything else stays.
        let _ = remove_dir(rt, day.as_str());
    }
    Ok(Vec::new(alloc))
}

// The number of records.
fn count_in<R: Files + AllocGlobal + Copy>(rt: &R, alloc: Global, dir: &str) -> io::Result<u32> {
    let mut count = 0u32;
    for day in days_in(rt, alloc, dir)?.iter() {
        for entry in read_dir(rt, day.as_str())? {
            if is_record(entry?.file_name()) {
                count = count.saturating_add(1);
            }
        }
    }
    Ok(count)
}

// The directories of days, the oldest first.
fn days_in<R: Files + AllocGlobal + Copy>(
    rt: &R,
    alloc: Global,
    dir: &str,
) -> io::Result<Vec<String>> {
    paths_in(rt, alloc, dir, is_day)
}

// The records of a day, the oldest first.
fn records_in<R: Files + AllocGlobal + Copy>(
    rt: &R,
    alloc: Global,
    day: &str,
) -> io::Result<Vec<String>> {
    paths_in(rt, alloc, day, is_record)
}

// The paths of a directory's entries with wanted names, sorted by name.
fn paths_in<R: Files + AllocGlobal + Copy, F: Fn(&str) -> bool>(
    rt: &R,
    alloc: Global,
    dir: &str,
    is_wanted: F,
) -> io::Result<Vec<String>>
    requires { F.IsAlwaysCallable is_wanted }
{
    let mut paths = Vec::new(alloc);
    for entry in read_dir(rt, dir)? {
        let entry = entry?;
        if is_wanted(entry.file_name()) {
            paths.push(String::from_str(alloc, entry.path().as_str())?)?;
        }
    }
    paths.sort_unstable();
    Ok(paths)
}

// Whether it is a name like 2026-11-26.
fn is_day(name: &str) -> bool {
    name.len() == 10
        && name
            .as_bytes()
            .iter()
            .all(|byte| byte.is_ascii_digit() || *byte == b'-')
}

fn is_record(name: &str) -> bool {
    name.ends_with(EXTENSION)
}
