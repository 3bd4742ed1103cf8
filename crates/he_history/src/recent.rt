//! The last races, for the page.

use he_addr::{Family, Memory};
use he_course::Course;
use he_draw::{Times, Totals, write_head, write_name, write_section, write_tail};
use he_record::{Record, read_record};
use he_timeline::Timeline;
use std::alloc::Global;
use std::cell::Cell;

/// The most races on the page.
pub const PAGE_RACES: usize = 100;

/// The last races; above the limit, the oldest is removed.
#[derive(Drop)]
pub struct Recent {
    alloc: Global,
    races: Cell<Vec<Shown>>,
}

/// A race on the page, and its name.
#[derive(Drop)]
pub struct Shown {
    pub name: String,
    pub recorded: Timeline,
    /// The text of the race with its record lines; none if an allocation failed.
    pub text: Option<Vec<u8>>,
}

impl Recent {
    pub fn new(alloc: Global) -> Recent {
        Recent {
            alloc,
            races: Cell::new(Vec::new(alloc)),
        }
    }

    /// Adds a race. If an allocation fails, it isn't shown.
    pub fn add(&self, race: Shown) {
        let mut races = self.races.replace(Vec::new(self.alloc));
        if races.len() >= PAGE_RACES {
            races.remove(0);
        }
        let _ = races.push(race);
        self.races.set(races);
    }

    /// Appends a page of the races, newest first, which a browser reloads every five seconds.
    ///
    /// # Errors
    ///
    /// `Memory` if an allocation fails; part of the page may have been appended.
    pub fn write_page(&self, out: &mut Vec<u8>) -> Result<(), Memory> {
        let races = self.races.replace(Vec::new(self.alloc));
        let written = write_races(self.alloc, races.as_slice(), out);
        self.races.set(races);
        written
    }
}

// The races are shown in the order written, each with its name above it, and the browser reloads the page.
const NEWEST_FIRST: &[u8] =
    b"<style>article{display:flex!important}h2{display:block!important;flex:0 0 100%}</style>\
<meta http-equiv='refresh' content='5'>\n";

fn write_races(alloc: Global, races: &[Shown], out: &mut Vec<u8>) -> Result<(), Memory> {
    let mut counts = Counts::new(alloc);
    write_head(out)?;
    out.extend_from_slice(NEWEST_FIRST)?;
    for (place, race) in races.iter().rev().enumerate() {
        let course = Course::of(alloc, &race.recorded, place.saturating_add(1), 1)?;
        write_name(race.name.as_str(), out)?;
        write_section(&course, &record_of(alloc, race)?, 0, None, out)?;
        counts.add(&course)?;
    }
    write_tail(counts.totals()?, out)
}

// The record lines of the race.
fn record_of(alloc: Global, race: &Shown) -> Result<Record<'_>, Memory> {
    let Some(text) = &race.text else {
        return Ok(Record::none(alloc));
    };
    match read_record(alloc, text) {
        Ok((record, _length)) => Ok(record),
        Err(_fault) => Err(Memory),
    }
}

// The counts of the races.
#[derive(Drop)]
struct Counts {
    by_v6: u64,
    by_v4: u64,
    not_won: u64,
    // The times to connect of the won races.
    times: Vec<u64>,
    // The ticks at which races end.
    ends: Vec<u64>,
}

impl Counts {
    fn new(alloc: Global) -> Counts {
        Counts {
            by_v6: 0,
            by_v4: 0,
            not_won: 0,
            times: Vec::new(alloc),
            ends: Vec::new(alloc),
        }
    }

    fn add(&mut self, course: &Course<Global>) -> Result<(), Memory> {
        self.ends.push(course.end())?;
        let count = match course.ended.winner {
            Some(line) => {
                self.times.push(course.end())?;
                match line.ip.family() {
                    Family::V6 => &mut self.by_v6,
                    Family::V4 => &mut self.by_v4,
                }
            }
            None => &mut self.not_won,
        };
        *count = count.saturating_add(1);
        Ok(())
    }

    fn totals(self) -> Result<Totals, Memory> {
        let Counts {
            by_v6,
            by_v4,
            not_won,
            mut times,
            mut ends,
        } = self;
        times.sort_unstable();
        ends.sort_unstable();
        Ok(Totals {
            races: by_v6.saturating_add(by_v4).saturating_add(not_won),
            by_v6,
            by_v4,
            not_won,
            times: times_of(times.as_slice()),
            end: within(ends.as_slice(), 99).unwrap_or(0),
            longest: within(ends.as_slice(), 100).unwrap_or(0),
        })
    }
}

// Of sorted times, the least within which 50, 90 and 99 percent connect.
fn times_of(times: &[u64]) -> Option<Times> {
    Some(Times {
        median: within(times, 50)?,
        p90: within(times, 90)?,
        p99: within(times, 99)?,
    })
}

fn within(times: &[u64], percent: usize) -> Option<u64> {
    let count = times.len().saturating_mul(percent).div_ceil(100);
    times.get(count.saturating_sub(1)).copied()
}
