//! All counts of a proxy.
ghost use Rattle.std.specs.Prelude.{◌≡◌, ◌-◌};
ghost use Rattle.he_metrics.specs.Counting.{IsCounted, IsWon};

use crate::events::{Event, Win};
use crate::histogram::Histogram;
use crate::tables::{Ends, Lookups, Losses, Refusals, Wins};

/// The counts of a proxy since it began.
#[derive(Clone, Copy)]
pub struct Counts {
    /// Sessions that began.
    pub begun: u64,
    /// Sessions that ended, in all.
    pub ended: u64,
    pub ends: Ends,
    pub refused: Refusals,
    pub wins: Wins,
    pub losses: Losses,
    /// The times to connect of the races that connected.
    pub connect: Histogram,
    /// Their times to the first attempt.
    pub names: Histogram,
    /// The times that they lost.
    pub lost: Histogram,
    pub lookups: Lookups,
    /// Records that were written.
    pub recorded: u64,
    /// Records that could not be written.
    pub not_recorded: u64,
}

impl Counts {
    /// No events.
    pub const NONE: Counts = Counts {
        begun: 0,
        ended: 0,
        ends: Ends::NONE,
        refused: Refusals::NONE,
        wins: Wins::NONE,
        losses: Losses::NONE,
        connect: Histogram::NONE,
        names: Histogram::NONE,
        lost: Histogram::NONE,
        lookups: Lookups::NONE,
        recorded: 0,
        not_recorded: 0,
    };

    /// Counts the event.
    pub fn add(&mut self, event: Event)
        ensures { IsCounted event self.old self.new }
    {
        match event {
            Event::Begun => self.begun = self.begun.saturating_add(1),
            Event::Ended(end) => {
                self.ended = self.ended.saturating_add(1);
                self.ends.add(end);
            }
            Event::Refused(why) => self.refused.add(why),
            Event::Won(win) => self.add_win(win),
            Event::Lost(why) => self.losses.add(why),
            Event::LookedUp(how) => self.lookups.add(how),
            Event::Recorded => self.recorded = self.recorded.saturating_add(1),
            Event::NotRecorded => self.not_recorded = self.not_recorded.saturating_add(1),
        }
    }

    fn add_win(&mut self, win: Win)
        ensures { IsWon win self.old self.new }
    {
        self.wins.add(win.family);
        self.connect.add(win.connect);
        self.names.add(win.names);
        self.lost.add(win.lost);
    }

    /// The sessions that have not ended.
    pub fn open(&self) -> u64
        ensures { result ≡ self.now.begun - self.now.ended }
    {
        self.begun.saturating_sub(self.ended)
    }
}
